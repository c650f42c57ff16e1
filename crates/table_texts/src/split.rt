// What a run printed, split at the lines of names.
ghost use Rattle.std.specs.Prelude.{◌≡◌, ◌≤◌, ◌-◌, ◌++◌, ◌==◌, ℕ, List, take, drop, length, IfOk, IfErr, IfSome, IfNone};
ghost use Rattle.csv_streams.specs.Outcome.{under_name};
ghost use Rattle.river_plan.specs.Forms.{table_names};
ghost use Rattle.table_texts.specs.Split as split;

use river_base::{Bytes, Listed, NoMemory};
use river_plan::TableDecl;
use std::alloc::Global;

/// Why a text is not split.
#[derive(Clone, Copy, Debug, PartialEq, Eq)]
pub enum NoSplit {
    /// It is not what a run prints of these tables.
    Other,
    /// There was no memory.
    NoMemory,
}

impl From<NoMemory> for NoSplit {
    ghost use Rattle.table_texts.specs.declared.split.NoSplit.TheVariants as fault;

    ghost from_gives = { λ _ e. e ≡ fault.NoMemory };

    fn from(_fault: NoMemory) -> Self {
        NoSplit::NoMemory
    }
}

/// The texts of the tables, which stand behind the lines of their names; `Other` exactly where there is no such split.
#[tactic(auto, using(crate::proofs::Splits::fronts))]
pub fn split_tables(
    alloc: Global,
    tables: &[TableDecl],
    out: &[u8],
) -> Result<Listed<Bytes>, NoSplit>
    ensures split { IfOk result (λ sections. split.IsSplit (table_names tables.now) out.now sections) }
    ensures none { IfErr result (split.SaysNoSplit (table_names tables.now) out.now) }
{
    let mut sections = Listed::new(alloc);
    let mut place = 0;
    for i in 0..tables.len() {
        place = split_next(alloc, tables[i].name.as_slice(), out, place, &mut sections)?;
    }
    if place == out.len() {
        Ok(sections)
    } else {
        Err(NoSplit::Other)
    }
}

// Appends the text of the table of this name, which begins at this place with its line, and says where it ends.
#[tactic(auto, using(crate::proofs::Splits::sections))]
fn split_next(
    alloc: Global,
    name: &[u8],
    out: &[u8],
    place: usize,
    sections: &mut Listed<Bytes>,
) -> Result<usize, NoSplit>
    requires { place ≤ length out.now }
    ensures within { IfOk result (λ end. end ≤ length out.now) }
    ensures next { IfOk result (λ end. split.IsNext name.now (drop place out.now) (drop end out.now) sections.old sections.new) }
    ensures none { IfErr result (split.SaysNoLine name.now (drop place out.now)) }
{
    let Some(begin) = behind_line(name, out, place) else {
        return Err(NoSplit::Other);
    };
    let end = section_end(out, begin);
    sections.push(Bytes::from_slice(alloc, &out[begin..end])?)?;
    Ok(end)
}

// Where the text begins whose line is at this place.
#[tactic(auto, using(crate::proofs::Splits::lines))]
fn behind_line(name: &[u8], out: &[u8], place: usize) -> Option<usize>
    requires { place ≤ length out.now }
    ensures within { IfSome result (λ begin. begin ≤ length out.now) }
    ensures line { IfSome result (λ begin. drop place out.now ≡ under_name name.now (drop begin out.now)) }
    ensures none { IfNone result ((text : List ℕ) → drop place out.now ≡ under_name name.now text → ⊥) }
{
    let at_name = behind(b"# ", out, place)?;
    let at_end = behind(name, out, at_name)?;
    behind(b"\n", out, at_end)
}

// The place behind this word, if it stands at this one.
#[tactic(auto, using(crate::proofs::Splits::words))]
fn behind(word: &[u8], out: &[u8], place: usize) -> Option<usize>
    requires { place ≤ length out.now }
    ensures within { IfSome result (λ end. end ≤ length out.now) }
    ensures word { IfSome result (λ end. drop place out.now ≡ word.now ++ drop end out.now) }
    ensures none { IfNone result ((rest : List ℕ) → drop place out.now ≡ word.now ++ rest → ⊥) }
{
    if word.len() > out.len() - place {
        return None;
    }
    let end = place + word.len();
    if &out[place..end] == word {
        Some(end)
    } else {
        None
    }
}

// Where the next # stands, or the end.
#[tactic(auto, using(crate::proofs::Splits::ends))]
fn section_end(out: &[u8], from: usize) -> usize
    requires { from ≤ length out.now }
    ensures after { from ≤ result }
    ensures within { result ≤ length out.now }
    ensures none { split.HasNoName (take (result - from) (drop from out.now)) }
    ensures ends { split.StartsName (drop result out.now) }
{
    for place in from..out.len() {
        if begins_line(out[place]) {
            return place;
        }
    }
    out.len()
}

// Whether a line of a name may begin with the byte.
fn begins_line(byte: u8) -> bool
    ensures { result ≡ (byte == 35) }
{
    byte == b'#'
}
