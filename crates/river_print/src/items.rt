// Prints numbers, and items joined by a comma and a space.
ghost use Rattle.std.specs.Prelude.{◌≡◌, ◌++◌, [], ◌∷◌, map, codes, OnOk};
ghost use Rattle.std.specs.Fmt.{decimal};
ghost use Rattle.work_code.specs.Printed.{items_text, more_items};
ghost use Rattle.river_print.specs.Printed.{start_text, list_text, var_text, ports_text};
ghost use Rattle.river_print.specs.Styles.{text_in};

use river_base::{Bytes, Name, NoMemory};

/// Appends a start; the least value is `min`.
pub(crate) fn start(start: i64, to: &mut Bytes) -> Result<(), NoMemory>
    ensures { OnOk result (to.new ≡ to.old ++ start_text start) }
{
    if start == i64::MIN {
        return to.extend(b"min");
    }
    to.put_number(start)
}

/// Appends one number in brackets.
#[tactic(auto, using(crate::proofs::Joined::joins))]
pub(crate) fn in_brackets(n: u32, to: &mut Bytes) -> Result<(), NoMemory>
    ensures { OnOk result (to.new ≡ to.old ++ list_text (decimal n ∷ [])) }
{
    to.extend(b"(")?;
    to.put_number(n)?;
    to.extend(b")")
}

/// Appends a number behind a comma and a space.
#[tactic(auto, using(crate::proofs::Joined::joins))]
pub(crate) fn next_number(n: u32, to: &mut Bytes) -> Result<(), NoMemory>
    ensures { OnOk result (to.new ≡ to.old ++ (codes ", " ++ decimal n)) }
{
    to.extend(b", ")?;
    to.put_number(n)
}

/// Appends two numbers in brackets.
#[tactic(auto, using(crate::proofs::Joined::joins))]
pub(crate) fn two_in_brackets(a: u32, b: u32, to: &mut Bytes) -> Result<(), NoMemory>
    ensures { OnOk result (to.new ≡ to.old ++ list_text (decimal a ∷ decimal b ∷ [])) }
{
    to.extend(b"(")?;
    to.put_number(a)?;
    next_number(b, to)?;
    to.extend(b")")
}

/// Appends an opening bracket and three numbers.
#[tactic(auto, using(crate::proofs::Joined::joins))]
pub(crate) fn begin_three(a: u32, b: u32, c: u32, to: &mut Bytes) -> Result<(), NoMemory>
    ensures { OnOk result (to.new ≡ to.old ++ (codes "(" ++ (decimal a ++ (codes ", " ++ (decimal b ++ (codes ", " ++ decimal c)))))) }
{
    to.extend(b"(")?;
    to.put_number(a)?;
    next_number(b, to)?;
    next_number(c, to)
}

/// Appends a word and one number in brackets.
#[tactic(auto, using(crate::proofs::Joined::joins))]
pub(crate) fn counted(word: &[u8], count: u32, to: &mut Bytes) -> Result<(), NoMemory>
    ensures { OnOk result (to.new ≡ to.old ++ (word.now ++ list_text (decimal count ∷ []))) }
{
    to.extend(word)?;
    in_brackets(count, to)
}

/// Appends a word, a name and a colon.
#[tactic(auto, using(crate::proofs::Joined::joins))]
pub(crate) fn titled(word: &[u8], name: &Name, to: &mut Bytes) -> Result<(), NoMemory>
    ensures { OnOk result (to.new ≡ to.old ++ (word.now ++ (name.now ++ codes ": "))) }
{
    to.extend(word)?;
    to.extend(name.as_slice())?;
    to.extend(b": ")
}

/// How the numbers of a list are written.
#[derive(Clone, Copy)]
pub(crate) enum Style {
    /// In decimal.
    Value,
    /// In decimal, but the least one is `min`.
    Start,
}

// Appends a number of a list.
fn item(number: i64, style: Style, to: &mut Bytes) -> Result<(), NoMemory>
    ensures { OnOk result (to.new ≡ to.old ++ text_in style number) }
{
    match style {
        Style::Value => to.put_number(number),
        Style::Start => start(number, to),
    }
}

/// Appends numbers in brackets.
#[tactic(auto, using(crate::proofs::Joined::joins))]
pub(crate) fn numbers(items: &[i64], style: Style, to: &mut Bytes) -> Result<(), NoMemory>
    ensures { OnOk result (to.new ≡ to.old ++ list_text (map (text_in style) items.now)) }
{
    to.extend(b"(")?;
    if let Some((first, rest)) = items.split_first() {
        item(*first, style, to)?;
        more_numbers(rest, style, to)?;
    }
    to.extend(b")")
}

#[tactic(auto, using(crate::proofs::Joined::joins))]
fn more_numbers(items: &[i64], style: Style, to: &mut Bytes) -> Result<(), NoMemory>
    ensures { OnOk result (to.new ≡ to.old ++ more_items (map (text_in style) items.now)) }
{
    for number in items {
        to.extend(b", ")?;
        item(*number, style, to)?;
    }
    Ok(())
}

/// Appends the names of queues and then those of variables, in brackets.
#[tactic(auto, using(crate::proofs::Joined::joins))]
pub(crate) fn ports(queues: &[Name], vars: &[Name], to: &mut Bytes) -> Result<(), NoMemory>
    ensures { OnOk result (to.new ≡ to.old ++ ports_text queues.now vars.now) }
{
    to.extend(b"(")?;
    port_items(queues, vars, to)?;
    to.extend(b")")
}

#[tactic(auto, using(crate::proofs::Joined::ports))]
fn port_items(queues: &[Name], vars: &[Name], to: &mut Bytes) -> Result<(), NoMemory>
    ensures { OnOk result (to.new ≡ to.old ++ items_text (queues.now ++ map var_text vars.now)) }
{
    let Some((first, rest)) = queues.split_first() else {
        return var_items(vars, to);
    };
    to.extend(first.as_slice())?;
    more_queues(rest, to)?;
    more_vars(vars, to)
}

#[tactic(auto, using(crate::proofs::Joined::joins))]
fn var_items(vars: &[Name], to: &mut Bytes) -> Result<(), NoMemory>
    ensures { OnOk result (to.new ≡ to.old ++ items_text (map var_text vars.now)) }
{
    let Some((first, rest)) = vars.split_first() else {
        return Ok(());
    };
    var(first, to)?;
    more_vars(rest, to)
}

/// Appends a variable with its dollar sign.
#[tactic(auto, using(crate::proofs::Joined::joins))]
pub(crate) fn var(name: &Name, to: &mut Bytes) -> Result<(), NoMemory>
    ensures { OnOk result (to.new ≡ to.old ++ var_text name.now) }
{
    to.extend(b"$")?;
    to.extend(name.as_slice())
}

#[tactic(auto, using(crate::proofs::Joined::joins))]
fn more_queues(items: &[Name], to: &mut Bytes) -> Result<(), NoMemory>
    ensures { OnOk result (to.new ≡ to.old ++ more_items items.now) }
{
    for item in items {
        to.extend(b", ")?;
        to.extend(item.as_slice())?;
    }
    Ok(())
}

#[tactic(auto, using(crate::proofs::Joined::joins))]
fn more_vars(items: &[Name], to: &mut Bytes) -> Result<(), NoMemory>
    ensures { OnOk result (to.new ≡ to.old ++ more_items (map var_text items.now)) }
{
    for item in items {
        to.extend(b", ")?;
        var(item, to)?;
    }
    Ok(())
}
