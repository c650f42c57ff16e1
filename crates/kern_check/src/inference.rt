// The types of what a kernel writes, from the types of what it reads.
ghost use Rattle.std.specs.Prelude.{◌≡◌, ◌<◌, IfOk, OnOk, Option, Some, None, length, [], ◌∷◌, ◌++◌, ◌+◌, ◌&&◌, nat_eq};
ghost use Rattle.work_code.specs.Term.{term, terms};
ghost use Rattle.kern_rows.specs.Forms.{code_form, filter_form};
ghost use Rattle.river_kernels.specs.Formed.{is_width, is_code};
ghost use Rattle.river_kernels.specs.Kern.{code, filter, duplicate, deal, collect, unpack, window, select, project, cross, streamer, tally};
ghost use Rattle.river_kernels.specs.Fits.{is_bag, are_widths, kept, spliced};
ghost use Rattle.river_kernels.specs.Types.{given_if, only_type, rows_width, stream_width, relation_width, all_flat, all_packs};
ghost use Rattle.river_kernels.specs.Types.{two_relations, types_of, packed_outs, MayAnswer};
ghost use Rattle.river_kernels.specs.declared.types.VarKind.TheVariants.{Private, Table};

use crate::formed::{
    are_formed_exprs, are_formed_weights, are_row_widths, is_formed_code, is_formed_expr,
    is_formed_filter, is_formed_window, is_row_width,
};
use crate::ports::{are_all, body_ports, is_row_type, repeated, width};
use kern_bags::{Streamer, Window};
use kern_rows::{CodeKernel, Filter};
use river_base::{FlatType, Listed, NoMemory, QueueType};
use river_kernels::{Types, VarKind};
use std::alloc::Global;
use work_code::{Expr, Exprs};

// The type of the only queue, where it carries no packs.
pub(crate) fn only_flat(reads: &[QueueType]) -> Option<FlatType>
    ensures { result ≡ only_type reads.now }
{
    match reads {
        [QueueType::Flat(t)] => Some(*t),
        _ => None,
    }
}

fn width_of_rows(t: FlatType) -> Option<u32>
    ensures { result ≡ rows_width t }
{
    match t {
        FlatType::Rows(n) => Some(n),
        _ => None,
    }
}

fn width_of_stream(t: FlatType) -> Option<u32>
    ensures { result ≡ stream_width t }
{
    match t {
        FlatType::Stream(n) => Some(n),
        _ => None,
    }
}

fn width_of_relation(t: FlatType) -> Option<u32>
    ensures { result ≡ relation_width t }
{
    match t {
        FlatType::Relation(n) => Some(n),
        _ => None,
    }
}

// The type of n queues, where they are all of it and carry no packs.
fn only_flats(reads: &[QueueType], n: usize) -> Option<FlatType>
    ensures { result ≡ all_flat n reads.now }
{
    match reads {
        [QueueType::Flat(t), rest @ ..] => {
            if rest.len() + 1 == n && are_all(rest, QueueType::Flat(*t)) {
                Some(*t)
            } else {
                None
            }
        }
        _ => None,
    }
}

// The type of what is in n queues of packs, where they are all of it.
fn only_packs(reads: &[QueueType], n: usize) -> Option<FlatType>
    ensures { result ≡ all_packs n reads.now }
{
    match reads {
        [QueueType::Pack(t), rest @ ..] => {
            if rest.len() + 1 == n && are_all(rest, QueueType::Pack(*t)) {
                Some(*t)
            } else {
                None
            }
        }
        _ => None,
    }
}

// The widths of two relations.
fn both_relations(reads: &[QueueType]) -> Option<(u32, u32)>
    ensures { result ≡ two_relations reads.now }
{
    match reads {
        [
            QueueType::Flat(FlatType::Relation(a)),
            QueueType::Flat(FlatType::Relation(b)),
        ] => Some((*a, *b)),
        _ => None,
    }
}

// One private variable.
fn private(alloc: Global) -> Result<Listed<VarKind>, NoMemory>
    ensures { IfOk result (λ vars. vars ≡ Private ∷ []) }
{
    let mut vars = Listed::new(alloc);
    vars.push(VarKind::Private)?;
    Ok(vars)
}

// One output port and these variables, where the kernel is well formed.
fn one_port(
    alloc: Global,
    formed: bool,
    out: QueueType,
    vars: Listed<VarKind>,
) -> Result<Option<Types>, NoMemory>
    ensures { IfOk result (λ found. found ≡ given_if formed (out ∷ []) vars) }
{
    if !formed {
        return Ok(None);
    }
    let mut outs = Listed::new(alloc);
    outs.push(out)?;
    Ok(Some(Types { outs, vars }))
}

fn is_fit_code(k: &CodeKernel, n: u32) -> bool
    ensures { result ≡ (nat_eq n k.now.code.inputs && (is_width k.now.code.inputs && (are_widths k.now.outs && is_code (code_form k.now)))) }
{
    n == k.code.inputs
        && is_row_width(k.code.inputs as u64)
        && are_row_widths(k.outs.as_slice())
        && is_formed_code(k)
}

pub(crate) fn of_code(
    alloc: Global,
    k: &CodeKernel,
    reads: &[QueueType],
) -> Result<Option<Types>, NoMemory>
    ensures { IfOk result (λ found. found ≡ types_of (code (code_form k.now)) reads.now) }
{
    let Some(t) = only_flat(reads) else {
        return Ok(None)
    };
    let Some(n) = width_of_rows(t) else {
        return Ok(None)
    };
    if !is_fit_code(k, n) {
        return Ok(None);
    }
    let outs = body_ports(alloc, k.outs.as_slice())?;
    let vars = kept_slots(alloc, k.starts.as_slice())?;
    Ok(Some(Types { outs, vars }))
}

// The variable of the slots that are kept, if there are any.
fn kept_slots(alloc: Global, starts: &[i64]) -> Result<Listed<VarKind>, NoMemory>
    ensures { IfOk result (λ vars. vars ≡ kept starts.now) }
{
    match starts {
        [] => Ok(Listed::new(alloc)),
        [_, ..] => private(alloc),
    }
}

pub(crate) fn of_filter(
    alloc: Global,
    f: &Filter,
    reads: &[QueueType],
) -> Result<Option<Types>, NoMemory>
    ensures { IfOk result (λ found. found ≡ types_of (filter (filter_form f.now)) reads.now) }
{
    let Some(t) = only_flat(reads) else {
        return Ok(None)
    };
    let Some(n) = width_of_rows(t) else {
        return Ok(None)
    };
    let formed = n == 1 && is_formed_filter(f);
    one_port(
        alloc,
        formed,
        QueueType::Flat(FlatType::Rows(1)),
        private(alloc)?,
    )
}

pub(crate) fn of_duplicate(
    alloc: Global,
    n: u32,
    reads: &[QueueType],
    most: usize,
) -> Result<Option<Types>, NoMemory>
    ensures { IfOk result (λ found. MayAnswer most (types_of (duplicate n) reads.now) found) }
{
    let Some(t) = only_flat(reads) else {
        return Ok(None)
    };
    if !(is_row_type(t) && 1 <= n) {
        return Ok(None);
    }
    if most < n as usize {
        return Ok(None);
    }
    let outs = repeated(alloc, QueueType::Flat(t), n as usize)?;
    Ok(Some(Types {
        outs,
        vars: Listed::new(alloc),
    }))
}

pub(crate) fn of_deal(
    alloc: Global,
    weights: &[i64],
    reads: &[QueueType],
) -> Result<Option<Types>, NoMemory>
    ensures { IfOk result (λ found. found ≡ types_of (deal weights.now) reads.now) }
{
    let Some(t) = only_flat(reads) else {
        return Ok(None)
    };
    if !(is_row_type(t) && are_formed_weights(weights)) {
        return Ok(None);
    }
    let outs = repeated(alloc, QueueType::Flat(t), weights.len())?;
    Ok(Some(Types {
        outs,
        vars: private(alloc)?,
    }))
}

pub(crate) fn of_collect(
    alloc: Global,
    weights: &[i64],
    reads: &[QueueType],
) -> Result<Option<Types>, NoMemory>
    ensures { IfOk result (λ found. found ≡ types_of (collect weights.now) reads.now) }
{
    let Some(t) = only_flats(reads, weights.len()) else {
        return Ok(None)
    };
    let formed = is_row_type(t) && are_formed_weights(weights);
    one_port(alloc, formed, QueueType::Flat(t), private(alloc)?)
}

pub(crate) fn of_unpack(
    alloc: Global,
    n: u32,
    reads: &[QueueType],
) -> Result<Option<Types>, NoMemory>
    ensures { IfOk result (λ found. found ≡ types_of (unpack n) reads.now) }
{
    let Some(t) = only_packs(reads, n as usize) else {
        return Ok(None)
    };
    let formed = is_row_type(t) && 1 <= n;
    one_port(alloc, formed, QueueType::Flat(t), private(alloc)?)
}

pub(crate) fn of_window(
    alloc: Global,
    w: &Window,
    reads: &[QueueType],
) -> Result<Option<Types>, NoMemory>
    ensures { IfOk result (λ found. found ≡ types_of (window w.now) reads.now) }
{
    let Some(t) = only_flat(reads) else {
        return Ok(None)
    };
    let Some(n) = width_of_stream(t) else {
        return Ok(None)
    };
    let formed = is_row_width(n as u64) && is_formed_window(w);
    one_port(
        alloc,
        formed,
        QueueType::Flat(FlatType::Relation(n)),
        private(alloc)?,
    )
}

fn is_bag_type(t: FlatType) -> bool
    ensures { result ≡ is_bag t }
{
    match t {
        FlatType::Rows(_) => false,
        FlatType::Stream(_) | FlatType::Relation(_) => true,
    }
}

pub(crate) fn of_select(
    alloc: Global,
    cond: &Expr,
    reads: &[QueueType],
) -> Result<Option<Types>, NoMemory>
    ensures { IfOk result (λ found. found ≡ types_of (select (term cond.now)) reads.now) }
{
    let Some(t) = only_flat(reads) else {
        return Ok(None)
    };
    let formed = is_row_type(t) && is_bag_type(t) && is_formed_expr(cond, width(t), 0);
    one_port(alloc, formed, QueueType::Flat(t), Listed::new(alloc))
}

pub(crate) fn of_project(
    alloc: Global,
    list: &Exprs,
    reads: &[QueueType],
) -> Result<Option<Types>, NoMemory>
    ensures { IfOk result (λ found. found ≡ types_of (project (terms list.now)) reads.now) }
{
    let Some(t) = only_flat(reads) else {
        return Ok(None)
    };
    let Some(n) = width_of_relation(t) else {
        return Ok(None)
    };
    let formed = is_row_width(n as u64)
        && is_row_width(list.len() as u64)
        && are_formed_exprs(list, n, 0);
    if !formed {
        return Ok(None);
    }
    one_port(
        alloc,
        formed,
        QueueType::Flat(FlatType::Relation(list.len() as u32)),
        Listed::new(alloc),
    )
}

pub(crate) fn of_cross(alloc: Global, reads: &[QueueType]) -> Result<Option<Types>, NoMemory>
    ensures { IfOk result (λ found. found ≡ types_of cross reads.now) }
{
    let Some((a, b)) = both_relations(reads) else {
        return Ok(None)
    };
    if !(is_row_width(a as u64) && is_row_width(b as u64)) {
        return Ok(None);
    }
    let formed = is_row_width((a + b) as u64);
    one_port(
        alloc,
        formed,
        QueueType::Flat(FlatType::Relation(a + b)),
        private(alloc)?,
    )
}

pub(crate) fn of_streamer(
    alloc: Global,
    _s: &Streamer,
    reads: &[QueueType],
) -> Result<Option<Types>, NoMemory>
    ensures { IfOk result (λ found. found ≡ types_of (streamer _s.now) reads.now) }
{
    let Some(t) = only_flat(reads) else {
        return Ok(None)
    };
    let Some(n) = width_of_relation(t) else {
        return Ok(None)
    };
    one_port(
        alloc,
        is_row_width(n as u64),
        QueueType::Flat(FlatType::Stream(n)),
        private(alloc)?,
    )
}

pub(crate) fn of_tally(alloc: Global, reads: &[QueueType]) -> Result<Option<Types>, NoMemory>
    ensures { IfOk result (λ found. found ≡ types_of tally reads.now) }
{
    let Some(t) = only_flat(reads) else {
        return Ok(None)
    };
    let Some(n) = width_of_rows(t) else {
        return Ok(None)
    };
    if !is_row_width(n as u64) {
        return Ok(None);
    }
    let mut vars = Listed::new(alloc);
    vars.push(VarKind::Table(n as u64))?;
    Ok(Some(Types {
        outs: Listed::new(alloc),
        vars,
    }))
}

// One pack of what the kernel inside gives at its only port.
pub(crate) fn one_pack(alloc: Global, within: &Types) -> Result<Option<Types>, NoMemory>
    ensures { IfOk result (λ found. found ≡ packed_outs within.now.outs within.now.vars) }
{
    match (within.outs.as_slice(), within.vars.as_slice()) {
        ([QueueType::Flat(u)], []) => {
            one_port(alloc, true, QueueType::Pack(*u), Listed::new(alloc))
        }
        _ => Ok(None),
    }
}

// Appends these.
fn add_all<T: Copy + Drop>(list: &mut Listed<T>, more: &[T]) -> Result<(), NoMemory>
    ensures { OnOk result (list.new ≡ list.old ++ more.now) }
{
    for x in more {
        list.push(*x)?;
    }
    Ok(())
}

// The second kernel's ports in place of port `at` of the first; the first's variables, then the second's.
pub(crate) fn splice(
    alloc: Global,
    first: &Types,
    second: &Types,
    at: usize,
) -> Result<Types, NoMemory>
    requires { at < length first.now.outs }
    ensures outs { IfOk result (λ both. both.outs ≡ spliced at first.now.outs second.now.outs) }
    ensures vars { IfOk result (λ both. both.vars ≡ first.now.vars ++ second.now.vars) }
{
    let firsts = first.outs.as_slice();
    let mut outs = Listed::new(alloc);
    add_all(&mut outs, &firsts[..at])?;
    add_all(&mut outs, second.outs.as_slice())?;
    add_all(&mut outs, &firsts[at + 1..])?;
    let mut vars = Listed::new(alloc);
    add_all(&mut vars, first.vars.as_slice())?;
    add_all(&mut vars, second.vars.as_slice())?;
    Ok(Types { outs, vars })
}
