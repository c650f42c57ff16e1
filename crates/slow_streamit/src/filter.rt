// Filters: firing after firing.
ghost use Rattle.std.specs.Prelude.{◌≡◌, ◌<◌, ◌^◌, ◌++◌, suc, [], length, map, replicate, pos, IfOk, OnOk};
ghost use Rattle.streamit_model.specs.Meaning.{exec_all, nought, at_start, initial, pop_of, runs_in, fires_from, rate_or, pushed_by};
ghost use Rattle.streamit_text.specs.Program.{work_tree, filter_tree};
ghost use Rattle.streamit_text.specs.Tree.{block};
ghost use Rattle.streamit_unroll.specs.Filter.{IsReadable};
ghost use Rattle.streamit_unroll.specs.Unrolling.{AreWritten};
ghost use Rattle.slow_streamit.specs.Firing.{named_values};

use crate::firing::Firing;
use river_base::{Name, NoMemory, Numbers};
use std::alloc::Global;
use streamit_text::{Block, FilterTree, Rates, WorkTree};

/// What a filter pushes.
pub(crate) fn pushed_by(
    alloc: Global,
    tree: &FilterTree,
    items: &[i64],
) -> Result<Numbers, NoMemory>
    requires { IsReadable (filter_tree tree.now) }
    ensures { IfOk result (λ out. out ≡ pushed_by (filter_tree tree.now) items.now) }
{
    let mut kept = initial(alloc, tree)?;
    let mut out = Numbers::new(alloc);
    fire_all(alloc, tree, items, &mut kept, &mut out)?;
    Ok(out)
}

// The fields after `init`.
fn initial(alloc: Global, tree: &FilterTree) -> Result<Numbers, NoMemory>
    requires { IsReadable (filter_tree tree.now) }
    ensures { IfOk result (λ kept. kept ≡ initial (filter_tree tree.now)) }
{
    let mut firing = Firing::new(alloc);
    fields_after(alloc, tree, &mut firing)
}

// The same, where nothing has a value yet.
fn fields_after(alloc: Global, tree: &FilterTree, firing: &mut Firing) -> Result<Numbers, NoMemory>
    requires readable { IsReadable (filter_tree tree.now) }
    requires values { named_values firing.old.values ≡ nought }
    requires popped { firing.old.popped ≡ 0 }
    requires pushed { firing.old.pushed ≡ [] }
    ensures { IfOk result (λ kept. kept ≡ initial (filter_tree tree.now)) }
{
    let fields = tree.fields.as_slice();
    let zeros = zeros(alloc, fields.len())?;
    firing.begin(fields, zeros.as_slice())?;
    firing.optional(&tree.init, &[])?;
    firing.fields(alloc, fields)
}

// So many zeros.
fn zeros(alloc: Global, count: usize) -> Result<Numbers, NoMemory>
    ensures { IfOk result (λ all. all ≡ replicate count (pos 0)) }
{
    let mut all = Numbers::new(alloc);
    for _i in 0..count {
        all.push(0)?;
    }
    Ok(all)
}

// All firings, where the first takes place: where the items that it looks at are there, and one at least. The fields pass from one
// to the next.
fn fire_all(
    alloc: Global,
    tree: &FilterTree,
    items: &[i64],
    kept: &mut Numbers,
    out: &mut Numbers,
) -> Result<(), NoMemory>
    requires readable { IsReadable (filter_tree tree.now) }
    requires kept { length kept.old ≡ length (filter_tree tree.now).fields }
    ensures { OnOk result (out.new ≡ out.old ++ fires_from (filter_tree tree.now) (suc (length items.now)) 0 kept.old items.now) }
{
    let first = first_of(tree);
    let peek = peek_of(first.rates);
    if items.len() < peek.max(1) {
        return Ok(());
    }
    fire(
        alloc,
        tree.fields.as_slice(),
        &first.block,
        &items[..peek],
        kept,
        out,
    )?;
    fire_others(alloc, tree, pop_of(first.rates), items, kept, out)
}

// What the first firing runs.
fn first_of(tree: &FilterTree) -> &WorkTree
    requires { IsReadable (filter_tree tree.now) }
    ensures is { work_tree result.now ≡ runs_in (filter_tree tree.now) 0 }
    ensures written { AreWritten (work_tree result.now).block }
{
    match &tree.prework {
        Some(prework) => prework,
        None => &tree.work,
    }
}

// All firings but the first, of which the next starts there: each takes place where the items that it looks at are there.
fn fire_others(
    alloc: Global,
    tree: &FilterTree,
    first: usize,
    items: &[i64],
    kept: &mut Numbers,
    out: &mut Numbers,
) -> Result<(), NoMemory>
    requires work { AreWritten (filter_tree tree.now).work.block }
    requires first { first ≡ pop_of (runs_in (filter_tree tree.now) 0) }
    requires small { first < 2 ^ 32 }
    requires kept { length kept.old ≡ length (filter_tree tree.now).fields }
    ensures { OnOk result (out.new ≡ out.old ++ fires_from (filter_tree tree.now) (length items.now) 1 kept.old items.now) }
{
    let pop = pop_of(tree.work.rates);
    let peek = peek_of(tree.work.rates);
    let mut start = first;
    for j in 0..items.len() {
        let end = start + peek;
        if end > items.len() {
            return Ok(());
        }
        fire(
            alloc,
            tree.fields.as_slice(),
            &tree.work.block,
            &items[start..end],
            kept,
            out,
        )?;
        start += pop;
    }
    Ok(())
}

// How many items a firing pops, where the rate is written.
fn pop_of(rates: Rates) -> usize
    ensures is { result ≡ rate_or rates.pop 0 }
    ensures small { result < 2 ^ 32 }
{
    rates.pop.unwrap_or(0) as usize
}

// How many items a firing looks at: as many as it pops, where the rate is not written.
fn peek_of(rates: Rates) -> usize
    ensures is { result ≡ rate_or rates.peek (rate_or rates.pop 0) }
    ensures small { result < 2 ^ 32 }
{
    match rates.peek {
        Some(peek) => peek as usize,
        None => pop_of(rates),
    }
}

// One firing of a block on the items that it looks at.
fn fire(
    alloc: Global,
    fields: &[Name],
    body: &Block,
    items: &[i64],
    kept: &mut Numbers,
    out: &mut Numbers,
) -> Result<(), NoMemory>
    requires written { AreWritten (block body.now) }
    requires kept { length kept.old ≡ length fields.now }
    ensures kept { OnOk result (kept.new ≡ map (exec_all (block body.now) items.now (at_start fields.now kept.old)).values fields.now) }
    ensures out { OnOk result (out.new ≡ out.old ++ (exec_all (block body.now) items.now (at_start fields.now kept.old)).pushed) }
{
    let mut firing = Firing::new(alloc);
    fire_anew(alloc, fields, body, items, &mut firing, kept, out)
}

// The same, where nothing has a value yet.
fn fire_anew(
    alloc: Global,
    fields: &[Name],
    body: &Block,
    items: &[i64],
    firing: &mut Firing,
    kept: &mut Numbers,
    out: &mut Numbers,
) -> Result<(), NoMemory>
    requires written { AreWritten (block body.now) }
    requires kept { length kept.old ≡ length fields.now }
    requires values { named_values firing.old.values ≡ nought }
    requires popped { firing.old.popped ≡ 0 }
    requires pushed { firing.old.pushed ≡ [] }
    ensures kept { OnOk result (kept.new ≡ map (exec_all (block body.now) items.now (at_start fields.now kept.old)).values fields.now) }
    ensures out { OnOk result (out.new ≡ out.old ++ (exec_all (block body.now) items.now (at_start fields.now kept.old)).pushed) }
{
    firing.begin(fields, kept.as_slice())?;
    firing.block(body, items)?;
    *kept = firing.fields(alloc, fields)?;
    add_values(firing.pushed.as_slice(), out)
}

/// Appends values.
pub(crate) fn add_values(more: &[i64], values: &mut Numbers) -> Result<(), NoMemory>
    ensures { OnOk result (values.new ≡ values.old ++ more.now) }
{
    for value in more {
        values.push(*value)?;
    }
    Ok(())
}
