// What a StreamIt program means: each stream by itself, on all the items of its input at once.
ghost use Rattle.std.specs.Prelude.{◌≡◌, ◌+◌, suc, length, [], ◌∷◌, ◌++◌, IfOk, OnOk};
ghost use Rattle.streamit_model.specs.Laws.{as_items};
ghost use Rattle.brooklet_model.specs.ByIndex.{collected};
ghost use Rattle.streamit_model.specs.Meaning.{known_works, body_works, piped, share_of, weights_for, program_outputs};
ghost use Rattle.streamit_text.specs.Program.{unit_forms, body_of, adds_of, dealing_of, weights_of};
ghost use Rattle.streamit_build.specs.Readable.{IsReadableBody, AreReadable};
ghost use Rattle.slow_streamit.specs.Works.{works_of, branch_works, IsNewestPlace};

use crate::filter::{add_values, pushed_by};
use crate::round::{collected, dealt, weights_for};
use brooklet_step::{Lines, Outcome, Tables};
use kern_rows::ItemLine;
use river_base::{Flat, Item, Items, Listed, Name, NoMemory, Numbers, Row};
use std::alloc::Global;
use streamit_text::{Adds, Body, RoundRobin, Split, SplitJoin, StreamitProgram, Unit};

/// What a program means by the definition of StreamIt for these values of its input: the items of its output. There are no
/// tables, and no firings are counted.
pub fn mean_streamit(
    alloc: Global,
    program: &StreamitProgram,
    values: &Numbers,
) -> Result<Outcome, NoMemory>
    requires { AreReadable (unit_forms program.now.units.items) }
    ensures outs { IfOk result (λ o. o.outs ≡ as_items (program_outputs (unit_forms program.now.units.items) values.now) ∷ []) }
    ensures tables { IfOk result (λ o. o.tables ≡ []) }
    ensures counts { IfOk result (λ o. o.counts ≡ []) }
{
    let out = outputs(alloc, program.units.as_slice(), values.as_slice())?;
    let items = items(alloc, out.as_slice())?;
    outcome(alloc, ItemLine::from_items(alloc, items))
}

// The one output, and nothing else.
fn outcome(alloc: Global, line: ItemLine) -> Result<Outcome, NoMemory>
    ensures outs { IfOk result (λ o. o.outs ≡ line ∷ []) }
    ensures tables { IfOk result (λ o. o.tables ≡ []) }
    ensures counts { IfOk result (λ o. o.counts ≡ []) }
{
    let mut outs = Lines::new(alloc);
    outs.push(line)?;
    Ok(Outcome {
        outs,
        tables: Tables::new(alloc),
        counts: Numbers::new(alloc),
    })
}

// Values as the items of a queue that carries single values.
fn items(alloc: Global, values: &[i64]) -> Result<Items, NoMemory>
    ensures { IfOk result (λ items. items ≡ as_items values.now) }
{
    let mut items = Items::new(alloc);
    add_items(values, &mut items)?;
    Ok(items)
}

// The same, where there is none yet.
fn add_items(values: &[i64], items: &mut Items) -> Result<(), NoMemory>
    requires { items.old ≡ [] }
    ensures { OnOk result (items.new ≡ as_items values.now) }
{
    for value in values {
        items.push(Item::Flat(Flat::One(Row::one(*value))))?;
    }
    Ok(())
}

// What the last of these streams gives, which is the program's. No streams give back what they are given.
fn outputs(alloc: Global, units: &[Unit], items: &[i64]) -> Result<Numbers, NoMemory>
    requires { AreReadable (unit_forms units.now) }
    ensures { IfOk result (λ out. out ≡ program_outputs (unit_forms units.now) items.now) }
{
    match units.len().checked_sub(1) {
        Some(last) => works(alloc, &units[..last], &units[last].body, items),
        None => copied(alloc, items),
    }
}

// These values.
fn copied(alloc: Global, items: &[i64]) -> Result<Numbers, NoMemory>
    ensures { IfOk result (λ out. out ≡ items.now) }
{
    let mut out = Numbers::new(alloc);
    add_values(items, &mut out)?;
    Ok(out)
}

// What the stream of a name gives, among these that are declared: the newest that has the name. A name of no stream gives
// back what it is given.
#[cycle(works)]
fn named(alloc: Global, above: &[Unit], name: Name, items: &[i64]) -> Result<Numbers, NoMemory>
    requires { AreReadable (unit_forms above.now) }
    ensures { IfOk result (λ out. out ≡ known_works (works_of above.now) name items.now) }
{
    match place(above, name) {
        Some(i) => works(alloc, &above[..i], &above[i].body, items),
        None => copied(alloc, items),
    }
}

// Where the newest stream of a name stands.
fn place(above: &[Unit], name: Name) -> Option<usize>
    ensures { IsNewestPlace above.now name result }
{
    let mut i = above.len();
    while i > 0 {
        i -= 1;
        if above[i].name == name {
            return Some(i);
        }
    }
    None
}

// What is declared gives this, below these streams.
#[cycle(works)]
fn works(alloc: Global, above: &[Unit], body: &Body, items: &[i64]) -> Result<Numbers, NoMemory>
    requires above { AreReadable (unit_forms above.now) }
    requires body { IsReadableBody (body_of body.now) }
    ensures { IfOk result (λ out. out ≡ body_works (works_of above.now) (body_of body.now) items.now) }
{
    match body {
        Body::Filter(tree) => pushed_by(alloc, tree, items),
        Body::Pipeline(adds) => piped(alloc, above, adds, items),
        Body::SplitJoin(parts) => joined(alloc, above, parts, items),
    }
}

// One stream after another.
#[cycle(works)]
fn piped(alloc: Global, above: &[Unit], adds: &Adds, items: &[i64]) -> Result<Numbers, NoMemory>
    requires { AreReadable (unit_forms above.now) }
    ensures { IfOk result (λ out. out ≡ piped (works_of above.now) adds.now.first adds.now.others.items items.now) }
{
    let mut out = named(alloc, above, adds.first, items)?;
    for name in adds.others.as_slice() {
        out = named(alloc, above, *name, out.as_slice())?;
    }
    Ok(out)
}

// Branch by branch, each on its share, and then joined.
#[cycle(works)]
fn joined(
    alloc: Global,
    above: &[Unit],
    parts: &SplitJoin,
    items: &[i64],
) -> Result<Numbers, NoMemory>
    requires { AreReadable (unit_forms above.now) }
    ensures { IfOk result (λ out. out ≡ body_works (works_of above.now) (body_of (Body.SplitJoin parts.now)) items.now) }
{
    let mut lists = Listed::new(alloc);
    branches(alloc, above, parts, items, &mut lists)?;
    joined_by(alloc, &parts.join, lists.as_slice())
}

// What a joiner whose weights are written so collects from these.
fn joined_by(alloc: Global, written: &RoundRobin, lists: &[Numbers]) -> Result<Numbers, NoMemory>
    ensures { IfOk result (λ out. out ≡ collected (weights_for (weights_of written.now) (length lists.now)) lists.now) }
{
    let weights = weights_for(alloc, written, lists.len())?;
    collected(alloc, weights.as_slice(), lists)
}

// What all branches give.
#[cycle(works)]
fn branches(
    alloc: Global,
    above: &[Unit],
    parts: &SplitJoin,
    items: &[i64],
    lists: &mut Listed<Numbers>,
) -> Result<(), NoMemory>
    requires { AreReadable (unit_forms above.now) }
    ensures { OnOk result (lists.new ≡ lists.old ++ branch_works above.now (dealing_of parts.now.split) (adds_of parts.now.adds) items.now) }
{
    let others = parts.adds.others.as_slice();
    let count = ports(others.len())?;
    let first = share(alloc, &parts.split, count, 0, items)?;
    lists.push(named(alloc, above, parts.adds.first, first.as_slice())?)?;
    for i in 0..others.len() {
        let next = share(alloc, &parts.split, count, i + 1, items)?;
        lists.push(named(alloc, above, others[i], next.as_slice())?)?;
    }
    Ok(())
}

// How many branches there are; there is no memory for so many where there is no such number.
fn ports(others: usize) -> Result<usize, NoMemory>
    ensures { IfOk result (λ n. n ≡ suc others) }
{
    others.checked_add(1).ok_or(NoMemory)
}

// What branch p of so many takes.
fn share(
    alloc: Global,
    split: &Split,
    branches: usize,
    p: usize,
    items: &[i64],
) -> Result<Numbers, NoMemory>
    ensures { IfOk result (λ out. out ≡ share_of (dealing_of split.now) branches p items.now) }
{
    match split {
        Split::Duplicate => copied(alloc, items),
        Split::RoundRobin(written) => {
            let weights = weights_for(alloc, written, branches)?;
            dealt(alloc, weights.as_slice(), p, items)
        }
    }
}
