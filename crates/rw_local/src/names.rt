// Lists of names.
ghost use Rattle.std.specs.Prelude.{◌≡◌, ◌<◌, ◌++◌, IfOk, OnOk, IsTrue, ◌↔◌, length};
ghost use Rattle.river_plan.specs.Names.{count};
ghost use Rattle.river_kernels.specs.Fits.{spliced};
ghost use Rattle.plan_edits.specs.Lists.{place_of_name};
ghost use Rattle.rw_local.specs.Fuse.{share};

use river_base::{Name, NoMemory};
use river_plan::Names;
use std::alloc::Global;

/// Whether the name is in the list.
pub(crate) fn contains(names: &Names, name: Name) -> bool
    ensures { IsTrue result ↔ 0 < count name names.now }
{
    for other in names.as_slice() {
        if *other == name {
            return true;
        }
    }
    false
}

/// The place of the name in the list, or the list's length.
pub(crate) fn place(names: &Names, name: Name) -> usize
    ensures { result ≡ place_of_name name names.now }
{
    let mut at = 0;
    for other in names.as_slice() {
        if *other == name {
            return at;
        }
        at += 1;
    }
    at
}

/// Whether the lists have a name in common.
pub(crate) fn share(names: &Names, others: &Names) -> bool
    ensures { result ≡ share names.now others.now }
{
    for name in names.as_slice() {
        if contains(others, *name) {
            return true;
        }
    }
    false
}

/// The first list, with the second in place of the name at this place.
pub(crate) fn spliced(
    alloc: Global,
    at: usize,
    firsts: &Names,
    seconds: &[Name],
) -> Result<Names, NoMemory>
    requires { at < length firsts.now }
    ensures { IfOk result (λ all. all ≡ spliced at firsts.now seconds.now) }
{
    let mut all = Names::new(alloc);
    add(&mut all, &firsts.as_slice()[..at])?;
    add(&mut all, seconds)?;
    add(&mut all, &firsts.as_slice()[at + 1..])?;
    Ok(all)
}

/// The names of both lists.
pub(crate) fn joined(alloc: Global, firsts: &Names, seconds: &Names) -> Result<Names, NoMemory>
    ensures { IfOk result (λ all. all ≡ firsts.now ++ seconds.now) }
{
    let mut all = Names::new(alloc);
    add(&mut all, firsts.as_slice())?;
    add(&mut all, seconds.as_slice())?;
    Ok(all)
}

// Appends these names.
fn add(all: &mut Names, names: &[Name]) -> Result<(), NoMemory>
    ensures { OnOk result (all.new ≡ all.old ++ names.now) }
{
    for name in names {
        all.push(*name)?;
    }
    Ok(())
}
