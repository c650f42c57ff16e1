// The queries of a program, one after another.
ghost use Rattle.std.specs.Prelude.{◌≡◌, ◌≤◌, ◌<◌, ◌^◌, [], List, OnOk, length};
ghost use Rattle.std.specs.List.{AllByRecursion};
ghost use Rattle.cql_model.specs.Plannable.{IsPlannableQuery, AreQueries};
ghost use Rattle.cql_model.specs.Judged.{IsShortName, HaveShortNames};
ghost use Rattle.cql_model.specs.Program.{streams_of};
ghost use Rattle.cql_model.specs.Scopes.{Named, scope_of};
ghost use Rattle.cql_model.specs.Plan.{columns_width, widths_of};
ghost use Rattle.cql_build.specs.Grown.{AddsQueries, AddsUnit, AddsQuery, AddsTail, Used, IsPlannableUnit, IsShortUnit, unit_uses};
ghost use Rattle.cql_build.specs.Knowing.{Knows};
ghost use Rattle.cql_text.specs.Tree.{columns_of, query_of, unit_form, unit_forms};
ghost use Rattle.cql_build.specs.Views.{scope};

use crate::build::{crosses, project, select, width, windows};
use crate::output::output;
use crate::uses::StreamUses;
use crate::{Item, Known};
use cql_text::{Columns, Query, Unit};
use river_base::{Name, NoMemory};
use river_plan::RawPlan;
use std::alloc::Global;

/// The queries of a program, one after another.
pub(crate) fn queries(
    alloc: Global,
    raw: &mut RawPlan,
    uses: &mut StreamUses,
    units: &[Unit],
) -> Result<(), NoMemory>
    requires good { AreQueries [] (unit_forms units.now) }
    requires short { HaveShortNames (unit_forms units.now) }
    requires few { length uses.old.all ≤ 256 }
    ensures { OnOk result (AddsQueries uses.old (unit_forms units.now) raw.old raw.new) }
{
    let mut known = Known::new(alloc);
    queries_among(alloc, raw, uses, units, &mut known)
}

// The same, where nothing is known yet.
fn queries_among(
    alloc: Global,
    raw: &mut RawPlan,
    uses: &mut StreamUses,
    units: &[Unit],
    known: &mut Known,
) -> Result<(), NoMemory>
    requires nothing { Knows known.old [] }
    requires good { AreQueries [] (unit_forms units.now) }
    requires short { HaveShortNames (unit_forms units.now) }
    requires few { length uses.old.all ≤ 256 }
    ensures { OnOk result (AddsQueries uses.old (unit_forms units.now) raw.old raw.new) }
{
    for part in units {
        known.unit(alloc, raw, uses, part)?;
        known.add(alloc, part)?;
    }
    Ok(())
}

impl Known {
    // The query of a unit, where it is one.
    fn unit(
        &self,
        alloc: Global,
        raw: &mut RawPlan,
        uses: &mut StreamUses,
        part: &Unit,
    ) -> Result<(), NoMemory>
        requires good { (ks : List Named) × Knows self.now ks × IsPlannableUnit ks (unit_form part.now) }
        requires short { IsShortUnit (unit_form part.now) }
        requires few { length uses.old.all ≤ 256 }
        ensures grew { (ks : List Named) → Knows self.now ks → OnOk result (AddsUnit uses.old ks (unit_form part.now) raw.old raw.new) }
        ensures used { OnOk result (Used uses.old uses.new (unit_uses (unit_form part.now))) }
    {
        match part {
            Unit::Register(_) => Ok(()),
            Unit::Query(query) => self.query(alloc, raw, uses, query),
        }
    }

    /// The operators of a query, from the streams that its items name to its own.
    pub(crate) fn query(
        &self,
        alloc: Global,
        raw: &mut RawPlan,
        uses: &mut StreamUses,
        query: &Query,
    ) -> Result<(), NoMemory>
        requires good { (ks : List Named) × Knows self.now ks × IsPlannableQuery ks (query_of query.now) }
        requires short { length query.now.name ≤ 40 }
        requires streams { AllByRecursion IsShortName (streams_of (query_of query.now).items) }
        requires few { length uses.old.all ≤ 256 }
        ensures grew { (ks : List Named) → Knows self.now ks → OnOk result (AddsQuery uses.old ks (query_of query.now) raw.old raw.new) }
        ensures used { OnOk result (Used uses.old uses.new (streams_of (query_of query.now).items)) }
    {
        let items = self.scope(alloc, query.items.as_slice())?;
        query_on(alloc, raw, uses, items.as_slice(), query)
    }
}

// The same, where its items are known.
fn query_on(
    alloc: Global,
    raw: &mut RawPlan,
    uses: &mut StreamUses,
    items: &[Item<'_>],
    query: &Query,
) -> Result<(), NoMemory>
    requires some { 0 < length items.now }
    requires each { length items.now ≡ length query.now.items.items }
    requires narrow { widths_of (scope items.now) ≤ 16 }
    requires columns { columns_width (scope items.now) (columns_of query.now.columns) < 2 ^ 32 }
    requires short { length query.now.name ≤ 40 }
    requires streams { AllByRecursion IsShortName (streams_of (query_of query.now).items) }
    requires few { length uses.old.all ≤ 256 }
    ensures grew { (ks : List Named) → scope items.now ≡ scope_of ks (query_of query.now).items
        → OnOk result (AddsQuery uses.old ks (query_of query.now) raw.old raw.new) }
    ensures used { OnOk result (Used uses.old uses.new (streams_of (query_of query.now).items)) }
{
    let used = uses.count(query.name);
    let sources = query.items.as_slice();
    windows(alloc, raw, uses, query.name, sources, items)?;
    let last = crosses(alloc, raw, query.name, sources, items)?;
    tail(alloc, raw, items, query, last, used)
}

// What follows the products: the condition, the columns and the stream.
fn tail(
    alloc: Global,
    raw: &mut RawPlan,
    items: &[Item<'_>],
    query: &Query,
    last: Name,
    used: usize,
) -> Result<(), NoMemory>
    requires narrow { widths_of (scope items.now) ≤ 16 }
    requires columns { columns_width (scope items.now) (columns_of query.now.columns) < 2 ^ 32 }
    requires short { length query.now.name ≤ 40 }
    requires few { used ≤ 256 }
    ensures { OnOk result (AddsTail (query_of query.now) (scope items.now) used last raw.old raw.new) }
{
    let last = select(alloc, raw, query.name, items, last, &query.condition)?;
    let last = project(alloc, raw, query.name, items, last, &query.columns)?;
    let width = columns_width(items, &query.columns);
    output(alloc, raw, query.name, query.kind, last, used, width)
}

// How many columns there are.
fn columns_width(items: &[Item<'_>], columns: &Columns) -> usize
    requires { widths_of (scope items.now) ≤ 16 }
    ensures { result ≡ columns_width (scope items.now) (columns_of columns.now) }
{
    match columns {
        Columns::Star => width(items),
        Columns::Chosen(list) => list.len(),
    }
}
