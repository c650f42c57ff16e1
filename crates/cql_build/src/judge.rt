// The first fault of a program.
ghost use Rattle.std.specs.Prelude.{◌≡◌, ◌+◌, [], ◌∷◌, List, IfOk, OnOk};
ghost use Rattle.cql_model.specs.Judged.{fields_fault, stream_fault, query_fault, first_fault};
ghost use Rattle.cql_model.specs.Scopes.{Named, scope_of, column_names};
ghost use Rattle.cql_build.specs.Knowing.{Knows};
ghost use Rattle.cql_text.specs.Tree.{query_of, unit_form, unit_forms};
ghost use Rattle.cql_model.specs.Places.{declares};
ghost use Rattle.cql_build.specs.Judged.{unit_fault, registers};

use crate::Known;
use crate::columns::{column_names, copied};
use crate::values::{count, selected_fault};
use cql_model::{Fault, Refusal};
use cql_text::{Query, Stream, Unit};
use river_base::{Name, NoMemory};
use river_plan::Names;
use std::alloc::Global;

/// The first fault of the units of a program, one after another, and its unit, from 1.
pub(crate) fn first_fault(alloc: Global, units: &[Unit]) -> Result<Option<Refusal>, NoMemory>
    ensures { IfOk result (λ refusal. refusal ≡ first_fault [] 0 1 (unit_forms units.now)) }
{
    let mut known = Known::new(alloc);
    fault_among(alloc, units, &mut known)
}

// The same, where nothing is known yet.
fn fault_among(
    alloc: Global,
    units: &[Unit],
    known: &mut Known,
) -> Result<Option<Refusal>, NoMemory>
    requires { Knows known.old [] }
    ensures { IfOk result (λ refusal. refusal ≡ first_fault [] 0 1 (unit_forms units.now)) }
{
    let mut many = 0;
    for i in 0..units.len() {
        let part = &units[i];
        if let Some(fault) = known.unit_fault(alloc, many, part)? {
            return Ok(Some(Refusal { unit: i + 1, fault }));
        }
        many += registers(part);
        known.add(alloc, part)?;
    }
    Ok(None)
}

// How many streams a unit registers.
fn registers(part: &Unit) -> usize
    ensures { result ≡ registers (unit_form part.now) }
{
    match part {
        Unit::Register(_) => 1,
        Unit::Query(_) => 0,
    }
}

// The first fault of a stream's fields.
fn fields_fault(fields: &[Name]) -> Option<Fault>
    ensures { result ≡ fields_fault [] fields.now }
{
    for i in 0..fields.len() {
        if count(&fields[..i], fields[i]) > 0 {
            return Some(Fault::NameTwice);
        }
        if i >= 16 {
            return Some(Fault::Limit);
        }
    }
    None
}

impl Known {
    /// The stream that a unit registers, or the query that it asks, is known besides.
    pub(crate) fn add(&mut self, alloc: Global, part: &Unit) -> Result<(), NoMemory>
        ensures { (ks : List Named) → Knows self.old ks → OnOk result (Knows self.new (declares ks (unit_form part.now) ∷ ks)) }
    {
        match part {
            Unit::Register(stream) => {
                let fields = copied(alloc, stream.fields.as_slice())?;
                self.declare(stream.name, fields)
            }
            Unit::Query(query) => {
                let fields = self.columns(alloc, query)?;
                self.declare(query.name, fields)
            }
        }
    }

    // The names of a query's columns.
    fn columns(&self, alloc: Global, query: &Query) -> Result<Names, NoMemory>
        ensures { (ks : List Named) → Knows self.now ks
            → IfOk result (λ names. names ≡ column_names (scope_of ks (query_of query.now).items) (query_of query.now).columns) }
    {
        let items = self.scope(alloc, query.items.as_slice())?;
        column_names(alloc, items.as_slice(), &query.columns)
    }

    // The first fault of a unit behind so many registered streams.
    fn unit_fault(&self, alloc: Global, many: usize, part: &Unit) -> Result<Option<Fault>, NoMemory>
        ensures { (ks : List Named) → Knows self.now ks → IfOk result (λ fault. fault ≡ unit_fault ks many (unit_form part.now)) }
    {
        match part {
            Unit::Register(stream) => Ok(self.stream_fault(many, stream)),
            Unit::Query(query) => self.query_fault(alloc, query),
        }
    }

    // The first fault of a stream that is registered behind so many others.
    fn stream_fault(&self, many: usize, stream: &Stream) -> Option<Fault>
        ensures { (ks : List Named) → Knows self.now ks → result ≡ stream_fault ks many stream.now.name stream.now.fields.items }
    {
        if self.fields(stream.name).is_some() {
            return Some(Fault::NameTwice);
        }
        if many >= 8 {
            return Some(Fault::Limit);
        }
        fields_fault(stream.fields.as_slice())
    }

    // The first fault of a query.
    fn query_fault(&self, alloc: Global, query: &Query) -> Result<Option<Fault>, NoMemory>
        ensures { (ks : List Named) → Knows self.now ks → IfOk result (λ fault. fault ≡ query_fault ks (query_of query.now)) }
    {
        if self.fields(query.name).is_some() {
            return Ok(Some(Fault::NameTwice));
        }
        if let Some(fault) = self.items_fault(query.items.as_slice()) {
            return Ok(Some(fault));
        }
        let items = self.scope(alloc, query.items.as_slice())?;
        Ok(selected_fault(items.as_slice(), &query.columns, &query.condition))
    }
}
