// Judges names and numbers, one statement after another.
ghost use Rattle.std.specs.Prelude.{◌≡◌, ◌<◌};
ghost use Rattle.saw_model.specs.Elaborate.{counted, find, is_new, slot_of, table_port, nothing_read};
ghost use Rattle.saw_front.specs.View.{JudgesAlways};
ghost use Rattle.saw_front.specs.Judging.{at_of};

use crate::names::{Known, Names};
use kern_tables::TableKind;
use river_base::{MOST_STATEMENTS, Name};
use saw_model::Fault;
use std::alloc::Global;

/// What is known where the reading stands, and how many slots, statements and tables there were.
#[derive(Drop)]
pub(crate) struct Judge {
    pub(crate) names: Names,
    pub(crate) slots: u32,
    pub(crate) size: u32,
    pub(crate) tables: u32,
}

impl Judge {
    /// Nothing was read.
    pub(crate) fn new(alloc: Global) -> Judge
        ensures { at_of result ≡ nothing_read }
    {
        Judge {
            names: Names {
                items: Vec::new(alloc),
            },
            slots: 0,
            size: 0,
            tables: 0,
        }
    }

    /// One statement more.
    pub(crate) fn counted(&mut self) -> Result<(), Fault>
        ensures judged { JudgesAlways (λ _. at_of self.new) result (counted (at_of self.old)) }
        ensures names { self.new.names ≡ self.old.names }
    {
        if self.size < MOST_STATEMENTS {
            self.size += 1;
            Ok(())
        } else {
            Err(Fault::Limit)
        }
    }

    /// A name is not known yet.
    pub(crate) fn new_name(&self, name: &Name) -> Result<(), Fault>
        ensures { JudgesAlways (λ u. u) result (is_new (find (at_of self.now).scope name.now)) }
    {
        match self.names.find(name) {
            None => Ok(()),
            Some(_) => Err(Fault::NameTwice),
        }
    }

    /// The slot that an assignment sets.
    pub(crate) fn slot_of(&self, name: &Name) -> Result<u32, Fault>
        ensures { JudgesAlways (λ n. n) result (slot_of (find (at_of self.now).scope name.now)) }
    {
        match self.names.find(name) {
            Some(Known::Slot(slot)) => Ok(slot),
            Some(Known::Table { .. }) | None => Err(Fault::UnknownName),
        }
    }

    /// The place and the kind of a table.
    pub(crate) fn port_of(&self, name: &Name) -> Result<(u32, TableKind), Fault>
        ensures { JudgesAlways (λ p. p) result (table_port (find (at_of self.now).scope name.now)) }
    {
        match self.names.find(name) {
            Some(Known::Table { place, kind }) => Ok((place, kind)),
            Some(Known::Slot(_)) | None => Err(Fault::UnknownName),
        }
    }
}
