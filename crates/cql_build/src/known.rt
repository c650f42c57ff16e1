// The streams and queries that are known.
ghost use Rattle.std.specs.Prelude.{◌<◌, [], ◌∷◌, List, OnOk};
ghost use Rattle.std.specs.Option.{option_copied};
ghost use Rattle.cql_model.specs.Scopes.{Named};
ghost use Rattle.cql_build.specs.Knowing.{Knows, IsFound};

use indexmap::IndexMap;
use river_base::{Name, NoMemory};
use river_plan::Names;
use std::alloc::Global;

/// The streams and queries that are known, and their fields.
#[derive(Drop)]
pub(crate) struct Known {
    pub streams: IndexMap<Name, Names>,
}

impl Known {
    /// Nothing is known.
    pub(crate) fn new(alloc: Global) -> Known
        ensures { Knows result [] }
    {
        Known {
            streams: IndexMap::new(alloc),
        }
    }

    /// The fields of this name, where it is known.
    pub(crate) fn fields(&self, name: Name) -> Option<&[Name]>
        ensures { (ks : List Named) → Knows self.now ks → IsFound (option_copied result) ks name }
    {
        match self.streams.get(&name) {
            Some(fields) => Some(fields.as_slice()),
            None => None,
        }
    }

    /// This name is known besides, with these fields.
    pub(crate) fn declare(&mut self, name: Name, fields: Names) -> Result<(), NoMemory>
        ensures { (ks : List Named) → Knows self.old ks → OnOk result (Knows self.new (record { name = name; fields = fields } ∷ ks)) }
    {
        self.streams.insert(name, fields)?;
        Ok(())
    }
}
