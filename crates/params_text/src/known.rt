// The parameters of a stream.
ghost use Rattle.std.specs.Prelude.{◌≡◌, [], IfOk, OnOk};
ghost use Rattle.params_text.specs.Params.{is_one_of};
ghost use Rattle.params_text.specs.Parameters.{Finds};

use indexmap::IndexSet;
use river_base::{Name, NoMemory};
use std::alloc::Global;
use std::marker::Model;

/// The parameters of a stream, which are found by hash. Contracts see them in order.
#[derive(Drop)]
pub struct Parameters {
    names: Vec<Name>,
    set: IndexSet<Name>,
}

impl Model for Parameters {
    ghost use Rattle.std.specs.Prelude.{ℕ, List};
    ghost use Rattle.params_text.specs.Parameters.{Finds};

    ghost Value = { List (List ℕ) };

    ghost view = { λ p. p.names.items };

    ghost invariant = { λ p. Finds p.set.keys p.names.items };
}

impl Parameters {
    /// These parameters.
    pub fn of(alloc: Global, names: &[Name]) -> Result<Parameters, NoMemory>
        ensures { IfOk result (λ all. all ≡ names.now) }
    {
        let mut set = IndexSet::new(alloc);
        fill(&mut set, names)?;
        let names = Vec::from_slice(alloc, names)?;
        Ok(Parameters { names, set })
    }

    /// Whether a name is one of them.
    pub fn has(&self, name: &Name) -> bool
        ensures { result ≡ is_one_of self.now name.now }
    {
        self.set.contains(name)
    }
}

// These names, put into an empty set.
fn fill(set: &mut IndexSet<Name>, names: &[Name]) -> Result<(), NoMemory>
    requires { set.old.keys ≡ [] }
    ensures { OnOk result (Finds set.new.keys names.now) }
{
    'names: for each in names {
        set.insert_full(*each)?;
    }
    Ok(())
}
