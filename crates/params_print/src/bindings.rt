// Values of names.
ghost use Rattle.std.specs.Prelude.{◌≡◌, ◌≤◌, [], ◌∷◌, ℤ, length, drop, Some, IfOk, OnOk, OnErr, if◌then◌else◌};
ghost use Rattle.indexmap.specs.IndexMap.{get};
ghost use Rattle.river_base.specs.Name.{name_eq};
ghost use Rattle.river_plan.specs.Forms as plan;
ghost use Rattle.streamit_model.specs.Meaning.{look};
ghost use Rattle.params_model.specs.Environment.{bound};

use indexmap::IndexMap;
use river_base::{Name, NoMemory};
use std::alloc::Global;
use std::marker::Model;

/// The values of names that are known, of parameters and of the variables of loops. Contracts see
/// the names and their values, the newest first.
#[derive(Drop)]
pub struct Bindings {
    // The newest last.
    items: Vec<Binding>,
    // The newest value of each name that has one.
    newest: IndexMap<Name, i64>,
}

/// A value of a name, and the value that the name had before, which it hides.
#[derive(Clone, Copy)]
pub(crate) struct Binding {
    pub name: Name,
    pub value: i64,
    pub hidden: Option<i64>,
}

impl Model for Bindings {
    ghost use Rattle.std.specs.Prelude.{reverse};
    ghost use Rattle.params_model.specs.Environment.{Environment};
    ghost use Rattle.params_print.specs.Known.{known_in, IsByName};

    ghost Value = { Environment };

    ghost view = { λ b. known_in (reverse b.items.items) };

    ghost invariant = { λ b. IsByName (reverse b.items.items) b.newest };
}

impl Bindings {
    /// No name is known.
    pub fn new(alloc: Global) -> Bindings
        ensures { result ≡ [] }
    {
        Bindings {
            items: Vec::new(alloc),
            newest: IndexMap::new(alloc),
        }
    }

    /// Parameters have the values of the arguments, in order.
    pub fn bound(alloc: Global, params: &[Name], values: &[i64]) -> Result<Bindings, NoMemory>
        ensures { IfOk result (λ all. all ≡ bound params.now values.now) }
    {
        let mut all = Bindings::new(alloc);
        let mut i = bound_count(params, values);
        while i > 0 {
            i -= 1;
            all.push(params[i], values[i])?;
        }
        Ok(all)
    }

    /// A name has this value from here on; changes nothing where there is no memory.
    pub fn push(&mut self, name: Name, value: i64) -> Result<(), NoMemory>
        ensures ok { OnOk result (self.new ≡ (name, value) ∷ self.old) }
        ensures err { OnErr result (self.new ≡ self.old) }
    {
        self.items.reserve(1)?;
        let hidden = self.newest.insert(name, value)?;
        self.items.push_reserved(Binding {
            name,
            value,
            hidden,
        });
        Ok(())
    }

    /// Forgets the newest value.
    pub fn pop(&mut self)
        ensures { self.new ≡ drop 1 self.old }
    {
        if let Some(last) = self.items.pop() {
            bring_back(&mut self.newest, last.name, last.hidden);
        }
    }

    /// The newest value of a name.
    pub fn get(&self, name: &Name) -> Option<i64>
        ensures { result ≡ look self.now name.now }
    {
        self.newest.get(name).copied()
    }
}

// A name that has a value has the hidden one from here on, or none.
fn bring_back(newest: &mut IndexMap<Name, i64>, name: Name, hidden: Option<i64>)
    requires { (z : ℤ) × (get name_eq newest.old name ≡ Some z) }
    ensures { (n : plan.Name) → get name_eq newest.new n ≡ (if name_eq name n then hidden else get name_eq newest.old n) }
{
    match hidden {
        Some(value) => {
            // The name is there, so that no memory is taken.
            let Ok(_) = newest.insert(name, value) else {
                unreachable!()
            };
        }
        None => {
            newest.swap_remove(&name);
        }
    }
}

// How many parameters have a value.
#[tactic(auto, using(crate::proofs::Listing::ends))]
fn bound_count(params: &[Name], values: &[i64]) -> usize
    ensures named { result ≤ length params.now }
    ensures valued { result ≤ length values.now }
    ensures all { bound (drop result params.now) (drop result values.now) ≡ [] }
{
    if params.len() < values.len() {
        params.len()
    } else {
        values.len()
    }
}
