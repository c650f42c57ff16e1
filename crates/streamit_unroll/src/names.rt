// Names that are known.
ghost use Rattle.std.specs.Prelude.{◌≡◌};
ghost use Rattle.streamit_model.specs.Elaborate.{find};
ghost use Rattle.streamit_unroll.specs.View.{scope_of, option_known};

use river_base::Name;

/// What a name stands for.
#[derive(Clone, Copy)]
pub(crate) enum Known {
    /// A slot.
    Var(u32),
    /// The variable of a loop, in this turn.
    Turn(u32),
}

/// The names that are known, the newest last.
#[derive(Drop)]
pub(crate) struct Names {
    pub items: Vec<(Name, Known)>,
}

impl Names {
    /// What a name stands for.
    pub fn find(&self, name: Name) -> Option<Known>
        ensures { option_known result ≡ find (scope_of self.now.items.items) name }
    {
        let mut i = self.items.len();
        while i > 0 {
            i -= 1;
            let (known, what) = self.items[i];
            if known == name {
                return Some(what);
            }
        }
        None
    }
}
