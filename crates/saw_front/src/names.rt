// Names that are known.
ghost use Rattle.std.specs.Prelude.{◌≡◌};
ghost use Rattle.saw_model.specs.Elaborate.{find};
ghost use Rattle.saw_front.specs.View.{scope_of, option_known};

use kern_tables::TableKind;
use river_base::Name;

/// What a name stands for.
#[derive(Clone, Copy)]
pub(crate) enum Known {
    /// A local, in its slot.
    Slot(u32),
    /// A table, by its place among the tables.
    Table { place: u32, kind: TableKind },
}

/// The names that are known, the newest last.
#[derive(Drop)]
pub(crate) struct Names {
    pub(crate) items: Vec<(Name, Known)>,
}

impl Names {
    /// What a name stands for.
    pub(crate) fn find(&self, name: &Name) -> Option<Known>
        ensures { option_known result ≡ find (scope_of self.now.items.items) name.now }
    {
        let mut i = self.items.len();
        while i > 0 {
            i -= 1;
            let (known, what) = self.items[i];
            if known == *name {
                return Some(what);
            }
        }
        None
    }
}
