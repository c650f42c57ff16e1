// How the records of a program's files are written.
ghost use Rattle.std.specs.Prelude.{◌≡◌};
ghost use Rattle.river_road.specs.Layouts.{layout_of};

use crate::language::Language;

/// How the records of the files are written.
#[derive(Clone, Copy)]
pub struct Layout {
    /// Each file begins with a header.
    pub header: bool,
    /// A record may have further fields, which are not looked at.
    pub more: bool,
}

impl Layout {
    /// That of a program's files in this language, with headers or without.
    pub fn of<L: Language>(header: bool) -> Layout
        ensures { result ≡ layout_of L.more header }
    {
        Layout {
            header,
            more: L::takes_more(),
        }
    }
}
