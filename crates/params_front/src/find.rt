// The stream that an `add` names, and the bytes of units.
ghost use Rattle.std.specs.Prelude.{◌≡◌};
ghost use Rattle.std.proofs.Common.{get_or};
ghost use Rattle.params_front.specs.Finding.{Finds};

use params_text::Unit;
use river_base::Name;

/// The last of these units that declares a stream of this name.
pub(crate) fn find(units: &[Unit], name: &Name) -> Option<usize>
    ensures { Finds units.now name.now result }
{
    let mut i = units.len();
    'units: while i > 0 {
        i -= 1;
        if units[i].name == *name {
            return Some(i);
        }
    }
    None
}

/// The bytes of the unit behind so many.
pub(crate) fn size_at(sizes: &[usize], i: usize) -> usize
    ensures { result ≡ get_or sizes.now i 0 }
{
    match sizes.get(i) {
        Some(size) => *size,
        None => 0,
    }
}
