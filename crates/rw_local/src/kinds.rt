// The widths of rows.
ghost use Rattle.std.specs.Prelude.{◌≡◌, map};
ghost use Rattle.river_plan.specs.Forms.{plan_form, all_decls};
ghost use Rattle.river_plan.specs.Kinds.{kind_of};
ghost use Rattle.rw_local.specs.Hoist.{first_side_width, first_width};

use plan_edits::kind_of;
use river_plan::{FlatType, Names, QueueType, RawPlan};

/// The width of the rows of the first of these queues.
pub(crate) fn first_width(raw: &RawPlan, queues: &Names) -> u32
    ensures { result ≡ first_width (map (kind_of (all_decls (plan_form raw.now))) queues.now) }
{
    if queues.is_empty() {
        return 0;
    }
    width(kind_of(raw, queues.at(0)))
}

// The width of a type; 0 for packs.
fn width(kind: QueueType) -> u32
    ensures { result ≡ first_side_width kind }
{
    match kind {
        QueueType::Flat(
            FlatType::Rows(width) | FlatType::Stream(width) | FlatType::Relation(width),
        ) => width,
        QueueType::Pack(_) => 0,
    }
}
