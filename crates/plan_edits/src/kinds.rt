// The types of queues.
ghost use Rattle.std.specs.Prelude.{◌≡◌};
ghost use Rattle.river_plan.specs.Forms.{plan_form, all_decls};
ghost use Rattle.river_plan.specs.Kinds.{kind_in, kind_of};

use river_base::{FlatType, Name, QueueType};
use river_plan::{Decls, RawPlan};

/// The type of a queue in a plan, by its first declaration; a type without width where there is none.
pub fn kind_of(raw: &RawPlan, queue: &Name) -> QueueType
    ensures { result ≡ kind_of (all_decls (plan_form raw.now)) queue.now }
{
    if let Some(kind) = kind_in(&raw.outputs, queue) {
        return kind;
    }
    if let Some(kind) = kind_in(&raw.inputs, queue) {
        return kind;
    }
    match kind_in(&raw.queues, queue) {
        Some(kind) => kind,
        None => QueueType::Flat(FlatType::Rows(0)),
    }
}

// The type of a queue by the first of these declarations of it.
fn kind_in(decls: &Decls, queue: &Name) -> Option<QueueType>
    ensures { result ≡ kind_in decls.now queue.now }
{
    for decl in decls.as_slice() {
        if decl.name == *queue {
            return Some(decl.kind);
        }
    }
    None
}
