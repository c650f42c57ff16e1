// The three forms of operators that may be split.
ghost use Rattle.std.specs.Prelude.{◌≡◌, nat_lt};
ghost use Rattle.std.specs.List.{list_all};
ghost use Rattle.kern_rows.specs.Forms.{filter_form};
ghost use Rattle.river_kernels.specs.Kern.{kern_of, filter as filter_kern};
ghost use Rattle.river_plan.specs.Forms.{PlanForm, OpForm, plan_form, op_form, table_names};
ghost use Rattle.river_plan.specs.Names.{count};
ghost use Rattle.rw_fission.specs.Asked.{way_of, flat_way, packs_way, blocks_way, adds_way};
ghost use Rattle.rw_fission.specs.Code.{FormIs};

use kern_rows::Filter;
use plan_edits::kind_of;
use river_base::{FlatType, Name, QueueType};
use river_kernels::Kernel;
use river_plan::{Names, Op, RawPlan, TableDecls};

/// What may be done with an operator.
#[derive(Clone, Copy)]
pub(crate) enum Form {
    /// Its replicas pack what they give, of this type.
    Packs(FlatType),
    /// Its replicas take blocks of `pop` values and give blocks of `push` values.
    Blocks { pop: u32, push: u32 },
    /// Its replicas add to the same tables.
    Adds,
}

/// The form of an operator that reads a queue of this type, where it has one.
pub(crate) fn form_of(raw: &RawPlan, op: &Op, kind: QueueType) -> Option<Form>
    ensures { FormIs (plan_form raw.now) (op_form op.now) (λ m n. way_of (plan_form raw.now) (op_form op.now) m n kind) result }
{
    match kind {
        QueueType::Pack(_) => None,
        QueueType::Flat(_) => flat_form(raw, op),
    }
}

// The form of an operator that reads no packs.
fn flat_form(raw: &RawPlan, op: &Op) -> Option<Form>
    ensures { FormIs (plan_form raw.now) (op_form op.now) (λ m n. flat_way (plan_form raw.now) (op_form op.now) m n) result }
{
    let found = packs(raw, op);
    if found.is_some() {
        return found;
    }
    let found = blocks(&op.kernel);
    if found.is_some() {
        return found;
    }
    adds(raw, op)
}

// Whether it has no variable and one output, which is flat.
fn packs(raw: &RawPlan, op: &Op) -> Option<Form>
    ensures { FormIs (plan_form raw.now) (op_form op.now) (λ m n. packs_way (plan_form raw.now) (op_form op.now) m n op.now.writes op.now.vars) result }
{
    if op.writes.len() != 1 || !op.vars.is_empty() {
        return None;
    }
    match kind_of(raw, op.writes.at(0)) {
        QueueType::Flat(flat) => Some(Form::Packs(flat)),
        QueueType::Pack(_) => None,
    }
}

// Whether it is a filter that takes all that it looks at, keeps no slot, pushes something, and
// whose first run is as the others.
fn blocks(kernel: &Kernel) -> Option<Form>
    ensures { (p : PlanForm) (op : OpForm) → FormIs p op (λ m n. blocks_way p op m n (kern_of kernel.now)) result }
{
    match kernel {
        Kernel::Filter(filter) => whole_blocks(filter),
        _ => None,
    }
}

fn whole_blocks(filter: &Filter) -> Option<Form>
    ensures { (p : PlanForm) (op : OpForm) → FormIs p op (λ m n. blocks_way p op m n (filter_kern (filter_form filter.now))) result }
{
    if filter.peek == filter.pop
        && (filter.starts.is_empty() && (filter.first.is_none() && 1 <= filter.push))
    {
        Some(Form::Blocks {
            pop: filter.pop,
            push: filter.push,
        })
    } else {
        None
    }
}

// Whether it has no output, and variables that are all tables.
fn adds(raw: &RawPlan, op: &Op) -> Option<Form>
    ensures { FormIs (plan_form raw.now) (op_form op.now) (λ m n. adds_way (plan_form raw.now) (op_form op.now) m op.now.writes op.now.vars) result }
{
    if op.writes.is_empty() && (!op.vars.is_empty() && are_tables(&raw.tables, &op.vars)) {
        Some(Form::Adds)
    } else {
        None
    }
}

// Whether all these variables are tables.
fn are_tables(tables: &TableDecls, vars: &Names) -> bool
    ensures { result ≡ list_all (λ x. nat_lt 0 (count x (table_names tables.now))) vars.now }
{
    vars.as_slice().iter().all(|name| is_table(tables, name))
}

fn is_table(tables: &TableDecls, name: &Name) -> bool
    ensures { result ≡ nat_lt 0 (count name.now (table_names tables.now)) }
{
    for table in tables.as_slice() {
        if table.name == *name {
            return true;
        }
    }
    false
}
