// The limits of plans.
ghost use Rattle.std.specs.Prelude.{◌≡◌, ◌+◌, [], ◌∷◌, flat_map, length};
ghost use Rattle.river_kernels.specs.Kern.{kern_of};
ghost use Rattle.river_kernels.specs.Limits as above;
ghost use Rattle.river_plan.specs.Forms.{plan_form, op_forms};
ghost use Rattle.river_plan.specs.First.{Along};
ghost use Rattle.river_plan.specs.Limits.{most_of, numbers, port_numbers, kernel_numbers, nestings, best_rows, OverLimit, OverLimitAt};

use kern_check::{first_above, nesting, one_above, two_above};
use kern_tables::TableKind;
use river_base::{
    MOST_ITEMS, MOST_KEPT, MOST_OPERATORS, MOST_SLOTS, MOST_STATEMENTS, MOST_VARIABLES,
};
use river_kernels::{Kernel, Limit};
use river_plan::{Op, Ops, PlanFault, RawPlan, TableDecls};

/// The limits in the order in which they are told.
const LIMITS: [Limit; 12] = [
    Limit::Inputs,
    Limit::Operators,
    Limit::Queues,
    Limit::Variables,
    Limit::Ports,
    Limit::Statements,
    Limit::Slots,
    Limit::Rates,
    Limit::Weights,
    Limit::Nesting,
    Limit::Latest,
    Limit::Best,
];

/// The first limit that a number exceeds, with the first such number.
pub(crate) fn over_limit(raw: &RawPlan) -> Option<PlanFault>
    ensures { OverLimit (plan_form raw.now) result }
{
    over_limits(raw, &LIMITS)
}

// The first of these limits that a number exceeds, with the first such number.
fn over_limits(raw: &RawPlan, limits: &[Limit]) -> Option<PlanFault>
    ensures { Along (λ before limit. OverLimitAt (plan_form raw.now) limit) [] limits.now result }
{
    for limit in limits {
        if let Some(fault) = over_limit_at(raw, *limit) {
            return Some(fault);
        }
    }
    None
}

// The first number that exceeds this limit.
fn over_limit_at(raw: &RawPlan, limit: Limit) -> Option<PlanFault>
    ensures { OverLimitAt (plan_form raw.now) limit result }
{
    match first_over(raw, limit) {
        Some(number) => Some(PlanFault::P8 { limit, number }),
        None => None,
    }
}

// The first number that exceeds this limit.
fn first_over(raw: &RawPlan, limit: Limit) -> Option<u128>
    ensures { result ≡ above.first_above (most_of limit) (numbers limit (plan_form raw.now)) }
{
    let most = most_of(limit);
    match limit {
        Limit::Inputs => one_above(raw.inputs.len() as u128, most),
        Limit::Operators => one_above(raw.ops.len() as u128, most),
        Limit::Queues => one_above(queue_count(raw), most),
        Limit::Variables => one_above(raw.tables.len() as u128 + raw.vars.len() as u128, most),
        Limit::Ports => ports_over(&raw.ops, most),
        Limit::Statements => kernels_over(&raw.ops, Limit::Statements, most),
        Limit::Slots => kernels_over(&raw.ops, Limit::Slots, most),
        Limit::Rates => kernels_over(&raw.ops, Limit::Rates, most),
        Limit::Weights => kernels_over(&raw.ops, Limit::Weights, most),
        Limit::Nesting => nestings_over(&raw.ops, most),
        Limit::Latest => kernels_over(&raw.ops, Limit::Latest, most),
        Limit::Best => tables_over(&raw.tables, most),
    }
}

// The most that is allowed.
fn most_of(limit: Limit) -> u64
    ensures { result ≡ most_of limit }
{
    match limit {
        Limit::Inputs => 8,
        Limit::Operators => MOST_OPERATORS as u64,
        Limit::Queues => 512,
        Limit::Variables => MOST_VARIABLES as u64,
        Limit::Ports => 64,
        Limit::Statements => MOST_STATEMENTS as u64,
        Limit::Slots => MOST_SLOTS as u64,
        Limit::Rates => MOST_ITEMS as u64,
        Limit::Weights => MOST_ITEMS as u64,
        Limit::Nesting => 32,
        Limit::Latest => MOST_KEPT as u64,
        Limit::Best => MOST_KEPT as u64,
    }
}

// How many queues there are.
fn queue_count(raw: &RawPlan) -> u128
    ensures { result ≡ length raw.now.outputs + (length raw.now.inputs + length raw.now.queues) }
{
    raw.outputs.len() as u128 + (raw.inputs.len() as u128 + raw.queues.len() as u128)
}

// The first number of ports that is above the most.
fn ports_over(ops: &Ops, most: u64) -> Option<u128>
    ensures { result ≡ above.first_above most (port_numbers (op_forms ops.now)) }
{
    for op in ops.as_slice() {
        if let Some(number) = port_over(op, most) {
            return Some(number);
        }
    }
    None
}

// The number of queues that an operator reads, or that it writes, where it is above the most.
fn port_over(op: &Op, most: u64) -> Option<u128>
    ensures { result ≡ above.first_above most (length op.now.reads ∷ length op.now.writes ∷ []) }
{
    two_above(op.reads.len() as u128, op.writes.len() as u128, most)
}

// The first number in a kernel that is above the most.
fn kernels_over(ops: &Ops, limit: Limit, most: u64) -> Option<u128>
    ensures { result ≡ above.first_above most (kernel_numbers limit (op_forms ops.now)) }
{
    for op in ops.as_slice() {
        if let Some(number) = first_above(&op.kernel, limit, most) {
            return Some(number);
        }
    }
    None
}

// The first nesting of a kernel that is above the most.
fn nestings_over(ops: &Ops, most: u64) -> Option<u128>
    ensures { result ≡ above.first_above most (nestings (op_forms ops.now)) }
{
    for op in ops.as_slice() {
        if let Some(number) = nesting_over(&op.kernel, most) {
            return Some(number);
        }
    }
    None
}

// The nesting of a kernel, where it is above the most.
#[tactic(auto, using(kern_check::proofs::LimitLemmas::tellings))]
fn nesting_over(kernel: &Kernel, most: u64) -> Option<u128>
    ensures { result ≡ above.first_above most (above.nesting (kern_of kernel.now) ∷ []) }
{
    one_above(nesting(kernel), most)
}

// The first number of rows that a table keeps that is above the most.
fn tables_over(tables: &TableDecls, most: u64) -> Option<u128>
    ensures { result ≡ above.first_above most (flat_map (λ t. best_rows t.kind) tables.now) }
{
    for table in tables.as_slice() {
        if let Some(number) = best_over(table.kind, most) {
            return Some(number);
        }
    }
    None
}

// The rows that a table keeps, where they are above the most.
fn best_over(kind: TableKind, most: u64) -> Option<u128>
    ensures { result ≡ above.first_above most (best_rows kind) }
{
    match kind {
        TableKind::Sum { .. } => None,
        TableKind::Collection { .. } => None,
        TableKind::Maximum { best, .. } => one_above(best as u128, most),
    }
}
