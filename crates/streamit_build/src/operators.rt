// The operators of filters, splitters and joiners.
ghost use Rattle.std.specs.Prelude.{◌≡◌, ◌≤◌, IfOk, [], ◌∷◌, codes, length};
ghost use Rattle.kern_rows.specs.Forms.{filter_form};
ghost use Rattle.river_kernels.specs.Kern.{filter, duplicate, deal, collect};
ghost use Rattle.river_plan.specs.Forms.{op_form};
ghost use Rattle.streamit_model.specs.Plan.{numbered, queues, with_own, weights, splitter, joiner};
ghost use Rattle.streamit_build.specs.Units.{splitter_form};

use crate::names::{numbered, queues};
use kern_rows::Filter;
use river_base::{Name, NoMemory, Numbers};
use river_kernels::Kernel;
use river_plan::{Names, Op};
use std::alloc::Global;

/// The operator of a filter.
pub(crate) fn filter_op(
    alloc: Global,
    name: &Name,
    body: &Filter,
    number: u32,
    from: Name,
    to: Name,
) -> Result<Op, NoMemory>
    requires { length name.now ≤ 40 }
    ensures { IfOk result (λ op. op_form op ≡ with_own (numbered name.now number) (filter (filter_form body.now)) (from ∷ []) (to ∷ [])) }
{
    let label = numbered(alloc, name.as_slice(), number)?;
    let reads = Names::one(alloc, from)?;
    let writes = Names::one(alloc, to)?;
    filtering(alloc, label, body, reads, writes)
}

// The operator that runs this filter.
fn filtering(
    alloc: Global,
    label: Name,
    body: &Filter,
    reads: Names,
    writes: Names,
) -> Result<Op, NoMemory>
    ensures { IfOk result (λ op. op_form op ≡ with_own label (filter (filter_form body.now)) reads writes) }
{
    let vars = Names::one(alloc, label)?;
    let copy = body.copy(alloc)?;
    Ok(Op {
        label,
        kernel: Kernel::Filter(copy),
        reads,
        writes,
        vars,
    })
}

/// The operator of a splitter, which writes n queues from number k on.
#[tactic(auto, unfolding(river_base::specs::Name::is_word, river_base::specs::Name::is_letter, river_base::specs::Name::is_digit))]
pub(crate) fn split_op(
    alloc: Global,
    split: &Option<Vec<u32>>,
    n: u32,
    number: u32,
    from: Name,
    k: u32,
) -> Result<Op, NoMemory>
    ensures { IfOk result (λ op. op_form op ≡ splitter (splitter_form split.now) n (numbered (codes "split") number) from (queues k n)) }
{
    let label = numbered(alloc, b"split", number)?;
    let reads = Names::one(alloc, from)?;
    let writes = queues(alloc, k, n)?;
    match split {
        None => Ok(copying(alloc, label, n, reads, writes)),
        Some(weights) => dealing(alloc, label, weights.as_slice(), reads, writes),
    }
}

// The operator that copies each item to n queues.
fn copying(alloc: Global, label: Name, n: u32, reads: Names, writes: Names) -> Op
    ensures { op_form result ≡ record { label = label; kernel = duplicate n; reads = reads; writes = writes; vars = [] } }
{
    Op {
        label,
        kernel: Kernel::Duplicate(n),
        reads,
        writes,
        vars: Names::new(alloc),
    }
}

// The operator that deals items to queues by weights.
fn dealing(
    alloc: Global,
    label: Name,
    shares: &[u32],
    reads: Names,
    writes: Names,
) -> Result<Op, NoMemory>
    ensures { IfOk result (λ op. op_form op ≡ with_own label (deal (weights shares.now)) reads writes) }
{
    let vars = Names::one(alloc, label)?;
    let weights = weights(alloc, shares)?;
    Ok(Op {
        label,
        kernel: Kernel::Deal(weights),
        reads,
        writes,
        vars,
    })
}

/// The operator of a joiner, which reads n queues from number k on.
#[tactic(auto, unfolding(river_base::specs::Name::is_word, river_base::specs::Name::is_letter, river_base::specs::Name::is_digit))]
pub(crate) fn join_op(
    alloc: Global,
    join: &Vec<u32>,
    n: u32,
    number: u32,
    k: u32,
    to: Name,
) -> Result<Op, NoMemory>
    ensures { IfOk result (λ op. op_form op ≡ joiner join.now.items (numbered (codes "join") number) (queues k n) to) }
{
    let label = numbered(alloc, b"join", number)?;
    let reads = queues(alloc, k, n)?;
    let writes = Names::one(alloc, to)?;
    collecting(alloc, label, join.as_slice(), reads, writes)
}

// The operator that collects items from queues by weights.
fn collecting(
    alloc: Global,
    label: Name,
    shares: &[u32],
    reads: Names,
    writes: Names,
) -> Result<Op, NoMemory>
    ensures { IfOk result (λ op. op_form op ≡ with_own label (collect (weights shares.now)) reads writes) }
{
    let vars = Names::one(alloc, label)?;
    let weights = weights(alloc, shares)?;
    Ok(Op {
        label,
        kernel: Kernel::Collect(weights),
        reads,
        writes,
        vars,
    })
}

// Weights as the numbers of a kernel.
fn weights(alloc: Global, shares: &[u32]) -> Result<Numbers, NoMemory>
    ensures { IfOk result (λ all. all ≡ weights shares.now) }
{
    let mut all = Numbers::new(alloc);
    for share in shares {
        all.push(i64::from(*share))?;
    }
    Ok(all)
}
