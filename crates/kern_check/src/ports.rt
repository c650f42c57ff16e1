// The types of ports, compared and made.
ghost use Rattle.std.specs.Prelude.{◌≡◌, IfOk, IsTrue, ◌↔◌, replicate};
ghost use Rattle.std.specs.List.{list_all};
ghost use Rattle.river_base.specs.Number.{count_of};
ghost use Rattle.river_kernels.specs.Formed.{is_width};
ghost use Rattle.river_kernels.specs.Fits.{rows, width_of, is_sized, are_widths, ports};
ghost use Rattle.river_kernels.specs.Types.{same_flat, same_type};

use crate::formed::is_row_width;
use river_base::{FlatType, Listed, NoMemory, QueueType, count_of};
use river_kernels::VarKind;
use std::alloc::Global;

fn is_same_flat(a: FlatType, b: FlatType) -> bool
    ensures { result ≡ same_flat a b }
{
    match (a, b) {
        (FlatType::Rows(m), FlatType::Rows(n)) => m == n,
        (FlatType::Stream(m), FlatType::Stream(n)) => m == n,
        (FlatType::Relation(m), FlatType::Relation(n)) => m == n,
        _ => false,
    }
}

pub(crate) fn is_same_type(a: QueueType, b: QueueType) -> bool
    ensures { result ≡ same_type a b }
{
    match (a, b) {
        (QueueType::Flat(t), QueueType::Flat(u)) => is_same_flat(t, u),
        (QueueType::Pack(t), QueueType::Pack(u)) => is_same_flat(t, u),
        _ => false,
    }
}

pub(crate) fn width(t: FlatType) -> u32
    ensures { result ≡ width_of t }
{
    match t {
        FlatType::Rows(n) | FlatType::Stream(n) | FlatType::Relation(n) => n,
    }
}

pub(crate) fn is_row_type(t: FlatType) -> bool
    ensures { result ≡ is_sized t }
{
    is_row_width(width(t) as u64)
}

pub(crate) fn are_all(kinds: &[QueueType], kind: QueueType) -> bool
    ensures { result ≡ list_all (same_type kind) kinds.now }
{
    kinds.iter().all(|k| is_same_type(kind, *k))
}

// So many queues of one type.
pub(crate) fn repeated(
    alloc: Global,
    kind: QueueType,
    n: usize,
) -> Result<Listed<QueueType>, NoMemory>
    ensures { IfOk result (λ kinds. kinds ≡ replicate n kind) }
{
    let mut kinds = Listed::new(alloc);
    for _ in 0..n {
        kinds.push(kind)?;
    }
    Ok(kinds)
}

// The output ports of a body.
pub(crate) fn body_ports(alloc: Global, outs: &[i64]) -> Result<Listed<QueueType>, NoMemory>
    requires { IsTrue (are_widths outs.now) }
    ensures { IfOk result (λ kinds. kinds ≡ ports outs.now) }
{
    let mut kinds = Listed::new(alloc);
    for width in outs {
        kinds.push(rows_of(*width))?;
    }
    Ok(kinds)
}

fn rows_of(width: i64) -> QueueType
    requires { IsTrue (is_width (count_of width)) }
    ensures { result ≡ rows (count_of width) }
{
    QueueType::Flat(FlatType::Rows(count_of(width) as u32))
}

pub(crate) fn are_same_types(a: &[QueueType], b: &[QueueType]) -> bool
    ensures { IsTrue result ↔ (a.now ≡ b.now) }
{
    a == b
}

pub(crate) fn are_same_vars(a: &[VarKind], b: &[VarKind]) -> bool
    ensures { IsTrue result ↔ (a.now ≡ b.now) }
{
    a == b
}
