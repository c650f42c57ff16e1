// How many ports and variables a kernel has.
ghost use Rattle.std.specs.Prelude.{◌≡◌, ◌+◌, IfOk};
ghost use Rattle.river_kernels.specs.Kern.{kern_of};
ghost use Rattle.river_kernels.specs.Shape.{shape_with, kept_vars, fused_shape, shape};

use crate::Kernel;
use river_base::NoMemory;

/// How many input ports, output ports, tables and private variables a kernel has.
#[derive(Clone, Copy)]
pub struct Shape {
    pub ins: usize,
    pub outs: usize,
    pub tables: usize,
    pub privates: usize,
}

impl Kernel {
    /// How many ports and variables the kernel has; numbers that no memory could hold are want of memory.
    pub fn shape(&self) -> Result<Shape, NoMemory>
        ensures { IfOk result (λ found. found ≡ shape (kern_of self.now)) }
    {
        match self {
            Kernel::Code(k) => Ok(counts(1, k.outs.len(), 0, kept_vars(k.starts.as_slice()))),
            Kernel::Filter(_) => Ok(counts(1, 1, 0, 1)),
            Kernel::Duplicate(ports) => Ok(counts(1, *ports as usize, 0, 0)),
            Kernel::Deal(weights) => Ok(counts(1, weights.len(), 0, 1)),
            Kernel::Collect(weights) => Ok(counts(weights.len(), 1, 0, 1)),
            Kernel::Packed(inner) => Ok(counts(1, 1, 0, inner.shape()?.privates)),
            Kernel::Unpack(ports) => Ok(counts(*ports as usize, 1, 0, 1)),
            Kernel::Window(_) => Ok(counts(1, 1, 0, 1)),
            Kernel::Select(_) => Ok(counts(1, 1, 0, 0)),
            Kernel::Project(_) => Ok(counts(1, 1, 0, 0)),
            Kernel::Cross => Ok(counts(2, 1, 0, 1)),
            Kernel::Streamer(_) => Ok(counts(1, 1, 0, 1)),
            Kernel::Tally => Ok(counts(1, 0, 1, 0)),
            Kernel::Fused { first, second, .. } => fused(first.shape()?, second.shape()?),
        }
    }
}

fn counts(ins: usize, outs: usize, tables: usize, privates: usize) -> Shape
    ensures { result ≡ shape_with ins outs tables privates }
{
    Shape {
        ins,
        outs,
        tables,
        privates,
    }
}

// The slots that are kept are one variable.
fn kept_vars(starts: &[i64]) -> usize
    ensures { result ≡ kept_vars starts.now }
{
    match starts {
        [] => 0,
        [_, ..] => 1,
    }
}

// The second kernel in place of one of the first one's output ports.
fn fused(first: Shape, second: Shape) -> Result<Shape, NoMemory>
    ensures { IfOk result (λ found. found ≡ fused_shape first second) }
{
    let outs = sum(first.outs, second.outs)?;
    Ok(Shape {
        ins: first.ins,
        outs: outs.saturating_sub(1),
        tables: sum(first.tables, second.tables)?,
        privates: sum(first.privates, second.privates)?,
    })
}

fn sum(a: usize, b: usize) -> Result<usize, NoMemory>
    ensures { IfOk result (λ c. c ≡ a + b) }
{
    a.checked_add(b).ok_or(NoMemory)
}
