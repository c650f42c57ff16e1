// Operators read.
ghost use Rattle.std.specs.Prelude.{[], ◌∷◌};
ghost use Rattle.text_tokens.specs.declared.sign.Symbol.TheVariants as s;
ghost use Rattle.text_forms.specs.Gives.{Gives, Makes};
ghost use Rattle.text_forms.specs.Parse.{after};
ghost use Rattle.river_kernels.specs.Kern.{kern_of};
ghost use Rattle.river_plan.specs.Forms.{op_form};
ghost use Rattle.river_text.specs.Listed.{pair_of};
ghost use Rattle.river_text.specs.ReadPlans.{ports_at, op_of_parts, op_from_at, op_at};

use crate::decl::BRACKETS;
use crate::kernel::braced;
use crate::port::{Ports, both_lists};
use river_base::Name;
use river_kernels::Kernel;
use river_plan::Op;
use std::alloc::Global;
use text_forms::{ParseFault, Reader, kept};
use text_tokens::Symbol;

/// An operator, behind its first word.
#[tactic(auto, unfolding(crate::specs::ReadPlans::op_at))]
pub(crate) fn operator(reader: &mut Reader<'_>, alloc: Global) -> Result<Op, ParseFault>
    ensures { Gives op_form result reader.new (op_at reader.old) }
{
    let label = reader.short_name()?;
    reader.expect(&[Symbol::Colon])?;
    let outs = both_lists(reader, alloc)?;
    op_from(reader, alloc, label, outs)
}

// The operator, behind what it writes.
#[tactic(auto, unfolding(crate::specs::ReadPlans::op_from_at), using(crate::proofs::Ports::steps))]
fn op_from(
    reader: &mut Reader<'_>,
    alloc: Global,
    label: Name,
    outs: Ports,
) -> Result<Op, ParseFault>
    ensures { Gives op_form result reader.new (op_from_at label (pair_of outs) reader.old) }
{
    let ins = sources(reader, alloc)?;
    let kernel = braced(reader, alloc, BRACKETS)?;
    made_op(label, outs, ins, kernel)
}

// `<-` and what an operator reads.
fn sources(reader: &mut Reader<'_>, alloc: Global) -> Result<Ports, ParseFault>
    ensures { Gives pair_of result reader.new (after (s.Less ∷ s.Minus ∷ []) ports_at reader.old) }
{
    reader.expect(&[Symbol::Less, Symbol::Minus])?;
    both_lists(reader, alloc)
}

// An operator, where it reads and writes the same variables.
fn made_op(label: Name, outs: Ports, ins: Ports, kernel: Kernel) -> Result<Op, ParseFault>
    ensures { Makes op_form result (op_of_parts label (pair_of outs) (pair_of ins) (kern_of kernel)) }
{
    let same = outs.vars.as_slice() == ins.vars.as_slice();
    let op = Op {
        label,
        kernel,
        reads: ins.queues,
        writes: outs.queues,
        vars: outs.vars,
    };
    kept(op, same)
}
