// Statements in the form in which they are run.
ghost use Rattle.std.specs.Prelude.{◌≡◌, map, IfOk};
ghost use Rattle.work_code.specs.Term.{terms};
ghost use Rattle.work_code.specs.Calcs.{calc_term};
ghost use Rattle.work_code.specs.Acts.{act_step, act_steps};
ghost use Rattle.work_code.specs.Steps.{step, steps};

use crate::calc::{Calc, calc_of};
use crate::{Exprs, Stmt, Stmts};
use river_base::NoMemory;
use std::alloc::Global;

/// A statement as it is run.
#[derive(Drop)]
#[cycle(acts)]
pub(crate) enum Act {
    /// Gives a slot a value.
    Set { slot: u32, value: Calc },
    /// Gives a row of these values to a port.
    Push { port: u32, values: Vec<Calc> },
    /// Goes on with the first statements where the condition is not 0, and otherwise with the second.
    If { cond: Calc, yes: Acts, no: Acts },
}

/// A list of statements as they are run.
#[derive(Drop)]
#[cycle(acts)]
pub(crate) struct Acts {
    items: Vec<Act>,
}

impl Acts {
    /// The statements.
    pub(crate) fn as_slice(&self) -> &[Act]
        ensures { result.now ≡ self.now.items.items }
    {
        self.items.as_slice()
    }
}

/// The form in which statements are run.
#[cycle(acts_of)]
#[tactic(auto, using(crate::proofs::Lists::copies))]
pub(crate) fn acts_of(alloc: Global, body: &Stmts) -> Result<Acts, NoMemory>
    ensures { IfOk result (λ acts. act_steps acts ≡ steps body.now) }
{
    let mut items = Vec::new(alloc);
    for s in body.as_slice() {
        items.push(act_of(alloc, s)?)?;
    }
    Ok(Acts { items })
}

#[cycle(acts_of)]
fn act_of(alloc: Global, s: &Stmt) -> Result<Act, NoMemory>
    ensures { IfOk result (λ act. act_step act ≡ step s.now) }
{
    match s {
        Stmt::Set { slot, value } => Ok(Act::Set {
            slot: *slot,
            value: calc_of(alloc, value)?,
        }),
        Stmt::Push { port, values } => Ok(Act::Push {
            port: *port,
            values: calcs_of(alloc, values)?,
        }),
        Stmt::If { cond, yes, no } => Ok(Act::If {
            cond: calc_of(alloc, cond)?,
            yes: acts_of(alloc, yes)?,
            no: acts_of(alloc, no)?,
        }),
    }
}

// The forms in which expressions are run.
#[tactic(auto, using(crate::proofs::Lists::copies))]
pub(crate) fn calcs_of(alloc: Global, values: &Exprs) -> Result<Vec<Calc>, NoMemory>
    ensures { IfOk result (λ calcs. map calc_term calcs.items ≡ terms values.now) }
{
    let mut calcs = Vec::new(alloc);
    for e in values.as_slice() {
        calcs.push(calc_of(alloc, e)?)?;
    }
    Ok(calcs)
}
