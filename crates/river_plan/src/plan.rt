// Plans as lists.
ghost use Rattle.std.specs.Prelude.{◌≡◌, IfOk};
ghost use Rattle.river_plan.specs.Forms.{plan_form, op_forms, empty_form};

use crate::{Names, Op, Ops};
use kern_tables::TableKind;
use river_base::{Duplicate, Listed, Name, NoMemory, QueueType};
use std::alloc::Global;

/// The declaration of a queue.
#[derive(Clone, Copy)]
pub struct Decl {
    /// The queue's name.
    pub name: Name,
    /// What the queue carries.
    pub kind: QueueType,
}

/// A list of declarations of queues.
pub type Decls = Listed<Decl>;

/// The declaration of a table.
#[derive(Clone, Copy)]
pub struct TableDecl {
    /// The table's name, without its `$`.
    pub name: Name,
    /// What the table makes of its rows.
    pub kind: TableKind,
}

/// A list of declarations of tables.
pub type TableDecls = Listed<TableDecl>;

/// The lists of a plan, which may be no valid one.
#[derive(Drop)]
pub struct RawPlan {
    /// The queues that the plan gives to the outside.
    pub outputs: Decls,
    /// The queues that the outside gives to the plan.
    pub inputs: Decls,
    /// The other queues.
    pub queues: Decls,
    /// The tables.
    pub tables: TableDecls,
    /// The private variables, without their `$`.
    pub vars: Names,
    /// The operators, each behind those that write what it reads.
    pub ops: Ops,
}

impl Duplicate for Decl {
    fn copy(&self, _alloc: Global) -> Result<Decl, NoMemory> {
        Ok(*self)
    }
}

impl Duplicate for TableDecl {
    fn copy(&self, _alloc: Global) -> Result<TableDecl, NoMemory> {
        Ok(*self)
    }
}

impl RawPlan {
    /// The plan without queues, variables and operators.
    pub fn new(alloc: Global) -> RawPlan
        ensures { plan_form result ≡ empty_form }
    {
        RawPlan {
            outputs: Decls::new(alloc),
            inputs: Decls::new(alloc),
            queues: Decls::new(alloc),
            tables: TableDecls::new(alloc),
            vars: Names::new(alloc),
            ops: Ops::new(alloc),
        }
    }

    /// A plan of the same meaning.
    pub fn copy(&self, alloc: Global) -> Result<RawPlan, NoMemory>
        ensures { IfOk result (λ copy. plan_form copy ≡ plan_form self.now) }
    {
        Ok(RawPlan {
            outputs: self.outputs.copy(alloc)?,
            inputs: self.inputs.copy(alloc)?,
            queues: self.queues.copy(alloc)?,
            tables: self.tables.copy(alloc)?,
            vars: self.vars.copy(alloc)?,
            ops: copy_ops(alloc, &self.ops)?,
        })
    }
}

// Operators of the same meaning.
#[tactic(auto, using(work_code::proofs::Lists::copies))]
fn copy_ops(alloc: Global, ops: &Ops) -> Result<Ops, NoMemory>
    ensures { IfOk result (λ copy. op_forms copy ≡ op_forms ops.now) }
{
    let mut copies = Ops::new(alloc);
    for op in ops.as_slice() {
        copies.push(op.copy(alloc)?)?;
    }
    Ok(copies)
}
