// Statements of work code.
ghost use Rattle.std.specs.Prelude.{◌≡◌, ◌<◌, ◌^◌, [], ◌∷◌, ◌++◌, length, IfOk, OnOk, OnErr, MatchOption, slice_get, Some, IsTrue, ◌↔◌};
ghost use Rattle.std.specs.Slice.Iter.{iter_rest};
ghost use Rattle.std.specs.Iterator.Adapters.{IterYieldsInOrder};
ghost use Rattle.std.specs.Borrow.{sem};
ghost use Rattle.work_code.specs.Lent.{LendsStmt};
ghost use Rattle.work_code.specs.Steps.{step, steps, statements, code_body};

use crate::{Body, Expr, Exprs};
use river_base::NoMemory;
use std::alloc::Global;
use std::slice;

/// A statement.
#[derive(Drop)]
#[cycle(code)]
pub enum Stmt {
    /// Gives a slot a value.
    Set { slot: u32, value: Expr },
    /// Gives a row of these values to a port.
    Push { port: u32, values: Exprs },
    /// Goes on with the first statements where the condition is not 0, and otherwise with the second.
    If { cond: Expr, yes: Stmts, no: Stmts },
}

/// A list of statements.
#[derive(Drop)]
#[cycle(code)]
pub struct Stmts {
    items: Vec<Stmt>,
}

/// A body that is run on a row of inputs.
#[derive(Drop)]
pub struct Code {
    /// How many values a row of inputs has.
    pub inputs: u32,
    /// How many slots there are.
    pub slots: u32,
    /// What is run.
    pub body: Body,
}

impl Stmt {
    /// A statement with the same tree.
    #[cycle(copy)]
    pub fn copy(&self, alloc: Global) -> Result<Stmt, NoMemory>
        ensures { IfOk result (λ copy. step copy ≡ step self.now) }
    {
        match self {
            Stmt::Set { slot, value } => Ok(Stmt::Set {
                slot: *slot,
                value: value.copy(alloc)?,
            }),
            Stmt::Push { port, values } => Ok(Stmt::Push {
                port: *port,
                values: values.copy(alloc)?,
            }),
            Stmt::If { cond, yes, no } => Ok(Stmt::If {
                cond: cond.copy(alloc)?,
                yes: yes.copy(alloc)?,
                no: no.copy(alloc)?,
            }),
        }
    }
}

impl Stmts {
    /// The empty list.
    pub fn new(alloc: Global) -> Stmts
        ensures { statements result ≡ [] }
    {
        Stmts {
            items: Vec::new(alloc),
        }
    }

    /// Appends a statement; changes nothing where there is no memory.
    pub fn push(&mut self, x: Stmt) -> Result<(), NoMemory>
        ensures ok { OnOk result (statements self.new ≡ statements self.old ++ x ∷ []) }
        ensures err { OnErr result (statements self.new ≡ statements self.old) }
    {
        self.items.push(x)?;
        Ok(())
    }

    /// How many statements there are.
    pub fn len(&self) -> usize
        ensures { result ≡ length (statements self.now) }
    {
        self.items.len()
    }

    /// Whether there is no statement.
    pub fn is_empty(&self) -> bool
        ensures { IsTrue result ↔ (statements self.now ≡ []) }
    {
        self.items.is_empty()
    }

    /// The statement at a place, from 0.
    pub fn at(&self, i: usize) -> &Stmt
        requires { i < length (statements self.now) }
        ensures { slice_get (statements self.now) i ≡ Some result.now }
    {
        &self.items[i]
    }

    /// The statement at a place, from 0, to be changed.
    pub fn at_mut(&mut self, i: usize) -> &mut Stmt
        requires { i < length (statements self.old) }
        ensures* writes_back { sem 𝓛 (LendsStmt self.entry i result) }
        ensures value { slice_get (statements self.old) i ≡ Some result.now }
    {
        &mut self.items[i]
    }

    /// Takes the last statement out; None where there is none.
    pub fn pop(&mut self) -> Option<Stmt>
        ensures { MatchOption result ((statements self.old ≡ []) × (statements self.new ≡ [])) (λ x. statements self.old ≡ statements self.new ++ x ∷ []) }
    {
        self.items.pop()
    }

    /// The statements.
    pub fn as_slice(&self) -> &[Stmt]
        ensures { result.now ≡ statements self.now }
    {
        self.items.as_slice()
    }

    /// Goes over the statements in order.
    pub fn iter(&self) -> slice::Iter<'_, Stmt>
        ensures rest { iter_rest result ≡ statements self.now }
        ensures bound { length (iter_rest result) < 2 ^ 64 }
        ensures runs { IterYieldsInOrder Stmt }
    {
        self.items.iter()
    }

    /// A list of statements with the same trees.
    #[cycle(copy)]
    #[tactic(auto, using(crate::proofs::Lists::copies))]
    pub fn copy(&self, alloc: Global) -> Result<Stmts, NoMemory>
        ensures { IfOk result (λ copy. steps copy ≡ steps self.now) }
    {
        let mut copies = Stmts::new(alloc);
        for x in self.as_slice() {
            copies.push(x.copy(alloc)?)?;
        }
        Ok(copies)
    }
}

impl Code {
    /// A body with the same trees.
    pub fn copy(&self, alloc: Global) -> Result<Code, NoMemory>
        ensures { IfOk result (λ copy. code_body copy ≡ code_body self.now) }
    {
        Ok(Code {
            inputs: self.inputs,
            slots: self.slots,
            body: self.body.copy(alloc)?,
        })
    }
}
