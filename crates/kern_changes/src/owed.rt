// What the lists of a splitter or a joiner owe.
ghost use Rattle.std.specs.Prelude.{◌≡◌, ◌<◌, ◌+◌, ◌++◌, length, map, set, IfOk, OnOk};
ghost use Rattle.river_base.specs.Changes.{cancelled};
ghost use Rattle.kern_changes.specs.Owed.{no_debt, debt_at, owing_more, netted, owing, owed_start, DealsOwed, JoinsOwed, KeepsOwed};

use crate::settling::settle;
use river_base::{Change, Listed, NoMemory, Row, Rows};
use std::alloc::Global;
use std::marker::Model;
use std::mem;

/// What a list owes: the rows that came and went since it was last written, in any order, and how
/// many of them were left when those that did both were last left out.
#[derive(Drop)]
pub(crate) struct Debt {
    plus: Rows,
    minus: Rows,
    left: usize,
}

// Rows come to the end of a list.
fn push_all(rows: &[Row], all: &mut Rows) -> Result<(), NoMemory>
    ensures { OnOk result (all.new ≡ all.old ++ rows.now) }
{
    for row in rows {
        all.push(*row)?;
    }
    Ok(())
}

// How many rows two lists have.
fn count_rows(plus: &Rows, minus: &Rows) -> usize
    ensures { result ≡ length plus.now + length minus.now }
{
    plus.as_slice().len() + minus.as_slice().len()
}

impl Debt {
    fn new(alloc: Global) -> Debt
        ensures { result ≡ no_debt }
    {
        Debt {
            plus: Rows::new(alloc),
            minus: Rows::new(alloc),
            left: 0,
        }
    }

    // Rows that come and rows that go are owed too.
    fn owe(&mut self, alloc: Global, plus: &[Row], minus: &[Row]) -> Result<(), NoMemory>
        ensures { OnOk result (self.new ≡ owing plus.now minus.now self.old) }
    {
        self.push(plus, minus)?;
        if count_rows(&self.plus, &self.minus) / 2 > self.left {
            self.net(alloc)?;
        }
        Ok(())
    }

    fn push(&mut self, plus: &[Row], minus: &[Row]) -> Result<(), NoMemory>
        ensures { OnOk result (self.new ≡ owing_more plus.now minus.now self.old) }
    {
        push_all(plus, &mut self.plus)?;
        push_all(minus, &mut self.minus)?;
        Ok(())
    }

    // Rows that came and went are left out.
    fn net(&mut self, alloc: Global) -> Result<(), NoMemory>
        ensures { OnOk result (self.new ≡ netted self.old) }
    {
        let change = self.take(alloc, 0)?;
        self.left = count_rows(&change.plus, &change.minus);
        self.plus = change.plus;
        self.minus = change.minus;
        Ok(())
    }

    // What is owed leaves, as the change that it makes.
    fn take(&mut self, alloc: Global, at: i64) -> Result<Change, NoMemory>
        ensures given { IfOk result (λ change. change ≡ cancelled at self.old.plus self.old.minus) }
        ensures rest { OnOk result (self.new ≡ no_debt) }
    {
        let plus = mem::replace(&mut self.plus, Rows::new(alloc));
        let minus = mem::replace(&mut self.minus, Rows::new(alloc));
        self.left = 0;
        settle(alloc, at, plus, minus)
    }
}

/// What each of several lists of contents owes. A list that is written less often than the others
/// owes at most about twice the rows that differ, whatever came and went in between.
#[derive(Drop)]
pub struct Owed {
    debts: Listed<Debt>,
}

impl Model for Owed {
    ghost use Rattle.std.specs.Prelude.{List};
    ghost use Rattle.kern_changes.specs.declared.owed.Debt.{Debt};

    ghost Value = { List Debt };

    ghost view = { λ s. s.debts };
}

// Rows that come and rows that go are owed by the list at a place.
fn owe_at(
    alloc: Global,
    place: usize,
    plus: &[Row],
    minus: &[Row],
    debts: &mut Listed<Debt>,
) -> Result<(), NoMemory>
    requires { place < length debts.old }
    ensures { OnOk result (debts.new ≡ set debts.old place (owing plus.now minus.now (debt_at debts.old place))) }
{
    let debt = debts.at_mut(place);
    debt.owe(alloc, plus, minus)?;
    Ok(())
}

// They are owed by each list.
fn owe_each(
    alloc: Global,
    plus: &[Row],
    minus: &[Row],
    debts: &mut Listed<Debt>,
) -> Result<(), NoMemory>
    ensures { OnOk result (debts.new ≡ map (owing plus.now minus.now) debts.old) }
{
    for place in 0..debts.len() {
        owe_at(alloc, place, plus, minus, debts)?;
    }
    Ok(())
}

// What the list at a place owes leaves, as the change that it makes.
fn take_at(
    alloc: Global,
    place: usize,
    at: i64,
    debts: &mut Listed<Debt>,
) -> Result<Change, NoMemory>
    requires { place < length debts.old }
    ensures given { IfOk result (λ change. change ≡ cancelled at (debt_at debts.old place).plus (debt_at debts.old place).minus) }
    ensures rest { OnOk result (debts.new ≡ set debts.old place no_debt) }
{
    let debt = debts.at_mut(place);
    let change = debt.take(alloc, at)?;
    Ok(change)
}

// The list at a place owes nothing.
fn clear_at(alloc: Global, place: usize, debts: &mut Listed<Debt>)
    requires { place < length debts.old }
    ensures { debts.new ≡ set debts.old place no_debt }
{
    *debts.at_mut(place) = Debt::new(alloc);
}

impl Owed {
    /// Nothing is owed at so many lists.
    pub fn start(alloc: Global, lists: usize) -> Result<Owed, NoMemory>
        ensures { IfOk result (λ owed. owed ≡ owed_start lists) }
    {
        let mut debts = Listed::new(alloc);
        for _i in 0..lists {
            debts.push(Debt::new(alloc))?;
        }
        Ok(Owed { debts })
    }

    /// A change comes to a splitter, in the turn of the list at a place: all lists owe it, and
    /// what this one owes is given. Where there is no memory, nothing is said of the state.
    pub fn deal(&mut self, alloc: Global, place: usize, change: &Change) -> Result<Change, NoMemory>
        requires { place < length self.old }
        ensures contents { IfOk result (λ given. DealsOwed place change.now self.old self.new given) }
        ensures keeps { IfOk result (λ given. KeepsOwed change.now self.old self.new given) }
    {
        owe_each(
            alloc,
            change.plus.as_slice(),
            change.minus.as_slice(),
            &mut self.debts,
        )?;
        let given = take_at(alloc, place, change.at, &mut self.debts)?;
        Ok(given)
    }

    /// A change of the port at a place passes a joiner: with what this port owes it is given, and
    /// the other ports owe that back. Where there is no memory, nothing is said of the state.
    pub fn join(&mut self, alloc: Global, place: usize, change: &Change) -> Result<Change, NoMemory>
        requires { place < length self.old }
        ensures contents { IfOk result (λ given. JoinsOwed place change.now self.old self.new given) }
        ensures keeps { IfOk result (λ given. KeepsOwed change.now self.old self.new given) }
    {
        owe_at(
            alloc,
            place,
            change.plus.as_slice(),
            change.minus.as_slice(),
            &mut self.debts,
        )?;
        let given = take_at(alloc, place, change.at, &mut self.debts)?;
        owe_each(
            alloc,
            given.minus.as_slice(),
            given.plus.as_slice(),
            &mut self.debts,
        )?;
        clear_at(alloc, place, &mut self.debts);
        Ok(given)
    }
}
