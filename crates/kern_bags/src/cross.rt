// A product of two relations that come as changes.
ghost use Rattle.std.specs.Prelude.{◌≡◌, ◌++◌, IfOk, OnOk, OnErr, MatchOption};
ghost use Rattle.river_base.specs.Changes.{all_pairs, IsChanged};
ghost use Rattle.work_code.specs.Term.{term};
ghost use Rattle.kern_changes.specs.Counted.{Changed};
ghost use Rattle.kern_bags.specs.Following.{cross_start, put_change, Crosses, CrossFits, CrossesFlat, CrossesPart};
ghost use Rattle.kern_bags.specs.Joined.{CanMakeWhere, CanJoinChanges, CanJoinFlat, JoinsWhere, JoinsPairs, JoinsFlat, JoinsPart};
ghost use Rattle.kern_bags.specs.Needs.{CanJoin};
ghost use Rattle.kern_bags.specs.Takes.{CanCrossChanges, CanCrossFlat, CanJoinBoth, CanMake, CanMeet, TakesChanges, HasNoChanges, JoinsChanges};

use crate::Cross;
use crate::given::{change_of, give_changes};
use crate::joined::{meet_left_where, meet_right_where};
use crate::line::{ChangeLine, Changes};
use crate::product::join_all;
use kern_changes::{KeyedContent, settle};
use river_base::{Change, Flat, Items, NoMemory, Rows};
use std::alloc::Global;
use std::marker::Model;
use work_code::Formula;

/// What a product keeps: the changes that wait at each of its ports, and the contents that passed
/// last, each as a bag.
#[derive(Drop)]
pub struct CrossState {
    left: ChangeLine,
    right: ChangeLine,
    lefts: KeyedContent,
    rights: KeyedContent,
}

impl Model for CrossState {
    ghost use Rattle.kern_bags.specs.Following.{CrossKept};

    ghost Value = { CrossKept };

    ghost view = { λ s. record { left = s.left; right = s.right; lefts = s.lefts; rights = s.rights } };
}

// What comes and goes at the left meets all that is at the right.
fn meet_right(
    alloc: Global,
    change: &Change,
    rights: &KeyedContent,
    plus: &mut Rows,
    minus: &mut Rows,
) -> Result<(), NoMemory>
    requires plus { CanJoin change.now.plus rights.now }
    requires minus { CanJoin change.now.minus rights.now }
    ensures plus { OnOk result (plus.new ≡ plus.old ++ all_pairs change.now.plus rights.now) }
    ensures minus { OnOk result (minus.new ≡ minus.old ++ all_pairs change.now.minus rights.now) }
{
    if change.is_nothing() {
        return Ok(());
    }
    let others = rights.rows(alloc)?;
    join_all(change.plus.as_slice(), others.as_slice(), plus)?;
    join_all(change.minus.as_slice(), others.as_slice(), minus)?;
    Ok(())
}

// What comes and goes at the right meets all that is at the left.
#[tactic(auto, using(crate::proofs::Stepping::nothing_meets))]
fn meet_left(
    alloc: Global,
    change: &Change,
    lefts: &KeyedContent,
    plus: &mut Rows,
    minus: &mut Rows,
) -> Result<(), NoMemory>
    requires { CanJoinBoth lefts.now change.now }
    ensures plus { OnOk result (plus.new ≡ plus.old ++ all_pairs lefts.now change.now.plus) }
    ensures minus { OnOk result (minus.new ≡ minus.old ++ all_pairs lefts.now change.now.minus) }
{
    if change.is_nothing() {
        return Ok(());
    }
    let others = lefts.rows(alloc)?;
    join_all(others.as_slice(), change.plus.as_slice(), plus)?;
    join_all(others.as_slice(), change.minus.as_slice(), minus)?;
    Ok(())
}

// The change of the left side is made, and what comes and goes at the right meets the side as it is
// then.
fn make_and_meet(
    alloc: Global,
    left: &Change,
    right: &Change,
    lefts: &mut KeyedContent,
    plus: &mut Rows,
    minus: &mut Rows,
) -> Result<(), NoMemory>
    requires { CanMeet left.now right.now lefts.old }
    ensures made { OnOk result (Changed left.now lefts.old lefts.new) }
    ensures plus { OnOk result (plus.new ≡ plus.old ++ all_pairs lefts.new right.now.plus) }
    ensures minus { OnOk result (minus.new ≡ minus.old ++ all_pairs lefts.new right.now.minus) }
{
    lefts.make(left)?;
    meet_left(alloc, right, lefts, plus, minus)
}

impl CrossState {
    // A change comes to a port, the first or the second.
    fn put(&mut self, port: u32, change: Change) -> Result<(), NoMemory>
        ensures { OnOk result (self.new ≡ put_change port change self.old) }
    {
        if port == 0 {
            self.left.push(change)?;
        } else {
            self.right.push(change)?;
        }
        Ok(())
    }

    // The first changes of both ports leave, where both have one.
    fn take_pair(&mut self) -> Option<(Change, Change)>
        ensures { MatchOption result (HasNoChanges self.old self.new) (λ pair. TakesChanges self.old self.new pair.0 pair.1) }
    {
        if self.left.is_empty() || self.right.is_empty() {
            return None;
        }
        match (self.left.pop(), self.right.pop()) {
            (Some(left), Some(right)) => Some((left, right)),
            _ => None,
        }
    }

    // Two changes are made, and the change of the product is given.
    fn join(
        &mut self,
        alloc: Global,
        left: &Change,
        right: &Change,
        out: &mut Changes,
    ) -> Result<(), NoMemory>
        requires { CanMake left.now right.now self.old }
        ensures { OnOk result (JoinsChanges left.now right.now self.old self.new out.old out.new) }
    {
        let mut plus = Rows::new(alloc);
        let mut minus = Rows::new(alloc);
        meet_right(alloc, left, &self.rights, &mut plus, &mut minus)?;
        make_and_meet(alloc, left, right, &mut self.lefts, &mut plus, &mut minus)?;
        self.rights.make(right)?;
        let change = settle(alloc, left.at, plus, minus)?;
        out.push(change)?;
        Ok(())
    }

    // Two changes are made, and the change of what a condition keeps of the product is given.
    fn join_where(
        &mut self,
        alloc: Global,
        cond: &Formula,
        left: &Change,
        right: &Change,
        out: &mut Changes,
    ) -> Result<(), NoMemory>
        requires { CanMakeWhere (term cond.now) left.now right.now self.old }
        ensures { OnOk result (JoinsWhere (term cond.now) left.now right.now self.old self.new out.old out.new) }
    {
        let mut plus = Rows::new(alloc);
        let mut minus = Rows::new(alloc);
        meet_right_where(alloc, cond, left, &mut self.rights, &mut plus, &mut minus)?;
        self.lefts.make(left)?;
        meet_left_where(alloc, cond, right, &mut self.lefts, &mut plus, &mut minus)?;
        self.rights.make(right)?;
        let change = settle(alloc, left.at, plus, minus)?;
        out.push(change)?;
        Ok(())
    }

    // Pairs pass as long as a change waits at both ports, and of each what the condition keeps.
    fn pass_pairs_where(
        &mut self,
        alloc: Global,
        cond: &Formula,
        out: &mut Changes,
    ) -> Result<(), NoMemory>
        requires { CanJoinChanges (term cond.now) self.old }
        ensures { OnOk result (JoinsPairs (term cond.now) self.old self.new out.old out.new) }
    {
        while let Some((left, right)) = self.take_pair() {
            self.join_where(alloc, cond, &left, &right, out)?;
        }
        Ok(())
    }

    // Pairs pass as long as a change waits at both ports.
    fn pass_pairs(&mut self, alloc: Global, out: &mut Changes) -> Result<(), NoMemory>
        requires { CanCrossChanges self.old }
        ensures contents { OnOk result (Crosses self.old self.new out.old out.new) }
        ensures fits { OnOk result (CrossFits self.old self.new out.old out.new) }
    {
        while let Some((left, right)) = self.take_pair() {
            self.join(alloc, &left, &right, out)?;
        }
        Ok(())
    }
}

impl Cross {
    /// The state before the first change: nothing waits, and nothing has passed.
    pub fn start(alloc: Global) -> Result<CrossState, NoMemory>
        ensures { IfOk result (λ state. state ≡ cross_start) }
    {
        Ok(CrossState {
            left: ChangeLine::new(alloc),
            right: ChangeLine::new(alloc),
            lefts: KeyedContent::new(alloc),
            rights: KeyedContent::new(alloc),
        })
    }

    /// A change comes to a port, the first or the second, and waits there. As long as a change
    /// waits at both, the first two are made, and the change of the product of the contents is
    /// given, at the instant of the first port's. Costs for each two the rows of the one change
    /// times the other side, n log n of these, and the logarithm of what is kept for each row of
    /// a change. Where there is no memory, a part of what passes was given, and nothing is said of
    /// the state.
    pub fn step(
        alloc: Global,
        state: &mut CrossState,
        port: u32,
        item: Flat,
        out: &mut Items,
    ) -> Result<(), NoMemory>
        requires change { IsChanged item }
        requires fits { CanCrossFlat port item state.old }
        ensures ok { OnOk result (CrossesFlat port item state.old state.new out.old out.new) }
        ensures err { OnErr result (CrossesPart port item state.old out.old out.new) }
    {
        let mut changes = Changes::new(alloc);
        state.put(port, change_of(item))?;
        state.pass_pairs(alloc, &mut changes)?;
        give_changes(changes, out)
    }

    /// A change comes to a port as in `step`, and of each change that this gives what a selection
    /// gives is given. Where the condition holds a column of the one side equal to one of the other,
    /// each row that changes meets the rows of the other side alone that have its value: costs the
    /// logarithm of what is kept for each row of a change, and n log n of the pairs that it meets.
    pub fn step_where(
        alloc: Global,
        cond: &Formula,
        state: &mut CrossState,
        port: u32,
        item: Flat,
        out: &mut Items,
    ) -> Result<(), NoMemory>
        requires change { IsChanged item }
        requires fits { CanJoinFlat (term cond.now) port item state.old }
        ensures ok { OnOk result (JoinsFlat (term cond.now) port item state.old state.new out.old out.new) }
        ensures err { OnErr result (JoinsPart (term cond.now) port item state.old out.old out.new) }
    {
        let mut changes = Changes::new(alloc);
        state.put(port, change_of(item))?;
        state.pass_pairs_where(alloc, cond, &mut changes)?;
        give_changes(changes, out)
    }
}
