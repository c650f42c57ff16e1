// One firing of a filter, statement by statement.
ghost use Rattle.std.specs.Prelude.{◌≡◌, ◌≤◌, ◌+◌, ◌-◌, ◌^◌, pos, [], length, map, IfOk, OnOk, if◌then◌else◌, slice_index_or};
ghost use Rattle.river_base.specs.Number.{count_of};
ghost use Rattle.streamit_text.specs.Tree.{Bin, Declare, Assign, Push, Discard, If, For, expression, option_expression, is_turn, statement, block};
ghost use Rattle.streamit_text.specs.Tree.{optional_block};
ghost use Rattle.brooklet_model.specs.Machine.{at_name};
ghost use Rattle.streamit_model.specs.Meaning.{eval, pops, numbers_from, first_value, first_pops, each_turn, exec, exec_all, exec_optional, nought, with_fields};
ghost use Rattle.streamit_model.specs.Meaning.{at_start};
ghost use Rattle.streamit_unroll.specs.Numbers.{AreValues};
ghost use Rattle.streamit_unroll.specs.Unrolling.{AreOptional, AreWritten, AreWrittenOptional, IsWritten};
ghost use Rattle.slow_streamit.specs.Firing.{named_values, firing_state};

use indexmap::IndexMap;
use river_base::{Name, NoMemory, Numbers, count_of};
use std::alloc::Global;
use streamit_text::{Block, Expr, Statement, Until};
use work_code::{BinOp, apply, negate, truth_of};

/// The values of names. A name that has none stands for 0.
#[derive(Drop)]
pub(crate) struct Store {
    known: IndexMap<Name, i64>,
}

impl Store {
    /// No name has a value.
    pub fn new(alloc: Global) -> Store
        ensures { named_values result ≡ nought }
    {
        Store {
            known: IndexMap::new(alloc),
        }
    }

    /// The value of a name.
    pub fn get(&self, name: Name) -> i64
        ensures { result ≡ named_values self.now name }
    {
        match self.known.get(&name) {
            Some(value) => *value,
            None => 0,
        }
    }

    /// A name has this value from here on.
    pub fn set(&mut self, name: Name, value: i64) -> Result<(), NoMemory>
        ensures { OnOk result (named_values self.new ≡ at_name name value (named_values self.old)) }
    {
        self.known.insert(name, value)?;
        Ok(())
    }
}

/// Where a firing stands: the values of names, how many items it popped, and the values that it pushed.
#[derive(Drop)]
pub(crate) struct Firing {
    pub values: Store,
    pub popped: usize,
    pub pushed: Numbers,
}

// The value of an expression, from left to right; its pops are counted.
#[cycle(eval)]
fn eval(e: &Expr, items: &[i64], values: &Store, popped: &mut usize) -> Result<i64, NoMemory>
    requires { AreValues (expression e.now) }
    ensures value { IfOk result (λ value. value ≡ eval (expression e.now) items.now (named_values values.now) popped.old) }
    ensures popped { OnOk result (popped.new ≡ popped.old + pops (expression e.now)) }
{
    match e {
        Expr::Number(value) => Ok(*value as i64),
        Expr::Name(name) => Ok(values.get(*name)),
        Expr::Peek(index) => {
            let first = *popped;
            let index = eval(index, items, values, popped)?;
            Ok(peeked(items, first, index))
        }
        Expr::Pop => {
            let place = *popped;
            *popped = next(place)?;
            Ok(item_at(items, place))
        }
        Expr::Neg(inner) => {
            let inner = eval(inner, items, values, popped)?;
            Ok(negate(inner))
        }
        Expr::Not(inner) => {
            let inner = eval(inner, items, values, popped)?;
            Ok(truth_of(inner == 0))
        }
        Expr::Bin { op, left, right } => both(*op, left, right, items, values, popped),
    }
}

// The value of an operation; both sides have their values first, the left one before the right one.
#[cycle(eval)]
fn both(
    op: BinOp,
    left: &Expr,
    right: &Expr,
    items: &[i64],
    values: &Store,
    popped: &mut usize,
) -> Result<i64, NoMemory>
    requires left { AreValues (expression left.now) }
    requires right { AreValues (expression right.now) }
    ensures value { IfOk result (λ value. value ≡ eval (Bin op (expression left.now) (expression right.now)) items.now (named_values values.now) popped.old) }
    ensures popped { OnOk result (popped.new ≡ popped.old + pops (Bin op (expression left.now) (expression right.now))) }
{
    let left = eval(left, items, values, popped)?;
    let right = eval(right, items, values, popped)?;
    Ok(apply(op, left, right))
}

// The item at an index, behind those that were popped.
fn peeked(items: &[i64], popped: usize, index: i64) -> i64
    ensures { result ≡ slice_index_or items.now (popped + count_of index) (pos 0) }
{
    match popped.checked_add(count_of(index) as usize) {
        Some(place) => item_at(items, place),
        None => 0,
    }
}

// The item at a place; 0 where there is none.
fn item_at(items: &[i64], place: usize) -> i64
    ensures { result ≡ slice_index_or items.now place (pos 0) }
{
    match items.get(place) {
        Some(item) => *item,
        None => 0,
    }
}

// One place more; there is no memory for so many items where there is no such number.
fn next(place: usize) -> Result<usize, NoMemory>
    ensures { IfOk result (λ n. n ≡ place + 1) }
{
    match place.checked_add(1) {
        Some(n) => Ok(n),
        None => Err(NoMemory),
    }
}

// Where the turns of a loop end.
fn end_of(high: i64, until: Until) -> usize
    ensures is { result ≡ count_of high + (if is_turn until then 1 else 0) }
    ensures small { result ≤ 2 ^ 63 }
{
    match until {
        Until::Below => count_of(high) as usize,
        Until::UpTo => count_of(high) as usize + 1,
    }
}

impl Firing {
    /// Nothing has a value, and nothing was popped or pushed.
    pub fn new(alloc: Global) -> Firing
        ensures values { named_values result.values ≡ nought }
        ensures popped { result.popped ≡ 0 }
        ensures pushed { result.pushed ≡ [] }
    {
        Firing {
            values: Store::new(alloc),
            popped: 0,
            pushed: Numbers::new(alloc),
        }
    }

    /// At its beginning only the fields have values.
    pub fn begin(&mut self, fields: &[Name], kept: &[i64]) -> Result<(), NoMemory>
        requires values { named_values self.old.values ≡ nought }
        requires popped { self.old.popped ≡ 0 }
        requires pushed { self.old.pushed ≡ [] }
        requires kept { length kept.now ≡ length fields.now }
        ensures { OnOk result (firing_state self.new ≡ at_start fields.now kept.now) }
    {
        set_all(&mut self.values, fields, kept)
    }

    /// The values of the fields.
    pub fn fields(&self, alloc: Global, fields: &[Name]) -> Result<Numbers, NoMemory>
        ensures { IfOk result (λ kept. kept ≡ map (firing_state self.now).values fields.now) }
    {
        let mut kept = Numbers::new(alloc);
        for name in fields {
            kept.push(self.values.get(*name))?;
        }
        Ok(kept)
    }

    /// The statements of a block, one after another.
    #[cycle(exec)]
    pub fn block(&mut self, b: &Block, items: &[i64]) -> Result<(), NoMemory>
        requires { AreWritten (block b.now) }
        ensures { OnOk result (firing_state self.new ≡ exec_all (block b.now) items.now (firing_state self.old)) }
    {
        for s in b.items.as_slice() {
            self.statement(s, items)?;
        }
        Ok(())
    }

    /// A block that may be left out.
    #[cycle(exec)]
    pub fn optional(&mut self, b: &Option<Block>, items: &[i64]) -> Result<(), NoMemory>
        requires { AreWrittenOptional (optional_block b.now) }
        ensures { OnOk result (firing_state self.new ≡ exec_optional (optional_block b.now) items.now (firing_state self.old)) }
    {
        match b {
            None => Ok(()),
            Some(block) => self.block(block, items),
        }
    }

    // A statement.
    #[cycle(exec)]
    fn statement(&mut self, s: &Statement, items: &[i64]) -> Result<(), NoMemory>
        requires { IsWritten (statement s.now) }
        ensures { OnOk result (firing_state self.new ≡ exec (statement s.now) items.now (firing_state self.old)) }
    {
        match s {
            Statement::Declare { name, value } => self.declare(*name, value, items),
            Statement::Assign { name, value } => self.assign(*name, value, items),
            Statement::Push(value) => self.push(value, items),
            Statement::Pop => self.pop(items),
            Statement::If { cond, yes, no } => self.branch(cond, yes, no, items),
            Statement::For {
                name,
                low,
                until,
                high,
                body,
            } => self.repeat(*name, low, *until, high, body, items),
        }
    }

    // An `if`: one of its arms.
    #[cycle(exec)]
    fn branch(
        &mut self,
        cond: &Expr,
        yes: &Block,
        no: &Option<Block>,
        items: &[i64],
    ) -> Result<(), NoMemory>
        requires cond { AreValues (expression cond.now) }
        requires yes { AreWritten (block yes.now) }
        requires no { AreWrittenOptional (optional_block no.now) }
        ensures { OnOk result (firing_state self.new ≡ exec (If (expression cond.now) (block yes.now) (optional_block no.now)) items.now (firing_state self.old)) }
    {
        let cond = self.value(cond, items)?;
        if cond != 0 {
            self.block(yes, items)
        } else {
            self.optional(no, items)
        }
    }

    // A loop; what its bounds pop is not counted.
    #[cycle(exec)]
    fn repeat(
        &mut self,
        name: Name,
        low: &Expr,
        until: Until,
        high: &Expr,
        body: &Block,
        items: &[i64],
    ) -> Result<(), NoMemory>
        requires low { AreValues (expression low.now) }
        requires high { AreValues (expression high.now) }
        requires body { AreWritten (block body.now) }
        ensures { OnOk result (firing_state self.new
            ≡ exec (For name (expression low.now) (is_turn until) (expression high.now) (block body.now)) items.now (firing_state self.old)) }
    {
        let low = self.bound(low, items)?;
        let high = self.bound(high, items)?;
        self.turns(
            name,
            count_of(low) as usize,
            end_of(high, until),
            body,
            items,
        )
    }

    // A block for each value of a loop's variable.
    #[cycle(exec)]
    fn turns(
        &mut self,
        name: Name,
        low: usize,
        end: usize,
        body: &Block,
        items: &[i64],
    ) -> Result<(), NoMemory>
        requires end { end ≤ 2 ^ 63 }
        requires body { AreWritten (block body.now) }
        ensures { OnOk result (firing_state self.new ≡ each_turn (exec_all (block body.now) items.now) name (numbers_from low (end - low)) (firing_state self.old)) }
    {
        for v in low..end {
            self.values.set(name, v as i64)?;
            self.block(body, items)?;
        }
        Ok(())
    }

    // `int NAME = e;`
    fn declare(&mut self, name: Name, value: &Option<Expr>, items: &[i64]) -> Result<(), NoMemory>
        requires { AreOptional (option_expression value.now) }
        ensures { OnOk result (firing_state self.new ≡ exec (Declare name (option_expression value.now)) items.now (firing_state self.old)) }
    {
        let value = self.first_value(value, items)?;
        self.values.set(name, value)
    }

    // The first value of a local.
    fn first_value(&mut self, value: &Option<Expr>, items: &[i64]) -> Result<i64, NoMemory>
        requires { AreOptional (option_expression value.now) }
        ensures value { IfOk result (λ z. z ≡ first_value (option_expression value.now) items.now (firing_state self.old)) }
        ensures popped { OnOk result (self.new.popped ≡ self.old.popped + first_pops (option_expression value.now)) }
        ensures values { self.new.values ≡ self.old.values }
        ensures pushed { self.new.pushed ≡ self.old.pushed }
    {
        match value {
            None => Ok(0),
            Some(value) => self.value(value, items),
        }
    }

    // `NAME = e;`
    fn assign(&mut self, name: Name, value: &Expr, items: &[i64]) -> Result<(), NoMemory>
        requires { AreValues (expression value.now) }
        ensures { OnOk result (firing_state self.new ≡ exec (Assign name (expression value.now)) items.now (firing_state self.old)) }
    {
        let value = self.value(value, items)?;
        self.values.set(name, value)
    }

    // `push(e);`
    fn push(&mut self, value: &Expr, items: &[i64]) -> Result<(), NoMemory>
        requires { AreValues (expression value.now) }
        ensures { OnOk result (firing_state self.new ≡ exec (Push (expression value.now)) items.now (firing_state self.old)) }
    {
        let value = self.value(value, items)?;
        self.pushed.push(value)
    }

    // `pop();`
    fn pop(&mut self, items: &[i64]) -> Result<(), NoMemory>
        ensures { OnOk result (firing_state self.new ≡ exec Discard items.now (firing_state self.old)) }
    {
        self.popped = next(self.popped)?;
        Ok(())
    }

    // The value of an expression; its pops are counted.
    fn value(&mut self, e: &Expr, items: &[i64]) -> Result<i64, NoMemory>
        requires { AreValues (expression e.now) }
        ensures value { IfOk result (λ z. z ≡ eval (expression e.now) items.now (named_values self.old.values) self.old.popped) }
        ensures popped { OnOk result (self.new.popped ≡ self.old.popped + pops (expression e.now)) }
        ensures values { self.new.values ≡ self.old.values }
        ensures pushed { self.new.pushed ≡ self.old.pushed }
    {
        eval(e, items, &self.values, &mut self.popped)
    }

    // The value of a bound; its pops are not counted.
    fn bound(&self, e: &Expr, items: &[i64]) -> Result<i64, NoMemory>
        requires { AreValues (expression e.now) }
        ensures { IfOk result (λ z. z ≡ eval (expression e.now) items.now (named_values self.now.values) self.now.popped) }
    {
        let mut popped = self.popped;
        eval(e, items, &self.values, &mut popped)
    }
}

// The fields have these values from here on.
fn set_all(values: &mut Store, fields: &[Name], kept: &[i64]) -> Result<(), NoMemory>
    requires { length kept.now ≡ length fields.now }
    ensures { OnOk result (named_values values.new ≡ with_fields fields.now kept.now (named_values values.old)) }
{
    for i in 0..fields.len() {
        values.set(fields[i], kept[i])?;
    }
    Ok(())
}
