// What firings give.
ghost use Rattle.std.specs.Prelude.{◌≡◌, ◌+◌, ◌<◌, ◌≤◌, ◌^◌, [], ◌∷◌, ◌++◌, length, replicate, reverse, slice_set, All, IfOk, OnOk};
ghost use Rattle.river_base.specs.declared.item.Item.TheVariants as variant;
ghost use Rattle.river_base.specs.declared.item.Flat.TheVariants as flat;
ghost use Rattle.river_base.specs.Places.{append_at, each_grew, upto, only, list_at};
ghost use Rattle.kern_rows.specs.Runs.{pushed_to};
ghost use Rattle.brooklet_model.specs.Firings.{gives, splice as splice_lem, beside};
ghost use Rattle.brooklet_step.specs.Took.{Took, StayApart};

use crate::initial::add_empty;
use crate::parts::Lines;
use kern_rows::ItemLine;
use river_base::{Duplicate, Item, Items, Listed, NoMemory, Numbers, Row, Rows};
use std::alloc::Global;
use std::mem::replace;
use work_code::Emitted;

/// Lists of rows, one for each table.
pub type RowLists = Listed<Rows>;

/// What firings give: the items for each output port, in a line, and a list of rows for each table variable.
#[derive(Drop)]
pub struct Emit {
    pub outs: Lines,
    pub adds: RowLists,
}

/// Lists that were used before: their memory is used again, and nothing is said of what they have.
#[derive(Drop)]
pub struct Spare {
    items: Items,
    pushes: Emitted,
    values: Numbers,
    lines: Listed<Lines>,
}

impl Spare {
    /// Lists without any memory.
    pub fn new(alloc: Global) -> Spare {
        Spare {
            items: Items::new(alloc),
            pushes: Emitted::new(alloc),
            values: Numbers::new(alloc),
            lines: Listed::new(alloc),
        }
    }

    /// An empty list for items, with the memory of one that was used before.
    pub fn take_items(&mut self, alloc: Global) -> Items
        ensures { result ≡ [] }
    {
        emptied(alloc, &mut self.items)
    }

    /// An empty list for what a body pushes, with the memory of one that was used before.
    pub fn take_pushes(&mut self, alloc: Global) -> Emitted
        ensures { result ≡ [] }
    {
        let mut used = replace(&mut self.pushes, Emitted::new(alloc));
        used.clear();
        used
    }

    /// An empty list for what a filter gives, with the memory of one that was used before.
    pub fn take_values(&mut self, alloc: Global) -> Numbers
        ensures { result ≡ [] }
    {
        emptied(alloc, &mut self.values)
    }

    /// A list that was used comes back.
    pub(crate) fn put_values(&mut self, values: Numbers) {
        self.values = values;
    }

    /// So many empty lines, with the memory of such as were used before.
    pub(crate) fn take_lines(&mut self, alloc: Global, count: usize) -> Result<Lines, NoMemory>
        ensures { IfOk result (λ lines. lines ≡ replicate count []) }
    {
        match self.lines.pop() {
            Some(used) => renewed(alloc, used, count),
            None => blank_lines(alloc, count),
        }
    }

    /// Lines that were used come back. Where there is no memory to keep them, they are gone.
    pub(crate) fn put_lines(&mut self, lines: Lines) {
        let _kept = self.lines.push(lines).is_ok();
    }
}

impl Emit {
    /// Nothing, for so many ports and tables.
    pub(crate) fn blank(alloc: Global, ports: usize, tables: usize) -> Result<Emit, NoMemory>
        ensures outs { IfOk result (λ emit. emit.outs ≡ replicate ports []) }
        ensures adds { IfOk result (λ emit. emit.adds ≡ replicate tables []) }
    {
        Ok(Emit {
            outs: blank_lines(alloc, ports)?,
            adds: Listed::blanks(alloc, tables)?,
        })
    }

    /// The same, with lines that were used before.
    pub(crate) fn blank_again(
        alloc: Global,
        ports: usize,
        tables: usize,
        spare: &mut Spare,
    ) -> Result<Emit, NoMemory>
        ensures outs { IfOk result (λ emit. emit.outs ≡ replicate ports []) }
        ensures adds { IfOk result (λ emit. emit.adds ≡ replicate tables []) }
    {
        Ok(Emit {
            outs: spare.take_lines(alloc, ports)?,
            adds: Listed::blanks(alloc, tables)?,
        })
    }

    /// One more item at a port.
    pub(crate) fn give(&mut self, port: usize, item: Item) -> Result<(), NoMemory>
        requires { port < length self.old.outs }
        ensures { OnOk result (Took self.old self.new (gives port (item ∷ []) [])) }
    {
        push_item(&mut self.outs, port, item)
    }

    /// These items at a port. Their list is spare.
    pub(crate) fn give_all(
        &mut self,
        port: usize,
        items: Items,
        spare: &mut Spare,
    ) -> Result<(), NoMemory>
        requires { port < length self.old.outs }
        ensures { OnOk result (Took self.old self.new (gives port items [])) }
    {
        spare.items = items;
        add_items(&mut self.outs, port, &mut spare.items)
    }

    /// One more row for a table.
    pub(crate) fn add_row(&mut self, table: usize, row: &Row) -> Result<(), NoMemory>
        requires { table < length self.old.adds }
        ensures outs { OnOk result (self.new.outs ≡ self.old.outs) }
        ensures adds { OnOk result (self.new.adds ≡ each_grew self.old.adds (only table (row.now ∷ []))) }
    {
        self.adds.push_at(table, *row)
    }

    /// An item for every port: copies, and the item itself at the last.
    pub(crate) fn give_everywhere(&mut self, alloc: Global, item: Item) -> Result<(), NoMemory>
        ensures outs { OnOk result (self.new.outs ≡ each_grew self.old.outs (λ port. item ∷ [])) }
        ensures adds { OnOk result (self.new.adds ≡ self.old.adds) }
    {
        let last = self.outs.len().saturating_sub(1);
        copy_below(alloc, &mut self.outs, last, &item)?;
        give_last(&mut self.outs, last, item)
    }

    /// The rows that a body pushed, each at its port. Their list is spare.
    pub(crate) fn give_pushes(&mut self, pushes: Emitted, spare: &mut Spare) -> Result<(), NoMemory>
        requires { All (λ push. push.0 < length self.old.outs) pushes }
        ensures outs { OnOk result (self.new.outs ≡ each_grew self.old.outs (λ port. pushed_to port pushes)) }
        ensures adds { OnOk result (self.new.adds ≡ self.old.adds) }
    {
        let given = add_pushes(&mut self.outs, &pushes);
        spare.pushes = pushes;
        given
    }

    /// What was given at a port, in a line; nothing is left there.
    pub(crate) fn take_port(&mut self, alloc: Global, port: usize) -> ItemLine
        requires { port < length self.old.outs }
        ensures taken { result ≡ list_at self.old.outs port }
        ensures outs { self.new.outs ≡ slice_set self.old.outs port [] }
        ensures adds { self.new.adds ≡ self.old.adds }
    {
        take_line(alloc, &mut self.outs, port)
    }

    /// The items of the ports of a first kernel, with those of a second one in place of port `at`, and the rows of both. They are
    /// moved, and nothing is said of what is left of the two.
    pub(crate) fn splice(
        &mut self,
        alloc: Global,
        first: &mut Emit,
        second: &mut Emit,
        at: usize,
    ) -> Result<(), NoMemory>
        requires place { at < length first.old.outs }
        requires ports { length self.old.outs + 1 ≡ length first.old.outs + length second.old.outs }
        requires tables { length self.old.adds ≡ length first.old.adds + length second.old.adds }
        ensures outs { OnOk result (self.new.outs
            ≡ each_grew self.old.outs (splice_lem at (length second.old.outs) (list_at first.old.outs) (list_at second.old.outs))) }
        ensures adds { OnOk result (self.new.adds
            ≡ each_grew self.old.adds (beside (length first.old.adds) (list_at first.old.adds) (list_at second.old.adds))) }
    {
        splice_items(alloc, &mut self.outs, &mut first.outs, &mut second.outs, at)?;
        join_rows(alloc, &mut self.adds, &mut first.adds, &mut second.adds)
    }
}

// The list that was there, without its elements; a new one is there in its place.
fn emptied<T: Drop>(alloc: Global, list: &mut Listed<T>) -> Listed<T>
    ensures { result ≡ [] }
{
    let mut used = replace(list, Listed::new(alloc));
    used.truncate(0);
    used
}

// So many empty lines.
fn blank_lines(alloc: Global, count: usize) -> Result<Lines, NoMemory>
    ensures { IfOk result (λ lines. lines ≡ replicate count []) }
{
    let mut lines = Lines::new(alloc);
    add_empty(alloc, &mut lines, count)?;
    Ok(lines)
}

// These lines, so many and all empty.
fn renewed(alloc: Global, mut lines: Lines, count: usize) -> Result<Lines, NoMemory>
    ensures { IfOk result (λ lines. lines ≡ replicate count []) }
{
    lines.truncate(count);
    clear_lines(&mut lines);
    let missing = count - lines.len();
    add_empty(alloc, &mut lines, missing)?;
    Ok(lines)
}

// No item is left in any of the lines, which keep their memory.
fn clear_lines(lines: &mut Lines)
    ensures { lines.new ≡ replicate (length lines.old) [] }
{
    for place in 0..lines.len() {
        clear_line(lines, place);
    }
}

// Nothing is left in the line at a place.
fn clear_line(lines: &mut Lines, place: usize)
    requires { place < length lines.old }
    ensures { lines.new ≡ slice_set lines.old place [] }
{
    lines.at_mut(place).clear();
}

// An item comes to the end of the line at a place.
fn push_item(outs: &mut Lines, place: usize, item: Item) -> Result<(), NoMemory>
    requires { place < length outs.old }
    ensures { OnOk result (outs.new ≡ append_at outs.old place (item ∷ [])) }
{
    outs.at_mut(place).push(item)
}

// A row of these values comes to the end of the line at a place.
fn push_row(outs: &mut Lines, place: usize, row: &[i64]) -> Result<(), NoMemory>
    requires place { place < length outs.old }
    requires some { 1 ≤ length row.now }
    requires at_most { length row.now ≤ 16 }
    ensures { OnOk result (outs.new ≡ append_at outs.old place (variant.Flat (flat.One row.now) ∷ [])) }
{
    outs.at_mut(place).push_values(row)
}

// Items come to the end of the line at a place, and leave their list, which keeps its memory.
fn add_items(outs: &mut Lines, place: usize, items: &mut Items) -> Result<(), NoMemory>
    requires { place < length outs.old }
    ensures { OnOk result (outs.new ≡ append_at outs.old place items.old) }
{
    move_items(items, outs.at_mut(place))
}

// Items move to the end of a line. The list keeps its memory.
fn move_items(items: &mut Items, line: &mut ItemLine) -> Result<(), NoMemory>
    ensures { OnOk result (line.new ≡ line.old ++ items.old) }
{
    turn_round(items);
    while let Some(item) = items.pop() {
        line.push(item)?;
    }
    Ok(())
}

// The last item comes first.
fn turn_round(items: &mut Items)
    ensures { items.new ≡ reverse items.old }
{
    items.as_mut_slice().reverse();
}

// The items of a line come to the end of the line at a place.
fn add_line(outs: &mut Lines, place: usize, mut items: ItemLine) -> Result<(), NoMemory>
    requires { place < length outs.old }
    ensures { OnOk result (outs.new ≡ append_at outs.old place items) }
{
    outs.at_mut(place).take_from(&mut items)
}

// The rows that a body pushed, each at its port.
fn add_pushes(outs: &mut Lines, pushes: &Emitted) -> Result<(), NoMemory>
    requires { All (λ push. push.0 < length outs.old) pushes.now }
    ensures { OnOk result (outs.new ≡ each_grew outs.old (λ port. pushed_to port pushes.now)) }
{
    for i in 0..pushes.len() {
        let (port, row) = pushes.at(i);
        push_row(outs, port as usize, row)?;
    }
    Ok(())
}

// A copy of the item for each port below this one.
fn copy_below(alloc: Global, outs: &mut Lines, ports: usize, item: &Item) -> Result<(), NoMemory>
    requires { ports ≤ length outs.old }
    ensures { OnOk result (outs.new ≡ each_grew outs.old (upto ports (λ port. item.now ∷ []))) }
{
    for port in 0..ports {
        push_item(outs, port, item.copy(alloc)?)?;
    }
    Ok(())
}

// The item at a port, if it is there.
fn give_last(outs: &mut Lines, port: usize, item: Item) -> Result<(), NoMemory>
    ensures { OnOk result (outs.new ≡ append_at outs.old port (item ∷ [])) }
{
    if port < outs.len() {
        push_item(outs, port, item)
    } else {
        Ok(())
    }
}

// The list at a place; nothing is left there.
fn take_list<T: Drop>(alloc: Global, lists: &mut Listed<Listed<T>>, place: usize) -> Listed<T>
    requires { place < length lists.old }
    ensures taken { result ≡ list_at lists.old place }
    ensures left { lists.new ≡ slice_set lists.old place [] }
{
    replace(lists.at_mut(place), Listed::new(alloc))
}

// The line at a place; nothing is left there.
fn take_line(alloc: Global, lines: &mut Lines, place: usize) -> ItemLine
    requires { place < length lines.old }
    ensures taken { result ≡ list_at lines.old place }
    ensures left { lines.new ≡ slice_set lines.old place [] }
{
    replace(lines.at_mut(place), ItemLine::new(alloc))
}

/// No element is left in any of the lists, which keep their memory.
pub fn clear_all<T: Drop>(lists: &mut Listed<Listed<T>>)
    ensures { lists.new ≡ replicate (length lists.old) [] }
{
    for place in 0..lists.len() {
        clear_at(lists, place);
    }
}

// Nothing is left in the list at a place.
fn clear_at<T: Drop>(lists: &mut Listed<Listed<T>>, place: usize)
    requires { place < length lists.old }
    ensures { lists.new ≡ slice_set lists.old place [] }
{
    lists.at_mut(place).truncate(0);
}

// The items of the ports of two kernels move to the ports of the two as one.
fn splice_items(
    alloc: Global,
    outs: &mut Lines,
    first: &mut Lines,
    second: &mut Lines,
    at: usize,
) -> Result<(), NoMemory>
    requires place { at < length first.old }
    requires ports { length outs.old + 1 ≡ length first.old + length second.old }
    ensures { OnOk result (outs.new ≡ each_grew outs.old (splice_lem at (length second.old) (list_at first.old) (list_at second.old))) }
{
    for port in 0..outs.len() {
        add_line(outs, port, spliced_port(alloc, first, second, at, port))?;
    }
    Ok(())
}

// The rows for the tables of two kernels move to the tables of the two as one.
fn join_rows(
    alloc: Global,
    adds: &mut RowLists,
    first: &mut RowLists,
    second: &mut RowLists,
) -> Result<(), NoMemory>
    requires { length adds.old ≡ length first.old + length second.old }
    ensures { OnOk result (adds.new ≡ each_grew adds.old (beside (length first.old) (list_at first.old) (list_at second.old))) }
{
    for table in 0..adds.len() {
        adds.extend_at(table, joined_table(alloc, first, second, table))?;
    }
    Ok(())
}

// The items of one port of two kernels; those of the others stay.
fn spliced_port(
    alloc: Global,
    first: &mut Lines,
    second: &mut Lines,
    at: usize,
    port: usize,
) -> ItemLine
    requires place { at < length first.old }
    requires port { port + 1 < length first.old + length second.old }
    requires fits { port + 1 < 2 ^ 64 }
    ensures taken { result ≡ splice_lem at (length second.old) (list_at first.old) (list_at second.old) port }
    ensures left { StayApart (splice_lem at (length second.old)) port first.old first.new second.old second.new }
{
    let ports = second.len();
    if port < at {
        take_line(alloc, first, port)
    } else if port - at < ports {
        take_line(alloc, second, port - at)
    } else {
        take_line(alloc, first, port - ports + 1)
    }
}

// The rows for one table of two kernels; those for the others stay.
fn joined_table(alloc: Global, first: &mut RowLists, second: &mut RowLists, table: usize) -> Rows
    requires { table < length first.old + length second.old }
    ensures taken { result ≡ beside (length first.old) (list_at first.old) (list_at second.old) table }
    ensures left { StayApart (beside (length first.old)) table first.old first.new second.old second.new }
{
    let tables = first.len();
    if table < tables {
        take_list(alloc, first, table)
    } else {
        take_list(alloc, second, table - tables)
    }
}
