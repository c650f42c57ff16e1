// Where an operator's rows go: its tables by number, and their lock classes.
ghost use Rattle.std.specs.Prelude.{◌≡◌, ◌<◌, ◌++◌, ◌∷◌, [], if◌then◌else◌, ℕ, pos, All, IfOk, OnOk, IsTrue, IsFalse, Some, length, map, slice_get, slice_index_or};
ghost use Rattle.river_plan.specs.Valid.{IsPlan};
ghost use Rattle.fire_tasks.specs.Adds.{AreHomes, table_numbers};
ghost use Rattle.fire_open.specs.Homes.{AreTableClasses, AreClassesOf, HasClass};

use fire_tasks::TablePort;
use plan_classes::{classes, table_users};
use river_base::{Listed, NoMemory, Numbers};
use river_plan::Plan;
use std::alloc::Global;

/// The numbers of tables, or of their classes.
pub type TableNumbers = Listed<u32>;

/// The lock class of each table of a plan.
pub fn table_classes(alloc: Global, plan: &Plan) -> Result<TableNumbers, NoMemory>
    ensures { IfOk result (AreTableClasses plan.now) }
{
    let users = table_users(alloc, plan)?;
    let numbers = classes(alloc, &users)?;
    as_places(alloc, &numbers)
}

// A number of a class. No memory holds so many tables that it needs more bits.
fn as_place(number: i64) -> Result<u32, NoMemory>
    ensures { IfOk result (λ place. number ≡ pos place) }
{
    match u32::try_from(number) {
        Ok(place) => Ok(place),
        Err(_) => Err(NoMemory),
    }
}

// These numbers of classes.
#[tactic(auto, using(work_code::proofs::Lists::copies))]
fn as_places(alloc: Global, numbers: &Numbers) -> Result<TableNumbers, NoMemory>
    ensures { IfOk result (λ places. map pos places ≡ numbers.now) }
{
    let mut places = TableNumbers::new(alloc);
    for number in numbers.as_slice() {
        places.push(as_place(*number)?)?;
    }
    Ok(places)
}

// The numbers of an operator's tables, in the order of its kernel.
fn numbers_of(alloc: Global, plan: &Plan, op: usize) -> Result<TableNumbers, NoMemory>
    requires { op < length plan.now.ops }
    ensures { IfOk result (λ tables. tables ≡ table_numbers plan.now (slice_get plan.now.ops op)) }
{
    let count = plan.raw().tables.len();
    let mut tables = TableNumbers::new(alloc);
    for var in plan.vars_of(op) {
        if *var < count {
            tables.push(*var as u32)?;
        }
    }
    Ok(tables)
}

// Whether one of these tables is of the class.
fn has_class(classes: &TableNumbers, tables: &TableNumbers, class: u32) -> bool
    requires { All (λ m. m < length classes.now) tables.now }
    ensures yes { IsTrue result → HasClass classes.now tables.now class }
    ensures no { IsFalse result → HasClass classes.now tables.now class → ⊥ }
{
    for table in tables.as_slice() {
        if *classes.at(*table as usize) == class {
            return true;
        }
    }
    false
}

// The classes below `count` that one of these tables has.
fn classes_below(
    alloc: Global,
    classes: &TableNumbers,
    tables: &TableNumbers,
    count: u32,
) -> Result<TableNumbers, NoMemory>
    requires { All (λ m. m < length classes.now) tables.now }
    ensures { IfOk result (AreClassesOf classes.now tables.now count) }
{
    let mut own = TableNumbers::new(alloc);
    for class in 0..count {
        let found = has_class(classes, tables, class);
        add_if(found, class, &mut own)?;
    }
    Ok(own)
}

// The number comes to the others, if it was found.
fn add_if(found: bool, class: u32, own: &mut TableNumbers) -> Result<(), NoMemory>
    ensures { OnOk result (own.new ≡ (if found then own.old ++ class ∷ [] else own.old)) }
{
    if found {
        own.push(class)?;
    }
    Ok(())
}

// The place of a class, which is there.
fn place_of(own: &TableNumbers, class: u32) -> usize
    requires { (i : ℕ) × (slice_get own.now i ≡ Some class) }
    ensures { slice_get own.now result ≡ Some class }
{
    for place in 0..own.len() {
        if *own.at(place) == class {
            return place;
        }
    }
    unreachable!()
}

// Where an operator's rows go: the place of each table's class among its classes.
fn ports_of(
    alloc: Global,
    classes: &TableNumbers,
    tables: &TableNumbers,
    own: &TableNumbers,
) -> Result<Listed<TablePort>, NoMemory>
    requires there { All (λ m. m < length classes.now) tables.now }
    requires own { All (λ m. (i : ℕ) × (slice_get own.now i ≡ Some (slice_index_or classes.now m 0))) tables.now }
    ensures tables { IfOk result (λ ports. map (λ h. h.table) ports ≡ tables.now) }
    ensures places { IfOk result (λ ports. (j : ℕ) (h : _) → slice_get ports j ≡ Some h
        → slice_get own.now h.place ≡ Some (slice_index_or classes.now h.table 0)) }
{
    let mut ports = Listed::new(alloc);
    for table in tables.as_slice() {
        let place = place_of(own, *classes.at(*table as usize));
        ports.push(TablePort::new(*table, place))?;
    }
    Ok(ports)
}

/// Where an operator's rows go, and the classes of its tables.
pub(crate) fn homes_of(
    alloc: Global,
    plan: &Plan,
    op: usize,
    classes: &TableNumbers,
) -> Result<(Listed<TablePort>, TableNumbers), NoMemory>
    requires valid { IsPlan plan.now }
    requires there { op < length plan.now.ops }
    requires classes { AreTableClasses plan.now classes.now }
    ensures { IfOk result (λ homes. AreHomes plan.now op homes.0 homes.1) }
{
    let tables = numbers_of(alloc, plan, op)?;
    let count = classes.len() as u32;
    let own = classes_below(alloc, classes, &tables, count)?;
    let ports = ports_of(alloc, classes, &tables, &own)?;
    Ok((ports, own))
}
