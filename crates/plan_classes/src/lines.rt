// The lines of lock classes.
ghost use Rattle.std.specs.Prelude.{◌≡◌, ◌<◌, ◌^◌, ◌++◌, [], pos, length, codes, OnOk, OnErr, if◌then◌else◌};
ghost use Rattle.std.specs.Ordering.{int_eq};
ghost use Rattle.river_plan.specs.Forms.{table_names};
ghost use Rattle.plan_classes.specs.Lines.{class_tables, class_line, class_lines, classes_text};

use crate::class_numbers::classes;
use crate::users::table_users;
use river_base::{Bytes, NoMemory};
use river_plan::{Plan, TableDecl};
use std::alloc::Global;

/// Appends a line for each lock class of the plan's tables; changes nothing where there is no memory.
pub fn print_classes(alloc: Global, plan: &Plan, to: &mut Bytes) -> Result<(), NoMemory>
    ensures ok { OnOk result (to.new ≡ to.old ++ classes_text plan.now) }
    ensures err { OnErr result (to.new ≡ to.old) }
{
    let mut text = Bytes::new(alloc);
    write_classes(alloc, plan, &mut text)?;
    to.extend(text.as_slice())
}

// Appends these lines; where there is no memory, maybe a part of them.
fn write_classes(alloc: Global, plan: &Plan, to: &mut Bytes) -> Result<(), NoMemory>
    ensures { OnOk result (to.new ≡ to.old ++ classes_text plan.now) }
{
    let users = table_users(alloc, plan)?;
    let classes = classes(alloc, &users)?;
    print_lines(plan.raw().tables.as_slice(), classes.as_slice(), to)
}

// A line for each class, at the first table that has it.
#[tactic(auto, using(crate::proofs::Joined::joins))]
fn print_lines(tables: &[TableDecl], classes: &[i64], to: &mut Bytes) -> Result<(), NoMemory>
    requires few { length classes.now < 2 ^ 32 }
    requires paired { length classes.now ≡ length tables.now }
    ensures { OnOk result (to.new ≡ to.old ++ class_lines 0 classes.now (table_names tables.now) classes.now) }
{
    let mut next: u32 = 0;
    for class in classes {
        if *class == i64::from(next) {
            print_line(next, tables, classes, to)?;
            next += 1;
        }
    }
    Ok(())
}

#[tactic(auto, using(crate::proofs::Joined::joins))]
fn print_line(
    class: u32,
    tables: &[TableDecl],
    classes: &[i64],
    to: &mut Bytes,
) -> Result<(), NoMemory>
    requires { length classes.now ≡ length tables.now }
    ensures { OnOk result (to.new ≡ to.old ++ class_line class (table_names tables.now) classes.now) }
{
    to.extend(b"# class ")?;
    to.put_number(class)?;
    to.extend(b":")?;
    print_tables(class, tables, classes, to)?;
    to.extend(b"\n")
}

// The tables of the class.
#[tactic(auto, using(crate::proofs::Joined::joins))]
fn print_tables(
    class: u32,
    tables: &[TableDecl],
    classes: &[i64],
    to: &mut Bytes,
) -> Result<(), NoMemory>
    requires { length classes.now ≡ length tables.now }
    ensures { OnOk result (to.new ≡ to.old ++ class_tables class (table_names tables.now) classes.now) }
{
    for place in 0..tables.len() {
        print_table(class, classes[place], &tables[place], to)?;
    }
    Ok(())
}

// The table, if it is of the class.
#[tactic(auto, using(crate::proofs::Joined::joins))]
fn print_table(class: u32, of: i64, table: &TableDecl, to: &mut Bytes) -> Result<(), NoMemory>
    ensures { OnOk result (to.new ≡ to.old ++ (if int_eq of (pos class) then codes " $" ++ table.now.name else [])) }
{
    if of == i64::from(class) {
        to.extend(b" $")?;
        to.extend(table.name.as_slice())?;
    }
    Ok(())
}
