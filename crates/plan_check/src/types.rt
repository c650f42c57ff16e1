// Queues and tables whose types no plan may have.
ghost use Rattle.std.specs.Prelude.{IsTrue, ◌↔◌, ◌≡◌};
ghost use Rattle.river_kernels.specs.Fits as fits;
ghost use Rattle.river_plan.specs.Forms.{plan_form};
ghost use Rattle.river_plan.specs.Faults.{Mistyped, MistypedQueue, MistypedTable, IsOuter, HasWidth, IsTableKind, IsRowsOrStream, type_width};

use kern_tables::TableKind;
use river_base::{FlatType, QueueType};
use river_plan::{Decl, Decls, Named, RawPlan, TableDecls};

/// The first queue or table with a type that it may not have.
pub(crate) fn mistyped(raw: &RawPlan) -> Option<Named>
    ensures { Mistyped (plan_form raw.now) result }
{
    let found = mistyped_outer(&raw.outputs);
    if found.is_some() {
        return found;
    }
    let found = mistyped_outer(&raw.inputs);
    if found.is_some() {
        return found;
    }
    let found = mistyped_inner(&raw.queues);
    if found.is_some() {
        return found;
    }
    mistyped_table(&raw.tables)
}

// The first of these inputs or outputs with a type that it may not have.
fn mistyped_outer(decls: &Decls) -> Option<Named>
    ensures { MistypedQueue IsOuter decls.now result }
{
    for decl in decls.as_slice() {
        if !is_outer(decl) {
            return Some(Named::Queue(decl.name));
        }
    }
    None
}

// The first of these queues with a width that it may not have.
fn mistyped_inner(decls: &Decls) -> Option<Named>
    ensures { MistypedQueue HasWidth decls.now result }
{
    for decl in decls.as_slice() {
        if !has_width(decl) {
            return Some(Named::Queue(decl.name));
        }
    }
    None
}

// The first of these tables of a kind that it may not have.
fn mistyped_table(tables: &TableDecls) -> Option<Named>
    ensures { MistypedTable tables.now result }
{
    for table in tables.as_slice() {
        if !is_table(table.kind) {
            return Some(Named::Variable(table.name));
        }
    }
    None
}

// Whether an input or output may have this type.
fn is_outer(decl: &Decl) -> bool
    ensures { IsTrue result ↔ IsOuter decl.now }
{
    has_width(decl) && is_rows_or_stream(decl.kind)
}

// Whether rows of the queue have 1 to 16 values.
fn has_width(decl: &Decl) -> bool
    ensures { IsTrue result ↔ HasWidth decl.now }
{
    let width = type_width(decl.kind);
    1 <= width && width <= 16
}

// How many values the rows of a queue have.
fn type_width(kind: QueueType) -> u32
    ensures { result ≡ type_width kind }
{
    match kind {
        QueueType::Flat(flat) => flat_width(flat),
        QueueType::Pack(flat) => flat_width(flat),
    }
}

// How many values the rows of this type have.
fn flat_width(flat: FlatType) -> u32
    ensures { result ≡ fits.width_of flat }
{
    match flat {
        FlatType::Rows(width) => width,
        FlatType::Stream(width) => width,
        FlatType::Relation(width) => width,
    }
}

// Whether the type is one of rows or of a stream.
fn is_rows_or_stream(kind: QueueType) -> bool
    ensures { IsTrue result ↔ IsRowsOrStream kind }
{
    matches!(
        kind,
        QueueType::Flat(FlatType::Rows(_)) | QueueType::Flat(FlatType::Stream(_))
    )
}

// Whether a table has at most 8 keys and keeps a row.
fn is_table(kind: TableKind) -> bool
    ensures { IsTrue result ↔ IsTableKind kind }
{
    match kind {
        TableKind::Sum { keys } => keys <= 8,
        TableKind::Collection { keys } => keys <= 8,
        TableKind::Maximum { best, keys } => keys <= 8 && 1 <= best,
    }
}
