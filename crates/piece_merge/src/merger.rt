// Tables to which what runs printed is added.
ghost use Rattle.std.specs.Prelude.{◌≡◌, ◌≤◌, ◌<◌, ◌++◌, [], ◌∷◌, ℕ, List, All, map, length, slice_index_or, IfOk, IfErr, OnOk};
ghost use Rattle.csv_streams.specs.Outcome.{tables_text};
ghost use Rattle.kern_tables.specs.Tables.{table_width};
ghost use Rattle.kern_tables.specs.Kept.{kept_of, kind_of_table, rows_of};
ghost use Rattle.kern_tables.specs.declared.kept.Aggregate.{Aggregate};
ghost use Rattle.river_plan.specs.Forms.{table_names};
ghost use Rattle.piece_merge.specs.Added.{IsMergeOf, table_kinds};
ghost use Rattle.piece_merge.specs.Faults.{SaysNoMerge, SaysNoRows, SaysNoSections};
ghost use Rattle.piece_merge.specs.Merging.{HasAdded, IsOneMore, empty_merging};
ghost use Rattle.piece_merge.specs.Steps.{AddedSections, AddedAt};

use crate::NoMerge;
use crate::printing::print_tables;
use crate::section::add_section;
use kern_tables::{Table, TableKind};
use river_base::{Bytes, NoMemory};
use river_plan::{TableDecl, TableDecls};
use std::alloc::Global;
use std::marker::Model;
use table_texts::split_tables;

/// The tables of a program, to which what its runs printed is added, one text after another. Contracts see the declarations and
/// what each table keeps. Where a text is not added, the tables are no longer those of all texts before it.
#[derive(Drop)]
pub struct Merger {
    tables: TableDecls,
    kept: Vec<Table>,
}

impl Model for Merger {
    ghost use Rattle.std.specs.Prelude.{◌≡◌, ◌≤◌, All, map};
    ghost use Rattle.kern_tables.specs.Kept.{kind_of_table};
    ghost use Rattle.kern_tables.specs.Tables.{table_width};
    ghost use Rattle.piece_merge.specs.Added.{table_kinds};
    ghost use Rattle.piece_merge.specs.Merging.{Merging};

    ghost Value = { Merging };

    ghost view = { λ m. record { tables = m.tables; kept = m.kept.items } };

    ghost invariant = { λ m. (map kind_of_table m.kept.items ≡ table_kinds m.tables) × All (λ t. table_width t.kind ≤ 16) m.tables };
}

impl Merger {
    /// These tables, to which nothing was added. A row of each has at most 16 values.
    pub fn new(alloc: Global, tables: &[TableDecl]) -> Result<Merger, NoMemory>
        requires { All (λ t. table_width t.kind ≤ 16) tables.now }
        ensures empty { IfOk result (λ m. m ≡ empty_merging tables.now) }
        ensures none { IfOk result (λ m. HasAdded m []) }
    {
        Ok(Merger {
            tables: copied(alloc, tables)?,
            kept: empty_tables(alloc, tables)?,
        })
    }

    /// Adds what a run printed: of each section its rows to its table. `Other` exactly where it has no such rows.
    pub fn add(&mut self, alloc: Global, out: &Bytes) -> Result<(), NoMerge>
        ensures tables { self.new.tables ≡ self.old.tables }
        ensures ok { OnOk result (IsOneMore self.old out.now self.new) }
        ensures more { OnOk result ((outs : List (List ℕ)) → HasAdded self.old outs → HasAdded self.new (outs ++ out.now ∷ [])) }
        ensures none { IfErr result (SaysNoMerge self.old.tables out.now) }
    {
        let sections = split_tables(alloc, self.tables.as_slice(), out.as_slice())?;
        add_sections(
            alloc,
            self.tables.as_slice(),
            sections.as_slice(),
            &mut self.kept,
        )
    }

    /// What a run would print of the tables.
    pub fn text(&self, alloc: Global) -> Result<Bytes, NoMemory>
        ensures printed { IfOk result (λ text. text ≡ tables_text (table_names self.now.tables) (map rows_of self.now.kept)) }
        ensures merged { IfOk result (λ text. (outs : List (List ℕ)) → HasAdded self.now outs → IsMergeOf self.now.tables outs text) }
    {
        let mut text = Bytes::new(alloc);
        print_tables(
            alloc,
            self.tables.as_slice(),
            self.kept.as_slice(),
            &mut text,
        )?;
        Ok(text)
    }
}

fn copied(alloc: Global, tables: &[TableDecl]) -> Result<TableDecls, NoMemory>
    ensures { IfOk result (λ copy. copy ≡ tables.now) }
{
    let mut copy = TableDecls::new(alloc);
    for table in tables {
        copy.push(*table)?;
    }
    Ok(copy)
}

// An empty table for each declaration.
fn empty_tables(alloc: Global, tables: &[TableDecl]) -> Result<Vec<Table>, NoMemory>
    ensures { IfOk result (λ kept. kept.items ≡ map (λ t. kept_of t.kind []) tables.now) }
{
    let mut kept = Vec::new(alloc);
    for table in tables {
        kept.push(Table::new(alloc, table.kind))?;
    }
    Ok(kept)
}

// Adds the rows of each section to its table.
fn add_sections(
    alloc: Global,
    tables: &[TableDecl],
    sections: &[Bytes],
    kept: &mut Vec<Table>,
) -> Result<(), NoMerge>
    requires kinds { map kind_of_table kept.old.items ≡ table_kinds tables.now }
    requires narrow { All (λ t. table_width t.kind ≤ 16) tables.now }
    requires as_many { length sections.now ≡ length tables.now }
    ensures kinds { map kind_of_table kept.new.items ≡ table_kinds tables.now }
    ensures ok { OnOk result (AddedSections tables.now sections.now kept.old.items kept.new.items) }
    ensures none { IfErr result (SaysNoSections tables.now sections.now) }
{
    for i in 0..tables.len() {
        add_at(alloc, &sections[i], tables[i].kind, kept, i)?;
    }
    Ok(())
}

// Adds the rows of a section to the table at a place, which is of this kind.
fn add_at(
    alloc: Global,
    section: &Bytes,
    kind: TableKind,
    kept: &mut Vec<Table>,
    place: usize,
) -> Result<(), NoMerge>
    requires there { place < length kept.old.items }
    requires kind { (d : Aggregate) → kind_of_table (slice_index_or kept.old.items place d) ≡ kind }
    requires narrow { table_width kind ≤ 16 }
    ensures kinds { map kind_of_table kept.new.items ≡ map kind_of_table kept.old.items }
    ensures ok { OnOk result ((d : Aggregate) → AddedAt section.now place (slice_index_or kept.old.items place d) kept.old.items kept.new.items) }
    ensures none { IfErr result (SaysNoRows kind section.now) }
{
    let table = &mut kept[place];
    add_section(alloc, section, width_of(kind), table)
}

// How many values a row of a table has.
fn width_of(kind: TableKind) -> usize
    requires { table_width kind ≤ 16 }
    ensures width { result ≡ table_width kind }
    ensures some { 1 ≤ result }
{
    match kind {
        TableKind::Sum { keys } | TableKind::Collection { keys } => keys as usize + 1,
        TableKind::Maximum { keys, .. } => keys as usize + 2,
    }
}
