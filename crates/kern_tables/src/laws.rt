//! Laws of tables, each the contract of a function that does nothing.
ghost use Rattle.kern_tables.specs.Laws.{TablesAreOfBags, SumsAre, CollectionsAre, MaximaAre, TablesKeepAdds};
ghost use Rattle.kern_tables.specs.Pieces.{TablesAreRows, TwoTablesMerge, TablesMerge, TablesStandInOrder, MergesAreTables};

/// A table is a function of the bag of the rows that were added.
#[tactic(auto, using(crate::proofs::Tabs::tables_are_of_bags))]
pub fn tables_are_of_bags()
    ensures { TablesAreOfBags }
{}

/// A key has a row in a sum exactly where a row was added with it, with the sum of what was added modulo 2^64.
#[tactic(auto, using(crate::proofs::Meant::sums_are))]
pub fn sums_are()
    ensures { SumsAre }
{}

/// A collection has every row as often as it was added.
#[tactic(auto, using(crate::proofs::Tabs::collections_are))]
pub fn collections_are()
    ensures { CollectionsAre }
{}

/// Of a maximum none that is left out ranks before one that is kept.
#[tactic(auto, using(crate::proofs::Meant::maxima_are))]
pub fn maxima_are()
    ensures { MaximaAre }
{}

/// What a table keeps gives the rows that are printed for what was added, row after row, and is a function of its bag.
#[tactic(auto, using(crate::proofs::Tabs::tables_keep_adds))]
pub fn tables_keep_adds()
    ensures { TablesKeepAdds }
{}

/// What is printed of a table are rows for such a table.
#[tactic(auto, using(crate::proofs::Pieces::tables_are_rows))]
pub fn tables_are_rows()
    ensures { TablesAreRows }
{}

/// The table of what is printed of two tables is the table of what was added to both.
#[tactic(auto, using(crate::proofs::Pieces::two_tables_merge))]
pub fn two_tables_merge()
    ensures { TwoTablesMerge }
{}

/// So is that of any number of tables.
#[tactic(auto, using(crate::proofs::Pieces::tables_merge))]
pub fn tables_merge()
    ensures { TablesMerge }
{}

/// Where all of the second rows stand behind all of the first, the table of both is the one table behind the other.
#[tactic(auto, using(crate::proofs::Apart::tables_stand_in_order))]
pub fn tables_stand_in_order()
    ensures { TablesStandInOrder }
{}

/// However rows are cut, and what is printed of their tables is cut again, the last table is that of the rows.
#[tactic(auto, using(crate::proofs::Pieces::merges_are_tables))]
pub fn merges_are_tables()
    ensures { MergesAreTables }
{}
