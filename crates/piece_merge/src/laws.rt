//! Laws over the definitions alone.
ghost use Rattle.piece_merge.specs.Laws.{NothingIsAdded, OneMoreIsAdded, MergingIsTables, OneMerge};

/// Where there is no text, each table has no row.
#[tactic(auto, using(crate::proofs::Added::nothing_is_added))]
pub fn nothing_is_added()
    ensures { NothingIsAdded }
{}

/// The rows of one text more stand behind those of the texts before it, table by table.
#[tactic(auto, using(crate::proofs::Added::one_more_is_added))]
pub fn one_more_is_added()
    ensures { OneMoreIsAdded }
{}

/// What is kept of added rows has the rows of their tables.
#[tactic(auto, using(crate::proofs::Added::merging_is_tables))]
pub fn merging_is_tables()
    ensures { MergingIsTables }
{}

/// Texts have one merge at most.
pub fn one_merge()
    ensures { OneMerge }
{}
