//! Laws of bags, each the contract of a function that does nothing.
ghost use Rattle.kern_bags.specs.Joined.{JoinsAre};
ghost use Rattle.kern_bags.specs.Laws.{DifferencesAre, StreamedRowsAre, SelectionsAre, ProjectionsAre, ProductsAre, ContentsAre, GreatestIsNow, LatestAre, Ascend, ProductsStartEmpty};

/// A row is in a difference as often as in the first bag, less the times it is in the second, and not below 0.
pub fn differences_are()
    ensures { DifferencesAre }
{}

/// Istream has of each row as many as came, Dstream as many as went, Rstream all.
pub fn streamers_are()
    ensures { StreamedRowsAre }
{}

/// A selection has the rows for which the expression is not 0, each as often as before.
pub fn selections_are()
    ensures { SelectionsAre }
{}

/// A projection has a row as often as there are rows whose values of the expressions it has.
pub fn projections_are()
    ensures { ProjectionsAre }
{}

/// A product has a row as often as there are pairs whose join it is.
pub fn products_are()
    ensures { ProductsAre }
{}

/// A content has a row as often as those batches have it whose instants the window lets pass.
pub fn contents_are()
    ensures { ContentsAre }
{}

/// Now is the greatest instant of a batch that came.
pub fn greatest_is_now()
    ensures { GreatestIsNow }
{}

/// The latest n are the lesser of n and all rows, and each that is kept came later than each that is left out.
pub fn latest_are()
    ensures { LatestAre }
{}

/// What stands in a relation stands in ascending order.
pub fn relations_ascend()
    ensures { Ascend }
{}

/// What a product keeps at the start stands for empty contents, of which none waits.
pub fn products_start_empty()
    ensures { ProductsStartEmpty }
{}

/// What a selection keeps of a product is that of its pairs; a selection commutes with leaving out
/// what comes and goes, and makes of changes the changes of what it keeps; and where its condition
/// holds a column of the left equal to one of the right, it keeps only pairs that agree there.
pub fn joins_are()
    ensures { JoinsAre }
{}
