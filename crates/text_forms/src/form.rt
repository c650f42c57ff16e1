// Forms of levels.

/// How the expressions of a level are made of those of the level below, which binds tighter.
#[derive(Clone, Copy)]
pub enum Form {
    /// With operators between them, as many as come; the tree groups to the left.
    Chain,
    /// With one operator between two of them, or none.
    Once,
    /// With signs before them, as many as come.
    Prefix,
}
