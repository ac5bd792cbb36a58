/// Which rows a consolidation keeps, told by their targets, the spans of one column.
///
/// Each span contains itself, spans that touch don't overlap, and rows stand in row order. A row whose
/// target is Null stays, and counts for no other row. Of rows with equal targets at most the first stays,
/// but `ContainsButNotEqual` keeps all of them or none.
#[derive(Clone, Copy, Debug, PartialEq, Eq)]
pub enum Policy {
    /// A row stays where no different target contains its target and no row before it has an equal one.
    ContainedWithin,
    /// A row stays where its target contains no different target and no row before it has an equal one.
    NotContainedWithin,
    /// A row stays where no different target contains its target; so rows with equal targets stay together
    /// or go together.
    ContainsButNotEqual,
    /// A row stays where no row before it has an equal target.
    ExactMatch,
    /// From the left, the longest first: a row stays where its target overlaps no target of a row that stays
    /// and comes before it, by lesser begin, then greater end, then row order.
    LeftToRight,
}
