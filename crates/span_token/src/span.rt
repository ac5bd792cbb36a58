ghost use Rattle.std.specs.Prelude.{◌≤◌};

/// A half-open range of a document's characters, counted in Unicode scalar values from 0.
///
/// `begin` is never past `end`; an empty span, such as 3-3, is a place between two characters.
/// Spans are ordered by `begin` and then by `end`.
#[derive(Clone, Copy, Debug, PartialEq, Eq, PartialOrd, Ord, Hash)]
pub struct Span {
    pub begin: u32,
    pub end: u32,
    ghost ordered: { begin ≤ end },
}
