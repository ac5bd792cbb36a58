/// What a value, a column or an argument is. The columns of a view are of the first four kinds, and so is
/// what an expression gives; the others are what an argument is wanted or found to be.
///
/// Null is of every kind but Boolean: a predicate gives true or false.
///
/// Meaning: `IsOfKind` and `kind_in`, `specs/Kinds.antt`; docs/LANGUAGE.md, "Functions and predicates".
#[derive(Clone, Copy, Debug, PartialEq, Eq)]
pub enum Kind {
    Integer,
    Boolean,
    Text,
    Span,
    /// A span or a text.
    SpanOrText,
    /// An integer that stands in the program as such.
    Number,
    /// A regular expression that stands in the program as such.
    Pattern,
    /// The name of a dictionary.
    Dictionary,
    /// An integer, a truth value, a text or a span.
    Any,
    /// No argument.
    Nothing,
}
