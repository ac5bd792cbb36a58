/// What a call in an expression does. Bounds, patterns and dictionaries stand in the operator and not
/// among the arguments: a pattern or a dictionary by its number in the list of those of the program.
///
/// Meaning: `applied`, `specs/Values.antt`; docs/LANGUAGE.md, "Functions and predicates".
#[derive(Clone, Copy, Debug, PartialEq, Eq)]
pub enum Op {
    GetBegin,
    GetEnd,
    GetLength,
    GetText,
    CombineSpans,
    SpanBetween,
    LeftContext,
    RightContext,
    LeftContextTok,
    RightContextTok,
    Follows { min: i64, max: i64 },
    FollowsTok { min: i64, max: i64 },
    Overlaps,
    Contains,
    Equals,
    GreaterThan,
    NotNull,
    ContainsRegex(u32),
    MatchesRegex(u32),
    ContainsDict(u32),
    MatchesDict(u32),
    Not,
    And,
    Or,
}
