//! The functions, predicates and aggregates of the language, by their names.

ghost use Rattle.std.specs.Prelude.{◌≡◌};
ghost use Rattle.clause_types.specs.Functions as spec;

use scalar_ops::Kind;

/// A function or a predicate.
///
/// Meaning: `function_named`, `wanted_by` and `kind_given`, `specs/Functions.antt`.
#[derive(Clone, Copy, Debug, PartialEq, Eq)]
pub(crate) enum Function {
    GetBegin,
    GetEnd,
    GetLength,
    GetText,
    CombineSpans,
    SpanBetween,
    LeftContext,
    RightContext,
    LeftContextTok,
    RightContextTok,
    Follows,
    FollowsTok,
    Overlaps,
    Contains,
    Equals,
    GreaterThan,
    NotNull,
    ContainsRegex,
    MatchesRegex,
    ContainsDict,
    MatchesDict,
    Not,
    And,
    Or,
}

/// What is told of each group of rows.
#[derive(Clone, Copy, Debug, PartialEq, Eq)]
pub(crate) enum Aggregate {
    Count,
    Sum,
    Min,
    Max,
}

/// The function with this name, if there is one.
pub(crate) fn function_named(name: &str) -> Option<Function>
    ensures { result ≡ spec.function_named name.now }
{
    match name {
        "GetBegin" => Some(Function::GetBegin),
        "GetEnd" => Some(Function::GetEnd),
        "GetLength" => Some(Function::GetLength),
        "GetText" => Some(Function::GetText),
        "CombineSpans" => Some(Function::CombineSpans),
        "SpanBetween" => Some(Function::SpanBetween),
        "LeftContext" => Some(Function::LeftContext),
        "RightContext" => Some(Function::RightContext),
        "LeftContextTok" => Some(Function::LeftContextTok),
        "RightContextTok" => Some(Function::RightContextTok),
        "Follows" => Some(Function::Follows),
        "FollowsTok" => Some(Function::FollowsTok),
        "Overlaps" => Some(Function::Overlaps),
        "Contains" => Some(Function::Contains),
        "Equals" => Some(Function::Equals),
        "GreaterThan" => Some(Function::GreaterThan),
        "NotNull" => Some(Function::NotNull),
        "ContainsRegex" => Some(Function::ContainsRegex),
        "MatchesRegex" => Some(Function::MatchesRegex),
        "ContainsDict" => Some(Function::ContainsDict),
        "MatchesDict" => Some(Function::MatchesDict),
        "Not" => Some(Function::Not),
        "And" => Some(Function::And),
        "Or" => Some(Function::Or),
        _ => None,
    }
}

/// The aggregate with this name, if there is one.
pub(crate) fn aggregate_named(name: &str) -> Option<Aggregate>
    ensures { result ≡ spec.aggregate_named name.now }
{
    match name {
        "Count" => Some(Aggregate::Count),
        "Sum" => Some(Aggregate::Sum),
        "Min" => Some(Aggregate::Min),
        "Max" => Some(Aggregate::Max),
        _ => None,
    }
}

impl Aggregate {
    /// The name.
    pub(crate) fn name(self) -> &'static str
        ensures { result.now ≡ spec.name_of_aggregate self }
    {
        match self {
            Aggregate::Count => "Count",
            Aggregate::Sum => "Sum",
            Aggregate::Min => "Min",
            Aggregate::Max => "Max",
        }
    }

    /// The kind that it gives of an argument of this kind.
    pub(crate) fn kind_told(self, found: Kind) -> Kind
        ensures { result ≡ spec.kind_told self found }
    {
        match self {
            Aggregate::Count | Aggregate::Sum => Kind::Integer,
            Aggregate::Min | Aggregate::Max => found,
        }
    }
}

impl Function {
    /// The kind that it gives.
    pub(crate) fn kind_given(self) -> Kind
        ensures { result ≡ spec.kind_given self }
    {
        match self {
            Function::GetBegin | Function::GetEnd | Function::GetLength => Kind::Integer,
            Function::GetText => Kind::Text,
            Function::CombineSpans
            | Function::SpanBetween
            | Function::LeftContext
            | Function::RightContext
            | Function::LeftContextTok
            | Function::RightContextTok => Kind::Span,
            _ => Kind::Boolean,
        }
    }
}
