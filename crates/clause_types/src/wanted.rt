//! What the arguments of functions and aggregates are wanted to be.

ghost use Rattle.std.specs.Prelude.{◌≡◌, map, slice_get};
ghost use Rattle.clause_types.specs.Functions as spec;
ghost use Rattle.clause_types.specs.Callees.{wanted_of};
ghost use Rattle.clause_types.specs.Typings.{kinds_of};
ghost use Rattle.clause_types.specs.Views.{seen};

use crate::function::{Aggregate, Function};
use crate::given::Given;
use scalar_ops::Kind;

/// What an argument is wanted to be.
#[derive(Clone, Copy, Debug, PartialEq, Eq)]
pub(crate) enum Wanted {
    /// Of a kind.
    OfKind(Kind),
    /// The text `Exact` or the text `IgnoreCase`.
    Flag,
}

impl Wanted {
    /// How a fault names it.
    pub(crate) fn kind(self) -> Kind
        ensures { result ≡ spec.kind_wanted self }
    {
        match self {
            Wanted::OfKind(kind) => kind,
            Wanted::Flag => Kind::Dictionary,
        }
    }
}

/// What is called with arguments.
#[derive(Clone, Copy, Debug)]
pub(crate) enum Callee {
    Function(Function),
    Aggregate(Aggregate),
}

impl Function {
    /// What the argument with a number, from 0, is wanted to be, where these arguments stand; None past the last.
    fn wanted(self, found: &[Given], number: usize) -> Option<Wanted>
        ensures { result ≡ slice_get (spec.wanted_by self (kinds_of (map seen found.now))) number }
    {
        match self {
            Function::GetBegin | Function::GetEnd | Function::GetLength | Function::GetText => {
                at(&[Kind::Span], number)
            }
            Function::CombineSpans
            | Function::SpanBetween
            | Function::Overlaps
            | Function::Contains => at(&[Kind::Span, Kind::Span], number),
            Function::LeftContext
            | Function::RightContext
            | Function::LeftContextTok
            | Function::RightContextTok => at(&[Kind::Span, Kind::Integer], number),
            Function::Follows | Function::FollowsTok => at(
                &[Kind::Span, Kind::Span, Kind::Number, Kind::Number],
                number,
            ),
            Function::Equals => at(&[Kind::Any, compared(found)], number),
            Function::GreaterThan => at(&[Kind::Integer, Kind::Integer], number),
            Function::NotNull => at(&[Kind::Any], number),
            Function::ContainsRegex | Function::MatchesRegex => {
                at(&[Kind::Pattern, Kind::SpanOrText], number)
            }
            Function::ContainsDict | Function::MatchesDict => dictionary_wanted(found, number),
            Function::Not => at(&[Kind::Boolean], number),
            Function::And | Function::Or => conditions_wanted(found, number),
        }
    }
}

impl Aggregate {
    fn wanted(self, number: usize) -> Option<Wanted>
        ensures { result ≡ slice_get (spec.wanted_by_aggregate self) number }
    {
        match self {
            Aggregate::Sum => at(&[Kind::Integer], number),
            Aggregate::Count | Aggregate::Min | Aggregate::Max => at(&[Kind::Any], number),
        }
    }
}

impl Callee {
    /// What the argument with a number, from 0, is wanted to be, where these arguments stand; None past the last.
    pub(crate) fn wanted(self, found: &[Given], number: usize) -> Option<Wanted>
        ensures { result ≡ slice_get (wanted_of self (kinds_of (map seen found.now))) number }
    {
        match self {
            Callee::Function(function) => function.wanted(found, number),
            Callee::Aggregate(aggregate) => aggregate.wanted(number),
        }
    }
}

fn at(kinds: &[Kind], number: usize) -> Option<Wanted>
    ensures { result ≡ slice_get (map Wanted.OfKind kinds.now) number }
{
    match kinds.get(number) {
        Some(kind) => Some(Wanted::OfKind(*kind)),
        None => None,
    }
}

/// What the second argument of `Equals` is wanted to be.
fn compared(found: &[Given]) -> Kind
    ensures { result ≡ spec.compared (kinds_of (map seen found.now)) }
{
    match found {
        [] => Kind::Any,
        [first] => first.kind,
        [first, second, ..] => match second.kind {
            Kind::Pattern => Kind::Any,
            _ => first.kind,
        },
    }
}

fn dictionary_wanted(found: &[Given], number: usize) -> Option<Wanted>
    ensures { result ≡ slice_get (spec.dictionary_wanted (kinds_of (map seen found.now))) number }
{
    let flag = found.len() >= 3;
    match number {
        0 => Some(Wanted::OfKind(Kind::Dictionary)),
        1 if flag => Some(Wanted::Flag),
        1 => Some(Wanted::OfKind(Kind::Span)),
        2 if flag => Some(Wanted::OfKind(Kind::Span)),
        _ => None,
    }
}

fn conditions_wanted(found: &[Given], number: usize) -> Option<Wanted>
    ensures { result ≡ slice_get (spec.conditions_wanted (kinds_of (map seen found.now))) number }
{
    if number < found.len().max(1) {
        Some(Wanted::OfKind(Kind::Boolean))
    } else {
        None
    }
}
