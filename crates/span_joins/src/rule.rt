ghost use Rattle.std.specs.Prelude.{◌≡◌, ◌+◌, ◌≤◌, None};
ghost use Rattle.span_token.specs.Extents.{extent_of};
ghost use Rattle.std.specs.Option.{option_map, IsSome};
ghost use Rattle.span_joins.specs.Sweeps.{IsWithinAny, answer_at};
ghost use Rattle.span_joins.specs.Answers.{answer_of, by_gap, by_begin, order_of, other_order_of, begin_empty_first, is_other, is_turned, IsWithin};

use aql_base::Steps;
use span_token::{Document, Span, between, contains, overlaps, tokens_between};
use std::sync::ledger::Ledger;

/// What a test of a first span against another span asks.
#[derive(Clone, Copy)]
pub(crate) enum Rule<'a, 'b> {
    /// The other follows with a number of characters between that is within the bounds.
    Gap(i64, i64, Front),
    /// The other follows with a number of tokens between that is within the bounds.
    Tokens(&'a Document<'b>, i64, i64, Front),
    /// The first contains the other.
    Contains(Front),
    /// The two overlap, and the right one doesn't begin before the left one, which is the first.
    OverlapsFromLeft,
    /// The two overlap, and the left one begins after the right one, which is the first.
    OverlapsFromRight,
}

/// Which row stands in front in a pair.
#[derive(Clone, Copy)]
pub(crate) enum Front {
    /// The one of the first span.
    First,
    /// The other.
    Other,
}

/// What rows are in the order of.
#[derive(Clone, Copy)]
pub(crate) enum By {
    /// The begins of their spans.
    Begin,
    /// The begins of their spans, and of spans of one begin an empty one first.
    BeginEmptyFirst,
    /// The ends of their spans.
    End,
}

impl Rule<'_, '_> {
    /// The order of the first spans of a sweep.
    #[inline(always)]
    pub(crate) fn order(self) -> By
        ensures { result ≡ order_of self.entry }
    {
        match self {
            Rule::Gap(_, _, _) | Rule::Tokens(_, _, _, _) => By::End,
            _ => By::Begin,
        }
    }

    /// The order of the others.
    #[inline(always)]
    pub(crate) fn other_order(self) -> By
        ensures { result ≡ other_order_of self.entry }
    {
        match self {
            Rule::Contains(_) => By::BeginEmptyFirst,
            _ => By::Begin,
        }
    }

    /// Which row stands in front.
    #[inline(always)]
    pub(crate) fn front(self) -> Front
        ensures { is_other result ≡ is_turned self.entry }
    {
        match self {
            Rule::Gap(_, _, front) | Rule::Tokens(_, _, _, front) | Rule::Contains(front) => front,
            Rule::OverlapsFromLeft => Front::First,
            Rule::OverlapsFromRight => Front::Other,
        }
    }
}

/// What a test tells a sweep that goes through the other spans by their begins.
#[derive(Clone, Copy, PartialEq, Eq)]
pub(crate) enum Answer {
    /// No pair, and neither is one that begins no later.
    Before,
    /// A pair.
    Pair,
    /// No pair.
    Neither,
    /// No pair, and neither is one that begins no earlier.
    Beyond,
}

/// Tests one span against another, which is one step: the only way to an answer.
#[inline(always)]
fn test<L: Ledger>(rule: Rule<'_, '_>, first: Span, other: Span, steps: &mut Steps<L>) -> Answer
    requires first_within { IsWithin rule (extent_of first) }
    requires other_within { IsWithin rule (extent_of other) }
    ensures answer { result ≡ answer_of rule.entry (extent_of first) (extent_of other) }
    ensures step { steps.new ≡ steps.old + 1 }
{
    steps.tick();
    answered(rule, first, other)
}

/// Tests a span against that of another row. A row without one takes no test.
#[inline(always)]
pub(crate) fn test_at<L: Ledger>(
    rule: Rule<'_, '_>,
    first: Span,
    other: Option<Span>,
    steps: &mut Steps<L>,
) -> Answer
    requires first_within { IsWithin rule (extent_of first) }
    requires other_within { IsWithinAny rule (option_map extent_of other) }
    ensures answer { result ≡ answer_at rule.entry (extent_of first) (option_map extent_of other) }
    ensures tested { IsSome other → steps.new ≡ steps.old + 1 }
    ensures none { other ≡ None → steps.new ≡ steps.old }
    ensures grows { steps.old ≤ steps.new }
{
    match other {
        Some(other) => test(rule, first, other, steps),
        None => Answer::Before,
    }
}

/// The answer of a rule.
#[inline(always)]
fn answered(rule: Rule<'_, '_>, first: Span, other: Span) -> Answer
    requires first_within { IsWithin rule (extent_of first) }
    requires other_within { IsWithin rule (extent_of other) }
    ensures { result ≡ answer_of rule.entry (extent_of first) (extent_of other) }
{
    let in_order = first.end <= other.begin;
    let gap = between(first, other);
    match rule {
        Rule::Gap(min, max, _) => {
            if in_order {
                by_gap(min, max, gap.end - gap.begin)
            } else {
                Answer::Before
            }
        }
        Rule::Tokens(doc, min, max, _) => {
            if in_order {
                by_gap(min, max, tokens_between(doc, gap.begin, gap.end))
            } else {
                Answer::Before
            }
        }
        Rule::Contains(_) => by_begin(
            other.begin < first.begin,
            2 * u64::from(first.end) < begin_empty_first(other),
            contains(first, other),
        ),
        Rule::OverlapsFromLeft => by_begin(
            other.begin < first.begin,
            first.begin < other.begin && first.end <= other.begin,
            overlaps(first, other),
        ),
        Rule::OverlapsFromRight => by_begin(
            other.begin <= first.begin,
            first.end <= other.begin,
            overlaps(first, other),
        ),
    }
}

/// Where a span stands by its begin, and of spans of one begin an empty one first.
#[inline(always)]
pub(crate) fn begin_empty_first(span: Span) -> u64
    ensures { result ≡ begin_empty_first (extent_of span) }
{
    2 * u64::from(span.begin) + u64::from(span.begin < span.end)
}

/// The answer by how much lies between.
#[inline(always)]
fn by_gap(min: i64, max: i64, gap: u32) -> Answer
    ensures { result ≡ by_gap min max gap }
{
    let gap = i64::from(gap);
    if min <= gap {
        if gap <= max {
            Answer::Pair
        } else {
            Answer::Beyond
        }
    } else {
        Answer::Before
    }
}

/// The answer by where the other span begins, and then by a test.
#[inline(always)]
fn by_begin(before: bool, beyond: bool, pair: bool) -> Answer
    ensures { result ≡ by_begin before beyond pair }
{
    if before {
        Answer::Before
    } else if beyond {
        Answer::Beyond
    } else if pair {
        Answer::Pair
    } else {
        Answer::Neither
    }
}
