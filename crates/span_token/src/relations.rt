ghost use Rattle.std.specs.Prelude.{◌≡◌, ◌↔◌, IsTrue};
ghost use Rattle.span_token.specs.Extents.{extent_of};
ghost use Rattle.span_token.specs.Documents.{LiesIn, characters};
ghost use Rattle.span_token.specs.Tokens.{tokens_of};
ghost use Rattle.span_token.specs.Relations.{Follows, FollowsTok, Overlaps, ContainsExtent, combined, gap_of, tokens_between, does_follow, does_follow_tok, do_overlap, does_contain};

use crate::{Document, Span};

/// Whether `b` begins at or after the end of `a`, with `min` to `max` characters between.
///
/// Spans that touch have no character between. Nothing follows where `max` is below `min` or below 0.
///
/// Meaning: `Follows`, `specs/Relations.antt`.
pub fn follows(a: Span, b: Span, min: i64, max: i64) -> bool
    ensures test { result ≡ does_follow (extent_of a) (extent_of b) min max }
    ensures meaning { IsTrue result ↔ Follows (extent_of a) (extent_of b) min max }
{
    if b.begin < a.end {
        return false;
    }
    let between = i64::from(b.begin - a.end);
    min <= between && between <= max
}

/// Whether `b` begins at or after the end of `a`, with `min` to `max` tokens of `doc` wholly between.
///
/// A token that sticks out of the gap on either side isn't counted.
///
/// Meaning: `FollowsTok`, `specs/Relations.antt`.
pub fn follows_tok(doc: &Document<'_>, a: Span, b: Span, min: i64, max: i64) -> bool
    requires first_in_document { LiesIn (extent_of a) doc.now }
    requires second_in_document { LiesIn (extent_of b) doc.now }
    ensures test { result ≡ does_follow_tok (tokens_of (characters doc.now)) (extent_of a) (extent_of b) min max }
    ensures meaning { IsTrue result ↔ FollowsTok (tokens_of (characters doc.now)) (extent_of a) (extent_of b) min max }
{
    if b.begin < a.end {
        return false;
    }
    let between = i64::from(tokens_between(doc, a.end, b.begin));
    min <= between && between <= max
}

/// How many tokens of `doc` begin at or after the place `from` and end at or before the place `to`, in characters from 0.
///
/// Meaning: `tokens_between`, `specs/Relations.antt`.
pub fn tokens_between(doc: &Document<'_>, from: u32, to: u32) -> u32
    ensures { result ≡ tokens_between (tokens_of (characters doc.now)) from to }
{
    doc.ended_by(to).saturating_sub(doc.begun_before(from))
}

/// Whether `a` and `b` share a character, an empty one lies strictly inside the other, or they are equal.
///
/// Spans that touch don't overlap. An empty span overlaps itself, and a span around its place.
///
/// Meaning: `Overlaps`, `specs/Relations.antt`.
pub fn overlaps(a: Span, b: Span) -> bool
    ensures test { result ≡ do_overlap (extent_of a) (extent_of b) }
    ensures meaning { IsTrue result ↔ Overlaps (extent_of a) (extent_of b) }
{
    (a.begin < b.end && b.begin < a.end) || (a.begin == b.begin && a.end == b.end)
}

/// Whether `b` lies in `a`. Each span contains itself.
///
/// Meaning: `ContainsExtent`, `specs/Relations.antt`.
pub fn contains(a: Span, b: Span) -> bool
    ensures test { result ≡ does_contain (extent_of a) (extent_of b) }
    ensures meaning { IsTrue result ↔ ContainsExtent (extent_of a) (extent_of b) }
{
    a.begin <= b.begin && b.end <= a.end
}

/// The span from the lesser begin to the greater end of `a` and `b`, in whichever order they stand.
pub fn combine(a: Span, b: Span) -> Span
    ensures { extent_of result ≡ combined (extent_of a) (extent_of b) }
{
    Span {
        begin: a.begin.min(b.begin),
        end: a.end.max(b.end),
    }
}

/// The span from the end of `a` to the begin of `b`, or the empty one at the end of `a` where `b`
/// begins before it.
pub fn between(a: Span, b: Span) -> Span
    ensures { extent_of result ≡ gap_of (extent_of a) (extent_of b) }
{
    Span {
        begin: a.end,
        end: a.end.max(b.begin),
    }
}
