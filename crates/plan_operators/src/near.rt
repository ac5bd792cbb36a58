//! Which runs of tokens may join with an outer row.

ghost use Rattle.std.specs.Prelude.{◌≡◌, ◌+◌, ◌-◌, ◌≤◌, ◌<◌, ◌^◌, ℕ, IsTrue};
ghost use Rattle.span_token.specs.Contexts.{how_many};
ghost use Rattle.span_token.specs.Documents.{LiesIn, characters};
ghost use Rattle.span_token.specs.Extents.{Extent, extent_of};
ghost use Rattle.span_token.specs.SourceTokens.{run_extent};
ghost use Rattle.span_token.specs.Tokens.{tokens_of};
ghost use Rattle.algebra.specs.Operators.{does_join};
ghost use Rattle.plan_operators.specs.Neighbourhoods.{AreBegun, IsInRun, IsNearRun};

use algebra::JoinKind;
use span_token::{Document, Span};

/// Runs of tokens by where they stand: those that begin with a token of a number below `before`, and whose last
/// token isn't in front of the one with the number `past - 1`.
#[derive(Clone, Copy, Debug)]
pub(crate) struct Near {
    pub(crate) before: u64,
    pub(crate) past: u64,
}

/// Where runs of tokens stand that may join with the span of an outer row.
pub(crate) fn where_near(doc: &Document<'_>, kind: JoinKind, outer: Span) -> Near
    requires in_document { LiesIn (extent_of outer) doc.now }
    ensures { (first past : ℕ) (e : Extent) → IsInRun (tokens_of (characters doc.now)) first past e → IsTrue (does_join doc.now kind (extent_of outer) e) → IsNearRun result first past }
{
    match kind {
        JoinKind::Follows { min, max } => {
            within(doc, later(outer.end, min), later(outer.end, max))
        }
        JoinKind::FollowsTok { min, max } => {
            let begun = begun_before(doc, u64::from(outer.end));
            Near {
                before: begun + most(max) + 1,
                past: begun + most(min),
            }
        }
        JoinKind::FollowsBack { min, max } => {
            within(doc, earlier(outer.begin, max), earlier(outer.begin, min))
        }
        JoinKind::FollowsTokBack { min, max } => {
            let begun = begun_before(doc, u64::from(outer.begin));
            Near {
                before: (begun + 1).saturating_sub(most(min)),
                past: begun.saturating_sub(most(max) + 1),
            }
        }
        JoinKind::Overlaps | JoinKind::Contains | JoinKind::ContainsBack => {
            within(doc, u64::from(outer.begin), u64::from(outer.end))
        }
    }
}

/// Where runs of tokens stand that reach to a place or behind it, and begin at another one or before it.
fn within(doc: &Document<'_>, from: u64, to: u64) -> Near
    requires { to < 2 ^ 63 + 2 ^ 33 }
    ensures { (first past x y : ℕ) (e : Extent) → IsInRun (tokens_of (characters doc.now)) first past e
        → from ≤ x → x ≤ (run_extent (tokens_of (characters doc.now)) first (past - 1)).end
        → (run_extent (tokens_of (characters doc.now)) first (past - 1)).begin ≤ y → y ≤ to → IsNearRun result first past }
{
    Near {
        before: begun_before(doc, to + 1),
        past: begun_before(doc, from),
    }
}

/// How many tokens begin before a place.
fn begun_before(doc: &Document<'_>, place: u64) -> u64
    ensures begun { AreBegun (tokens_of (characters doc.now)) place result }
    ensures few { result < 2 ^ 32 }
{
    let end = doc.len();
    let at = if place < u64::from(end) {
        place as u32
    } else {
        end
    };
    let (first, _past) = doc.tokens_in(Span { begin: at, end: at });
    u64::from(first)
}

/// A place so many characters later.
fn later(place: u32, number: i64) -> u64
    ensures place { result ≡ place + how_many number }
    ensures few { result < 2 ^ 63 + 2 ^ 32 }
{
    u64::from(place) + most(number)
}

/// A place so many characters earlier, or the begin of the text.
fn earlier(place: u32, number: i64) -> u64
    ensures { result ≡ place - how_many number }
{
    u64::from(place).saturating_sub(most(number))
}

/// As many as `number`, none where it is below 0.
fn most(number: i64) -> u64
    ensures number { result ≡ how_many number }
    ensures few { result < 2 ^ 63 }
{
    if number < 0 { 0 } else { number as u64 }
}
