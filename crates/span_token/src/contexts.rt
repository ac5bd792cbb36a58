ghost use Rattle.std.specs.Prelude.{◌≡◌, ◌≤◌, ◌-◌, min, length, take, drop};
ghost use Rattle.span_token.specs.Extents.{extent_of};
ghost use Rattle.span_token.specs.Documents.{LiesIn, characters, len_of};
ghost use Rattle.span_token.specs.Tokens.{tokens_of};
ghost use Rattle.span_token.specs.Contexts.{how_many, left_of, right_of, left_of_tok, right_of_tok, ended_by, begun_from, first_begin, last_end};

use crate::{Document, Span};

/// The `n` characters before `s`, or as many as there are; none where `n` is below 0.
///
/// Meaning: `left_of`, `specs/Contexts.antt`.
pub fn left_context(s: Span, n: i64) -> Span
    ensures { extent_of result ≡ left_of (extent_of s) n }
{
    Span {
        begin: s.begin - at_most(n, s.begin),
        end: s.begin,
    }
}

/// The `n` characters of `doc` after `s`, or as many as there are; none where `n` is below 0.
///
/// Meaning: `right_of`, `specs/Contexts.antt`.
pub fn right_context(doc: &Document<'_>, s: Span, n: i64) -> Span
    requires in_document { LiesIn (extent_of s) doc.now }
    ensures context { extent_of result ≡ right_of (len_of doc.now) (extent_of s) n }
    ensures in_document { LiesIn (extent_of result) doc.now }
{
    Span {
        begin: s.end,
        end: s.end + at_most(n, doc.len() - s.end),
    }
}

/// The last `n` tokens of `doc` that end at or before the begin of `s`, with what stands between and
/// after them up to `s`; all such tokens where there are fewer.
///
/// Empty at the begin of `s` where `n` is below 1 or there is no such token.
///
/// Meaning: `left_of_tok`, `specs/Contexts.antt`.
pub fn left_context_tok(doc: &Document<'_>, s: Span, n: i64) -> Span
    requires in_document { LiesIn (extent_of s) doc.now }
    ensures context { extent_of result ≡ left_of_tok (tokens_of (characters doc.now)) (extent_of s) n }
    ensures in_document { LiesIn (extent_of result) doc.now }
{
    Span {
        begin: begin_before(doc, s.begin, n),
        end: s.begin,
    }
}

/// The first `n` tokens of `doc` that begin at or after the end of `s`, with what stands before and
/// between them from `s` on; all such tokens where there are fewer.
///
/// Empty at the end of `s` where `n` is below 1 or there is no such token.
///
/// Meaning: `right_of_tok`, `specs/Contexts.antt`.
pub fn right_context_tok(doc: &Document<'_>, s: Span, n: i64) -> Span
    requires in_document { LiesIn (extent_of s) doc.now }
    ensures context { extent_of result ≡ right_of_tok (tokens_of (characters doc.now)) (extent_of s) n }
    ensures in_document { LiesIn (extent_of result) doc.now }
{
    Span {
        begin: s.end,
        end: end_after(doc, s.end, n),
    }
}

/// The begin of the `n`-th last token that ends at or before a place, or of the first one.
fn begin_before(doc: &Document<'_>, place: u32, n: i64) -> u32
    ensures begin { result ≡ first_begin place (drop (length (ended_by (tokens_of (characters doc.now)) place) - how_many n) (ended_by (tokens_of (characters doc.now)) place)) }
    ensures before { result ≤ place }
{
    let before = doc.ended_by(place);
    let taken = at_most(n, before);
    if taken == 0 {
        return place;
    }
    doc.token(before - taken).begin
}

/// The end of the `n`-th token that begins at or after a place, or of the last one.
fn end_after(doc: &Document<'_>, place: u32, n: i64) -> u32
    requires { place ≤ len_of doc.now }
    ensures end { result ≡ last_end place (take (how_many n) (begun_from (tokens_of (characters doc.now)) place)) }
    ensures after { place ≤ result }
    ensures in_document { result ≤ len_of doc.now }
{
    let passed = doc.begun_before(place);
    let taken = at_most(n, doc.token_count() - passed);
    if taken == 0 {
        return place;
    }
    doc.token(passed + taken - 1).end
}

/// As many as `n`, but at most `most`, and none where it is below 0.
fn at_most(n: i64, most: u32) -> u32
    ensures { result ≡ min most (how_many n) }
{
    if n < 0 {
        return 0;
    }
    if n < i64::from(most) { n as u32 } else { most }
}
