ghost use Rattle.std.specs.Prelude.{ℕ, List, ◌≡◌, ◌+◌, ◌-◌, ◌<◌, ◌≤◌, ◌++◌, ◌↔◌, IsTrue, IfOk, OnOk, length, map, All};
ghost use Rattle.std.specs.List.{AllPairs, range_with_len};
ghost use Rattle.aql_base.specs.Bags.{SameBag};
ghost use Rattle.span_token.specs.Documents.{Doc, LiesIn};
ghost use Rattle.span_token.specs.Extents.{Extent, extent_of, nth_extent};
ghost use Rattle.span_token.specs.SourceTokens.{run_extent};
ghost use Rattle.span_token.specs.SpanOrder.{IsBefore};
ghost use Rattle.span_sets.specs.Blocks.{IsNeighbour, AreDistinct, AreBlocks, AreBlocksOf, is_neighbour, blocks_of};

use span_token::{Document, OutOfMemory, Span, follows, follows_tok};
use std::alloc::Global;

/// One span for each run of neighbours among the distinct spans, from the begin of the first to the
/// end of the last.
///
/// The distinct spans stand by begin and then by end. A run has `low` to `high` of them in a row, and
/// each begins at or after the end of the one before it, with `gap_low` to `gap_high` characters
/// between, or tokens of `doc` where `tokens` is true, counted as `follows` and `follows_tok` do. The
/// blocks stand by the first span of their run and then by the last; where two runs have one block, it
/// comes twice.
///
/// A single span is a run of one, whatever the gaps: with a `low` of 0 or 1 each distinct span is a
/// block. Nothing comes where `high` is 0 or below `low`; where `gap_high` is below `gap_low` or below
/// 0, no two spans are neighbours.
///
/// Takes one sort, at most two tests for each distinct span, and a step for each block.
///
/// Meaning: `AreBlocks`, and as a list `blocks_of`, `specs/Blocks.antt`; docs/LANGUAGE.md, "Blocks".
pub fn blocks(
    alloc: Global,
    spans: Vec<Span>,
    doc: &Document<'_>,
    low: u32,
    high: u32,
    gap_low: i64,
    gap_high: i64,
    tokens: bool,
) -> Result<Vec<Span>, OutOfMemory>
    requires in_document { All (λ s. LiesIn (extent_of s) doc.now) spans.items }
    ensures blocks { IfOk result (λ found. AreBlocks (IsNeighbour doc.now tokens gap_low gap_high) low high (map extent_of spans.items) (map extent_of found.items)) }
    ensures list { IfOk result (λ found. map extent_of found.items ≡ blocks_of (is_neighbour doc.now tokens gap_low gap_high) low high (map extent_of spans.items)) }
    ensures only { IfOk result (λ found. (same other : List Extent) → SameBag same (map extent_of spans.items) → AreBlocks (IsNeighbour doc.now tokens gap_low gap_high) low high same other → other ≡ map extent_of found.items) }
    ensures in_document { IfOk result (λ found. All (λ s. LiesIn (extent_of s) doc.now) found.items) }
{
    let spans = distinct(spans);
    let separation = Separation {
        low: gap_low,
        high: gap_high,
        tokens,
    };
    let found = runs(alloc, spans.as_slice(), doc, low, high, separation)?;
    Ok(found)
}

/// What may lie between two neighbours of a run.
#[derive(Clone, Copy)]
struct Separation {
    low: i64,
    high: i64,
    tokens: bool,
}

/// The distinct spans, by begin and then by end.
fn distinct(spans: Vec<Span>) -> Vec<Span>
    ensures distinct { AreDistinct (map extent_of spans.items) (map extent_of result.items) }
    ensures in_document { (doc : Doc) → All (λ s. LiesIn (extent_of s) doc) spans.items → All (λ s. LiesIn (extent_of s) doc) result.items }
{
    let mut spans = spans;
    spans.sort_unstable();
    spans.dedup();
    spans
}

/// The blocks of spans that rise.
fn runs(
    alloc: Global,
    spans: &[Span],
    doc: &Document<'_>,
    low: u32,
    high: u32,
    separation: Separation,
) -> Result<Vec<Span>, OutOfMemory>
    requires in_document { All (λ s. LiesIn (extent_of s) doc.now) spans.now }
    requires rising { AllPairs IsBefore (map extent_of spans.now) }
    ensures blocks { IfOk result (λ found. AreBlocksOf (IsNeighbour doc.now separation.tokens separation.low separation.high) low high (map extent_of spans.now) (map extent_of found.items)) }
    ensures in_document { IfOk result (λ found. All (λ s. LiesIn (extent_of s) doc.now) found.items) }
{
    let mut found = Vec::new(alloc);
    let mut end: usize = 0;
    for i in 0..spans.len() {
        end = chain_end(spans, doc, end.max(i + 1), separation);
        let from = i.saturating_add(low.max(1) as usize - 1);
        let to = end.min(i.saturating_add(high as usize));
        push_blocks(&mut found, spans, i, from, to)?;
    }
    Ok(found)
}

/// One past the last span that is reached from the one before `from` by neighbours.
fn chain_end(spans: &[Span], doc: &Document<'_>, from: usize, separation: Separation) -> usize
    requires in_document { All (λ s. LiesIn (extent_of s) doc.now) spans.now }
    requires some { 0 < from }
    requires there { from ≤ length spans.now }
    ensures after { from ≤ result }
    ensures within { result ≤ length spans.now }
    ensures chained { (k : ℕ) → from ≤ k + 1 → k + 1 < result → IsNeighbour doc.now separation.tokens separation.low separation.high (nth_extent (map extent_of spans.now) k) (nth_extent (map extent_of spans.now) (k + 1)) }
    ensures stopped { result < length spans.now → (k : ℕ) → k + 1 ≡ result → ¬ (IsNeighbour doc.now separation.tokens separation.low separation.high (nth_extent (map extent_of spans.now) k) (nth_extent (map extent_of spans.now) (k + 1))) }
{
    for i in from..spans.len() {
        if !are_neighbours(spans, doc, i - 1, i, separation) {
            return i;
        }
    }
    spans.len()
}

/// Whether the gap between two spans is in the range.
fn are_neighbours(
    spans: &[Span],
    doc: &Document<'_>,
    a: usize,
    b: usize,
    separation: Separation,
) -> bool
    requires in_document { All (λ s. LiesIn (extent_of s) doc.now) spans.now }
    requires a_there { a < length spans.now }
    requires b_there { b < length spans.now }
    ensures { IsTrue result ↔ IsNeighbour doc.now separation.tokens separation.low separation.high (nth_extent (map extent_of spans.now) a) (nth_extent (map extent_of spans.now) b) }
{
    gap_fits(doc, spans[a], spans[b], separation)
}

/// Whether `b` follows `a` with a gap in the range.
fn gap_fits(doc: &Document<'_>, a: Span, b: Span, separation: Separation) -> bool
    requires a_in_document { LiesIn (extent_of a) doc.now }
    requires b_in_document { LiesIn (extent_of b) doc.now }
    ensures { IsTrue result ↔ IsNeighbour doc.now separation.tokens separation.low separation.high (extent_of a) (extent_of b) }
{
    if separation.tokens {
        follows_tok(doc, a, b, separation.low, separation.high)
    } else {
        follows(a, b, separation.low, separation.high)
    }
}

/// Puts the blocks from span `first` to each of the spans `from` up to but not including `to` after
/// the others.
fn push_blocks(
    found: &mut Vec<Span>,
    spans: &[Span],
    first: usize,
    from: usize,
    to: usize,
) -> Result<(), OutOfMemory>
    requires first { first < length spans.now }
    requires to { to ≤ length spans.now }
    requires ordered { (j : ℕ) → from ≤ j → j < to → (nth_extent (map extent_of spans.now) first).begin ≤ (nth_extent (map extent_of spans.now) j).end }
    ensures blocks { OnOk result (map extent_of found.new.items ≡ map extent_of found.old.items ++ map (run_extent (map extent_of spans.now) first) (range_with_len from (to - from))) }
{
    for j in from..to {
        found.push(Span {
            begin: spans[first].begin,
            end: spans[j].end,
        })?;
    }
    Ok(())
}
