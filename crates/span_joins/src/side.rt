ghost use Rattle.std.specs.Prelude.{◌≡◌, ◌<◌, ◌≤◌, ◌+◌, ◌-◌, true, false, IfOk, [], length, map, slice_index_or, All};
ghost use Rattle.std.specs.List.Sorted.{IsPermutation};
ghost use Rattle.std.specs.Option.{option_map};
ghost use Rattle.span_token.specs.Extents.{extent_of};
ghost use Rattle.span_joins.specs.Answers.{number_of};
ghost use Rattle.row_values.specs.Rows.{span_in};
ghost use Rattle.span_joins.specs.Joins.{rank as rank_by};
ghost use Rattle.span_joins.specs.Sweeps.{AreInOrder, IsRankBefore, IsProper, entries_of, entry_of, entry_at};

use crate::rule::{By, begin_empty_first};
use row_values::Row;
use span_token::{OutOfMemory, Span};
use std::alloc::Global;

/// The rows of one side of a join in the order in which a sweep meets them, each with the span in a column.
#[derive(Clone, Copy)]
pub(crate) enum Side<'r, 'd> {
    /// Rows where they stand, and the column.
    InPlace(&'r [Row<'d>], u32),
    /// Rows that were put in the order of their spans.
    Sorted(&'r [Key<'r, 'd>]),
}

/// A row with the span in its column.
#[derive(Clone, Copy)]
pub(crate) struct Key<'r, 'd> {
    span: Option<Span>,
    row: &'r Row<'d>,
}

impl<'r, 'd> Side<'r, 'd> {
    /// The number of rows.
    #[inline(always)]
    pub(crate) fn len(self) -> usize
        ensures { result ≡ length (entries_of self.entry) }
    {
        match self {
            Side::InPlace(rows, _) => rows.len(),
            Side::Sorted(keys) => keys.len(),
        }
    }

    /// The span of row `i`, from 0, where it has one.
    #[inline(always)]
    pub(crate) fn span(self, i: usize) -> Option<Span>
        requires { i < length (entries_of self) }
        ensures span { option_map extent_of result ≡ (entry_at self.entry i).span }
        ensures proper { IsProper (entry_at self.entry i).span }
    {
        match self {
            Side::InPlace(rows, column) => span_in(row_at(rows, i), column),
            Side::Sorted(keys) => keys[i].span,
        }
    }

    /// Row `i`, from 0.
    #[inline(always)]
    pub(crate) fn row(self, i: usize) -> &'r Row<'d>
        requires { i < length (entries_of self) }
        ensures { result.now ≡ (entry_at self.entry i).values }
    {
        match self {
            Side::InPlace(rows, _) => row_at(rows, i),
            Side::Sorted(keys) => keys[i].row,
        }
    }

    /// Whether row `i` doesn't stand before the row in front of it in an order, whose rank is `last`; then
    /// `last` is the rank of row `i`. Past the end nothing stands before another.
    #[inline(always)]
    pub(crate) fn rises_at(self, by: By, i: usize, last: &mut u64) -> bool
        requires last { IsRankBefore by (entries_of self) i last.old }
        ensures yes { result ≡ true → i < length (entries_of self.entry) → 0 < i → rank_by (number_of by) (entry_at self.entry (i - 1)).span ≤ rank_by (number_of by) (entry_at self.entry i).span }
        ensures no { result ≡ false → (i < length (entries_of self.entry)) × (0 < i) × (rank_by (number_of by) (entry_at self.entry i).span < rank_by (number_of by) (entry_at self.entry (i - 1)).span) }
        ensures last { IsRankBefore by (entries_of self.entry) (i + 1) last.new }
        ensures proper { i < length (entries_of self.entry) → IsProper (entry_at self.entry i).span }
    {
        if i >= self.len() {
            return true;
        }
        let before = *last;
        *last = rank(by, self.span(i));
        before <= *last
    }

    /// The rows, each with its span, in an order.
    pub(crate) fn sorted(self, alloc: Global, by: By) -> Result<Vec<Key<'r, 'd>>, OutOfMemory>
        ensures same { IfOk result (λ keys. IsPermutation (entries_of self.entry) (map entry_of keys.items)) }
        ensures sorted { IfOk result (λ keys. AreInOrder by (map entry_of keys.items)) }
        ensures proper { IfOk result (λ keys. All (λ entry. IsProper entry.span) (map entry_of keys.items)) }
    {
        let mut keys = self.keys(alloc)?;
        keys.sort_unstable_by_key(|key| rank(by, key.span));
        Ok(keys)
    }

    /// The rows, each with its span, in their order.
    fn keys(self, alloc: Global) -> Result<Vec<Key<'r, 'd>>, OutOfMemory>
        ensures { IfOk result (λ keys. map entry_of keys.items ≡ entries_of self.entry) }
    {
        let mut keys = Vec::with_capacity(alloc, self.len())?;
        for i in 0..self.len() {
            keys.push(Key {
                span: self.span(i),
                row: self.row(i),
            })?;
        }
        Ok(keys)
    }
}

#[inline(always)]
fn row_at<'r, 'd>(rows: &'r [Row<'d>], i: usize) -> &'r Row<'d>
    requires { i < length rows.now }
    ensures { result.now ≡ slice_index_or rows.now i [] }
{
    &rows[i]
}

/// Where a span stands in an order; what has no span comes first.
#[inline(always)]
fn rank(by: By, span: Option<Span>) -> u64
    ensures { result ≡ rank_by (number_of by) (option_map extent_of span) }
{
    match span {
        None => 0,
        Some(span) => match by {
            By::Begin => u64::from(span.begin) + 1,
            By::BeginEmptyFirst => begin_empty_first(span) + 1,
            By::End => u64::from(span.end) + 1,
        },
    }
}

/// The span in a column of a row, where there is one.
#[inline(always)]
fn span_in(row: &Row<'_>, column: u32) -> Option<Span>
    ensures { option_map extent_of result ≡ span_in column row.now }
{
    row.values().get(column as usize)?.as_span()
}
