ghost use Rattle.std.specs.Prelude.{◌≡◌, IfOk, All};
ghost use Rattle.span_token.specs.Extents.{Extent};
ghost use Rattle.aql_regex_extract.specs.Matches.{extents_of, extents_of_rows, IsInside};
ghost use Rattle.aql_regex_extract.specs.Steps.{cut_rows};

use span_token::{OutOfMemory, Span};
use std::alloc::Global;

/// A list cut into so many rows of `width` entries each, from the front on.
pub(crate) fn cut(
    alloc: Global,
    flat: &[Option<Span>],
    number: usize,
    width: usize,
) -> Result<Vec<Vec<Option<Span>>>, OutOfMemory>
    ensures rows { IfOk result (λ rows. extents_of_rows rows.items ≡ cut_rows number width (extents_of flat.now)) }
    ensures within { (source : Extent) → All (IsInside source) flat.now
        → IfOk result (λ rows. All (λ row. All (IsInside source) row.items) rows.items) }
{
    let mut rows = Vec::new(alloc);
    let mut rest = flat;
    let mut left = number;
    'cuts: while left > 0 {
        let (row, others) = rest.split_at(width.min(rest.len()));
        let kept = copied(alloc, row)?;
        rows.push(kept)?;
        rest = others;
        left -= 1;
    }
    Ok(rows)
}

/// A copy of a row.
fn copied(alloc: Global, row: &[Option<Span>]) -> Result<Vec<Option<Span>>, OutOfMemory>
    ensures { IfOk result (λ copy. copy.items ≡ row.now) }
{
    let mut copy = Vec::new(alloc);
    for span in row {
        copy.push(*span)?;
    }
    Ok(copy)
}
