ghost use Rattle.std.specs.Prelude.{◌≡◌, ◌<◌, ◌^◌, IfOk, length, map, slice_index_or, vec_len, All, None};
ghost use Rattle.span_sets.specs.Consolidation.{target_of};
ghost use Rattle.span_sets.specs.Orders.{numbered_from, row_order_of};

use row_values::Row;
use span_token::{OutOfMemory, Span};
use std::alloc::Global;

/// A row with its number among the given rows, from 0, and with its target.
///
/// Ordered by row and then by number, so that equal rows keep their order.
#[derive(Debug, Drop, PartialEq, Eq, PartialOrd, Ord)]
pub(crate) struct NumberedRow<'d> {
    pub(crate) row: Row<'d>,
    pub(crate) number: u32,
    pub(crate) target: Option<Span>,
}

/// The rows with their numbers and their targets, in row order; equal rows keep their order.
pub(crate) fn row_order<'d>(
    alloc: Global,
    rows: Vec<Row<'d>>,
    targets: &[Option<Span>],
) -> Result<Vec<NumberedRow<'d>>, OutOfMemory>
    requires few { vec_len rows < 2 ^ 32 }
    requires one_target_each { length targets.now ≡ vec_len rows }
    ensures order { IfOk result (λ order. map (λ p. (p.row, p.number)) order.items ≡ row_order_of rows.entry.items) }
    ensures targets { IfOk result (λ order. All (λ p. target_of p.target ≡ slice_index_or (map target_of targets.now) p.number None) order.items) }
{
    let mut order = numbered(alloc, rows, targets)?;
    order.sort_unstable();
    Ok(order)
}

/// Each row with its number and its target.
fn numbered<'d>(
    alloc: Global,
    rows: Vec<Row<'d>>,
    targets: &[Option<Span>],
) -> Result<Vec<NumberedRow<'d>>, OutOfMemory>
    requires few { vec_len rows < 2 ^ 32 }
    requires one_target_each { length targets.now ≡ vec_len rows }
    ensures order { IfOk result (λ order. map (λ p. (p.row, p.number)) order.items ≡ numbered_from 0 rows.entry.items) }
    ensures targets { IfOk result (λ order. All (λ p. target_of p.target ≡ slice_index_or (map target_of targets.now) p.number None) order.items) }
{
    let mut order = Vec::with_capacity(alloc, rows.len())?;
    for row in rows {
        let number = order.len();
        order.push(NumberedRow {
            row,
            number: number as u32,
            target: targets[number],
        })?;
    }
    Ok(order)
}

/// The targets of the rows, in the order of the rows.
pub(crate) fn targets_of(
    alloc: Global,
    order: &[NumberedRow<'_>],
) -> Result<Vec<Option<Span>>, OutOfMemory>
    ensures { IfOk result (λ out. out.items ≡ map (λ p. p.target) order.now) }
{
    Ok(order.iter().map(|numbered| numbered.target).collect(alloc)?)
}
