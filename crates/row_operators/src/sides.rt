ghost use Rattle.std.specs.Prelude.{◌≡◌, ◌++◌, not, map, OnOk, IfOk};
ghost use Rattle.std.specs.List.{filter};
ghost use Rattle.span_token.specs.Documents.{Doc};
ghost use Rattle.row_values.specs.Rows.{IsInOrder, RowsLieIn, does_occur, minus};

use row_values::{Row, Rows};
use span_token::OutOfMemory;
use std::alloc::Global;

/// Puts the rows after the others. None is copied.
pub fn append_rows<'d>(rows: Rows<'d>, into: &mut Rows<'d>) -> Result<(), OutOfMemory>
    requires width { rows.width ≡ into.old.width }
    ensures { OnOk result (into.new ≡ record { width = into.old.width; rows = into.old.rows ++ rows.entry.rows }) }
{
    for row in rows.into_vec() {
        into.push(row)?;
    }
    Ok(())
}

/// The left rows that occur nowhere on the right. The right ones are put in row order once, and each left
/// one is searched for among them.
#[tactic(auto, unfolding(row_values::specs::Rows::minus))]
pub fn without<'d>(alloc: Global, left: Rows<'d>, right: &Rows<'d>) -> Result<Rows<'d>, OutOfMemory>
    ensures rows { IfOk result (λ out. out.rows ≡ minus left.entry.rows right.now.rows) }
    ensures width { IfOk result (λ out. out.width ≡ left.entry.width) }
    ensures lies { (doc : Doc) → RowsLieIn doc left.entry.rows → IfOk result (λ out. RowsLieIn doc out.rows) }
{
    let sorted = right.sorted(alloc)?;
    let out = absent_from(sorted.as_slice(), left);
    Ok(out)
}

/// The rows that occur nowhere among those that are in row order.
fn absent_from<'d>(others: &[&Row<'d>], rows: Rows<'d>) -> Rows<'d>
    requires in_order { IsInOrder (map (λ row. row.now) others.now) }
    ensures rows { result.rows ≡ filter (λ row. not (does_occur (map (λ row. row.now) others.now) row)) rows.entry.rows }
    ensures width { result.width ≡ rows.entry.width }
{
    let width = rows.width();
    let mut left = rows.into_vec();
    left.retain(|row| !does_occur(others, row));
    Rows::from_vec(width, left)
}

/// Whether a row is among rows that are in row order.
pub fn does_occur<'d>(rows: &[&Row<'d>], row: &Row<'d>) -> bool
    requires in_order { IsInOrder (map (λ row. row.now) rows.now) }
    ensures { result ≡ does_occur (map (λ row. row.now) rows.now) row.now }
{
    rows.binary_search(&row).is_ok()
}
