ghost use Rattle.std.specs.Prelude.{◌≡◌, map, not, IfOk};
ghost use Rattle.std.specs.List.{filter};
ghost use Rattle.span_token.specs.Documents.{Doc};
ghost use Rattle.row_values.specs.Rows.{IsInOrder, RowsLieIn, minus, does_occur};
ghost use Rattle.plan_operators.specs.Given.{input_rows};

use crate::Input;
use crate::select::copy_if;
use row_operators::{does_occur, without};
use row_values::{Row, Rows};
use span_token::OutOfMemory;
use std::alloc::Global;

/// `Minus`: the left rows that occur nowhere on the right. Rows that are given up are moved.
pub(crate) fn difference<'d>(
    alloc: Global,
    left: Input<'_, 'd>,
    right: &Rows<'d>,
) -> Result<Rows<'d>, OutOfMemory>
    ensures rows { IfOk result (λ out. out.rows ≡ minus (input_rows left.entry).rows right.now.rows) }
    ensures width { IfOk result (λ out. out.width ≡ (input_rows left.entry).width) }
    ensures lies { (doc : Doc) → RowsLieIn doc (input_rows left.entry).rows → IfOk result (λ out. RowsLieIn doc out.rows) }
{
    match left {
        Input::Given(rows) => without(alloc, rows, right),
        Input::Lent(rows) => copies_without(alloc, rows, right),
    }
}

/// Copies of the rows that occur nowhere among the others. These are put in row order once, and each row
/// is searched for among them.
#[tactic(auto, unfolding(row_values::specs::Rows::minus))]
fn copies_without<'d>(
    alloc: Global,
    rows: &Rows<'d>,
    others: &Rows<'d>,
) -> Result<Rows<'d>, OutOfMemory>
    ensures rows { IfOk result (λ out. out.rows ≡ minus rows.now.rows others.now.rows) }
    ensures width { IfOk result (λ out. out.width ≡ rows.now.width) }
{
    let sorted = others.sorted(alloc)?;
    let out = absent_copies(alloc, sorted.as_slice(), rows)?;
    Ok(out)
}

/// Copies of the rows that occur nowhere among those that are in row order.
fn absent_copies<'d>(
    alloc: Global,
    others: &[&Row<'d>],
    rows: &Rows<'d>,
) -> Result<Rows<'d>, OutOfMemory>
    requires in_order { IsInOrder (map (λ row. row.now) others.now) }
    ensures rows { IfOk result (λ out. out.rows ≡ filter (λ row. not (does_occur (map (λ row. row.now) others.now) row)) rows.now.rows) }
    ensures width { IfOk result (λ out. out.width ≡ rows.now.width) }
{
    let mut out = Rows::new(alloc, rows.width());
    for row in rows.as_slice() {
        copy_if(alloc, !does_occur(others, row), row, &mut out)?;
    }
    Ok(out)
}
