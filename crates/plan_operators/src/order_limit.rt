ghost use Rattle.std.specs.Prelude.{◌≡◌, ◌<◌, All, IfOk};
ghost use Rattle.span_token.specs.Documents.{Doc};
ghost use Rattle.row_values.specs.Rows.{RowsLieIn};
ghost use Rattle.aql_typed.specs.Meaning.{cut};
ghost use Rattle.plan_operators.specs.Given.{input_rows};

use crate::Input;
use group_agg::limited;
use row_operators::cut;
use row_values::{Rows, sort_rows};
use span_token::OutOfMemory;
use std::alloc::Global;

/// `OrderLimit`: the first rows by some columns, in row order; all rows, as they stand, without a limit.
pub(crate) fn order_limit<'d>(
    alloc: Global,
    input: Input<'_, 'd>,
    keys: &[u32],
    limit: Option<u64>,
) -> Result<Rows<'d>, OutOfMemory>
    requires columns_there { All (λ key. key < (input_rows input).width) keys.now }
    ensures rows { IfOk result (λ out. out.rows ≡ cut keys.now limit (input_rows input.entry).rows) }
    ensures width { IfOk result (λ out. out.width ≡ (input_rows input.entry).width) }
    ensures lies { (doc : Doc) → RowsLieIn doc (input_rows input.entry).rows → IfOk result (λ out. RowsLieIn doc out.rows) }
{
    match input {
        Input::Given(rows) => cut(alloc, rows, keys, limit),
        Input::Lent(rows) => cut_copies(alloc, rows, keys, limit),
    }
}

/// Copies of the first rows by some columns, in row order; of all rows, as they stand, without a limit.
fn cut_copies<'d>(
    alloc: Global,
    rows: &Rows<'d>,
    keys: &[u32],
    limit: Option<u64>,
) -> Result<Rows<'d>, OutOfMemory>
    requires columns_there { All (λ key. key < rows.now.width) keys.now }
    ensures rows { IfOk result (λ out. out.rows ≡ cut keys.now limit rows.now.rows) }
    ensures width { IfOk result (λ out. out.width ≡ rows.now.width) }
    ensures lies { (doc : Doc) → RowsLieIn doc rows.now.rows → IfOk result (λ out. RowsLieIn doc out.rows) }
{
    match limit {
        Some(number) => {
            let mut out = limited(alloc, rows, keys, Some(number))?;
            sort_rows(&mut out)?;
            Ok(out)
        }
        None => rows.copy(alloc),
    }
}
