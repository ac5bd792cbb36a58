ghost use Rattle.std.specs.Prelude.{◌≡◌, ◌<◌, IfOk, length, All};
ghost use Rattle.span_token.specs.Documents.{Doc};
ghost use Rattle.row_values.specs.Rows.{RowsLieIn, sorted};
ghost use Rattle.group_agg.specs.Groups.{HasKey, HasColumn, grouped};

use group_agg::{Agg, group};
use row_values::{Rows, sort_rows};
use span_token::OutOfMemory;
use std::alloc::Global;

/// One row for each group of rows with equal values in the columns `keys`, in row order.
///
/// Meaning: `grouped`, `specs/Groups.antt` of `group_agg`.
pub fn grouped_in_order<'d>(
    alloc: Global,
    rows: &Rows<'d>,
    keys: &[u32],
    aggs: &[Agg],
) -> Result<Rows<'d>, OutOfMemory>
    requires keys_there { All (λ column. column < rows.now.width) keys.now }
    requires aggs_there { All (HasKey (length keys.now)) aggs.now }
    requires columns_there { All (HasColumn rows.now.width) aggs.now }
    ensures rows { IfOk result (λ out. out.rows ≡ sorted (grouped keys.now aggs.now rows.now.rows)) }
    ensures width { IfOk result (λ out. out.width ≡ length aggs.now) }
    ensures lies { (doc : Doc) → RowsLieIn doc rows.now.rows → IfOk result (λ out. RowsLieIn doc out.rows) }
{
    let mut out = group(alloc, rows, keys, aggs)?;
    sort_rows(&mut out)?;
    Ok(out)
}
