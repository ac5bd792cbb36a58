ghost use Rattle.std.specs.Prelude.{◌≡◌, length, map, IfOk, All};
ghost use Rattle.row_values.specs.Datums.{IsOfDocument};
ghost use Rattle.row_values.specs.Rows.{RowsLieIn};
ghost use Rattle.scalar_ops.specs.Views.{term_of};
ghost use Rattle.aql_typed.specs.Meaning.{row_of};

use row_values::{Row, Rows};
use scalar_ops::{Expr, Exprs, Tools, eval};
use span_token::{Document, OutOfMemory};
use std::alloc::Global;

/// The values of expressions for a row.
pub fn values_for<'d>(
    alloc: Global,
    tools: &mut Tools<'_>,
    doc: &Document<'d>,
    row: &Row<'d>,
    items: &'d [Expr],
) -> Result<Row<'d>, OutOfMemory>
    requires in_document { All (IsOfDocument doc.now) row.now }
    ensures row { IfOk result (λ found. found ≡ row_of tools.old doc.now (map term_of items.now) row.now) }
    ensures lies { IfOk result (λ found. All (IsOfDocument doc.now) found) }
    ensures same { tools.new ≡ tools.old }
{
    let mut found = Row::empty(alloc);
    for item in items {
        let value = eval(tools, doc, row, item)?;
        found.push(value)?;
    }
    Ok(found)
}

/// One row for each row: the values of the expressions.
pub fn values_for_each<'d>(
    alloc: Global,
    tools: &mut Tools<'_>,
    doc: &Document<'d>,
    rows: &[Row<'d>],
    items: &'d Exprs,
) -> Result<Rows<'d>, OutOfMemory>
    requires in_document { RowsLieIn doc.now rows.now }
    ensures rows { IfOk result (λ out. out.rows ≡ map (row_of tools.old doc.now items.now) rows.now) }
    ensures width { IfOk result (λ out. out.width ≡ length items.now) }
    ensures lies { IfOk result (λ out. RowsLieIn doc.now out.rows) }
    ensures same { tools.new ≡ tools.old }
{
    let items = items.as_slice();
    let Ok(width) = u32::try_from(items.len()) else {
        return Err(OutOfMemory);
    };
    let mut out = Rows::new(alloc, width);
    for row in rows {
        out.push(values_for(alloc, tools, doc, row, items)?)?;
    }
    Ok(out)
}
