ghost use Rattle.std.specs.Prelude.{◌≡◌, IfOk};
ghost use Rattle.row_values.specs.Rows.{RowsLieIn};
ghost use Rattle.scalar_ops.specs.Tables.{Lists};
ghost use Rattle.aql_typed.specs.Meaning.{document_rows};

use row_values::{Row, Rows, Value};
use span_token::{Document, OutOfMemory};
use std::alloc::Global;

/// The document as a view: one row, the span of the whole text.
pub fn document_rows<'d>(alloc: Global, doc: &Document<'d>) -> Result<Rows<'d>, OutOfMemory>
    ensures rows { (lists : Lists) → IfOk result (λ out. out.rows ≡ document_rows lists doc.now) }
    ensures width { IfOk result (λ out. out.width ≡ 1) }
    ensures lies { IfOk result (λ out. RowsLieIn doc.now out.rows) }
{
    let mut rows = Rows::new(alloc, 1);
    rows.push(Row::single(alloc, Value::Span(doc.whole())))?;
    Ok(rows)
}
