ghost use Rattle.std.specs.Prelude.{◌≡◌, IfOk, option_map};
ghost use Rattle.row_values.specs.Rows.{RowsLieIn};
ghost use Rattle.aql_typed.specs.Meaning.{kept};
ghost use Rattle.aql_typed.specs.Views.{consolidation_of};

use aql_typed::Consolidate;
use row_operators::consolidated;
pub(crate) use row_operators::push_if;
use row_values::Rows;
use scalar_ops::Tools;
use span_token::{Document, OutOfMemory};
use std::alloc::Global;

/// The rows that a consolidation keeps, in row order; all rows where there is none.
pub(crate) fn kept<'d>(
    alloc: Global,
    tools: &mut Tools<'_>,
    doc: &Document<'d>,
    rows: Rows<'d>,
    by: &'d Option<Consolidate>,
) -> Result<Rows<'d>, OutOfMemory>
    requires in_document { RowsLieIn doc.now rows.rows }
    ensures rows { IfOk result (λ out. out.rows ≡ kept tools.old doc.now (option_map consolidation_of by.now) rows.entry.rows) }
    ensures width { IfOk result (λ out. out.width ≡ rows.entry.width) }
    ensures lies { IfOk result (λ out. RowsLieIn doc.now out.rows) }
    ensures same { tools.new ≡ tools.old }
{
    match by {
        Some(by) => {
            let out = consolidated(alloc, tools, doc, rows, by.policy, &by.target)?;
            Ok(out)
        }
        None => Ok(rows),
    }
}
