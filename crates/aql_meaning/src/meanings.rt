ghost use Rattle.std.specs.Prelude.{◌≡◌, ◌<◌, List, length, map, IfOk, IfSome};
ghost use Rattle.row_values.specs.Rows.{RowsLieIn};
ghost use Rattle.scalar_ops.specs.Tables.{Lists};
ghost use Rattle.span_token.specs.Documents.{Doc};
ghost use Rattle.aql_typed.specs.Meaning.{meanings, document_rows, output_rows};
ghost use Rattle.aql_typed.specs.Trees.{Query};
ghost use Rattle.aql_typed.specs.Views.{body_of};
ghost use Rattle.aql_meaning.specs.RowLists.{rows_in, widths_in, AllLieIn};
ghost use Rattle.aql_meaning.specs.Outputs.{output_of};
ghost use Rattle.aql_typed.specs.Fitting.{widths_of};

use crate::query::slow_query;
use aql_typed::{Output, Typed};
use row_values::Rows;
use scalar_ops::Tools;
use span_token::{Document, OutOfMemory};
use std::alloc::Global;

/// The rows of each view of a program on a document, by the views' numbers. Each view is evaluated once.
///
/// Meaning: `meanings`, `specs/Meaning.antt` of `aql_typed`.
pub fn slow<'d>(
    alloc: Global,
    tools: &mut Tools<'_>,
    doc: &Document<'d>,
    typed: &'d Typed,
) -> Result<Vec<Rows<'d>>, OutOfMemory>
    requires of_program { tools.old ≡ typed.now.1.0 }
    ensures rows { IfOk result (λ views. rows_in views.items ≡ meanings typed.now.1.0 doc.now (map body_of typed.now.0)) }
    ensures widths { IfOk result (λ views. widths_in views.items ≡ widths_of (map body_of typed.now.0)) }
    ensures lies { IfOk result (λ views. AllLieIn doc.now views.items) }
    ensures same { tools.new ≡ tools.old }
{
    let mut rows = Vec::new(alloc);
    for view in typed.views() {
        let found = slow_query(alloc, tools, doc, rows.as_slice(), &view.body)?;
        rows.push(found)?;
    }
    Ok(rows)
}

/// The rows of an output: those of its view, or of the document, as `document_rows` gives them.
///
/// Meaning: `output_rows`, `specs/Meaning.antt` of `aql_typed`.
pub fn rows_for<'r, 'd>(
    views: &'r [Rows<'d>],
    document: &'r Rows<'d>,
    output: &Output,
) -> &'r Rows<'d>
    requires there { IfSome output.now.view (λ n. n < length views.now) }
    ensures list { result.now ≡ output_of views.now document.now output.now.view }
    ensures rows { (lists : Lists) (doc : Doc) (bodies : List Query) → rows_in views.now ≡ meanings lists doc bodies → document.now.rows ≡ document_rows lists doc
        → result.now.rows ≡ output_rows lists doc bodies output.now.view }
    ensures lies { (doc : Doc) → AllLieIn doc views.now → RowsLieIn doc document.now.rows → RowsLieIn doc result.now.rows }
{
    match output.view {
        Some(number) => &views[number as usize],
        None => document,
    }
}
