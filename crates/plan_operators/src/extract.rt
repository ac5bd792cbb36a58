ghost use Rattle.std.specs.Prelude.{◌≡◌, ◌+◌, IfOk, length, map};
ghost use Rattle.row_values.specs.Rows.{RowsLieIn};
ghost use Rattle.aql_typed.specs.Fitting.{found_width};
ghost use Rattle.aql_typed.specs.Meaning.{row_of};
ghost use Rattle.algebra.specs.Operators.{with_found};
ghost use Rattle.row_operators.specs.Searches.{extraction_for, HasRuns};

use row_operators::{Search, columns_of_both, push_found, push_found_values};
use row_values::Rows;
use scalar_ops::{Exprs, Tools};
use span_token::{Document, OutOfMemory};
use std::alloc::Global;

/// `Regex`, `TokenRegex`, and what a restricted join looks for: each row, followed by the spans of each
/// match that is found in it.
pub(crate) fn with_found<'d>(
    alloc: Global,
    tools: &mut Tools<'_>,
    doc: &Document<'d>,
    rows: &Rows<'d>,
    search: Search<'_>,
) -> Result<Rows<'d>, OutOfMemory>
    requires in_document { RowsLieIn doc.now rows.now.rows }
    requires runs { HasRuns (extraction_for search) }
    ensures rows { IfOk result (λ out. out.rows ≡ with_found tools.old doc.now (extraction_for search.entry) rows.now.rows) }
    ensures width { IfOk result (λ out. out.width ≡ rows.now.width + found_width (extraction_for search.entry)) }
    ensures lies { IfOk result (λ out. RowsLieIn doc.now out.rows) }
    ensures same { tools.new ≡ tools.old }
{
    let width = columns_of_both(rows.width() as usize, search.width())?;
    let mut found = Vec::new(alloc);
    let mut out = Rows::new(alloc, width);
    for row in rows.as_slice() {
        push_found(alloc, tools, doc, row, search, row, &mut found, &mut out)?;
    }
    Ok(out)
}

/// A projection of `Regex` or `TokenRegex`: for each row and each match that is found in it, the values of
/// expressions for the row, followed by the spans of the match. No list of these rows is made.
pub(crate) fn found_values<'d>(
    alloc: Global,
    tools: &mut Tools<'_>,
    doc: &Document<'d>,
    rows: &Rows<'d>,
    search: Search<'_>,
    items: &'d Exprs,
) -> Result<Rows<'d>, OutOfMemory>
    requires in_document { RowsLieIn doc.now rows.now.rows }
    requires runs { HasRuns (extraction_for search) }
    ensures rows { IfOk result (λ out. out.rows ≡ map (row_of tools.old doc.now items.now) (with_found tools.old doc.now (extraction_for search.entry) rows.now.rows)) }
    ensures width { IfOk result (λ out. out.width ≡ length items.now) }
    ensures lies { IfOk result (λ out. RowsLieIn doc.now out.rows) }
    ensures same { tools.new ≡ tools.old }
{
    let items = items.as_slice();
    let mut found = Vec::new(alloc);
    let mut out = Rows::new(alloc, columns_of_both(items.len(), 0)?);
    for row in rows.as_slice() {
        push_found_values(
            alloc, tools, doc, row, search, row, items, &mut found, &mut out,
        )?;
    }
    Ok(out)
}
