ghost use Rattle.std.specs.Prelude.{◌≡◌, ◌+◌, IfOk, map, length};
ghost use Rattle.std.specs.List.{flat_map};
ghost use Rattle.row_values.specs.Rows.{RowsLieIn};
ghost use Rattle.scalar_ops.specs.Views.{term_of};
ghost use Rattle.aql_typed.specs.Fitting.{found_width, extract_width, FitsExtraction};
ghost use Rattle.aql_typed.specs.Meaning.{extracted_from, extracted};
ghost use Rattle.aql_typed.specs.Views.{extraction_of, extract_clauses_of};
ghost use Rattle.row_operators.specs.Searches.{extraction_for, HasRuns};

use aql_typed::{ExtractClauses, Extraction};
use row_operators::{Search, blocks_in, columns_of_both, push_found, values_for};
use row_values::{Row, Rows};
use scalar_ops::{Expr, Tools};
use span_token::{Document, OutOfMemory};
use std::alloc::Global;

/// What is extracted from the rows of the source: for each the items' values, followed by what is found.
pub(crate) fn extracted<'d>(
    alloc: Global,
    tools: &mut Tools<'_>,
    doc: &Document<'d>,
    rows: &[Row<'d>],
    clauses: &'d ExtractClauses,
) -> Result<Rows<'d>, OutOfMemory>
    requires in_document { RowsLieIn doc.now rows.now }
    requires fits { FitsExtraction (extract_clauses_of clauses.now) (extraction_of clauses.now.extraction) }
    ensures rows { IfOk result (λ out. out.rows ≡ extracted tools.old doc.now clauses.now.items (extraction_of clauses.now.extraction) rows.now) }
    ensures width { IfOk result (λ out. out.width ≡ extract_width (extract_clauses_of clauses.now)) }
    ensures lies { IfOk result (λ out. RowsLieIn doc.now out.rows) }
    ensures same { tools.new ≡ tools.old }
{
    let items = clauses.items.as_slice();
    match &clauses.extraction {
        Extraction::Blocks {
            column,
            low,
            high,
            gap_low,
            gap_high,
            tokens,
        } => {
            let out = blocks_in(
                alloc, doc, rows, *column, *low, *high, *gap_low, *gap_high, *tokens,
            )?;
            Ok(out)
        }
        Extraction::Regex {
            column,
            pattern,
            groups,
        } => {
            let search = Search::Regex {
                column: *column,
                pattern: *pattern,
                groups: groups.as_slice(),
            };
            each_extracted(alloc, tools, doc, rows, search, items)
        }
        Extraction::TokenRegex {
            column,
            low,
            high,
            pattern,
            groups,
        } => {
            let search = Search::TokenRegex {
                column: *column,
                low: *low,
                high: *high,
                pattern: *pattern,
                groups: groups.as_slice(),
            };
            each_extracted(alloc, tools, doc, rows, search, items)
        }
        Extraction::Dict { column, dict } => {
            let search = Search::Dict {
                column: *column,
                dict: *dict,
            };
            each_extracted(alloc, tools, doc, rows, search, items)
        }
    }
}

/// What is extracted from each row of the source.
fn each_extracted<'d>(
    alloc: Global,
    tools: &mut Tools<'_>,
    doc: &Document<'d>,
    rows: &[Row<'d>],
    search: Search<'_>,
    items: &'d [Expr],
) -> Result<Rows<'d>, OutOfMemory>
    requires in_document { RowsLieIn doc.now rows.now }
    requires runs { HasRuns (extraction_for search) }
    ensures rows { IfOk result (λ out. out.rows ≡ flat_map (extracted_from tools.old doc.now (map term_of items.now) (extraction_for search.entry)) rows.now) }
    ensures width { IfOk result (λ out. out.width ≡ length items.now + found_width (extraction_for search.entry)) }
    ensures lies { IfOk result (λ out. RowsLieIn doc.now out.rows) }
    ensures same { tools.new ≡ tools.old }
{
    let width = columns_of_both(items.len(), search.width())?;
    let mut found = Vec::new(alloc);
    let mut out = Rows::new(alloc, width);
    for row in rows {
        let lead = values_for(alloc, tools, doc, row, items)?;
        push_found(alloc, tools, doc, row, search, &lead, &mut found, &mut out)?;
    }
    Ok(out)
}
