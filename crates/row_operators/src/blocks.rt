ghost use Rattle.std.specs.Prelude.{◌≡◌, ◌∷◌, [], ◌++◌, OnOk, IfOk, map, All, option_to_list};
ghost use Rattle.std.specs.List.{filter_map};
ghost use Rattle.span_token.specs.Documents.{LiesIn};
ghost use Rattle.span_token.specs.Extents.{extent_of};
ghost use Rattle.row_values.specs.Rows.{RowsLieIn, span_in};
ghost use Rattle.span_sets.specs.Blocks.{is_neighbour, blocks_of};
ghost use Rattle.aql_typed.specs.Meaning.{one_column};

use crate::search::source_in;
use row_values::{Row, Rows, Value};
use span_sets::blocks;
use span_token::{Document, OutOfMemory, Span};
use std::alloc::Global;

/// One row for each run of `low` to `high` neighbours among the spans in a column of all rows, with
/// `gap_low` to `gap_high` characters, or tokens, between two of them.
///
/// Meaning: `blocks_of`, `specs/Blocks.antt` of `span_sets`.
pub fn blocks_in<'d>(
    alloc: Global,
    doc: &Document<'d>,
    rows: &[Row<'d>],
    column: u32,
    low: u32,
    high: u32,
    gap_low: i64,
    gap_high: i64,
    tokens: bool,
) -> Result<Rows<'d>, OutOfMemory>
    requires in_document { RowsLieIn doc.now rows.now }
    ensures rows { IfOk result (λ out. out ≡ record { width = 1; rows = one_column (blocks_of (is_neighbour doc.now tokens gap_low gap_high) low high (filter_map (span_in column) rows.now)) }) }
    ensures lies { IfOk result (λ out. RowsLieIn doc.now out.rows) }
{
    let spans = spans_in(alloc, doc, rows, column)?;
    let found = blocks(alloc, spans, doc, low, high, gap_low, gap_high, tokens)?;
    let out = rows_of(alloc, doc, found.as_slice())?;
    Ok(out)
}

/// The spans in a column of all rows.
fn spans_in<'d>(
    alloc: Global,
    doc: &Document<'d>,
    rows: &[Row<'d>],
    column: u32,
) -> Result<Vec<Span>, OutOfMemory>
    requires in_document { RowsLieIn doc.now rows.now }
    ensures spans { IfOk result (λ spans. map extent_of spans.items ≡ filter_map (span_in column) rows.now) }
    ensures lies { IfOk result (λ spans. All (λ s. LiesIn (extent_of s) doc.now) spans.items) }
{
    let mut spans = Vec::new(alloc);
    for row in rows {
        push_some(source_in(doc, row, column), &mut spans)?;
    }
    Ok(spans)
}

/// Puts a span, if there is one, after the others.
fn push_some(span: Option<Span>, spans: &mut Vec<Span>) -> Result<(), OutOfMemory>
    ensures { OnOk result (spans.new.items ≡ spans.old.items ++ option_to_list span) }
{
    if let Some(span) = span {
        spans.push(span)?;
    }
    Ok(())
}

/// One row for each span.
fn rows_of<'d>(alloc: Global, doc: &Document<'d>, spans: &[Span]) -> Result<Rows<'d>, OutOfMemory>
    requires in_document { All (λ s. LiesIn (extent_of s) doc.now) spans.now }
    ensures rows { IfOk result (λ rows. rows ≡ record { width = 1; rows = one_column (map extent_of spans.now) }) }
    ensures lies { IfOk result (λ rows. RowsLieIn doc.now rows.rows) }
{
    let mut rows = Rows::new(alloc, 1);
    for span in spans {
        rows.push(Row::single(alloc, Value::Span(*span)))?;
    }
    Ok(rows)
}
