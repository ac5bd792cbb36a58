ghost use Rattle.std.specs.Prelude.{◌≡◌, ◌+◌, ◌*◌, ◌∷◌, [], ◌++◌, true, false, IfOk, OnOk, map, length, All, option_map};
ghost use Rattle.span_token.specs.Documents.{Doc};
ghost use Rattle.span_token.specs.Extents.{extent_of};
ghost use Rattle.row_values.specs.Datums.{IsOfDocument, datum_of};
ghost use Rattle.row_values.specs.Rows.{RowsLieIn, value_in};
ghost use Rattle.aql_regex_extract.specs.Matches.{extents_of};
ghost use Rattle.aql_regex_extract.specs.Steps.{cut_rows};
ghost use Rattle.aql_typed.specs.Fitting.{found_width};
ghost use Rattle.scalar_ops.specs.Tables.{Lists};
ghost use Rattle.scalar_ops.specs.Views.{term_of};
ghost use Rattle.aql_typed.specs.Meaning.{group_value, found_in, row_of};
ghost use Rattle.row_operators.specs.Searches.{extraction_for, HasRuns, IsFoundIn};

use crate::search::{Search, find};
use crate::values::values_for;
use row_values::{Row, Rows, Value};
use scalar_ops::{Expr, Tools};
use span_token::{Document, OutOfMemory, Span};
use std::alloc::Global;

/// Puts a row for each match in a row of the document after the others: the values of `lead`, followed by
/// the spans of the groups, Null for one that takes no part. `found` is room for matches, kept from row to
/// row; what it held is gone.
///
/// After want of memory no clause says what `into` holds.
///
/// Meaning: `found_in`, `specs/Meaning.antt` of `aql_typed`.
pub fn push_found<'d>(
    alloc: Global,
    tools: &mut Tools<'_>,
    doc: &Document<'d>,
    row: &Row<'d>,
    search: Search<'_>,
    lead: &Row<'d>,
    found: &mut Vec<Option<Span>>,
    into: &mut Rows<'d>,
) -> Result<(), OutOfMemory>
    requires in_document { All (IsOfDocument doc.now) row.now }
    requires lead_in_document { All (IsOfDocument doc.now) lead.now }
    requires runs { HasRuns (extraction_for search) }
    requires width { length lead.now + found_width (extraction_for search) ≡ into.old.width }
    ensures rows { OnOk result (into.new ≡ record { width = into.old.width; rows = into.old.rows ++ map (λ groups. lead.now ++ map group_value groups) (found_in tools.old doc.now (extraction_for search.entry) row.now) }) }
    ensures lies { RowsLieIn doc.now into.old.rows → OnOk result (RowsLieIn doc.now into.new.rows) }
    ensures same { tools.new ≡ tools.old }
{
    let number = find(alloc, tools, doc, row, search, found)?;
    push_cut(alloc, lead, found.as_slice(), number, search.width(), into)?;
    Ok(())
}

/// Puts a row for each match in a row of the document after the others: the values of expressions for the row
/// that `push_found` would put, of which no list is made. `found` is room for matches, kept from row to row;
/// what it held is gone.
///
/// After want of memory no clause says what `into` holds.
///
/// Meaning: `found_in`, `row_of`, `specs/Meaning.antt` of `aql_typed`.
pub fn push_found_values<'d>(
    alloc: Global,
    tools: &mut Tools<'_>,
    doc: &Document<'d>,
    row: &Row<'d>,
    search: Search<'_>,
    lead: &Row<'d>,
    items: &'d [Expr],
    found: &mut Vec<Option<Span>>,
    into: &mut Rows<'d>,
) -> Result<(), OutOfMemory>
    requires in_document { All (IsOfDocument doc.now) row.now }
    requires lead_in_document { All (IsOfDocument doc.now) lead.now }
    requires runs { HasRuns (extraction_for search) }
    requires width { length items.now ≡ into.old.width }
    ensures rows { OnOk result (into.new ≡ record { width = into.old.width; rows = into.old.rows ++ map (λ groups. row_of tools.old doc.now (map term_of items.now) (lead.now ++ map group_value groups)) (found_in tools.old doc.now (extraction_for search.entry) row.now) }) }
    ensures lies { RowsLieIn doc.now into.old.rows → OnOk result (RowsLieIn doc.now into.new.rows) }
    ensures same { tools.new ≡ tools.old }
{
    let number = find(alloc, tools, doc, row, search, found)?;
    push_cut_values(
        alloc,
        tools,
        doc,
        lead,
        found.as_slice(),
        number,
        search.width(),
        items,
        into,
    )?;
    Ok(())
}

/// Puts so many rows after the others: each the values of expressions for the values of `lead`, followed by the
/// spans of so many groups.
fn push_cut_values<'d>(
    alloc: Global,
    tools: &mut Tools<'_>,
    doc: &Document<'d>,
    lead: &Row<'d>,
    found: &[Option<Span>],
    number: usize,
    width: usize,
    items: &'d [Expr],
    into: &mut Rows<'d>,
) -> Result<(), OutOfMemory>
    requires lead_in_document { All (IsOfDocument doc.now) lead.now }
    requires found_in_document { All (IsFoundIn doc.now) found.now }
    requires width { length items.now ≡ into.old.width }
    requires whole { length found.now ≡ number * width }
    ensures rows { OnOk result (into.new ≡ record { width = into.old.width; rows = into.old.rows ++ map (λ groups. row_of tools.old doc.now (map term_of items.now) (lead.now ++ map group_value groups)) (cut_rows number width (extents_of found.now)) }) }
    ensures lies { RowsLieIn doc.now into.old.rows → OnOk result (RowsLieIn doc.now into.new.rows) }
    ensures same { tools.new ≡ tools.old }
{
    into.reserve(number)?;
    let mut rest = found;
    let mut left = number;
    'cuts: while left > 0 {
        let (groups, others) = rest.split_at(width);
        push_values(alloc, tools, doc, lead, groups, items, into)?;
        rest = others;
        left -= 1;
    }
    Ok(())
}

/// Puts the values of expressions for the values of `lead`, followed by the spans of groups, after the others.
fn push_values<'d>(
    alloc: Global,
    tools: &mut Tools<'_>,
    doc: &Document<'d>,
    lead: &Row<'d>,
    groups: &[Option<Span>],
    items: &'d [Expr],
    into: &mut Rows<'d>,
) -> Result<(), OutOfMemory>
    requires lead_in_document { All (IsOfDocument doc.now) lead.now }
    requires found_in_document { All (IsFoundIn doc.now) groups.now }
    requires width { length items.now ≡ into.old.width }
    ensures rows { OnOk result (into.new ≡ record { width = into.old.width; rows = into.old.rows ++ row_of tools.old doc.now (map term_of items.now) (lead.now ++ map group_value (extents_of groups.now)) ∷ [] }) }
    ensures lies { RowsLieIn doc.now into.old.rows → OnOk result (RowsLieIn doc.now into.new.rows) }
    ensures same { tools.new ≡ tools.old }
{
    if push_columns(alloc, lead, groups, items, into)? {
        return Ok(());
    }
    let row = row_with(alloc, lead, groups)?;
    into.push(values_for(alloc, tools, doc, &row, items)?)?;
    Ok(())
}

/// Puts the values of expressions for the values of `lead`, followed by the spans of groups, after the others, where
/// each expression is a column: the row that they are for isn't made then. False, and nothing is put, where one isn't.
fn push_columns<'d>(
    alloc: Global,
    lead: &Row<'d>,
    groups: &[Option<Span>],
    items: &[Expr],
    into: &mut Rows<'d>,
) -> Result<bool, OutOfMemory>
    requires width { length items.now ≡ into.old.width }
    ensures put { (lists : Lists) (doc : Doc) → IfOk result (λ put. put ≡ true → into.new ≡ record { width = into.old.width; rows = into.old.rows ++ row_of lists doc (map term_of items.now) (lead.now ++ map group_value (extents_of groups.now)) ∷ [] }) }
    ensures none { IfOk result (λ put. put ≡ false → into.new ≡ into.old) }
    ensures lies { (doc : Doc) → All (IsOfDocument doc) lead.now → All (IsFoundIn doc) groups.now → RowsLieIn doc into.old.rows → OnOk result (RowsLieIn doc into.new.rows) }
{
    let mut row = Row::empty(alloc);
    for item in items {
        match item {
            Expr::Column(n) => row.push(value_at(lead, groups, *n))?,
            _ => return Ok(false),
        }
    }
    into.push(row)?;
    Ok(true)
}

/// The value in a column of the values of `lead`, followed by the spans of groups; Null where there is no such column.
#[inline(always)]
fn value_at<'d>(lead: &Row<'d>, groups: &[Option<Span>], column: u32) -> Value<'d>
    ensures value { datum_of result ≡ value_in (lead.now ++ map group_value (extents_of groups.now)) column }
    ensures lies { (doc : Doc) → All (IsOfDocument doc) lead.now → All (IsFoundIn doc) groups.now → IsOfDocument doc (datum_of result) }
{
    let values = lead.values();
    let index = column as usize;
    if index < values.len() {
        values[index]
    } else if index - values.len() < groups.len() {
        value_of(groups[index - values.len()])
    } else {
        Value::Null
    }
}

/// Puts so many rows after the others: each the values of `lead`, followed by the spans of so many groups.
fn push_cut<'d>(
    alloc: Global,
    lead: &Row<'d>,
    found: &[Option<Span>],
    number: usize,
    width: usize,
    into: &mut Rows<'d>,
) -> Result<(), OutOfMemory>
    requires width { length lead.now + width ≡ into.old.width }
    requires whole { length found.now ≡ number * width }
    ensures { OnOk result (into.new ≡ record { width = into.old.width; rows = into.old.rows ++ map (λ groups. lead.now ++ map group_value groups) (cut_rows number width (extents_of found.now)) }) }
{
    into.reserve(number)?;
    let mut rest = found;
    let mut left = number;
    'cuts: while left > 0 {
        let (groups, others) = rest.split_at(width);
        push_groups(alloc, lead, groups, into)?;
        rest = others;
        left -= 1;
    }
    Ok(())
}

/// Puts a row of the values of `lead`, followed by the spans of groups, after the others.
fn push_groups<'d>(
    alloc: Global,
    lead: &Row<'d>,
    groups: &[Option<Span>],
    into: &mut Rows<'d>,
) -> Result<(), OutOfMemory>
    requires width { length lead.now + length groups.now ≡ into.old.width }
    ensures { OnOk result (into.new ≡ record { width = into.old.width; rows = into.old.rows ++ (lead.now ++ map group_value (extents_of groups.now)) ∷ [] }) }
{
    into.push(row_with(alloc, lead, groups)?)?;
    Ok(())
}

/// The values of `lead`, followed by the spans of groups.
fn row_with<'d>(
    alloc: Global,
    lead: &Row<'d>,
    groups: &[Option<Span>],
) -> Result<Row<'d>, OutOfMemory>
    ensures { IfOk result (λ row. row ≡ lead.now ++ map group_value (extents_of groups.now)) }
{
    let mut row = lead.copy(alloc)?;
    for group in groups {
        row.push(value_of(*group))?;
    }
    Ok(row)
}

/// The value of a group: its span, Null where it takes no part.
fn value_of<'d>(group: Option<Span>) -> Value<'d>
    ensures { datum_of result ≡ group_value (option_map extent_of group) }
{
    match group {
        Some(span) => Value::Span(span),
        None => Value::Null,
    }
}
