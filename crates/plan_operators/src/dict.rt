ghost use Rattle.std.specs.Prelude.{◌≡◌, ◌+◌, ◌++◌, IfOk, OnOk, All, length, map};
ghost use Rattle.std.specs.List.{flat_map};
ghost use Rattle.span_token.specs.Extents.{extent_of};
ghost use Rattle.row_values.specs.Datums.{IsOfDocument};
ghost use Rattle.row_values.specs.Rows.{RowsLieIn};
ghost use Rattle.dict_match.specs.Rows.{dict_and_extent, extents_for};
ghost use Rattle.algebra.specs.Operators.{marked_in};
ghost use Rattle.plan_operators.specs.DictNumbers.{with_number, numbered_rows};

use dict_match::DictMatch;
use row_operators::{columns_of_both, source_in};
use row_values::{Row, Rows, Value};
use scalar_ops::Tools;
use span_token::{Document, OutOfMemory, Span};
use std::alloc::Global;

/// `Dict`: each row, followed by the number of a dictionary and by a span, for each match of each of the
/// dictionaries. A row is walked once for all of them.
pub(crate) fn with_numbers<'d>(
    alloc: Global,
    tools: &mut Tools<'_>,
    doc: &Document<'d>,
    rows: &Rows<'d>,
    column: u32,
    dicts: &[u32],
) -> Result<Rows<'d>, OutOfMemory>
    requires in_document { RowsLieIn doc.now rows.now.rows }
    ensures rows { IfOk result (λ out. out.rows ≡ flat_map (marked_in tools.old doc.now column dicts.now) rows.now.rows) }
    ensures width { IfOk result (λ out. out.width ≡ rows.now.width + 2) }
    ensures lies { IfOk result (λ out. RowsLieIn doc.now out.rows) }
    ensures same { tools.new ≡ tools.old }
{
    let width = columns_of_both(rows.width() as usize, 2)?;
    let mut found = Vec::new(alloc);
    let mut out = Rows::new(alloc, width);
    for row in rows.as_slice() {
        push_matches(alloc, tools, doc, row, column, dicts, &mut found, &mut out)?;
    }
    Ok(out)
}

/// Puts the row, followed by a dictionary's number and a span, after the others, for each match of each
/// dictionary.
fn push_matches<'d>(
    alloc: Global,
    tools: &mut Tools<'_>,
    doc: &Document<'d>,
    row: &Row<'d>,
    column: u32,
    dicts: &[u32],
    found: &mut Vec<DictMatch>,
    into: &mut Rows<'d>,
) -> Result<(), OutOfMemory>
    requires in_document { All (IsOfDocument doc.now) row.now }
    requires width { length row.now + 2 ≡ into.old.width }
    ensures rows { OnOk result (into.new ≡ record { width = into.old.width; rows = into.old.rows ++ marked_in tools.old doc.now column dicts.now row.now }) }
    ensures lies { RowsLieIn doc.now into.old.rows → OnOk result (RowsLieIn doc.now into.new.rows) }
    ensures same { tools.new ≡ tools.old }
{
    match source_in(doc, row, column) {
        Some(source) => {
            tools.find_dict_matches(doc, source, found)?;
            push_dicts(alloc, row, dicts, found.as_slice(), into)?;
            Ok(())
        }
        None => Ok(()),
    }
}

/// Puts the row, followed by a dictionary's number and a span, after the others, for each of the matches that
/// are the dictionary's, one dictionary after another.
fn push_dicts<'d>(
    alloc: Global,
    row: &Row<'d>,
    dicts: &[u32],
    found: &[DictMatch],
    into: &mut Rows<'d>,
) -> Result<(), OutOfMemory>
    requires width { length row.now + 2 ≡ into.old.width }
    ensures { OnOk result (into.new ≡ record { width = into.old.width; rows = into.old.rows ++ numbered_rows row.now (map dict_and_extent found.now) dicts.now }) }
{
    let Ok(count) = u32::try_from(dicts.len()) else {
        return Err(OutOfMemory);
    };
    for number in 0..count {
        push_dict(alloc, row, number, dicts[number as usize], found, into)?;
    }
    Ok(())
}

/// Puts the row, followed by the number and a span, after the others, for each of the matches that are the
/// dictionary's.
fn push_dict<'d>(
    alloc: Global,
    row: &Row<'d>,
    number: u32,
    dict: u32,
    found: &[DictMatch],
    into: &mut Rows<'d>,
) -> Result<(), OutOfMemory>
    requires width { length row.now + 2 ≡ into.old.width }
    ensures { OnOk result (into.new ≡ record { width = into.old.width; rows = into.old.rows ++ map (with_number row.now number) (extents_for dict (map dict_and_extent found.now)) }) }
{
    for one in found {
        if one.dict == dict as usize {
            into.push(marked(alloc, row, number, one.span)?)?;
        }
    }
    Ok(())
}

/// The row, followed by a dictionary's number and a span.
fn marked<'d>(alloc: Global, row: &Row<'d>, number: u32, span: Span) -> Result<Row<'d>, OutOfMemory>
    ensures { IfOk result (λ out. out ≡ with_number row.now number (extent_of span)) }
{
    let mut out = row.copy(alloc)?;
    out.push(Value::Int(i64::from(number)))?;
    out.push(Value::Span(span))?;
    Ok(out)
}
