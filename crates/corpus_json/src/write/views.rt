ghost use Rattle.std.specs.Prelude.{◌≡◌, ◌++◌, All, OnOk, false, length, map};
ghost use Rattle.serde_json.specs.Written.{compact_text};
ghost use Rattle.row_values.specs.Rows.{RowsLieIn, sorted};
ghost use Rattle.corpus_json.specs.Outputs.{rows_data, rows_of, width_of};
ghost use Rattle.corpus_json.specs.NameIndexes.{column_index};
ghost use Rattle.corpus_json.specs.Sections.{section_of, HasColumns, HasRows};
ghost use Rattle.corpus_json.specs.Writing.{array_text, row_listed, views_text};

use super::key::write_key;
use super::member::{Column, Member};
use super::row::{write_row_references, write_rows};
use row_values::{Rows, is_in_order};
use span_token::{Document, OutOfMemory};
use std::alloc::Global;

/// Writes the members of `views`, with their closing brace.
#[tactic(auto, unfolding(crate::specs::Writing::views_text))]
pub(crate) fn write_views(
    alloc: Global,
    out: &mut Vec<u8>,
    document: &Document<'_>,
    members: &[Member<'_>],
    rows: &[&Rows<'_>],
) -> Result<(), OutOfMemory>
    requires rows { All (HasRows (map width_of rows.now)) members.now }
    requires in_document { All (RowsLieIn document.now) (map rows_of rows.now) }
    ensures { OnOk result (out.new.items ≡ out.old.items ++ views_text false document.now (map rows_of rows.now) (map section_of members.now)) }
{
    let mut later = false;
    'members: for member in members {
        write_key(out, &member.key, later)?;
        write_list(alloc, out, document, member, rows[member.index])?;
        later = true;
    }
    out.push(b'}')?;
    Ok(())
}

/// Writes the array of an output's rows, in row order.
#[tactic(auto, unfolding(crate::specs::Writing::array_text))]
fn write_list(
    alloc: Global,
    out: &mut Vec<u8>,
    document: &Document<'_>,
    member: &Member<'_>,
    rows: &Rows<'_>,
) -> Result<(), OutOfMemory>
    requires width { rows.now.width ≡ length member.now.output.now.columns }
    requires in_document { RowsLieIn document.now rows.now.rows }
    ensures { OnOk result (out.new.items ≡ out.old.items ++ compact_text (rows_data document.now member.now.output.now rows.now.rows)) }
{
    let _width = rows.width();
    out.push(b'[')?;
    write_in_order(alloc, out, document, member.columns.as_slice(), rows)?;
    Ok(())
}

/// Writes the rows in row order, with the array's closing bracket.
fn write_in_order(
    alloc: Global,
    out: &mut Vec<u8>,
    document: &Document<'_>,
    columns: &[Column<'_>],
    rows: &Rows<'_>,
) -> Result<(), OutOfMemory>
    requires columns { HasColumns columns.now rows.now.width }
    requires in_document { RowsLieIn document.now rows.now.rows }
    ensures { OnOk result (out.new.items ≡ out.old.items ++ array_text false (map (row_listed document.now (map column_index columns.now)) (sorted rows.now.rows))) }
{
    let _width = rows.width();
    if is_in_order(rows) {
        return write_rows(out, document, columns, rows.as_slice());
    }
    write_sorted(alloc, out, document, columns, rows)
}

/// Writes rows that are not in row order.
#[tactic(auto, unfolding(crate::specs::Writing::array_text))]
fn write_sorted(
    alloc: Global,
    out: &mut Vec<u8>,
    document: &Document<'_>,
    columns: &[Column<'_>],
    rows: &Rows<'_>,
) -> Result<(), OutOfMemory>
    requires columns { HasColumns columns.now rows.now.width }
    requires in_document { RowsLieIn document.now rows.now.rows }
    ensures { OnOk result (out.new.items ≡ out.old.items ++ array_text false (map (row_listed document.now (map column_index columns.now)) (sorted rows.now.rows))) }
{
    let _width = rows.width();
    let sorted = rows.sorted(alloc)?;
    write_row_references(out, document, columns, sorted.as_slice())?;
    Ok(())
}
