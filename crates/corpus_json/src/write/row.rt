ghost use Rattle.std.specs.Prelude.{◌≡◌, ◌++◌, ◌∷◌, [], All, OnOk, false, length, map};
ghost use Rattle.serde_json.specs.Written.{comma_if};
ghost use Rattle.row_values.specs.Datums.{IsOfDocument, datum_of};
ghost use Rattle.row_values.specs.Rows.{RowsLieIn};
ghost use Rattle.corpus_json.specs.NameIndexes.{column_index};
ghost use Rattle.corpus_json.specs.Sections.{HasColumns};
ghost use Rattle.corpus_json.specs.Writing.{row_text, row_listed, array_text};

use super::key::write_key;
use super::member::Column;
use super::value::write_value;
use row_values::{Row, Value};
use span_token::{Document, OutOfMemory};

/// Writes the rows of an array, with its closing bracket.
#[tactic(auto, unfolding(crate::specs::Writing::row_text, crate::specs::Writing::array_text))]
pub(crate) fn write_rows(
    out: &mut Vec<u8>,
    document: &Document<'_>,
    columns: &[Column<'_>],
    rows: &[Row<'_>],
) -> Result<(), OutOfMemory>
    requires columns { All (λ row. HasColumns columns.now (length row)) rows.now }
    requires in_document { RowsLieIn document.now rows.now }
    ensures { OnOk result (out.new.items ≡ out.old.items ++ array_text false (map (row_listed document.now (map column_index columns.now)) rows.now)) }
{
    let mut later = false;
    'rows: for row in rows {
        write_row(out, document, columns, row.values(), later)?;
        later = true;
    }
    out.push(b']')?;
    Ok(())
}

/// The same of rows that are borrowed one by one.
#[tactic(auto, unfolding(crate::specs::Writing::row_text, crate::specs::Writing::array_text))]
pub(crate) fn write_row_references(
    out: &mut Vec<u8>,
    document: &Document<'_>,
    columns: &[Column<'_>],
    rows: &[&Row<'_>],
) -> Result<(), OutOfMemory>
    requires columns { All (λ row. HasColumns columns.now (length row.now)) rows.now }
    requires in_document { All (λ row. All (IsOfDocument document.now) row.now) rows.now }
    ensures { OnOk result (out.new.items ≡ out.old.items ++ array_text false (map (row_listed document.now (map column_index columns.now)) (map (λ row. row.now) rows.now))) }
{
    let mut later = false;
    'rows: for row in rows {
        write_row(out, document, columns, row.values(), later)?;
        later = true;
    }
    out.push(b']')?;
    Ok(())
}

/// Writes a row: the values under the names of their columns, as the columns stand, with a comma where a row stands before.
#[tactic(auto, unfolding(crate::specs::Writing::row_text))]
fn write_row(
    out: &mut Vec<u8>,
    document: &Document<'_>,
    columns: &[Column<'_>],
    row: &[Value<'_>],
    later: bool,
) -> Result<(), OutOfMemory>
    requires columns { HasColumns columns.now (length row.now) }
    requires in_document { All (λ value. IsOfDocument document.now (datum_of value)) row.now }
    ensures { OnOk result (out.new.items ≡ out.old.items ++ (comma_if later ++ (123 ∷ row_text false document.now (map column_index columns.now) (map datum_of row.now)))) }
{
    begin_row(out, later)?;
    let mut behind = false;
    'columns: for column in columns {
        write_key(out, &column.key, behind)?;
        write_value(out, document, row[column.index])?;
        behind = true;
    }
    out.push(b'}')?;
    Ok(())
}

#[inline(always)]
fn begin_row(out: &mut Vec<u8>, later: bool) -> Result<(), OutOfMemory>
    ensures { OnOk result (out.new.items ≡ out.old.items ++ (comma_if later ++ 123 ∷ [])) }
{
    if later {
        out.extend_from_slice(b",{")?;
    } else {
        out.push(b'{')?;
    }
    Ok(())
}
