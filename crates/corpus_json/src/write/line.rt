ghost use Rattle.std.specs.Prelude.{◌≡◌, ◌++◌, All, IfOk, OnOk, length, map, option_map};
ghost use Rattle.serde_json.specs.Written.{compact_text};
ghost use Rattle.row_values.specs.Rows.{RowsLieIn};
ghost use Rattle.corpus_json.specs.Outputs.{output_line, line_data, rows_of, width_of};
ghost use Rattle.corpus_json.specs.Writing.{label_text};

use super::layout::Layout;
use super::text::write_text;
use super::views::write_views;
use row_values::{Output, Rows};
use span_token::{Document, OutOfMemory};
use std::alloc::Global;

/// The output line of `document`, with its LF: the rows of each output, in the order of `outputs`.
///
/// The line is serde_json's compact text of an object with the document's `label`, where it has one,
/// and `views`, which has a member for each output: the list of its rows in row order, each an object
/// from column names to values. Names stand in the order of their bytes. Rows may be given in any
/// order; equal rows are all written. Null is `null`, and a span an object with `begin` and `end`, in
/// characters of the document from 0, and its `text`.
///
/// Meaning: `output_line`, `specs/Outputs.antt`.
pub fn write_document(
    alloc: Global,
    document: &Document<'_>,
    outputs: &[Output],
    rows: &[&Rows<'_>],
) -> Result<Vec<u8>, OutOfMemory>
    requires columns { map width_of rows.now ≡ map (λ output. length output.columns) outputs.now }
    requires in_document { All (RowsLieIn document.now) (map rows_of rows.now) }
    ensures line { IfOk result (λ line. line.items ≡ output_line document.now outputs.now (map rows_of rows.now)) }
{
    let layout = Layout::new(alloc, outputs)?;
    let line = append_document(alloc, Vec::new(alloc), document, &layout, rows)?;
    Ok(line)
}

/// The bytes of `line`, and after them the output line of `document`, as `write_document` gives it.
///
/// `layout` is made once for many documents, and `line` may have room that is used again.
pub fn append_document(
    alloc: Global,
    line: Vec<u8>,
    document: &Document<'_>,
    layout: &Layout<'_>,
    rows: &[&Rows<'_>],
) -> Result<Vec<u8>, OutOfMemory>
    requires columns { map width_of rows.now ≡ map (λ output. length output.columns) layout.now }
    requires in_document { All (RowsLieIn document.now) (map rows_of rows.now) }
    ensures line { IfOk result (λ longer. longer.items ≡ line.items ++ output_line document.now layout.now (map rows_of rows.now)) }
{
    let mut longer = line;
    write_object(alloc, &mut longer, document, layout, rows)?;
    longer.push(b'\n')?;
    Ok(longer)
}

/// Writes the object of the line.
fn write_object(
    alloc: Global,
    out: &mut Vec<u8>,
    document: &Document<'_>,
    layout: &Layout<'_>,
    rows: &[&Rows<'_>],
) -> Result<(), OutOfMemory>
    requires columns { map width_of rows.now ≡ map (λ output. length output.columns) layout.now }
    requires in_document { All (RowsLieIn document.now) (map rows_of rows.now) }
    ensures { OnOk result (out.new.items ≡ out.old.items ++ compact_text (line_data document.now layout.now (map rows_of rows.now))) }
{
    write_label(out, document.label())?;
    out.extend_from_slice(b"\"views\":{")?;
    write_views(alloc, out, document, layout.members(), rows)?;
    out.push(b'}')?;
    Ok(())
}

/// Writes the opening brace and the member `label`, where there is a label.
fn write_label(out: &mut Vec<u8>, label: Option<&str>) -> Result<(), OutOfMemory>
    ensures { OnOk result (out.new.items ≡ out.old.items ++ label_text (option_map (λ label. label.now) label.entry)) }
{
    let Some(label) = label else {
        out.push(b'{')?;
        return Ok(());
    };
    out.extend_from_slice(b"{\"label\":")?;
    write_text(out, label.as_bytes())?;
    out.push(b',')?;
    Ok(())
}
