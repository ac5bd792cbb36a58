ghost use Rattle.std.specs.Prelude.{◌≡◌, ◌+◌, ◌++◌, ◌∷◌, ◌≤◌, [], OnOk, length};
ghost use Rattle.json.specs.Filled.{Placed};
ghost use Rattle.json.specs.Print.{escape, quoted};
ghost use Rattle.serde_json.specs.Find.{of_integer};
ghost use Rattle.serde_json.specs.Written.{compact_text, number_text};
ghost use Rattle.span_token.specs.Extents.{extent_of};
ghost use Rattle.span_token.specs.Documents.{LiesIn};
ghost use Rattle.row_values.specs.Datums.{IsOfDocument, datum_of};
ghost use Rattle.corpus_json.specs.Outputs.{span_data, value_data};
ghost use Rattle.corpus_json.specs.Writing.{span_head};

use super::decimal::place_decimal;
use super::place::{place, place_short};
use super::plain::is_short_plain;
use super::text::write_text;
use itoa::Buffer;
use row_values::Value;
use span_token::{Document, OutOfMemory, Span};

/// Writes a value of a row.
#[inline(always)]
pub(crate) fn write_value(
    out: &mut Vec<u8>,
    document: &Document<'_>,
    value: Value<'_>,
) -> Result<(), OutOfMemory>
    requires in_document { IsOfDocument document.now (datum_of value) }
    ensures { OnOk result (out.new.items ≡ out.old.items ++ compact_text (value_data document.now (datum_of value.entry))) }
{
    match value {
        Value::Null => out.extend_from_slice(b"null")?,
        Value::Int(n) => write_int(out, n)?,
        Value::Bool(true) => out.extend_from_slice(b"true")?,
        Value::Bool(false) => out.extend_from_slice(b"false")?,
        Value::Text(text) => write_text(out, text.as_bytes())?,
        Value::Span(span) => write_span(out, document, span)?,
    }
    Ok(())
}

/// Writes an integer in decimal.
fn write_int(out: &mut Vec<u8>, n: i64) -> Result<(), OutOfMemory>
    ensures { OnOk result (out.new.items ≡ out.old.items ++ number_text (of_integer n)) }
{
    let mut buffer = Buffer::new();
    out.extend_from_slice(buffer.format(n).as_bytes())?;
    Ok(())
}

/// Writes a span: its ends and its text.
#[inline(always)]
fn write_span(out: &mut Vec<u8>, document: &Document<'_>, span: Span) -> Result<(), OutOfMemory>
    requires in_document { LiesIn (extent_of span) document.now }
    ensures { OnOk result (out.new.items ≡ out.old.items ++ compact_text (span_data document.now (extent_of span))) }
{
    let text = document.text_of(span).as_bytes();
    if text.len() <= 32 && is_short_plain(text) {
        return write_short_span(out, span, text);
    }
    write_long_span(out, span, text)
}

/// Writes a span whose text is short and needs no escape, in room that is taken once: at most 44 bytes stand before the
/// text, and three with it.
#[inline(always)]
fn write_short_span(out: &mut Vec<u8>, span: Span, text: &[u8]) -> Result<(), OutOfMemory>
    requires short { length text.now ≤ 32 }
    requires plain { escape text.now ≡ text.now }
    ensures { OnOk result (out.new.items ≡ out.old.items ++ (span_head (extent_of span) ++ (quoted text.now ++ 125 ∷ []))) }
{
    let at = out.len();
    out.extend_from_slice(&[0; 80])?;
    let buf = out.as_mut_slice();
    let at = place_head(buf, at, span);
    let at = place(buf, at, b"\"");
    let at = place_short(buf, at, text);
    let end = place(buf, at, b"\"}");
    out.truncate(end);
    Ok(())
}

/// Writes any span.
fn write_long_span(out: &mut Vec<u8>, span: Span, text: &[u8]) -> Result<(), OutOfMemory>
    ensures { OnOk result (out.new.items ≡ out.old.items ++ (span_head (extent_of span) ++ (quoted text.now ++ 125 ∷ []))) }
{
    let at = out.len();
    out.extend_from_slice(&[0; 48])?;
    let end = place_head(out.as_mut_slice(), at, span);
    out.truncate(end);
    write_text(out, text)?;
    out.push(b'}')?;
    Ok(())
}

/// Writes all that stands before the text of a span to `at`, and gives the place behind it.
#[inline(always)]
fn place_head(buf: &mut [u8], at: usize, span: Span) -> usize
    requires { at + 44 ≤ length buf.old }
    ensures placed { Placed buf.old buf.new at (span_head (extent_of span)) result }
    ensures short { result ≤ at + 44 }
{
    let at = place(buf, at, b"{\"begin\":");
    let at = place_decimal(buf, at, span.begin);
    let at = place(buf, at, b",\"end\":");
    let at = place_decimal(buf, at, span.end);
    place(buf, at, b",\"text\":")
}
