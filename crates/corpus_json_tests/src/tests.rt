ghost use Rattle.std.specs.Prelude.{◌≡◌, ◌≢◌, ◌≤◌, All, IfOk, IsTrue, length};
ghost use Rattle.row_values.specs.Datums.{IsOfDocument, datum_of};
ghost use Rattle.row_values.specs.Rows.{RowsLieIn};

use corpus_json::{Input, Layout, NotDocument, append_document, read_document, write_document};
use row_values::{Output, Row, Rows, Value, has_distinct_names};
use span_token::{Document, Failure, OutOfMemory, OwnedList, OwnedText, Span, TEXT_LIMIT};
use std::alloc::Global;
use std::process::Abort;
use std::test::Fail;

/// What a line is: `blank`, `bad`, or the label, a bar, and the text of its document.
fn kind(alloc: Global, line: &[u8]) -> Result<String, OutOfMemory> {
    match read_document(alloc, line) {
        Ok(None) => Ok(String::from_str(alloc, "blank")?),
        Ok(Some(input)) => shown(alloc, &input),
        Err(Failure::Fault(NotDocument)) => Ok(String::from_str(alloc, "bad")?),
        Err(Failure::OutOfMemory) => Err(OutOfMemory),
    }
}

/// Checks what a line is.
fn expect_kind<R: Abort>(
    rt: &R,
    alloc: Global,
    line: &[u8],
    wanted: &str,
) -> Result<(), OutOfMemory> {
    let found = kind(alloc, line)?;
    assert_eq!(rt; found.as_str(), wanted, "{line:?}");
    Ok(())
}

fn shown(alloc: Global, input: &Input) -> Result<String, OutOfMemory> {
    let mut text = String::new(alloc);
    if let Some(label) = &input.label {
        text.push_str(label.as_str())?;
    }
    text.push_str("|")?;
    text.push_str(input.text.as_str())?;
    Ok(text)
}

/// Lines, and what they are.
static LINES: [(&str, &str); 28] = [
    ("", "blank"),
    (" \t\r ", "blank"),
    ("\u{c}", "bad"),
    (r#"{"text":"x"}"#, "|x"),
    (r#"{"text":""}"#, "|"),
    (r#"{"label":"a","text":"x 12 345"}"#, "a|x 12 345"),
    (r#"{"text":"x","label":""}"#, "|x"),
    (r#"{"label":1,"text":"x"}"#, "|x"),
    (r#"{"label":null,"text":"x"}"#, "|x"),
    (r#"{"text":"a","text":"b"}"#, "|b"),
    (r#"{"text":"a","text":1}"#, "bad"),
    (r#"{"text":1}"#, "bad"),
    (r#"{"txt":"x"}"#, "bad"),
    (r#"{"label":"text"}"#, "bad"),
    (r#"{"t":{"text":"x"}}"#, "bad"),
    (r#"["text"]"#, "bad"),
    (r#""text""#, "bad"),
    (r#"{"text":"x"} {}"#, "bad"),
    (r#"{"text":"x",}"#, "bad"),
    ("  {\"text\" :\t\"x\" } \r", "|x"),
    (r#"{"text":"\u00e9\ud83d\ude00"}"#, "|é😀"),
    (r#"{"text":"a\"b\\c\/d"}"#, "|a\"b\\c/d"),
    (r#"{"text":"\ud83d"}"#, "bad"),
    (r#"{"text":"x","n":1e999}"#, "bad"),
    (r#"{"text":"x","n":1e308,"m":[{"k":[]}]}"#, "|x"),
    ("\u{feff}{\"text\":\"x\"}", "bad"),
    ("{\"text\":\"a\u{0}b\"}", "bad"),
    ("{\"text\":\"x\"}\u{c}", "bad"),
];

#[test]
fn lines_are_blank_or_documents_or_bad(rt: HostRuntime) -> Result<(), Fail> {
    for (line, wanted) in &LINES {
        expect_kind(&rt, rt.alloc(), line.as_bytes(), wanted)?;
    }
    Ok(())
}

#[test]
fn a_cut_line_is_bad(rt: HostRuntime) -> Result<(), Fail> {
    let line = b"{\"text\":\"\xc3\xa9\"}";
    for cut in 0..line.len() {
        let wanted = if cut == 0 { "blank" } else { "bad" };
        expect_kind(&rt, rt.alloc(), &line[..cut], wanted)?;
    }
    expect_kind(&rt, rt.alloc(), line, "|é")?;
    Ok(expect_kind(&rt, rt.alloc(), b"{\"text\":\"\xff\"}", "bad")?)
}

/// An object that holds so many arrays, one in another.
fn nested(alloc: Global, arrays: usize) -> Result<Vec<u8>, OutOfMemory> {
    let mut line = b"{\"text\":\"x\",\"a\":".to_vec(alloc)?;
    for bracket in [b'[', b']'] {
        for _ in 0..arrays {
            line.push(bracket)?;
        }
    }
    line.push(b'}')?;
    Ok(line)
}

#[test]
fn objects_are_read_to_a_depth_of_127(rt: HostRuntime) -> Result<(), Fail> {
    for (arrays, wanted) in [(126, "|x"), (127, "bad")] {
        let line = nested(rt.alloc(), arrays)?;
        expect_kind(&rt, rt.alloc(), &line, wanted)?;
    }
    Ok(())
}

/// An output with these columns, whose names have to differ.
fn output(alloc: Global, name: &str, columns: &[&str]) -> Result<Output, Fail>
    ensures { IfOk result (λ output. length output.columns ≡ length columns.now) }
{
    let mut names = OwnedList::new(alloc);
    for column in columns {
        names.push(OwnedText::copied(alloc, column)?)?;
    }
    if !has_distinct_names(names.as_slice()) {
        return Err(Fail::from("two columns with one name"));
    }
    Ok(Output::new(OwnedText::copied(alloc, name)?, names)?)
}

/// An output with one column.
fn output_of_one(alloc: Global, name: &str, column: &str) -> Result<Output, Fail>
    ensures { IfOk result (λ output. length output.columns ≡ 1) }
{
    output(alloc, name, &[column])
}

/// An output with two columns.
fn output_of_two(alloc: Global, name: &str, first: &str, second: &str) -> Result<Output, Fail>
    ensures { IfOk result (λ output. length output.columns ≡ 2) }
{
    output(alloc, name, &[first, second])
}

/// Rows of one value.
fn rows_of_one<'d>(alloc: Global, values: &[Value<'d>]) -> Result<Rows<'d>, OutOfMemory>
    ensures { IfOk result (λ rows. rows.width ≡ 1) }
{
    let mut rows = Rows::new(alloc, 1);
    for value in values {
        rows.push(Row::single(alloc, *value))?;
    }
    Ok(rows)
}

/// Rows of two values.
fn rows_of_two<'d>(alloc: Global, pairs: &[(Value<'d>, Value<'d>)]) -> Result<Rows<'d>, OutOfMemory>
    ensures { IfOk result (λ rows. rows.width ≡ 2) }
{
    let mut rows = Rows::new(alloc, 2);
    for pair in pairs {
        rows.push(Row::copied(alloc, &[pair.0, pair.1])?)?;
    }
    Ok(rows)
}

fn value_fits(document: &Document<'_>, value: &Value<'_>) -> bool
    ensures { IsTrue result → IsOfDocument document.now (datum_of value.now) }
{
    match *value {
        Value::Span(span) => span.end <= document.len(),
        _ => true,
    }
}

fn row_fits(document: &Document<'_>, row: &Row<'_>) -> bool
    ensures { IsTrue result → All (IsOfDocument document.now) row.now }
{
    values_fit(document, row.values())
}

fn values_fit(document: &Document<'_>, values: &[Value<'_>]) -> bool
    ensures { IsTrue result → All (λ value. IsOfDocument document.now (datum_of value)) values.now }
{
    values.iter().all(|value| value_fits(document, value))
}

fn list_fits(document: &Document<'_>, rows: &Rows<'_>) -> bool
    ensures { IsTrue result → RowsLieIn document.now rows.now.rows }
{
    rows.as_slice().iter().all(|row| row_fits(document, row))
}

/// Checks the line of the document of a text, with a label or none, for the output `P` with the column `num`, given its
/// values row by row.
fn expect_line<R: Abort>(
    rt: &R,
    alloc: Global,
    text: &str,
    label: Option<&str>,
    values: &[Value<'_>],
    wanted: &str,
) -> Result<(), Fail> {
    assert!(rt; text.len() <= TEXT_LIMIT);
    let document = Document::new(alloc, text, label)?;
    let outputs = [output_of_one(alloc, "P", "num")?];
    let rows = rows_of_one(alloc, values)?;
    assert!(rt; list_fits(&document, &rows));
    let found = write_document(alloc, &document, &outputs, &[&rows])?;
    expect_bytes(rt, alloc, &found, wanted)?;
    Ok(())
}

/// Checks that the bytes are those of a text and an LF.
fn expect_bytes<R: Abort>(
    rt: &R,
    alloc: Global,
    found: &[u8],
    wanted: &str,
) -> Result<(), OutOfMemory> {
    let mut line = String::from_str(alloc, wanted)?;
    line.push('\n')?;
    assert_eq!(rt; found, line.as_bytes(), "{wanted}");
    Ok(())
}

fn span<'d>(begin: u32, end: u32) -> Value<'d>
    requires { begin ≤ end }
{
    Value::Span(Span { begin, end })
}

/// Texts, of which spans have all characters: so many, and what is written for them as another program quotes them
/// (Python's `json`).
static QUOTED: [(&str, u32, &str); 25] = [
    ("T", 1, "\"T\""),
    ("The", 3, "\"The\""),
    ("The ", 4, "\"The \""),
    ("The quic", 8, "\"The quic\""),
    ("The quick brown", 15, "\"The quick brown\""),
    ("The quick brown ", 16, "\"The quick brown \""),
    ("The quick brown f", 17, "\"The quick brown f\""),
    (
        "The quick brown fox jumps over ",
        31,
        "\"The quick brown fox jumps over \"",
    ),
    (
        "The quick brown fox jumps over t",
        32,
        "\"The quick brown fox jumps over t\"",
    ),
    (
        "The quick brown fox jumps over th",
        33,
        "\"The quick brown fox jumps over th\"",
    ),
    (
        "The quick brown fox jumps over the lazy dog",
        43,
        "\"The quick brown fox jumps over the lazy dog\"",
    ),
    (
        "\nThe quick brown fox jumps over the lazy dog",
        44,
        "\"\\nThe quick brown fox jumps over the lazy dog\"",
    ),
    (
        "The qui\nck brown fox jumps over the lazy dog",
        44,
        "\"The qui\\nck brown fox jumps over the lazy dog\"",
    ),
    (
        "The quick brow\nn fox jumps over the lazy dog",
        44,
        "\"The quick brow\\nn fox jumps over the lazy dog\"",
    ),
    (
        "The quick brown\n fox jumps over the lazy dog",
        44,
        "\"The quick brown\\n fox jumps over the lazy dog\"",
    ),
    (
        "The quick brown \nfox jumps over the lazy dog",
        44,
        "\"The quick brown \\nfox jumps over the lazy dog\"",
    ),
    (
        "The quick brown f\nox jumps over the lazy dog",
        44,
        "\"The quick brown f\\nox jumps over the lazy dog\"",
    ),
    (
        "The quick brown fox jumps over \nthe lazy dog",
        44,
        "\"The quick brown fox jumps over \\nthe lazy dog\"",
    ),
    (
        "The quick brown fox jumps over t\nhe lazy dog",
        44,
        "\"The quick brown fox jumps over t\\nhe lazy dog\"",
    ),
    (
        "The quick brown fox jumps over th\ne lazy dog",
        44,
        "\"The quick brown fox jumps over th\\ne lazy dog\"",
    ),
    (
        "say \"no\" and \\ go on, then back to plain text",
        45,
        "\"say \\\"no\\\" and \\\\ go on, then back to plain text\"",
    ),
    ("a\tb\rc\u{8}d\u{c}e", 9, "\"a\\tb\\rc\\bd\\fe\""),
    (
        "\u{0}\u{1}\u{1f} \u{7f}",
        5,
        "\"\\u0000\\u0001\\u001f \u{7f}\"",
    ),
    (
        "été à la plage, où il fait 30 degrés",
        36,
        "\"été à la plage, où il fait 30 degrés\"",
    ),
    (
        "ends in a quote, behind 32 bytes.\"",
        34,
        "\"ends in a quote, behind 32 bytes.\\\"\"",
    ),
];

#[test]
fn texts_of_spans_are_quoted_whatever_their_length(rt: HostRuntime) -> Result<(), Fail> {
    for (text, end, quoted) in QUOTED {
        let wanted = format!(in rt.alloc();
            "{{\"views\":{{\"P\":[{{\"num\":{{\"begin\":0,\"end\":{end},\"text\":{quoted}}}}}]}}}}"
        )?;
        expect_line(
            &rt,
            rt.alloc(),
            text,
            None,
            &[span(0, end)],
            wanted.as_str(),
        )?;
    }
    Ok(())
}

#[test]
fn texts_are_quoted_whatever_their_length(rt: HostRuntime) -> Result<(), Fail> {
    for (text, _, quoted) in QUOTED {
        let wanted = format!(in rt.alloc(); "{{\"views\":{{\"P\":[{{\"num\":{quoted}}}]}}}}")?;
        expect_line(
            &rt,
            rt.alloc(),
            "",
            None,
            &[Value::Text(text)],
            wanted.as_str(),
        )?;
    }
    Ok(())
}

#[test]
fn spans_are_written_in_row_order(rt: HostRuntime) -> Result<(), Fail> {
    let alloc = rt.alloc();
    expect_line(
        &rt,
        alloc,
        "x 12 345",
        Some("a"),
        &[span(2, 4), span(5, 8)],
        r#"{"label":"a","views":{"P":[{"num":{"begin":2,"end":4,"text":"12"}},{"num":{"begin":5,"end":8,"text":"345"}}]}}"#,
    )?;
    expect_line(
        &rt,
        alloc,
        "x 12 345",
        Some("a"),
        &[span(5, 8), span(2, 4), span(2, 3), span(2, 4)],
        r#"{"label":"a","views":{"P":[{"num":{"begin":2,"end":3,"text":"1"}},{"num":{"begin":2,"end":4,"text":"12"}},{"num":{"begin":2,"end":4,"text":"12"}},{"num":{"begin":5,"end":8,"text":"345"}}]}}"#,
    )?;
    expect_line(
        &rt,
        alloc,
        "",
        Some("a"),
        &[],
        r#"{"label":"a","views":{"P":[]}}"#,
    )?;
    expect_line(
        &rt,
        alloc,
        "",
        Some("a"),
        &[span(0, 0)],
        r#"{"label":"a","views":{"P":[{"num":{"begin":0,"end":0,"text":""}}]}}"#,
    )?;
    expect_line(
        &rt,
        alloc,
        "é 7",
        None,
        &[span(2, 3)],
        r#"{"views":{"P":[{"num":{"begin":2,"end":3,"text":"7"}}]}}"#,
    )
}

#[test]
fn values_of_each_kind_are_written(rt: HostRuntime) -> Result<(), Fail> {
    let alloc = rt.alloc();
    expect_line(
        &rt,
        alloc,
        "x",
        Some("a\"b\n"),
        &[Value::Text("b\t"), Value::Text("b"), Value::Text("")],
        r#"{"label":"a\"b\n","views":{"P":[{"num":""},{"num":"b"},{"num":"b\t"}]}}"#,
    )?;
    expect_line(
        &rt,
        alloc,
        "x",
        Some("a\"b\n"),
        &[Value::Int(i64::MAX), Value::Int(-1), Value::Int(i64::MIN)],
        r#"{"label":"a\"b\n","views":{"P":[{"num":-9223372036854775808},{"num":-1},{"num":9223372036854775807}]}}"#,
    )?;
    expect_line(
        &rt,
        alloc,
        "x",
        Some(""),
        &[
            span(0, 1),
            Value::Text("a"),
            Value::Bool(true),
            Value::Bool(false),
            Value::Int(7),
            Value::Null,
        ],
        r#"{"label":"","views":{"P":[{"num":null},{"num":7},{"num":false},{"num":true},{"num":"a"},{"num":{"begin":0,"end":1,"text":"x"}}]}}"#,
    )
}

#[test]
fn names_stand_in_the_order_of_their_bytes(rt: HostRuntime) -> Result<(), Fail> {
    let document = Document::new(rt.alloc(), "ab", None)?;
    let outputs = [
        output_of_one(rt.alloc(), "Z", "n")?,
        output_of_two(rt.alloc(), "A", "y", "x")?,
        output_of_one(rt.alloc(), "AA", "n")?,
    ];
    let pairs = [(span(1, 2), Value::Null), (Value::Null, span(0, 1))];
    let none = rows_of_one(rt.alloc(), &[])?;
    let two = rows_of_two(rt.alloc(), &pairs)?;
    let one = rows_of_one(rt.alloc(), &[Value::Int(2)])?;
    let wanted =
        r#"{"views":{"A":[{"x":{"begin":0,"end":1,"text":"a"},"y":null},{"x":null,"y":{"begin":1,"end":2,"text":"b"}}],"AA":[{"n":2}],"Z":[]}}"#;
    assert!(rt; list_fits(&document, &none));
    assert!(rt; list_fits(&document, &two));
    assert!(rt; list_fits(&document, &one));
    let found = write_document(rt.alloc(), &document, &outputs, &[&none, &two, &one])?;
    Ok(expect_bytes(&rt, rt.alloc(), &found, wanted)?)
}

/// The lines of some documents after each other in one layout, of the output `P` with the column `n`, which has one row
/// on each.
fn lines_of<R: Abort>(rt: &R, alloc: Global, documents: &[Document<'_>]) -> Result<Vec<u8>, Fail> {
    let outputs = [output_of_one(alloc, "P", "n")?];
    let layout = Layout::new(alloc, &outputs)?;
    let rows = rows_of_one(alloc, &[Value::Bool(true)])?;
    let mut lines = Vec::new(alloc);
    for document in documents {
        assert!(rt; list_fits(document, &rows));
        lines = append_document(alloc, lines, document, &layout, &[&rows])?;
    }
    Ok(lines)
}

#[test]
fn lines_are_put_after_each_other_in_one_layout(rt: HostRuntime) -> Result<(), Fail> {
    let alloc = rt.alloc();
    let documents = [
        Document::new(alloc, "a", None)?,
        Document::new(alloc, "", Some("l"))?,
    ];
    let both = lines_of(&rt, alloc, &documents)?;
    expect_bytes(
        &rt,
        alloc,
        &both,
        "{\"views\":{\"P\":[{\"n\":true}]}}\n{\"label\":\"l\",\"views\":{\"P\":[{\"n\":true}]}}",
    )?;
    let none = write_document(alloc, &documents[0], &[], &[])?;
    Ok(expect_bytes(&rt, alloc, &none, "{\"views\":{}}")?)
}
