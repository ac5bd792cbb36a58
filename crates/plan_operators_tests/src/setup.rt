//! The document of all cases, its tables, and rows as text.

use aql_regex_extract::compile_pattern;
use dict_match::DictUse;
use row_values::{Row, Rows, Value};
use scalar_ops::{Expr, Exprs, Op, Tables};
use span_token::{Document, OutOfMemory, OwnedList, OwnedText};
use std::alloc::Global;
use std::test::Fail;

/// The tokens: Ann 0-3, met 4-7, Bo 8-10, a comma 10-11, 42 12-14, days 15-19, ago 20-23, a full stop 23-24.
const TEXT: &str = "Ann met Bo, 42 days ago.";

/// Small letters: nn 1-3, met 4-7, o 9-10, days 15-19, ago 20-23; of whole tokens, met, days and ago.
pub(crate) const SMALL: u32 = 0;

/// Words that begin with a great letter: Ann 0-3, Bo 8-10.
pub(crate) const GREAT: u32 = 1;

/// One word of small letters or two, with a group for the second: nn met 1-7, o 9-10, days ago 15-23; of whole
/// tokens, met 4-7, days ago 15-23, ago 20-23.
pub(crate) const TWO_WORDS: u32 = 2;

/// No pattern, and no dictionary, has this number.
pub(crate) const NONE: u32 = 9;

/// Ann 0-3, Bo 8-10, days ago 15-23, in any case.
pub(crate) const ANY_CASE: u32 = 0;

/// Bo 8-10, met Bo 4-10, days 15-19; not Ann, whose entry is written small.
pub(crate) const EXACT: u32 = 1;

pub(crate) fn document<'d>(alloc: Global) -> Result<Document<'d>, OutOfMemory> {
    Document::new(alloc, TEXT, None)
}

pub(crate) fn tables_of(alloc: Global) -> Result<Tables, Fail> {
    let mut patterns = Vec::new(alloc);
    for text in ["[a-z]+", "[A-Z][a-z]+", "[a-z]+( [a-z]+)?"] {
        patterns.push(compile_pattern(alloc, text)?)?;
    }
    let mut dicts = Vec::new(alloc);
    dicts.push(dict_of(alloc, &["ann", "BO", "days ago"], false)?)?;
    dicts.push(dict_of(alloc, &["Bo", "met Bo", "days", "ann"], true)?)?;
    Ok(Tables::new(alloc, patterns, dicts.as_slice())?)
}

fn dict_of(alloc: Global, entries: &[&str], exact: bool) -> Result<DictUse, OutOfMemory> {
    let mut texts = OwnedList::new(alloc);
    for entry in entries {
        texts.push(OwnedText::copied(alloc, entry)?)?;
    }
    Ok(DictUse {
        entries: texts,
        exact,
    })
}

/// A list of numbers: groups, dictionaries, or columns.
pub(crate) fn numbers(alloc: Global, from: &[u32]) -> Result<OwnedList<u32>, OutOfMemory> {
    let mut list = OwnedList::new(alloc);
    for number in from {
        list.push(*number)?;
    }
    Ok(list)
}

/// Columns as expressions.
pub(crate) fn columns(alloc: Global, from: &[u32]) -> Result<Exprs, OutOfMemory> {
    let mut exprs = Vec::new(alloc);
    for column in from {
        exprs.push(Expr::Column(*column))?;
    }
    Ok(Exprs::from(exprs))
}

/// A call on one column.
pub(crate) fn of_column(alloc: Global, op: Op, column: u32) -> Result<Expr, OutOfMemory> {
    let mut args = Vec::new(alloc);
    args.push(Expr::Column(column))?;
    Ok(Expr::Call { op, args })
}

/// A call on two columns.
pub(crate) fn of_columns(alloc: Global, op: Op, a: u32, b: u32) -> Result<Expr, OutOfMemory> {
    let mut args = Vec::new(alloc);
    args.push(Expr::Column(a))?;
    args.push(Expr::Column(b))?;
    Ok(Expr::Call { op, args })
}

/// That the span in column 0 begins behind a place.
pub(crate) fn begins_behind(alloc: Global, place: i64) -> Result<Expr, OutOfMemory> {
    let mut args = Vec::new(alloc);
    args.push(of_column(alloc, Op::GetBegin, 0)?)?;
    args.push(Expr::Int(place))?;
    let op = Op::GreaterThan;
    Ok(Expr::Call { op, args })
}

/// One expression.
pub(crate) fn alone(alloc: Global, expr: Expr) -> Result<Exprs, OutOfMemory> {
    let mut exprs = Vec::new(alloc);
    exprs.push(expr)?;
    Ok(Exprs::from(exprs))
}

/// The number of columns, and the rows in row order.
pub(crate) fn text_of(alloc: Global, rows: &Rows<'_>) -> Result<String, OutOfMemory> {
    let width = rows.width();
    let mut text = format!(in alloc; "{width}:")?;
    let sorted = rows.sorted(alloc)?;
    for row in sorted.as_slice() {
        push_row(alloc, row, &mut text)?;
    }
    Ok(text)
}

fn push_row(alloc: Global, row: &Row<'_>, text: &mut String) -> Result<(), OutOfMemory> {
    text.push_str("[")?;
    let mut between = "";
    for value in row.values() {
        text.push_str(between)?;
        push_value(alloc, *value, text)?;
        between = " ";
    }
    text.push_str("]")?;
    Ok(())
}

fn push_value(alloc: Global, value: Value<'_>, text: &mut String) -> Result<(), OutOfMemory> {
    match value {
        Value::Null => text.push_str("Null")?,
        Value::Bool(truth) => text.push_str(if truth { "true" } else { "false" })?,
        Value::Text(part) => text.push_str(part)?,
        Value::Int(number) => {
            let part = format!(in alloc; "{number}")?;
            text.push_str(part.as_str())?;
        }
        Value::Span(span) => {
            let (begin, end) = (span.begin, span.end);
            let part = format!(in alloc; "{begin}-{end}")?;
            text.push_str(part.as_str())?;
        }
    }
    Ok(())
}
