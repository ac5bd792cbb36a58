//! Rows of a span and two numbers, filtered by one condition.
ghost use Rattle.std.specs.Prelude.{◌<◌, All, IfOk, length};
ghost use Rattle.row_values.specs.Datums.{IsOfDocument};
ghost use Rattle.span_token.specs.Documents.{Doc, LiesIn, characters};
ghost use Rattle.span_token.specs.Extents.{extent_of};
ghost use Rattle.span_token.specs.Tokens.{tokens_of};

use crate::bench::Bench;
use aql_regex_extract::Pattern;
use dict_match::DictUse;
use row_values::{Row, Value};
use scalar_ops::{Expr, Op, Tables, Tools, holds};
use span_token::{Document, OutOfMemory, OwnedList, OwnedText, Span};
use std::alloc::Global;
use std::marker::Model;

/// The most rows of a bench.
const ROWS: u32 = 100_000;

/// The condition of a filter.
#[derive(Clone, Copy)]
pub(crate) enum Cond {
    /// The two numbers are equal, as in one row of ten.
    EqualNumbers,
    /// The span has more than 8 characters.
    LongSpan,
    /// The span's text matches `[0-9]+` from end to end.
    DigitSpan,
    /// Some match of the dictionary lies in the four tokens behind the span.
    DictBehind,
}

/// The condition as an expression.
fn conds_of(alloc: Global, cond: Cond) -> Result<Vec<Expr>, OutOfMemory> {
    let (op, args) = match cond {
        Cond::EqualNumbers => (
            Op::Equals,
            vec![in alloc; Expr::Column(1), Expr::Column(2)]?,
        ),
        Cond::LongSpan => {
            let length = Expr::Call {
                op: Op::GetLength,
                args: vec![in alloc; Expr::Column(0)]?,
            };
            (Op::GreaterThan, vec![in alloc; length, Expr::Int(8)]?)
        }
        Cond::DigitSpan => (Op::MatchesRegex(0), vec![in alloc; Expr::Column(0)]?),
        Cond::DictBehind => {
            let behind = Expr::Call {
                op: Op::RightContextTok,
                args: vec![in alloc; Expr::Column(0), Expr::Int(4)]?,
            };
            (Op::ContainsDict(0), vec![in alloc; behind]?)
        }
    };
    let conds = vec![in alloc; Expr::Call { op, args }]?;
    Ok(conds)
}

/// Tables of one pattern and of one dictionary that doesn't look at case.
pub(crate) fn tables_of(
    alloc: Global,
    pattern: Pattern,
    entries: OwnedList<OwnedText>,
) -> Result<Tables, OutOfMemory> {
    let mut patterns = Vec::new(alloc);
    patterns.push(pattern)?;
    let dict = DictUse {
        entries,
        exact: false,
    };
    Tables::new(alloc, patterns, &[dict])
}

/// A document and rows of its spans.
#[derive(Drop)]
pub(crate) struct DocRows<'t> {
    doc: Document<'t>,
    rows: Vec<Row<'static>>,
}

impl<'t> Model for DocRows<'t> {
    ghost use Rattle.std.specs.Prelude.{List, All};
    ghost use Rattle.row_values.specs.Datums.{Datum, IsOfDocument};
    ghost use Rattle.span_token.specs.Documents.{Doc};

    ghost Value = { Doc × List (List Datum) };

    ghost view = { λ both. (both.doc, both.rows.items) };

    ghost invariant = { λ both. All (All (IsOfDocument both.doc)) both.rows.items };
}

impl<'t> DocRows<'t> {
    /// A row for each token of `doc`, up to a limit.
    pub(crate) fn new(alloc: Global, doc: Document<'t>) -> Result<DocRows<'t>, OutOfMemory> {
        let rows = token_rows(alloc, &doc)?;
        Ok(DocRows { doc, rows })
    }
}

fn token_rows(alloc: Global, doc: &Document<'_>) -> Result<Vec<Row<'static>>, OutOfMemory>
    ensures { IfOk result (λ rows. All (All (IsOfDocument doc.now)) rows.items) }
{
    let mut rows = Vec::new(alloc);
    for i in 0..doc.token_count().min(ROWS) {
        rows.push(token_row(alloc, doc, i)?)?;
    }
    Ok(rows)
}

/// Token `i`, and two numbers below 10.
fn token_row(alloc: Global, doc: &Document<'_>, i: u32) -> Result<Row<'static>, OutOfMemory>
    requires { i < length (tokens_of (characters doc.now)) }
    ensures { IfOk result (λ row. All (IsOfDocument doc.now) row) }
{
    span_row(
        alloc,
        doc.token(i),
        i64::from(i % 10),
        i64::from(i / 10 % 10),
    )
}

fn span_row(alloc: Global, span: Span, first: i64, second: i64) -> Result<Row<'static>, OutOfMemory>
    ensures { (doc : Doc) → LiesIn (extent_of span) doc → IfOk result (λ row. All (IsOfDocument doc) row) }
{
    Row::copied(
        alloc,
        &[Value::Span(span), Value::Int(first), Value::Int(second)],
    )
}

/// How many rows are left by the conditions.
fn count_left<'c, 't: 'c>(
    tools: &mut Tools<'_>,
    both: &DocRows<'t>,
    conds: &'c [Expr],
) -> Result<u64, OutOfMemory> {
    let mut count = 0u64;
    for row in both.rows.iter() {
        if holds(tools, &both.doc, row, conds)? {
            count = count.wrapping_add(1);
        }
    }
    Ok(count)
}

/// The rows are filtered by the condition.
#[derive(Drop)]
pub(crate) struct Filter<'p, 't> {
    pub alloc: Global,
    pub tools: Tools<'p>,
    pub both: DocRows<'t>,
    pub cond: Cond,
}

impl<'p, 't> Bench for Filter<'p, 't> {
    fn round(&mut self) -> Result<u64, OutOfMemory> {
        let conds = conds_of(self.alloc, self.cond)?;
        let count = count_left(&mut self.tools, &self.both, conds.as_slice())?;
        Ok(count)
    }
}
