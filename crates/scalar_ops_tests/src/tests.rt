ghost use Rattle.std.specs.Prelude.{All, IsTrue, ◌≤◌};
ghost use Rattle.row_values.specs.Datums.{IsOfDocument, datum_of};

use crate::cases::{Arg, CONTEXTS, Case, OF_ONE_AND_MANY, OF_SPANS, OF_TWO, Want};
use aql_regex_extract::{Pattern, compile_pattern};
use dict_match::DictUse;
use row_values::{Row, Value};
use scalar_ops::{Expr, Op, Tables, Tools, eval, holds, reads_below};
use span_token::{Document, OutOfMemory, OwnedList, OwnedText, Span};
use std::alloc::Global;
use std::test::Fail;
use std::thread::{self, Threads};

/// The document of all cases: 24 characters, two of them beyond ASCII.
const TEXT: &str = "Änn met Bö, 42 days ago.";

fn dict_of(alloc: Global, entries: &[&str], exact: bool) -> Result<DictUse, Fail> {
    let mut texts = OwnedList::new(alloc);
    for entry in entries {
        texts.push(OwnedText::copied(alloc, entry)?)?;
    }
    Ok(DictUse {
        entries: texts,
        exact,
    })
}

fn dicts_of(alloc: Global, given: &[(&[&str], bool)]) -> Result<Vec<DictUse>, Fail> {
    let mut dicts = Vec::new(alloc);
    for (entries, exact) in given {
        dicts.push(dict_of(alloc, entries, *exact)?)?;
    }
    Ok(dicts)
}

fn patterns_of(alloc: Global, texts: &[&str]) -> Result<Vec<Pattern>, Fail> {
    let mut patterns = Vec::new(alloc);
    for text in texts {
        patterns.push(compile_pattern(alloc, text)?)?;
    }
    Ok(patterns)
}

fn tables_of(alloc: Global) -> Result<Tables, Fail> {
    let dicts = dicts_of(alloc, &[(&["änn", "met bö"], false), (&["met bö"], true)])?;
    let patterns = patterns_of(alloc, &["[0-9]+", "Bö|Bö,"])?;
    Ok(Tables::new(alloc, patterns, dicts.as_slice())?)
}

fn expr_of(alloc: Global, arg: &Arg) -> Result<Expr, OutOfMemory> {
    match arg {
        Arg::Column(column) => Ok(Expr::Column(*column)),
        Arg::Int(number) => Ok(Expr::Int(*number)),
        Arg::Text(text) => Ok(Expr::Str(OwnedText::copied(alloc, text)?)),
    }
}

fn call_of(alloc: Global, op: Op, given: &[Arg]) -> Result<Expr, OutOfMemory> {
    let mut args = Vec::new(alloc);
    for arg in given {
        args.push(expr_of(alloc, arg)?)?;
    }
    Ok(Expr::Call { op, args })
}

/// A call whose first argument is a call itself.
fn nested(alloc: Global, op: Op, first: (Op, &[Arg]), rest: &[Arg]) -> Result<Expr, OutOfMemory> {
    let mut args = Vec::new(alloc);
    args.push(call_of(alloc, first.0, first.1)?)?;
    for arg in rest {
        args.push(expr_of(alloc, arg)?)?;
    }
    Ok(Expr::Call { op, args })
}

fn calls_of(alloc: Global, cases: &[Case]) -> Result<Vec<Expr>, OutOfMemory> {
    let mut calls = Vec::new(alloc);
    for case in cases {
        calls.push(call_of(alloc, case.0, case.1)?)?;
    }
    Ok(calls)
}

fn span(begin: u32, end: u32) -> Value<'static>
    requires { begin ≤ end }
{
    Value::Span(Span { begin, end })
}

/// The row of all cases, whose columns have names in `cases.rt`.
fn row_of(alloc: Global) -> Result<Row<'static>, OutOfMemory> {
    Row::copied(
        alloc,
        &[
            Value::Null,
            Value::Bool(true),
            Value::Bool(false),
            span(0, 3),
            span(4, 7),
            span(8, 10),
            span(10, 11),
            span(0, 5),
            span(4, 10),
            span(5, 13),
            span(2, 24),
            span(12, 14),
            span(0, 24),
            span(0, 0),
            span(4, 4),
            span(5, 5),
            span(7, 7),
            span(24, 24),
        ],
    )
}

fn document(alloc: Global) -> Result<Document<'static>, OutOfMemory> {
    Document::new(alloc, TEXT, None)
}

fn value_lies_in(doc: &Document<'_>, value: &Value<'_>) -> bool
    ensures { IsTrue result → IsOfDocument doc.now (datum_of value.now) }
{
    match *value {
        Value::Span(span) => span.end <= doc.len(),
        _ => true,
    }
}

fn values_lie_in(doc: &Document<'_>, values: &[Value<'_>]) -> bool
    ensures { IsTrue result → All (λ value. IsOfDocument doc.now (datum_of value)) values.now }
{
    values.iter().all(|value| value_lies_in(doc, value))
}

fn row_lies_in(doc: &Document<'_>, row: &Row<'_>) -> bool
    ensures { IsTrue result → All (IsOfDocument doc.now) row.now }
{
    values_lie_in(doc, row.values())
}

fn is_wanted(value: Value<'_>, want: &Want) -> bool {
    match (value, want) {
        (Value::Null, Want::Null) => true,
        (Value::Int(found), Want::Int(number)) => found == *number,
        (Value::Bool(found), Want::Bool(truth)) => found == *truth,
        (Value::Text(found), Want::Text(text)) => found == *text,
        (Value::Span(found), Want::Span(begin, end)) => (found.begin, found.end) == (*begin, *end),
        _ => false,
    }
}

/// The number of the first call, from 0, that isn't worth what its case wants, or how many calls there are.
fn first_wrong<'d>(
    tools: &mut Tools<'_>,
    doc: &Document<'d>,
    row: &Row<'d>,
    calls: &'d [Expr],
    cases: &[Case],
) -> Result<usize, OutOfMemory>
    requires in_document { All (IsOfDocument doc.now) row.now }
{
    for (number, (call, case)) in calls.iter().zip(cases).enumerate() {
        let found = eval(tools, doc, row, call)?;
        if !is_wanted(found, &case.2) {
            return Ok(number);
        }
    }
    Ok(calls.len())
}

/// The same on the row and the document of all cases; none is right where a span of the row lies past
/// the document.
fn first_wrong_on_all(
    alloc: Global,
    tools: &mut Tools<'_>,
    calls: &[Expr],
    cases: &[Case],
) -> Result<usize, OutOfMemory> {
    let row = row_of(alloc)?;
    let doc = document(alloc)?;
    if !row_lies_in(&doc, &row) {
        return Ok(0);
    }
    let found = first_wrong(tools, &doc, &row, calls, cases)?;
    Ok(found)
}

fn first_wrong_by(
    alloc: Global,
    tools: &mut Tools<'_>,
    cases: &[Case],
) -> Result<usize, OutOfMemory> {
    let calls = calls_of(alloc, cases)?;
    let found = first_wrong_on_all(alloc, tools, &calls, cases)?;
    Ok(found)
}

fn first_wrong_over(alloc: Global, tables: &Tables, cases: &[Case]) -> Result<usize, OutOfMemory> {
    let mut tools = Tools::new(alloc, tables)?;
    let found = first_wrong_by(alloc, &mut tools, cases)?;
    Ok(found)
}

fn first_wrong_of(alloc: Global, cases: &[Case]) -> Result<usize, Fail> {
    let tables = tables_of(alloc)?;
    let found = first_wrong_over(alloc, &tables, cases)?;
    Ok(found)
}

#[test]
fn functions_of_spans_and_of_null(rt: HostRuntime) -> Result<(), Fail> {
    assert_eq!(rt; first_wrong_of(rt.alloc(), &OF_SPANS)?, OF_SPANS.len());
    Ok(())
}

#[test]
fn contexts_end_at_the_edges_of_a_document(rt: HostRuntime) -> Result<(), Fail> {
    assert_eq!(rt; first_wrong_of(rt.alloc(), &CONTEXTS)?, CONTEXTS.len());
    Ok(())
}

#[test]
fn predicates_of_reversed_overlapping_and_missing_spans(rt: HostRuntime) -> Result<(), Fail> {
    assert_eq!(rt; first_wrong_of(rt.alloc(), &OF_TWO)?, OF_TWO.len());
    Ok(())
}

#[test]
fn patterns_dictionaries_and_truth_values(rt: HostRuntime) -> Result<(), Fail> {
    assert_eq!(rt;
        first_wrong_of(rt.alloc(), &OF_ONE_AND_MANY)?,
        OF_ONE_AND_MANY.len()
    );
    Ok(())
}

/// Conditions of which the first two are true: the length of `Bö` is greater than 1; a number stands in
/// the two tokens behind it; `Änn` is `met`.
fn conditions(alloc: Global) -> Result<Vec<Expr>, OutOfMemory> {
    let length: (Op, &[Arg]) = (Op::GetLength, &[Arg::Column(5)]);
    let context: (Op, &[Arg]) = (Op::RightContextTok, &[Arg::Column(5), Arg::Int(2)]);
    let mut conds = Vec::new(alloc);
    conds.push(nested(alloc, Op::GreaterThan, length, &[Arg::Int(1)])?)?;
    conds.push(nested(alloc, Op::ContainsRegex(0), context, &[])?)?;
    conds.push(call_of(alloc, Op::Equals, &[Arg::Column(3), Arg::Column(4)])?)?;
    Ok(conds)
}

/// Whether these conditions hold; false where a span of the row lies past the document.
fn do_hold(alloc: Global, tools: &mut Tools<'_>, conds: &[Expr]) -> Result<bool, OutOfMemory> {
    let row = row_of(alloc)?;
    let doc = document(alloc)?;
    if !row_lies_in(&doc, &row) {
        return Ok(false);
    }
    let found = holds(tools, &doc, &row, conds)?;
    Ok(found)
}

/// Whether the first conditions hold, so many of them.
fn do_first_hold(
    alloc: Global,
    tables: &Tables,
    conds: &[Expr],
    number: usize,
) -> Result<bool, OutOfMemory> {
    let mut tools = Tools::new(alloc, tables)?;
    match conds.get(..number) {
        Some(first) => do_hold(alloc, &mut tools, first),
        None => Ok(false),
    }
}

#[test]
fn conditions_hold_where_each_is_true(rt: HostRuntime) -> Result<(), Fail> {
    let alloc = rt.alloc();
    let tables = tables_of(alloc)?;
    let conds = conditions(alloc)?;
    for (number, want) in [(0, true), (1, true), (2, true), (3, false)] {
        let found = do_first_hold(alloc, &tables, &conds, number)?;
        assert_eq!(rt; found, want, "the first {number}");
    }
    Ok(())
}

#[test]
fn what_is_read_is_looked_for_in_every_argument(rt: HostRuntime) -> Result<(), Fail> {
    let alloc = rt.alloc();
    let literals = call_of(alloc, Op::Equals, &[Arg::Text("met"), Arg::Int(1)])?;
    assert!(rt; reads_below(&literals, 0));
    let first: (Op, &[Arg]) = (Op::Equals, &[Arg::Column(4), Arg::Column(3)]);
    let nested = nested(alloc, Op::Not, first, &[])?;
    for (width, want) in [(0, false), (4, false), (5, true), (6, true)] {
        assert_eq!(rt; reads_below(&nested, width), want, "below {width}");
    }
    Ok(())
}

/// A worker's own tools, and the number of the first call that was wrong to it.
#[derive(Drop)]
struct Worker<'t> {
    tools: Tools<'t>,
    wrong: usize,
}

fn evaluate_in_threads<R: Threads + Sync>(rt: &R, alloc: Global, workers: &mut [Worker<'_>]) {
    thread::for_each_mut(
        rt,
        workers,
        4,
        &|_, worker: &mut Worker<'_>| {
            worker.wrong = first_wrong_by(alloc, &mut worker.tools, &OF_ONE_AND_MANY).unwrap_or(0);
        },
    );
}

/// Workers, each with tools of its own.
fn workers_of(alloc: Global, tables: &Tables, number: u32) -> Result<Vec<Worker<'_>>, Fail> {
    let mut workers = Vec::new(alloc);
    for _worker in 0..number {
        workers.push(Worker {
            tools: Tools::new(alloc, tables)?,
            wrong: 0,
        })?;
    }
    Ok(workers)
}

#[test]
fn workers_share_the_tables_and_keep_their_tools(rt: HostRuntime) -> Result<(), Fail> {
    let alloc = rt.alloc();
    let tables = tables_of(alloc)?;
    let mut workers = workers_of(alloc, &tables, 4)?;
    for _round in 0..2 {
        evaluate_in_threads(&rt, alloc, &mut workers);
        for worker in &workers {
            assert_eq!(rt; worker.wrong, OF_ONE_AND_MANY.len());
        }
    }
    Ok(())
}
