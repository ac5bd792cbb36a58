ghost use Rattle.std.specs.Prelude.{◌≡◌, [], map, All, IfOk};
ghost use Rattle.aql_typed.specs.Fitting.{Fits, AllSourcesFit, all_widths, width_of};
ghost use Rattle.aql_typed.specs.Trees.{as_sources};
ghost use Rattle.aql_typed.specs.Views.{query_of, source_of};
ghost use Rattle.scalar_ops.specs.Expressions.{ReadsBelow};

use aql_meaning::slow_query;
use aql_regex_extract::compile_pattern;
use aql_typed::{
    ExtractClauses, Extraction, Projection, SelectClauses, TypedExtract, TypedQuery, TypedSelect,
    TypedSource,
};
use row_values::{Row, Rows};
use scalar_ops::{Expr, Exprs, Op, Tables, Tools, reads_below};
use span_token::{Document, OutOfMemory};
use std::alloc::Global;
use std::test::Fail;

/// Numbers stand at 4-6 and 12-13.
const TEXT: &str = "ann 12, bob 7";

fn tables_of(alloc: Global) -> Result<Tables, Fail> {
    let mut patterns = Vec::new(alloc);
    patterns.push(compile_pattern(alloc, "[0-9]+")?)?;
    Ok(Tables::new(alloc, patterns, &[])?)
}

/// One expression, which has to read columns below a width alone.
fn reading(alloc: Global, width: u32, expr: Expr) -> Result<Exprs, Fail>
    ensures { IfOk result (All (ReadsBelow width)) }
{
    if !reads_below(&expr, width) {
        return Err(Fail::new("a column that isn't there"));
    }
    let mut exprs = Vec::new(alloc);
    exprs.push(expr)?;
    Ok(Exprs::from(exprs))
}

/// The numbers of the document, of which at least `least` characters stand in front.
fn numbers(alloc: Global, least: i64) -> Result<TypedQuery, Fail>
    ensures fits { IfOk result (λ query. Fits [] (query_of query)) }
    ensures width { IfOk result (λ query. width_of [] (query_of query) ≡ 1) }
{
    let mut groups = Vec::new(alloc);
    groups.push(0)?;
    let mut begin = Vec::new(alloc);
    begin.push(Expr::Column(0))?;
    let mut args = Vec::new(alloc);
    args.push(Expr::Call {
        op: Op::GetBegin,
        args: begin,
    })?;
    args.push(Expr::Int(least))?;
    let op = Op::GreaterThan;
    let conds = reading(alloc, 1, Expr::Call { op, args })?;
    Ok(TypedQuery::Extract(TypedExtract {
        source: TypedSource::Document,
        clauses: ExtractClauses {
            items: Exprs::from(Vec::new(alloc)),
            extraction: Extraction::Regex {
                column: 0,
                pattern: 0,
                groups,
            },
            conds,
            consolidate: None,
            limit: None,
        },
    }))
}

/// The numbers but for those that stand behind more than five characters.
fn early_numbers(alloc: Global) -> Result<TypedQuery, Fail>
    ensures { IfOk result (λ query. Fits [] (query_of query)) }
{
    let all = Box::new(alloc, numbers(alloc, 0)?)?;
    let late = Box::new(alloc, numbers(alloc, 5)?)?;
    Ok(TypedQuery::Minus(all, late))
}

/// The numbers, and the numbers again.
fn two_sources(alloc: Global) -> Result<Vec<TypedSource>, Fail>
    ensures width { IfOk result (λ sources. all_widths [] (as_sources (map source_of sources.items)) ≡ 2) }
    ensures fit { IfOk result (λ sources. AllSourcesFit [] (as_sources (map source_of sources.items))) }
{
    let left = Box::new(alloc, numbers(alloc, 0)?)?;
    let right = Box::new(alloc, numbers(alloc, 0)?)?;
    let mut sources = Vec::new(alloc);
    sources.push(TypedSource::Nested(left))?;
    sources.push(TypedSource::Nested(right))?;
    Ok(sources)
}

fn of_both(alloc: Global, op: Op) -> Result<Exprs, Fail>
    ensures { IfOk result (All (ReadsBelow 2)) }
{
    let mut args = Vec::new(alloc);
    args.push(Expr::Column(0))?;
    args.push(Expr::Column(1))?;
    reading(alloc, 2, Expr::Call { op, args })
}

/// From each number to one that follows it.
fn pairs(alloc: Global) -> Result<TypedQuery, Fail>
    ensures { IfOk result (λ query. Fits [] (query_of query)) }
{
    let sources = two_sources(alloc)?;
    let conds = of_both(alloc, Op::Follows { min: 0, max: 9 })?;
    let items = of_both(alloc, Op::CombineSpans)?;
    let clauses = SelectClauses {
        conds,
        consolidate: None,
        projection: Projection::Plain(items),
        order: Vec::new(alloc),
        limit: None,
    };
    Ok(TypedQuery::Select(TypedSelect { sources, clauses }))
}

/// Whether the rows have these spans, one each, and in this order.
fn have_spans(rows: &Rows<'_>, spans: &[(u32, u32)]) -> bool {
    let found = rows.as_slice();
    found.len() == spans.len()
        && found
            .iter()
            .zip(spans)
            .all(|(row, span)| has_span(row, *span))
}

fn has_span(row: &Row<'_>, span: (u32, u32)) -> bool {
    if row.len() != 1 {
        return false;
    }
    match row.get(0).as_span() {
        Some(found) => found.begin == span.0 && found.end == span.1,
        None => false,
    }
}

/// Whether a query means these spans on the document.
fn means(
    alloc: Global,
    tables: &Tables,
    query: &TypedQuery,
    spans: &[(u32, u32)],
) -> Result<bool, OutOfMemory>
    requires fits { Fits [] (query_of query.now) }
{
    let doc = Document::new(alloc, TEXT, None)?;
    let mut tools = Tools::new(alloc, tables)?;
    let rows = slow_query(alloc, &mut tools, &doc, &[], query)?;
    Ok(have_spans(&rows, spans))
}

#[test]
fn an_extraction_gives_a_row_for_each_match_that_its_conditions_let_through(
    rt: HostRuntime,
) -> Result<(), Fail> {
    let alloc = rt.alloc();
    let tables = tables_of(alloc)?;
    let all = numbers(alloc, 0)?;
    let late = numbers(alloc, 5)?;
    assert!(rt; means(alloc, &tables, &all, &[(4, 6), (12, 13)])?);
    assert!(rt; means(alloc, &tables, &late, &[(12, 13)])?);
    Ok(())
}

#[test]
fn minus_keeps_what_occurs_nowhere_on_the_right(rt: HostRuntime) -> Result<(), Fail> {
    let alloc = rt.alloc();
    let tables = tables_of(alloc)?;
    let early = early_numbers(alloc)?;
    assert!(rt; means(alloc, &tables, &early, &[(4, 6)])?);
    Ok(())
}

#[test]
fn a_selection_takes_the_combinations_on_which_its_conditions_hold(
    rt: HostRuntime,
) -> Result<(), Fail> {
    let alloc = rt.alloc();
    let tables = tables_of(alloc)?;
    let pairs = pairs(alloc)?;
    assert!(rt; means(alloc, &tables, &pairs, &[(4, 13)])?);
    Ok(())
}
