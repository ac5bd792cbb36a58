ghost use Rattle.std.specs.Prelude.{◌≡◌, ◌<◌, ◌≤◌, [], ◌∷◌, length, map, slice_index_or, IfOk};
ghost use Rattle.std.specs.Arc.{arc_value};
ghost use Rattle.algebra.specs.Items.{item_count, output_nodes};
ghost use Rattle.algebra.specs.Shapes.{shapes_of, no_shape, columns};
ghost use Rattle.run_core.specs.Histories.{happening};
ghost use Rattle.run_core_tests.specs.Doubled.{doubled_nodes, doubled_events, once, twice};
ghost use Rattle.run_core_tests.specs.EmptyLeft.{joined_nodes, joined_events, no_row, IsUnwanted};
ghost use Rattle.run_core_tests.specs.Matched.{matched_nodes, matched_events, match_list, alone_list};
ghost use Rattle.row_values.specs.Rows.{RowsLieIn};
ghost use Rattle.scalar_ops.specs.Expressions.{column};

use algebra::{Node, Nodes, Plan, PlanOut};
use aql_regex_extract::{Pattern, compile_pattern};
use row_operators::{Search, push_found, values_for_each};
use row_values::{Output, Row, Rows, Value};
use run_core::{Board, Event, replay};
use scalar_ops::{Expr, Exprs, Tables, Tools};
use span_token::{Document, OutOfMemory, OwnedList, OwnedText};
use std::alloc::Global;
use std::process::Abort;
use std::sync::Arc;
use std::test::Fail;

/// An event and its rows.
type Happening<'d> = (Event, Option<Arc<Rows<'d>, Global>>);

/// The plan of these nodes and patterns that shows one of the nodes, which has one column.
fn showing(
    alloc: Global,
    nodes: Nodes,
    patterns: Vec<Pattern>,
    node: u32,
) -> Result<Plan, OutOfMemory>
    requires there { node < length nodes }
    requires shape { slice_index_or (shapes_of nodes) node no_shape ≡ columns 1 }
    ensures nodes { IfOk result (λ plan. plan.nodes ≡ nodes) }
    ensures patterns { IfOk result (λ plan. plan.lists.patterns ≡ patterns.items) }
    ensures shown { IfOk result (λ plan. output_nodes plan ≡ node ∷ []) }
{
    let mut names = OwnedList::new(alloc);
    names.push(OwnedText::copied(alloc, "s")?)?;
    let names = Output::new(OwnedText::copied(alloc, "V")?, names)?;
    let mut outputs = Vec::new(alloc);
    outputs.push(PlanOut { names, node })?;
    Ok(Plan::new(nodes, Tables::new(alloc, patterns, &[])?, outputs))
}

/// The row of the document, twice.
fn doubled(alloc: Global) -> Result<Plan, OutOfMemory>
    ensures nodes { IfOk result (λ plan. plan.nodes ≡ doubled_nodes) }
    ensures shown { IfOk result (λ plan. output_nodes plan ≡ 1 ∷ []) }
{
    let mut nodes = Nodes::new(alloc);
    nodes.add(Node::Doc)?;
    nodes.add(Node::Union { left: 0, right: 0 })?;
    showing(alloc, nodes, Vec::new(alloc), 1)
}

/// A conditional join of the matches of a pattern that isn't there with a row without a value.
fn joined(alloc: Global) -> Result<Plan, OutOfMemory>
    ensures nodes { IfOk result (λ plan. plan.nodes ≡ joined_nodes) }
    ensures patterns { IfOk result (λ plan. plan.lists.patterns ≡ []) }
    ensures shown { IfOk result (λ plan. output_nodes plan ≡ 3 ∷ []) }
{
    let mut nodes = Nodes::new(alloc);
    nodes.add(Node::Doc)?;
    nodes.add(Node::Regex {
        input: 0,
        column: 0,
        pattern: 0,
        groups: OwnedList::new(alloc),
    })?;
    nodes.add(Node::Project {
        input: 0,
        items: Exprs::from(Vec::new(alloc)),
    })?;
    nodes.add(Node::Cross {
        left: 1,
        right: 2,
        conditional: true,
    })?;
    showing(alloc, nodes, Vec::new(alloc), 3)
}

/// The second column of a row.
fn second_column(alloc: Global) -> Result<Exprs, OutOfMemory>
    ensures { IfOk result (λ items. items ≡ column 1 ∷ []) }
{
    let mut items = Vec::new(alloc);
    items.push(Expr::Column(1))?;
    Ok(Exprs::from(items))
}

/// The numbers in the document: what the program
/// `create view P as extract regex /[0-9]+/ on D.text as num from Document D; output view P;` is lowered to.
fn matched(alloc: Global) -> Result<Plan, OutOfMemory>
    ensures nodes { IfOk result (λ plan. plan.nodes ≡ matched_nodes) }
    ensures shown { IfOk result (λ plan. output_nodes plan ≡ 2 ∷ []) }
{
    let Ok(pattern) = compile_pattern(alloc, "[0-9]+") else {
        return Err(OutOfMemory);
    };
    let mut patterns = Vec::new(alloc);
    patterns.push(pattern)?;
    let mut groups = OwnedList::new(alloc);
    groups.push(0)?;
    let items = second_column(alloc)?;
    let mut nodes = Nodes::new(alloc);
    nodes.add(Node::Doc)?;
    nodes.add(Node::Regex {
        input: 0,
        column: 0,
        pattern: 0,
        groups,
    })?;
    nodes.add(Node::Project { input: 1, items })?;
    showing(alloc, nodes, patterns, 2)
}

/// The row of the document.
fn row_once<'d>(alloc: Global, doc: &Document<'d>) -> Result<Arc<Rows<'d>, Global>, OutOfMemory>
    ensures { IfOk result (λ rows. arc_value rows ≡ once doc.now) }
{
    let mut rows = Rows::new(alloc, 1);
    rows.push(Row::single(alloc, Value::Span(doc.whole())))?;
    Ok(Arc::new(alloc, rows)?)
}

/// The row of the document, twice.
fn row_twice<'d>(alloc: Global, doc: &Document<'d>) -> Result<Arc<Rows<'d>, Global>, OutOfMemory>
    ensures { IfOk result (λ rows. arc_value rows ≡ twice doc.now) }
{
    let mut rows = Rows::new(alloc, 1);
    rows.push(Row::single(alloc, Value::Span(doc.whole())))?;
    rows.push(Row::single(alloc, Value::Span(doc.whole())))?;
    Ok(Arc::new(alloc, rows)?)
}

/// No row.
fn row_never<'d>(alloc: Global) -> Result<Arc<Rows<'d>, Global>, OutOfMemory>
    ensures { IfOk result (λ rows. arc_value rows ≡ no_row) }
{
    Ok(Arc::new(alloc, Rows::new(alloc, 1))?)
}

/// Both items of `doubled` are claimed and published.
fn all_of_doubled<'d>(alloc: Global, doc: &Document<'d>) -> Result<Vec<Happening<'d>>, OutOfMemory>
    ensures { IfOk result (λ events. map (happening arc_value) events.items ≡ doubled_events doc.now) }
{
    let first = row_once(alloc, doc)?;
    let second = row_twice(alloc, doc)?;
    let events = vec![in alloc;
        (Event::Claim { worker: 0, item: 0 }, None),
        (Event::Publish { worker: 0, item: 0 }, Some(first)),
        (Event::Claim { worker: 1, item: 1 }, None),
        (Event::Publish { worker: 0, item: 1 }, Some(second)),
        (Event::Late { worker: 1, item: 1 }, None),
    ]?;
    Ok(events)
}

/// What is wanted of `joined` is claimed and published.
fn all_of_joined<'d>(alloc: Global, doc: &Document<'d>) -> Result<Vec<Happening<'d>>, OutOfMemory>
    ensures { IfOk result (λ events. map (happening arc_value) events.items ≡ joined_events doc.now) }
{
    let row = row_once(alloc, doc)?;
    let left = row_never(alloc)?;
    let join = row_never(alloc)?;
    let events = vec![in alloc;
        (Event::Claim { worker: 0, item: 0 }, None),
        (Event::Publish { worker: 0, item: 0 }, Some(row)),
        (Event::Claim { worker: 0, item: 1 }, None),
        (Event::Publish { worker: 0, item: 1 }, Some(left)),
        (Event::Claim { worker: 0, item: 3 }, None),
        (Event::Publish { worker: 0, item: 3 }, Some(join)),
    ]?;
    Ok(events)
}

/// The row of the document, followed by each match of the first pattern in it.
fn matches_of<'d>(
    alloc: Global,
    tools: &mut Tools<'_>,
    doc: &Document<'d>,
) -> Result<Rows<'d>, OutOfMemory>
    ensures rows { IfOk result (λ rows. rows ≡ match_list tools.old doc.now) }
    ensures lies { IfOk result (λ rows. RowsLieIn doc.now rows.rows) }
    ensures same { tools.new ≡ tools.old }
{
    let row = Row::single(alloc, Value::Span(doc.whole()));
    let search = Search::Regex {
        column: 0,
        pattern: 0,
        groups: &[0],
    };
    let mut found = Vec::new(alloc);
    let mut out = Rows::new(alloc, 2);
    push_found(alloc, tools, doc, &row, search, &row, &mut found, &mut out)?;
    Ok(out)
}

/// The matches alone.
fn alone_of<'d>(
    alloc: Global,
    tools: &mut Tools<'_>,
    doc: &Document<'d>,
    matches: &Rows<'d>,
    items: &'d Exprs,
) -> Result<Rows<'d>, OutOfMemory>
    requires matches { matches.now ≡ match_list tools.old doc.now }
    requires lies { RowsLieIn doc.now matches.now.rows }
    requires items { items.now ≡ column 1 ∷ [] }
    ensures { IfOk result (λ rows. rows ≡ alone_list tools.old doc.now) }
{
    let rows = values_for_each(alloc, tools, doc, matches.as_slice(), items)?;
    Ok(rows)
}

/// The items of `matched` are claimed and published by two workers in turn.
fn all_of_matched<'d>(
    alloc: Global,
    plan: &Plan,
    doc: &Document<'d>,
    items: &'d Exprs,
) -> Result<Vec<Happening<'d>>, OutOfMemory>
    requires items { items.now ≡ column 1 ∷ [] }
    ensures { IfOk result (λ events. map (happening arc_value) events.items ≡ matched_events plan.now.lists doc.now) }
{
    let mut tools = Tools::new(alloc, plan.tables())?;
    let matches = matches_of(alloc, &mut tools, doc)?;
    let alone = alone_of(alloc, &mut tools, doc, &matches, items)?;
    let first = row_once(alloc, doc)?;
    let second = Arc::new(alloc, matches)?;
    let third = Arc::new(alloc, alone)?;
    let events = vec![in alloc;
        (Event::Claim { worker: 0, item: 0 }, None),
        (Event::Publish { worker: 0, item: 0 }, Some(first)),
        (Event::Claim { worker: 1, item: 1 }, None),
        (Event::Publish { worker: 1, item: 1 }, Some(second)),
        (Event::Claim { worker: 0, item: 2 }, None),
        (Event::Publish { worker: 0, item: 2 }, Some(third)),
    ]?;
    Ok(events)
}

/// The board of `matched` on one document, with everything published.
fn matched_board<'d>(
    alloc: Global,
    plan: &'d Plan,
    docs: &'d [Document<'d>],
    items: &'d Exprs,
) -> Result<Board<'d>, OutOfMemory>
    requires nodes { plan.now.nodes ≡ matched_nodes }
    requires shown { output_nodes plan.now ≡ 2 ∷ [] }
    requires one { length docs.now ≡ 1 }
    requires items { items.now ≡ column 1 ∷ [] }
    ensures nodes { IfOk result (λ board. board.plan.nodes ≡ matched_nodes) }
    ensures one { IfOk result (λ board. length board.docs ≡ 1) }
{
    let events = all_of_matched(alloc, plan, &docs[0], items)?;
    replay(alloc, plan, docs, events)
}

/// The board of `doubled` on one document, with everything published.
fn doubled_board<'d>(
    alloc: Global,
    plan: &'d Plan,
    docs: &'d [Document<'d>],
) -> Result<Board<'d>, OutOfMemory>
    requires nodes { plan.now.nodes ≡ doubled_nodes }
    requires shown { output_nodes plan.now ≡ 1 ∷ [] }
    requires one { length docs.now ≡ 1 }
    ensures nodes { IfOk result (λ board. board.plan.nodes ≡ doubled_nodes) }
    ensures one { IfOk result (λ board. length board.docs ≡ 1) }
{
    let events = all_of_doubled(alloc, &docs[0])?;
    replay(alloc, plan, docs, events)
}

/// The board of `joined` on one document with nothing published: the right input of the join isn't wanted.
fn joined_start<'d>(
    alloc: Global,
    plan: &'d Plan,
    docs: &'d [Document<'d>],
) -> Result<Board<'d>, OutOfMemory>
    requires nodes { plan.now.nodes ≡ joined_nodes }
    requires shown { output_nodes plan.now ≡ 3 ∷ [] }
    requires one { length docs.now ≡ 1 }
    ensures nodes { IfOk result (λ board. board.plan.nodes ≡ joined_nodes) }
    ensures one { IfOk result (λ board. length board.docs ≡ 1) }
    ensures unwanted { IfOk result (λ board. IsUnwanted board 2) }
{
    let board = Board::new(alloc, plan, docs)?;
    Ok(board)
}

/// The board of `joined` on one document, with everything published that is wanted: the right input of the
/// join isn't.
fn joined_board<'d>(
    alloc: Global,
    plan: &'d Plan,
    docs: &'d [Document<'d>],
) -> Result<Board<'d>, OutOfMemory>
    requires nodes { plan.now.nodes ≡ joined_nodes }
    requires patterns { plan.now.lists.patterns ≡ [] }
    requires shown { output_nodes plan.now ≡ 3 ∷ [] }
    requires one { length docs.now ≡ 1 }
    ensures nodes { IfOk result (λ board. board.plan.nodes ≡ joined_nodes) }
    ensures one { IfOk result (λ board. length board.docs ≡ 1) }
    ensures unwanted { IfOk result (λ board. IsUnwanted board 2) }
{
    let events = all_of_joined(alloc, &docs[0])?;
    replay(alloc, plan, docs, events)
}

/// The worker that claimed an item, and the number of its published rows.
type Standing = (Option<u32>, Option<u32>);

/// How each of the first items stands.
fn standings(alloc: Global, board: &Board<'_>, items: u32) -> Result<Vec<Standing>, OutOfMemory>
    requires there { items ≤ item_count board.now.plan board.now.docs }
{
    let mut all = Vec::new(alloc);
    for item in 0..items {
        let count = match board.published(item) {
            Some(rows) => Some(rows.len()),
            None => None,
        };
        all.push((board.claimed(item), count))?;
    }
    Ok(all)
}

/// Checks how each of the first items stands.
fn expect_standings<R: Abort>(
    rt: &R,
    alloc: Global,
    board: &Board<'_>,
    items: u32,
    wanted: &[Standing],
    case: &str,
) -> Result<(), OutOfMemory>
    requires there { items ≤ item_count board.now.plan board.now.docs }
{
    let all = standings(alloc, board, items)?;
    assert_eq!(rt; all.as_slice(), wanted, "{case}");
    Ok(())
}

#[test]
fn items_in_node_order_give_the_output_its_rows(rt: HostRuntime) -> Result<(), Fail> {
    let alloc = rt.alloc();
    let docs = [Document::new(alloc, "ab 1", None)?];
    let plan = doubled(alloc)?;
    let board = doubled_board(alloc, &plan, &docs)?;
    let want: [Standing; 2] = [(Some(0), Some(1)), (Some(1), Some(2))];
    let case = "the second is worker 1's, though 0 helped";
    Ok(expect_standings(&rt, alloc, &board, 2, &want, case)?)
}

/// The ends of the spans in rows of spans.
fn ends_of(alloc: Global, rows: &Rows<'_>) -> Result<Vec<(u32, u32)>, Fail> {
    let mut ends = Vec::new(alloc);
    for row in rows.as_slice() {
        for value in row.values() {
            let Some(span) = value.as_span() else {
                return Err(Fail::from("a value is no span"));
            };
            ends.push((span.begin, span.end))?;
        }
    }
    Ok(ends)
}

/// Checks the ends of the spans in published rows of spans.
fn expect_ends<R: Abort>(
    rt: &R,
    alloc: Global,
    published: Option<&Rows<'_>>,
    wanted: &[(u32, u32)],
) -> Result<(), Fail> {
    let Some(rows) = published else {
        return Err(Fail::from("nothing is published"));
    };
    let ends = ends_of(alloc, rows)?;
    assert_eq!(rt; ends.as_slice(), wanted);
    Ok(())
}

#[test]
fn numbers_are_published_in_node_order_by_two_workers(rt: HostRuntime) -> Result<(), Fail> {
    let alloc = rt.alloc();
    let items = second_column(alloc)?;
    let docs = [Document::new(alloc, "x 12 345", None)?];
    let plan = matched(alloc)?;
    let board = matched_board(alloc, &plan, &docs, &items)?;
    let want: [Standing; 3] = [(Some(0), Some(1)), (Some(1), Some(2)), (Some(0), Some(2))];
    expect_standings(&rt, alloc, &board, 3, &want, "each item has rows")?;
    expect_ends(&rt, alloc, board.published(2), &[(2, 4), (5, 8)])
}

#[test]
fn right_input_without_a_left_row_takes_no_part(rt: HostRuntime) -> Result<(), Fail> {
    let alloc = rt.alloc();
    let docs = [Document::new(alloc, "ab 1", None)?];
    let plan = joined(alloc)?;
    let start = joined_start(alloc, &plan, &docs)?;
    let want: [Standing; 4] = [(None, None); 4];
    expect_standings(&rt, alloc, &start, 4, &want, "nothing is done yet")?;
    let board = joined_board(alloc, &plan, &docs)?;
    let right: Standing = (None, None);
    let want = [
        (Some(0), Some(1)),
        (Some(0), Some(0)),
        right,
        (Some(0), Some(0)),
    ];
    let case = "the right input takes no part";
    Ok(expect_standings(&rt, alloc, &board, 4, &want, case)?)
}
