ghost use Rattle.std.specs.Prelude.{◌≡◌, ◌<◌, Some, length, slice_get, IfOk};
ghost use Rattle.run_tables.specs.Cells.{Belongs};
ghost use Rattle.run_tables_tests.specs.Plans.{IsDocumentPlan};

use crate::claims::expect;
use algebra::{Node, Nodes, Plan, PlanOut};
use row_values::{Output, Row, Rows, Value};
use run_tables::{Published, Results, Watch, Work};
use scalar_ops::Tables;
use span_token::{Document, OutOfMemory, OwnedList, OwnedText};
use std::alloc::Global;
use std::marker::Brand;
use std::test::Fail;
use std::thread::{self, Threads};

/// The plan of one node, the document, which is an output.
fn document_plan(alloc: Global) -> Result<Plan, OutOfMemory>
    ensures { IfOk result IsDocumentPlan }
{
    let mut nodes = Nodes::new(alloc);
    let node = nodes.add(Node::Doc)?;
    let tables = Tables::new(alloc, Vec::new(alloc), &[])?;
    let mut columns = OwnedList::new(alloc);
    columns.push(OwnedText::copied(alloc, "span")?)?;
    let names = Output::new(OwnedText::copied(alloc, "D")?, columns)?;
    let mut outputs = Vec::new(alloc);
    outputs.push(PlanOut { names, node })?;
    Ok(Plan::new(nodes, tables, outputs))
}

/// The result of the document's node on the first document.
fn document_result<'d, W: Work>(
    alloc: Global,
    doc: &Document<'d>,
) -> Result<Box<Published<'d, W>>, OutOfMemory>
    requires plan { IsDocumentPlan W.plan }
    requires doc { slice_get W.docs 0 ≡ Some doc.now }
    ensures { IfOk result (λ found. found.value.item ≡ 0) }
{
    let mut values = Vec::new(alloc);
    values.push(Value::Span(doc.whole()))?;
    let mut rows = Rows::new(alloc, 1);
    rows.push(Row::new(values))?;
    let found = Published::new(alloc, 0, rows)?;
    Ok(found)
}

/// What two watches of one item saw.
#[derive(Drop)]
struct Story {
    empty_at_first: bool,
    published: bool,
    handed_back: bool,
    rows: Vec<u32>,
}

/// Publishes the result of an item twice, through two watches.
fn publish_twice<'d, W: Work>(
    alloc: Global,
    plan: &Plan,
    docs: &[Document<'d>],
) -> Result<Story, OutOfMemory>
    requires plan { (plan.now ≡ W.plan) × IsDocumentPlan W.plan }
    requires docs { docs.now ≡ W.docs }
    requires one { length W.docs ≡ 1 }
{
    let Some(doc) = docs.first() else {
        return Err(OutOfMemory);
    };
    let results: Results<'d, W> = Results::new(alloc, plan, docs)?;
    let mut first = results.watch(0);
    let mut second = results.watch(0);
    let empty_at_first = results.look(&mut first).is_none();
    let found = document_result(alloc, doc)?;
    let published = results.publish(&mut first, found).is_ok();
    let again = document_result(alloc, doc)?;
    let handed_back = results.publish(&mut second, again).is_err();
    let mut rows = Vec::new(alloc);
    rows.push(rows_seen(&results, &mut first))?;
    rows.push(rows_seen(&results, &mut second))?;
    Ok(Story {
        empty_at_first,
        published,
        handed_back,
        rows,
    })
}

/// How many rows a watch sees; 99 where it sees no result.
fn rows_seen<'d, W: Work>(results: &Results<'d, W>, watch: &mut Watch<'d, W>) -> u32
    requires belongs { Belongs results.now watch.old }
{
    match results.look(watch) {
        Some(found) => found.rows().len(),
        None => 99,
    }
}

#[test]
fn a_result_is_published_once(rt: HostRuntime) -> Result<(), Fail> {
    let alloc = rt.alloc();
    let plan = document_plan(alloc)?;
    let docs = [Document::new(alloc, "one document", None)?];
    let story = publish_twice::<Brand>(alloc, &plan, &docs)?;
    expect(&rt, story.empty_at_first, "nothing was published yet");
    expect(&rt, story.published, "the cell was empty");
    expect(&rt, story.handed_back, "the cell was full");
    expect(
        &rt,
        story.rows.as_slice() == [1u32, 1].as_slice(),
        "both watches see one row",
    );
    Ok(())
}

/// Publishes the result of the document's node, where there is memory for it.
fn publish_here<'d, W: Work>(alloc: Global, results: &Results<'d, W>, docs: &[Document<'d>]) -> bool
    requires plan { IsDocumentPlan W.plan }
    requires docs { docs.now ≡ W.docs }
    requires cells { 0 < length results.now }
{
    let Some(doc) = docs.first() else {
        return false;
    };
    let Ok(found) = document_result(alloc, doc) else {
        return false;
    };
    let mut watch = results.watch(0);
    results.publish(&mut watch, found).is_ok()
}

/// Whether a fresh watch sees a result of the first item.
fn is_seen<'d, W: Work>(results: &Results<'d, W>) -> bool
    requires { 0 < length results.now }
{
    let mut watch = results.watch(0);
    results.look(&mut watch).is_some()
}

/// Publishes in one thread and looks in another; whether a fresh watch sees the result after both.
fn publish_beside<'d, W: Work + Send + Sync, R: Threads + Sync>(
    rt: &R,
    alloc: Global,
    plan: &Plan,
    docs: &[Document<'d>],
) -> Result<bool, OutOfMemory>
    requires plan { (plan.now ≡ W.plan) × IsDocumentPlan W.plan }
    requires docs { docs.now ≡ W.docs }
    requires one { length W.docs ≡ 1 }
{
    let results: Results<'d, W> = Results::new(alloc, plan, docs)?;
    let shared = &results;
    let (published, _seen) = thread::join(
        rt,
        || -> bool
            requires { IsDocumentPlan W.plan × (docs.now ≡ W.docs) × (0 < length shared.now) }
        { publish_here(alloc, shared, docs) },
        || -> bool
            requires { 0 < length shared.now }
        { is_seen(shared) },
    );
    Ok(published && is_seen(shared))
}

#[test]
fn a_result_of_another_thread_is_seen_after_it_was_joined(rt: HostRuntime) -> Result<(), Fail> {
    let alloc = rt.alloc();
    let plan = document_plan(alloc)?;
    let docs = [Document::new(alloc, "one document", None)?];
    let there = publish_beside::<Brand, HostRuntime>(&rt, alloc, &plan, &docs)?;
    expect(&rt, there, "the result is there");
    Ok(())
}
