ghost use Rattle.std.specs.Prelude.{◌≡◌, ◌<◌, ◌*◌, ◌^◌, length, IfOk};
ghost use Rattle.run_tables_tests.specs.Plans.{IsJoinedPlan};

use algebra::{Node, Nodes, Plan, PlanOut};
use aql_regex_extract::{Pattern, compile_pattern};
use row_values::Output;
use run_tables::{Published, Results, Work};
use scalar_ops::{Exprs, Tables, Tools};
use span_token::{Document, OutOfMemory, OwnedList, OwnedText};
use std::alloc::Global;
use std::marker::Brand;
use std::test::Fail;

/// The plan of the document, the matches of a pattern in it, a row without a value, and the conditional join
/// of the last two, which is an output.
fn joined_plan(alloc: Global, pattern: Pattern) -> Result<Plan, OutOfMemory>
    ensures { IfOk result IsJoinedPlan }
{
    let mut nodes = Nodes::new(alloc);
    nodes.add(Node::Doc)?;
    nodes.add(Node::Regex {
        input: 0,
        column: 0,
        pattern: 0,
        groups: OwnedList::new(alloc),
    })?;
    nodes.add(Node::Project {
        input: 0,
        items: Exprs::from(Vec::new(alloc)),
    })?;
    let node = nodes.add(Node::Cross {
        left: 1,
        right: 2,
        conditional: true,
    })?;
    let mut patterns = Vec::new(alloc);
    patterns.push(pattern)?;
    let tables = Tables::new(alloc, patterns, &[])?;
    let mut columns = OwnedList::new(alloc);
    columns.push(OwnedText::copied(alloc, "span")?)?;
    let names = Output::new(OwnedText::copied(alloc, "V")?, columns)?;
    let mut outputs = Vec::new(alloc);
    outputs.push(PlanOut { names, node })?;
    Ok(Plan::new(nodes, tables, outputs))
}

/// Publishes a result, and gives what its cell is seen to hold then.
fn published<'r, 'd, W: Work>(
    results: &'r Results<'d, W>,
    found: Box<Published<'d, W>>,
) -> Result<&'r Published<'d, W>, OutOfMemory>
    requires there { found.value.item < length results.now }
    ensures { IfOk result (λ seen. seen.now.item ≡ found.entry.value.item) }
{
    let mut watch = results.watch(found.item());
    if results.publish(&mut watch, found).is_err() {
        return Err(OutOfMemory);
    }
    match results.look(&mut watch) {
        Some(seen) => Ok(seen),
        None => Err(OutOfMemory),
    }
}

/// How many rows the join has on document `d`: each item is computed from its inputs' results as their cells
/// hold them, and put into its own.
#[tactic(auto, using(crate::proofs::JoinedPlans::text_there, crate::proofs::JoinedPlans::left_there))]
fn rows_of_join<'d, W: Work>(
    alloc: Global,
    tools: &mut Tools<'_>,
    plan: &'d Plan,
    docs: &[Document<'d>],
    results: &Results<'d, W>,
    d: u32,
) -> Result<u32, OutOfMemory>
    requires work { (plan.now ≡ W.plan) × (docs.now ≡ W.docs) × (tools.old ≡ W.plan.lists) }
    requires joined { IsJoinedPlan W.plan }
    requires there { d < length W.docs }
    requires cells { length results.now ≡ length W.docs * 4 }
    requires few { length W.docs * 4 < 2 ^ 32 }
    ensures same { tools.new ≡ tools.old }
{
    let first = d * 4;
    let found: Box<Published<'d, W>> = Published::compute(
        alloc, tools, plan, docs, first, None, None,
    )?;
    let text = published(results, found)?;
    let found = Published::compute(alloc, tools, plan, docs, first + 1, Some(text), None)?;
    let left = published(results, found)?;
    if left.rows().len() == 0 {
        let found = Published::compute(alloc, tools, plan, docs, first + 3, Some(left), None)?;
        return Ok(published(results, found)?.rows().len());
    }
    let found = Published::compute(alloc, tools, plan, docs, first + 2, Some(text), None)?;
    let right = published(results, found)?;
    let found = Published::compute(alloc, tools, plan, docs, first + 3, Some(left), Some(right))?;
    Ok(published(results, found)?.rows().len())
}

/// How many rows the join has on each of two documents.
fn rows_of_joins<'d, W: Work>(
    alloc: Global,
    plan: &'d Plan,
    docs: &[Document<'d>],
) -> Result<(u32, u32), OutOfMemory>
    requires work { (plan.now ≡ W.plan) × (docs.now ≡ W.docs) }
    requires joined { IsJoinedPlan W.plan }
    requires two { length W.docs ≡ 2 }
{
    let mut tools = Tools::new(alloc, plan.tables())?;
    let results: Results<'d, W> = Results::new(alloc, plan, docs)?;
    let first = rows_of_join(alloc, &mut tools, plan, docs, &results, 0)?;
    let second = rows_of_join(alloc, &mut tools, plan, docs, &results, 1)?;
    Ok((first, second))
}

#[test]
fn a_join_without_a_left_row_needs_no_right_result(rt: HostRuntime) -> Result<(), Fail> {
    let alloc = rt.alloc();
    let plan = joined_plan(alloc, compile_pattern(alloc, "[0-9]+")?)?;
    let docs = [
        Document::new(alloc, "no number", None)?,
        Document::new(alloc, "1 and 22", None)?,
    ];
    let rows = rows_of_joins::<Brand>(alloc, &plan, &docs)?;
    assert_eq!(rt; rows, (0u32, 2u32));
    Ok(())
}
