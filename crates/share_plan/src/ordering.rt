//! The order in which the nodes of a plan are needed.

ghost use Rattle.std.specs.Prelude.{◌≡◌, ℕ, ◌<◌, ◌⊎◌, ◌∷◌, ◌++◌, [], Some, IfOk, IfSome, OnOk, Contains, length, slice_index_or};
ghost use Rattle.algebra.specs.declared.node.Node as declared_node;
ghost use Rattle.algebra.specs.Inputs.{IsAmong};
ghost use Rattle.algebra.specs.Items.{output_nodes};
ghost use Rattle.share_plan.specs.Marks.{IsMarked};
ghost use Rattle.share_plan.specs.Walks.{IsOrder, IsWalked, IsWay, missing, steps_left, unmarked};

use algebra::{Nodes, Plan};
use span_token::OutOfMemory;
use std::alloc::Global;

/// Nodes in the order in which they are needed, and for each node of the plan whether it is one of them.
#[derive(Drop)]
pub(crate) struct Order {
    pub(crate) numbers: Vec<u32>,
    pub(crate) marks: Vec<bool>,
}

/// The nodes that somebody reads, in the order in which they are needed: for each output its node, but before
/// a node all that its left input needs, and then all that its right one does.
pub(crate) fn order_of(alloc: Global, plan: &Plan) -> Result<Order, OutOfMemory>
    ensures { IfOk result (λ order. IsOrder plan.now.nodes (output_nodes plan.now) order.numbers.items order.marks.items) }
{
    let number = plan.nodes().len() as usize;
    let mut order = Order {
        numbers: Vec::new(alloc),
        marks: vec![in alloc; false; number]?,
    };
    for out in plan.outputs() {
        walk(alloc, plan, out.node, &mut order)?;
    }
    Ok(order)
}

/// Goes down to what node `out` needs, and puts all that wasn't there behind the others, the node last.
fn walk(alloc: Global, plan: &Plan, out: u32, order: &mut Order) -> Result<(), OutOfMemory>
    requires there { out < length plan.now.nodes }
    requires shown { Contains (output_nodes plan.now) out }
    requires walked { IsWalked plan.now.nodes (output_nodes plan.now) order.old.numbers.items order.old.marks.items }
    ensures walked { OnOk result (IsWalked plan.now.nodes (output_nodes plan.now) order.new.numbers.items order.new.marks.items) }
    ensures more { OnOk result ((i : ℕ) → IsMarked order.old.marks.items i → IsMarked order.new.marks.items i) }
    ensures put { OnOk result (IsMarked order.new.marks.items out) }
{
    if order.marks[out as usize] {
        return Ok(());
    }
    let mut way = Vec::new(alloc);
    way.push(out)?;
    'way: while let Some(n) = way.pop() {
        step(plan, n, &mut way, order)?;
    }
    Ok(())
}

/// One step from the last node of the way down, which was taken off it: to its first input that wasn't gone
/// through, before which it waits, or back from it, where there is none.
fn step(plan: &Plan, n: u32, way: &mut Vec<u32>, order: &mut Order) -> Result<(), OutOfMemory>
    requires walked { IsWalked plan.now.nodes (output_nodes plan.now) order.old.numbers.items order.old.marks.items }
    requires way { IsWay plan.now.nodes (output_nodes plan.now) order.old.numbers.items order.old.marks.items (way.old.items ++ n ∷ []) }
    ensures walked { OnOk result (IsWalked plan.now.nodes (output_nodes plan.now) order.new.numbers.items order.new.marks.items) }
    ensures way { OnOk result (IsWay plan.now.nodes (output_nodes plan.now) order.new.numbers.items order.new.marks.items way.new.items) }
    ensures more { OnOk result ((i : ℕ) → IsMarked order.old.marks.items i → IsMarked order.new.marks.items i) }
    ensures on { OnOk result ((i : ℕ) → Contains (way.old.items ++ n ∷ []) i → Contains way.new.items i ⊎ IsMarked order.new.marks.items i) }
    ensures fewer { OnOk result (steps_left order.new.marks.items way.new.items < steps_left order.old.marks.items (way.old.items ++ n ∷ [])) }
{
    match first_missing(plan.nodes(), n, order.marks.as_slice()) {
        Some(i) => {
            way.push(n)?;
            way.push(i)?;
        }
        None => {
            order.numbers.push(n)?;
            order.marks[n as usize] = true;
        }
    }
    Ok(())
}

/// The first input of node `n` without a mark.
fn first_missing(nodes: &Nodes, n: u32, marks: &[bool]) -> Option<u32>
    requires there { n < length nodes.now }
    requires long { length marks.now ≡ length nodes.now }
    ensures first { (node : declared_node.Node) → node ≡ slice_index_or nodes.now n node → result ≡ missing marks.now node }
    ensures lower { IfSome result (λ i. i < n) }
{
    let (left, right) = nodes.get(n).inputs();
    match without_mark(left, marks) {
        Some(i) => Some(i),
        None => without_mark(right, marks),
    }
}

/// The input, where there is one without a mark.
fn without_mark(input: Option<u32>, marks: &[bool]) -> Option<u32>
    requires there { IsAmong (length marks.now) input }
    ensures unmarked { result ≡ unmarked marks.now input }
    ensures same { IfSome result (λ i. input ≡ Some i) }
{
    match input {
        Some(i) => { if marks[i as usize] { None } else { Some(i) } }
        None => None,
    }
}
