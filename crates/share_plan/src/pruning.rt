//! Plans without the nodes that nobody reads, in the order in which the others are needed.

ghost use Rattle.std.specs.Prelude.{◌≡◌, ℕ, ◌<◌, Some, length, slice_get, IfOk, OnOk};
ghost use Rattle.algebra.specs.Items.{output_nodes};
ghost use Rattle.algebra.specs.Nodes.{IsPlan};
ghost use Rattle.algebra.specs.Plans.{KeepsOutputs};
ghost use Rattle.share_plan.specs.Marks.{IsArranged};
ghost use Rattle.share_plan.specs.Ordering.{IsInOrder};
ghost use Rattle.share_plan.specs.Pruning.{AreRead, IsDropped};
ghost use Rattle.share_plan.specs.Renumbering.{IsRenumbered};
ghost use Rattle.share_plan.specs.Sharing.{AreDistinct, AreMerged};
ghost use Rattle.share_plan.specs.Walks.{AreReady};

use crate::ordering::order_of;
use crate::renumbering::renumbered;
use crate::sharing::outputs_shown;
use algebra::{Node, Nodes, Plan};
use span_token::OutOfMemory;
use std::alloc::Global;
use std::mem::replace;

/// The plan without the nodes that nobody reads: each that stays is shown by an output, or is read by a node
/// that stays.
///
/// The nodes that stay are put in the order in which they are needed: for each output its node, but before a
/// node all that its left input needs, and then all that its right one does. So what only right sides of joins
/// need stands behind their left side. But for that and for the numbers of their inputs the nodes are as they
/// were. Each output has its names and columns, stands where it stood, and shows on each document the same
/// rows, as a bag. Takes time linear in the plan.
///
/// Meaning: `KeepsOutputs`, `specs/Plans.antt` of `algebra`; `AreRead` and `IsDropped`, `specs/Pruning.antt`;
/// `IsInOrder`, `specs/Ordering.antt`; `IsRenumbered`, `specs/Renumbering.antt`.
pub fn prune(alloc: Global, plan: Plan) -> Result<Plan, OutOfMemory>
    ensures keeps { IfOk result (λ new. KeepsOutputs plan new) }
    ensures read { IfOk result AreRead }
    ensures ordered { IfOk result (λ new. IsInOrder new.nodes (output_nodes new)) }
    ensures renumbered { IfOk result (λ new. IsRenumbered plan.nodes new.nodes) }
    ensures dropped { IfOk result (λ new. IsDropped plan.nodes (output_nodes plan) new.nodes (output_nodes new)) }
    ensures distinct { IfOk result (λ new. AreDistinct plan.nodes → AreDistinct new.nodes) }
    ensures merged { IfOk result (λ new. AreMerged plan.nodes → AreMerged new.nodes) }
{
    let order = order_of(alloc, &plan)?;
    let (old, tables, outputs) = plan.into_parts();
    let mut to = vec![in alloc; 0; old.len() as usize]?;
    let nodes = kept_nodes(alloc, old, order.numbers.as_slice(), &mut to)?;
    let outputs = outputs_shown(alloc, outputs, to.as_slice())?;
    Ok(Plan::new(nodes, tables, outputs))
}

/// The nodes of these numbers, one after another, reading their inputs by their new numbers, which `to` has.
fn kept_nodes(
    alloc: Global,
    old: Nodes,
    numbers: &[u32],
    to: &mut Vec<u32>,
) -> Result<Nodes, OutOfMemory>
    requires long { length to.old.items ≡ length old }
    requires ready { AreReady old numbers.now }
    ensures arranged { IfOk result (λ new. IsArranged numbers.now old new to.new.items) }
    ensures plan { OnOk result (IsPlan old) }
{
    let mut nodes = Nodes::new(alloc);
    let mut rest = old.into_vec();
    for i in numbers {
        let node = renumbered(taken(&mut rest, *i), to.as_slice());
        let n = nodes.add(node)?;
        to[*i as usize] = n;
    }
    Ok(nodes)
}

/// Takes out node `i`; another one is left in its place.
fn taken(nodes: &mut Vec<Node>, i: u32) -> Node
    requires there { i < length nodes.old.items }
    ensures node { Some result ≡ slice_get nodes.old.items i }
    ensures others { (k : ℕ) → (k ≡ i → ⊥) → slice_get nodes.new.items k ≡ slice_get nodes.old.items k }
{
    replace(&mut nodes[i as usize], Node::Doc)
}
