ghost use Rattle.std.specs.Prelude.{◌≡◌, ◌<◌, [], length, map, All, IfOk};
ghost use Rattle.algebra.specs.Mapping.{renumbered, IsMapped};
ghost use Rattle.algebra.specs.Nodes.{IsPlan};
ghost use Rattle.algebra.specs.Plans.{KeepsOutputs};
ghost use Rattle.share_plan.specs.Putting.{IsOpenAt};
ghost use Rattle.share_plan.specs.Renumbering.{IsRenumbered};
ghost use Rattle.share_plan.specs.Sharing.{AreDistinct, AreMerged};

use crate::index::Shared;
use crate::renumbering::renumbered;
use algebra::{Node, Nodes, Plan, PlanOut};
use span_token::OutOfMemory;
use std::alloc::Global;

/// The plan in which nothing is done twice: equal nodes are one, and all dictionaries that are looked for in
/// one column of one input are one `Dict` node, with a `DictPart` for each that is read.
///
/// Each output has its names and columns, stands where it stood, and shows on each document the same rows, as
/// a bag. `Dict` nodes that nobody reads are left out. Takes time about linear in the plan. More nodes or
/// dictionaries than `u32` can count are want of memory.
///
/// Meaning: `KeepsOutputs`, `specs/Plans.antt` of `algebra`; `AreDistinct`, `AreMerged`,
/// `specs/Sharing.antt`.
pub fn share(alloc: Global, plan: Plan) -> Result<Plan, OutOfMemory>
    ensures keeps { IfOk result (λ new. KeepsOutputs plan new) }
    ensures distinct { IfOk result (λ new. AreDistinct new.nodes) }
    ensures merged { IfOk result (λ new. AreMerged new.nodes) }
    ensures renumbered { IfOk result (λ new. IsRenumbered plan.nodes new.nodes) }
{
    let (old, tables, outputs) = plan.into_parts();
    let mut to = Vec::new(alloc);
    let shared = shared_nodes(alloc, old, &mut to)?;
    let nodes = planned(alloc, shared)?;
    let outputs = outputs_shown(alloc, outputs, to.as_slice())?;
    Ok(Plan::new(nodes, tables, outputs))
}

/// The nodes without equal ones; `to` has for each old node that any node may read the number of the one
/// that stands for it.
fn shared_nodes(alloc: Global, old: Nodes, to: &mut Vec<u32>) -> Result<Vec<Node>, OutOfMemory>
    requires none_yet { to.old.items ≡ [] }
    ensures plan { IfOk result (λ new. IsPlan new.items) }
    ensures mapped { IfOk result (λ new. IsMapped (IsOpenAt old) old new.items to.new.items) }
    ensures renumbered { IfOk result (λ new. IsRenumbered old new.items) }
    ensures distinct { IfOk result (λ new. AreDistinct new.items) }
    ensures merged { IfOk result (λ new. AreMerged new.items) }
{
    let mut shared = Shared::new(alloc);
    for node in old.into_vec() {
        let node = renumbered(node, to.as_slice());
        let n = shared.put(alloc, node)?;
        to.push(n)?;
    }
    Ok(shared.nodes)
}

/// The nodes of a plan, one after another.
fn planned(alloc: Global, nodes: Vec<Node>) -> Result<Nodes, OutOfMemory>
    requires { IsPlan nodes.items }
    ensures { IfOk result (λ new. new ≡ nodes.items) }
{
    let mut new = Nodes::new(alloc);
    for node in nodes {
        new.add(node)?;
    }
    Ok(new)
}

/// The outputs, each shown by the node that stands for its own.
pub(crate) fn outputs_shown(
    alloc: Global,
    outputs: Vec<PlanOut>,
    to: &[u32],
) -> Result<Vec<PlanOut>, OutOfMemory>
    requires there { All (λ out. out.node < length to.now) outputs.items }
    ensures { IfOk result (λ new. new.items ≡ map (renumbered to.now) outputs.items) }
{
    let mut new = Vec::new(alloc);
    for out in outputs {
        new.push(PlanOut {
            names: out.names,
            node: to[out.node as usize],
        })?;
    }
    Ok(new)
}
