ghost use Rattle.std.specs.Prelude.{◌≡◌, ◌<◌, [], length, map, IfOk, OnOk, All};
ghost use Rattle.algebra.specs.Growth.{Stands};
ghost use Rattle.algebra.specs.Inputs.{left_input, right_input, with_inputs, IsAmong};
ghost use Rattle.algebra.specs.Mapping.{every, new_number, renumbered, IsMapped};
ghost use Rattle.algebra.specs.Nodes.{IsNode};
ghost use Rattle.algebra.specs.Plans.{KeepsOutputs};
ghost use Rattle.algebra.specs.Shapes.{shapes_of};

use crate::inputs::with_inputs;
use crate::{Node, Nodes, Plan, PlanOut};
use span_token::OutOfMemory;
use std::alloc::Global;

/// A way to put nodes into a plan that grows, such that each has a node that stands for it.
///
/// `knows` is what the rewrite keeps of the nodes so far: the form that it gives to a plan, and what it
/// remembers of them.
pub trait Rewrite {
    ghost use Rattle.std.specs.Prelude.{List};
    ghost use Rattle.algebra.specs.declared.node.Node as declared_node;

    ghost knows: { Self → List declared_node.Node → Type 0 };

    /// The number of a node that stands for `node`: one that is there, or one that is put after the others.
    fn put(&mut self, alloc: Global, nodes: &mut Nodes, node: Node) -> Result<u32, OutOfMemory>
        requires valid { IsNode (shapes_of nodes.old) node }
        requires knows { knows self.old nodes.old }
        ensures stands { IfOk result (λ n. Stands nodes.old nodes.new n node) }
        ensures knows { OnOk result (knows self.new nodes.new) };
}

/// The plan that is put together anew by a rewrite, node by node: each output shows the same rows on each
/// document, as a bag.
pub fn rewritten<R: Rewrite>(alloc: Global, plan: Plan, rule: &mut R) -> Result<Plan, OutOfMemory>
    requires knows { R.knows rule.old [] }
    ensures keeps { IfOk result (λ new. KeepsOutputs plan new) }
    ensures knows { IfOk result (λ new. R.knows rule.new new.nodes) }
{
    let (old, tables, outputs) = plan.into_parts();
    let mut to = Vec::new(alloc);
    let nodes = rebuilt(alloc, old, rule, &mut to)?;
    let outputs = outputs_renumbered(alloc, outputs, to.as_slice())?;
    Ok(Plan::new(nodes, tables, outputs))
}

/// The nodes that a rewrite puts for some nodes; `to` has the numbers of those that stand for them.
fn rebuilt<R: Rewrite>(
    alloc: Global,
    old: Nodes,
    rule: &mut R,
    to: &mut Vec<u32>,
) -> Result<Nodes, OutOfMemory>
    requires knows { R.knows rule.old [] }
    requires none_yet { to.old.items ≡ [] }
    ensures mapped { IfOk result (λ new. IsMapped every old new to.new.items) }
    ensures knows { IfOk result (λ new. R.knows rule.new new) }
{
    let mut nodes = Nodes::new(alloc);
    for node in old.into_vec() {
        let node = with_inputs(node, to.as_slice());
        let n = rule.put(alloc, &mut nodes, node)?;
        to.push(n)?;
    }
    Ok(nodes)
}

/// The outputs, each shown by the node that stands for its own.
fn outputs_renumbered(
    alloc: Global,
    outputs: Vec<PlanOut>,
    to: &[u32],
) -> Result<Vec<PlanOut>, OutOfMemory>
    requires there { All (λ out. out.node < length to.now) outputs.items }
    ensures { IfOk result (λ new. new.items ≡ map (renumbered to.now) outputs.items) }
{
    let mut new = Vec::new(alloc);
    for out in outputs {
        new.push(PlanOut {
            names: out.names,
            node: to[out.node as usize],
        })?;
    }
    Ok(new)
}
