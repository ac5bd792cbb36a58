//! Plans that are put together anew, node by node.

ghost use Rattle.std.specs.Prelude.{IfOk};
ghost use Rattle.algebra.specs.Growth.{Stands};
ghost use Rattle.algebra.specs.Nodes.{IsNode};
ghost use Rattle.algebra.specs.Shapes.{shapes_of};

use crate::evaluation::{READ_OFTEN, expect_rows, read_often};
use algebra::{Node, Nodes, Plan, Rewrite, rewritten};
use span_token::{OutOfMemory, OwnedList};
use std::alloc::Global;
use std::test::Fail;

/// Puts each node as it is.
#[derive(Drop)]
struct Same;

impl Rewrite for Same {
    ghost use Rattle.std.specs.Prelude.{⊤};

    ghost knows = { λ rule nodes. ⊤ };

    fn put(&mut self, _alloc: Global, nodes: &mut Nodes, node: Node) -> Result<u32, OutOfMemory> {
        nodes.add(node)
    }
}

/// Puts a limit without a number behind each union.
#[derive(Drop)]
struct Longer;

impl Rewrite for Longer {
    ghost use Rattle.std.specs.Prelude.{⊤};

    ghost knows = { λ rule nodes. ⊤ };

    fn put(&mut self, alloc: Global, nodes: &mut Nodes, node: Node) -> Result<u32, OutOfMemory> {
        match node {
            Node::Union { left, right } => longer_union(alloc, nodes, left, right),
            other => nodes.add(other),
        }
    }
}

/// Puts a union and a limit without a number behind it, which stands for the union.
#[tactic(auto, using(crate::proofs::LongerUnions::may_stand, crate::proofs::LongerUnions::stands_for))]
fn longer_union(alloc: Global, nodes: &mut Nodes, left: u32, right: u32) -> Result<u32, OutOfMemory>
    requires valid { IsNode (shapes_of nodes.old) (Node.Union left right) }
    ensures stands { IfOk result (λ n. Stands nodes.old nodes.new n (Node.Union left right)) }
{
    let inside = nodes.add(Node::Union { left, right })?;
    let keys = OwnedList::new(alloc);
    let n = nodes.add(Node::OrderLimit {
        input: inside,
        keys,
        limit: None,
    })?;
    Ok(n)
}

#[test]
fn outputs_of_a_plan_that_is_put_together_anew(rt: HostRuntime) -> Result<(), Fail> {
    let alloc = rt.alloc();
    let plan = rewritten(alloc, read_often(alloc)?, &mut Same)?;
    assert!(rt; plan.nodes().len() == 8);
    expect_rows(&rt, alloc, &plan, &[3, 4, 6, 7], READ_OFTEN, &[])
}

/// Whether a plan shows these nodes, in this order.
fn shows(plan: &Plan, nodes: &[u32]) -> bool {
    let outputs = plan.outputs();
    outputs.len() == nodes.len()
        && outputs
            .iter()
            .zip(nodes)
            .all(|(out, node)| out.node == *node)
}

#[test]
fn outputs_of_a_longer_plan(rt: HostRuntime) -> Result<(), Fail> {
    let alloc = rt.alloc();
    let plan = rewritten(alloc, read_often(alloc)?, &mut Longer)?;
    assert!(rt; plan.nodes().len() == 10);
    assert!(rt; shows(&plan, &[3, 5, 7, 9]));
    expect_rows(
        &rt,
        alloc,
        &plan,
        &[3, 5, 7, 9],
        "3 1:[15-19][20-23]
5 1:[1-3][4-7][9-10][15-19][15-19][20-23][20-23]
7 2:[15-19 15-19][15-19 20-23][20-23 15-19][20-23 20-23]
9 1:[1-3][1-3][4-7][4-7][9-10][9-10]
",
        &[],
    )
}
