//! Products with the side on their right that has the matches of a token-bounded pattern.

ghost use Rattle.std.specs.Prelude.{◌≡◌, ◌<◌, ◌↔◌, ◌++◌, false, ℕ, length, map, IfOk, OnOk, IsTrue};
ghost use Rattle.scalar_ops.specs.Views.{term_of};
ghost use Rattle.algebra.specs.declared.node.Local.TheVariants as sought;
ghost use Rattle.algebra.specs.declared.node.Node.TheVariants as variant;
ghost use Rattle.algebra.specs.ExtractionLaws.{columns_from};
ghost use Rattle.algebra.specs.Growth.{Stands};
ghost use Rattle.algebra.specs.Nodes.{IsNode};
ghost use Rattle.algebra.specs.Plans.{KeepsOutputs};
ghost use Rattle.algebra.specs.Shapes.{shapes_of};
ghost use Rattle.restrict_eval.specs.Turning.{HasRuns, HasMatches, AreTurned, turned_back};

use crate::nearness::{plain_columns, sought_by};
use algebra::{Local, Node, Nodes, Plan, Rewrite, rewritten};
use scalar_ops::{Expr, Exprs};
use span_token::OutOfMemory;
use std::alloc::Global;

/// The plan in which the matches of a token-bounded pattern aren't alone on the left of a product.
///
/// A product has its sides turned where the left one, and not the right one, has the matches of a
/// token-bounded pattern in the document, or plain columns of them; a projection above it gives the columns
/// their order back. Each output has its names and columns, stands where it stood, and shows on each document
/// the same rows, as a bag. It is meant for a plan whose conditions aren't pushed yet, so that joins are made
/// of the turned products. Takes time about linear in the plan.
///
/// Meaning: `AreTurned`, `specs/Turning.antt`; `KeepsOutputs`, `specs/Plans.antt` of `algebra`.
pub fn turn(alloc: Global, plan: Plan) -> Result<Plan, OutOfMemory>
    ensures keeps { IfOk result (λ new. KeepsOutputs plan new) }
    ensures turned { IfOk result (λ new. AreTurned new.nodes) }
{
    let mut rule = Turning;
    let new = rewritten(alloc, plan, &mut rule)?;
    Ok(new)
}

/// Puts each product as `crossed` does, and every other node as it is.
#[derive(Drop)]
struct Turning;

impl Rewrite for Turning {
    ghost use Rattle.restrict_eval.specs.Turning.{AreTurned};

    ghost knows = { λ rule nodes. AreTurned nodes };

    fn put(&mut self, alloc: Global, nodes: &mut Nodes, node: Node) -> Result<u32, OutOfMemory> {
        match node {
            Node::Cross {
                left,
                right,
                conditional,
            } => {
                let n = crossed(alloc, nodes, left, right, conditional)?;
                Ok(n)
            }
            other => {
                let _plan = nodes.as_slice();
                let n = nodes.add(other)?;
                Ok(n)
            }
        }
    }
}

/// A node that stands for the product of two nodes.
fn crossed(
    alloc: Global,
    nodes: &mut Nodes,
    left: u32,
    right: u32,
    conditional: bool,
) -> Result<u32, OutOfMemory>
    requires valid { IsNode (shapes_of nodes.old) (variant.Cross left right conditional) }
    requires turned { AreTurned nodes.old }
    ensures stands { IfOk result (λ n. Stands nodes.old nodes.new n (variant.Cross left right conditional)) }
    ensures turned { OnOk result (AreTurned nodes.new) }
{
    if has_matches(alloc, nodes, left)? {
        if has_matches(alloc, nodes, right)? {
            let n = kept(nodes, left, right, conditional)?;
            Ok(n)
        } else {
            let n = turned(alloc, nodes, left, right, conditional)?;
            Ok(n)
        }
    } else {
        let n = kept(nodes, left, right, conditional)?;
        Ok(n)
    }
}

/// The same as it is.
fn kept(nodes: &mut Nodes, left: u32, right: u32, conditional: bool) -> Result<u32, OutOfMemory>
    requires valid { IsNode (shapes_of nodes.old) (variant.Cross left right conditional) }
    requires turned { AreTurned nodes.old }
    requires may { HasMatches nodes.old left → HasMatches nodes.old right }
    ensures stands { IfOk result (λ n. Stands nodes.old nodes.new n (variant.Cross left right conditional)) }
    ensures turned { OnOk result (AreTurned nodes.new) }
{
    let _plan = nodes.as_slice();
    let n = nodes.add(Node::Cross {
        left,
        right,
        conditional,
    })?;
    Ok(n)
}

/// The same with the sides turned.
fn turned(
    alloc: Global,
    nodes: &mut Nodes,
    left: u32,
    right: u32,
    conditional: bool,
) -> Result<u32, OutOfMemory>
    requires valid { IsNode (shapes_of nodes.old) (variant.Cross left right conditional) }
    requires turned { AreTurned nodes.old }
    requires other { HasMatches nodes.old right → ⊥ }
    ensures stands { IfOk result (λ n. Stands nodes.old nodes.new n (variant.Cross left right conditional)) }
    ensures turned { OnOk result (AreTurned nodes.new) }
{
    let _plan = nodes.as_slice();
    let count = nodes.shape(left).width;
    let width = nodes.shape(right).width;
    let n = nodes.add(Node::Cross {
        left: right,
        right: left,
        conditional,
    })?;
    let items = turned_back(alloc, width, count)?;
    let n = nodes.add(Node::Project { input: n, items })?;
    Ok(n)
}

/// Whether a node has the matches of a token-bounded pattern in the document, or plain columns of them.
fn has_matches(alloc: Global, nodes: &Nodes, n: u32) -> Result<bool, OutOfMemory>
    requires there { n < length nodes.now }
    ensures { IfOk result (λ has. IsTrue has ↔ HasMatches nodes.now n) }
{
    match nodes.get(n) {
        Node::Project { input, items } => {
            let input = *input;
            match plain_columns(alloc, items.as_slice())? {
                Some(_columns) => Ok(has_runs(nodes, input)),
                None => Ok(false),
            }
        }
        _ => Ok(has_runs(nodes, n)),
    }
}

/// Whether a node has the matches of a token-bounded pattern in the document.
fn has_runs(nodes: &Nodes, n: u32) -> bool
    requires there { n < length nodes.now }
    ensures { IsTrue result ↔ HasRuns nodes.now n }
{
    match sought_by(nodes, n, None) {
        Some(near) => is_pattern(&near.sought),
        None => false,
    }
}

/// Whether it is the matches of a pattern that are looked for.
fn is_pattern(local: &Local) -> bool
    ensures pattern { (low high pattern : ℕ) → local.now ≡ sought.TokenRegex low high pattern → IsTrue result }
    ensures other { (d : ℕ) → local.now ≡ sought.Dict d → result ≡ false }
{
    matches!(local, Local::TokenRegex { .. })
}

/// The columns behind the first ones, then these.
fn turned_back(alloc: Global, width: u32, count: u32) -> Result<Exprs, OutOfMemory>
    ensures { IfOk result (λ items. items ≡ turned_back width count) }
{
    let mut items = Vec::new(alloc);
    push_columns(&mut items, width, count)?;
    push_columns(&mut items, 0, width)?;
    Ok(Exprs::from(items))
}

/// Puts so many columns from one on. More than `u32` can count are want of memory.
fn push_columns(items: &mut Vec<Expr>, first: u32, count: u32) -> Result<(), OutOfMemory>
    ensures { OnOk result (map term_of items.new.items ≡ map term_of items.old.items ++ columns_from first count) }
{
    let Some(_end) = first.checked_add(count) else {
        return Err(OutOfMemory);
    };
    for n in 0..count {
        items.push(Expr::Column(first + n))?;
    }
    Ok(())
}
