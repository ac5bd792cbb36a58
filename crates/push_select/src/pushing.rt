ghost use Rattle.std.specs.Prelude.{IfOk};
ghost use Rattle.algebra.specs.Plans.{KeepsOutputs};
ghost use Rattle.push_select.specs.Pushed.{ArePushed, AreUnrestricted};

use crate::projecting::projected;
use crate::selection::selected;
use crate::unrestricting::unrestricted;
use algebra::{Node, Nodes, Plan, Rewrite, rewritten};
use span_token::OutOfMemory;
use std::alloc::Global;

/// The plan with its conditions as low as they can stand, and with joins by spans for products: each output
/// shows the same rows on each document, as a bag.
///
/// A condition of a selection goes down through projections of plain columns, with the numbers that the
/// columns have below, and to both sides of a union. Above a product or a join it goes down to the side that
/// it reads alone; one that reads no column goes to the left. An `And` is taken apart. A condition that is
/// `Follows`, `FollowsTok`, `Overlaps` or `Contains` of two plain columns, one of each side, makes the
/// product a join of its kind: the first that is a distance, else the first overlap, else the first
/// containment. The others stay in a selection above it. Of a product of three those are joined first that
/// such a condition connects, the last two before the first and the last; a projection gives columns their
/// order back. No condition goes down past another node, and of projections of plain columns one above
/// another one is left.
///
/// Every join of the answer asks for both of its inputs: a conditional one is put as one that isn't, and one
/// that looks near its left rows as the join of these with all that is found. What that saves is for a rewrite
/// that comes behind.
///
/// Meaning: `ArePushed` and `AreUnrestricted`, `specs/Pushed.antt`.
pub fn push(alloc: Global, plan: Plan) -> Result<Plan, OutOfMemory>
    ensures keeps { IfOk result (λ new. KeepsOutputs plan new) }
    ensures pushed { IfOk result (λ new. ArePushed new.nodes) }
    ensures unrestricted { IfOk result (λ new. AreUnrestricted new.nodes) }
{
    let mut rule = Pushing;
    let new = rewritten(alloc, plan, &mut rule)?;
    Ok(new)
}

/// Puts each selection as `selected` does, each projection as `projected` does, each join as one that asks for
/// both of its inputs, and every other node as it is.
#[derive(Drop)]
struct Pushing;

impl Rewrite for Pushing {
    ghost use Rattle.push_select.specs.Replacing.{IsPushed};

    ghost knows = { λ rule nodes. IsPushed nodes };

    fn put(&mut self, alloc: Global, nodes: &mut Nodes, node: Node) -> Result<u32, OutOfMemory> {
        match node {
            Node::Select { input, conds } => {
                let n = selected(alloc, nodes, input, conds)?;
                Ok(n)
            }
            Node::Project { input, items } => {
                let n = projected(alloc, nodes, input, items)?;
                Ok(n)
            }
            Node::Cross { left, right, .. } => {
                let n = nodes.add(Node::Cross {
                    left,
                    right,
                    conditional: false,
                })?;
                Ok(n)
            }
            Node::SpanJoin {
                left,
                right,
                kind,
                lc,
                rc,
                ..
            } => {
                let n = nodes.add(Node::SpanJoin {
                    left,
                    right,
                    kind,
                    lc,
                    rc,
                    conditional: false,
                })?;
                Ok(n)
            }
            Node::Restricted {
                outer,
                source,
                kind,
                lc,
                local,
            } => {
                let n = unrestricted(alloc, nodes, outer, source, kind, lc, local)?;
                Ok(n)
            }
            other => {
                let n = nodes.add(other)?;
                Ok(n)
            }
        }
    }
}
