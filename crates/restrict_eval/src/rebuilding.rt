//! Nodes that are put together anew, with joins that look near their left rows.

ghost use Rattle.std.specs.Prelude.{◌≡◌, ◌<◌, ◌+◌, ◌∷◌, ◌++◌, [], length, map, All, IfOk, IfSome, OnOk};
ghost use Rattle.scalar_ops.specs.Expressions.{column};
ghost use Rattle.scalar_ops.specs.Views.{term_of};
ghost use Rattle.algebra.specs.declared.node.Node.TheVariants as variant;
ghost use Rattle.algebra.specs.ExtractionLaws.{columns_from};
ghost use Rattle.algebra.specs.Folds.{had};
ghost use Rattle.algebra.specs.Nodes.{IsNode, IsPlan};
ghost use Rattle.algebra.specs.Shapes.{shape_by, no_shape, shapes_of};
ghost use Rattle.algebra.specs.Shapes as shape;
ghost use Rattle.restrict_eval.specs.Putting.{beside, width_at, put_for, MayPut};
ghost use Rattle.restrict_eval.specs.Rebuilding.{IsRestrictedFrom};
ghost use Rattle.restrict_eval.specs.Restricting.{AreConditional};

use crate::nearness::{Near, restrictions};
use crate::renumbering::renumbered;
use algebra::{JoinKind, Node, Nodes, PlanOut};
use scalar_ops::{Expr, Exprs};
use span_token::OutOfMemory;
use std::alloc::Global;

/// The nodes that are put for those of a plan with these outputs; `to` has the number of what stands for
/// each.
pub(crate) fn rebuilt(
    alloc: Global,
    old: Nodes,
    outputs: &[PlanOut],
    to: &mut Vec<u32>,
) -> Result<Nodes, OutOfMemory>
    requires there { All (λ out. out.node < length old) outputs.now }
    requires none_yet { to.old.items ≡ [] }
    ensures rebuilt { IfOk result (λ new. IsRestrictedFrom old (map (λ out. out.node) outputs.now) new to.new.items) }
    ensures conditional { IfOk result (λ new. AreConditional new) }
    ensures plan { OnOk result (IsPlan old) }
{
    let found = restrictions(alloc, &old, outputs)?;
    let mut nodes = Nodes::new(alloc);
    for node in old.into_vec() {
        let n = put(alloc, &mut nodes, node, &found[to.len()], to.as_slice())?;
        to.push(n)?;
    }
    Ok(nodes)
}

/// Puts what stands for a node, and gives its number: a join that looks near its left rows, where something
/// can be looked for, and else the node with its inputs renumbered.
fn put(
    alloc: Global,
    nodes: &mut Nodes,
    node: Node,
    near: &Option<Near>,
    to: &[u32],
) -> Result<u32, OutOfMemory>
    requires may { MayPut nodes.old to.now near.now node }
    ensures added { OnOk result (nodes.new ≡ nodes.old ++ put_for nodes.old to.now near.now node) }
    ensures last { IfOk result (λ n. n + 1 ≡ length nodes.new) }
{
    let Some(near) = near else {
        return nodes.add(renumbered(node, to));
    };
    match node {
        Node::SpanJoin { left, kind, lc, .. } => {
            let outer = to[left as usize];
            let join = Node::Restricted {
                outer,
                source: to[near.source as usize],
                kind,
                lc,
                local: near.sought,
            };
            match &near.columns {
                Some(columns) => put_shown(alloc, nodes, outer, join, columns.as_slice()),
                None => nodes.add(join),
            }
        }
        _ => unreachable!(),
    }
}

/// Puts a join that looks near the rows of `outer`, and above it these rows beside the columns of what is
/// found that are shown.
fn put_shown(
    alloc: Global,
    nodes: &mut Nodes,
    outer: u32,
    join: Node,
    columns: &[u32],
) -> Result<u32, OutOfMemory>
    requires valid { IsNode (shapes_of nodes.old) join }
    requires outer { outer < length nodes.old }
    requires joins { had no_shape shape_by (shapes_of nodes.old) join ≡ shape.columns (width_at nodes.old outer + 2) }
    requires columns { All (λ c. c < 2) columns.now }
    ensures added { OnOk result (nodes.new ≡ nodes.old ++ join ∷ variant.Project (length nodes.old) (beside (width_at nodes.old outer) columns.now) ∷ []) }
    ensures last { IfOk result (λ n. n + 1 ≡ length nodes.new) }
{
    let width = nodes.shape(outer).width;
    let n = nodes.add(join)?;
    let items = beside(alloc, width, columns)?;
    nodes.add(Node::Project { input: n, items })
}

/// So many columns, and behind them these.
fn beside(alloc: Global, width: u32, columns: &[u32]) -> Result<Exprs, OutOfMemory>
    ensures { IfOk result (λ items. items ≡ beside width columns.now) }
{
    let mut items = Vec::new(alloc);
    push_first(&mut items, width)?;
    push_behind(&mut items, width, columns)?;
    Ok(Exprs::from(items))
}

/// Puts the first columns, as many as these.
fn push_first(items: &mut Vec<Expr>, number: u32) -> Result<(), OutOfMemory>
    ensures { OnOk result (map term_of items.new.items ≡ map term_of items.old.items ++ columns_from 0 number) }
{
    for n in 0..number {
        items.push(Expr::Column(n))?;
    }
    Ok(())
}

/// Puts columns as they are counted behind so many others. More than `u32` can count are want of memory.
fn push_behind(items: &mut Vec<Expr>, width: u32, columns: &[u32]) -> Result<(), OutOfMemory>
    ensures { OnOk result (map term_of items.new.items ≡ map term_of items.old.items ++ map column (map (λ c. width + c) columns.now)) }
{
    for n in columns {
        let Some(behind) = width.checked_add(*n) else {
            return Err(OutOfMemory);
        };
        items.push(Expr::Column(behind))?;
    }
    Ok(())
}
