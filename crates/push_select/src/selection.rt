//! Selections, with their conditions as low as they can stand.

ghost use Rattle.std.specs.Prelude.{map, IfOk, OnOk, All};
ghost use Rattle.scalar_ops.specs.Expressions.{column, ReadsBelow};
ghost use Rattle.scalar_ops.specs.Views.{term_of};
ghost use Rattle.algebra.specs.declared.node.Node.TheVariants.{Select, Project, Union};
ghost use Rattle.algebra.specs.Growth.{Stands, IsAt};
ghost use Rattle.algebra.specs.Nodes.{IsNode};
ghost use Rattle.algebra.specs.Shapes.{shapes_of};
ghost use Rattle.push_select.specs.Replacing.{cross_of, join_of_pair, joint_width, IsPushed, Narrows, NarrowsPair};

use crate::below::{Below, Pair, below_of};
use crate::copying::{Numbers, all_copied, all_renamed};
use crate::join::Join;
use crate::joining::{joined, paired};
use crate::projecting::shown_of;
use crate::sides::by_side;
use algebra::{Node, Nodes};
use scalar_ops::{Expr, Exprs};
use span_token::OutOfMemory;
use std::alloc::Global;

/// Two nodes that are narrowed, and the conditions that read both.
#[derive(Debug, Drop)]
struct NarrowedPair {
    pair: Pair,
    joint: Vec<Expr>,
}

/// A node that stands for the selection of the rows of `input` on which every condition holds.
#[cycle(selection)]
pub(crate) fn selected(
    alloc: Global,
    nodes: &mut Nodes,
    input: u32,
    conds: Exprs,
) -> Result<u32, OutOfMemory>
    requires valid { IsNode (shapes_of nodes.old) (Select input conds) }
    requires pushed { IsPushed nodes.old }
    ensures stands { IfOk result (λ n. Stands nodes.old nodes.new n (Select input conds)) }
    ensures pushed { OnOk result (IsPushed nodes.new) }
{
    let below = below_of(alloc, nodes.get(input))?;
    match below {
        Below::Product(pair) => {
            let n = pairs_selected(alloc, nodes, input, pair, conds)?;
            Ok(n)
        }
        Below::Joined(pair, join) => {
            let n = joins_selected(alloc, nodes, input, pair, join, conds)?;
            Ok(n)
        }
        Below::Both(left, right) => {
            let n = both_selected(alloc, nodes, input, left, right, conds)?;
            Ok(n)
        }
        Below::Columns(from, shown) => {
            let n = columns_selected(alloc, nodes, input, from, shown, conds)?;
            Ok(n)
        }
        Below::Other => {
            let n = nodes.add(Node::Select { input, conds })?;
            Ok(n)
        }
    }
}

/// The same of a product.
#[cycle(selection)]
fn pairs_selected(
    alloc: Global,
    nodes: &mut Nodes,
    input: u32,
    pair: Pair,
    conds: Exprs,
) -> Result<u32, OutOfMemory>
    requires at { IsAt nodes.old input (cross_of pair) }
    requires valid { IsNode (shapes_of nodes.old) (Select input conds) }
    requires pushed { IsPushed nodes.old }
    ensures stands { IfOk result (λ n. Stands nodes.old nodes.new n (Select input conds)) }
    ensures pushed { OnOk result (IsPushed nodes.new) }
{
    let narrowed = pair_narrowed(alloc, nodes, pair, conds.as_slice())?;
    let n = paired(alloc, nodes, narrowed.pair, narrowed.joint)?;
    Ok(n)
}

/// The same of a join.
#[cycle(selection)]
fn joins_selected(
    alloc: Global,
    nodes: &mut Nodes,
    input: u32,
    pair: Pair,
    join: Join,
    conds: Exprs,
) -> Result<u32, OutOfMemory>
    requires at { IsAt nodes.old input (join_of_pair pair join) }
    requires valid { IsNode (shapes_of nodes.old) (Select input conds) }
    requires pushed { IsPushed nodes.old }
    ensures stands { IfOk result (λ n. Stands nodes.old nodes.new n (Select input conds)) }
    ensures pushed { OnOk result (IsPushed nodes.new) }
{
    let narrowed = pair_narrowed(alloc, nodes, pair, conds.as_slice())?;
    let n = joined(nodes, narrowed.pair, join, narrowed.joint)?;
    Ok(n)
}

/// The same of a union: of both sides.
#[cycle(selection)]
fn both_selected(
    alloc: Global,
    nodes: &mut Nodes,
    input: u32,
    left: u32,
    right: u32,
    conds: Exprs,
) -> Result<u32, OutOfMemory>
    requires at { IsAt nodes.old input (Union left right) }
    requires valid { IsNode (shapes_of nodes.old) (Select input conds) }
    requires pushed { IsPushed nodes.old }
    ensures stands { IfOk result (λ n. Stands nodes.old nodes.new n (Select input conds)) }
    ensures pushed { OnOk result (IsPushed nodes.new) }
{
    let copies = all_copied(alloc, conds.as_slice())?;
    let copies = Exprs::from(copies);
    let left = selected(alloc, nodes, left, conds)?;
    let right = selected(alloc, nodes, right, copies)?;
    let n = nodes.add(Node::Union { left, right })?;
    Ok(n)
}

/// The same of a projection of plain columns: of the rows that it shows.
#[cycle(selection)]
fn columns_selected(
    alloc: Global,
    nodes: &mut Nodes,
    input: u32,
    from: u32,
    shown: Vec<u32>,
    conds: Exprs,
) -> Result<u32, OutOfMemory>
    requires at { IsAt nodes.old input (Project from (map column shown.items)) }
    requires valid { IsNode (shapes_of nodes.old) (Select input conds) }
    requires pushed { IsPushed nodes.old }
    ensures stands { IfOk result (λ n. Stands nodes.old nodes.new n (Select input conds)) }
    ensures pushed { OnOk result (IsPushed nodes.new) }
{
    let below = all_renamed(alloc, conds.as_slice(), Numbers::Listed(shown.as_slice()))?;
    let below = Exprs::from(below);
    let narrower = selected(alloc, nodes, from, below)?;
    let n = shown_of(alloc, nodes, narrower, shown.as_slice())?;
    Ok(n)
}

/// Two nodes, each narrowed by those of the conditions that read it alone.
#[cycle(selection)]
fn pair_narrowed(
    alloc: Global,
    nodes: &mut Nodes,
    pair: Pair,
    conds: &[Expr],
) -> Result<NarrowedPair, OutOfMemory>
    requires both { IsNode (shapes_of nodes.old) (cross_of pair) }
    requires reads { All (ReadsBelow (joint_width nodes.old pair)) (map term_of conds.now) }
    requires pushed { IsPushed nodes.old }
    ensures narrows { IfOk result (λ narrowed. NarrowsPair nodes.old nodes.new pair (map term_of conds.now) narrowed) }
    ensures pushed { OnOk result (IsPushed nodes.new) }
{
    let width = nodes.shape(pair.left).width;
    let parts = by_side(alloc, conds, width)?;
    let left = narrowed(alloc, nodes, pair.left, parts.left)?;
    let right = narrowed(alloc, nodes, pair.right, parts.right)?;
    Ok(NarrowedPair {
        pair: Pair { left, right },
        joint: parts.joint,
    })
}

/// A node of the rows of `input` on which every condition holds: `input` itself where there is none.
#[cycle(selection)]
fn narrowed(alloc: Global, nodes: &mut Nodes, input: u32, conds: Exprs) -> Result<u32, OutOfMemory>
    requires valid { IsNode (shapes_of nodes.old) (Select input conds) }
    requires pushed { IsPushed nodes.old }
    ensures narrows { IfOk result (λ n. Narrows nodes.old nodes.new input n conds) }
    ensures pushed { OnOk result (IsPushed nodes.new) }
{
    if conds.as_slice().is_empty() {
        return Ok(input);
    }
    let n = selected(alloc, nodes, input, conds)?;
    Ok(n)
}
