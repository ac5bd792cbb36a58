//! Rows of two nodes put together, by a join where a condition stands for one.

ghost use Rattle.std.specs.Prelude.{◌≡◌, None, map, IfOk, OnOk, All, slice_get};
ghost use Rattle.scalar_ops.specs.Expressions.{column, ReadsBelow};
ghost use Rattle.scalar_ops.specs.Views.{term_of};
ghost use Rattle.algebra.specs.declared.node.Node.TheVariants.{Select, Project};
ghost use Rattle.algebra.specs.Growth.{Stands, IsAt};
ghost use Rattle.algebra.specs.Nodes.{IsNode};
ghost use Rattle.algebra.specs.Shapes.{shapes_of};
ghost use Rattle.push_select.specs.Conditions.{IsApart};
ghost use Rattle.push_select.specs.Joins.{join_of, IsChoice};
ghost use Rattle.push_select.specs.Replacing.{all_pairs, joined_by, cross_of, join_of_pair, front_of, behind_of, joint_width, three_width, IsPushed, IsPlain, Combines, CombinesThree};
ghost use Rattle.push_select.specs.Pushed.{width_at, ReadsBoth, StandAbove};

use crate::below::{Below, Pair, Three, below_of, is_product};
use crate::copying::{Numbers, all_renamed};
use crate::join::{Choice, Join, chosen, join_behind};
use crate::projecting::shown_of;
use crate::swapping::{columns_swapped, push_numbers};
use crate::turning::turns_of;
use algebra::{Node, Nodes};
use scalar_ops::{Expr, Exprs};
use span_token::OutOfMemory;
use std::alloc::Global;

/// A node of the pairs of a left and a right row on which every condition holds: a join by the first of
/// them that one stands for, and else a product, with the others in a selection above.
///
/// Where the left node is a product and a join connects one of its sides with the right node, these two are
/// joined first, and then the other side with what they give. So it is where the left node shows columns of a
/// product.
#[cycle(pairing)]
pub(crate) fn paired(
    alloc: Global,
    nodes: &mut Nodes,
    pair: Pair,
    conds: Vec<Expr>,
) -> Result<u32, OutOfMemory>
    requires both { IsNode (shapes_of nodes.old) (cross_of pair) }
    requires reads { All (ReadsBelow (joint_width nodes.old pair)) (map term_of conds.items) }
    requires joint { All (ReadsBoth (width_at nodes.old pair.left)) (map term_of conds.items) }
    requires apart { All IsApart (map term_of conds.items) }
    requires pushed { IsPushed nodes.old }
    ensures combines { IfOk result (λ n. Combines nodes.old nodes.new pair n all_pairs (map term_of conds.items)) }
    ensures pushed { OnOk result (IsPushed nodes.new) }
{
    let below = below_of(alloc, nodes.get(pair.left))?;
    match below {
        Below::Product(inner) => {
            let n = three_paired(alloc, nodes, pair, inner, conds)?;
            Ok(n)
        }
        Below::Columns(from, shown) => {
            let n = columns_paired(alloc, nodes, pair, from, shown, conds)?;
            Ok(n)
        }
        _ => {
            let n = matched(nodes, pair, conds)?;
            Ok(n)
        }
    }
}

/// The same where the left node is a product: what a join connects of the three is joined first.
#[cycle(pairing)]
fn three_paired(
    alloc: Global,
    nodes: &mut Nodes,
    pair: Pair,
    inner: Pair,
    conds: Vec<Expr>,
) -> Result<u32, OutOfMemory>
    requires at { IsAt nodes.old pair.left (cross_of inner) }
    requires both { IsNode (shapes_of nodes.old) (cross_of pair) }
    requires reads { All (ReadsBelow (joint_width nodes.old pair)) (map term_of conds.items) }
    requires joint { All (ReadsBoth (width_at nodes.old pair.left)) (map term_of conds.items) }
    requires apart { All IsApart (map term_of conds.items) }
    requires pushed { IsPushed nodes.old }
    ensures combines { IfOk result (λ n. Combines nodes.old nodes.new pair n all_pairs (map term_of conds.items)) }
    ensures pushed { OnOk result (IsPushed nodes.new) }
{
    let first = nodes.shape(inner.left).width;
    let width = nodes.shape(pair.left).width;
    if join_behind(conds.as_slice(), first, width) {
        let three = Three {
            first: inner.left,
            second: inner.right,
            third: pair.right,
        };
        let n = turned(alloc, nodes, three, conds)?;
        Ok(n)
    } else if join_behind(conds.as_slice(), 0, width) {
        let n = swapped(alloc, nodes, pair, inner, conds)?;
        Ok(n)
    } else {
        let n = matched(nodes, pair, conds)?;
        Ok(n)
    }
}

/// A node of the rows of three nodes on which every condition holds, the second and the third of them joined
/// first.
#[cycle(pairing)]
fn turned(
    alloc: Global,
    nodes: &mut Nodes,
    three: Three,
    conds: Vec<Expr>,
) -> Result<u32, OutOfMemory>
    requires front { IsNode (shapes_of nodes.old) (cross_of (front_of three)) }
    requires behind { IsNode (shapes_of nodes.old) (cross_of (behind_of three)) }
    requires reads { All (ReadsBelow (three_width nodes.old three)) (map term_of conds.items) }
    requires joint { All (ReadsBoth (joint_width nodes.old (front_of three))) (map term_of conds.items) }
    requires apart { All IsApart (map term_of conds.items) }
    requires pushed { IsPushed nodes.old }
    ensures combines { IfOk result (λ n. CombinesThree nodes.old nodes.new three n (map term_of conds.items)) }
    ensures pushed { OnOk result (IsPushed nodes.new) }
{
    let width = nodes.shape(three.first).width;
    let turns = turns_of(alloc, conds.as_slice(), width)?;
    let behind = Pair {
        left: three.second,
        right: three.third,
    };
    let right = paired(alloc, nodes, behind, turns.later)?;
    let front = Pair {
        left: three.first,
        right,
    };
    let n = paired(alloc, nodes, front, turns.others)?;
    Ok(n)
}

/// The same of a product and a third node, the first and the third of them joined first: the sides of the
/// product are swapped, and a projection gives the columns their order back.
#[cycle(pairing)]
fn swapped(
    alloc: Global,
    nodes: &mut Nodes,
    pair: Pair,
    inner: Pair,
    conds: Vec<Expr>,
) -> Result<u32, OutOfMemory>
    requires at { IsAt nodes.old pair.left (cross_of inner) }
    requires both { IsNode (shapes_of nodes.old) (cross_of pair) }
    requires reads { All (ReadsBelow (joint_width nodes.old pair)) (map term_of conds.items) }
    requires joint { All (ReadsBoth (width_at nodes.old pair.left)) (map term_of conds.items) }
    requires apart { All IsApart (map term_of conds.items) }
    requires pushed { IsPushed nodes.old }
    ensures combines { IfOk result (λ n. Combines nodes.old nodes.new pair n all_pairs (map term_of conds.items)) }
    ensures pushed { OnOk result (IsPushed nodes.new) }
{
    let first = nodes.shape(inner.left).width;
    let second = nodes.shape(inner.right).width;
    let mut shown = columns_swapped(alloc, first, second)?;
    let width = nodes.shape(pair.left).width;
    push_numbers(&mut shown, width, nodes.shape(pair.right).width)?;
    let below = all_renamed(alloc, conds.as_slice(), Numbers::Listed(shown.as_slice()))?;
    let three = Three {
        first: inner.right,
        second: inner.left,
        third: pair.right,
    };
    let all = turned(alloc, nodes, three, below)?;
    let n = shown_of(alloc, nodes, all, shown.as_slice())?;
    Ok(n)
}

/// The same where the left node shows columns of another: where that is a product and a join stands for a
/// condition, they are shown of what that product gives with the right node.
#[cycle(pairing)]
fn columns_paired(
    alloc: Global,
    nodes: &mut Nodes,
    pair: Pair,
    from: u32,
    shown: Vec<u32>,
    conds: Vec<Expr>,
) -> Result<u32, OutOfMemory>
    requires at { IsAt nodes.old pair.left (Project from (map column shown.items)) }
    requires both { IsNode (shapes_of nodes.old) (cross_of pair) }
    requires reads { All (ReadsBelow (joint_width nodes.old pair)) (map term_of conds.items) }
    requires joint { All (ReadsBoth (width_at nodes.old pair.left)) (map term_of conds.items) }
    requires apart { All IsApart (map term_of conds.items) }
    requires pushed { IsPushed nodes.old }
    ensures combines { IfOk result (λ n. Combines nodes.old nodes.new pair n all_pairs (map term_of conds.items)) }
    ensures pushed { OnOk result (IsPushed nodes.new) }
{
    let width = nodes.shape(pair.left).width;
    if !is_product(nodes.get(from)) || !join_behind(conds.as_slice(), 0, width) {
        let n = matched(nodes, pair, conds)?;
        return Ok(n);
    }
    let mut shown = shown;
    let width = nodes.shape(from).width;
    push_numbers(&mut shown, width, nodes.shape(pair.right).width)?;
    let below = all_renamed(alloc, conds.as_slice(), Numbers::Listed(shown.as_slice()))?;
    let beneath = Pair {
        left: from,
        right: pair.right,
    };
    let all = paired(alloc, nodes, beneath, below)?;
    let n = shown_of(alloc, nodes, all, shown.as_slice())?;
    Ok(n)
}

/// The same by the conditions alone, without a look at what the left node is.
fn matched(nodes: &mut Nodes, pair: Pair, conds: Vec<Expr>) -> Result<u32, OutOfMemory>
    requires both { IsNode (shapes_of nodes.old) (cross_of pair) }
    requires reads { All (ReadsBelow (joint_width nodes.old pair)) (map term_of conds.items) }
    requires joint { All (ReadsBoth (width_at nodes.old pair.left)) (map term_of conds.items) }
    requires apart { All IsApart (map term_of conds.items) }
    requires pushed { IsPushed nodes.old }
    ensures combines { IfOk result (λ n. Combines nodes.old nodes.new pair n all_pairs (map term_of conds.items)) }
    ensures pushed { OnOk result (IsPushed nodes.new) }
{
    let width = nodes.shape(pair.left).width;
    match chosen(conds.as_slice(), width) {
        Some(found) => {
            let n = found_joined(nodes, pair, found, conds)?;
            Ok(n)
        }
        None => {
            let n = crossed(nodes, pair, conds)?;
            Ok(n)
        }
    }
}

/// The same by the join that is found, with the other conditions above.
fn found_joined(
    nodes: &mut Nodes,
    pair: Pair,
    found: Choice,
    conds: Vec<Expr>,
) -> Result<u32, OutOfMemory>
    requires both { IsNode (shapes_of nodes.old) (cross_of pair) }
    requires reads { All (ReadsBelow (joint_width nodes.old pair)) (map term_of conds.items) }
    requires joint { All (ReadsBoth (width_at nodes.old pair.left)) (map term_of conds.items) }
    requires found { IsChoice (width_at nodes.old pair.left) conds.items found }
    requires pushed { IsPushed nodes.old }
    ensures combines { IfOk result (λ n. Combines nodes.old nodes.new pair n all_pairs (map term_of conds.items)) }
    ensures pushed { OnOk result (IsPushed nodes.new) }
{
    let mut others = conds;
    let _joins = others.remove(found.number);
    let n = joined(nodes, pair, found.join, others)?;
    Ok(n)
}

/// A node of the pairs that a join picks on which every condition holds.
pub(crate) fn joined(
    nodes: &mut Nodes,
    pair: Pair,
    join: Join,
    conds: Vec<Expr>,
) -> Result<u32, OutOfMemory>
    requires both { IsNode (shapes_of nodes.old) (join_of_pair pair join) }
    requires reads { All (ReadsBelow (joint_width nodes.old pair)) (map term_of conds.items) }
    requires joint { All (ReadsBoth (width_at nodes.old pair.left)) (map term_of conds.items) }
    requires pushed { IsPushed nodes.old }
    ensures combines { IfOk result (λ n. Combines nodes.old nodes.new pair n (joined_by join) (map term_of conds.items)) }
    ensures pushed { OnOk result (IsPushed nodes.new) }
{
    let both = nodes.add(Node::SpanJoin {
        left: pair.left,
        right: pair.right,
        kind: join.kind,
        lc: join.lc,
        rc: join.rc,
        conditional: false,
    })?;
    let n = filtered(nodes, both, conds)?;
    Ok(n)
}

/// A node of all pairs on which every condition holds, of which no join stands for one.
fn crossed(nodes: &mut Nodes, pair: Pair, conds: Vec<Expr>) -> Result<u32, OutOfMemory>
    requires both { IsNode (shapes_of nodes.old) (cross_of pair) }
    requires reads { All (ReadsBelow (joint_width nodes.old pair)) (map term_of conds.items) }
    requires joint { All (ReadsBoth (width_at nodes.old pair.left)) (map term_of conds.items) }
    requires apart { All IsApart (map term_of conds.items) }
    requires no_join { All (λ cond. join_of (width_at nodes.old pair.left) (term_of cond) ≡ None) conds.items }
    requires pushed { IsPushed nodes.old }
    ensures combines { IfOk result (λ n. Combines nodes.old nodes.new pair n all_pairs (map term_of conds.items)) }
    ensures pushed { OnOk result (IsPushed nodes.new) }
{
    let both = nodes.add(Node::Cross {
        left: pair.left,
        right: pair.right,
        conditional: false,
    })?;
    let n = filtered(nodes, both, conds)?;
    Ok(n)
}

/// A node of the rows of `input` on which every condition holds: `input` itself where there is none.
fn filtered(nodes: &mut Nodes, input: u32, conds: Vec<Expr>) -> Result<u32, OutOfMemory>
    requires plain { IsPlain nodes.old input }
    requires valid { IsNode (shapes_of nodes.old) (Select input (map term_of conds.items)) }
    requires above { StandAbove nodes.old (map term_of conds.items) (slice_get nodes.old input) }
    requires pushed { IsPushed nodes.old }
    ensures stands { IfOk result (λ n. Stands nodes.old nodes.new n (Select input (map term_of conds.items))) }
    ensures pushed { OnOk result (IsPushed nodes.new) }
{
    if conds.is_empty() {
        return Ok(input);
    }
    let conds = Exprs::from(conds);
    let n = nodes.add(Node::Select { input, conds })?;
    Ok(n)
}
