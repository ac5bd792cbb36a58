//! Products of sources, each narrowed by the conditions that can be tried on it.

ghost use Rattle.std.specs.Prelude.{◌≡◌, ◌+◌, ◌≤◌, ◌∷◌, [], OnOk, IfOk, All, length};
ghost use Rattle.row_values.specs.Rows.{product};
ghost use Rattle.aql_typed.specs.Meaning.{document_rows, selected};
ghost use Rattle.algebra.specs.Growth.{Grows};
ghost use Rattle.plan_maker.specs.Grounds.{Gives, CanRead, Anything, AllRead, Narrows, terms_lent};
ghost use Rattle.plan_maker.specs.Lowered.{IsLoweredForm};

use crate::conditions::{drop_early, early};
use crate::copying::lent_copied;
use algebra::{Node, Nodes};
use scalar_ops::{Expr, Exprs};
use span_token::{OutOfMemory, OwnedList};
use std::alloc::Global;

/// A node of the rows of `input` on which every condition holds: `input` itself where there is none.
pub(crate) fn selected(
    alloc: Global,
    nodes: &mut Nodes,
    input: u32,
    conds: &[&Expr],
) -> Result<u32, OutOfMemory>
    requires can { CanRead nodes.old input (AllRead (terms_lent conds.now)) }
    ensures grows { OnOk result (Grows nodes.old nodes.new) }
    ensures forms { OnOk result (All IsLoweredForm nodes.old → All IsLoweredForm nodes.new) }
    ensures few { OnOk result (length nodes.new ≤ length nodes.old + 1) }
    ensures gives { IfOk result (λ n. (can : CanRead nodes.old input (AllRead (terms_lent conds.now)))
        → Gives nodes.new n can.width (λ lists doc. selected lists doc (terms_lent conds.now) (can.rows lists doc))) }
{
    if conds.is_empty() {
        return Ok(input);
    }
    let conds = lent_copied(alloc, conds)?;
    let n = nodes.add(Node::Select { input, conds })?;
    Ok(n)
}

/// A node of the rows of `input` on which those of the conditions hold that read its columns alone; the
/// others are left in `conds`.
pub(crate) fn narrowed(
    alloc: Global,
    nodes: &mut Nodes,
    input: u32,
    conds: &mut Vec<&Expr>,
) -> Result<u32, OutOfMemory>
    requires can { CanRead nodes.old input Anything }
    ensures grows { OnOk result (Grows nodes.old nodes.new) }
    ensures forms { OnOk result (All IsLoweredForm nodes.old → All IsLoweredForm nodes.new) }
    ensures few { OnOk result (length nodes.new ≤ length nodes.old + 1) }
    ensures narrows { IfOk result (λ n. (can : CanRead nodes.old input Anything)
        → Narrows nodes.new n can.width can.rows (terms_lent conds.old.items) (terms_lent conds.new.items)) }
{
    let _plan = nodes.as_slice();
    let width = nodes.shape(input).width;
    let now = early(alloc, conds.as_slice(), width)?;
    drop_early(conds, width);
    let n = selected(alloc, nodes, input, now.as_slice())?;
    Ok(n)
}

/// A node of each left row, followed by each right row, narrowed in the same way.
pub(crate) fn crossed(
    alloc: Global,
    nodes: &mut Nodes,
    left: u32,
    right: u32,
    conds: &mut Vec<&Expr>,
) -> Result<u32, OutOfMemory>
    requires can_left { CanRead nodes.old left Anything }
    requires can_right { CanRead nodes.old right Anything }
    ensures grows { OnOk result (Grows nodes.old nodes.new) }
    ensures forms { OnOk result (All IsLoweredForm nodes.old → All IsLoweredForm nodes.new) }
    ensures few { OnOk result (length nodes.new ≤ length nodes.old + 2) }
    ensures narrows { IfOk result (λ n. (a : CanRead nodes.old left Anything) (b : CanRead nodes.old right Anything)
        → Narrows nodes.new n (a.width + b.width) (λ lists doc. product (a.rows lists doc) (b.rows lists doc)) (terms_lent conds.old.items) (terms_lent conds.new.items)) }
{
    let both = nodes.add(Node::Cross {
        left,
        right,
        conditional: false,
    })?;
    let n = narrowed(alloc, nodes, both, conds)?;
    Ok(n)
}

/// A node of one row without a column: what a selection without a source combines.
pub(crate) fn empty_row(alloc: Global, nodes: &mut Nodes, document: u32) -> Result<u32, OutOfMemory>
    requires document { Gives nodes.old document 1 (λ lists doc. document_rows lists doc) }
    ensures grows { OnOk result (Grows nodes.old nodes.new) }
    ensures forms { OnOk result (All IsLoweredForm nodes.old → All IsLoweredForm nodes.new) }
    ensures few { OnOk result (length nodes.new ≤ length nodes.old + 1) }
    ensures gives { IfOk result (λ n. Gives nodes.new n 0 (λ lists doc. [] ∷ [])) }
{
    let items = Exprs::from(Vec::new(alloc));
    let n = nodes.add(Node::Project {
        input: document,
        items,
    })?;
    Ok(n)
}

/// A node without a row and without a column: what a union without a side is.
pub(crate) fn no_row(alloc: Global, nodes: &mut Nodes, document: u32) -> Result<u32, OutOfMemory>
    requires document { Gives nodes.old document 1 (λ lists doc. document_rows lists doc) }
    ensures grows { OnOk result (Grows nodes.old nodes.new) }
    ensures forms { OnOk result (All IsLoweredForm nodes.old → All IsLoweredForm nodes.new) }
    ensures few { OnOk result (length nodes.new ≤ length nodes.old + 2) }
    ensures gives { IfOk result (λ n. Gives nodes.new n 0 (λ lists doc. [])) }
{
    let input = empty_row(alloc, nodes, document)?;
    let n = nodes.add(Node::OrderLimit {
        input,
        keys: OwnedList::new(alloc),
        limit: Some(0),
    })?;
    Ok(n)
}
