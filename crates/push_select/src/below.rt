//! What stands below a selection or a projection.

ghost use Rattle.std.specs.Prelude.{◌≡◌, IfOk, IfSome, IfNone, ℕ, List, map};
ghost use Rattle.scalar_ops.specs.Expressions.{column};
ghost use Rattle.scalar_ops.specs.Views.{term_of};
ghost use Rattle.push_select.specs.Replacing.{IsBelow};
ghost use Rattle.push_select.specs.Pushed.{IsUnrestricted};

use crate::join::{Join, column_of};
use algebra::Node;
use scalar_ops::Expr;
use span_token::OutOfMemory;
use std::alloc::Global;

/// The numbers of two nodes that are combined.
#[derive(Clone, Copy, Debug, PartialEq, Eq)]
pub(crate) struct Pair {
    pub left: u32,
    pub right: u32,
}

/// The numbers of three nodes that are combined, the first two of them first.
#[derive(Clone, Copy, Debug, PartialEq, Eq)]
pub(crate) struct Three {
    pub first: u32,
    pub second: u32,
    pub third: u32,
}

/// What a node combines, or of which node it shows columns.
#[derive(Debug, Drop)]
pub(crate) enum Below {
    /// Each left row with each right row.
    Product(Pair),
    /// Those of these pairs that a join picks.
    Joined(Pair, Join),
    /// The rows of both nodes.
    Both(u32, u32),
    /// Plain columns of the rows of a node, by their numbers.
    Columns(u32, Vec<u32>),
    /// No such node.
    Other,
}

/// What this node combines or shows.
pub(crate) fn below_of(alloc: Global, node: &Node) -> Result<Below, OutOfMemory>
    requires { IsUnrestricted node.now }
    ensures { IfOk result (IsBelow node.now) }
{
    match node {
        Node::Cross { left, right, .. } => Ok(Below::Product(Pair {
            left: *left,
            right: *right,
        })),
        Node::SpanJoin {
            left,
            right,
            kind,
            lc,
            rc,
            ..
        } => Ok(Below::Joined(
            Pair {
                left: *left,
                right: *right,
            },
            Join {
                kind: *kind,
                lc: *lc,
                rc: *rc,
            },
        )),
        Node::Union { left, right } => Ok(Below::Both(*left, *right)),
        Node::Project { input, items } => match plain_columns(alloc, items.as_slice())? {
            Some(shown) => Ok(Below::Columns(*input, shown)),
            None => Ok(Below::Other),
        },
        _ => Ok(Below::Other),
    }
}

/// Whether a node combines each left row with each right row.
pub(crate) fn is_product(node: &Node) -> bool {
    match node {
        Node::Cross { .. } => true,
        _ => false,
    }
}

/// The numbers of the columns that these are, where all are columns.
fn plain_columns(alloc: Global, items: &[Expr]) -> Result<Option<Vec<u32>>, OutOfMemory>
    ensures some { IfOk result (λ found. IfSome found (λ shown. map term_of items.now ≡ map column shown.items)) }
    ensures none { IfOk result (λ found. IfNone found ((shown : List ℕ) → map term_of items.now ≡ map column shown → ⊥)) }
{
    let mut shown = Vec::new(alloc);
    for item in items {
        let Some(n) = column_of(item) else {
            return Ok(None);
        };
        shown.push(n)?;
    }
    Ok(Some(shown))
}
