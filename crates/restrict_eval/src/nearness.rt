//! What is looked for near the left rows of a join, in place of its right input.

ghost use Rattle.std.specs.Prelude.{◌≡◌, ◌<◌, ◌↔◌, ◌∷◌, [], ℕ, Some, None, List, IsTrue, length, map, slice_get, All, IfOk, IfSome, IfNone};
ghost use Rattle.scalar_ops.specs.Views.{term_of};
ghost use Rattle.algebra.specs.declared.node.Node.TheVariants as variant;
ghost use Rattle.restrict_eval.specs.Nears.{plain_columns, IsNear, IsFate, AreFates};
ghost use Rattle.restrict_eval.specs.Readers.{AreReaders};
ghost use Rattle.restrict_eval.specs.Restricting.{Finds, HasFound, ShowsMatch};

use crate::readers::{Readers, readers_of};
use algebra::{Local, Node, Nodes, PlanOut};
use scalar_ops::Expr;
use span_token::{OutOfMemory, OwnedList};
use std::alloc::Global;

/// The matches of node `base`, which are looked for in the rows of node `source`; with the columns of them
/// that the right input of the join shows, where it doesn't show all.
#[derive(Debug, Drop)]
pub(crate) struct Near {
    pub base: u32,
    pub source: u32,
    pub sought: Local,
    pub columns: Option<OwnedList<u32>>,
}

/// For each node of a plan what is looked for in place of its right input: where it is a live join, and the
/// right input can be looked for and nobody else needs it.
pub(crate) fn restrictions(
    alloc: Global,
    nodes: &Nodes,
    outputs: &[PlanOut],
) -> Result<Vec<Option<Near>>, OutOfMemory>
    requires there { All (λ out. out.node < length nodes.now) outputs.now }
    ensures { IfOk result (λ found. AreFates nodes.now (map (λ out. out.node) outputs.now) found.items) }
{
    let readers = readers_of(alloc, nodes, outputs)?;
    let mut found = Vec::new(alloc);
    for j in 0..nodes.len() {
        found.push(restriction(alloc, nodes, &readers, j)?)?;
    }
    Ok(found)
}

/// The same of node `j`.
fn restriction(
    alloc: Global,
    nodes: &Nodes,
    readers: &Readers,
    j: u32,
) -> Result<Option<Near>, OutOfMemory>
    requires there { j < length nodes.now }
    requires readers { (outputs : List ℕ) × AreReaders nodes.now outputs 0 readers.now.shown.items readers.now.lists.items }
    ensures { (outputs : List ℕ) → AreReaders nodes.now outputs 0 readers.now.shown.items readers.now.lists.items
        → IfOk result (λ near. IsFate nodes.now outputs j near) }
{
    match nodes.get(j) {
        Node::SpanJoin { right, rc, .. } => {
            let right = *right;
            match near_of(alloc, nodes, right, *rc)? {
                Some(near) => {
                    if readers.is_live(j)
                        && readers.is_only(right, j, right)
                        && readers.is_only(near.base, j, right)
                    {
                        Ok(Some(near))
                    } else {
                        Ok(None)
                    }
                }
                None => Ok(None),
            }
        }
        _ => Ok(None),
    }
}

/// What can be looked for in place of node `right`, of which column `rc` is the match.
fn near_of(alloc: Global, nodes: &Nodes, right: u32, rc: u32) -> Result<Option<Near>, OutOfMemory>
    requires there { right < length nodes.now }
    ensures some { IfOk result (λ near. IfSome near (λ near. IsNear nodes.now right rc near)) }
    ensures none { IfOk result (λ near. IfNone near ((t : ℕ) → HasFound nodes.now t → ShowsMatch nodes.now t right rc → ⊥)) }
{
    match nodes.get(right) {
        Node::Project { input, items } => {
            let input = *input;
            match plain_columns(alloc, items.as_slice())? {
                Some(columns) => {
                    if is_match(columns.as_slice(), rc) {
                        Ok(sought_by(nodes, input, Some(columns)))
                    } else {
                        Ok(None)
                    }
                }
                None => Ok(None),
            }
        }
        _ => {
            if rc == 1 {
                Ok(sought_by(nodes, right, None))
            } else {
                Ok(None)
            }
        }
    }
}

/// The numbers of the columns that the items are, where all of them are plain columns.
pub(crate) fn plain_columns(
    alloc: Global,
    items: &[Expr],
) -> Result<Option<OwnedList<u32>>, OutOfMemory>
    ensures { IfOk result (λ columns. columns ≡ plain_columns (map term_of items.now)) }
{
    let mut columns = OwnedList::new(alloc);
    for item in items {
        match item {
            Expr::Column(n) => columns.push(*n)?,
            _ => return Ok(None),
        }
    }
    Ok(Some(columns))
}

/// Whether the column at this index is column 1, which is the match.
fn is_match(columns: &[u32], rc: u32) -> bool
    ensures { IsTrue result ↔ (slice_get columns.now rc ≡ Some 1) }
{
    (rc as usize) < columns.len() && columns[rc as usize] == 1
}

/// What can be looked for in place of node `base`, of which these columns are shown.
pub(crate) fn sought_by(nodes: &Nodes, base: u32, columns: Option<OwnedList<u32>>) -> Option<Near>
    requires there { base < length nodes.now }
    ensures base { IfSome result (λ near. (near.base ≡ base) × (near.columns ≡ columns)) }
    ensures some { IfSome result (λ near. Finds nodes.now base near.source near.sought × (slice_get nodes.now near.source ≡ Some variant.Doc)) }
    ensures none { IfNone result (HasFound nodes.now base → ⊥) }
{
    match nodes.get(base) {
        Node::TokenRegex {
            input,
            low,
            high,
            pattern,
            groups,
            ..
        } => {
            if is_whole_match(groups.as_slice()) && is_document(nodes.get(*input)) {
                Some(Near {
                    base,
                    source: *input,
                    sought: Local::TokenRegex {
                        low: *low,
                        high: *high,
                        pattern: *pattern,
                    },
                    columns,
                })
            } else {
                None
            }
        }
        Node::DictPart { input, number } => entries_of(nodes, base, *input, *number, columns),
        _ => None,
    }
}

/// The same, where node `base` has the matches with this dictionary's number of node `input`. A node that has several
/// dictionaries looks for all of them in one walk, which is made for the others anyway.
fn entries_of(
    nodes: &Nodes,
    base: u32,
    input: u32,
    number: u32,
    columns: Option<OwnedList<u32>>,
) -> Option<Near>
    requires there { input < length nodes.now }
    requires is { slice_get nodes.now base ≡ Some (variant.DictPart input number) }
    ensures base { IfSome result (λ near. (near.base ≡ base) × (near.columns ≡ columns)) }
    ensures some { IfSome result (λ near. Finds nodes.now base near.source near.sought × (slice_get nodes.now near.source ≡ Some variant.Doc)) }
    ensures none { IfNone result (HasFound nodes.now base → ⊥) }
{
    match nodes.get(input) {
        Node::Dict {
            input: source,
            dicts,
            ..
        } => {
            if is_single(dicts.as_slice(), number) && is_document(nodes.get(*source)) {
                Some(Near {
                    base,
                    source: *source,
                    sought: Local::Dict {
                        dict: dicts.as_slice()[0],
                    },
                    columns,
                })
            } else {
                None
            }
        }
        _ => None,
    }
}

/// Whether this is the number of the only dictionary.
fn is_single(dicts: &[u32], number: u32) -> bool
    ensures { IsTrue result ↔ ((number ≡ 0) × (length dicts.now ≡ 1)) }
{
    number == 0 && dicts.len() == 1
}

/// Whether the groups are the whole match alone.
fn is_whole_match(groups: &[u32]) -> bool
    ensures { IsTrue result ↔ (groups.now ≡ 0 ∷ []) }
{
    groups.len() == 1 && groups[0] == 0
}

/// Whether the node is the document.
fn is_document(node: &Node) -> bool
    ensures { IsTrue result ↔ (node.now ≡ variant.Doc) }
{
    matches!(node, Node::Doc)
}
