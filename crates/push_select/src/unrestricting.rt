//! Joins that look near their left rows, as joins with all that is found.

ghost use Rattle.std.specs.Prelude.{◌≡◌, ◌<◌, ◌≤◌, ◌∷◌, [], length, slice_index_or, IfOk, OnOk};
ghost use Rattle.algebra.specs.declared.node.Node.TheVariants.{Restricted};
ghost use Rattle.algebra.specs.Growth.{Stands};
ghost use Rattle.algebra.specs.Nodes.{IsNode};
ghost use Rattle.algebra.specs.Shapes.{document_shape, no_shape, shapes_of, IsSought};
ghost use Rattle.push_select.specs.Replacing.{IsPushed, Searches};

use algebra::{JoinKind, Local, Node, Nodes};
use span_token::{OutOfMemory, OwnedList};
use std::alloc::Global;

/// A node that stands for a join that looks near the rows of `outer`: the join of these with all that is
/// found in the document.
pub(crate) fn unrestricted(
    alloc: Global,
    nodes: &mut Nodes,
    outer: u32,
    source: u32,
    kind: JoinKind,
    lc: u32,
    sought: Local,
) -> Result<u32, OutOfMemory>
    requires valid { IsNode (shapes_of nodes.old) (Restricted outer source kind lc sought) }
    requires pushed { IsPushed nodes.old }
    ensures stands { IfOk result (λ n. Stands nodes.old nodes.new n (Restricted outer source kind lc sought)) }
    ensures pushed { OnOk result (IsPushed nodes.new) }
{
    let found = searched(alloc, nodes, source, sought)?;
    let n = nodes.add(Node::SpanJoin {
        left: outer,
        right: found,
        kind,
        lc,
        rc: 1,
        conditional: false,
    })?;
    Ok(n)
}

/// A node of what is sought in the document.
fn searched(
    alloc: Global,
    nodes: &mut Nodes,
    source: u32,
    sought: Local,
) -> Result<u32, OutOfMemory>
    requires there { source < length nodes.old }
    requires document { slice_index_or (shapes_of nodes.old) source no_shape ≡ document_shape }
    requires sought { IsSought sought }
    requires pushed { IsPushed nodes.old }
    ensures searches { IfOk result (λ n. Searches nodes.old nodes.new source n sought) }
    ensures pushed { OnOk result (IsPushed nodes.new) }
{
    match sought {
        Local::TokenRegex { low, high, pattern } => {
            let groups = only(alloc, 0)?;
            let n = nodes.add(Node::TokenRegex {
                input: source,
                column: 0,
                low,
                high,
                pattern,
                groups,
            })?;
            Ok(n)
        }
        Local::Dict { dict } => {
            let dicts = only(alloc, dict)?;
            let both = nodes.add(Node::Dict {
                input: source,
                column: 0,
                dicts,
            })?;
            let n = nodes.add(Node::DictPart {
                input: both,
                number: 0,
            })?;
            Ok(n)
        }
    }
}

/// The list of one number.
fn only(alloc: Global, number: u32) -> Result<OwnedList<u32>, OutOfMemory>
    ensures { IfOk result (λ list. list ≡ number ∷ []) }
{
    let mut list = OwnedList::new(alloc);
    list.push(number)?;
    Ok(list)
}
