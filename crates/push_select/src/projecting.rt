//! Projections, none above one of plain columns.

ghost use Rattle.std.specs.Prelude.{map, IfOk, OnOk};
ghost use Rattle.scalar_ops.specs.Expressions.{column};
ghost use Rattle.algebra.specs.declared.node.Node.TheVariants.{Project};
ghost use Rattle.algebra.specs.Growth.{Stands};
ghost use Rattle.algebra.specs.Nodes.{IsNode};
ghost use Rattle.algebra.specs.Shapes.{shapes_of};
ghost use Rattle.push_select.specs.Replacing.{IsPushed};

use crate::below::{Below, below_of};
use crate::copying::{Numbers, all_renamed, columns_shown};
use algebra::{Node, Nodes};
use scalar_ops::Exprs;
use span_token::OutOfMemory;
use std::alloc::Global;

/// A node that stands for the projection of the rows of `input`: where these are plain columns of another
/// node, it reads that one.
pub(crate) fn projected(
    alloc: Global,
    nodes: &mut Nodes,
    input: u32,
    items: Exprs,
) -> Result<u32, OutOfMemory>
    requires valid { IsNode (shapes_of nodes.old) (Project input items) }
    requires pushed { IsPushed nodes.old }
    ensures stands { IfOk result (λ n. Stands nodes.old nodes.new n (Project input items)) }
    ensures pushed { OnOk result (IsPushed nodes.new) }
{
    let below = below_of(alloc, nodes.get(input))?;
    match below {
        Below::Columns(from, shown) => {
            let items = all_renamed(alloc, items.as_slice(), Numbers::Listed(shown.as_slice()))?;
            let items = Exprs::from(items);
            let n = nodes.add(Node::Project { input: from, items })?;
            Ok(n)
        }
        _ => {
            let n = nodes.add(Node::Project { input, items })?;
            Ok(n)
        }
    }
}

/// A node that stands for these columns of the rows of `input`.
pub(crate) fn shown_of(
    alloc: Global,
    nodes: &mut Nodes,
    input: u32,
    shown: &[u32],
) -> Result<u32, OutOfMemory>
    requires valid { IsNode (shapes_of nodes.old) (Project input (map column shown.now)) }
    requires pushed { IsPushed nodes.old }
    ensures stands { IfOk result (λ n. Stands nodes.old nodes.new n (Project input (map column shown.now))) }
    ensures pushed { OnOk result (IsPushed nodes.new) }
{
    let items = columns_shown(alloc, shown)?;
    let items = Exprs::from(items);
    let n = projected(alloc, nodes, input, items)?;
    Ok(n)
}
