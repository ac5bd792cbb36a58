//! Nodes that pass their rows on to the node that reads them, row by row, so that no list of them is made.

ghost use Rattle.std.specs.Prelude.{◌≡◌, [], IfOk, IsTrue, None, length, map};
ghost use Rattle.span_token.specs.Documents.{Doc};
ghost use Rattle.row_values.specs.Rows.{RowsLieIn};
ghost use Rattle.scalar_ops.specs.Tables.{Lists};
ghost use Rattle.aql_typed.specs.Meaning.{Rows as RowsMeant, row_of};
ghost use Rattle.algebra.specs.declared.shape.Shape as declared_shape;
ghost use Rattle.algebra.specs.Inputs.{right_input};
ghost use Rattle.algebra.specs.Operators.{op};
ghost use Rattle.algebra.specs.Shapes.{no_shape, shape_by};
ghost use Rattle.plan_operators.specs.Filling.{does_pass, is_projection};
ghost use Rattle.plan_operators.specs.Given.{MayRead};

use crate::dict_part::part_values;
use crate::extract::found_values;
use crate::select::selected_pairs;
use algebra::Node;
use row_operators::Search;
use row_values::Rows;
use scalar_ops::{Exprs, Tools};
use span_token::{Document, OutOfMemory};
use std::alloc::Global;

/// Whether a node passes its rows on, row by row, to another one that reads it.
pub(crate) fn does_pass(node: &Node, next: &Node) -> bool
    ensures { result ≡ does_pass node.now next.now }
{
    match node {
        Node::Cross { .. } => matches!(next, Node::Select { .. }),
        Node::Regex { .. } | Node::TokenRegex { .. } | Node::DictPart { .. } => {
            matches!(next, Node::Project { .. })
        }
        _ => false,
    }
}

/// What a node gives of the rows that another one passes on to it, of the rows of that one's inputs. No list is
/// made of what is passed on.
///
/// Meaning: `op`, `specs/Operators.antt` of `algebra`.
pub(crate) fn apply_to_passed<'d>(
    alloc: Global,
    tools: &mut Tools<'_>,
    doc: &Document<'d>,
    node: &'d Node,
    next: &'d Node,
    left: &Rows<'d>,
    right: &Rows<'d>,
) -> Result<Rows<'d>, OutOfMemory>
    requires left_in_document { RowsLieIn doc.now left.now.rows }
    requires right_in_document { RowsLieIn doc.now right.now.rows }
    requires made { MayRead node.now left.now right.now }
    requires passes { IsTrue (does_pass node.now next.now) }
    ensures alone { right_input next.now ≡ None }
    ensures rows { IfOk result (λ out. out.rows ≡ op tools.old doc.now next.now (op tools.old doc.now node.now left.now.rows right.now.rows) []) }
    ensures width { (s t : declared_shape.Shape) → left.now.width ≡ s.width → right.now.width ≡ t.width → IfOk result (λ out. out.width ≡ (shape_by next.now (shape_by node.now s t) no_shape).width) }
    ensures lies { IfOk result (λ out. RowsLieIn doc.now out.rows) }
    ensures same { tools.new ≡ tools.old }
{
    match node {
        Node::Cross { .. } => match next {
            Node::Select { conds, .. } => selected_pairs(alloc, tools, doc, left, right, conds),
            _ => unreachable!(),
        },
        Node::Regex {
            column,
            pattern,
            groups,
            ..
        } => {
            let search = Search::Regex {
                column: *column,
                pattern: *pattern,
                groups: groups.as_slice(),
            };
            found_values(alloc, tools, doc, left, search, items_of(next))
        }
        Node::TokenRegex {
            column,
            low,
            high,
            pattern,
            groups,
            ..
        } => {
            let search = Search::TokenRegex {
                column: *column,
                low: *low,
                high: *high,
                pattern: *pattern,
                groups: groups.as_slice(),
            };
            found_values(alloc, tools, doc, left, search, items_of(next))
        }
        Node::DictPart { number, .. } => part_values(
            alloc,
            tools,
            doc,
            left,
            *number,
            items_of(next),
        ),
        _ => unreachable!(),
    }
}

/// The expressions of a projection.
fn items_of(node: &Node) -> &Exprs
    requires { IsTrue (is_projection node.now) }
    ensures alone { right_input node.now ≡ None }
    ensures rows { (lists : Lists) (doc : Doc) (rows : RowsMeant) → op lists doc node.now rows [] ≡ map (row_of lists doc result.now) rows }
    ensures width { (s t : declared_shape.Shape) → (shape_by node.now s t).width ≡ length result.now }
{
    match node {
        Node::Project { items, .. } => items,
        _ => unreachable!(),
    }
}
