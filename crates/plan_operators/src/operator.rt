ghost use Rattle.std.specs.Prelude.{◌≡◌, IfOk};
ghost use Rattle.aql_base.specs.Bags.{SameBag};
ghost use Rattle.row_values.specs.Rows.{RowsLieIn};
ghost use Rattle.algebra.specs.declared.shape.Shape as declared_shape;
ghost use Rattle.algebra.specs.Operators.{op};
ghost use Rattle.algebra.specs.Shapes.{shape_by};
ghost use Rattle.plan_operators.specs.Given.{input_rows, MayRead};

use crate::Input;
use crate::consolidation::consolidate;
use crate::cross::cross;
use crate::dict::with_numbers;
use crate::dict_part::part_of;
use crate::extract::with_found;
use crate::minus::difference;
use crate::order_limit::order_limit;
use crate::restricted::restricted;
use crate::select::select;
use crate::span_join::span_join;
use crate::union::union;
use algebra::Node;
use row_operators::{Search, blocks_in, document_rows, grouped_in_order, values_for_each};
use row_values::Rows;
use scalar_ops::Tools;
use span_token::{Document, OutOfMemory};
use std::alloc::Global;

/// What a node gives of the rows of its inputs, as a bag.
///
/// A node without such an input is given no rows of no column. So is, in place of the rows of its right
/// input, a conditional join whose left input has no row, but of as many columns as that input has.
///
/// Meaning: `op`, `specs/Operators.antt` of `algebra`.
pub fn apply<'d>(
    alloc: Global,
    tools: &mut Tools<'_>,
    doc: &Document<'d>,
    node: &'d Node,
    left: Input<'_, 'd>,
    right: Input<'_, 'd>,
) -> Result<Rows<'d>, OutOfMemory>
    requires left_in_document { RowsLieIn doc.now (input_rows left).rows }
    requires right_in_document { RowsLieIn doc.now (input_rows right).rows }
    requires made { MayRead node.now (input_rows left) (input_rows right) }
    ensures rows { IfOk result (λ out. SameBag out.rows (op tools.old doc.now node.now (input_rows left.entry).rows (input_rows right.entry).rows)) }
    ensures width { (s t : declared_shape.Shape) → (input_rows left.entry).width ≡ s.width → (input_rows right.entry).width ≡ t.width → IfOk result (λ out. out.width ≡ (shape_by node.now s t).width) }
    ensures lies { IfOk result (λ out. RowsLieIn doc.now out.rows) }
    ensures same { tools.new ≡ tools.old }
{
    match node {
        Node::Doc => document_rows(alloc, doc),
        Node::Regex {
            column,
            pattern,
            groups,
            ..
        } => {
            let search = Search::Regex {
                column: *column,
                pattern: *pattern,
                groups: groups.as_slice(),
            };
            with_found(alloc, tools, doc, left.rows(), search)
        }
        Node::TokenRegex {
            column,
            low,
            high,
            pattern,
            groups,
            ..
        } => {
            let search = Search::TokenRegex {
                column: *column,
                low: *low,
                high: *high,
                pattern: *pattern,
                groups: groups.as_slice(),
            };
            with_found(alloc, tools, doc, left.rows(), search)
        }
        Node::Dict { column, dicts, .. } => {
            with_numbers(alloc, tools, doc, left.rows(), *column, dicts.as_slice())
        }
        Node::DictPart { number, .. } => part_of(alloc, left.rows(), *number),
        Node::Blocks {
            column,
            low,
            high,
            gap_low,
            gap_high,
            tokens,
            ..
        } => {
            let rows = left.rows().as_slice();
            blocks_in(
                alloc, doc, rows, *column, *low, *high, *gap_low, *gap_high, *tokens,
            )
        }
        Node::Select { conds, .. } => select(alloc, tools, doc, left, conds),
        Node::Project { items, .. } => {
            values_for_each(alloc, tools, doc, left.rows().as_slice(), items)
        }
        Node::Cross { .. } => cross(alloc, left.rows(), right.rows()),
        Node::SpanJoin { kind, lc, rc, .. } => {
            span_join(alloc, doc, left.rows(), *lc, right.rows(), *rc, *kind)
        }
        Node::Restricted {
            kind,
            lc,
            local,
            ..
        } => restricted(
            alloc,
            tools,
            doc,
            left.rows(),
            right.rows(),
            *kind,
            *lc,
            *local,
        ),
        Node::Union { .. } => union(alloc, left, right),
        Node::Minus { .. } => difference(alloc, left, right.rows()),
        Node::Consolidate { policy, target, .. } => {
            consolidate(alloc, tools, doc, left, *policy, target.as_expr())
        }
        Node::Group { keys, aggs, .. } => {
            grouped_in_order(alloc, left.rows(), keys.as_slice(), aggs.as_slice())
        }
        Node::OrderLimit { keys, limit, .. } => {
            order_limit(alloc, left, keys.as_slice(), *limit)
        }
    }
}
