ghost use Rattle.std.specs.Prelude.{◌≡◌, All, IfOk, Some, length, map, vec_len};
ghost use Rattle.row_values.specs.Datums.{IsOfDocument, span_of};
ghost use Rattle.row_values.specs.Rows.{RowsLieIn};
ghost use Rattle.span_sets.specs.Consolidation.{target_of};
ghost use Rattle.scalar_ops.specs.Values.{value};
ghost use Rattle.scalar_ops.specs.Views.{term_of};
ghost use Rattle.aql_typed.specs.Meaning.{kept};
ghost use Rattle.plan_operators.specs.Given.{input_rows};

use crate::Input;
use row_values::{Row, Rows};
use scalar_ops::{Expr, Tools, eval};
use span_sets::{Policy, consolidated};
use span_token::{Document, OutOfMemory, Span};
use std::alloc::Global;

/// `Consolidate`: the rows that a policy keeps, told by the span of the target, in row order. Of rows that
/// are lent those that stay are copied, and no other.
pub(crate) fn consolidate<'d>(
    alloc: Global,
    tools: &mut Tools<'_>,
    doc: &Document<'d>,
    input: Input<'_, 'd>,
    policy: Policy,
    target: &'d Expr,
) -> Result<Rows<'d>, OutOfMemory>
    requires in_document { RowsLieIn doc.now (input_rows input).rows }
    ensures rows { IfOk result (λ out. out.rows ≡ kept tools.old doc.now (Some (record { policy = policy; target = term_of target.now })) (input_rows input.entry).rows) }
    ensures width { IfOk result (λ out. out.width ≡ (input_rows input.entry).width) }
    ensures lies { IfOk result (λ out. RowsLieIn doc.now out.rows) }
    ensures same { tools.new ≡ tools.old }
{
    match input {
        Input::Given(rows) => {
            row_operators::consolidated(alloc, tools, doc, rows, policy, target)
        }
        Input::Lent(rows) => copies_kept(alloc, tools, doc, rows, policy, target),
    }
}

/// Copies of the rows that a policy keeps.
fn copies_kept<'d>(
    alloc: Global,
    tools: &mut Tools<'_>,
    doc: &Document<'d>,
    rows: &Rows<'d>,
    policy: Policy,
    target: &'d Expr,
) -> Result<Rows<'d>, OutOfMemory>
    requires in_document { RowsLieIn doc.now rows.now.rows }
    ensures rows { IfOk result (λ out. out.rows ≡ kept tools.old doc.now (Some (record { policy = policy; target = term_of target.now })) rows.now.rows) }
    ensures width { IfOk result (λ out. out.width ≡ rows.now.width) }
    ensures lies { IfOk result (λ out. RowsLieIn doc.now out.rows) }
    ensures same { tools.new ≡ tools.old }
{
    let order = rows.sorted(alloc)?;
    let targets = targets_of(alloc, tools, doc, order.as_slice(), target)?;
    let out = consolidated(alloc, rows, order.as_slice(), targets.as_slice(), policy)?;
    Ok(out)
}

/// The span of each row's target, None where it has none.
fn targets_of<'d>(
    alloc: Global,
    tools: &mut Tools<'_>,
    doc: &Document<'d>,
    rows: &[&Row<'d>],
    target: &'d Expr,
) -> Result<Vec<Option<Span>>, OutOfMemory>
    requires in_document { All (λ row. All (IsOfDocument doc.now) row.now) rows.now }
    ensures targets { IfOk result (λ targets. map target_of targets.items ≡ map (λ row. span_of (value tools.old doc.now row.now (term_of target.now))) rows.now) }
    ensures number { IfOk result (λ targets. vec_len targets ≡ length rows.now) }
    ensures same { tools.new ≡ tools.old }
{
    let mut targets = Vec::new(alloc);
    for row in rows {
        let value = eval(tools, doc, row, target)?;
        targets.push(value.as_span())?;
    }
    Ok(targets)
}
