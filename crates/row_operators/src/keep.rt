ghost use Rattle.std.specs.Prelude.{◌≡◌, ◌<◌, ◌∷◌, [], ◌++◌, OnOk, IfOk, map, length, Some, vec_len, cond, All};
ghost use Rattle.span_token.specs.Documents.{Doc};
ghost use Rattle.row_values.specs.Datums.{IsOfDocument, span_of};
ghost use Rattle.row_values.specs.Rows.{RowsLieIn};
ghost use Rattle.span_sets.specs.Consolidation.{target_of};
ghost use Rattle.scalar_ops.specs.Values.{value};
ghost use Rattle.scalar_ops.specs.Views.{term_of};
ghost use Rattle.aql_typed.specs.Meaning.{selected, kept, cut};

use group_agg::order_limit;
use row_values::{Row, Rows, sort_rows};
use scalar_ops::{Expr, Exprs, Tools, eval, holds};
use span_sets::{Policy, consolidate};
use span_token::{Document, OutOfMemory, Span};
use std::alloc::Global;

/// The rows on which every condition holds. None is copied.
pub fn selected<'d>(
    alloc: Global,
    tools: &mut Tools<'_>,
    doc: &Document<'d>,
    rows: Rows<'d>,
    conds: &'d Exprs,
) -> Result<Rows<'d>, OutOfMemory>
    requires in_document { RowsLieIn doc.now rows.rows }
    ensures rows { IfOk result (λ out. out.rows ≡ selected tools.old doc.now conds.now rows.entry.rows) }
    ensures width { IfOk result (λ out. out.width ≡ rows.entry.width) }
    ensures lies { IfOk result (λ out. RowsLieIn doc.now out.rows) }
    ensures same { tools.new ≡ tools.old }
{
    let conds = conds.as_slice();
    let mut out = Rows::new(alloc, rows.width());
    for row in rows.into_vec() {
        let stays = holds(tools, doc, &row, conds)?;
        push_if(stays, row, &mut out)?;
    }
    Ok(out)
}

/// Puts the row after the others where it stays.
pub fn push_if<'d>(stays: bool, row: Row<'d>, into: &mut Rows<'d>) -> Result<(), OutOfMemory>
    requires width { length row ≡ into.old.width }
    ensures rows { OnOk result (into.new.rows ≡ into.old.rows ++ cond stays (row.entry ∷ []) []) }
    ensures width { OnOk result (into.new.width ≡ into.old.width) }
    ensures lies { (doc : Doc) → All (IsOfDocument doc) row.entry → RowsLieIn doc into.old.rows → OnOk result (RowsLieIn doc into.new.rows) }
{
    if stays {
        into.push(row)?;
    }
    Ok(())
}

/// The rows that a policy keeps, told by the span of the target, in row order. None is copied.
///
/// Meaning: `kept`, `specs/Meaning.antt` of `aql_typed`.
pub fn consolidated<'d>(
    alloc: Global,
    tools: &mut Tools<'_>,
    doc: &Document<'d>,
    rows: Rows<'d>,
    policy: Policy,
    target: &'d Expr,
) -> Result<Rows<'d>, OutOfMemory>
    requires in_document { RowsLieIn doc.now rows.rows }
    ensures rows { IfOk result (λ out. out.rows ≡ kept tools.old doc.now (Some (record { policy = policy; target = term_of target.now })) rows.entry.rows) }
    ensures width { IfOk result (λ out. out.width ≡ rows.entry.width) }
    ensures lies { IfOk result (λ out. RowsLieIn doc.now out.rows) }
    ensures same { tools.new ≡ tools.old }
{
    let targets = targets_of(alloc, tools, doc, rows.as_slice(), target)?;
    let out = consolidate(alloc, rows, targets, policy)?;
    Ok(out)
}

/// The span of each row's target, None where it has none.
fn targets_of<'d>(
    alloc: Global,
    tools: &mut Tools<'_>,
    doc: &Document<'d>,
    rows: &[Row<'d>],
    target: &'d Expr,
) -> Result<Vec<Option<Span>>, OutOfMemory>
    requires in_document { RowsLieIn doc.now rows.now }
    ensures targets { IfOk result (λ targets. map target_of targets.items ≡ map (λ row. span_of (value tools.old doc.now row (term_of target.now))) rows.now) }
    ensures number { IfOk result (λ targets. vec_len targets ≡ length rows.now) }
    ensures same { tools.new ≡ tools.old }
{
    let mut targets = Vec::new(alloc);
    for row in rows {
        let value = eval(tools, doc, row, target)?;
        targets.push(value.as_span())?;
    }
    Ok(targets)
}

/// The first rows by some columns, in row order; all rows, as they stand, where there is no limit.
pub fn cut<'d>(
    alloc: Global,
    rows: Rows<'d>,
    order: &[u32],
    limit: Option<u64>,
) -> Result<Rows<'d>, OutOfMemory>
    requires columns_there { All (λ column. column < rows.width) order.now }
    ensures rows { IfOk result (λ out. out.rows ≡ cut order.now limit rows.entry.rows) }
    ensures width { IfOk result (λ out. out.width ≡ rows.entry.width) }
    ensures lies { (doc : Doc) → RowsLieIn doc rows.entry.rows → IfOk result (λ out. RowsLieIn doc out.rows) }
{
    match limit {
        Some(number) => {
            let mut out = order_limit(alloc, rows, order, Some(number))?;
            sort_rows(&mut out)?;
            Ok(out)
        }
        None => Ok(rows),
    }
}
