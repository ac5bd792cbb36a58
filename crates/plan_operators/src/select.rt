ghost use Rattle.std.specs.Prelude.{◌≡◌, ◌+◌, ◌++◌, ◌∷◌, [], All, cond, length, map, IfOk, OnOk};
ghost use Rattle.row_values.specs.Datums.{IsOfDocument};
ghost use Rattle.row_values.specs.Rows.{RowsLieIn, product};
ghost use Rattle.scalar_ops.specs.Views.{term_of};
ghost use Rattle.aql_typed.specs.Meaning.{selected};
ghost use Rattle.plan_operators.specs.Given.{input_rows};

use crate::Input;
use row_operators::{columns_of_both, push_if, selected};
use row_values::{Row, Rows};
use scalar_ops::{Expr, Exprs, Tools, holds};
use span_token::{Document, OutOfMemory};
use std::alloc::Global;

/// `Select`: the rows on which every condition holds.
pub(crate) fn select<'d>(
    alloc: Global,
    tools: &mut Tools<'_>,
    doc: &Document<'d>,
    input: Input<'_, 'd>,
    conds: &'d Exprs,
) -> Result<Rows<'d>, OutOfMemory>
    requires in_document { RowsLieIn doc.now (input_rows input).rows }
    ensures rows { IfOk result (λ out. out.rows ≡ selected tools.old doc.now conds.now (input_rows input.entry).rows) }
    ensures width { IfOk result (λ out. out.width ≡ (input_rows input.entry).width) }
    ensures lies { IfOk result (λ out. RowsLieIn doc.now out.rows) }
    ensures same { tools.new ≡ tools.old }
{
    match input {
        Input::Given(rows) => selected(alloc, tools, doc, rows, conds),
        Input::Lent(rows) => selected_copies(alloc, tools, doc, rows, conds),
    }
}

/// Copies of the rows on which every condition holds.
fn selected_copies<'d>(
    alloc: Global,
    tools: &mut Tools<'_>,
    doc: &Document<'d>,
    rows: &Rows<'d>,
    conds: &'d Exprs,
) -> Result<Rows<'d>, OutOfMemory>
    requires in_document { RowsLieIn doc.now rows.now.rows }
    ensures rows { IfOk result (λ out. out.rows ≡ selected tools.old doc.now conds.now rows.now.rows) }
    ensures width { IfOk result (λ out. out.width ≡ rows.now.width) }
    ensures lies { IfOk result (λ out. RowsLieIn doc.now out.rows) }
    ensures same { tools.new ≡ tools.old }
{
    let conds = conds.as_slice();
    let mut out = Rows::new(alloc, rows.width());
    for row in rows.as_slice() {
        let stays = holds(tools, doc, row, conds)?;
        copy_if(alloc, stays, row, &mut out)?;
    }
    Ok(out)
}

/// Puts a copy of the row after the others where it stays.
pub(crate) fn copy_if<'d>(
    alloc: Global,
    stays: bool,
    row: &Row<'d>,
    into: &mut Rows<'d>,
) -> Result<(), OutOfMemory>
    requires width { length row.now ≡ into.old.width }
    ensures { OnOk result (into.new ≡ record { width = into.old.width; rows = into.old.rows ++ cond stays (row.now ∷ []) [] }) }
{
    if stays {
        into.push(row.copy(alloc)?)?;
    }
    Ok(())
}

/// `Select` on a `Cross`: the pairs of a left and a right row on which every condition holds. No other pair
/// is kept.
pub(crate) fn selected_pairs<'d>(
    alloc: Global,
    tools: &mut Tools<'_>,
    doc: &Document<'d>,
    left: &Rows<'d>,
    right: &Rows<'d>,
    conds: &'d Exprs,
) -> Result<Rows<'d>, OutOfMemory>
    requires left_in_document { RowsLieIn doc.now left.now.rows }
    requires right_in_document { RowsLieIn doc.now right.now.rows }
    ensures rows { IfOk result (λ out. out.rows ≡ selected tools.old doc.now conds.now (product left.now.rows right.now.rows)) }
    ensures width { IfOk result (λ out. out.width ≡ left.now.width + right.now.width) }
    ensures lies { IfOk result (λ out. RowsLieIn doc.now out.rows) }
    ensures same { tools.new ≡ tools.old }
{
    let width = columns_of_both(left.width() as usize, right.width() as usize)?;
    let conds = conds.as_slice();
    let mut out = Rows::new(alloc, width);
    for row in left.as_slice() {
        push_pairs(alloc, tools, doc, row, right, conds, &mut out)?;
    }
    Ok(out)
}

/// Puts the row, followed by each of the others with which every condition holds, after the rows that are
/// there.
fn push_pairs<'d>(
    alloc: Global,
    tools: &mut Tools<'_>,
    doc: &Document<'d>,
    row: &Row<'d>,
    others: &Rows<'d>,
    conds: &'d [Expr],
    into: &mut Rows<'d>,
) -> Result<(), OutOfMemory>
    requires in_document { All (IsOfDocument doc.now) row.now }
    requires others_in_document { RowsLieIn doc.now others.now.rows }
    requires width { length row.now + others.now.width ≡ into.old.width }
    ensures rows { OnOk result (into.new.rows ≡ into.old.rows ++ selected tools.old doc.now (map term_of conds.now) (map (λ other. row.now ++ other) others.now.rows)) }
    ensures width { OnOk result (into.new.width ≡ into.old.width) }
    ensures same { tools.new ≡ tools.old }
{
    let _width = others.width();
    for other in others.as_slice() {
        let pair = row.followed_by(alloc, other.values())?;
        let stays = holds(tools, doc, &pair, conds)?;
        push_if(stays, pair, into)?;
    }
    Ok(())
}
