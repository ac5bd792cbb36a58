ghost use Rattle.std.specs.Prelude.{◌≡◌, ◌+◌, ◌++◌, length, map, OnOk, IfOk, All};
ghost use Rattle.std.specs.List.{sum_by};
ghost use Rattle.row_values.specs.Datums.{IsOfDocument};
ghost use Rattle.row_values.specs.Rows.{RowsLieIn};
ghost use Rattle.scalar_ops.specs.Values.{holding};
ghost use Rattle.scalar_ops.specs.Views.{term_of};
ghost use Rattle.aql_typed.specs.Meaning.{selected};
ghost use Rattle.aql_meaning.specs.Sources.{products};
ghost use Rattle.aql_meaning.specs.Nests.{all_conds, terms_lent, AreEarly};

use crate::keep::push_if;
use crate::nest::{Level, nest_of};
use row_values::{Row, Rows};
use scalar_ops::{Expr, Exprs, Tools, holds};
use span_token::{Document, OutOfMemory};
use std::alloc::Global;
use std::slice;

/// The combinations of one row of each source, side by side, on which every condition holds. Each condition
/// is tried as soon as the sources that it reads are bound.
pub(crate) fn combined<'d>(
    alloc: Global,
    tools: &mut Tools<'_>,
    doc: &Document<'d>,
    sources: &[&Rows<'d>],
    conds: &'d Exprs,
) -> Result<Rows<'d>, OutOfMemory>
    requires in_document { All (λ source. RowsLieIn doc.now source.now.rows) sources.now }
    ensures rows { IfOk result (λ out. out.rows ≡ selected tools.old doc.now conds.now (products (map (λ source. source.now.rows) sources.now))) }
    ensures lies { IfOk result (λ out. RowsLieIn doc.now out.rows) }
    ensures same { tools.new ≡ tools.old }
{
    let nest = nest_of(alloc, sources, conds.as_slice())?;
    let levels = nest.levels.as_slice();
    let last = nest.last.as_slice();
    let mut out = Rows::new(alloc, nest.width);
    let lead = Row::empty(alloc);
    push_combinations(alloc, tools, doc, lead, levels, last, &mut out)?;
    Ok(out)
}

/// Puts the values of `lead`, followed by each combination of one row of each level's source, after the
/// others, where the conditions of all levels and the last ones hold.
fn push_combinations<'d>(
    alloc: Global,
    tools: &mut Tools<'_>,
    doc: &Document<'d>,
    lead: Row<'d>,
    levels: &[Level<'_, 'd>],
    last: &[&'d Expr],
    into: &mut Rows<'d>,
) -> Result<(), OutOfMemory>
    requires lead_in_document { All (IsOfDocument doc.now) lead }
    requires in_document { All (λ level. RowsLieIn doc.now level.source.now.rows) levels.now }
    requires early { AreEarly (length lead) levels.now }
    requires width { length lead + sum_by (λ level. level.source.now.width) levels.now ≡ into.old.width }
    ensures rows { OnOk result (into.new.rows ≡ into.old.rows ++ selected tools.old doc.now (all_conds levels.now (terms_lent last.now)) (map (λ row. lead.entry ++ row) (products (map (λ level. level.source.now.rows) levels.now)))) }
    ensures width { OnOk result (into.new.width ≡ into.old.width) }
    ensures lies { RowsLieIn doc.now into.old.rows → OnOk result (RowsLieIn doc.now into.new.rows) }
    ensures same { tools.new ≡ tools.old }
{
    let Some((first, rest)) = levels.split_first() else {
        let stays = all_hold(tools, doc, &lead, last)?;
        push_if(stays, lead, into)?;
        return Ok(());
    };
    if !all_hold(tools, doc, &lead, first.conds.as_slice())? {
        return Ok(());
    }
    let _width = first.source.width();
    for row in first.source.as_slice() {
        let longer = lead.followed_by(alloc, row.values())?;
        push_combinations(alloc, tools, doc, longer, rest, last, into)?;
    }
    Ok(())
}

/// Whether every condition is true for a row; none is tried behind one that isn't.
fn all_hold<'d>(
    tools: &mut Tools<'_>,
    doc: &Document<'d>,
    row: &Row<'d>,
    conds: &[&'d Expr],
) -> Result<bool, OutOfMemory>
    requires in_document { All (IsOfDocument doc.now) row.now }
    ensures found { IfOk result (λ found. found ≡ holding tools.old doc.now (terms_lent conds.now) row.now) }
    ensures same { tools.new ≡ tools.old }
{
    for cond in conds {
        if !holds(tools, doc, row, slice::from_ref(*cond))? {
            return Ok(false);
        }
    }
    Ok(true)
}
