ghost use Rattle.std.specs.Prelude.{◌≡◌, ◌-◌, ◌≤◌, ◌++◌, ◌∷◌, [], All, IfOk, OnOk, length, map};
ghost use Rattle.span_token.specs.Documents.{Doc};
ghost use Rattle.row_values.specs.Datums.{IsOfDocument};
ghost use Rattle.row_values.specs.Rows.{RowsLieIn};
ghost use Rattle.scalar_ops.specs.Views.{term_of};
ghost use Rattle.aql_typed.specs.Meaning.{row_of};
ghost use Rattle.algebra.specs.Operators.{unmarked, part_of};

use row_operators::{columns_of_both, values_for};
use row_values::{Row, Rows, Value};
use scalar_ops::{Expr, Exprs, Tools};
use span_token::{Document, OutOfMemory};
use std::alloc::Global;

/// `DictPart`: the rows with a dictionary's number, without it.
pub(crate) fn part_of<'d>(
    alloc: Global,
    rows: &Rows<'d>,
    number: u32,
) -> Result<Rows<'d>, OutOfMemory>
    requires room { 2 ≤ rows.now.width }
    ensures rows { IfOk result (λ out. out ≡ record { width = rows.now.width - 1; rows = part_of number rows.now.rows }) }
    ensures lies { (doc : Doc) → RowsLieIn doc rows.now.rows → IfOk result (λ out. RowsLieIn doc out.rows) }
{
    let mut out = Rows::new(alloc, rows.width() - 1);
    for row in rows.as_slice() {
        push_part(alloc, row, number, &mut out)?;
    }
    Ok(out)
}

/// Puts the row without its dictionary's number after the others, where that is the number.
fn push_part<'d>(
    alloc: Global,
    row: &Row<'d>,
    number: u32,
    into: &mut Rows<'d>,
) -> Result<(), OutOfMemory>
    requires room { 2 ≤ length row.now }
    requires width { into.old.width ≡ length row.now - 1 }
    ensures { OnOk result (into.new ≡ record { width = into.old.width; rows = into.old.rows ++ part_of number (row.now ∷ []) }) }
{
    if row.get(row.len() - 2) == Value::Int(i64::from(number)) {
        into.push(unmarked(alloc, row)?)?;
    }
    Ok(())
}

/// A projection of `DictPart`: the values of expressions for each row with a dictionary's number, without it. No list of these
/// rows is made.
pub(crate) fn part_values<'d>(
    alloc: Global,
    tools: &mut Tools<'_>,
    doc: &Document<'d>,
    rows: &Rows<'d>,
    number: u32,
    items: &'d Exprs,
) -> Result<Rows<'d>, OutOfMemory>
    requires in_document { RowsLieIn doc.now rows.now.rows }
    requires room { 2 ≤ rows.now.width }
    ensures rows { IfOk result (λ out. out.rows ≡ map (row_of tools.old doc.now items.now) (part_of number rows.now.rows)) }
    ensures width { IfOk result (λ out. out.width ≡ length items.now) }
    ensures lies { IfOk result (λ out. RowsLieIn doc.now out.rows) }
    ensures same { tools.new ≡ tools.old }
{
    let items = items.as_slice();
    let _width = rows.width();
    let mut out = Rows::new(alloc, columns_of_both(items.len(), 0)?);
    for row in rows.as_slice() {
        push_part_values(alloc, tools, doc, row, number, items, &mut out)?;
    }
    Ok(out)
}

/// Puts the values of expressions for the row without its dictionary's number after the others, where
/// that is the number.
fn push_part_values<'d>(
    alloc: Global,
    tools: &mut Tools<'_>,
    doc: &Document<'d>,
    row: &Row<'d>,
    number: u32,
    items: &'d [Expr],
    into: &mut Rows<'d>,
) -> Result<(), OutOfMemory>
    requires in_document { All (IsOfDocument doc.now) row.now }
    requires room { 2 ≤ length row.now }
    requires width { length items.now ≡ into.old.width }
    ensures rows { OnOk result (into.new ≡ record { width = into.old.width; rows = into.old.rows ++ map (row_of tools.old doc.now (map term_of items.now)) (part_of number (row.now ∷ [])) }) }
    ensures lies { RowsLieIn doc.now into.old.rows → OnOk result (RowsLieIn doc.now into.new.rows) }
    ensures same { tools.new ≡ tools.old }
{
    if row.get(row.len() - 2) == Value::Int(i64::from(number)) {
        let part = unmarked(alloc, row)?;
        into.push(values_for(alloc, tools, doc, &part, items)?)?;
    }
    Ok(())
}

/// The row without the value in its last column but one.
fn unmarked<'d>(alloc: Global, row: &Row<'d>) -> Result<Row<'d>, OutOfMemory>
    requires room { 2 ≤ length row.now }
    ensures { IfOk result (λ out. out ≡ unmarked row.now) }
{
    let values = row.values();
    let mut out = Row::copied(alloc, &values[..values.len() - 2])?;
    out.extend(&values[values.len() - 1..])?;
    Ok(out)
}
