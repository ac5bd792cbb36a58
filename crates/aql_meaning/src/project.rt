ghost use Rattle.std.specs.Prelude.{◌≡◌, ◌++◌, ◌∷◌, [], IfOk, OnOk, map, length, All};
ghost use Rattle.std.specs.List.{range_with_len};
ghost use Rattle.row_values.specs.Datums.{IsOfDocument};
ghost use Rattle.row_values.specs.Rows.{RowsLieIn, sorted};
ghost use Rattle.group_agg.specs.Groups.{HasKey, HasColumn, grouped};
ghost use Rattle.aql_typed.specs.Fitting.{FitsProjection, projection_width};
ghost use Rattle.aql_typed.specs.Meaning.{row_of, projected};
ghost use Rattle.aql_typed.specs.Views.{projection_of};

use aql_typed::Projection;
use group_agg::Agg;
use row_operators::{columns_of_both, grouped_in_order, values_for, values_for_each};
use row_values::{Row, Rows};
use scalar_ops::{Exprs, Tools};
use span_token::{Document, OutOfMemory};
use std::alloc::Global;

/// One row for each row, or for each group of rows, in row order.
pub(crate) fn projected<'d>(
    alloc: Global,
    tools: &mut Tools<'_>,
    doc: &Document<'d>,
    rows: &[Row<'d>],
    projection: &'d Projection,
) -> Result<Rows<'d>, OutOfMemory>
    requires in_document { RowsLieIn doc.now rows.now }
    requires fits { FitsProjection (projection_of projection.now) }
    ensures rows { IfOk result (λ out. out.rows ≡ projected tools.old doc.now (projection_of projection.now) rows.now) }
    ensures width { IfOk result (λ out. out.width ≡ projection_width (projection_of projection.now)) }
    ensures lies { IfOk result (λ out. RowsLieIn doc.now out.rows) }
    ensures same { tools.new ≡ tools.old }
{
    match projection {
        Projection::Plain(items) => values_for_each(alloc, tools, doc, rows, items),
        Projection::Grouped {
            keys,
            arguments,
            aggregates,
        } => {
            let out = grouped(
                alloc,
                tools,
                doc,
                rows,
                keys,
                arguments,
                aggregates.as_slice(),
            )?;
            Ok(out)
        }
    }
}

/// One row for each group of rows with equal keys, in row order.
fn grouped<'d>(
    alloc: Global,
    tools: &mut Tools<'_>,
    doc: &Document<'d>,
    rows: &[Row<'d>],
    keys: &'d Exprs,
    arguments: &'d Exprs,
    aggs: &[Agg],
) -> Result<Rows<'d>, OutOfMemory>
    requires in_document { RowsLieIn doc.now rows.now }
    requires keys_there { All (HasKey (length keys.now)) aggs.now }
    requires columns_there { All (HasColumn (length (keys.now ++ arguments.now))) aggs.now }
    ensures rows { IfOk result (λ out. out.rows ≡ sorted (grouped (range_with_len 0 (length keys.now)) aggs.now (map (row_of tools.old doc.now (keys.now ++ arguments.now)) rows.now))) }
    ensures width { IfOk result (λ out. out.width ≡ length aggs.now) }
    ensures lies { IfOk result (λ out. RowsLieIn doc.now out.rows) }
    ensures same { tools.new ≡ tools.old }
{
    let columns = numbers(alloc, keys.as_slice().len())?;
    let values = values_of_both(alloc, tools, doc, rows, keys, arguments)?;
    let out = grouped_in_order(alloc, &values, columns.as_slice(), aggs)?;
    Ok(out)
}

/// The numbers from 0 up to but not including `number`.
fn numbers(alloc: Global, number: usize) -> Result<Vec<u32>, OutOfMemory>
    ensures { IfOk result (λ all. all.items ≡ range_with_len 0 number) }
{
    let Ok(number) = u32::try_from(number) else {
        return Err(OutOfMemory);
    };
    let mut all = Vec::new(alloc);
    for n in 0..number {
        all.push(n)?;
    }
    Ok(all)
}

/// One row for each row: the values of the keys, followed by those of the arguments.
fn values_of_both<'d>(
    alloc: Global,
    tools: &mut Tools<'_>,
    doc: &Document<'d>,
    rows: &[Row<'d>],
    keys: &'d Exprs,
    arguments: &'d Exprs,
) -> Result<Rows<'d>, OutOfMemory>
    requires in_document { RowsLieIn doc.now rows.now }
    ensures rows { IfOk result (λ out. out.rows ≡ map (row_of tools.old doc.now (keys.now ++ arguments.now)) rows.now) }
    ensures width { IfOk result (λ out. out.width ≡ length (keys.now ++ arguments.now)) }
    ensures lies { IfOk result (λ out. RowsLieIn doc.now out.rows) }
    ensures same { tools.new ≡ tools.old }
{
    let width = columns_of_both(keys.as_slice().len(), arguments.as_slice().len())?;
    let mut out = Rows::new(alloc, width);
    for row in rows {
        push_both(alloc, tools, doc, row, keys, arguments, &mut out)?;
    }
    Ok(out)
}

/// Puts the row of the values of the keys, followed by those of the arguments, after the others.
#[tactic(auto, using(crate::proofs::Columns::values_one_by_one))]
fn push_both<'d>(
    alloc: Global,
    tools: &mut Tools<'_>,
    doc: &Document<'d>,
    row: &Row<'d>,
    keys: &'d Exprs,
    arguments: &'d Exprs,
    into: &mut Rows<'d>,
) -> Result<(), OutOfMemory>
    requires in_document { All (IsOfDocument doc.now) row.now }
    requires width { into.old.width ≡ length (keys.now ++ arguments.now) }
    ensures rows { OnOk result (into.new ≡ record { width = into.old.width; rows = into.old.rows ++ row_of tools.old doc.now (keys.now ++ arguments.now) row.now ∷ [] }) }
    ensures lies { RowsLieIn doc.now into.old.rows → OnOk result (RowsLieIn doc.now into.new.rows) }
    ensures same { tools.new ≡ tools.old }
{
    let mut values = values_for(alloc, tools, doc, row, keys.as_slice())?;
    let rest = values_for(alloc, tools, doc, row, arguments.as_slice())?;
    values.extend(rest.values())?;
    into.push(values)?;
    Ok(())
}
