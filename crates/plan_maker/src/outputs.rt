//! The outputs of a program, each shown by a node.

ghost use Rattle.std.specs.Prelude.{◌≡◌, ◌<◌, length, map, IfOk, IfSome};
ghost use Rattle.row_values.specs.Outputs.{HasDistinctNames};
ghost use Rattle.aql_typed.specs.Programs.{AreTypedViews, AreTypedOutputs, NamesView, columns_shown, names_of};
ghost use Rattle.plan_maker.specs.Grounds.{node_shown, output_shown};

use crate::below::Below;
use algebra::PlanOut;
use aql_typed::{Column, Output, TypedView};
use span_token::{OutOfMemory, OwnedList, OwnedText};
use std::alloc::Global;

/// The outputs with their names and their nodes, in their order.
pub(crate) fn outputs_shown(
    alloc: Global,
    views: &[TypedView],
    outputs: &[Output],
    below: &Below,
) -> Result<Vec<PlanOut>, OutOfMemory>
    requires views { AreTypedViews views.now }
    requires outputs { AreTypedOutputs (length views.now) outputs.now }
    requires long { length below.now.views.items ≡ length views.now }
    ensures { IfOk result (λ shown. shown.items ≡ map (output_shown views.now below.now) outputs.now) }
{
    let mut shown = Vec::new(alloc);
    for out in outputs {
        shown.push(output_shown(alloc, views, out, below)?)?;
    }
    Ok(shown)
}

fn output_shown(
    alloc: Global,
    views: &[TypedView],
    out: &Output,
    below: &Below,
) -> Result<PlanOut, OutOfMemory>
    requires views { AreTypedViews views.now }
    requires named { NamesView (length views.now) out.now }
    requires long { length below.now.views.items ≡ length views.now }
    ensures { IfOk result (λ shown. shown ≡ output_shown views.now below.now out.now) }
{
    let columns = columns_shown(alloc, views, out.view)?;
    let name = OwnedText::copied(alloc, out.name.as_str())?;
    let names = row_values::Output::new(name, columns)?;
    let node = match out.view {
        None => below.document,
        Some(n) => below.views.as_slice()[n as usize],
    };
    Ok(PlanOut { names, node })
}

/// The names of the columns of a view, or of the document.
fn columns_shown(
    alloc: Global,
    views: &[TypedView],
    view: Option<u32>,
) -> Result<OwnedList<OwnedText>, OutOfMemory>
    requires views { AreTypedViews views.now }
    requires there { IfSome view (λ n. n < length views.now) }
    ensures names { IfOk result (λ columns. columns ≡ columns_shown views.now view) }
    ensures distinct { IfOk result (λ columns. HasDistinctNames columns) }
{
    match view {
        None => {
            let mut columns = OwnedList::new(alloc);
            columns.push(OwnedText::copied(alloc, "text")?)?;
            Ok(columns)
        }
        Some(n) => {
            let columns = copied_names(alloc, views[n as usize].columns.as_slice())?;
            Ok(columns)
        }
    }
}

fn copied_names(alloc: Global, columns: &[Column]) -> Result<OwnedList<OwnedText>, OutOfMemory>
    ensures { IfOk result (λ names. names ≡ map (λ column. column.name) columns.now) }
{
    let mut names = OwnedList::new(alloc);
    for column in columns {
        names.push(OwnedText::copied(alloc, column.name.as_str())?)?;
    }
    Ok(names)
}
