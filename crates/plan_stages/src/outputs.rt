//! The outputs of a plan, as they are written.
ghost use Rattle.std.specs.Prelude.{◌≡◌, IfOk};
ghost use Rattle.row_values.specs.Outputs.{HasDistinctNames};
ghost use Rattle.window_lines.specs.Lines.{names_in};

use algebra::Plan;
use row_values::Output;
use span_token::{OutOfMemory, OwnedList, OwnedText};
use std::alloc::Global;

/// The outputs with the names of their columns, in their order.
pub(crate) fn outputs_of(alloc: Global, plan: &Plan) -> Result<Vec<Output>, OutOfMemory>
    ensures { IfOk result (λ outputs. outputs.items ≡ names_in plan.now) }
{
    let mut outputs = Vec::new(alloc);
    for out in plan.outputs() {
        outputs.push(copied(alloc, &out.names)?)?;
    }
    Ok(outputs)
}

/// An output like this one.
fn copied(alloc: Global, output: &Output) -> Result<Output, OutOfMemory>
    ensures { IfOk result (λ copy. copy ≡ output.now) }
{
    let columns = columns_copied(alloc, output)?;
    let name = OwnedText::copied(alloc, output.name())?;
    Output::new(name, columns)
}

/// The names of its columns.
fn columns_copied(alloc: Global, output: &Output) -> Result<OwnedList<OwnedText>, OutOfMemory>
    ensures names { IfOk result (λ columns. columns ≡ output.now.columns) }
    ensures distinct { IfOk result (λ columns. HasDistinctNames columns) }
{
    let mut columns = OwnedList::new(alloc);
    for i in 0..output.width() {
        columns.push(OwnedText::copied(alloc, output.column(i))?)?;
    }
    Ok(columns)
}
