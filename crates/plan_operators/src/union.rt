ghost use Rattle.std.specs.Prelude.{◌≡◌, ◌++◌, IfOk, OnOk};
ghost use Rattle.span_token.specs.Documents.{Doc};
ghost use Rattle.row_values.specs.Rows.{RowsLieIn};
ghost use Rattle.plan_operators.specs.Given.{input_rows};

use crate::Input;
use row_operators::append_rows;
use row_values::Rows;
use span_token::OutOfMemory;
use std::alloc::Global;

/// `Union`: the left rows, followed by the right ones. Rows that are given up are moved.
pub(crate) fn union<'d>(
    alloc: Global,
    left: Input<'_, 'd>,
    right: Input<'_, 'd>,
) -> Result<Rows<'d>, OutOfMemory>
    requires width { (input_rows right).width ≡ (input_rows left).width }
    ensures rows { IfOk result (λ out. out ≡ record { width = (input_rows left.entry).width; rows = (input_rows left.entry).rows ++ (input_rows right.entry).rows }) }
    ensures lies { (doc : Doc) → RowsLieIn doc (input_rows left.entry).rows → RowsLieIn doc (input_rows right.entry).rows → IfOk result (λ out. RowsLieIn doc out.rows) }
{
    let mut out = left.into_rows(alloc)?;
    match right {
        Input::Given(rows) => append_rows(rows, &mut out)?,
        Input::Lent(rows) => append_copies(alloc, rows, &mut out)?,
    }
    Ok(out)
}

/// Puts copies of the rows after the others.
fn append_copies<'d>(alloc: Global, rows: &Rows<'d>, into: &mut Rows<'d>) -> Result<(), OutOfMemory>
    requires width { rows.now.width ≡ into.old.width }
    ensures { OnOk result (into.new ≡ record { width = into.old.width; rows = into.old.rows ++ rows.now.rows }) }
{
    let _width = rows.width();
    for row in rows.as_slice() {
        into.push(row.copy(alloc)?)?;
    }
    Ok(())
}
