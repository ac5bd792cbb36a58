ghost use Rattle.std.specs.Prelude.{◌≡◌, ◌+◌, ◌++◌, length, map, IfOk, OnOk};
ghost use Rattle.span_token.specs.Documents.{Doc};
ghost use Rattle.row_values.specs.Rows.{RowsLieIn, product};

use row_operators::columns_of_both;
use row_values::{Row, Rows};
use span_token::OutOfMemory;
use std::alloc::Global;

/// `Cross`: each left row, followed by each right row.
#[tactic(auto, unfolding(row_values::specs::Rows::product))]
pub(crate) fn cross<'d>(
    alloc: Global,
    left: &Rows<'d>,
    right: &Rows<'d>,
) -> Result<Rows<'d>, OutOfMemory>
    ensures rows { IfOk result (λ out. out ≡ record { width = left.now.width + right.now.width; rows = product left.now.rows right.now.rows }) }
    ensures lies { (doc : Doc) → RowsLieIn doc left.now.rows → RowsLieIn doc right.now.rows → IfOk result (λ out. RowsLieIn doc out.rows) }
{
    let width = columns_of_both(left.width() as usize, right.width() as usize)?;
    let mut out = Rows::new(alloc, width);
    for row in left.as_slice() {
        push_each(alloc, row, right, &mut out)?;
    }
    Ok(out)
}

/// Puts the row, followed by each of the others, after the rows that are there.
fn push_each<'d>(
    alloc: Global,
    row: &Row<'d>,
    others: &Rows<'d>,
    into: &mut Rows<'d>,
) -> Result<(), OutOfMemory>
    requires width { length row.now + others.now.width ≡ into.old.width }
    ensures { OnOk result (into.new ≡ record { width = into.old.width; rows = into.old.rows ++ map (λ other. row.now ++ other) others.now.rows }) }
{
    let _width = others.width();
    for other in others.as_slice() {
        into.push_joined(alloc, row, other)?;
    }
    Ok(())
}
