ghost use Rattle.std.specs.Prelude.{IfOk, map};
ghost use Rattle.scalar_ops.specs.Views.{term_of};
ghost use Rattle.push_select.specs.Conditions.{AreSides};

use crate::conditions::{drop_left, drop_right, of_left, of_right, parted};
use crate::copying::{lent_copied, lent_shifted};
use scalar_ops::{Expr, Exprs};
use span_token::OutOfMemory;
use std::alloc::Global;

/// The conditions of a selection over joined rows by the side that they read: those of the right side alone
/// with the numbers that columns have there.
#[derive(Debug, Drop)]
pub(crate) struct Sides {
    pub left: Exprs,
    pub right: Exprs,
    pub joint: Vec<Expr>,
}

/// The sides of conditions on rows whose left side has `width` columns, with each `And` taken apart. What
/// reads no column is told of the left side.
pub(crate) fn by_side(alloc: Global, conds: &[Expr], width: u32) -> Result<Sides, OutOfMemory>
    ensures { IfOk result (λ sides. AreSides width (map term_of conds.now) sides) }
{
    let mut rest = parted(alloc, conds)?;
    let on_left = of_left(alloc, rest.as_slice(), width)?;
    drop_left(&mut rest, width);
    let on_right = of_right(alloc, rest.as_slice(), width)?;
    drop_right(&mut rest, width);
    let left = lent_copied(alloc, on_left.as_slice())?;
    let right = lent_shifted(alloc, on_right.as_slice(), width)?;
    let joint = lent_copied(alloc, rest.as_slice())?;
    let left = Exprs::from(left);
    let right = Exprs::from(right);
    Ok(Sides { left, right, joint })
}
