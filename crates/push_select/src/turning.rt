//! Conditions of a product of three nodes, for the last two of them and for the rest.

ghost use Rattle.std.specs.Prelude.{◌≡◌, ◌-◌, map, not, IfOk};
ghost use Rattle.std.specs.List.{filter};
ghost use Rattle.scalar_ops.specs.Expressions.{renamed, does_read_from};
ghost use Rattle.scalar_ops.specs.Views.{term_of};
ghost use Rattle.push_select.specs.Conditions.{terms_lent, AreTurns};

use crate::conditions::{drop_right, of_right};
use crate::copying::{lent_copied, lent_shifted};
use scalar_ops::Expr;
use span_token::OutOfMemory;
use std::alloc::Global;

/// The conditions that read the last two of three nodes alone, with the numbers that columns have there, and
/// the others.
#[derive(Debug, Drop)]
pub(crate) struct Turns {
    pub later: Vec<Expr>,
    pub others: Vec<Expr>,
}

/// The conditions of a product whose first node has `width` columns.
pub(crate) fn turns_of(alloc: Global, conds: &[Expr], width: u32) -> Result<Turns, OutOfMemory>
    ensures { IfOk result (AreTurns width (map term_of conds.now)) }
{
    let mut rest = lent(alloc, conds)?;
    let behind = of_right(alloc, rest.as_slice(), width)?;
    drop_right(&mut rest, width);
    let later = lent_shifted(alloc, behind.as_slice(), width)?;
    let others = lent_copied(alloc, rest.as_slice())?;
    Ok(Turns { later, others })
}

/// The conditions, borrowed.
fn lent(alloc: Global, conds: &[Expr]) -> Result<Vec<&Expr>, OutOfMemory>
    ensures { IfOk result (λ lent. terms_lent lent.items ≡ map term_of conds.now) }
{
    let mut lent = Vec::new(alloc);
    for cond in conds {
        lent.push(cond)?;
    }
    Ok(lent)
}
