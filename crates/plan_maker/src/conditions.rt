//! Conditions that wait until the columns that they read are there.

ghost use Rattle.std.specs.Prelude.{◌≡◌, ◌&&◌, ℕ, List, map, IfOk, OnOk, All};
ghost use Rattle.span_token.specs.Documents.{Doc};
ghost use Rattle.row_values.specs.Datums.{Datum};
ghost use Rattle.scalar_ops.specs.Expressions.{ReadsBelow};
ghost use Rattle.scalar_ops.specs.Operators.{is_true};
ghost use Rattle.scalar_ops.specs.SideLaws.{left_conditions, later_conditions};
ghost use Rattle.scalar_ops.specs.Tables.{Lists};
ghost use Rattle.scalar_ops.specs.Values.{value, holding};
ghost use Rattle.scalar_ops.specs.Views.{term_of};
ghost use Rattle.plan_maker.specs.Grounds.{terms_lent};

use scalar_ops::{Expr, Op, reads_below};
use span_token::OutOfMemory;
use std::alloc::Global;

/// The conditions, borrowed, in their order.
pub(crate) fn lent(alloc: Global, conds: &[Expr]) -> Result<Vec<&Expr>, OutOfMemory>
    ensures { IfOk result (λ lent. terms_lent lent.items ≡ map term_of conds.now) }
{
    let mut lent = Vec::new(alloc);
    for cond in conds {
        lent.push(cond)?;
    }
    Ok(lent)
}

/// The conditions, borrowed, in their order, with each `And` taken apart.
pub(crate) fn parted(alloc: Global, conds: &[Expr]) -> Result<Vec<&Expr>, OutOfMemory>
    ensures same { IfOk result (λ parts. (lists : Lists) (doc : Doc) (row : List Datum) → holding lists doc (terms_lent parts.items) row ≡ holding lists doc (map term_of conds.now) row) }
    ensures reads { IfOk result (λ parts. (width : ℕ) → All (ReadsBelow width) (map term_of conds.now) → All (ReadsBelow width) (terms_lent parts.items)) }
{
    let mut parts = Vec::new(alloc);
    push_all(conds, &mut parts)?;
    Ok(parts)
}

/// Puts the parts of the conditions after the others.
#[cycle(parts)]
fn push_all<'t>(conds: &'t [Expr], into: &mut Vec<&'t Expr>) -> Result<(), OutOfMemory>
    ensures same { OnOk result ((lists : Lists) (doc : Doc) (row : List Datum) → holding lists doc (terms_lent into.new.items) row ≡ (holding lists doc (terms_lent into.old.items) row && holding lists doc (map term_of conds.now) row)) }
    ensures reads { OnOk result ((width : ℕ) → All (ReadsBelow width) (terms_lent into.old.items) → All (ReadsBelow width) (map term_of conds.now) → All (ReadsBelow width) (terms_lent into.new.items)) }
{
    for cond in conds {
        push_parts(cond, into)?;
    }
    Ok(())
}

/// Puts the parts of a condition after the others: those of each argument of an `And`, and else itself.
#[cycle(parts)]
fn push_parts<'t>(cond: &'t Expr, into: &mut Vec<&'t Expr>) -> Result<(), OutOfMemory>
    ensures same { OnOk result ((lists : Lists) (doc : Doc) (row : List Datum) → holding lists doc (terms_lent into.new.items) row ≡ (holding lists doc (terms_lent into.old.items) row && is_true (value lists doc row (term_of cond.now)))) }
    ensures reads { OnOk result ((width : ℕ) → All (ReadsBelow width) (terms_lent into.old.items) → ReadsBelow width (term_of cond.now) → All (ReadsBelow width) (terms_lent into.new.items)) }
{
    if let Expr::Call { op, args } = cond {
        if let Op::And = op {
            if !args.is_empty() {
                push_all(args.as_slice(), into)?;
                return Ok(());
            }
        }
    }
    into.push(cond)?;
    Ok(())
}

/// The conditions that read columns below `width` alone.
pub(crate) fn early<'t>(
    alloc: Global,
    conds: &[&'t Expr],
    width: u32,
) -> Result<Vec<&'t Expr>, OutOfMemory>
    ensures { IfOk result (λ early. terms_lent early.items ≡ left_conditions width (terms_lent conds.now)) }
{
    let mut early = Vec::new(alloc);
    for cond in conds {
        if reads_below(cond, width) {
            early.push(*cond)?;
        }
    }
    Ok(early)
}

/// Keeps the others.
pub(crate) fn drop_early(conds: &mut Vec<&Expr>, width: u32)
    ensures { terms_lent conds.new.items ≡ later_conditions width (terms_lent conds.old.items) }
{
    conds.retain(|cond| !reads_below(cond, width));
}
