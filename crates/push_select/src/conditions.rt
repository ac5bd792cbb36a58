//! Conditions taken apart, and those of them that read one side of a joined row alone.

ghost use Rattle.std.specs.Prelude.{◌≡◌, ◌&&◌, ℕ, List, map, not, IfOk, OnOk, All};
ghost use Rattle.std.specs.List.{filter};
ghost use Rattle.span_token.specs.Documents.{Doc};
ghost use Rattle.row_values.specs.Datums.{Datum};
ghost use Rattle.scalar_ops.specs.Expressions.{ReadsBelow, does_read_from};
ghost use Rattle.scalar_ops.specs.Operators.{is_true};
ghost use Rattle.scalar_ops.specs.SideLaws.{left_conditions, later_conditions};
ghost use Rattle.scalar_ops.specs.Tables.{Lists};
ghost use Rattle.scalar_ops.specs.Values.{value, holding};
ghost use Rattle.scalar_ops.specs.Views.{term_of};
ghost use Rattle.push_select.specs.Conditions.{terms_lent, IsApart};

use crate::reading::reads_from;
use scalar_ops::{Expr, Op, reads_below};
use span_token::OutOfMemory;
use std::alloc::Global;

/// The conditions, borrowed, in their order, with each `And` taken apart.
pub(crate) fn parted(alloc: Global, conds: &[Expr]) -> Result<Vec<&Expr>, OutOfMemory>
    ensures same { IfOk result (λ parts. (lists : Lists) (doc : Doc) (row : List Datum) → holding lists doc (terms_lent parts.items) row ≡ holding lists doc (map term_of conds.now) row) }
    ensures reads { IfOk result (λ parts. (width : ℕ) → All (ReadsBelow width) (map term_of conds.now) → All (ReadsBelow width) (terms_lent parts.items)) }
    ensures apart { IfOk result (λ parts. All IsApart (terms_lent parts.items)) }
{
    let mut parts = Vec::new(alloc);
    push_all(conds, &mut parts)?;
    Ok(parts)
}

/// Puts the parts of the conditions after the others.
#[cycle(parts)]
fn push_all<'t>(conds: &'t [Expr], into: &mut Vec<&'t Expr>) -> Result<(), OutOfMemory>
    ensures same { OnOk result ((lists : Lists) (doc : Doc) (row : List Datum) → holding lists doc (terms_lent into.new.items) row ≡ (holding lists doc (terms_lent into.old.items) row && holding lists doc (map term_of conds.now) row)) }
    ensures reads { OnOk result ((width : ℕ) → All (ReadsBelow width) (terms_lent into.old.items) → All (ReadsBelow width) (map term_of conds.now) → All (ReadsBelow width) (terms_lent into.new.items)) }
    ensures apart { OnOk result (All IsApart (terms_lent into.old.items) → All IsApart (terms_lent into.new.items)) }
{
    for cond in conds {
        push_parts(cond, into)?;
    }
    Ok(())
}

/// Puts the parts of a condition after the others: those of each argument of an `And`, and else itself.
#[cycle(parts)]
fn push_parts<'t>(cond: &'t Expr, into: &mut Vec<&'t Expr>) -> Result<(), OutOfMemory>
    ensures same { OnOk result ((lists : Lists) (doc : Doc) (row : List Datum) → holding lists doc (terms_lent into.new.items) row ≡ (holding lists doc (terms_lent into.old.items) row && is_true (value lists doc row (term_of cond.now)))) }
    ensures reads { OnOk result ((width : ℕ) → All (ReadsBelow width) (terms_lent into.old.items) → ReadsBelow width (term_of cond.now) → All (ReadsBelow width) (terms_lent into.new.items)) }
    ensures apart { OnOk result (All IsApart (terms_lent into.old.items) → All IsApart (terms_lent into.new.items)) }
{
    match cond {
        Expr::Column(_) | Expr::Int(_) | Expr::Str(_) => {
            push_apart(cond, into)?;
            Ok(())
        }
        Expr::Call { op, args } => match op {
            Op::And => {
                if args.is_empty() {
                    push_apart(cond, into)?;
                    return Ok(());
                }
                push_all(args.as_slice(), into)?;
                Ok(())
            }
            _ => {
                push_apart(cond, into)?;
                Ok(())
            }
        },
    }
}

/// Puts a condition after the others.
fn push_apart<'t>(cond: &'t Expr, into: &mut Vec<&'t Expr>) -> Result<(), OutOfMemory>
    requires apart { IsApart (term_of cond.now) }
    ensures same { OnOk result ((lists : Lists) (doc : Doc) (row : List Datum) → holding lists doc (terms_lent into.new.items) row ≡ (holding lists doc (terms_lent into.old.items) row && is_true (value lists doc row (term_of cond.now)))) }
    ensures reads { OnOk result ((width : ℕ) → All (ReadsBelow width) (terms_lent into.old.items) → ReadsBelow width (term_of cond.now) → All (ReadsBelow width) (terms_lent into.new.items)) }
    ensures apart { OnOk result (All IsApart (terms_lent into.old.items) → All IsApart (terms_lent into.new.items)) }
{
    into.push(cond)?;
    Ok(())
}

/// The conditions that read columns below `width` alone, or none.
pub(crate) fn of_left<'t>(
    alloc: Global,
    conds: &[&'t Expr],
    width: u32,
) -> Result<Vec<&'t Expr>, OutOfMemory>
    ensures { IfOk result (λ left. terms_lent left.items ≡ left_conditions width (terms_lent conds.now)) }
{
    let mut left = Vec::new(alloc);
    for cond in conds {
        if reads_below(cond, width) {
            left.push(*cond)?;
        }
    }
    Ok(left)
}

/// Keeps the others.
pub(crate) fn drop_left(conds: &mut Vec<&Expr>, width: u32)
    ensures { terms_lent conds.new.items ≡ later_conditions width (terms_lent conds.old.items) }
{
    conds.retain(|cond| !reads_below(cond, width));
}

/// The conditions that read no column below `width`.
pub(crate) fn of_right<'t>(
    alloc: Global,
    conds: &[&'t Expr],
    width: u32,
) -> Result<Vec<&'t Expr>, OutOfMemory>
    ensures { IfOk result (λ right. terms_lent right.items ≡ filter (does_read_from width) (terms_lent conds.now)) }
{
    let mut right = Vec::new(alloc);
    for cond in conds {
        if reads_from(cond, width) {
            right.push(*cond)?;
        }
    }
    Ok(right)
}

/// Keeps the others.
pub(crate) fn drop_right(conds: &mut Vec<&Expr>, width: u32)
    ensures { terms_lent conds.new.items ≡ filter (λ cond. not (does_read_from width cond)) (terms_lent conds.old.items) }
{
    conds.retain(|cond| !reads_from(cond, width));
}
