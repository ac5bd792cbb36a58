//! Copies of what a typed program lends to a plan: expressions, texts, numbers.

ghost use Rattle.std.specs.Prelude.{◌≡◌, ◌++◌, map, IfOk, OnOk};
ghost use Rattle.std.specs.List.{range_with_len};
ghost use Rattle.scalar_ops.specs.Views.{term_of};
ghost use Rattle.algebra.specs.ExtractionLaws.{columns_from};
ghost use Rattle.plan_maker.specs.Grounds.{terms_lent};

use group_agg::Agg;
use scalar_ops::{Expr, Exprs};
use span_token::{OutOfMemory, OwnedList, OwnedText};
use std::alloc::Global;

/// A copy of the expression.
#[cycle(copy)]
pub(crate) fn copied(alloc: Global, expr: &Expr) -> Result<Expr, OutOfMemory>
    ensures { IfOk result (λ copy. term_of copy ≡ term_of expr.now) }
{
    match expr {
        Expr::Column(number) => Ok(Expr::Column(*number)),
        Expr::Int(value) => Ok(Expr::Int(*value)),
        Expr::Str(text) => {
            let text = OwnedText::copied(alloc, text.as_str())?;
            Ok(Expr::Str(text))
        }
        Expr::Call { op, args } => {
            let args = all_copied(alloc, args)?;
            Ok(Expr::Call { op: *op, args })
        }
    }
}

#[cycle(copy)]
fn all_copied(alloc: Global, exprs: &[Expr]) -> Result<Vec<Expr>, OutOfMemory>
    ensures { IfOk result (λ copies. map term_of copies.items ≡ map term_of exprs.now) }
{
    let mut copies = Vec::new(alloc);
    for expr in exprs {
        copies.push(copied(alloc, expr)?)?;
    }
    Ok(copies)
}

/// Copies of the expressions, in their order.
pub(crate) fn exprs_copied(alloc: Global, exprs: &[Expr]) -> Result<Exprs, OutOfMemory>
    ensures { IfOk result (λ copies. copies ≡ map term_of exprs.now) }
{
    Ok(Exprs::from(all_copied(alloc, exprs)?))
}

/// Copies of the expressions that are lent, in their order.
pub(crate) fn lent_copied(alloc: Global, exprs: &[&Expr]) -> Result<Exprs, OutOfMemory>
    ensures { IfOk result (λ copies. copies ≡ terms_lent exprs.now) }
{
    let mut copies = Vec::new(alloc);
    for expr in exprs {
        copies.push(copied(alloc, expr)?)?;
    }
    Ok(Exprs::from(copies))
}

/// Copies of the expressions of the first list, followed by those of the second.
pub(crate) fn both_copied(
    alloc: Global,
    first: &[Expr],
    second: &[Expr],
) -> Result<Exprs, OutOfMemory>
    ensures { IfOk result (λ copies. copies ≡ map term_of first.now ++ map term_of second.now) }
{
    let mut copies = all_copied(alloc, first)?;
    for expr in second {
        copies.push(copied(alloc, expr)?)?;
    }
    Ok(Exprs::from(copies))
}

/// Copies of the expressions, followed by `count` columns from `first` on.
pub(crate) fn with_columns(
    alloc: Global,
    items: &[Expr],
    first: u32,
    count: u32,
) -> Result<Exprs, OutOfMemory>
    ensures { IfOk result (λ all. all ≡ map term_of items.now ++ columns_from first count) }
{
    let mut all = all_copied(alloc, items)?;
    let Some(_end) = first.checked_add(count) else {
        return Err(OutOfMemory);
    };
    for number in 0..count {
        all.push(Expr::Column(first + number))?;
    }
    Ok(Exprs::from(all))
}

/// The numbers, in a list of their own.
pub(crate) fn numbers_copied(alloc: Global, numbers: &[u32]) -> Result<OwnedList<u32>, OutOfMemory>
    ensures { IfOk result (λ copies. copies ≡ numbers.now) }
{
    let mut copies = OwnedList::new(alloc);
    for number in numbers {
        copies.push(*number)?;
    }
    Ok(copies)
}

/// The aggregates, in a list of their own.
pub(crate) fn aggregates_copied(alloc: Global, aggs: &[Agg]) -> Result<OwnedList<Agg>, OutOfMemory>
    ensures { IfOk result (λ copies. copies ≡ aggs.now) }
{
    let mut copies = OwnedList::new(alloc);
    for agg in aggs {
        copies.push(*agg)?;
    }
    Ok(copies)
}

/// The numbers from 0 up to but not including `count`.
pub(crate) fn first_numbers(alloc: Global, count: usize) -> Result<OwnedList<u32>, OutOfMemory>
    ensures { IfOk result (λ all. all ≡ range_with_len 0 count) }
{
    let Ok(count) = u32::try_from(count) else {
        return Err(OutOfMemory);
    };
    let mut all = OwnedList::new(alloc);
    for number in 0..count {
        all.push(number)?;
    }
    Ok(all)
}
