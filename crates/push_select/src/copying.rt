//! Copies of expressions, with the numbers that columns have in the rows below.

ghost use Rattle.std.specs.Prelude.{◌≡◌, ◌-◌, map, IfOk};
ghost use Rattle.scalar_ops.specs.Expressions.{column, renamed};
ghost use Rattle.scalar_ops.specs.Views.{term_of};
ghost use Rattle.push_select.specs.Conditions.{terms_lent, number_by};

use scalar_ops::Expr;
use span_token::{OutOfMemory, OwnedText};
use std::alloc::Global;

/// Which numbers columns get.
#[derive(Clone, Copy, Debug)]
pub(crate) enum Numbers<'a> {
    /// Less by so many, and 0 where it would be below.
    Less(u32),
    /// The number that stands at their index in a list, 0 past it.
    Listed(&'a [u32]),
}

/// The number of column `n` by these.
fn number_by(numbers: Numbers, n: u32) -> u32
    ensures { result ≡ number_by numbers.entry n }
{
    match numbers {
        Numbers::Less(less) => n.saturating_sub(less),
        Numbers::Listed(shown) => match shown.get(n as usize) {
            Some(number) => *number,
            None => 0,
        },
    }
}

/// Copies of the conditions, in their order.
pub(crate) fn lent_copied(alloc: Global, conds: &[&Expr]) -> Result<Vec<Expr>, OutOfMemory>
    ensures { IfOk result (λ copies. map term_of copies.items ≡ terms_lent conds.now) }
{
    let copies = lent_shifted(alloc, conds, 0)?;
    Ok(copies)
}

/// Copies of the conditions, in their order, in which each column has a number that is less by `less`, and
/// 0 where it would be below.
pub(crate) fn lent_shifted(
    alloc: Global,
    conds: &[&Expr],
    less: u32,
) -> Result<Vec<Expr>, OutOfMemory>
    ensures { IfOk result (λ copies. map term_of copies.items ≡ map (λ cond. renamed (λ n. n - less) (term_of cond.now)) conds.now) }
{
    let mut copies = Vec::new(alloc);
    for cond in conds {
        copies.push(renamed(alloc, cond, Numbers::Less(less))?)?;
    }
    Ok(copies)
}

/// Copies of the expressions, in their order.
pub(crate) fn all_copied(alloc: Global, exprs: &[Expr]) -> Result<Vec<Expr>, OutOfMemory>
    ensures { IfOk result (λ copies. map term_of copies.items ≡ map term_of exprs.now) }
{
    let copies = all_renamed(alloc, exprs, Numbers::Less(0))?;
    Ok(copies)
}

/// These columns as expressions.
pub(crate) fn columns_shown(alloc: Global, shown: &[u32]) -> Result<Vec<Expr>, OutOfMemory>
    ensures { IfOk result (λ items. map term_of items.items ≡ map column shown.now) }
{
    let mut items = Vec::new(alloc);
    for n in shown {
        items.push(Expr::Column(*n))?;
    }
    Ok(items)
}

/// A copy of the expression with these numbers.
#[cycle(copy)]
fn renamed(alloc: Global, expr: &Expr, numbers: Numbers) -> Result<Expr, OutOfMemory>
    ensures { IfOk result (λ copy. term_of copy ≡ renamed (number_by numbers.entry) (term_of expr.now)) }
{
    match expr {
        Expr::Column(n) => Ok(Expr::Column(number_by(numbers, *n))),
        Expr::Int(value) => Ok(Expr::Int(*value)),
        Expr::Str(text) => {
            let text = OwnedText::copied(alloc, text.as_str())?;
            Ok(Expr::Str(text))
        }
        Expr::Call { op, args } => {
            let args = all_renamed(alloc, args, numbers)?;
            Ok(Expr::Call { op: *op, args })
        }
    }
}

/// Copies of the expressions with these numbers, in their order.
#[cycle(copy)]
pub(crate) fn all_renamed(
    alloc: Global,
    exprs: &[Expr],
    numbers: Numbers,
) -> Result<Vec<Expr>, OutOfMemory>
    ensures { IfOk result (λ copies. map term_of copies.items ≡ map (λ expr. renamed (number_by numbers.entry) (term_of expr)) exprs.now) }
{
    let mut copies = Vec::new(alloc);
    for expr in exprs {
        copies.push(renamed(alloc, expr, numbers)?)?;
    }
    Ok(copies)
}
