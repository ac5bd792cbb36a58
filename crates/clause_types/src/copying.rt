//! Copies of expressions: a bare name stands for an item's expression wherever it is written.

ghost use Rattle.std.specs.Prelude.{◌≡◌, map, IfOk};
ghost use Rattle.scalar_ops.specs.Views.{term_of};

use scalar_ops::Expr;
use span_token::{OutOfMemory, OwnedText};
use std::alloc::Global;

/// A copy of the expression.
#[cycle(copy)]
pub(crate) fn copied(alloc: Global, expr: &Expr) -> Result<Expr, OutOfMemory>
    ensures { IfOk result (λ copy. term_of copy ≡ term_of expr.now) }
{
    match expr {
        Expr::Column(number) => Ok(Expr::Column(*number)),
        Expr::Int(value) => Ok(Expr::Int(*value)),
        Expr::Str(text) => {
            let text = OwnedText::copied(alloc, text.as_str())?;
            Ok(Expr::Str(text))
        }
        Expr::Call { op, args } => {
            let args = all_copied(alloc, args)?;
            Ok(Expr::Call { op: *op, args })
        }
    }
}

#[cycle(copy)]
fn all_copied(alloc: Global, exprs: &[Expr]) -> Result<Vec<Expr>, OutOfMemory>
    ensures { IfOk result (λ copies. map term_of copies.items ≡ map term_of exprs.now) }
{
    let mut copies = Vec::new(alloc);
    for expr in exprs {
        copies.push(copied(alloc, expr)?)?;
    }
    Ok(copies)
}
