ghost use Rattle.std.specs.Prelude.{◌≡◌, map};
ghost use Rattle.std.specs.List.{list_all};
ghost use Rattle.scalar_ops.specs.Expressions.{does_read_from};
ghost use Rattle.scalar_ops.specs.Views.{term_of};

use scalar_ops::Expr;

/// Whether no column that an expression reads is below `width`, as a number of columns: then it is worth
/// the same on a row behind one of that width as on the row alone, with the numbers that columns have there.
///
/// Meaning: `does_read_from`, `specs/Expressions.antt` of `scalar_ops`; the law: `value-right`, `SideLaws`.
#[cycle(reads_from)]
#[tactic(auto, using(crate::proofs::ExprViews::read_from_call))]
pub(crate) fn reads_from(expr: &Expr, width: u32) -> bool
    ensures { result ≡ does_read_from width (term_of expr.now) }
{
    match expr {
        Expr::Column(n) => width <= *n,
        Expr::Int(_) | Expr::Str(_) => true,
        Expr::Call { args, .. } => all_read_from(args.as_slice(), width),
    }
}

/// Whether no column that some expressions read is below `width`.
#[cycle(reads_from)]
fn all_read_from(exprs: &[Expr], width: u32) -> bool
    ensures { result ≡ list_all (λ expr. does_read_from width (term_of expr)) exprs.now }
{
    for expr in exprs {
        if !reads_from(expr, width) {
            return false;
        }
    }
    true
}
