ghost use Rattle.std.specs.Prelude.{◌≡◌, map};
ghost use Rattle.std.specs.List.{list_all};
ghost use Rattle.scalar_ops.specs.Expressions.{does_read_below};
ghost use Rattle.scalar_ops.specs.Views.{term_of};

use crate::Expr;

/// Whether every column that an expression reads is below `width`, as a number of columns: then it is
/// worth the same on a row of that width and on every row that begins with it.
///
/// Meaning: `does_read_below`, `specs/Expressions.antt`; the law: `value-left`, `specs/ValueLaws.antt`.
#[cycle(reads_below)]
#[tactic(auto, using(crate::proofs::Viewing::read_below_call))]
pub fn reads_below(expr: &Expr, width: u32) -> bool
    ensures { result ≡ does_read_below width (term_of expr.now) }
{
    match expr {
        Expr::Column(n) => *n < width,
        Expr::Int(_) | Expr::Str(_) => true,
        Expr::Call { args, .. } => all_read_below(args.as_slice(), width),
    }
}

/// Whether every column that some expressions read is below `width`.
#[cycle(reads_below)]
fn all_read_below(exprs: &[Expr], width: u32) -> bool
    ensures { result ≡ list_all (λ expr. does_read_below width (term_of expr)) exprs.now }
{
    for expr in exprs {
        if !reads_below(expr, width) {
            return false;
        }
    }
    true
}
