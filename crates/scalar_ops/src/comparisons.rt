ghost use Rattle.std.specs.Prelude.{◌≡◌, ◌∷◌, [], map, IfSome, MatchOption};
ghost use Rattle.span_token.specs.Documents.{Doc};
ghost use Rattle.row_values.specs.Datums.{datum_of, int, null, truth};
ghost use Rattle.row_values.specs.Rows.{value_in};
ghost use Rattle.scalar_ops.specs.Tables.{Lists};
ghost use Rattle.scalar_ops.specs.Values.{applied, value};
ghost use Rattle.scalar_ops.specs.Views.{term_of};

use crate::predicates::are_equal;
use crate::spans::{begin_of, end_of, length_of};
use crate::{Expr, Op};
use row_values::{Row, Value};

/// Whether two columns are equal, or one integer is greater than another, where the arguments are columns,
/// integers or numbers of a column's span; none of anything else.
///
/// The values are looked at where they lie in the row, and nothing is written for an argument.
#[inline(always)]
pub(crate) fn compared(row: &Row<'_>, op: Op, args: &[Expr]) -> Option<bool>
    ensures { (lists : Lists) (doc : Doc) → IfSome result (λ found. truth found ≡ applied lists doc op (map (λ arg. value lists doc row.now (term_of arg)) args.now)) }
{
    match (op, args) {
        (Op::Equals, [Expr::Column(a), Expr::Column(b)]) => {
            Some(are_equal(column(row, *a)?, column(row, *b)?))
        }
        (Op::GreaterThan, [a, b]) => Some(integer(row, a)? > integer(row, b)?),
        _ => None,
    }
}

/// The value in a column, where it lies; none where the row has no such column.
#[inline(always)]
pub(crate) fn column<'r, 'd>(row: &'r Row<'d>, column: u32) -> Option<&'r Value<'d>>
    ensures { MatchOption result (value_in row.now column ≡ null) (λ found. datum_of found.now ≡ value_in row.now column) }
{
    row.values().get(column as usize)
}

/// The integer that a column, an integer or a number of a column's span is worth; none of anything else.
#[inline(always)]
fn integer(row: &Row<'_>, expr: &Expr) -> Option<i64>
    ensures { (lists : Lists) (doc : Doc) → IfSome result (λ n. value lists doc row.now (term_of expr.now) ≡ int n) }
{
    match expr {
        Expr::Column(n) => column(row, *n)?.as_int(),
        Expr::Int(n) => Some(*n),
        Expr::Str(_) => None,
        Expr::Call { op, args } => number(row, *op, args.as_slice()),
    }
}

/// The integer that a function of a column's span gives; none of anything else.
#[inline(always)]
fn number(row: &Row<'_>, op: Op, args: &[Expr]) -> Option<i64>
    ensures { (lists : Lists) (doc : Doc) → IfSome result (λ n. applied lists doc op (map (λ arg. value lists doc row.now (term_of arg)) args.now) ≡ int n) }
{
    match args {
        [Expr::Column(n)] => {
            let number = number_of(op, *column(row, *n)?)?;
            Some(number)
        }
        _ => None,
    }
}

/// The integer that a function of one span gives; none of another operator, and of what is no span.
#[inline(always)]
fn number_of(op: Op, value: Value<'_>) -> Option<i64>
    ensures { (lists : Lists) (doc : Doc) → IfSome result (λ n. applied lists doc op (datum_of value.entry ∷ []) ≡ int n) }
{
    match op {
        Op::GetBegin => begin_of(value).as_int(),
        Op::GetEnd => end_of(value).as_int(),
        Op::GetLength => length_of(value).as_int(),
        _ => None,
    }
}
