ghost use Rattle.std.specs.Prelude.{◌≡◌, map, All, IfOk, OnOk};
ghost use Rattle.std.specs.List.{list_all, list_any};
ghost use Rattle.row_values.specs.Datums.{IsOfDocument, datum_of};
ghost use Rattle.row_values.specs.Rows.{value_in};
ghost use Rattle.scalar_ops.specs.Operators.{IsOfFew, holds_of_all, is_true};
ghost use Rattle.scalar_ops.specs.Values.{applied, value, holding};
ghost use Rattle.scalar_ops.specs.Views.{term_of};

use crate::apply::{applied_to_one, applied_to_two, without_operands};
use crate::comparisons::{column, compared};
use crate::predicates::is_true;
use crate::{Expr, Op, Tools};
use row_values::{Row, Value};
use span_token::{Document, OutOfMemory};

/// What an expression is worth for a row and its document.
///
/// Text is borrowed from the document or from the expression. A function of Null, and of what it takes
/// no value of, is Null; a predicate of these is false. `And` and `Or` look at their arguments from the
/// left and stop at the first that decides.
///
/// Meaning: `value`, `specs/Values.antt`; docs/LANGUAGE.md, "Functions and predicates".
pub fn eval<'d>(
    tools: &mut Tools<'_>,
    doc: &Document<'d>,
    row: &Row<'d>,
    expr: &'d Expr,
) -> Result<Value<'d>, OutOfMemory>
    requires in_document { All (IsOfDocument doc.now) row.now }
    ensures value { IfOk result (λ found. datum_of found ≡ value tools.old doc.now row.now (term_of expr.now)) }
    ensures lies { IfOk result (λ found. IsOfDocument doc.now (datum_of found)) }
    ensures same { tools.new ≡ tools.old }
{
    let mut found = Value::Null;
    evaluate(tools, doc, row, expr, &mut found)?;
    Ok(found)
}

/// Whether every condition is true for a row and its document; none is looked at behind one that isn't.
///
/// Meaning: `holding`, `specs/Values.antt`.
pub fn holds<'d>(
    tools: &mut Tools<'_>,
    doc: &Document<'d>,
    row: &Row<'d>,
    conds: &'d [Expr],
) -> Result<bool, OutOfMemory>
    requires in_document { All (IsOfDocument doc.now) row.now }
    ensures found { IfOk result (λ found. found ≡ holding tools.old doc.now (map term_of conds.now) row.now) }
    ensures same { tools.new ≡ tools.old }
{
    let found = all_hold(tools, doc, row, conds)?;
    Ok(found)
}

/// Puts into `into` what an expression is worth.
///
/// A value is written where it stays, and a column or a literal is read without a call.
#[cycle(eval)]
#[inline(always)]
#[tactic(auto, using(crate::proofs::Viewing::found_of_call))]
fn evaluate<'d>(
    tools: &mut Tools<'_>,
    doc: &Document<'d>,
    row: &Row<'d>,
    expr: &'d Expr,
    into: &mut Value<'d>,
) -> Result<(), OutOfMemory>
    requires in_document { All (IsOfDocument doc.now) row.now }
    ensures value { OnOk result (datum_of into.new ≡ value tools.old doc.now row.now (term_of expr.now)) }
    ensures lies { OnOk result (IsOfDocument doc.now (datum_of into.new)) }
    ensures same { tools.new ≡ tools.old }
{
    match expr {
        Expr::Column(n) => {
            *into = in_column(row, *n);
            Ok(())
        }
        Expr::Int(n) => {
            *into = Value::Int(*n);
            Ok(())
        }
        Expr::Str(text) => {
            *into = Value::Text(text.as_str());
            Ok(())
        }
        Expr::Call { op, args } => {
            call(tools, doc, row, *op, args.as_slice(), into)?;
            Ok(())
        }
    }
}

/// Puts into `into` what an operator gives for a row, with these arguments.
#[cycle(eval)]
fn call<'d>(
    tools: &mut Tools<'_>,
    doc: &Document<'d>,
    row: &Row<'d>,
    op: Op,
    args: &'d [Expr],
    into: &mut Value<'d>,
) -> Result<(), OutOfMemory>
    requires in_document { All (IsOfDocument doc.now) row.now }
    ensures value { OnOk result (datum_of into.new ≡ applied tools.old doc.now op (map (λ arg. value tools.old doc.now row.now (term_of arg)) args.now)) }
    ensures lies { OnOk result (IsOfDocument doc.now (datum_of into.new)) }
    ensures same { tools.new ≡ tools.old }
{
    match op {
        Op::And => {
            *into = Value::Bool(all_of_some(tools, doc, row, args)?);
            Ok(())
        }
        Op::Or => {
            *into = Value::Bool(some_holds(tools, doc, row, args)?);
            Ok(())
        }
        _ => match compared(row, op, args) {
            Some(found) => {
                *into = Value::Bool(found);
                Ok(())
            }
            None => {
                of_values(tools, doc, row, op, args, into)?;
                Ok(())
            }
        },
    }
}

/// Puts into `into` what an operator other than `And` and `Or` gives for the values of these arguments.
#[cycle(eval)]
#[inline(always)]
fn of_values<'d>(
    tools: &mut Tools<'_>,
    doc: &Document<'d>,
    row: &Row<'d>,
    op: Op,
    args: &'d [Expr],
    into: &mut Value<'d>,
) -> Result<(), OutOfMemory>
    requires few { IsOfFew op }
    requires in_document { All (IsOfDocument doc.now) row.now }
    ensures value { OnOk result (datum_of into.new ≡ applied tools.old doc.now op (map (λ arg. value tools.old doc.now row.now (term_of arg)) args.now)) }
    ensures lies { OnOk result (IsOfDocument doc.now (datum_of into.new)) }
    ensures same { tools.new ≡ tools.old }
{
    match args {
        [a] => {
            evaluate(tools, doc, row, a, into)?;
            *into = applied_to_one(tools, doc, op, into)?;
            Ok(())
        }
        [a, b] => {
            evaluate(tools, doc, row, a, into)?;
            let mut second = Value::Null;
            evaluate(tools, doc, row, b, &mut second)?;
            *into = applied_to_two(tools, doc, op, into, &second);
            Ok(())
        }
        _ => {
            *into = without_operands(op);
            Ok(())
        }
    }
}

/// The value in a column, Null where the row has no such column.
#[inline(always)]
fn in_column<'d>(row: &Row<'d>, number: u32) -> Value<'d>
    ensures { datum_of result ≡ value_in row.now number }
{
    match column(row, number) {
        Some(value) => *value,
        None => Value::Null,
    }
}

/// Whether there are expressions, and all are true.
#[cycle(eval)]
fn all_of_some<'d>(
    tools: &mut Tools<'_>,
    doc: &Document<'d>,
    row: &Row<'d>,
    exprs: &'d [Expr],
) -> Result<bool, OutOfMemory>
    requires in_document { All (IsOfDocument doc.now) row.now }
    ensures value { IfOk result (λ found. found ≡ holds_of_all (map (λ expr. value tools.old doc.now row.now (term_of expr)) exprs.now)) }
    ensures same { tools.new ≡ tools.old }
{
    if exprs.is_empty() {
        return Ok(false);
    }
    let found = all_hold(tools, doc, row, exprs)?;
    Ok(found)
}

/// Whether all of some expressions are true; none is looked at behind one that isn't.
#[cycle(eval)]
fn all_hold<'d>(
    tools: &mut Tools<'_>,
    doc: &Document<'d>,
    row: &Row<'d>,
    exprs: &'d [Expr],
) -> Result<bool, OutOfMemory>
    requires in_document { All (IsOfDocument doc.now) row.now }
    ensures value { IfOk result (λ found. found ≡ list_all is_true (map (λ expr. value tools.old doc.now row.now (term_of expr)) exprs.now)) }
    ensures same { tools.new ≡ tools.old }
{
    for expr in exprs {
        let mut found = Value::Null;
        evaluate(tools, doc, row, expr, &mut found)?;
        if !is_true(found) {
            return Ok(false);
        }
    }
    Ok(true)
}

/// Whether one of some expressions is true; none is looked at behind it.
#[cycle(eval)]
fn some_holds<'d>(
    tools: &mut Tools<'_>,
    doc: &Document<'d>,
    row: &Row<'d>,
    exprs: &'d [Expr],
) -> Result<bool, OutOfMemory>
    requires in_document { All (IsOfDocument doc.now) row.now }
    ensures value { IfOk result (λ found. found ≡ list_any is_true (map (λ expr. value tools.old doc.now row.now (term_of expr)) exprs.now)) }
    ensures same { tools.new ≡ tools.old }
{
    for expr in exprs {
        let mut found = Value::Null;
        evaluate(tools, doc, row, expr, &mut found)?;
        if is_true(found) {
            return Ok(true);
        }
    }
    Ok(false)
}
