//! Programs of the tables, from their texts.

ghost use Rattle.std.specs.Prelude.{◌<◌, ◌^◌, All, IfOk, length, map};
ghost use Rattle.aql_lexer.specs.Kinds.{token_of};
ghost use Rattle.aql_lexer.specs.Reading.{IsReading};
ghost use Rattle.aql_syntax.specs.Printing.{CanBePrinted};
ghost use Rattle.aql_syntax.specs.Views.{statement_of};

use aql_lexer::{Tok, lex};
use aql_parser::{MAX_NESTING, measure, parse};
use aql_syntax::Statement;
use span_token::Failure;
use std::alloc::Global;
use std::process::Abort;
use std::test::Fail;

/// Asks for a text.
pub(crate) fn is_text(rt: &impl Abort, got: &str, want: &str, case: &str) {
    assert_eq!(rt; got, want, "{case}");
}

/// The tokens of a short text.
pub(crate) fn lexed(alloc: Global, text: &str) -> Result<Vec<Tok>, Fail>
    ensures reading { IfOk result (λ toks. IsReading text.now (map token_of toks.items)) }
    ensures few { IfOk result (λ toks. length toks.items < 2 ^ 32) }
{
    if text.len() > 10_000 {
        return Err(Fail::from("a text of the table is short"));
    }
    match lex(alloc, text) {
        Ok(toks) => Ok(toks),
        Err(_) => Err(Fail::from("a text of the table has tokens")),
    }
}

/// The statements as they look, or the statement and the line of the fault.
pub(crate) fn shown(alloc: Global, toks: &[Tok]) -> Result<String, Fail>
    requires { length toks.now < 2 ^ 32 }
{
    if measure(toks).nesting > MAX_NESTING {
        return Err(Fail::from("a program of the table nests within the limit"));
    }
    match parse(alloc, toks) {
        Ok(trees) => Ok(format!(in alloc; "{:?}", trees.as_slice())?),
        Err(Failure::Fault(fault)) => {
            Ok(format!(in alloc; "fault {}:{}", fault.statement, fault.line)?)
        }
        Err(Failure::OutOfMemory) => Err(Fail::from("out of memory")),
    }
}

/// The statements of a text, each of which can be printed.
pub(crate) fn parsed(alloc: Global, text: &str) -> Result<Vec<Statement>, Fail>
    ensures { IfOk result (λ trees. All (λ tree. CanBePrinted (statement_of tree)) trees.items) }
{
    let toks = lexed(alloc, text)?;
    if measure(&toks).nesting > MAX_NESTING {
        return Err(Fail::from("a program of the table nests within the limit"));
    }
    match parse(alloc, &toks) {
        Ok(trees) => Ok(trees),
        Err(_) => Err(Fail::from("a program of the table is read")),
    }
}
