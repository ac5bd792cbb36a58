//! Programs from their texts.

ghost use Rattle.std.specs.Prelude.{◌<◌, ◌^◌, All, IfOk, length, map};
ghost use Rattle.aql_syntax.specs.Shapes.{IsFormed};
ghost use Rattle.aql_syntax.specs.Views.{statement_of};

use aql_lexer::{Tok, lex};
use aql_parser::{MAX_NESTING, measure, parse};
use aql_syntax::Statement;
use aql_typed::Typed;
use aql_types::check;
use std::alloc::Global;
use std::test::Fail;
use view_graph::{Graph, resolve};

/// The tokens of a text below a megabyte.
fn lexed(alloc: Global, text: &str) -> Result<Vec<Tok>, Fail>
    ensures { IfOk result (λ toks. length toks.items < 2 ^ 32) }
{
    if text.len() > 1_000_000 {
        return Err(Fail::from("the program is short"));
    }
    match lex(alloc, text) {
        Ok(toks) => Ok(toks),
        Err(_) => Err(Fail::from("the program has tokens")),
    }
}

/// The statements of these tokens.
fn parsed(alloc: Global, toks: &[Tok]) -> Result<Vec<Statement>, Fail>
    requires few { length toks.now < 2 ^ 32 }
    ensures { IfOk result (λ trees. All IsFormed (map statement_of trees.items)) }
{
    if measure(toks).nesting > MAX_NESTING {
        return Err(Fail::from("the program nests within the limit"));
    }
    match parse(alloc, toks) {
        Ok(trees) => Ok(trees),
        Err(_) => Err(Fail::from("the program is read")),
    }
}

fn resolved(alloc: Global, toks: &[Tok]) -> Result<Graph, Fail>
    requires few { length toks.now < 2 ^ 32 }
{
    match resolve(alloc, parsed(alloc, toks)?) {
        Ok(graph) => Ok(graph),
        Err(_) => Err(Fail::from("the names of the program are known")),
    }
}

/// The typed program of a text.
pub(crate) fn typed(alloc: Global, text: &str) -> Result<Typed, Fail> {
    let toks = lexed(alloc, text)?;
    let graph = resolved(alloc, &toks)?;
    match check(alloc, &graph) {
        Ok(typed) => Ok(typed),
        Err(_) => Err(Fail::from("the program has no fault")),
    }
}
