//! Typed programs from their texts.
ghost use Rattle.std.specs.Prelude.{All, IfOk, map};
ghost use Rattle.aql_syntax.specs.Shapes.{IsFormed};
ghost use Rattle.aql_syntax.specs.Views.{statement_of};

use anyhow::{Result, bail};
use aql_lexer::lex;
use aql_parser::{MAX_NESTING, measure, parse};
use aql_syntax::Statement;
use aql_typed::Typed;
use aql_types::check;
use std::alloc::Global;
use view_graph::resolve;

/// The most bytes of a program; those that `aqlx` takes have fewer.
const MOST_BYTES: usize = 1 << 30;

/// The typed program of a text. A program with a fault is refused with the part that has it; which fault it
/// is, `aqlx check` says.
pub(crate) fn typed_program(alloc: Global, text: &str) -> Result<Typed> {
    let statements = statements_of(alloc, text)?;
    let Ok(graph) = resolve(alloc, statements) else {
        bail!("the program has a fault in its names");
    };
    let Ok(typed) = check(alloc, &graph) else {
        bail!("the program has a fault in its types");
    };
    Ok(typed)
}

fn statements_of(alloc: Global, text: &str) -> Result<Vec<Statement>>
    ensures formed { IfOk result (λ statements. All IsFormed (map statement_of statements.items)) }
{
    if text.len() > MOST_BYTES {
        bail!("the program is too long");
    }
    let Ok(toks) = lex(alloc, text) else {
        bail!("the program has a fault in its tokens");
    };
    if measure(&toks).nesting > MAX_NESTING {
        bail!("the program nests too deep");
    }
    let Ok(statements) = parse(alloc, &toks) else {
        bail!("the program has a fault in its syntax");
    };
    Ok(statements)
}
