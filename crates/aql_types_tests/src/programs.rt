//! Programs of the tables, from their texts.

ghost use Rattle.std.specs.Prelude.{◌<◌, ◌^◌, All, IfOk, length, map};
ghost use Rattle.aql_syntax.specs.Shapes.{IsFormed};
ghost use Rattle.aql_syntax.specs.Views.{statement_of};

use aql_lexer::{Tok, lex};
use aql_parser::{MAX_NESTING, measure, parse};
use aql_syntax::Statement;
use aql_typed::Typed;
use aql_types::{TypeFault, TypeRule, check};
use span_token::{Failure, OutOfMemory};
use std::alloc::Global;
use std::test::Fail;
use view_graph::{Graph, resolve};

/// The tokens of a text below a megabyte.
fn lexed(alloc: Global, text: &str) -> Result<Vec<Tok>, Fail>
    ensures { IfOk result (λ toks. length toks.items < 2 ^ 32) }
{
    if text.len() > 1_000_000 {
        return Err(Fail::from("a program of the table is short"));
    }
    match lex(alloc, text) {
        Ok(toks) => Ok(toks),
        Err(_) => Err(Fail::from("a program of the table has tokens")),
    }
}

/// The statements of these tokens.
fn parsed(alloc: Global, toks: &[Tok]) -> Result<Vec<Statement>, Fail>
    requires few { length toks.now < 2 ^ 32 }
    ensures { IfOk result (λ trees. All IsFormed (map statement_of trees.items)) }
{
    if measure(toks).nesting > MAX_NESTING {
        return Err(Fail::from("a program of the table nests within the limit"));
    }
    match parse(alloc, toks) {
        Ok(trees) => Ok(trees),
        Err(_) => Err(Fail::from("a program of the table is read")),
    }
}

fn resolved(alloc: Global, toks: &[Tok]) -> Result<Graph, Fail>
    requires few { length toks.now < 2 ^ 32 }
{
    match resolve(alloc, parsed(alloc, toks)?) {
        Ok(graph) => Ok(graph),
        Err(_) => Err(Fail::from("the names of a program of the table are known")),
    }
}

/// The typed program of a text.
pub(crate) fn typed(alloc: Global, text: &str) -> Result<Typed, Fail> {
    let toks = lexed(alloc, text)?;
    let graph = resolved(alloc, &toks)?;
    match check(alloc, &graph) {
        Ok(typed) => Ok(typed),
        Err(_) => Err(Fail::from("a program of the table has no fault")),
    }
}

/// The fault of a text, as it is told: the statement, the byte and the rule.
pub(crate) fn fault(alloc: Global, text: &str) -> Result<String, Fail> {
    let toks = lexed(alloc, text)?;
    let graph = resolved(alloc, &toks)?;
    match check(alloc, &graph) {
        Ok(_) => Ok(String::from_str(alloc, "no fault")?),
        Err(Failure::Fault(fault)) => Ok(shown(alloc, &toks, &fault)?),
        Err(Failure::OutOfMemory) => Err(Fail::from("out of memory")),
    }
}

fn shown(alloc: Global, toks: &[Tok], fault: &TypeFault) -> Result<String, OutOfMemory> {
    let begin = match toks.get(fault.at as usize) {
        Some(tok) => tok.begin as usize,
        None => usize::MAX,
    };
    let rule = rule_shown(alloc, &fault.rule)?;
    told(alloc, fault.statement as usize, begin, rule.as_str())
}

/// A statement, a byte and a rule as one text.
pub(crate) fn told(
    alloc: Global,
    statement: usize,
    byte: usize,
    rule: &str,
) -> Result<String, OutOfMemory> {
    let first = format!(in alloc; "{statement}, {byte}")?;
    Ok(format!(in alloc; "{first}: {rule}")?)
}

fn rule_shown(alloc: Global, rule: &TypeRule) -> Result<String, OutOfMemory> {
    Ok(match rule {
        TypeRule::UnknownAlias(name) => format!(in alloc; "no alias {}", name.as_str())?,
        TypeRule::UnknownColumn(name) => format!(in alloc; "no column {}", name.as_str())?,
        TypeRule::DuplicateAlias(name) => format!(in alloc; "alias {} again", name.as_str())?,
        TypeRule::DuplicateColumn(name) => format!(in alloc; "column {} again", name.as_str())?,
        TypeRule::UnknownFunction(name) => format!(in alloc; "no function {}", name.as_str())?,
        TypeRule::WrongArgument { wanted, found } => {
            format!(in alloc; "wanted {wanted:?}, found {found:?}")?
        }
        TypeRule::SchemaMismatch => String::from_str(alloc, "schemas differ")?,
        TypeRule::NotGrouped => String::from_str(alloc, "not grouped")?,
        TypeRule::BadRange { low, high } => {
            let first = format!(in alloc; "range {low}")?;
            format!(in alloc; "{first} to {high}")?
        }
        TypeRule::UnknownPolicy(name) => format!(in alloc; "no policy {}", name.as_str())?,
        TypeRule::BadPattern => String::from_str(alloc, "bad pattern")?,
        TypeRule::PatternLarge { bytes, weight } => {
            let first = format!(in alloc; "pattern too large: {bytes} bytes")?;
            format!(in alloc; "{first}, weight {weight}")?
        }
        TypeRule::BadGroup(number) => format!(in alloc; "no group {number}")?,
    })
}
