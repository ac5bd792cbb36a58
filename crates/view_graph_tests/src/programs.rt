//! Programs of the tables, from their texts.

ghost use Rattle.std.specs.Prelude.{◌<◌, ◌^◌, All, IfOk, length, map};
ghost use Rattle.aql_syntax.specs.Shapes.{IsFormed};
ghost use Rattle.aql_syntax.specs.Views.{statement_of};

use aql_lexer::{Tok, lex};
use aql_parser::{MAX_NESTING, measure, parse};
use aql_syntax::Statement;
use span_token::Failure;
use std::alloc::Global;
use std::test::Fail;
use view_graph::{Graph, NameFault, NamedView, resolve};

/// The tokens of a text below a megabyte.
fn lexed(alloc: Global, text: &str) -> Result<Vec<Tok>, Fail>
    ensures { IfOk result (λ toks. length toks.items < 2 ^ 32) }
{
    if text.len() > 1_000_000 {
        return Err(Fail::from("a program of the table is short"));
    }
    match lex(alloc, text) {
        Ok(toks) => Ok(toks),
        Err(_) => Err(Fail::from("a program of the table has tokens")),
    }
}

/// The statements of a text.
fn parsed(alloc: Global, text: &str) -> Result<Vec<Statement>, Fail>
    ensures { IfOk result (λ trees. All IsFormed (map statement_of trees.items)) }
{
    let toks = lexed(alloc, text)?;
    if measure(&toks).nesting > MAX_NESTING {
        return Err(Fail::from("a program of the table nests within the limit"));
    }
    match parse(alloc, &toks) {
        Ok(trees) => Ok(trees),
        Err(_) => Err(Fail::from("a program of the table is read")),
    }
}

/// The graph of a program, or its fault.
pub(crate) fn resolved(alloc: Global, text: &str) -> Result<Result<Graph, NameFault>, Fail> {
    match resolve(alloc, parsed(alloc, text)?) {
        Ok(graph) => Ok(Ok(graph)),
        Err(Failure::Fault(fault)) => Ok(Err(fault)),
        Err(Failure::OutOfMemory) => Err(Fail::from("out of memory")),
    }
}

/// The numbers of the views, in their order.
pub(crate) fn order_shown(alloc: Global, graph: &Graph) -> Result<String, Fail> {
    let mut all = String::from_str(alloc, "order")?;
    for number in graph.order() {
        let number = format!(in alloc; " {number}")?;
        all.push_str(number.as_str())?;
    }
    Ok(all)
}

/// The fault with its statement and its name, or the views of the cycle.
pub(crate) fn fault_shown(alloc: Global, fault: &NameFault) -> Result<String, Fail> {
    Ok(match fault {
        NameFault::DuplicateName { statement, name } => {
            format!(in alloc; "{statement}: {} again", name.as_str())?
        }
        NameFault::UnknownView { statement, name } => {
            format!(in alloc; "{statement}: no view {}", name.as_str())?
        }
        NameFault::UnknownDictionary { statement, name } => {
            format!(in alloc; "{statement}: no dictionary {}", name.as_str())?
        }
        NameFault::DuplicateOutput { statement, name } => {
            format!(in alloc; "{statement}: output {} again", name.as_str())?
        }
        NameFault::Cycle { views } => {
            let mut all = String::from_str(alloc, "cycle")?;
            for view in views.as_slice() {
                all.push_str(" ")?;
                all.push_str(view.as_str())?;
            }
            all
        }
    })
}

/// What a view's name stands for.
pub(crate) fn view_shown(alloc: Global, found: Option<NamedView>) -> Result<String, Fail> {
    Ok(match found {
        None => String::from_str(alloc, "nothing")?,
        Some(NamedView::Document) => String::from_str(alloc, "the document")?,
        Some(NamedView::View { number, index }) => {
            format!(in alloc; "statement {number}, at {index}")?
        }
    })
}

/// What a dictionary's name stands for.
pub(crate) fn dictionary_shown(alloc: Global, found: Option<u32>) -> Result<String, Fail> {
    Ok(match found {
        None => String::from_str(alloc, "nothing")?,
        Some(number) => format!(in alloc; "statement {number}")?,
    })
}
