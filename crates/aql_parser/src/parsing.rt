//! Whole programs.

ghost use Rattle.std.specs.Prelude.{◌≡◌, ◌<◌, ◌^◌, ◌+◌, ◌↔◌, ℕ, List, [], All, length, map, true, IsTrue, IfOk, IfErr, MatchResult};
ghost use Rattle.aql_lexer.specs.Kinds.{kinds_of, token_of};
ghost use Rattle.aql_lexer.specs.Reading.{IsReading};
ghost use Rattle.aql_syntax.specs.Trees.{Statement as Tree};
ghost use Rattle.aql_syntax.specs.Views.{statement_of};
ghost use Rattle.aql_syntax.specs.Printing.{CanBePrinted};
ghost use Rattle.aql_syntax.specs.PlacedTokens.{IsSpelled};
ghost use Rattle.aql_syntax.specs.Programs.{AreTokensOf, placed_in};
ghost use Rattle.aql_syntax.specs.Shapes.{IsFormed};
ghost use Rattle.aql_parser.specs.Nesting.{NestsWithin, IsWithin, nesting_limit};
ghost use Rattle.aql_parser.specs.Faults.{IsFaultOf, IsDecided};
ghost use Rattle.aql_parser.specs.Runs.{IsTreeOf};
ghost use Rattle.aql_parser.specs.Keeping.{IsKept, IsNamed, is_module, may_follow};

use crate::cursor::{Cursor, NoTree, Refused};
use crate::measuring::{MAX_NESTING, first_run};
use crate::statements::statement;
use aql_lexer::Tok;
use aql_syntax::Statement;
use span_token::Failure;
use std::alloc::Global;

/// The first statement that has no tree: its number, from 1, and the line of its first token, from 1.
#[derive(Clone, Copy, Debug, PartialEq, Eq)]
pub struct SyntaxFault {
    pub statement: u32,
    pub line: u32,
}

/// The statements whose tokens these are, or the first statement that has no tree.
///
/// A statement is the tokens up to and with a `;`; tokens after the last `;` are one more, which has
/// no tree. `module` is the first statement or none. Each `at` is the number, from 0, of its node's
/// first token, so the token with the number of a name, a value or a call is the one that spells it. No
/// statement may nest deeper than `MAX_NESTING`, 64, as `measure` counts.
///
/// `SyntaxFault` comes exactly where some statement has no tree, and names the first one. The only
/// other refusal is want of memory.
///
/// The trees have the shape that the grammar asks for, and `print` takes each of them where the tokens
/// are those that `lex` gives of a text.
///
/// Meaning: `AreTokensOf` and `placed_in`, `aql_syntax`'s `specs/Programs.antt`; `IsSpelled`, its
/// `specs/PlacedTokens.antt`; `IsFaultOf` and `IsDecided`, `specs/Faults.antt`; the grammar, `aql_syntax`'s
/// `specs/Grammar`; `IsFormed`, its `specs/Shapes.antt`.
pub fn parse(alloc: Global, toks: &[Tok]) -> Result<Vec<Statement>, Failure<SyntaxFault>>
    requires few { length toks.now < 2 ^ 32 }
    requires nested { NestsWithin nesting_limit (kinds_of toks.now) }
    ensures trees { IfOk result (λ trees. AreTokensOf (kinds_of toks.now) (map statement_of trees.items)) }
    ensures placed { IfOk result (λ trees. placed_in (kinds_of toks.now) (map statement_of trees.items)
        ≡ map statement_of trees.items) }
    ensures spelled { IfOk result (λ trees. All (IsSpelled (kinds_of toks.now)) (map statement_of trees.items)) }
    ensures only { (others : List Tree) → AreTokensOf (kinds_of toks.now) others → MatchResult result
        (λ trees. map statement_of trees.items ≡ placed_in (kinds_of toks.now) others)
        (λ failure. failure ≡ Failure.OutOfMemory) }
    ensures fault { IfErr result (IsFaultOf (map token_of toks.now)) }
    ensures decided { IsDecided (map token_of toks.now) }
    ensures formed { IfOk result (λ trees. All IsFormed (map statement_of trees.items)) }
    ensures printable { (text : List ℕ) → IsReading text (map token_of toks.now) → IfOk result (λ trees. All (λ tree. CanBePrinted (statement_of tree)) trees.items) }
{
    let mut trees = Vec::new(alloc);
    let mut rest = toks;
    while let [first, ..] = rest {
        let at = toks.len() - rest.len();
        let len = first_run(rest).len;
        let tree = match parse_statement(alloc, &rest[..len], at as u32, trees.len()) {
            Ok(tree) => tree,
            Err(refused) => return Err(named(refused, trees.len() as u32 + 1, first.line)),
        };
        trees.push(tree)?;
        rest = &rest[len..];
    }
    Ok(trees)
}

/// The statement whose tokens are all of `run`, where `before` statements stand before it.
///
/// `at` is the number, from 0, of the run's first token in its program, so that each `at` in the tree
/// is a token's number there. `first_run` tells how many tokens are a statement's; whoever has
/// statements of further kinds passes over their tokens by it and hands the others over one by one.
///
/// `NoTree` comes exactly where no statement has these tokens, or the one that has them is a `module`
/// behind others. The only other refusal is want of memory.
///
/// Meaning: `IsTreeOf`, `specs/Runs.antt`.
pub fn parse_statement(
    alloc: Global,
    run: &[Tok],
    at: u32,
    before: usize,
) -> Result<Statement, Failure<NoTree>>
    requires few { at + length run.now < 2 ^ 32 }
    requires nested { IsWithin nesting_limit (kinds_of run.now) }
    ensures { IsTreeOf at (kinds_of run.now) before result }
{
    let mut toks = Cursor::new(run, at);
    let tree = statement(alloc, MAX_NESTING, &mut toks)?;
    let stands = is_whole(&toks, &tree, before);
    kept(tree, stands)
}

/// Whether no token is left, and the statement may have so many before it.
fn is_whole(toks: &Cursor<'_>, tree: &Statement, before: usize) -> bool
    ensures { IsTrue result ↔ ((toks.now.kinds ≡ []) × (may_follow before (statement_of tree.now) ≡ true)) }
{
    toks.is_done() && may_follow(tree, before)
}

/// Whether the statement may have so many before it.
fn may_follow(tree: &Statement, before: usize) -> bool
    ensures { result ≡ may_follow before (statement_of tree.now) }
{
    before == 0 || !is_module(tree)
}

fn is_module(tree: &Statement) -> bool
    ensures { result ≡ is_module (statement_of tree.now) }
{
    matches!(tree, Statement::Module(_))
}

/// The statement, where it is one.
fn kept(tree: Statement, is_whole: bool) -> Result<Statement, Refused>
    ensures { IsKept tree is_whole result }
{
    is_whole.then_some(tree).ok_or(Failure::Fault(NoTree))
}

/// The refusal, with the statement and the line at which it stands.
fn named(refused: Refused, statement: u32, line: u32) -> Failure<SyntaxFault>
    ensures { IsNamed refused statement line result }
{
    match refused {
        Failure::OutOfMemory => Failure::OutOfMemory,
        Failure::Fault(NoTree) => Failure::Fault(SyntaxFault { statement, line }),
    }
}
