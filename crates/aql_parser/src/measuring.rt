//! The number of a program's statements, and how deep their parentheses nest.

ghost use Rattle.std.specs.Prelude.{◌≡◌, ◌<◌, ◌^◌, ◌≤◌, length, take};
ghost use Rattle.aql_lexer.specs.Kinds.{kinds_of};
ghost use Rattle.aql_syntax.specs.Programs.{runs_of};
ghost use Rattle.aql_parser.specs.Nesting.{IsNesting, nesting_limit};
ghost use Rattle.aql_parser.specs.Runs.{IsFirstRun, IsLeastDepth};

use crate::cursor::is_symbol;
use aql_lexer::Tok;

/// How deep the parentheses of a statement may nest.
pub const MAX_NESTING: u32 = 64;

/// The number of statements of a program, and how deep their parentheses nest.
#[derive(Clone, Copy, Debug, PartialEq, Eq)]
pub struct Sizes {
    pub statements: u32,
    pub nesting: u32,
}

/// How many statements the tokens are, and the greatest number of `(` without their `)` before one
/// place within a statement.
///
/// A statement is the tokens up to and with a `;`; the tokens after the last `;`, if any, are one more.
/// Takes no memory. `parse` takes programs that nest no deeper than `MAX_NESTING`, 64.
///
/// Meaning: `runs_of`, `aql_syntax`'s `specs/Programs.antt`; `IsNesting`, `specs/Nesting.antt`.
pub fn measure(toks: &[Tok]) -> Sizes
    requires few { length toks.now < 2 ^ 32 }
    ensures statements { result.statements ≡ length (runs_of (kinds_of toks.now)) }
    ensures nesting { IsNesting (kinds_of toks.now) result.nesting }
    ensures limit { MAX_NESTING ≡ nesting_limit }
{
    let mut statements = 0;
    let mut nesting = 0u32;
    let mut rest = toks;
    while !rest.is_empty() {
        let run = first_run(rest);
        statements += 1;
        nesting = nesting.max(run.nesting);
        rest = &rest[run.len..];
    }
    Sizes {
        statements,
        nesting,
    }
}

/// The first statement's tokens: how many they are, and how deep their parentheses nest.
#[derive(Clone, Copy, Debug, PartialEq, Eq)]
pub struct Run {
    pub len: usize,
    pub nesting: u32,
}

/// The first statement's tokens: those up to and with the first `;`, or all.
///
/// Takes no memory. `parse_statement` takes a statement that nests no deeper than `MAX_NESTING`, 64.
///
/// Meaning: `IsFirstRun` and `IsLeastDepth`, `specs/Runs.antt`.
pub fn first_run(toks: &[Tok]) -> Run
    requires some { 0 < length toks.now }
    requires few { length toks.now < 2 ^ 32 }
    ensures run { IsFirstRun (kinds_of toks.now) result.len }
    ensures nesting { IsLeastDepth (take result.len (kinds_of toks.now)) result.nesting }
{
    let mut opened = 0;
    let mut closed = 0;
    let mut nesting = 0u32;
    for (i, tok) in toks.iter().enumerate() {
        if is_symbol(&tok.kind, b';') {
            return Run {
                len: i + 1,
                nesting,
            };
        }
        opened += u32::from(is_symbol(&tok.kind, b'('));
        closed += u32::from(is_symbol(&tok.kind, b')'));
        nesting = nesting.max(opened.saturating_sub(closed));
    }
    Run {
        len: toks.len(),
        nesting,
    }
}
