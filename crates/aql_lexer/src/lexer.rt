ghost use Rattle.std.specs.Prelude.{◌≡◌, ◌≤◌, ◌<◌, ◌+◌, ◌^◌, length, map, count_by, vec_len, option_map, ◌++◌, IfOk, IfErr, OnOk};
ghost use Rattle.aql_lexer.specs.Kinds.{kind_of, token_of};
ghost use Rattle.aql_lexer.specs.Reading.{IsReading, IsDecided, tokens_at};
ghost use Rattle.aql_lexer.specs.Tokens.{is_line_feed};
ghost use Rattle.aql_lexer.specs.Fault.{IsFaultOf};

use crate::scan::part_at;
use crate::text::token_kind;
use crate::token::{LexFault, Tok, TokKind};
use span_token::{Failure, OutOfMemory};
use std::alloc::Global;

/// The tokens of a program text, in their order, or the byte at which it has none.
///
/// Space, tab, CR, LF, form feed and a U+FEFF before everything else are white space. A comment goes
/// from `--` to before the next LF or the end of the text, or from `/*` to the next `*/` behind it.
/// Words and numbers are as long as they can be, and a number is within i64. A string or a pattern ends
/// at the first quote or slash that is in no pair with a backslash; `\'` and `\\` in a string and `\/`
/// in a pattern stand for their second character, any other pair for both. A pattern and a name in
/// quotes stay on one line, and a name isn't empty. `begin` counts bytes from 0, `line` lines from 1.
///
/// `LexFault` comes exactly where all before its byte is read and neither white space nor a comment
/// nor a token stands at it: at a quote or `/*` that nothing ends, a `-` that is no sign and begins no
/// comment, a number out of range, or another character.
///
/// Meaning: `IsReading` and `IsFault`, `specs/Reading.antt`; the forms, `specs/Tokens.antt`.
pub fn lex(alloc: Global, text: &str) -> Result<Vec<Tok>, Failure<LexFault>>
    requires { length text.now < 2 ^ 32 }
    ensures tokens { IfOk result (λ toks. IsReading text.now (map token_of toks.items)) }
    ensures few { IfOk result (λ toks. vec_len toks ≤ length text.now) }
    ensures fault { IfErr result (IsFaultOf text.now) }
    ensures decided { IsDecided text.now }
{
    let mut toks = Vec::new(alloc);
    let mut rest = text;
    let mut line = 1;
    while !rest.is_empty() {
        let at = text.len() - rest.len();
        let Some((form, len)) = part_at(rest, at == 0) else {
            return Err(Failure::Fault(LexFault { place: at as u32 }));
        };
        let part = &rest[..len];
        let kind = token_kind(alloc, form, part)?;
        add(&mut toks, kind, at as u32, line as u32)?;
        line += line_feeds(part);
        rest = &rest[len..];
    }
    Ok(toks)
}

/// Puts a token of `kind`, if there is one, after the others.
fn add(toks: &mut Vec<Tok>, kind: Option<TokKind>, begin: u32, line: u32) -> Result<(), OutOfMemory>
    ensures { OnOk result (map token_of toks.new.items
        ≡ map token_of toks.old.items ++ tokens_at begin line (option_map kind_of kind)) }
{
    if let Some(kind) = kind {
        toks.push(Tok { kind, begin, line })?;
    }
    Ok(())
}

fn line_feeds(part: &str) -> usize
    ensures { result ≡ count_by is_line_feed part.now }
{
    part.as_bytes().iter().filter(|b| **b == b'\n').count()
}
