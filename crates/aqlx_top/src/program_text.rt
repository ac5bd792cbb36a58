ghost use Rattle.std.specs.Prelude.{◌≡◌, ◌≤◌, ◌<◌, ◌^◌, IfErr, IfOk, OnOk, length, map, vec_len};
ghost use Rattle.std.specs.Str.{IsUtf8};
ghost use Rattle.aql_lexer.specs.Kinds.{kinds_of, token_of};
ghost use Rattle.aql_lexer.specs.Reading.{IsDecided};
ghost use Rattle.aqlx_top.specs.Limits.{program_limit};
ghost use Rattle.aqlx_top.specs.ProgramFaults.{HasCause, IsTooLargeFor};
ghost use Rattle.aqlx_top.specs.ProgramTexts.{IsWithinLimits, ReadsAs};

use crate::limits::{PROGRAM_LIMIT, STATEMENT_LIMIT};
use crate::{ProgramFault, What};
use aql_lexer::{Tok, lex};
use aql_parser::{MAX_NESTING, measure};
use span_token::Failure;
use std::alloc::Global;

/// Refuses more bytes than a program may have.
pub(crate) fn check_length(bytes: &[u8]) -> Result<(), Failure<ProgramFault>>
    ensures small { OnOk result (length bytes.now ≤ program_limit) }
    ensures fault { IfErr result (HasCause bytes.now) }
{
    if bytes.len() > PROGRAM_LIMIT {
        return Err(Failure::Fault(ProgramFault::Large {
            what: What::Bytes,
            number: PROGRAM_LIMIT as u64 + 1,
        }));
    }
    Ok(())
}

/// The text that the bytes of a program file are, where they aren't too many.
pub(crate) fn text_of(bytes: &[u8]) -> Result<&str, Failure<ProgramFault>>
    ensures text { IfOk result (λ text. (text.now ≡ bytes.now) × IsUtf8 bytes.now) }
    ensures fault { IfErr result (HasCause bytes.now) }
{
    check_length(bytes)?;
    match std::str::from_utf8(bytes) {
        Ok(text) => Ok(text),
        Err(error) => Err(Failure::Fault(ProgramFault::Text {
            place: error.valid_up_to() as u32,
        })),
    }
}

/// The tokens of a program text.
pub(crate) fn tokens_of(alloc: Global, text: &str) -> Result<Vec<Tok>, Failure<ProgramFault>>
    requires small { length text.now ≤ program_limit }
    requires utf8 { IsUtf8 text.now }
    ensures tokens { IfOk result (λ toks. ReadsAs text.now (map token_of toks.items)) }
    ensures few { IfOk result (λ toks. vec_len toks ≤ program_limit) }
    ensures fault { IfErr result (HasCause text.now) }
    ensures decided { IsDecided text.now }
{
    match lex(alloc, text) {
        Ok(toks) => Ok(toks),
        Err(Failure::Fault(fault)) => Err(Failure::Fault(ProgramFault::Lex(fault))),
        Err(Failure::OutOfMemory) => Err(Failure::OutOfMemory),
    }
}

/// Refuses more statements than a program may have, and then parentheses that nest too deep.
pub(crate) fn check_sizes(toks: &[Tok]) -> Result<(), Failure<ProgramFault>>
    requires few { length toks.now < 2 ^ 32 }
    ensures within { OnOk result (IsWithinLimits (kinds_of toks.now)) }
    ensures fault { IfErr result (IsTooLargeFor (kinds_of toks.now)) }
{
    let sizes = measure(toks);
    if sizes.statements > STATEMENT_LIMIT {
        return Err(Failure::Fault(ProgramFault::Large {
            what: What::Statements,
            number: u64::from(sizes.statements),
        }));
    }
    if sizes.nesting > MAX_NESTING {
        return Err(Failure::Fault(ProgramFault::Large {
            what: What::Nesting,
            number: u64::from(sizes.nesting),
        }));
    }
    Ok(())
}
