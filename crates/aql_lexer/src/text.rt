//! What the bytes of a part stand for.

ghost use Rattle.std.specs.Prelude.{◌≡◌, ◌≤◌, ◌<◌, length, IfOk, option_map, string_bytes, false, true};
ghost use Rattle.aql_lexer.specs.Kinds.{kind_of};
ghost use Rattle.aql_lexer.specs.Reading.{kind_in};
ghost use Rattle.aql_lexer.specs.Scanning as spec;

use crate::scan::Form;
use crate::token::TokKind;
use span_token::{OutOfMemory, OwnedText};
use std::alloc::Global;

/// Which characters lose the backslash before them.
#[derive(Clone, Copy, Debug)]
pub enum Escapes {
    Str,
    Regex,
}

/// The token that `part` is, if it is one.
pub fn token_kind(alloc: Global, form: Form, part: &str) -> Result<Option<TokKind>, OutOfMemory>
    requires { spec.IsEnclosedIn form part.now }
    ensures { IfOk result (λ kind. option_map kind_of kind ≡ kind_in (spec.part_of form part.now)) }
{
    let kind = match form {
        Form::White | Form::Comment => return Ok(None),
        Form::Word => TokKind::Word(OwnedText::copied(alloc, part)?),
        Form::Name => TokKind::Name(OwnedText::copied(alloc, between(part))?),
        Form::Int(number) => TokKind::Int(number),
        Form::Str => TokKind::Str(OwnedText::from(unescaped(alloc, Escapes::Str, between(part))?)),
        Form::Regex => TokKind::Regex(OwnedText::from(unescaped(
            alloc,
            Escapes::Regex,
            between(part),
        )?)),
        Form::Symbol(byte) => TokKind::Symbol(byte),
    };
    Ok(Some(kind))
}

/// The text between the first byte and the last, which are ASCII.
fn between(text: &str) -> &str
    requires { spec.IsEnclosed text.now }
    ensures { result.now ≡ spec.between text.now }
{
    &text[1..text.len() - 1]
}

/// What `text` between quotes stands for.
fn unescaped(alloc: Global, escapes: Escapes, text: &str) -> Result<String, OutOfMemory>
    ensures { IfOk result (λ meant. string_bytes meant ≡ spec.unescaped_from (spec.escapes_of escapes) false text.now) }
{
    let bytes = text.as_bytes();
    let mut meant = String::new(alloc);
    let mut from = 0;
    let mut at = 0;
    while at < bytes.len() {
        if bytes[at] == b'\\' && at + 1 < bytes.len() {
            if drops_backslash(escapes, bytes[at + 1]) {
                meant.push_str(&text[from..at])?;
                from = at + 1;
            }
            at += 2;
        } else {
            at += 1;
        }
    }
    meant.push_str(&text[from..])?;
    Ok(meant)
}

fn drops_backslash(escapes: Escapes, b: u8) -> bool
    ensures { result ≡ spec.escapes_of escapes b }
{
    match escapes {
        Escapes::Str => b == b'\'' || b == b'\\',
        Escapes::Regex => b == b'/',
    }
}
