//! The tokens of a statement that are left to read.

ghost use Rattle.std.specs.Prelude.{◌≡◌, ◌+◌, ◌^◌, ◌<◌, ◌∷◌, [], length, if◌then◌else◌, MatchBool, MatchOption, IfOk, IfErr, IsTrue, ◌↔◌, ◌≢◌, true, false};
ghost use Rattle.aql_lexer.specs.Kinds.{kind_of, kinds_of};
ghost use Rattle.aql_syntax.specs.Views.{name_of, number_of};
ghost use Rattle.aql_parser.specs.Readers as spec;
ghost use Rattle.aql_parser.specs.Reading.Extractions as looks;
ghost use Rattle.aql_parser.specs.Readers.{Gives, Eats, Takes, IsUnreserved};

use aql_lexer::{Tok, TokKind};
use aql_syntax::{Ident, Number, is_reserved, same_word};
use span_token::{Failure, OutOfMemory, OwnedText};
use std::alloc::Global;
use std::marker::Model;

/// No tree has the tokens.
#[derive(Clone, Copy, Debug, PartialEq, Eq)]
pub struct NoTree;

/// Why a part of a statement isn't read: want of memory, or tokens that no tree has.
pub type Refused = Failure<NoTree>;

/// The tokens that are left, and the number of the first of them.
#[derive(Drop)]
pub struct Cursor<'t> {
    rest: &'t [Tok],
    at: u32,
}

impl<'t> Model for Cursor<'t> {
    ghost use Rattle.std.specs.Prelude.{◌+◌, ◌^◌, ◌<◌, length};
    ghost use Rattle.aql_lexer.specs.Kinds.{kinds_of};
    ghost use Rattle.aql_parser.specs.Readers.{Left};

    ghost Value = { Left };

    ghost view = { λ cursor. record { at = cursor.at; kinds = kinds_of cursor.rest.now } };

    ghost invariant = { λ cursor. cursor.at + length cursor.rest.now < 2 ^ 32 };
}

impl<'t> Cursor<'t> {
    /// A cursor at the first of `rest`, which has the number `at`.
    pub fn new(rest: &'t [Tok], at: u32) -> Cursor<'t>
        requires { at + length rest.now < 2 ^ 32 }
        ensures { result ≡ record { at = at; kinds = kinds_of rest.entry.now } }
    {
        Cursor { rest, at }
    }

    /// The number of the next token.
    pub fn at(&self) -> u32
        ensures { result ≡ self.now.at }
    {
        self.at
    }

    /// How many tokens are left.
    pub fn left(&self) -> usize
        ensures value { result ≡ length self.now.kinds }
        ensures few { result < 2 ^ 32 }
    {
        self.rest.len()
    }

    /// Whether no token is left.
    pub fn is_done(&self) -> bool
        ensures { IsTrue result ↔ (self.now.kinds ≡ []) }
    {
        self.rest.is_empty()
    }

    /// Whether the next token is this symbol.
    pub fn sees_symbol(&self, symbol: u8) -> bool
        ensures { result ≡ spec.sees_symbol symbol self.now.kinds }
    {
        match self.rest {
            [tok, ..] => is_symbol(&tok.kind, symbol),
            [] => false,
        }
    }

    /// Whether the next token is this keyword.
    pub fn sees_word(&self, word: &str) -> bool
        ensures { result ≡ spec.sees_word word.now self.now.kinds }
    {
        match self.rest {
            [tok, ..] => is_word(&tok.kind, word),
            [] => false,
        }
    }

    /// Whether the next token is a name.
    pub fn sees_name(&self) -> bool
        ensures { result ≡ spec.sees_name self.now.kinds }
    {
        match self.rest {
            [tok, ..] => is_name(&tok.kind),
            [] => false,
        }
    }

    /// Whether the next token is an integer.
    pub fn sees_int(&self) -> bool
        ensures { result ≡ looks.sees_int self.now.kinds }
    {
        match self.rest {
            [tok, ..] => is_int(&tok.kind),
            [] => false,
        }
    }

    /// Whether the next token is a string.
    pub fn sees_string(&self) -> bool
        ensures { result ≡ looks.sees_string self.now.kinds }
    {
        match self.rest {
            [tok, ..] => is_string(&tok.kind),
            [] => false,
        }
    }

    /// Whether `regex` and a pattern come next.
    pub fn begins_pattern(&self) -> bool
        ensures { result ≡ looks.begins_pattern self.now.kinds }
    {
        match self.rest {
            [first, second, ..] => is_word(&first.kind, "regex") && is_regex(&second.kind),
            _ => false,
        }
    }

    /// Whether `dictionary` comes next, and not as the word of a call.
    pub fn begins_dictionary(&self) -> bool
        ensures { result ≡ looks.begins_dict self.now.kinds }
    {
        match self.rest {
            [first, second, ..] => {
                is_word(&first.kind, "dictionary") && !is_symbol(&second.kind, b'(')
            }
            [first] => is_word(&first.kind, "dictionary"),
            [] => false,
        }
    }

    /// Whether `blocks with` comes next.
    pub fn begins_blocks(&self) -> bool
        ensures { result ≡ looks.begins_blocks self.now.kinds }
    {
        match self.rest {
            [first, second, ..] => is_word(&first.kind, "blocks") && is_word(&second.kind, "with"),
            _ => false,
        }
    }

    /// Passes over the next token, if there is one.
    pub fn skip(&mut self)
        requires { self.old.kinds ≢ [] }
        ensures { self.new ≡ record { at = self.old.at + 1; kinds = spec.after self.old.kinds } }
    {
        if let [_, rest @ ..] = self.rest {
            self.rest = rest;
            self.at += 1;
        }
    }

    /// Takes the next token where it is this symbol, and says whether it was.
    pub fn eat(&mut self, symbol: u8) -> bool
        ensures { Eats (spec.sees_symbol symbol) result self.old self.new }
    {
        if !self.sees_symbol(symbol) {
            return false;
        }
        self.skip();
        true
    }

    /// Takes the next token where it is this keyword, and says whether it was.
    pub fn eat_word(&mut self, word: &str) -> bool
        ensures { Eats (spec.sees_word word.now) result self.old self.new }
    {
        if !self.sees_word(word) {
            return false;
        }
        self.skip();
        true
    }

    /// Takes this symbol.
    pub fn expect(&mut self, symbol: u8) -> Result<(), Refused>
        ensures { Gives (λ u. u) (spec.take_if (spec.sees_symbol symbol) self.old.at self.old.kinds) result self.new }
    {
        if self.eat(symbol) {
            return Ok(());
        }
        Err(Failure::Fault(NoTree))
    }

    /// Takes this symbol, after `value`, and gives that back.
    pub fn expect_after<T: Drop>(&mut self, value: T, symbol: u8) -> Result<T, Refused>
        ensures { Gives (λ given. given) (spec.mapped (λ _. value) (spec.take_if (spec.sees_symbol symbol)) self.old.at self.old.kinds) result self.new }
    {
        self.expect(symbol)?;
        Ok(value)
    }

    /// Takes this keyword.
    pub fn expect_word(&mut self, word: &str) -> Result<(), Refused>
        ensures { Gives (λ u. u) (spec.take_if (spec.sees_word word.now) self.old.at self.old.kinds) result self.new }
    {
        if self.eat_word(word) {
            return Ok(());
        }
        Err(Failure::Fault(NoTree))
    }

    /// Takes this word, in this case.
    pub fn expect_exactly(&mut self, word: &str) -> Result<(), Refused>
        ensures { Gives (λ u. u) (spec.take_if (spec.sees_exactly word.now) self.old.at self.old.kinds) result self.new }
    {
        if !self.sees_exactly(word) {
            return Err(Failure::Fault(NoTree));
        }
        self.skip();
        Ok(())
    }

    fn sees_exactly(&self, word: &str) -> bool
        ensures { result ≡ spec.sees_exactly word.now self.now.kinds }
    {
        match self.rest {
            [tok, ..] => is_exactly(&tok.kind, word),
            [] => false,
        }
    }

    /// The next token, which is taken.
    pub fn take(&mut self) -> Option<&'t TokKind>
        ensures { MatchOption result (self.old.kinds ≡ []) (λ kind. Takes (kind_of kind.now) self.old self.new) }
    {
        if let [tok, rest @ ..] = self.rest {
            self.rest = rest;
            self.at += 1;
            return Some(&tok.kind);
        }
        None
    }

    /// Takes a name.
    pub fn name(&mut self, alloc: Global) -> Result<Ident, Refused>
        ensures { Gives name_of (spec.a_name self.old.at self.old.kinds) result self.new }
    {
        let at = self.at();
        match self.take() {
            Some(TokKind::Word(text)) => unreserved(alloc, text.as_str(), at),
            Some(TokKind::Name(text)) => Ok(ident(alloc, text.as_str(), at)?),
            _ => Err(Failure::Fault(NoTree)),
        }
    }

    /// Takes a string.
    pub fn string(&mut self, alloc: Global) -> Result<Ident, Refused>
        ensures { Gives name_of (spec.a_string self.old.at self.old.kinds) result self.new }
    {
        let at = self.at();
        match self.take() {
            Some(TokKind::Str(text)) => Ok(ident(alloc, text.as_str(), at)?),
            _ => Err(Failure::Fault(NoTree)),
        }
    }

    /// Takes a pattern.
    pub fn pattern(&mut self, alloc: Global) -> Result<Ident, Refused>
        ensures { Gives name_of (spec.a_pattern self.old.at self.old.kinds) result self.new }
    {
        let at = self.at();
        match self.take() {
            Some(TokKind::Regex(text)) => Ok(ident(alloc, text.as_str(), at)?),
            _ => Err(Failure::Fault(NoTree)),
        }
    }

    /// Takes an integer.
    pub fn int(&mut self) -> Result<Number, Refused>
        ensures { Gives number_of (spec.an_int self.old.at self.old.kinds) result self.new }
    {
        let at = self.at();
        match self.take() {
            Some(TokKind::Int(value)) => Ok(Number { value: *value, at }),
            _ => Err(Failure::Fault(NoTree)),
        }
    }
}

/// A name with a copy of `text`.
pub fn ident(alloc: Global, text: &str, at: u32) -> Result<Ident, OutOfMemory>
    ensures { IfOk result (λ name. name_of name ≡ record { text = text.now; at = at }) }
{
    let text = OwnedText::copied(alloc, text)?;
    Ok(Ident { text, at })
}

fn unreserved(alloc: Global, word: &str, at: u32) -> Result<Ident, Refused>
    ensures { IsUnreserved word.now at result }
{
    if is_reserved(word) {
        return Err(Failure::Fault(NoTree));
    }
    Ok(ident(alloc, word, at)?)
}

/// Whether the token is this symbol.
pub fn is_symbol(kind: &TokKind, symbol: u8) -> bool
    ensures { result ≡ spec.sees_symbol symbol (kind_of kind.now ∷ []) }
{
    match kind {
        TokKind::Symbol(byte) => *byte == symbol,
        _ => false,
    }
}

fn is_word(kind: &TokKind, word: &str) -> bool
    ensures { result ≡ spec.sees_word word.now (kind_of kind.now ∷ []) }
{
    match kind {
        TokKind::Word(text) => same_word(text.as_str(), word),
        _ => false,
    }
}

fn is_exactly(kind: &TokKind, word: &str) -> bool
    ensures { result ≡ spec.sees_exactly word.now (kind_of kind.now ∷ []) }
{
    match kind {
        TokKind::Word(text) => text.as_str() == word,
        _ => false,
    }
}

fn is_int(kind: &TokKind) -> bool
    ensures { result ≡ looks.sees_int (kind_of kind.now ∷ []) }
{
    matches!(kind, TokKind::Int(_))
}

fn is_string(kind: &TokKind) -> bool
    ensures { result ≡ looks.sees_string (kind_of kind.now ∷ []) }
{
    matches!(kind, TokKind::Str(_))
}

fn is_regex(kind: &TokKind) -> bool
    ensures { result ≡ looks.sees_regex (kind_of kind.now ∷ []) }
{
    matches!(kind, TokKind::Regex(_))
}

fn is_name(kind: &TokKind) -> bool
    ensures { result ≡ spec.sees_name (kind_of kind.now ∷ []) }
{
    match kind {
        TokKind::Word(text) => !is_reserved(text.as_str()),
        TokKind::Name(_) => true,
        _ => false,
    }
}
