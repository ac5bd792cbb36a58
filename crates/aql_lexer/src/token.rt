use span_token::OwnedText;

/// What a token is, with what it stands for: quotes are taken off and pairs with a backslash resolved.
///
/// A `Word` is a keyword or a name as it is written, a `Name` the characters between `"` and `"`, and a
/// `Symbol` one of the ASCII bytes `( ) , . ; * < > { }`.
#[derive(Debug, Drop)]
pub enum TokKind {
    Word(OwnedText),
    Name(OwnedText),
    Int(i64),
    Str(OwnedText),
    Regex(OwnedText),
    Symbol(u8),
}

/// A token with its place: `begin` counts bytes of the program text from 0, `line` lines from 1.
#[derive(Debug, Drop)]
pub struct Tok {
    pub kind: TokKind,
    pub begin: u32,
    pub line: u32,
}

/// The byte of a text, from 0, up to which it is read and at which neither white space nor a comment
/// nor a token stands.
#[derive(Clone, Copy, Debug, PartialEq, Eq)]
pub struct LexFault {
    pub place: u32,
}
