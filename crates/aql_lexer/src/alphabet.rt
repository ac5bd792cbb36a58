//! The bytes of words and of names.

ghost use Rattle.std.specs.Prelude.{◌≡◌};
ghost use Rattle.aql_lexer.specs.Tokens as bytes;

/// Whether a word begins with the byte: an ASCII letter or `_`.
pub fn begins_word(b: u8) -> bool
    ensures { result ≡ bytes.begins_word b }
{
    b.is_ascii_alphabetic() || b == b'_'
}

/// Whether a word goes on with the byte: an ASCII letter, a digit or `_`.
pub fn goes_on_word(b: u8) -> bool
    ensures { result ≡ bytes.goes_on_word b }
{
    b.is_ascii_alphanumeric() || b == b'_'
}

/// Whether the byte stands in a name in quotes: any but a quote and a line feed.
pub fn is_in_name(b: u8) -> bool
    ensures { result ≡ bytes.is_in_name b }
{
    !(b == b'"' || b == b'\n')
}
