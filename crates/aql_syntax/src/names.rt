//! Words that are reserved, and how a name is spelled.

ghost use Rattle.std.specs.Prelude.{◌≡◌};
ghost use Rattle.std.specs.List.{list_all};
ghost use Rattle.aql_lexer.specs.Tokens as lexed;
ghost use Rattle.aql_syntax.specs.Spellings as spec;

use aql_lexer::{begins_word, goes_on_word, is_in_name};

/// The words that are no names, in any case.
static RESERVED: [&str; 24] = [
    "select",
    "extract",
    "from",
    "where",
    "and",
    "consolidate",
    "on",
    "using",
    "group",
    "order",
    "by",
    "limit",
    "having",
    "union",
    "minus",
    "as",
    "with",
    "in",
    "between",
    "return",
    "create",
    "output",
    "view",
    "dictionary",
];

/// Whether two texts are equal in all but the case of ASCII letters.
#[tactic(auto, unfolding(crate::specs::Spellings::same_word))]
pub fn same_word(a: &str, b: &str) -> bool
    ensures { result ≡ spec.same_word a.now b.now }
{
    a.eq_ignore_ascii_case(b)
}

/// Whether `word` is reserved, in any ASCII case, so that it names nothing without quotes.
pub fn is_reserved(word: &str) -> bool
    ensures { result ≡ spec.is_reserved word.now }
{
    RESERVED.iter().any(|reserved| same_word(word, reserved))
}

/// Whether a name with this text can stand without quotes.
#[tactic(auto, unfolding(crate::specs::Spellings::can_be_word))]
pub(crate) fn can_be_word(text: &str) -> bool
    ensures { result ≡ spec.can_be_word text.now }
{
    is_word(text) && !is_reserved(text)
}

#[tactic(auto, unfolding(crate::specs::Spellings::is_word))]
fn is_word(text: &str) -> bool
    ensures { result ≡ spec.is_word text.now }
{
    match text.as_bytes() {
        [] => false,
        [first, rest @ ..] => begins_word(*first) && all_go_on_word(rest),
    }
}

fn all_go_on_word(bytes: &[u8]) -> bool
    ensures { result ≡ list_all lexed.goes_on_word bytes.now }
{
    bytes.iter().all(|byte| goes_on_word(*byte))
}

/// Whether a name with this text can stand in quotes.
#[tactic(auto, unfolding(crate::specs::Spellings::can_be_name))]
pub(crate) fn can_be_name(text: &str) -> bool
    ensures { result ≡ spec.can_be_name text.now }
{
    match text.as_bytes() {
        [] => false,
        bytes => all_stand_in_quotes(bytes),
    }
}

fn all_stand_in_quotes(bytes: &[u8]) -> bool
    ensures { result ≡ list_all lexed.is_in_name bytes.now }
{
    bytes.iter().all(|byte| is_in_name(*byte))
}
