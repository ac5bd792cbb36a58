ghost use Rattle.std.specs.Prelude.{◌≡◌, ◌<◌};
ghost use Rattle.span_token.specs.Words.{is_number_or_mark, is_word_char};
ghost use Rattle.span_token.specs.Classes.{class_of};

use unicode::properties::{GeneralCategory, is_alphabetic, is_white_space};

/// What a character is to the tokens.
#[derive(Clone, Copy)]
pub(crate) enum Class {
    /// A character of words.
    Word,
    /// White space, which belongs to no token.
    Space,
    /// Any other character, which is a token.
    Mark,
}

/// The classes of the ASCII characters.
#[rattlefmt::skip]
static ASCII: [Class; 128] = [
    Class::Mark, Class::Mark, Class::Mark, Class::Mark, Class::Mark, Class::Mark, Class::Mark, Class::Mark,
    Class::Mark, Class::Space, Class::Space, Class::Space, Class::Space, Class::Space, Class::Mark, Class::Mark,
    Class::Mark, Class::Mark, Class::Mark, Class::Mark, Class::Mark, Class::Mark, Class::Mark, Class::Mark,
    Class::Mark, Class::Mark, Class::Mark, Class::Mark, Class::Mark, Class::Mark, Class::Mark, Class::Mark,
    Class::Space, Class::Mark, Class::Mark, Class::Mark, Class::Mark, Class::Mark, Class::Mark, Class::Mark,
    Class::Mark, Class::Mark, Class::Mark, Class::Mark, Class::Mark, Class::Mark, Class::Mark, Class::Mark,
    Class::Word, Class::Word, Class::Word, Class::Word, Class::Word, Class::Word, Class::Word, Class::Word,
    Class::Word, Class::Word, Class::Mark, Class::Mark, Class::Mark, Class::Mark, Class::Mark, Class::Mark,
    Class::Mark, Class::Word, Class::Word, Class::Word, Class::Word, Class::Word, Class::Word, Class::Word,
    Class::Word, Class::Word, Class::Word, Class::Word, Class::Word, Class::Word, Class::Word, Class::Word,
    Class::Word, Class::Word, Class::Word, Class::Word, Class::Word, Class::Word, Class::Word, Class::Word,
    Class::Word, Class::Word, Class::Word, Class::Mark, Class::Mark, Class::Mark, Class::Mark, Class::Mark,
    Class::Mark, Class::Word, Class::Word, Class::Word, Class::Word, Class::Word, Class::Word, Class::Word,
    Class::Word, Class::Word, Class::Word, Class::Word, Class::Word, Class::Word, Class::Word, Class::Word,
    Class::Word, Class::Word, Class::Word, Class::Word, Class::Word, Class::Word, Class::Word, Class::Word,
    Class::Word, Class::Word, Class::Word, Class::Mark, Class::Mark, Class::Mark, Class::Mark, Class::Mark,
];

/// The class of an ASCII character.
#[inline(always)]
pub(crate) fn class_of_ascii(byte: u8) -> Class
    requires { byte < 128 }
    ensures { result ≡ class_of byte }
{
    ASCII[byte as usize]
}

/// The class of a character.
#[tactic(auto, unfolding(crate::specs::Classes::class_of))]
pub(crate) fn class_of_char(c: char) -> Class
    ensures { result ≡ class_of c }
{
    if is_word(c) {
        Class::Word
    } else if is_white_space(c) {
        Class::Space
    } else {
        Class::Mark
    }
}

/// Whether `c` is Alphabetic, or a number or a mark by its general category.
#[tactic(auto, unfolding(crate::specs::Words::is_word_char))]
fn is_word(c: char) -> bool
    ensures { result ≡ is_word_char c }
{
    is_alphabetic(c) || is_number_or_mark(GeneralCategory::for_char(c))
}

/// Whether the category is Nd, Nl, No, Mn or Mc.
fn is_number_or_mark(category: GeneralCategory) -> bool
    ensures { result ≡ is_number_or_mark category }
{
    matches!(
        category,
        GeneralCategory::NonspacingMark
            | GeneralCategory::SpacingMark
            | GeneralCategory::DecimalNumber
            | GeneralCategory::LetterNumber
            | GeneralCategory::OtherNumber
    )
}
