ghost use Rattle.std.specs.Prelude.{◌≡◌, ◌≤◌, ◌+◌, length, drop, chars, MatchOption};
ghost use Rattle.span_token.specs.Limits.{text_limit};
ghost use Rattle.std.specs.List.{prefix_len};
ghost use Rattle.span_token.specs.Words.{is_word_char};
ghost use Rattle.span_token.specs.Points.{IsPoint, IsStep};

use crate::classes::{Class, class_of_ascii, class_of_char};

/// Where a character begins: its byte, and its place among the characters.
#[derive(Clone, Copy)]
pub(crate) struct Point {
    pub byte: usize,
    pub place: u32,
}

/// The class of the character at a point, and the point after it; None at the end.
#[inline(always)]
pub(crate) fn step(text: &str, at: Point) -> Option<(Class, Point)>
    requires point { IsPoint text.now at }
    requires short { length text.now ≤ text_limit }
    ensures { MatchOption result (at.place ≡ length (chars text.now)) (λ r. IsStep text.now at r.0 r.1) }
{
    let bytes = text.as_bytes();
    if at.byte == bytes.len() {
        return None;
    }
    let first = bytes[at.byte];
    if first < 128 {
        let next = Point {
            byte: at.byte + 1,
            place: at.place + 1,
        };
        return Some((class_of_ascii(first), next));
    }
    step_beyond(text, at)
}

/// The same by decoding the character.
#[inline(never)]
fn step_beyond(text: &str, at: Point) -> Option<(Class, Point)>
    requires point { IsPoint text.now at }
    requires short { length text.now ≤ text_limit }
    ensures { MatchOption result (at.place ≡ length (chars text.now)) (λ r. IsStep text.now at r.0 r.1) }
{
    let c = text[at.byte..].chars().next()?;
    let next = Point {
        byte: at.byte + c.len_utf8(),
        place: at.place + 1,
    };
    Some((class_of_char(c), next))
}

/// The first point from `from` on at which no word character stands.
#[inline(always)]
pub(crate) fn past_word(text: &str, from: Point) -> Point
    requires point { IsPoint text.now from }
    requires short { length text.now ≤ text_limit }
    ensures point { IsPoint text.now result }
    ensures place { result.place ≡ from.place + prefix_len is_word_char (drop from.place (chars text.now)) }
{
    let mut at = from;
    while let Some((class, next)) = step(text, at) {
        match class {
            Class::Word => at = next,
            Class::Space | Class::Mark => return at,
        }
    }
    at
}
