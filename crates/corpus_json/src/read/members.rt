ghost use Rattle.std.specs.Prelude.{◌≡◌, ◌<◌, None, OnOk, length, option_map, Some, MatchResult};
ghost use Rattle.corpus_json.specs.Passing.{value_at, items_at, members_at, rest_of, PutsString, PassesValue, PassesMembers};

use super::number::is_in_range;
use json::{Invalid, Reader, Token};

/// The members `text` and `label` of an object, where they are strings.
#[derive(Clone, Copy)]
pub(crate) struct Strings<'d> {
    pub(crate) text: Option<&'d str>,
    pub(crate) label: Option<&'d str>,
}

/// Passes the members of an object, with its brace. Of members with equal names the last counts.
/// Arrays and objects may nest `depth` deep.
#[cycle(pass)]
#[inline(never)]
pub(crate) fn pass_members<'d>(
    reader: &mut Reader<'d>,
    depth: usize,
) -> Result<Strings<'d>, Invalid>
    ensures value { MatchResult result (λ strings. PassesMembers depth reader.old strings reader.new)
        (λ _. members_at depth reader.old ≡ None) }
    ensures shorter { OnOk result (length reader.new < length reader.old) }
{
    let mut strings = Strings {
        text: None,
        label: None,
    };
    'members: while let Some(name) = reader.next_key()? {
        let string = pass_value(reader, depth)?;
        strings = with_member(strings, name, string);
    }
    Ok(strings)
}

/// Passes a value, and gives it where it is a string.
#[cycle(pass)]
#[inline(always)]
fn pass_value<'d>(reader: &mut Reader<'d>, depth: usize) -> Result<Option<&'d str>, Invalid>
    ensures value { MatchResult result
        (λ string. PassesValue depth reader.old (option_map (λ s. s.now) string) reader.new)
        (λ _. value_at depth reader.old ≡ None) }
    ensures shorter { OnOk result (length reader.new < length reader.old) }
{
    let token = reader.next().ok_or(Invalid)?;
    match token {
        Token::String(text) => Ok(Some(text)),
        Token::Number(text) => if is_in_range(text) {
            Ok(None)
        } else {
            Err(Invalid)
        },
        Token::Bool(_) => Ok(None),
        Token::Null => Ok(None),
        Token::EndObject | Token::EndArray | Token::Key(_) | Token::Bad => Err(Invalid),
        Token::BeginArray => {
            if depth == 0 {
                return Err(Invalid);
            }
            pass_items(reader, depth - 1)?;
            Ok(None)
        }
        Token::BeginObject => {
            if depth == 0 {
                return Err(Invalid);
            }
            pass_members(reader, depth - 1)?;
            Ok(None)
        }
    }
}

/// Passes the items of an array, with its bracket.
#[cycle(pass)]
#[inline(never)]
fn pass_items(reader: &mut Reader<'_>, depth: usize) -> Result<(), Invalid>
    ensures value { MatchResult result (λ _. rest_of (items_at depth reader.old) ≡ Some reader.new)
        (λ _. rest_of (items_at depth reader.old) ≡ None) }
    ensures shorter { OnOk result (length reader.new < length reader.old) }
{
    'items: while !reader.take_end_array() {
        pass_value(reader, depth)?;
    }
    Ok(())
}

/// The strings with one more member, which is this string or none.
pub(crate) fn with_member<'d>(
    strings: Strings<'d>,
    name: &str,
    string: Option<&'d str>,
) -> Strings<'d>
    ensures { PutsString strings.entry result name.now (option_map (λ s. s.now) string.entry) }
{
    if name == "text" {
        return Strings {
            text: string,
            label: strings.label,
        };
    }
    if name == "label" {
        return Strings {
            text: strings.text,
            label: string,
        };
    }
    strings
}
