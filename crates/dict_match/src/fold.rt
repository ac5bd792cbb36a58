ghost use Rattle.std.specs.Prelude.{◌≡◌, OnOk, IsTrue, string_bytes};
ghost use Rattle.dict_match.specs.Dictionaries.{folded};

use caseless::Caseless;
use span_token::OutOfMemory;

/// Puts the full case folding of `text` in the place of what `buffer` holds.
pub(crate) fn fold_into(text: &str, buffer: &mut String) -> Result<(), OutOfMemory>
    ensures { OnOk result (string_bytes buffer.new ≡ folded text.now) }
{
    buffer.clear();
    if text.is_ascii() {
        buffer.push_str(text)?;
        buffer.make_ascii_lowercase();
    } else {
        buffer.extend(text.chars().default_case_fold())?;
    }
    Ok(())
}

/// Whether a text is its own folding, by its bytes alone: ASCII without capital letters.
pub(crate) fn is_plain(text: &str) -> bool
    ensures { IsTrue result → folded text.now ≡ text.now }
{
    for byte in text.as_bytes() {
        if *byte >= 128 || byte.is_ascii_uppercase() {
            return false;
        }
    }
    true
}
