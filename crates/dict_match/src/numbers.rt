ghost use Rattle.std.specs.Prelude.{◌≡◌, IfOk, None, IsFalse};
ghost use Rattle.std.specs.HashMap.{get_by_text};
ghost use Rattle.dict_match.specs.Dictionaries.{folded};
ghost use Rattle.dict_match.specs.Tries.{IsTrie};

use crate::fold::{fold_into, is_plain};
use crate::marks::mark_where_ascii;
use crate::trie::Trie;
use span_token::OutOfMemory;

/// What the tree's words have for the full case folding of `text`.
///
/// Most ASCII texts that aren't words are told by their mark, without a fold and a look at the words. Takes
/// memory only where `buffer` has no room for the folding.
#[inline(always)]
pub(crate) fn number_of_folded(
    trie: &Trie,
    text: &str,
    buffer: &mut String,
) -> Result<Option<usize>, OutOfMemory>
    requires trie { IsTrie trie.now }
    ensures { IfOk result (λ number. number ≡ get_by_text trie.now.words (folded text.now)) }
{
    if !may_be_word(trie, text) {
        return Ok(None);
    }
    number_by_words(trie, text, buffer)
}

/// Whether some entry may have a token with this text: most that none has are told by their mark.
///
/// The clause is met by yes for each text too, which only the time rests on.
#[inline(always)]
pub(crate) fn may_be_word(trie: &Trie, text: &str) -> bool
    requires trie { IsTrie trie.now }
    ensures { IsFalse result → get_by_text trie.now.words (folded text.now) ≡ None }
{
    if let Some(mark) = mark_where_ascii(text) {
        if !trie.marks.has(mark) {
            return false;
        }
    }
    true
}

/// What the words have for the folding, by a look at them.
fn number_by_words(
    trie: &Trie,
    text: &str,
    buffer: &mut String,
) -> Result<Option<usize>, OutOfMemory>
    ensures { IfOk result (λ number. number ≡ get_by_text trie.now.words (folded text.now)) }
{
    if is_plain(text) {
        return Ok(trie.words.get(text).copied());
    }
    fold_into(text, buffer)?;
    Ok(trie.words.get(buffer.as_str()).copied())
}
