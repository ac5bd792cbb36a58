ghost use Rattle.std.specs.Prelude.{◌≡◌, ◌≤◌, ◌<◌, ◌+◌, ◌↔◌, [], List, length, slice_get, Some, IfOk, OnOk, IsTrue};
ghost use Rattle.span_token.specs.Extents.{Extent};
ghost use Rattle.dict_match.specs.Dictionaries.{texts_of, AgreesWith, IsMatch};
ghost use Rattle.dict_match.specs.declared.dict_use.DictUse.{DictUse};
ghost use Rattle.dict_match.specs.Tries.{Reaches, IsTrie, put_dicts};
ghost use Rattle.dict_match.specs.Walks.{run_texts, IsSpelled, HasEndFor, HasRun, AreAhead, IsKnownOrNext};

use crate::ahead::{Ahead, number_at};
use crate::numbers::number_of_folded;
use crate::trie::{End, Trie};
use crate::walk::{does_agree, follow};
use span_token::{OutOfMemory, SourceTokens};

/// Whether some run of these tokens agrees with an entry of the dictionary with that number.
///
/// Ends at the first such run. Tokens are folded as far as runs are followed, each once.
pub(crate) fn has_run(
    trie: &Trie,
    dict: usize,
    tokens: &SourceTokens<'_, '_>,
    buffer: &mut String,
    ahead: &mut Ahead,
) -> Result<bool, OutOfMemory>
    requires trie { IsTrie trie.now }
    ensures { (dicts : List DictUse) (the : DictUse) → Reaches trie.now (put_dicts 0 dicts) 0 [] → slice_get dicts dict ≡ Some the
        → IfOk result (λ found. IsTrue found ↔ (e : Extent) × IsMatch the tokens.now.doc tokens.now.tokens e) }
{
    ahead.restart();
    for first in 0..tokens.len() {
        ahead.go_to(first);
        if has_run_from(trie, dict, tokens, first, buffer, ahead)? {
            return Ok(true);
        }
    }
    Ok(false)
}

/// Whether some run from token `first` on agrees with an entry of the dictionary with that number.
fn has_run_from(
    trie: &Trie,
    dict: usize,
    tokens: &SourceTokens<'_, '_>,
    first: usize,
    buffer: &mut String,
    ahead: &mut Ahead,
) -> Result<bool, OutOfMemory>
    requires trie { IsTrie trie.now }
    requires there { first < length tokens.now.tokens }
    requires numbers { AreAhead trie.now tokens.now ahead.old }
    requires next { IsKnownOrNext first ahead.old }
    ensures found { (dicts : List DictUse) (the : DictUse) → Reaches trie.now (put_dicts 0 dicts) 0 [] → slice_get dicts dict ≡ Some the
        → IfOk result (λ found. IsTrue found ↔ HasRun the tokens.now first (length tokens.now.tokens)) }
    ensures numbers { OnOk result (AreAhead trie.now tokens.now ahead.new) }
    ensures next { OnOk result (IsKnownOrNext (first + 1) ahead.new) }
{
    let mut node = 0;
    for last in first..tokens.len() {
        let word = number_at(trie, tokens, last, buffer, ahead)?;
        let Some(next) = follow(trie, node, word) else {
            return Ok(false);
        };
        node = next;
        if has_end(trie.ends[node].as_slice(), dict, tokens, first, last + 1) {
            return Ok(true);
        }
    }
    Ok(false)
}

/// Whether these tokens, taken together, agree with an entry of the dictionary with that number.
///
/// Ends at the first token with which no entry goes on.
pub(crate) fn is_entry(
    trie: &Trie,
    dict: usize,
    tokens: &SourceTokens<'_, '_>,
    buffer: &mut String,
) -> Result<bool, OutOfMemory>
    requires trie { IsTrie trie.now }
    ensures { (dicts : List DictUse) (the : DictUse) → Reaches trie.now (put_dicts 0 dicts) 0 [] → slice_get dicts dict ≡ Some the
        → IfOk result (λ found. IsTrue found ↔ AgreesWith the (texts_of tokens.now.doc tokens.now.tokens)) }
{
    if tokens.len() == 0 {
        return Ok(false);
    }
    let mut node = 0;
    for last in 0..tokens.len() {
        let word = number_of_folded(trie, tokens.text(last), buffer)?;
        let Some(next) = follow(trie, node, word) else {
            return Ok(false);
        };
        node = next;
    }
    Ok(has_end(trie.ends[node].as_slice(), dict, tokens, 0, tokens.len()))
}

/// Whether one of these ends is of the dictionary with that number and agrees with the run of tokens from
/// `first` to before `past`.
fn has_end(
    ends: &[End],
    dict: usize,
    tokens: &SourceTokens<'_, '_>,
    first: usize,
    past: usize,
) -> bool
    requires some { first < past }
    requires there { past ≤ length tokens.now.tokens }
    ensures { IsTrue result ↔ HasEndFor dict (run_texts tokens.now first past) ends.now }
{
    for end in ends {
        if is_end_for(end, dict, tokens, first, past) {
            return true;
        }
    }
    false
}

/// Whether an end is of the dictionary with that number and agrees with a run.
fn is_end_for(
    end: &End,
    dict: usize,
    tokens: &SourceTokens<'_, '_>,
    first: usize,
    past: usize,
) -> bool
    requires some { first < past }
    requires there { past ≤ length tokens.now.tokens }
    ensures { IsTrue result ↔ (end.now.dict ≡ dict) × IsSpelled (run_texts tokens.now first past) end.now.spelled }
{
    if end.dict != dict {
        return false;
    }
    does_agree(end, tokens, first, past)
}
