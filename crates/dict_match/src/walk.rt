ghost use Rattle.std.specs.Prelude.{◌≡◌, ◌≤◌, ◌<◌, ◌+◌, ◌-◌, ◌↔◌, ◌++◌, [], List, ℕ, length, map, slice_get, Some, option_and_then, OnOk, IsTrue, All};
ghost use Rattle.span_token.specs.SourceTokens.{run_extent};
ghost use Rattle.dict_match.specs.DictMatches.{matches_from, matches_among};
ghost use Rattle.dict_match.specs.Rows.{dict_and_extent, extents_for};
ghost use Rattle.dict_match.specs.declared.dict_use.DictUse.{DictUse};
ghost use Rattle.dict_match.specs.Tries.{Reaches, IsTrie, put_dicts, edge_from};
ghost use Rattle.dict_match.specs.Walks.{run_texts, IsSpelled, HasEndFor, HasOneEach, PutsWhere, Extends, AreAhead, IsKnownOrNext};

use crate::ahead::{Ahead, number_at};
use crate::numbers::may_be_word;
use crate::trie::{End, Trie};
use span_token::{OutOfMemory, OwnedText, SourceTokens, Span};

/// A match: the dictionary's number in the pass, from 0, and the span.
#[derive(Clone, Copy, Debug)]
pub struct DictMatch {
    pub dict: usize,
    pub span: Span,
}

/// Puts the matches that begin at any token after the others.
///
/// Each token is folded and looked up once.
pub(crate) fn push_matches(
    trie: &Trie,
    tokens: &SourceTokens<'_, '_>,
    buffer: &mut String,
    ahead: &mut Ahead,
    into: &mut Vec<DictMatch>,
) -> Result<(), OutOfMemory>
    requires trie { IsTrie trie.now }
    ensures matches { (dicts : List DictUse) (i : ℕ) (dict : DictUse) → Reaches trie.now (put_dicts 0 dicts) 0 [] → slice_get dicts i ≡ Some dict
        → OnOk result (extents_for i (map dict_and_extent into.new.items)
        ≡ extents_for i (map dict_and_extent into.old.items) ++ matches_among dict tokens.now.doc tokens.now.tokens) }
    ensures added { (dicts : List DictUse) → Reaches trie.now (put_dicts 0 dicts) 0 [] → OnOk result (Extends (length dicts) into.old.items into.new.items) }
{
    ahead.restart();
    for first in 0..tokens.len() {
        if !may_be_word(trie, tokens.text(first)) {
            continue;
        }
        ahead.go_to(first);
        push_matches_from(trie, tokens, first, buffer, ahead, into)?;
    }
    Ok(())
}

/// Puts the matches that begin at one token after the others.
#[inline(always)]
fn push_matches_from(
    trie: &Trie,
    tokens: &SourceTokens<'_, '_>,
    first: usize,
    buffer: &mut String,
    ahead: &mut Ahead,
    into: &mut Vec<DictMatch>,
) -> Result<(), OutOfMemory>
    requires trie { IsTrie trie.now }
    requires there { first < length tokens.now.tokens }
    requires numbers { AreAhead trie.now tokens.now ahead.old }
    requires next { IsKnownOrNext first ahead.old }
    ensures matches { (dicts : List DictUse) (i : ℕ) (dict : DictUse) → Reaches trie.now (put_dicts 0 dicts) 0 [] → slice_get dicts i ≡ Some dict
        → OnOk result (extents_for i (map dict_and_extent into.new.items)
        ≡ extents_for i (map dict_and_extent into.old.items) ++ matches_from dict tokens.now.doc tokens.now.tokens first (length tokens.now.tokens)) }
    ensures added { (dicts : List DictUse) → Reaches trie.now (put_dicts 0 dicts) 0 [] → OnOk result (Extends (length dicts) into.old.items into.new.items) }
    ensures numbers { OnOk result (AreAhead trie.now tokens.now ahead.new) }
    ensures next { OnOk result (IsKnownOrNext (first + 1) ahead.new) }
{
    let mut node = 0;
    for last in first..tokens.len() {
        let word = number_at(trie, tokens, last, buffer, ahead)?;
        let Some(next) = follow(trie, node, word) else {
            return Ok(());
        };
        node = next;
        push_ends(trie.ends[node].as_slice(), tokens, first, last + 1, into)?;
    }
    Ok(())
}

/// The node to which a token with this number leads from `node`.
#[inline(always)]
pub(crate) fn follow(trie: &Trie, node: usize, word: Option<usize>) -> Option<usize>
    ensures { result ≡ option_and_then (edge_from trie.now node) word }
{
    let word = word?;
    trie.edges.get(&(node, word)).copied()
}

/// Puts a match for each of these ends after the others that agrees with the run of tokens from
/// `first` to before `past`.
fn push_ends(
    ends: &[End],
    tokens: &SourceTokens<'_, '_>,
    first: usize,
    past: usize,
    into: &mut Vec<DictMatch>,
) -> Result<(), OutOfMemory>
    requires some { first < past }
    requires there { past ≤ length tokens.now.tokens }
    ensures matches { HasOneEach (run_texts tokens.now first past) ends.now
        → (i : ℕ) → OnOk result (PutsWhere (HasEndFor i (run_texts tokens.now first past) ends.now) (run_extent tokens.now.tokens first (past - 1))
        (extents_for i (map dict_and_extent into.old.items)) (extents_for i (map dict_and_extent into.new.items))) }
    ensures added { (n : ℕ) → All (λ end. end.dict < n) ends.now → OnOk result (Extends n into.old.items into.new.items) }
{
    for end in ends {
        if does_agree(end, tokens, first, past) {
            let span = tokens.run(first, past - 1);
            into.push(DictMatch {
                dict: end.dict,
                span,
            })?;
        }
    }
    Ok(())
}

/// Whether an end at the node of a run's foldings agrees with the run.
pub(crate) fn does_agree(
    end: &End,
    tokens: &SourceTokens<'_, '_>,
    first: usize,
    past: usize,
) -> bool
    requires some { first < past }
    requires there { past ≤ length tokens.now.tokens }
    ensures { IsTrue result ↔ IsSpelled (run_texts tokens.now first past) end.now.spelled }
{
    match &end.spelled {
        None => true,
        Some(texts) => are_spelled(texts.as_slice(), tokens, first, past),
    }
}

/// Whether the tokens of a run have these texts.
fn are_spelled(
    texts: &[OwnedText],
    tokens: &SourceTokens<'_, '_>,
    first: usize,
    past: usize,
) -> bool
    requires some { first < past }
    requires there { past ≤ length tokens.now.tokens }
    ensures { IsTrue result ↔ texts.now ≡ run_texts tokens.now first past }
{
    if texts.len() != past - first {
        return false;
    }
    for (i, text) in texts.iter().enumerate() {
        if tokens.text(first + i) != text.as_str() {
            return false;
        }
    }
    true
}
