ghost use Rattle.std.specs.Prelude.{◌≡◌, ◌<◌, ◌≤◌, ◌+◌, [], length, IfOk, OnOk};
ghost use Rattle.std.specs.HashMap.{get_by_text};
ghost use Rattle.span_token.specs.Documents.{text_in};
ghost use Rattle.span_token.specs.Extents.{nth_extent};
ghost use Rattle.span_token.specs.SourceTokens.{SomeTokens};
ghost use Rattle.dict_match.specs.Dictionaries.{folded};
ghost use Rattle.dict_match.specs.declared.trie.Trie.{Trie as DeclaredTrie};
ghost use Rattle.dict_match.specs.Tries.{IsTrie};
ghost use Rattle.dict_match.specs.Walks.{AreAhead, IsKnownOrNext};

use crate::numbers::number_of_folded;
use crate::trie::Trie;
use span_token::{OutOfMemory, SourceTokens};
use std::alloc::Global;

/// The numbers that were looked up for some tokens one after another, kept for walks from later tokens.
///
/// Most tokens begin no entry, so mostly one number is kept, and none of the tokens before it.
#[derive(Drop)]
pub(crate) struct Ahead {
    /// The number of the first of these tokens.
    pub begin: usize,
    /// For each of them the number of its folding, none where no entry has it.
    pub numbers: Vec<Option<usize>>,
}

impl Ahead {
    /// Of no token; takes no memory.
    pub(crate) fn new(alloc: Global) -> Ahead {
        Ahead {
            begin: 0,
            numbers: Vec::new(alloc),
        }
    }

    /// Of no token, before the first one.
    pub(crate) fn restart(&mut self)
        ensures begin { self.new.begin ≡ 0 }
        ensures none { self.new.numbers.items ≡ [] }
    {
        self.begin = 0;
        self.numbers.clear();
    }

    /// Has a walk from token `first` on begin: all numbers are forgotten where that one stands behind their tokens.
    #[inline(always)]
    pub(crate) fn go_to(&mut self, first: usize)
        requires begin { self.old.begin ≤ first }
        ensures next { IsKnownOrNext first self.new }
        ensures numbers { (trie : DeclaredTrie) (tokens : SomeTokens) → AreAhead trie tokens self.old → AreAhead trie tokens self.new }
    {
        if first - self.begin >= self.numbers.len() {
            self.begin = first;
            self.numbers.clear();
        }
    }
}

/// The number of the folding of token `i`, which is put behind those of the tokens before it where it
/// isn't there yet.
#[inline(always)]
pub(crate) fn number_at(
    trie: &Trie,
    tokens: &SourceTokens<'_, '_>,
    i: usize,
    buffer: &mut String,
    ahead: &mut Ahead,
) -> Result<Option<usize>, OutOfMemory>
    requires trie { IsTrie trie.now }
    requires there { i < length tokens.now.tokens }
    requires numbers { AreAhead trie.now tokens.now ahead.old }
    requires next { IsKnownOrNext i ahead.old }
    ensures number { IfOk result (λ word. word ≡ get_by_text trie.now.words (folded (text_in tokens.now.doc (nth_extent tokens.now.tokens i)))) }
    ensures numbers { OnOk result (AreAhead trie.now tokens.now ahead.new) }
    ensures begin { ahead.new.begin ≡ ahead.old.begin }
    ensures past { OnOk result (i < ahead.new.begin + length ahead.new.numbers.items) }
{
    let nth = i - ahead.begin;
    if nth < ahead.numbers.len() {
        return Ok(ahead.numbers[nth]);
    }
    let word = number_of_folded(trie, tokens.text(i), buffer)?;
    ahead.numbers.push(word)?;
    Ok(word)
}
