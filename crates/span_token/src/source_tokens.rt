ghost use Rattle.std.specs.Prelude.{◌≡◌, ◌≤◌, ◌<◌, length};
ghost use Rattle.span_token.specs.Documents.{LiesIn, characters, text_in};
ghost use Rattle.span_token.specs.Extents.{extent_of, nth_extent};
ghost use Rattle.span_token.specs.SourceTokens.{InTextOrder, HoldsTokens, tokens_in, run_extent};
ghost use Rattle.span_token.specs.Tokens.{tokens_of};

use crate::offsets::TokenBytes;
use crate::{Document, Span};
use std::marker::Model;

/// Tokens of a document that stand in a row, with the bytes at which each begins and ends, where the
/// document keeps them: the text of a run of them is found without a search. Contracts see the document
/// and these tokens.
///
/// Tokens have numbers from 0 on. No call takes memory.
#[derive(Drop)]
pub struct SourceTokens<'a, 'd> {
    doc: &'a Document<'d>,
    first: u32,
    past: u32,
    offsets: &'a [TokenBytes],
}

impl<'a, 'd> Model for SourceTokens<'a, 'd> {
    ghost use Rattle.span_token.specs.SourceTokens.{SomeTokens};

    ghost Value = { SomeTokens };

    ghost use Rattle.span_token.specs.SourceLayout.{tokens_seen, AreKept};

    ghost view = { tokens_seen };

    ghost invariant = { AreKept };
}

impl<'a, 'd> SourceTokens<'a, 'd> {
    /// The tokens wholly in `source`.
    ///
    /// Meaning: `tokens_in`, `specs/SourceTokens.antt`.
    pub fn of(doc: &'a Document<'d>, source: Span) -> SourceTokens<'a, 'd>
        requires in_document { LiesIn (extent_of source) doc.now }
        ensures doc { result.doc ≡ doc.now }
        ensures tokens { result.tokens ≡ tokens_in doc.now (extent_of source) }
        ensures within { HoldsTokens (extent_of source) result.tokens }
    {
        let (first, past) = doc.tokens_in(source);
        let offsets = doc.kept_bytes(first, past);
        SourceTokens {
            doc,
            first,
            past,
            offsets,
        }
    }

    /// All tokens of `doc`.
    pub fn all(doc: &'a Document<'d>) -> SourceTokens<'a, 'd>
        ensures doc { result.doc ≡ doc.now }
        ensures tokens { result.tokens ≡ tokens_of (characters doc.now) }
    {
        let past = doc.token_count();
        let offsets = doc.kept_bytes(0, past);
        SourceTokens {
            doc,
            first: 0,
            past,
            offsets,
        }
    }

    /// The document that they are of.
    pub fn doc(&self) -> &'a Document<'d>
        ensures doc { result.now ≡ self.now.doc }
    {
        self.doc
    }

    /// How many they are. They aren't empty, and stand apart in the order of the text.
    pub fn len(&self) -> usize
        ensures len { result ≡ length self.now.tokens }
        ensures order { InTextOrder self.now.tokens }
    {
        (self.past - self.first) as usize
    }

    /// Token `i`.
    #[inline(always)]
    pub fn get(&self, i: usize) -> Span
        requires there { i < length self.now.tokens }
        ensures token { extent_of result ≡ nth_extent self.now.tokens i }
        ensures order { InTextOrder self.now.tokens }
        ensures in_document { LiesIn (extent_of result) self.now.doc }
    {
        self.doc.token(self.first + i as u32)
    }

    /// The text of token `i`.
    #[inline(always)]
    pub fn text(&self, i: usize) -> &'d str
        requires there { i < length self.now.tokens }
        ensures text { result.now ≡ text_in self.now.doc (nth_extent self.now.tokens i) }
    {
        self.run_text(i, i)
    }

    /// From the begin of token `first` to the end of token `last`.
    ///
    /// Meaning: `run_extent`, `specs/SourceTokens.antt`.
    pub fn run(&self, first: usize, last: usize) -> Span
        requires in_order { first ≤ last }
        requires there { last < length self.now.tokens }
        ensures run { extent_of result ≡ run_extent self.now.tokens first last }
        ensures in_document { LiesIn (extent_of result) self.now.doc }
    {
        let begin = self.get(first).begin;
        let end = self.get(last).end;
        Span { begin, end }
    }

    /// The text from the begin of token `first` to the end of token `last`.
    #[inline(always)]
    pub fn run_text(&self, first: usize, last: usize) -> &'d str
        requires in_order { first ≤ last }
        requires there { last < length self.now.tokens }
        ensures text { result.now ≡ text_in self.now.doc (run_extent self.now.tokens first last) }
    {
        let offsets = self.offsets;
        if last >= offsets.len() {
            return self.doc.text_of(self.run(first, last));
        }
        let begin = offsets[first].begin as usize;
        let end = offsets[last].end as usize;
        let text = self.doc.text();
        &text[begin..end]
    }
}
