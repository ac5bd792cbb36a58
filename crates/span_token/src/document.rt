ghost use Rattle.std.specs.Prelude.{ℕ, ◌≡◌, ◌≤◌, ◌<◌, length, slice_get, count_by, nat_lt, nat_le, take, slice_range, IfOk, IsUtf8, IsCharBoundary, option_map};
ghost use Rattle.span_token.specs.Limits.{text_limit};
ghost use Rattle.span_token.specs.Extents.{Extent, extent_of};
ghost use Rattle.span_token.specs.Tokens.{tokens_of, AreTokens};
ghost use Rattle.span_token.specs.Contexts.{AreWithin};
ghost use Rattle.span_token.specs.Places.{FitsTokens};
ghost use Rattle.span_token.specs.Offsets.{AreOffsets};
ghost use Rattle.span_token.specs.Leads.{leads, IsPlace};
ghost use Rattle.span_token.specs.Documents.{LiesIn, characters, len_of, whole_of, text_in, chars_before, moved};

use crate::offsets::TokenBytes;
use crate::places::Places;
use crate::tokens::{Tokens, tokens_with_bytes};
use crate::{OutOfMemory, Span};
use std::alloc::Global;
use std::marker::Model;

/// A text, borrowed, with its label, its tokens, and what tells its characters from its bytes.
///
/// Contracts see the bytes of the text and of the label alone. A document may be shared among
/// threads. No call but `new` and `plain` takes memory.
///
/// Meaning: `Doc`, `specs/Documents.antt`.
#[derive(Drop)]
pub struct Document<'d> {
    text: &'d str,
    label: Option<&'d str>,
    characters: u32,
    places: Places,
    tokens: Tokens,
    offsets: Vec<TokenBytes>,
}

impl<'d> Model for Document<'d> {
    ghost use Rattle.span_token.specs.Documents.{Doc};

    ghost Value = { Doc };

    ghost use Rattle.span_token.specs.Layout.{doc_of, IsLaidOut};

    ghost view = { doc_of };

    ghost invariant = { IsLaidOut };
}

impl<'d> Document<'d> {
    /// The document of `text`, which has at most 16,777,216 bytes, with its label.
    ///
    /// Finds the tokens and keeps them, 8 bytes each, in a list that grows by doubling. Where the text
    /// isn't ASCII, keeps their bytes too, 8 more for each, and a table of 4 bytes for each 64 bytes of
    /// text tells its characters from its bytes.
    pub fn new(
        alloc: Global,
        text: &'d str,
        label: Option<&'d str>,
    ) -> Result<Document<'d>, OutOfMemory>
        requires short { length text.now ≤ text_limit }
        ensures document { IfOk result (λ d. d ≡ record { text = text.now; label = option_map (λ l. l.now) label.entry }) }
    {
        let (spans, offsets) = tokens_with_bytes(alloc, text)?;
        Document::with_tokens(alloc, text, label, Tokens::Kept(spans), offsets)
    }

    /// The same document, for a caller that asks for no tokens.
    ///
    /// None are kept: each call that speaks of tokens gives the same answer, and goes through the
    /// whole text to find it.
    pub fn plain(
        alloc: Global,
        text: &'d str,
        label: Option<&'d str>,
    ) -> Result<Document<'d>, OutOfMemory>
        requires short { length text.now ≤ text_limit }
        ensures document { IfOk result (λ d. d ≡ record { text = text.now; label = option_map (λ l. l.now) label.entry }) }
    {
        Document::with_tokens(alloc, text, label, Tokens::Unkept, Vec::new(alloc))
    }

    /// The document with what is kept of its tokens, and with the bytes of the first ones.
    fn with_tokens(
        alloc: Global,
        text: &'d str,
        label: Option<&'d str>,
        tokens: Tokens,
        offsets: Vec<TokenBytes>,
    ) -> Result<Document<'d>, OutOfMemory>
        requires short { length text.now ≤ text_limit }
        requires fits { FitsTokens tokens text.now }
        requires offsets { AreOffsets text.now 0 offsets.items }
        ensures document { IfOk result (λ d. d ≡ record { text = text.now; label = option_map (λ l. l.now) label.entry }) }
    {
        let places = Places::of(alloc, text)?;
        let characters = places.leads_before(text, text.len()) as u32;
        Ok(Document {
            text,
            label,
            characters,
            places,
            tokens,
            offsets,
        })
    }

    /// The number of characters, which are Unicode scalar values.
    pub fn len(&self) -> u32
        ensures len { result ≡ len_of self.now }
        ensures short { result ≤ text_limit }
    {
        self.characters
    }

    /// The span of all characters: empty at 0 where there is none.
    pub fn whole(&self) -> Span
        ensures whole { extent_of result ≡ whole_of self.now }
        ensures in_document { LiesIn (extent_of result) self.now }
    {
        Span {
            begin: 0,
            end: self.characters,
        }
    }

    /// The label that the document was made with.
    pub fn label(&self) -> Option<&'d str>
        ensures { option_map (λ l. l.now) result ≡ self.now.label }
    {
        self.label
    }

    /// The text that the document was made of.
    pub fn text(&self) -> &'d str
        ensures text { result.now ≡ self.now.text }
        ensures short { length result.now ≤ text_limit }
    {
        self.text
    }

    /// The text of `span`, borrowed from the document's: empty for an empty span.
    ///
    /// Meaning: `text_in`, `specs/Documents.antt`.
    pub fn text_of(&self, span: Span) -> &'d str
        requires in_document { LiesIn (extent_of span) self.now }
        ensures text { result.now ≡ text_in self.now (extent_of span) }
        ensures whole { extent_of span ≡ whole_of self.now → result.now ≡ self.now.text }
    {
        let begin = self.byte_of(span.begin);
        let end = self.byte_behind(begin, span.begin, span.end);
        &self.text[begin..end]
    }

    /// The number of characters before byte `byte` of the text, counted from 0.
    ///
    /// A character begins at that byte, or the text ends there.
    pub fn char_at(&self, byte: u32) -> u32
        requires boundary { IsCharBoundary self.now.text byte }
        ensures char { result ≡ chars_before self.now.text byte }
        ensures within { result ≤ len_of self.now }
    {
        self.leads_before(byte as usize)
    }

    /// The bytes `from` to `to` of the text of `source`, as a span of the document.
    ///
    /// Bytes count from 0 at the begin of `source`, half-open, and each end stands where a character
    /// begins or the text of `source` ends. The span lies in `source`, and its text is those bytes.
    ///
    /// Meaning: `moved`, `specs/Documents.antt`.
    pub fn span_in(&self, source: Span, from: usize, to: usize) -> Span
        requires in_document { LiesIn (extent_of source) self.now }
        requires from { IsCharBoundary (text_in self.now (extent_of source)) from }
        requires to { IsCharBoundary (text_in self.now (extent_of source)) to }
        requires ordered { from ≤ to }
        ensures moved { extent_of result ≡ moved self.now (extent_of source) from to }
        ensures text { text_in self.now (extent_of result) ≡ slice_range (text_in self.now (extent_of source)) from to }
        ensures after { source.begin ≤ result.begin }
        ensures within { result.end ≤ source.end }
        ensures in_document { LiesIn (extent_of result) self.now }
    {
        let first = self.byte_of(source.begin);
        let at = first + from;
        let begin = self.leads_before(at);
        let end = self.leads_behind(at, begin, first + to);
        Span { begin, end }
    }

    /// The number of tokens.
    ///
    /// A token is a longest run of word characters, or a single character that is neither a word
    /// character nor White_Space. A word character is Alphabetic or of general category Nd, Nl, No,
    /// Mn or Mc.
    ///
    /// Meaning: `AreTokens`, `specs/Tokens.antt`.
    pub fn token_count(&self) -> u32
        ensures count { result ≡ length (tokens_of (characters self.now)) }
        ensures meaning { AreTokens (characters self.now) (tokens_of (characters self.now)) }
    {
        self.tokens.count(self.text)
    }

    /// Token `i`, counted from 0 in the order of the text.
    ///
    /// Tokens are not empty, and each ends at or before the begin of the next one.
    #[inline(always)]
    pub fn token(&self, i: u32) -> Span
        requires exists { i < length (tokens_of (characters self.now)) }
        ensures token { slice_get (tokens_of (characters self.now)) i ≡ Some (extent_of result) }
        ensures not_empty { result.begin < result.end }
        ensures apart { (j : ℕ) (u : Extent) → i < j → slice_get (tokens_of (characters self.now)) j ≡ Some u → result.end ≤ u.begin }
        ensures in_document { LiesIn (extent_of result) self.now }
    {
        self.tokens.get(self.text, i)
    }

    /// The numbers of the tokens wholly in `span`: the first, and one past the last.
    ///
    /// A token that sticks out of the span on either side isn't among them. Where there is none, both
    /// numbers are how many tokens begin before the span.
    ///
    /// Meaning: `AreWithin`, `specs/Contexts.antt`.
    pub fn tokens_in(&self, span: Span) -> (u32, u32)
        requires in_document { LiesIn (extent_of span) self.now }
        ensures tokens { AreWithin (tokens_of (characters self.now)) (extent_of span) result.0 result.1 }
        ensures first { result.0 ≡ count_by (λ t. nat_lt t.begin span.begin) (tokens_of (characters self.now)) }
    {
        let first = self.begun_before(span.begin);
        let past = self.ended_by(span.end);
        (first, first.max(past))
    }

    /// How many tokens begin before a place.
    pub(crate) fn begun_before(&self, place: u32) -> u32
        ensures { result ≡ count_by (λ t. nat_lt t.begin place) (tokens_of (characters self.now)) }
    {
        self.tokens.begun_before(self.text, place)
    }

    /// How many tokens end at or before a place.
    pub(crate) fn ended_by(&self, place: u32) -> u32
        ensures { result ≡ count_by (λ t. nat_le t.end place) (tokens_of (characters self.now)) }
    {
        self.tokens.ended_by(self.text, place)
    }

    /// The bytes of the tokens with these numbers, if they are kept, and else of none.
    ///
    /// The clause is met by an answer of none too, which only the time rests on.
    pub(crate) fn kept_bytes(&self, first: u32, past: u32) -> &[TokenBytes]
        requires ordered { first ≤ past }
        ensures { AreOffsets self.now.text first result.now }
    {
        if past as usize > self.offsets.len() {
            return &[];
        }
        &self.offsets[first as usize..past as usize]
    }

    /// The byte at which character `place` begins, or the text ends.
    fn byte_of(&self, place: u32) -> usize
        requires { place ≤ len_of self.now }
        ensures place { IsPlace self.now.text place result }
        ensures utf8 { IsUtf8 self.now.text }
        ensures short { length self.now.text ≤ text_limit }
    {
        self.places.byte_of(self.text, place)
    }

    /// The same, where the byte of an earlier character is known, which may be near or far, as ends of spans are.
    fn byte_behind(&self, from: usize, passed: u32, place: u32) -> usize
        requires from { IsPlace self.now.text passed from }
        requires ahead { passed ≤ place }
        requires exists { place ≤ len_of self.now }
        ensures place { IsPlace self.now.text place result }
    {
        self.places.byte_behind(self.text, from, passed, place)
    }

    /// How many characters begin before byte `byte`, where `passed` of them begin before an earlier byte.
    fn leads_behind(&self, from: usize, passed: u32, byte: usize) -> u32
        requires ordered { from ≤ byte }
        requires within { byte ≤ length self.now.text }
        requires passed { passed ≡ leads (take from self.now.text) }
        ensures leads { result ≡ leads (take byte self.now.text) }
    {
        self.places
            .leads_behind(self.text, from, passed as usize, byte) as u32
    }

    /// How many characters begin before byte `byte`.
    fn leads_before(&self, byte: usize) -> u32
        requires { byte ≤ length self.now.text }
        ensures leads { result ≡ leads (take byte self.now.text) }
        ensures utf8 { IsUtf8 self.now.text }
    {
        self.places.leads_before(self.text, byte) as u32
    }
}
