ghost use Rattle.std.specs.Prelude.{◌≡◌, ◌≤◌, ◌<◌, length, map, chars, IfOk, count_by, nat_lt, nat_le, slice_get, option_map};
ghost use Rattle.span_token.specs.Limits.{text_limit};
ghost use Rattle.span_token.specs.Extents.{extent_of};
ghost use Rattle.span_token.specs.Tokens.{tokens_of, AreTokens};
ghost use Rattle.span_token.specs.Places.{FitsTokens};
ghost use Rattle.span_token.specs.Offsets.{AreOffsets};

use crate::ascii::ascii_tokens;
use crate::decoded::decoded_tokens;
use crate::offsets::TokenBytes;
use crate::scan::TokenScan;
use crate::{OutOfMemory, Span};
use std::alloc::Global;

/// The tokens of a text of at most 16,777,216 bytes, by the rule of a document's tokens.
///
/// Spans count characters of `text`.
///
/// Meaning: `AreTokens`, `specs/Tokens.antt`.
pub fn tokens_of_text(alloc: Global, text: &str) -> Result<Vec<Span>, OutOfMemory>
    requires short { length text.now ≤ text_limit }
    ensures list { IfOk result (λ spans. map extent_of spans.items ≡ tokens_of (chars text.now)) }
    ensures meaning { IfOk result (λ spans. AreTokens (chars text.now) (map extent_of spans.items)) }
{
    let (spans, _) = tokens_with_bytes(alloc, text)?;
    Ok(spans)
}

/// The tokens of a text, and the bytes of each; no bytes where the text is ASCII, whose characters are
/// its bytes.
pub(crate) fn tokens_with_bytes(
    alloc: Global,
    text: &str,
) -> Result<(Vec<Span>, Vec<TokenBytes>), OutOfMemory>
    requires short { length text.now ≤ text_limit }
    ensures tokens { IfOk result (λ found. map extent_of found.0.items ≡ tokens_of (chars text.now)) }
    ensures bytes { IfOk result (λ found. AreOffsets text.now 0 found.1.items) }
{
    if text.is_ascii() {
        let spans = ascii_tokens(alloc, text.as_bytes())?;
        return Ok((spans, Vec::new(alloc)));
    }
    decoded_tokens(alloc, text)
}

/// The tokens of a document's text: kept, or found anew at each call.
#[derive(Drop)]
pub(crate) enum Tokens {
    Kept(Vec<Span>),
    Unkept,
}

impl Tokens {
    /// How many tokens `text` has.
    pub(crate) fn count(&self, text: &str) -> u32
        requires fits { FitsTokens self.now text.now }
        requires short { length text.now ≤ text_limit }
        ensures { result ≡ length (tokens_of (chars text.now)) }
    {
        match self {
            Tokens::Kept(spans) => spans.len() as u32,
            Tokens::Unkept => count_found(text),
        }
    }

    /// Token `i` of `text`.
    #[inline(always)]
    pub(crate) fn get(&self, text: &str, i: u32) -> Span
        requires fits { FitsTokens self.now text.now }
        requires short { length text.now ≤ text_limit }
        requires exists { i < length (tokens_of (chars text.now)) }
        ensures { slice_get (tokens_of (chars text.now)) i ≡ Some (extent_of result) }
    {
        match self {
            Tokens::Kept(spans) => spans[i as usize],
            Tokens::Unkept => nth_found(text, i).unwrap(),
        }
    }

    /// How many tokens of `text` begin before a place.
    pub(crate) fn begun_before(&self, text: &str, place: u32) -> u32
        requires fits { FitsTokens self.now text.now }
        requires short { length text.now ≤ text_limit }
        ensures { result ≡ count_by (λ t. nat_lt t.begin place) (tokens_of (chars text.now)) }
    {
        match self {
            Tokens::Kept(spans) => spans.partition_point(|span| span.begin < place) as u32,
            Tokens::Unkept => count_begun(text, place),
        }
    }

    /// How many tokens of `text` end at or before a place.
    pub(crate) fn ended_by(&self, text: &str, place: u32) -> u32
        requires fits { FitsTokens self.now text.now }
        requires short { length text.now ≤ text_limit }
        ensures { result ≡ count_by (λ t. nat_le t.end place) (tokens_of (chars text.now)) }
    {
        match self {
            Tokens::Kept(spans) => spans.partition_point(|span| span.end <= place) as u32,
            Tokens::Unkept => count_ended(text, place),
        }
    }
}

/// The number of tokens, found one by one.
fn count_found(text: &str) -> u32
    requires { length text.now ≤ text_limit }
    ensures { result ≡ length (tokens_of (chars text.now)) }
{
    let mut count = 0;
    let mut scan = TokenScan::new(text);
    while let Some(_) = scan.next() {
        count += 1;
    }
    count
}

/// Token `i`, found after those before it; None where there are fewer.
#[inline(never)]
fn nth_found(text: &str, i: u32) -> Option<Span>
    requires { length text.now ≤ text_limit }
    ensures { option_map extent_of result ≡ slice_get (tokens_of (chars text.now)) i }
{
    let mut before = i;
    let mut scan = TokenScan::new(text);
    while let Some(span) = scan.next() {
        if before == 0 {
            return Some(span);
        }
        before -= 1;
    }
    None
}

/// The number of tokens that begin before a place, found one by one.
fn count_begun(text: &str, place: u32) -> u32
    requires { length text.now ≤ text_limit }
    ensures { result ≡ count_by (λ t. nat_lt t.begin place) (tokens_of (chars text.now)) }
{
    let mut count = 0;
    let mut scan = TokenScan::new(text);
    while let Some(span) = scan.next() {
        if span.begin < place {
            count += 1;
        }
    }
    count
}

/// The number of tokens that end at or before a place, found one by one.
fn count_ended(text: &str, place: u32) -> u32
    requires { length text.now ≤ text_limit }
    ensures { result ≡ count_by (λ t. nat_le t.end place) (tokens_of (chars text.now)) }
{
    let mut count = 0;
    let mut scan = TokenScan::new(text);
    while let Some(span) = scan.next() {
        if span.end <= place {
            count += 1;
        }
    }
    count
}
