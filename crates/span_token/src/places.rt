ghost use Rattle.std.specs.Prelude.{◌≡◌, ◌≤◌, ◌<◌, length, slice_index, take, IfOk};
ghost use Rattle.span_token.specs.Limits.{text_limit};
ghost use Rattle.span_token.specs.Leads.{leads, IsPlace};
ghost use Rattle.span_token.specs.Places.{AreBlockCounts, FitsText};

use crate::OutOfMemory;
use crate::leads::{count_leads, seek};
use std::alloc::Global;

/// How many bytes a block has.
const BLOCK: usize = 64;

/// How near behind another one a character is sought from that one on.
const NEAR: u32 = 64;

/// What a text needs beside its bytes so that characters are found: nothing where it is ASCII.
#[derive(Drop)]
pub(crate) enum Places {
    /// Each character is one byte.
    Ascii,
    /// How many characters begin before each block of bytes.
    Blocks(Vec<u32>),
}

impl Places {
    /// What `text` needs.
    pub(crate) fn of(alloc: Global, text: &str) -> Result<Places, OutOfMemory>
        requires { length text.now ≤ text_limit }
        ensures { IfOk result (λ places. FitsText places text.now) }
    {
        if text.is_ascii() {
            return Ok(Places::Ascii);
        }
        let counts = block_counts(alloc, text.as_bytes())?;
        Ok(Places::Blocks(counts))
    }

    /// How many characters begin before byte `byte` of `text`.
    pub(crate) fn leads_before(&self, text: &str, byte: usize) -> usize
        requires fits { FitsText self.now text.now }
        requires within { byte ≤ length text.now }
        ensures { result ≡ leads (take byte text.now) }
    {
        match self {
            Places::Ascii => byte,
            Places::Blocks(counts) => counted_before(counts, text.as_bytes(), byte),
        }
    }

    /// The byte of `text` at which character `place` begins, or the text ends.
    #[inline(always)]
    pub(crate) fn byte_of(&self, text: &str, place: u32) -> usize
        requires fits { FitsText self.now text.now }
        requires exists { place ≤ leads text.now }
        ensures { IsPlace text.now place result }
    {
        match self {
            Places::Ascii => place as usize,
            Places::Blocks(counts) => sought(counts, text, place),
        }
    }

    /// How many characters begin before byte `byte`, where `passed` of them begin before an earlier byte.
    pub(crate) fn leads_behind(&self, text: &str, from: usize, passed: usize, byte: usize) -> usize
        requires fits { FitsText self.now text.now }
        requires ordered { from ≤ byte }
        requires within { byte ≤ length text.now }
        requires passed { passed ≡ leads (take from text.now) }
        ensures { result ≡ leads (take byte text.now) }
    {
        match self {
            Places::Ascii => byte,
            Places::Blocks(counts) => {
                if byte - from <= BLOCK {
                    passed + count_leads(&text.as_bytes()[from..byte])
                } else {
                    counted_before(counts, text.as_bytes(), byte)
                }
            }
        }
    }

    /// The byte at which character `place` begins, or the text ends, where the byte of an earlier character is known,
    /// which may be near or far, as ends of spans are.
    #[inline(always)]
    pub(crate) fn byte_behind(&self, text: &str, from: usize, passed: u32, place: u32) -> usize
        requires fits { FitsText self.now text.now }
        requires from { IsPlace text.now passed from }
        requires ahead { passed ≤ place }
        requires exists { place ≤ leads text.now }
        ensures { IsPlace text.now place result }
    {
        match self {
            Places::Ascii => place as usize,
            Places::Blocks(counts) => {
                if place - passed <= NEAR {
                    seek(text, from, passed, place)
                } else {
                    sought(counts, text, place)
                }
            }
        }
    }
}

/// How many characters of `bytes` begin before each block.
fn block_counts(alloc: Global, bytes: &[u8]) -> Result<Vec<u32>, OutOfMemory>
    requires { length bytes.now ≤ text_limit }
    ensures { IfOk result (λ counts. AreBlockCounts counts.items bytes.now) }
{
    let blocks = bytes.len() / BLOCK;
    let mut counts = Vec::with_capacity(alloc, blocks + 1)?;
    let mut passed = 0;
    counts.push(passed)?;
    for block in 0..blocks {
        let begin = BLOCK * block;
        passed += count_leads(&bytes[begin..begin + BLOCK]) as u32;
        counts.push(passed)?;
    }
    Ok(counts)
}

/// How many characters begin before byte `byte`: those before its block, and those in its block.
fn counted_before(counts: &[u32], bytes: &[u8], byte: usize) -> usize
    requires counts { AreBlockCounts counts.now bytes.now }
    requires within { byte ≤ length bytes.now }
    ensures { result ≡ leads (take byte bytes.now) }
{
    let block = byte / BLOCK;
    counts[block] as usize + count_leads(&bytes[BLOCK * block..byte])
}

/// The byte at which character `place` begins, sought in the last block before which no more begin.
#[inline(never)]
fn sought(counts: &[u32], text: &str, place: u32) -> usize
    requires counts { AreBlockCounts counts.now text.now }
    requires exists { place ≤ leads text.now }
    ensures { IsPlace text.now place result }
{
    let block = block_of(counts, place);
    seek(text, BLOCK * block, counts[block], place)
}

/// A block before which at most `place` characters begin: the last one, as counts rise. It is looked for from where it
/// would be if all blocks had as many characters.
fn block_of(counts: &[u32], place: u32) -> usize
    requires some { 0 < length counts.now }
    requires first { slice_index counts.now 0 ≤ place }
    ensures there { result < length counts.now }
    ensures passed { slice_index counts.now result ≤ place }
{
    let guess = guess_of(counts, place);
    if counts[guess] <= place {
        block_from(counts, guess, place)
    } else {
        block_before(counts, guess, place)
    }
}

/// About where the block of a character is.
fn guess_of(counts: &[u32], place: u32) -> usize
    requires some { 0 < length counts.now }
    ensures there { result < length counts.now }
{
    let last = counts.len() - 1;
    let all = counts[last];
    if place >= all {
        last
    } else {
        let guess = u64::from(place).saturating_mul(last as u64) / u64::from(all);
        last.min(guess as usize)
    }
}

/// The last block from one on before which at most `place` characters begin, in steps that double.
fn block_from(counts: &[u32], from: usize, place: u32) -> usize
    requires there { from < length counts.now }
    requires passed { slice_index counts.now from ≤ place }
    ensures there { result < length counts.now }
    ensures passed { slice_index counts.now result ≤ place }
{
    let mut low = from;
    let mut step = 1;
    'steps: while step < counts.len() - low && counts[low + step] <= place {
        low += step;
        step *= 2;
    }
    block_between(counts, low, counts.len().min(low + step), place)
}

/// The last block before one, before which more begin, that has at most `place` characters before it.
fn block_before(counts: &[u32], before: usize, place: u32) -> usize
    requires there { before < length counts.now }
    requires first { slice_index counts.now 0 ≤ place }
    requires more { place < slice_index counts.now before }
    ensures there { result < length counts.now }
    ensures passed { slice_index counts.now result ≤ place }
{
    let mut high = before;
    let mut step = 1;
    'steps: while step < high && counts[high - step] > place {
        high -= step;
        step *= 2;
    }
    if step < high {
        block_between(counts, high - step, high, place)
    } else {
        block_between(counts, 0, high, place)
    }
}

/// The last block between two before which at most `place` characters begin, by halves.
fn block_between(counts: &[u32], low: usize, high: usize, place: u32) -> usize
    requires ordered { low < high }
    requires there { high ≤ length counts.now }
    requires passed { slice_index counts.now low ≤ place }
    ensures there { result < length counts.now }
    ensures passed { slice_index counts.now result ≤ place }
{
    let mut low = low;
    let mut high = high;
    'halves: while high - low > 1 {
        let middle = low + (high - low) / 2;
        if counts[middle] <= place {
            low = middle;
        } else {
            high = middle;
        }
    }
    low
}
