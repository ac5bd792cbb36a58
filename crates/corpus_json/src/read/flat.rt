//! Objects whose members are strings without escapes, as most lines of a corpus are: they are read without tokens.

ghost use Rattle.std.specs.Prelude.{◌≡◌, ◌+◌, ◌≤◌, ◌<◌, length, drop, get_or, map, IfSome};
ghost use Rattle.std.specs.List.{prefix_len};
ghost use Rattle.std.specs.Simd.Lanes.{mask_l};
ghost use Rattle.json.specs.Run.{is_plain, is_stop};
ghost use Rattle.corpus_json.specs.Flat.{IsObjectOf, IsMemberAt, IsPlainString, IsPastBlank};

use super::members::{Strings, with_member};
use std::simd::prelude::*;

/// Where a member of strings stands: the quote that ends its name, and the quotes around its string.
#[derive(Clone, Copy)]
pub(crate) struct Member {
    pub(crate) name_end: usize,
    pub(crate) from: usize,
    pub(crate) end: usize,
}

/// The strings of an object whose members are strings without escapes, with no more blanks than a space behind a
/// comma or a colon. None, which says nothing of the text, where it isn't written so.
pub(crate) fn flat_object<'d>(text: &'d str) -> Option<Strings<'d>>
    ensures { IfSome result (λ strings. IsObjectOf strings text.now) }
{
    let bytes = text.as_bytes();
    if byte_at(bytes, 0) != b'{' {
        return None;
    }
    let mut strings = Strings {
        text: None,
        label: None,
    };
    let mut at = 1;
    'members: while let Some(member) = flat_member(bytes, at) {
        let name = &text[at + 1..member.name_end];
        let string = &text[member.from + 1..member.end];
        strings = with_member(strings, name, Some(string));
        let past = member.end + 1;
        let next = byte_at(bytes, past);
        if next == b',' {
            at = past_blank(bytes, past + 1);
        } else if next == b'}' && past + 1 == bytes.len() {
            return Some(strings);
        } else {
            return None;
        }
    }
    None
}

/// The member that stands at a place.
#[inline(always)]
fn flat_member(bytes: &[u8], at: usize) -> Option<Member>
    ensures { IfSome result (IsMemberAt bytes.now at) }
{
    let name_end = string_end(bytes, at)?;
    if byte_at(bytes, name_end + 1) != b':' {
        return None;
    }
    let from = past_blank(bytes, name_end + 2);
    let end = string_end(bytes, from)?;
    Some(Member {
        name_end,
        from,
        end,
    })
}

/// The quote that ends a string without escapes, which begins with a quote at a place.
#[inline(always)]
fn string_end(bytes: &[u8], at: usize) -> Option<usize>
    ensures { IfSome result (IsPlainString bytes.now at) }
{
    if byte_at(bytes, at) != b'"' {
        return None;
    }
    let end = plain_end(bytes, at + 1);
    if byte_at(bytes, end) == b'"' {
        Some(end)
    } else {
        None
    }
}

/// The place behind a space, where one stands there, or else the place.
#[inline(always)]
fn past_blank(bytes: &[u8], at: usize) -> usize
    requires within { at ≤ length bytes.now }
    ensures { IsPastBlank bytes.now at result }
{
    if byte_at(bytes, at) == b' ' {
        at + 1
    } else {
        at
    }
}

/// The byte at a place, or 0 past the end.
#[inline(always)]
fn byte_at(bytes: &[u8], at: usize) -> u8
    ensures { result ≡ get_or bytes.now at 0 }
{
    if at < bytes.len() { bytes[at] } else { 0 }
}

#[inline(always)]
fn stops(v: u8x32) -> u64
    ensures { result ≡ mask_l (map is_stop v) }
{
    (v.simd_eq(u8x32::splat(b'"'))
        | v.simd_eq(u8x32::splat(b'\\'))
        | v.simd_lt(u8x32::splat(0x20))).to_bitmask()
}

#[inline(always)]
fn stops_16(v: u8x16) -> u64
    ensures { result ≡ mask_l (map is_stop v) }
{
    (v.simd_eq(u8x16::splat(b'"'))
        | v.simd_eq(u8x16::splat(b'\\'))
        | v.simd_lt(u8x16::splat(0x20))).to_bitmask()
}

/// The place of the first quote, backslash or control byte from a place on, or the end.
#[inline(always)]
fn plain_end(text: &[u8], from: usize) -> usize
    requires { from ≤ length text.now }
    ensures value { result ≡ from + prefix_len is_plain (drop from text.now) }
    ensures bound { result ≤ length text.now }
{
    let mut i = from;
    while text.len() - i >= 32 {
        let found = stops(u8x32::from_slice(&text[i..]));
        if found != 0 {
            return i + found.trailing_zeros() as usize;
        }
        i += 32;
    }
    plain_end_16(text, i)
}

/// The same of the last bytes, fewer than 32.
#[inline(always)]
fn plain_end_16(text: &[u8], from: usize) -> usize
    requires { from ≤ length text.now }
    ensures { result ≡ from + prefix_len is_plain (drop from text.now) }
{
    if text.len() - from < 16 {
        return plain_end_slowly(text, from);
    }
    let found = stops_16(u8x16::from_slice(&text[from..]));
    if found != 0 {
        return from + found.trailing_zeros() as usize;
    }
    plain_end_slowly(text, from + 16)
}

/// The same, byte by byte.
#[inline(always)]
fn plain_end_slowly(text: &[u8], from: usize) -> usize
    requires { from ≤ length text.now }
    ensures { result ≡ from + prefix_len is_plain (drop from text.now) }
{
    let mut i = from;
    while i < text.len() && text[i] != b'"' && text[i] != b'\\' && text[i] >= 0x20 {
        i += 1;
    }
    i
}
