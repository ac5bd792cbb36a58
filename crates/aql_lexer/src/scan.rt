//! What stands at the front of a text: white space, a comment, a token, or nothing of these.

ghost use Rattle.std.specs.Prelude.{◌≡◌, ◌≤◌, ◌<◌, ◌+◌, length, drop, slice_index, IfSome, true, false, not, ◌&&◌, ◌==◌};
ghost use Rattle.std.specs.Char.{is_ascii_digit};
ghost use Rattle.std.specs.List.{prefix_len};
ghost use Rattle.std.specs.Str.{IsCharBoundary};
ghost use Rattle.aql_lexer.specs.Scanning as spec;
ghost use Rattle.aql_lexer.specs.Tokens as bytes;

use crate::alphabet::{begins_word, goes_on_word, is_in_name};

/// What a part of a text is.
#[derive(Clone, Copy, Debug)]
pub enum Form {
    White,
    Comment,
    Word,
    Name,
    Int(i64),
    Str,
    Regex,
    Symbol(u8),
}

/// The sets of bytes that are taken at their longest.
#[derive(Clone, Copy, Debug)]
pub enum Run {
    Word,
    Digits,
    Name,
    Line,
}

/// The form at the front of `text` and its length in bytes, None where nothing stands there;
/// `at_start` says that nothing stands before `text`.
pub fn part_at(text: &str, at_start: bool) -> Option<(Form, usize)>
    requires { 1 ≤ length text.now }
    ensures value { result ≡ spec.stands at_start text.now }
    ensures cut { IfSome result (spec.IsCut text.now) }
{
    form_at(text, at_start)
}

fn form_at(text: &str, at_start: bool) -> Option<(Form, usize)>
    requires { 1 ≤ length text.now }
    ensures value { result ≡ spec.stands at_start text.now }
    ensures within { IfSome result (λ found. found.1 ≤ length text.now) }
{
    let b = text.as_bytes()[0];
    if begins_word(b) {
        Some((Form::Word, run_len(Run::Word, text.as_bytes())))
    } else if b.is_ascii_digit() {
        number(text, 0)
    } else if is_white(b) {
        Some((Form::White, 1))
    } else if is_symbol(b) {
        Some((Form::Symbol(b), 1))
    } else {
        marked(text, at_start)
    }
}

fn marked(text: &str, at_start: bool) -> Option<(Form, usize)>
    requires { 1 ≤ length text.now }
    ensures value { result ≡ spec.marked at_start text.now }
    ensures within { IfSome result (λ found. found.1 ≤ length text.now) }
{
    let z = text.as_bytes();
    match z[0] {
        b'-' => minus(text),
        b'/' => slash(z),
        b'"' => quoted_name(z),
        b'\'' => string(z),
        _ => {
            if at_start && begins_mark(z) {
                Some((Form::White, 3))
            } else {
                None
            }
        }
    }
}

fn begins_mark(z: &[u8]) -> bool
    ensures value { result ≡ spec.begins_mark z.now }
    ensures within { result ≡ true → 3 ≤ length z.now }
{
    byte(z, 0) == 0xef && byte(z, 1) == 0xbb && byte(z, 2) == 0xbf
}

fn minus(text: &str) -> Option<(Form, usize)>
    requires some { 1 ≤ length text.now }
    requires front { slice_index text.now 0 ≡ 45 }
    ensures value { result ≡ spec.minus text.now }
    ensures within { IfSome result (λ found. found.1 ≤ length text.now) }
{
    let next = byte(text.as_bytes(), 1);
    if next == b'-' {
        line_comment(text.as_bytes())
    } else if next.is_ascii_digit() {
        number(text, 1)
    } else {
        None
    }
}

/// The number at the front of `text`, behind `sign` bytes of sign.
fn number(text: &str, sign: usize) -> Option<(Form, usize)>
    requires signed { spec.IsSign sign text.now }
    requires digit { is_ascii_digit (slice_index text.now sign) ≡ true }
    ensures value { result ≡ spec.number sign text.now }
    ensures within { IfSome result (λ found. found.1 ≤ length text.now) }
{
    let len = digits_end(text, sign);
    match text[..len].parse() {
        Ok(value) => Some((Form::Int(value), len)),
        Err(_) => None,
    }
}

/// The end of the digits that begin at `sign`.
fn digits_end(text: &str, sign: usize) -> usize
    requires { is_ascii_digit (slice_index text.now sign) ≡ true }
    ensures value { result ≡ sign + prefix_len is_ascii_digit (drop sign text.now) }
    ensures some { sign < result }
    ensures boundary { IsCharBoundary text.now result }
{
    sign + run_len(Run::Digits, &text.as_bytes()[sign..])
}

fn slash(z: &[u8]) -> Option<(Form, usize)>
    requires { 1 ≤ length z.now }
    ensures value { result ≡ spec.slash z.now }
    ensures within { IfSome result (λ found. found.1 ≤ length z.now) }
{
    if byte(z, 1) == b'*' {
        block_comment(z)
    } else {
        pattern(z)
    }
}

fn pattern(z: &[u8]) -> Option<(Form, usize)>
    requires { 1 ≤ length z.now }
    ensures value { result ≡ spec.pattern z.now }
    ensures within { IfSome result (λ found. found.1 ≤ length z.now) }
{
    match closing(b'/', &z[1..]) {
        Some(len) => on_one_line(z, len + 2),
        None => None,
    }
}

fn on_one_line(z: &[u8], len: usize) -> Option<(Form, usize)>
    requires { len ≤ length z.now }
    ensures value { result ≡ spec.on_one_line z.now len }
    ensures within { IfSome result (λ found. found.1 ≤ length z.now) }
{
    if run_len(Run::Line, &z[..len]) == len {
        Some((Form::Regex, len))
    } else {
        None
    }
}

fn string(z: &[u8]) -> Option<(Form, usize)>
    requires { 1 ≤ length z.now }
    ensures value { result ≡ spec.string z.now }
    ensures within { IfSome result (λ found. found.1 ≤ length z.now) }
{
    match closing(b'\'', &z[1..]) {
        Some(len) => Some((Form::Str, len + 2)),
        None => None,
    }
}

fn quoted_name(z: &[u8]) -> Option<(Form, usize)>
    requires { 1 ≤ length z.now }
    ensures value { result ≡ spec.quoted_name z.now }
    ensures within { IfSome result (λ found. found.1 ≤ length z.now) }
{
    let len = run_len(Run::Name, &z[1..]);
    if byte(z, len + 1) == b'"' && len != 0 {
        Some((Form::Name, len + 2))
    } else {
        None
    }
}

fn block_comment(z: &[u8]) -> Option<(Form, usize)>
    requires { 2 ≤ length z.now }
    ensures value { result ≡ spec.block_comment z.now }
    ensures within { IfSome result (λ found. found.1 ≤ length z.now) }
{
    match block_end(&z[2..]) {
        Some(len) => Some((Form::Comment, len + 4)),
        None => None,
    }
}

fn line_comment(z: &[u8]) -> Option<(Form, usize)>
    requires { 2 ≤ length z.now }
    ensures value { result ≡ spec.line_comment z.now }
    ensures within { IfSome result (λ found. found.1 ≤ length z.now) }
{
    Some((Form::Comment, 2 + run_len(Run::Line, &z[2..])))
}

/// How many bytes stand before the first `*/`.
fn block_end(z: &[u8]) -> Option<usize>
    ensures value { result ≡ spec.block_end_from 0 z.now }
    ensures within { IfSome result (λ len. len + 1 < length z.now) }
{
    for (at, b) in z.iter().enumerate() {
        if *b == b'*' && byte(z, at + 1) == b'/' {
            return Some(at);
        }
    }
    None
}

/// How many bytes stand before the first `quote` that is in no pair with a backslash.
fn closing(quote: u8, z: &[u8]) -> Option<usize>
    ensures value { result ≡ spec.closing_from quote false 0 z.now }
    ensures within { IfSome result (λ len. len < length z.now) }
{
    let mut in_pair = false;
    for (at, b) in z.iter().enumerate() {
        if closes(quote, in_pair, *b) {
            return Some(at);
        }
        in_pair = begins_pair(in_pair, *b);
    }
    None
}

fn begins_pair(in_pair: bool, b: u8) -> bool
    ensures { result ≡ (not in_pair && b == 92) }
{
    !in_pair && b == b'\\'
}

fn closes(quote: u8, in_pair: bool, b: u8) -> bool
    ensures { result ≡ (not in_pair && b == quote) }
{
    !in_pair && b == quote
}

/// The byte at `at`, 0 past the end.
fn byte(z: &[u8], at: usize) -> u8
    ensures { result ≡ slice_index z.now at }
{
    if at < z.len() { z[at] } else { 0 }
}

/// How many bytes at the front of `z` belong to `run`.
fn run_len(run: Run, z: &[u8]) -> usize
    ensures value { result ≡ prefix_len (spec.goes_on run) z.now }
    ensures within { result ≤ length z.now }
{
    for (at, b) in z.iter().enumerate() {
        if !goes_on(run, *b) {
            return at;
        }
    }
    z.len()
}

fn goes_on(run: Run, b: u8) -> bool
    ensures { result ≡ spec.goes_on run b }
{
    match run {
        Run::Word => goes_on_word(b),
        Run::Digits => b.is_ascii_digit(),
        Run::Name => is_in_name(b),
        Run::Line => b != b'\n',
    }
}

fn is_symbol(b: u8) -> bool
    ensures { result ≡ bytes.is_symbol b }
{
    match b {
        b'(' | b')' | b',' | b'.' | b';' | b'*' | b'<' | b'>' | b'{' | b'}' => true,
        _ => false,
    }
}

fn is_white(b: u8) -> bool
    ensures { result ≡ bytes.is_white b }
{
    b == b' ' || b == b'\t' || b == b'\r' || b == b'\n' || b == 0x0c
}
