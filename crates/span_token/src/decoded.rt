ghost use Rattle.std.specs.Prelude.{◌≡◌, ◌≤◌, ◌+◌, ◌++◌, List, true, false, length, map, take, chars, IfOk};
ghost use Rattle.span_token.specs.Limits.{text_limit};
ghost use Rattle.span_token.specs.Extents.{Extent, extent_of};
ghost use Rattle.span_token.specs.Offsets.{AreOffsets, ArePairs};
ghost use Rattle.span_token.specs.Tokens.{tokens_of};
ghost use Rattle.span_token.specs.Sweeps.{IsSwept};
ghost use Rattle.span_token.specs.TextSweeps.{IsAtPoint};

use crate::ascii::STRETCH;
use crate::offsets::TokenBytes;
use crate::points::{Point, step};
use crate::sweep::Sweep;
use crate::{OutOfMemory, Span};
use std::alloc::Global;

/// A sweep over the characters of a text, at the point that it came to.
#[derive(Clone, Copy)]
struct TextSweep {
    at: Point,
    sweep: Sweep,
    /// The byte at which the character begins that the sweep has as its token's first.
    begin_byte: usize,
}

/// What a sweep over a stretch of a text came to.
#[derive(Clone, Copy)]
struct Stretch {
    /// The sweep behind the stretch.
    behind: TextSweep,
    /// How many tokens ended.
    count: usize,
    /// Whether the text ended.
    is_last: bool,
}

/// The tokens of a text, and the bytes of each.
pub(crate) fn decoded_tokens(
    alloc: Global,
    text: &str,
) -> Result<(Vec<Span>, Vec<TokenBytes>), OutOfMemory>
    requires short { length text.now ≤ text_limit }
    ensures tokens { IfOk result (λ found. map extent_of found.0.items ≡ tokens_of (chars text.now)) }
    ensures bytes { IfOk result (λ found. AreOffsets text.now 0 found.1.items) }
{
    let mut spans = Vec::new(alloc);
    let mut offsets = Vec::new(alloc);
    let mut ended = [Span { begin: 0, end: 0 }; STRETCH];
    let mut bytes = [TokenBytes { begin: 0, end: 0 }; STRETCH];
    let mut text_sweep = TextSweep {
        at: Point { byte: 0, place: 0 },
        sweep: Sweep::new(),
        begin_byte: 0,
    };
    loop {
        let stretch = sweep_stretch(text, text_sweep, &mut ended, &mut bytes);
        spans.extend_from_slice(&ended[..stretch.count])?;
        offsets.extend_from_slice(&bytes[..stretch.count])?;
        text_sweep = stretch.behind;
        if stretch.is_last {
            break;
        }
    }
    if text_sweep.sweep.is_in_token() {
        spans.push(text_sweep.span())?;
        offsets.push(text_sweep.bytes())?;
    }
    Ok((spans, offsets))
}

impl TextSweep {
    /// The token of the last character, if it ends here.
    #[inline(always)]
    fn span(&self) -> Span
        requires { self.now.sweep.begin ≤ self.now.at.place }
        ensures { extent_of result ≡ record { begin = self.now.sweep.begin; end = self.now.at.place } }
    {
        Span {
            begin: self.sweep.begin,
            end: self.at.place,
        }
    }

    /// The bytes of that token.
    #[inline(always)]
    fn bytes(&self) -> TokenBytes
        requires within { self.now.at.byte ≤ text_limit }
        requires begun { self.now.begin_byte ≤ text_limit }
        ensures { result ≡ record { begin = self.now.begin_byte; end = self.now.at.byte } }
    {
        TokenBytes {
            begin: self.begin_byte as u32,
            end: self.at.byte as u32,
        }
    }
}

/// The sweep behind the next characters, as many as a stretch has or the text. The tokens that ended
/// before one of them stand in `ended`, and their bytes in `bytes`.
fn sweep_stretch(
    text: &str,
    from: TextSweep,
    ended: &mut [Span; STRETCH],
    bytes: &mut [TokenBytes; STRETCH],
) -> Stretch
    requires short { length text.now ≤ text_limit }
    requires point { IsAtPoint text.now from }
    ensures count { result.count ≤ 64 }
    ensures point { IsAtPoint text.now result.behind }
    ensures tokens { (found : List Extent) → IsSwept (chars text.now) found from.at.place from.sweep.begin from.sweep.last →
        IsSwept (chars text.now) (found ++ map extent_of (take result.count ended.new)) result.behind.at.place result.behind.sweep.begin result.behind.sweep.last }
    ensures pairs { ArePairs text.now (map extent_of (take result.count ended.new)) (take result.count bytes.new) }
    ensures last { result.is_last ≡ true → result.behind.at.place ≡ length (chars text.now) }
    ensures onward { result.is_last ≡ false → result.behind.at.place ≡ from.at.place + 64 }
{
    let mut text_sweep = from;
    let mut count = 0;
    for _ in 0..STRETCH {
        let Some((class, next)) = step(text, text_sweep.at) else {
            return Stretch {
                behind: text_sweep,
                count,
                is_last: true,
            };
        };
        ended[count] = text_sweep.span();
        bytes[count] = text_sweep.bytes();
        count += usize::from(text_sweep.sweep.ends_before(class));
        text_sweep = TextSweep {
            begin_byte: if text_sweep.sweep.begins_at(class) {
                text_sweep.at.byte
            } else {
                text_sweep.begin_byte
            },
            sweep: text_sweep.sweep.past(text_sweep.at.place, class),
            at: next,
        };
    }
    Stretch {
        behind: text_sweep,
        count,
        is_last: false,
    }
}
