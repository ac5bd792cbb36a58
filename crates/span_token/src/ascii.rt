ghost use Rattle.std.specs.Prelude.{◌≡◌, ◌≤◌, ◌+◌, ◌++◌, List, length, map, take, IfOk, IsAscii};
ghost use Rattle.span_token.specs.Limits.{text_limit};
ghost use Rattle.span_token.specs.Extents.{Extent, extent_of};
ghost use Rattle.span_token.specs.Tokens.{tokens_of};
ghost use Rattle.span_token.specs.Sweeps.{IsSwept};

use crate::classes::class_of_ascii;
use crate::sweep::Sweep;
use crate::{OutOfMemory, Span};
use std::alloc::Global;

/// How many bytes are looked at before the tokens that ended among them are put into the list.
pub(crate) const STRETCH: usize = 64;

/// The tokens of an ASCII text, in which each byte is a character.
pub(crate) fn ascii_tokens(alloc: Global, bytes: &[u8]) -> Result<Vec<Span>, OutOfMemory>
    requires ascii { IsAscii bytes.now }
    requires short { length bytes.now ≤ text_limit }
    ensures { IfOk result (λ spans. map extent_of spans.items ≡ tokens_of bytes.now) }
{
    let mut spans = Vec::new(alloc);
    let mut ended = [Span { begin: 0, end: 0 }; STRETCH];
    let mut sweep = Sweep::new();
    let mut at = 0;
    while at < bytes.len() {
        let past = bytes.len().min(at + STRETCH);
        let (next, count) = sweep_stretch(bytes, at, past, sweep, &mut ended);
        spans.extend_from_slice(&ended[..count])?;
        sweep = next;
        at = past;
    }
    if sweep.is_in_token() {
        spans.push(Span {
            begin: sweep.begin,
            end: at as u32,
        })?;
    }
    Ok(spans)
}

/// The sweep behind the bytes `from` to `past`, and how many tokens ended before one of them: these stand
/// in `ended`. Each byte does the same work, whatever it is, since where tokens end can't be foreseen.
fn sweep_stretch(
    bytes: &[u8],
    from: usize,
    past: usize,
    sweep: Sweep,
    ended: &mut [Span; STRETCH],
) -> (Sweep, usize)
    requires ascii { IsAscii bytes.now }
    requires short { length bytes.now ≤ text_limit }
    requires ordered { from ≤ past }
    requires near { past ≤ from + 64 }
    requires within { past ≤ length bytes.now }
    requires begun { sweep.begin ≤ from }
    ensures count { result.1 ≤ 64 }
    ensures begun { result.0.begin ≤ past }
    ensures tokens { (found : List Extent) → IsSwept bytes.now found from sweep.begin sweep.last →
        IsSwept bytes.now (found ++ map extent_of (take result.1 ended.new)) past result.0.begin result.0.last }
{
    let mut sweep = sweep;
    let mut count = 0;
    for at in from..past {
        let class = class_of_ascii(bytes[at]);
        ended[count] = Span {
            begin: sweep.begin,
            end: at as u32,
        };
        count += usize::from(sweep.ends_before(class));
        sweep = sweep.past(at as u32, class);
    }
    (sweep, count)
}
