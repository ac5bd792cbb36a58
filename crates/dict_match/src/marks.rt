ghost use Rattle.std.specs.Prelude.{◌≡◌, ◌<◌, ◌↔◌, ℕ, List, IfSome, IsAscii, IsTrue, length};
ghost use Rattle.dict_match.specs.Marks.{HasMark, mark_of, mark_behind};

use span_token::OutOfMemory;
use std::alloc::Global;
use std::marker::Model;

/// How many bytes hold the marks.
const BYTES: usize = 32_768;

/// A set of marks, with a bit for each number below 262,144. Contracts see the bytes.
#[derive(Drop)]
pub(crate) struct Marks {
    bytes: Vec<u8>,
}

impl Model for Marks {
    ghost use Rattle.std.specs.Prelude.{◌≡◌, ℕ, List, length};

    ghost Value = { List ℕ };

    ghost view = { λ marks. marks.bytes.items };

    ghost invariant = { λ marks. length marks.bytes.items ≡ 32768 };
}

impl Marks {
    /// The empty set.
    pub(crate) fn new(alloc: Global) -> Result<Marks, OutOfMemory> {
        Ok(Marks {
            bytes: Vec::from_elem(alloc, 0, BYTES)?,
        })
    }

    /// Whether the set has a mark.
    #[inline(always)]
    pub(crate) fn has(&self, mark: u32) -> bool
        requires below { mark < 262144 }
        ensures { IsTrue result ↔ HasMark self.now mark }
    {
        (self.bytes[(mark / 8) as usize] >> (mark % 8)) & 1 == 1
    }

    /// Puts a mark into the set.
    pub(crate) fn set(&mut self, mark: u32)
        requires below { mark < 262144 }
        ensures set { HasMark self.new mark }
        ensures kept { (other : ℕ) → HasMark self.old other → HasMark self.new other }
    {
        let at = (mark / 8) as usize;
        let byte = self.bytes[at];
        self.bytes[at] = byte | 1 << (mark % 8);
    }
}

/// A text's mark, below 262,144: by all its bytes, so that the case of ASCII letters doesn't count.
#[tactic(auto, unfolding(crate::specs::Marks::mark_of))]
pub(crate) fn mark_of(text: &str) -> u32
    ensures mark { result ≡ mark_of text.now }
    ensures below { result < 262144 }
{
    let mut mark = 0;
    let bytes = text.as_bytes();
    for byte in bytes {
        mark = mark_behind(mark, *byte);
    }
    mark
}

/// A text's mark, where it is ASCII: its bytes are gone through once.
#[inline(always)]
#[tactic(auto, unfolding(crate::specs::Marks::mark_of))]
pub(crate) fn mark_where_ascii(text: &str) -> Option<u32>
    ensures ascii { IfSome result (λ _. IsAscii text.now) }
    ensures mark { IfSome result (λ mark. mark ≡ mark_of text.now) }
    ensures below { IfSome result (λ mark. mark < 262144) }
{
    let mut mark = 0;
    let bytes = text.as_bytes();
    for byte in bytes {
        if *byte >= 128 {
            return None;
        }
        mark = mark_behind(mark, *byte);
    }
    Some(mark)
}

/// From the mark of a text, that of the text with one more byte at its end.
#[inline(always)]
fn mark_behind(mark: u32, byte: u8) -> u32
    requires below { mark < 262144 }
    ensures mark { result ≡ mark_behind mark byte }
    ensures below { result < 262144 }
{
    (43 * mark + u32::from(byte % 32)) % 262_144
}
