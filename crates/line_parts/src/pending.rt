ghost use Rattle.std.specs.Prelude.{◌≡◌, ◌++◌, [], OnErr, OnOk};
ghost use Rattle.line_parts.specs.Pending.{texts_of};

use span_token::OutOfMemory;
use std::alloc::Global;
use std::marker::Model;
use std::mem;

/// Texts with room for more bytes, and those behind so many, are handed on without a copy.
const LARGE: usize = 65_536;

/// Bytes that are still to be written. They lie in several texts, since a large one is handed on without a copy.
///
/// Contracts see all of them, in their order.
#[derive(Drop)]
pub struct Pending {
    alloc: Global,
    /// Texts to which nothing is put any more.
    whole: Vec<Vec<u8>>,
    /// The text behind them.
    last: Vec<u8>,
}

/// Texts one after another: those that are whole, and the last one behind them.
#[derive(Clone, Copy, Debug)]
pub struct Texts<'a> {
    pub whole: &'a [Vec<u8>],
    pub last: &'a [u8],
}

impl Model for Pending {
    ghost use Rattle.std.specs.Prelude.{◌++◌, ℕ, List};
    ghost use Rattle.line_parts.specs.Pending.{texts_of};

    ghost Value = { List ℕ };

    ghost view = { λ p. texts_of p.whole.items ++ p.last.items };
}

impl Pending {
    /// Nothing is pending. It takes no memory.
    pub fn new(alloc: Global) -> Pending
        ensures { result ≡ [] }
    {
        Pending {
            alloc,
            whole: Vec::new(alloc),
            last: Vec::new(alloc),
        }
    }

    /// Whether so many bytes are pending, or some text is whole.
    pub fn has_many(&self, bytes: usize) -> bool {
        !self.whole.is_empty() || self.last.len() >= bytes
    }

    /// The bytes, as the texts in which they lie.
    pub fn texts(&self) -> Texts<'_>
        ensures { texts_of result.whole.now ++ result.last.now ≡ self.now }
    {
        Texts {
            whole: self.whole.as_slice(),
            last: self.last.as_slice(),
        }
    }

    /// Forgets what was pending.
    pub fn clear(&mut self)
        ensures { self.new ≡ [] }
    {
        self.whole.clear();
        self.last.clear();
    }

    /// Puts the bytes of a text behind what is pending and leaves it empty: a large one, and one behind many bytes of others, is
    /// handed on as it is, and another one is copied and keeps its room. So no text grows for ever, which would be moved each
    /// time it doubles, and keep its room. Nothing is put where memory is wanting; what was to be handed on is lost then.
    pub fn take_text(&mut self, text: &mut Vec<u8>) -> Result<(), OutOfMemory>
        ensures put { OnOk result (self.new ≡ self.old ++ text.old.items) }
        ensures none { OnErr result (self.new ≡ self.old) }
        ensures taken { OnOk result (text.new.items ≡ []) }
    {
        if text.capacity() > LARGE || self.last.len() >= LARGE {
            let whole = mem::replace(text, Vec::new(self.alloc));
            return self.push_text(whole);
        }
        self.last.extend_from_slice(text.as_slice())?;
        text.clear();
        Ok(())
    }

    /// Puts a text behind what is pending, without a copy.
    fn push_text(&mut self, text: Vec<u8>) -> Result<(), OutOfMemory>
        ensures put { OnOk result (self.new ≡ self.old ++ text.items) }
        ensures none { OnErr result (self.new ≡ self.old) }
    {
        // so that nothing that is pending is lost where memory is wanting
        self.whole.reserve(2)?;
        let last = mem::replace(&mut self.last, Vec::new(self.alloc));
        self.whole.push(last)?;
        self.whole.push(text)?;
        Ok(())
    }
}
