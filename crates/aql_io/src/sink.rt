ghost use Rattle.std.specs.Prelude.{◌≡◌, ℕ, [], List, Option, IfOk, is_some};
ghost use Rattle.std.specs.Io.{WritesAtMost};
ghost use Rattle.std.specs.Io.KnownBytes.{WriteAppends};
ghost use Rattle.aql_io.specs.Bytes.{Flushes};
ghost use Rattle.aql_io.specs.Causes.{HasCause};

use crate::Failed;

/// What takes bytes in order.
///
/// `held` is all bytes that the sink took, or None where it doesn't tell them, which never changes.
/// `flushed` is how many of them are flushed; it means something only where `held` is told. `faults`
/// counts the calls that failed; it never falls, and stops at 2^64 - 1.
pub trait Sink {
    ghost held: { Self → Option (List ℕ) };

    ghost flushed: { Self → ℕ };

    ghost faults: { Self → ℕ };

    /// Takes a prefix of `piece` and answers its length, which is 0 only for an empty piece.
    ///
    /// A failed write takes nothing. No write changes how many bytes are flushed.
    fn write(&mut self, piece: &[u8]) -> Result<usize, Failed>
        ensures bound { WritesAtMost result piece.now }
        ensures some { IfOk result (λ n. n ≡ 0 → piece.now ≡ []) }
        ensures bytes { WriteAppends (held self.old) (held self.new) result piece.now }
        ensures told { is_some (held self.new) ≡ is_some (held self.old) }
        ensures flushed { flushed self.new ≡ flushed self.old }
        ensures cause { HasCause (faults self.old) (faults self.new) result };

    /// Hands on all that the sink holds: after Ok all its bytes are flushed.
    ///
    /// Takes no byte. After a failed flush as many bytes count as flushed as before it.
    fn flush(&mut self) -> Result<(), Failed>
        ensures bytes { held self.new ≡ held self.old }
        ensures flushed { Flushes (held self.old) (flushed self.old) (flushed self.new) result }
        ensures cause { HasCause (faults self.old) (faults self.new) result };
}

/// A borrowed sink is a sink: what is written through the loan is held by the owner.
impl<S: Sink> Sink for &mut S {
    ghost held = { λ s. S.held s.now };

    ghost flushed = { λ s. S.flushed s.now };

    ghost faults = { λ s. S.faults s.now };

    fn write(&mut self, piece: &[u8]) -> Result<usize, Failed> {
        Sink::write(&mut **self, piece)
    }

    fn flush(&mut self) -> Result<(), Failed> {
        Sink::flush(&mut **self)
    }
}
