ghost use Rattle.std.specs.Prelude.{◌≡◌, ◌+◌, ◌-◌, ◌^◌, [], None, Ok, IsOk, IfOk, length, min};
ghost use Rattle.std.specs.Io.{WritesAtMost};
ghost use Rattle.std.specs.Io.KnownBytes.{WriteAppends};
ghost use Rattle.aql_io.specs.Bytes.{Flushes};
ghost use Rattle.aql_io.specs.Causes.{HasCause};

use crate::{Failed, Sink};
use std::marker::Model;

/// A sink that counts the bytes that it takes, keeps none, and never fails.
#[derive(Debug, Drop)]
pub struct CountSink {
    count: u64,
}

impl Model for CountSink {
    ghost use Rattle.std.specs.Prelude.{ℕ};

    ghost Value = { ℕ };

    ghost view = { λ s. s.count };
}

impl CountSink {
    /// A sink that took no byte yet.
    pub fn new() -> CountSink
        ensures { result ≡ 0 }
    {
        CountSink { count: 0 }
    }

    /// How many bytes it took, or 2^64 - 1 where it took that many or more.
    pub fn count(&self) -> u64
        ensures { result ≡ self.now }
    {
        self.count
    }
}

impl Sink for CountSink {
    ghost held = { λ _. None };

    ghost flushed = { λ _. 0 };

    ghost faults = { λ _. 0 };

    /// Takes the whole piece.
    fn write(&mut self, piece: &[u8]) -> Result<usize, Failed>
        ensures bound { WritesAtMost result piece.now }
        ensures some { IfOk result (λ n. n ≡ 0 → piece.now ≡ []) }
        ensures bytes { WriteAppends None None result piece.now }
        ensures cause { HasCause 0 0 result }
        ensures sure { result ≡ Ok (length piece.now) }
        ensures counted { self.new ≡ min (self.old + length piece.now) (2 ^ 64 - 1) }
    {
        self.count = self.count.saturating_add(piece.len() as u64);
        Ok(piece.len())
    }

    /// Never fails.
    fn flush(&mut self) -> Result<(), Failed>
        ensures flushed { Flushes None 0 0 result }
        ensures cause { HasCause 0 0 result }
        ensures sure { IsOk result }
        ensures counted { self.new ≡ self.old }
    {
        Ok(())
    }
}
