ghost use Rattle.std.specs.Prelude.{◌≡◌, [], None, IfOk};
ghost use Rattle.std.specs.Io.{WritesAtMost};
ghost use Rattle.std.specs.Io.KnownBytes.{WriteAppends, Keeps};
ghost use Rattle.aql_io.specs.Bytes.{Flushes};
ghost use Rattle.aql_io.specs.Causes.{HasCause};

use crate::faults::Faults;
use crate::{Failed, Sink};
use std::io::Write;
use std::marker::Model;

/// A sink over a writer of std, as standard output. It tells no bytes, and counts each error.
#[derive(Drop)]
pub struct RealSink<W> {
    writer: W,
    faults: Faults,
}

impl<W> Model for RealSink<W> {
    ghost use Rattle.aql_io.specs.Counting.{Counting};

    ghost Value = { Counting W };

    ghost view = { λ s. record { inner = s.writer; faults = s.faults } };
}

impl<W> RealSink<W> {
    /// A sink that hands on to `writer`.
    pub fn new(writer: W) -> RealSink<W>
        ensures { result ≡ record { inner = writer; faults = 0 } }
    {
        RealSink {
            writer,
            faults: Faults::new(),
        }
    }
}

impl<W: Write> Sink for RealSink<W> {
    ghost held = { λ _. None };

    ghost flushed = { λ _. 0 };

    ghost faults = { λ s. s.faults };

    /// Takes what one write of the writer takes; where that is nothing of a piece that isn't empty,
    /// it is an error.
    fn write(&mut self, piece: &[u8]) -> Result<usize, Failed>
        ensures bound { WritesAtMost result piece.now }
        ensures some { IfOk result (λ n. n ≡ 0 → piece.now ≡ []) }
        ensures bytes { WriteAppends None None result piece.now }
        ensures cause { HasCause self.old.faults self.new.faults result }
        ensures through { WriteAppends (W.contents self.old.inner) (W.contents self.new.inner) result piece.now }
    {
        let n = match self.writer.write(piece) {
            Ok(n) => n,
            Err(_) => return Err(self.faults.fail()),
        };
        if n < 1 && !piece.is_empty() {
            return Err(self.faults.fail());
        }
        Ok(n)
    }

    /// Flushes the writer.
    fn flush(&mut self) -> Result<(), Failed>
        ensures flushed { Flushes None 0 0 result }
        ensures cause { HasCause self.old.faults self.new.faults result }
        ensures through { Keeps (W.contents self.old.inner) (W.contents self.new.inner) }
    {
        match self.writer.flush() {
            Ok(()) => Ok(()),
            Err(_) => Err(self.faults.fail()),
        }
    }
}
