ghost use Rattle.std.specs.Prelude.{◌≡◌, false, None};
ghost use Rattle.std.specs.Io.{ReadsAtMost};
ghost use Rattle.std.specs.Io.KnownBytes.{ReadConsumes};
ghost use Rattle.aql_io.specs.Causes.{HasCause};

use crate::faults::Faults;
use crate::{Failed, Source};
use std::io::Read;
use std::marker::Model;

/// A source over a reader of std, as standard input. It tells no bytes, and counts each error.
#[derive(Drop)]
pub struct RealSource<R> {
    reader: R,
    faults: Faults,
}

impl<R> Model for RealSource<R> {
    ghost use Rattle.aql_io.specs.Counting.{Counting};

    ghost Value = { Counting R };

    ghost view = { λ s. record { inner = s.reader; faults = s.faults } };
}

impl<R> RealSource<R> {
    /// A source of what `reader` gives.
    pub fn new(reader: R) -> RealSource<R>
        ensures { result ≡ record { inner = reader; faults = 0 } }
    {
        RealSource {
            reader,
            faults: Faults::new(),
        }
    }
}

impl<R: Read> Source for RealSource<R> {
    ghost left = { λ _. None };

    ghost faults = { λ s. s.faults };

    ghost looks = { λ _. false };

    /// Gives what one read of the reader gives.
    fn read(&mut self, buf: &mut [u8]) -> Result<usize, Failed>
        ensures bound { ReadsAtMost result buf.new }
        ensures cause { HasCause self.old.faults self.new.faults result }
        ensures through { ReadConsumes (R.remaining self.old.inner) (R.remaining self.new.inner) result buf.new }
    {
        match self.reader.read(buf) {
            Ok(n) => Ok(n),
            Err(_) => Err(self.faults.fail()),
        }
    }

    /// Shows nothing.
    fn look(&self, _at: usize, _buf: &mut [u8]) -> usize {
        0
    }

    /// Passes nothing, since nothing is shown.
    fn pass(&mut self, _count: usize) {}
}
