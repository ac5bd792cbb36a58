ghost use Rattle.std.specs.Prelude.{◌≡◌, Some, Ok, true, is_some, length, min};
ghost use Rattle.std.specs.Io.{ReadsAtMost};
ghost use Rattle.std.specs.Io.KnownBytes.{ReadConsumes};
ghost use Rattle.aql_io.specs.Causes.{HasCause};

use crate::pieces::give;
use crate::{Failed, Source};
use std::marker::Model;

/// A source in memory, which tells its bytes and never fails. What is left can be looked at.
#[derive(Debug, Drop)]
pub struct SureSource {
    bytes: Vec<u8>,
    at: usize,
}

impl Model for SureSource {
    ghost use Rattle.std.specs.Prelude.{◌≤◌, ℕ, List, drop, vec_len};

    ghost Value = { List ℕ };

    ghost view = { λ s. drop s.at s.bytes.items };

    ghost invariant = { λ s. s.at ≤ vec_len s.bytes };
}

impl SureSource {
    /// A source of `bytes`.
    pub fn new(bytes: Vec<u8>) -> SureSource
        ensures { result ≡ bytes.items }
    {
        SureSource { bytes, at: 0 }
    }
}

impl Source for SureSource {
    ghost left = { λ s. Some s };

    ghost faults = { λ _. 0 };

    ghost looks = { λ _. true };

    /// Gives the next bytes: as many as `buf` has room for and are left.
    fn read(&mut self, buf: &mut [u8]) -> Result<usize, Failed>
        ensures bound { ReadsAtMost result buf.new }
        ensures bytes { ReadConsumes (Some self.old) (Some self.new) result buf.new }
        ensures told { is_some (Some self.new) ≡ is_some (Some self.old) }
        ensures cause { HasCause 0 0 result }
        ensures sure { result ≡ Ok (min (length buf.old) (length self.old)) }
    {
        let n = give(&self.bytes[self.at..], usize::MAX, buf);
        self.at += n;
        Ok(n)
    }

    /// Looks at what stands there: as many bytes as `buf` has room for and are left.
    fn look(&self, at: usize, buf: &mut [u8]) -> usize {
        let rest = &self.bytes[self.at..];
        if at > rest.len() {
            return 0;
        }
        give(&rest[at..], usize::MAX, buf)
    }

    /// Leaves out as many bytes.
    fn pass(&mut self, count: usize) {
        self.at += count;
    }
}
