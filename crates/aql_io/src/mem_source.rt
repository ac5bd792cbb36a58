ghost use Rattle.std.specs.Prelude.{◌≡◌, ◌≤◌, ◌↔◌, false, Some, IsErr, IfOk, is_some, length, min};
ghost use Rattle.std.specs.Io.{ReadsAtMost};
ghost use Rattle.std.specs.Io.KnownBytes.{ReadConsumes};
ghost use Rattle.aql_io.specs.Causes.{HasCause};

use crate::calls::Calls;
use crate::pieces::give;
use crate::{Failed, Source};
use std::marker::Model;

/// A source in memory, which tells its bytes and fails exactly at the calls that it is told.
#[derive(Debug, Drop)]
pub struct MemSource {
    bytes: Vec<u8>,
    at: usize,
    piece: usize,
    calls: Calls,
}

impl Model for MemSource {
    ghost use Rattle.std.specs.Prelude.{◌≤◌, drop, vec_len};
    ghost use Rattle.aql_io.specs.InMemory.{SourceInMemory};

    ghost Value = { SourceInMemory };

    ghost view = { λ s. record { left = drop s.at s.bytes.items; piece = s.piece; calls = s.calls } };

    ghost invariant = { λ s. (s.at ≤ vec_len s.bytes) × (1 ≤ s.piece) };
}

impl MemSource {
    ghost use Rattle.aql_io.specs.InMemory.{no_calls};

    /// A source of `bytes` that gives at most `piece` of them in a call.
    ///
    /// The reads whose numbers, from 1, stand in `fail` fail, and no other. Numbers stop at 2^64 - 1.
    pub fn new(bytes: Vec<u8>, piece: usize, fail: Vec<u64>) -> MemSource
        requires { 1 ≤ piece }
        ensures { result ≡ record { left = bytes.items; piece = piece; calls = no_calls fail.items } }
    {
        let calls = Calls::new(fail);
        MemSource {
            bytes,
            at: 0,
            piece,
            calls,
        }
    }
}

impl Source for MemSource {
    ghost use Rattle.aql_io.specs.InMemory.{NextIsListed, after_call};

    ghost left = { λ s. Some s.left };

    ghost faults = { λ s. s.calls.faults };

    ghost looks = { λ _. false };

    /// Gives the next bytes: as many as `buf` has room for, a piece has and are left.
    fn read(&mut self, buf: &mut [u8]) -> Result<usize, Failed>
        ensures bound { ReadsAtMost result buf.new }
        ensures bytes { ReadConsumes (Some self.old.left) (Some self.new.left) result buf.new }
        ensures told { is_some (Some self.new.left) ≡ is_some (Some self.old.left) }
        ensures cause { HasCause self.old.calls.faults self.new.calls.faults result }
        ensures fails { IsErr result ↔ NextIsListed self.old.calls }
        ensures count { IfOk result
            (λ n. n ≡ min (length buf.old) (min self.old.piece (length self.old.left))) }
        ensures piece { self.new.piece ≡ self.old.piece }
        ensures calls { self.new.calls ≡ after_call self.old.calls result }
    {
        if self.calls.begin() {
            return Err(self.calls.fail());
        }
        let n = give(&self.bytes[self.at..], self.piece, buf);
        self.at += n;
        Ok(n)
    }

    /// Shows nothing.
    fn look(&self, _at: usize, _buf: &mut [u8]) -> usize {
        0
    }

    /// Passes nothing, since nothing is shown.
    fn pass(&mut self, _count: usize) {}
}
