ghost use Rattle.std.specs.Prelude.{◌≡◌, ◌-◌, ◌<◌, ◌≤◌, ◌↔◌, ◌⊎◌, [], Some, IsErr, IfOk, is_some, length, min};
ghost use Rattle.std.specs.Io.{WritesAtMost};
ghost use Rattle.std.specs.Io.KnownBytes.{WriteAppends};
ghost use Rattle.aql_io.specs.Bytes.{Flushes};
ghost use Rattle.aql_io.specs.Causes.{HasCause};

use crate::calls::Calls;
use crate::{Failed, Sink};
use span_token::OutOfMemory;
use std::alloc::Global;
use std::marker::Model;

/// A sink in memory, which tells its bytes and fails exactly where it is told to or has no room.
#[derive(Debug, Drop)]
pub struct MemSink {
    bytes: Vec<u8>,
    flushed: usize,
    room: usize,
    piece: usize,
    calls: Calls,
}

impl Model for MemSink {
    ghost use Rattle.aql_io.specs.InMemory.{SinkInMemory};
    ghost use Rattle.aql_io.specs.Room.{HasRoom};

    ghost Value = { SinkInMemory };

    ghost view = { λ s. record {
      held = s.bytes.items;
      flushed = s.flushed;
      room = s.room;
      piece = s.piece;
      calls = s.calls;
    } };

    ghost invariant = { λ s. HasRoom s.bytes s.room s.piece };
}

impl MemSink {
    ghost use Rattle.aql_io.specs.InMemory.{no_calls};

    /// A sink with room for `room` bytes, whose memory is taken at once, that takes at most `piece`
    /// bytes in a call.
    ///
    /// The writes and flushes whose numbers, counted together from 1, stand in `fail` fail; a write
    /// of a piece that isn't empty fails too where no room is left. No other call fails. Numbers stop
    /// at 2^64 - 1.
    pub fn new(
        alloc: Global,
        room: usize,
        piece: usize,
        fail: Vec<u64>,
    ) -> Result<MemSink, OutOfMemory>
        requires { 1 ≤ piece }
        ensures { IfOk result
            (λ sink. sink ≡ record { held = []; flushed = 0; room = room; piece = piece; calls = no_calls fail.items }) }
    {
        let bytes = Vec::with_capacity(alloc, room)?;
        let calls = Calls::new(fail);
        Ok(MemSink {
            bytes,
            flushed: 0,
            room,
            piece,
            calls,
        })
    }

    /// The bytes that it holds.
    pub fn bytes(&self) -> &[u8]
        ensures { result.now ≡ self.now.held }
    {
        self.bytes.as_slice()
    }
}

impl Sink for MemSink {
    ghost use Rattle.aql_io.specs.InMemory.{NextIsListed, after_call};

    ghost held = { λ s. Some s.held };

    ghost flushed = { λ s. s.flushed };

    ghost faults = { λ s. s.calls.faults };

    /// Takes the front of `piece`: as many bytes as it has, a call takes and there is room for.
    fn write(&mut self, piece: &[u8]) -> Result<usize, Failed>
        ensures bound { WritesAtMost result piece.now }
        ensures some { IfOk result (λ n. n ≡ 0 → piece.now ≡ []) }
        ensures bytes { WriteAppends (Some self.old.held) (Some self.new.held) result piece.now }
        ensures told { is_some (Some self.new.held) ≡ is_some (Some self.old.held) }
        ensures flushed { self.new.flushed ≡ self.old.flushed }
        ensures cause { HasCause self.old.calls.faults self.new.calls.faults result }
        ensures fails { IsErr result
            ↔ (NextIsListed self.old.calls ⊎ ((0 < length piece.now) × (self.old.room ≤ length self.old.held))) }
        ensures count { IfOk result
            (λ n. n ≡ min (length piece.now) (min self.old.piece (self.old.room - length self.old.held))) }
        ensures room { self.new.room ≡ self.old.room }
        ensures piece { self.new.piece ≡ self.old.piece }
        ensures calls { self.new.calls ≡ after_call self.old.calls result }
    {
        if self.calls.begin() {
            return Err(self.calls.fail());
        }
        let n = piece
            .len()
            .min(self.piece.min(self.room - self.bytes.len()));
        if n < 1 && !piece.is_empty() {
            return Err(self.calls.fail());
        }
        self.bytes.extend_from_slice(&piece[..n]).unwrap();
        Ok(n)
    }

    /// After Ok all bytes that it holds are flushed.
    fn flush(&mut self) -> Result<(), Failed>
        ensures bytes { Some self.new.held ≡ Some self.old.held }
        ensures flushed { Flushes (Some self.old.held) self.old.flushed self.new.flushed result }
        ensures cause { HasCause self.old.calls.faults self.new.calls.faults result }
        ensures fails { IsErr result ↔ NextIsListed self.old.calls }
        ensures room { self.new.room ≡ self.old.room }
        ensures piece { self.new.piece ≡ self.old.piece }
        ensures calls { self.new.calls ≡ after_call self.old.calls result }
    {
        if self.calls.begin() {
            return Err(self.calls.fail());
        }
        self.flushed = self.bytes.len();
        Ok(())
    }
}
