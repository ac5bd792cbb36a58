ghost use Rattle.std.specs.Prelude.{IsTrue, ◌↔◌, ◌≡◌, ◌<◌, ◌≤◌, ℕ, [], None, List, Option, Contains, Some, Ok, true, IfOk, OnErr, IfSome, is_some, length, vec_len, take, min, MatchResult, MatchOption, ◌+◌, ◌-◌};
ghost use Rattle.std.specs.Io.KnownBytes.{Consumes, Keeps, IsAtEnd};
ghost use Rattle.aql_io.specs.Causes.{HasCause};
ghost use Rattle.corpus_json.specs.Given.{GoesOn, HasGiven};
ghost use Rattle.corpus_json.specs.Limits.{line_limit, corpus_limit};
ghost use Rattle.corpus_json.specs.Lines.{HasNoLf, FirstLfAt};
ghost use Rattle.corpus_json.specs.Moves.{MovesPiece};
ghost use Rattle.corpus_json.specs.Pieces.{TakesPiece, Fills, step_after};
ghost use Rattle.corpus_json.specs.Reading.{NextLine, Passed, Took};
ghost use Rattle.corpus_json.specs.Window.{IsPastLastLf};

use crate::Step;
use crate::limits::{CORPUS_LIMIT, LINE_LIMIT};
use aql_io::{Failed, Source};
use memchr::{memchr, memrchr};
use span_token::OutOfMemory;
use std::alloc::Global;
use std::marker::Model;

/// How many bytes one read may bring, where a reader isn't told another number.
const ROOM: usize = 65_536;

/// The bytes that were taken from a source of lines and not given yet.
///
/// It reads ahead by one buffer, and holds no source: each call is given it.
#[derive(Debug, Drop)]
pub struct LineBuffer {
    bytes: Vec<u8>,
    from: usize,
    to: usize,
    past_last_lf: usize,
    taken: u64,
    last: Option<Step>,
}

impl Model for LineBuffer {
    ghost use Rattle.std.specs.Prelude.{slice_range};
    ghost use Rattle.corpus_json.specs.Reading.{Reading};
    ghost use Rattle.corpus_json.specs.Window.{IsWindow};

    ghost Value = { Reading };

    ghost view = { λ b. record { ready = slice_range b.bytes.items b.from b.to; taken = b.taken; last = b.last } };

    ghost invariant = { λ b. IsWindow b.bytes b.from b.to b.past_last_lf b.taken };
}

impl LineBuffer {
    /// A buffer that took nothing yet, for reads of 65,536 bytes.
    pub fn new(alloc: Global) -> Result<LineBuffer, OutOfMemory>
        ensures new { IfOk result (λ buffer. buffer ≡ record { ready = []; taken = 0; last = None }) }
        ensures given { IfOk result (λ buffer. (left : Option (List ℕ)) (faults : ℕ) → HasGiven left left faults faults buffer []) }
    {
        LineBuffer::with_room(alloc, ROOM)
    }

    /// A buffer that took nothing yet, for reads of up to `room` bytes.
    pub fn with_room(alloc: Global, room: usize) -> Result<LineBuffer, OutOfMemory>
        requires some { 0 < room }
        ensures new { IfOk result (λ buffer. buffer ≡ record { ready = []; taken = 0; last = None }) }
        ensures given { IfOk result (λ buffer. (left : Option (List ℕ)) (faults : ℕ) → HasGiven left left faults faults buffer []) }
    {
        let bytes = vec![in alloc; 0; room]?;
        Ok(LineBuffer {
            bytes,
            from: 0,
            to: 0,
            past_last_lf: 0,
            taken: 0,
            last: None,
        })
    }

    /// How many bytes were taken from the source in all.
    pub fn taken(&self) -> u64
        ensures count { result ≡ self.now.taken }
        ensures below { self.now.taken ≤ corpus_limit }
    {
        self.taken
    }

    /// Whether all that was taken was given, so that the next line has to wait for the source.
    pub fn is_empty(&self) -> bool
        ensures { IsTrue result ↔ (self.now.ready ≡ []) }
    {
        self.from == self.to
    }

    /// Whether the next line is ready with its LF, so that it is given without a read.
    pub fn has_line(&self) -> bool
        ensures { IsTrue result ↔ Contains self.now.ready 10 }
    {
        self.from < self.past_last_lf
    }

    /// The bytes that were taken and not given yet.
    pub fn ready(&self) -> &[u8]
        ensures { result.now ≡ self.now.ready }
    {
        &self.bytes[self.from..self.to]
    }

    /// How many bytes may be taken besides: none once an answer stays.
    pub fn may_take(&self) -> usize
        ensures within { result ≤ corpus_limit - self.now.taken }
        ensures going { 0 < result → self.now.last ≡ None }
    {
        match self.last {
            Some(_) => 0,
            None => left_below(self.taken),
        }
    }

    /// Passes the first `count` bytes of those that are ready and, behind them, of those that are left of the source: they
    /// were looked at where they stand (`ready`, `Source::look`).
    ///
    /// Meaning: `Passed`, `specs/Reading.antt`.
    pub fn pass<S: Source>(&mut self, source: &mut S, count: usize)
        requires able { length self.old.ready < count → S.looks source.old ≡ true }
        requires there { length self.old.ready < count → IfSome (S.left source.old) (λ bytes. count ≤ length self.old.ready + length bytes) }
        requires below { count - length self.old.ready ≤ corpus_limit - self.old.taken }
        ensures passed { Passed (S.left source.old) (S.left source.new) self.old self.new count }
        ensures faults { S.faults source.new ≡ S.faults source.old }
    {
        let ready = self.to - self.from;
        if count <= ready {
            self.from += count;
        } else {
            let more = count - ready;
            self.from = self.to;
            source.pass(more);
            self.taken += more as u64;
        }
    }

    /// Whether the last read brought as many bytes as it could, so that more may be there already. A read
    /// of a pipe or a terminal whose writer pauses brings fewer, where a buffer is larger than what the
    /// pipe can hold. What it says is about time alone, so no clause speaks of it.
    pub fn was_filled(&self) -> bool {
        self.to == self.bytes.len()
    }

    /// Puts the next line of `source` into `line`, or says why there is none.
    ///
    /// A line is bytes: it ends before an LF, which is taken and not given, or at the source's end
    /// where bytes stand after the last LF. A CR belongs to the line, and UTF-8 isn't looked at. A
    /// line without bytes is a line. What `line` held before is gone; it keeps its room.
    ///
    /// `Long` comes exactly where more than `LINE_LIMIT` bytes stand before the next LF in what was
    /// taken, whether or not that LF was taken too; `Limit` exactly where `CORPUS_LIMIT` bytes were
    /// taken and what is left of them has no LF; `Failed` only where a read of this call failed
    /// before. After any answer but `Line`, and after a line that the source's end ended, every later
    /// call gives the same answer, `End` in the last case, and doesn't touch the source.
    ///
    /// The source is read only where nothing is ready, a buffer's bytes at most. After an answer other
    /// than `Line`, what `line` holds is left open; after want of memory no clause says where the
    /// reader stands.
    ///
    /// From a new buffer on, the lines that calls gave one after another are the lines of the bytes that
    /// they took, up to the answer that stays.
    ///
    /// Meaning: `NextLine`, `specs/Reading.antt`, over the lines of `specs/Lines.antt`; of calls one
    /// after another `GoesOn`, `specs/Given.antt`.
    pub fn next_line<S: Source>(
        &mut self,
        source: &mut S,
        line: &mut Vec<u8>,
    ) -> Result<Step, OutOfMemory>
        ensures answer { IfOk result (NextLine (S.left source.old) (S.left source.new)
            (S.faults source.old) (S.faults source.new) self.old self.new line.new.items) }
        ensures given { IfOk result (GoesOn (S.left source.old) (S.left source.new)
            (S.faults source.old) (S.faults source.new) self.old self.new line.new.items) }
        ensures err { OnErr result (Took (S.left source.old) (S.left source.new)) }
        ensures told { is_some (S.left source.new) ≡ is_some (S.left source.old) }
        ensures later { S.faults source.old ≤ S.faults source.new }
        ensures lasting { IfSome self.old.last (λ last. (result ≡ Ok last) × (source.new ≡ source.old)) }
    {
        if let Some(last) = self.last {
            return Ok(last);
        }
        line.clear();
        'pieces: loop {
            if let Some(step) = self.take_piece(line)? {
                return Ok(step);
            }
            if let Some(step) = self.fill(source) {
                return Ok(last_step(step, line.is_empty()));
            }
        }
    }

    /// Moves what is ready, up to the first LF, to the end of `line`.
    fn take_piece(&mut self, line: &mut Vec<u8>) -> Result<Option<Step>, OutOfMemory>
        requires going { self.old.last ≡ None }
        requires short { vec_len line.old ≤ line_limit }
        ensures { IfOk result (TakesPiece self.old self.new line.old.items line.new.items) }
    {
        match move_piece(&self.bytes[self.from..self.to], line)? {
            Piece::Whole(n) => {
                self.from += n + 1;
                Ok(Some(Step::Line))
            }
            Piece::Part => {
                self.from = self.to;
                Ok(None)
            }
            Piece::TooMany => {
                self.from = self.to;
                self.last = Some(Step::Long);
                Ok(Some(Step::Long))
            }
        }
    }

    /// Reads once, where nothing is ready, or says why it brought nothing.
    fn fill<S: Source>(&mut self, source: &mut S) -> Option<Step>
        requires going { self.old.last ≡ None }
        requires given { self.old.ready ≡ [] }
        ensures read { Fills (S.left source.old) (S.left source.new) (S.faults source.old) (S.faults source.new) self.old self.new result }
        ensures told { is_some (S.left source.new) ≡ is_some (S.left source.old) }
    {
        self.from = 0;
        self.to = 0;
        self.past_last_lf = 0;
        let most = left_below(self.taken);
        if most < 1 {
            self.last = Some(Step::Limit);
            return Some(Step::Limit);
        }
        match read_room(source, &mut self.bytes, most) {
            Ok(0) => {
                self.last = Some(Step::End);
                Some(Step::End)
            }
            Ok(n) => {
                self.to = n;
                self.past_last_lf = past_last_lf(&self.bytes[..n]);
                self.taken += n as u64;
                None
            }
            Err(Failed) => {
                self.last = Some(Step::Failed);
                Some(Step::Failed)
            }
        }
    }
}

/// What a piece of a line is.
#[derive(Clone, Copy, Debug)]
pub enum Piece {
    /// The line's last, with an LF at this place after it.
    Whole(usize),
    /// All bytes, without an LF.
    Part,
    /// More bytes than the line has room for.
    TooMany,
}

/// Moves `ready`, up to its first LF, to the end of `line`, where the line has room for it.
fn move_piece(ready: &[u8], line: &mut Vec<u8>) -> Result<Piece, OutOfMemory>
    requires { vec_len line.old ≤ line_limit }
    ensures { IfOk result (MovesPiece ready.now line.old.items line.new.items) }
{
    let room = LINE_LIMIT - line.len();
    match find_lf(ready) {
        Some(n) => {
            if room < n {
                return Ok(Piece::TooMany);
            }
            line.extend_from_slice(&ready[..n])?;
            Ok(Piece::Whole(n))
        }
        None => {
            if room < ready.len() {
                return Ok(Piece::TooMany);
            }
            line.extend_from_slice(ready)?;
            Ok(Piece::Part)
        }
    }
}

/// The place of the first LF.
fn find_lf(bytes: &[u8]) -> Option<usize>
    ensures { MatchOption result (HasNoLf bytes.now) (FirstLfAt bytes.now) }
{
    memchr(b'\n', bytes)
}

/// The place just past the last LF, or 0 where there is none.
fn past_last_lf(bytes: &[u8]) -> usize
    ensures { IsPastLastLf bytes.now (length bytes.now) result }
{
    match memrchr(b'\n', bytes) {
        Some(n) => n + 1,
        None => 0,
    }
}

/// The answer where a read brought nothing: at the source's end, a line that was begun is whole.
fn last_step(step: Step, is_empty: bool) -> Step
    ensures { result ≡ step_after step is_empty }
{
    match step {
        Step::End => { if is_empty { Step::End } else { Step::Line } }
        other => other,
    }
}

/// How many bytes may be taken where `taken` were.
fn left_below(taken: u64) -> usize
    requires { taken ≤ corpus_limit }
    ensures { result ≡ corpus_limit - taken }
{
    let left = CORPUS_LIMIT - taken;
    left as usize
}

/// Reads once to the front of `room`, up to `most` bytes.
fn read_room<S: Source>(source: &mut S, room: &mut Vec<u8>, most: usize) -> Result<usize, Failed>
    requires room { 0 < vec_len room.old }
    requires some { 1 ≤ most }
    ensures bound { IfOk result (λ n. (n ≤ most) × (n ≤ vec_len room.new)) }
    ensures room { 0 < vec_len room.new }
    ensures bytes { MatchResult result
        (λ n. Consumes (S.left source.old) (S.left source.new) (take n room.new.items) × (n ≡ 0 → IsAtEnd (S.left source.new)))
        (λ _. Keeps (S.left source.old) (S.left source.new)) }
    ensures told { is_some (S.left source.new) ≡ is_some (S.left source.old) }
    ensures cause { HasCause (S.faults source.old) (S.faults source.new) result }
{
    let most = room.len().min(most);
    read_most(source, room.as_mut_slice(), most)
}

/// Reads once into the first `most` bytes of `buf`.
fn read_most<S: Source>(source: &mut S, buf: &mut [u8], most: usize) -> Result<usize, Failed>
    requires within { most ≤ length buf.old }
    requires some { 1 ≤ most }
    ensures bound { IfOk result (λ n. n ≤ most) }
    ensures bytes { MatchResult result
        (λ n. Consumes (S.left source.old) (S.left source.new) (take n buf.new) × (n ≡ 0 → IsAtEnd (S.left source.new)))
        (λ _. Keeps (S.left source.old) (S.left source.new)) }
    ensures told { is_some (S.left source.new) ≡ is_some (S.left source.old) }
    ensures cause { HasCause (S.faults source.old) (S.faults source.new) result }
{
    source.read(&mut buf[..most])
}
