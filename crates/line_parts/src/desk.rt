//! The desk at which the caller's thread puts parts that are done one behind the other, and writes them.

ghost use Rattle.std.specs.Prelude.{◌≡◌, ◌<◌, ◌≤◌, ◌+◌, [], ℕ, List, Option, false, IfSome, is_some};
ghost use Rattle.line_parts.specs.declared.desk.First.TheVariants as declared_first;
ghost use Rattle.line_parts.specs.Answered.{outgoing};
ghost use Rattle.line_parts.specs.Turns.{GoesOn, IsPart, none_taken};

use crate::pending::Pending;
use crate::send::put_all;
use crate::turn::{Done, Part, Turn};
use aql_io::{Failed, Sink};
use span_token::OutOfMemory;
use std::alloc::Global;

/// What is pending is written once it has so many bytes.
const MANY: usize = 65_536;

/// How far the lines of a turn were answered.
#[derive(Clone, Copy, Debug)]
pub struct Answered {
    /// How many bytes, from the first one: whole lines, each with its LF.
    pub bytes: usize,
    /// How many lines.
    pub lines: u64,
    /// Whether a write failed. Then what is written for these lines stands on the output in part, and no more is to.
    pub failed: bool,
}

/// What came of the first line.
#[derive(Clone, Copy, Debug)]
pub enum First {
    /// It isn't answered yet, or memory was wanting for it.
    Unknown,
    /// It is bad.
    Bad,
    /// It is answered.
    Good,
}

/// How far a turn came, and the parts that are done behind others that aren't.
#[derive(Drop)]
pub struct Desk<W: Turn> {
    pub first: First,
    /// The lines behind the first one whose parts are put behind what was pending.
    pub taken: Answered,
    kept: Vec<Done<W>>,
}

impl<W: Turn> Desk<W> {
    /// A desk at which nothing came yet.
    pub fn new(alloc: Global) -> Desk<W>
        ensures first { result.first ≡ declared_first.Unknown }
        ensures taken { result.taken ≡ none_taken }
    {
        Desk {
            first: First::Unknown,
            taken: Answered {
                bytes: 0,
                lines: 0,
                failed: false,
            },
            kept: Vec::new(alloc),
        }
    }

    /// Keeps a part until those before it are there. False where memory is wanting, and then the part is lost: the turn ends
    /// before it.
    pub fn keep(&mut self, done: Done<W>) -> bool
        ensures first { self.new.first ≡ self.old.first }
        ensures taken { self.new.taken ≡ self.old.taken }
    {
        self.kept.push(done).is_ok()
    }

    /// Puts the parts that are next behind what is pending, as far as they are there, and tells how many bytes they have. The
    /// error is that memory was wanting for one: it isn't put, and is lost, so the turn ends before it.
    pub fn append_parts(&mut self, pending: &mut Pending) -> Result<usize, OutOfMemory>
        requires unfailed { self.old.taken.failed ≡ false }
        requires few { self.old.taken.lines ≤ self.old.taken.bytes }
        ensures first { self.new.first ≡ self.old.first }
        ensures unfailed { self.new.taken.failed ≡ false }
        ensures few { self.new.taken.lines ≤ self.new.taken.bytes }
        ensures goes_on { (first : List ℕ) (held : Option (List ℕ)) (faults : ℕ) → GoesOn W.piece first W.shown self.old.taken (outgoing pending.old held faults) self.new.taken (outgoing pending.new held faults) }
    {
        let mut bytes = 0usize;
        for _ in 0..self.kept.len() {
            let Some(more) = self.append_next(pending)? else {
                return Ok(bytes);
            };
            bytes = bytes.saturating_add(more);
        }
        Ok(bytes)
    }

    /// Puts the part that is next behind what is pending, and tells how many bytes it has; `None` where it isn't there. The error is
    /// that memory was wanting: nothing is put, and the part is lost.
    fn append_next(&mut self, pending: &mut Pending) -> Result<Option<usize>, OutOfMemory>
        requires unfailed { self.old.taken.failed ≡ false }
        requires few { self.old.taken.lines ≤ self.old.taken.bytes }
        ensures first { self.new.first ≡ self.old.first }
        ensures unfailed { self.new.taken.failed ≡ false }
        ensures few { self.new.taken.lines ≤ self.new.taken.bytes }
        ensures goes_on { (first : List ℕ) (held : Option (List ℕ)) (faults : ℕ) → GoesOn W.piece first W.shown self.old.taken (outgoing pending.old held faults) self.new.taken (outgoing pending.new held faults) }
    {
        let Some(mut part) = self.take_next() else {
            return Ok(None);
        };
        let bytes = part.text.len();
        pending.take_text(&mut part.text)?;
        self.taken = Answered {
            bytes: part.to,
            lines: self.taken.lines + part.count,
            failed: false,
        };
        Ok(Some(bytes))
    }

    /// Takes the part out that begins where the lines end that were put.
    fn take_next(&mut self) -> Option<Part>
        ensures first { self.new.first ≡ self.old.first }
        ensures taken { self.new.taken ≡ self.old.taken }
        ensures next { IfSome result (λ part. (part.from ≡ self.old.taken.bytes) × IsPart W.piece W.shown part) }
    {
        for k in 0..self.kept.len() {
            if self.kept[k].from() == self.taken.bytes {
                return Some(self.kept.swap_remove(k).into_part());
            }
        }
        None
    }

    /// Writes what is pending once it has 65,536 bytes, or holds a text that is handed on without a copy.
    pub fn send<O: Sink>(&mut self, pending: &mut Pending, out: &mut O)
        requires unfailed { self.old.taken.failed ≡ false }
        ensures first { self.new.first ≡ self.old.first }
        ensures taken { (self.new.taken.bytes ≡ self.old.taken.bytes) × (self.new.taken.lines ≡ self.old.taken.lines) }
        ensures told { is_some (O.held out.new) ≡ is_some (O.held out.old) }
        ensures flushed { O.flushed out.new ≡ O.flushed out.old }
        ensures goes_on { (first : List ℕ) → GoesOn W.piece first W.shown self.old.taken (outgoing pending.old (O.held out.old) (O.faults out.old)) self.new.taken (outgoing pending.new (O.held out.new) (O.faults out.new)) }
    {
        if !pending.has_many(MANY) {
            return;
        }
        match put_all(out, pending) {
            Ok(()) => pending.clear(),
            Err(Failed) => {
                self.taken = Answered {
                    bytes: self.taken.bytes,
                    lines: self.taken.lines,
                    failed: true,
                };
            }
        }
    }
}
