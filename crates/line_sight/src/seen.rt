//! What threads see of the lines that they answer.

ghost use Rattle.std.specs.Prelude.{◌≡◌, ◌<◌, ◌≤◌, ◌+◌, ℕ, IfSome, drop, length, min, take};
ghost use Rattle.line_sight.specs.Seen.{Shown};

use aql_io::Source;
use std::marker::Model;

/// Bytes that are ready, and those that are left of a source behind them. Several threads look at them at once.
#[derive(Drop)]
pub struct Seen<'a, S: Source> {
    pub ready: &'a [u8],
    pub corpus: &'a S,
    /// Up to which place they may be looked at, in bytes from the first one.
    pub most: usize,
}

impl<'a, S: Source> Model for Seen<'a, S> {
    ghost use Rattle.line_sight.specs.Seen.{Shown, seen_by};

    ghost Value = { Shown };

    ghost view = { λ s. record { ready = s.ready.now; all = seen_by (S.looks s.corpus.now) s.ready.now (S.left s.corpus.now); most = s.most } };
}

impl<'a, S: Source> Seen<'a, S> {
    /// Fills the front of `buf` with the bytes from a place on, and answers how many these are: none where fewer are there.
    pub fn look(&self, at: usize, buf: &mut [u8]) -> usize
        ensures bound { result ≤ length buf.new }
        ensures within { 0 < result → at + result ≤ self.now.most }
        ensures front { (k : ℕ) → k ≤ result → at + k ≤ length self.now.ready → take k (drop at self.now.ready) ≡ take k buf.new }
        ensures bytes { IfSome self.now.all (λ whole. take result (drop at whole) ≡ take result buf.new) }
    {
        let room = buf.len().min(self.most.saturating_sub(at));
        self.look_into(at, &mut buf[..room])
    }

    /// The same, where all of `buf` is for bytes that may be looked at.
    fn look_into(&self, at: usize, buf: &mut [u8]) -> usize
        ensures bound { result ≤ length buf.new }
        ensures long { length buf.new ≡ length buf.old }
        ensures front { (k : ℕ) → k ≤ result → at + k ≤ length self.now.ready → take k (drop at self.now.ready) ≡ take k buf.new }
        ensures bytes { IfSome self.now.all (λ whole. take result (drop at whole) ≡ take result buf.new) }
    {
        if at < self.ready.len() {
            copied(&self.ready[at..], buf)
        } else {
            self.corpus.look(at - self.ready.len(), buf)
        }
    }
}

/// Copies the front of `rest` to the front of `buf`, and answers how many bytes these are.
fn copied(rest: &[u8], buf: &mut [u8]) -> usize
    ensures count { result ≡ min (length buf.old) (length rest.now) }
    ensures bytes { take result buf.new ≡ take result rest.now }
    ensures long { length buf.new ≡ length buf.old }
{
    let n = buf.len().min(rest.len());
    buf[..n].copy_from_slice(&rest[..n]);
    n
}
