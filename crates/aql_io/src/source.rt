ghost use Rattle.std.specs.Prelude.{◌≡◌, ◌<◌, ◌≤◌, ℕ, Bool, true, List, Option, IfSome, drop, is_some, length, option_map, take};
ghost use Rattle.std.specs.Io.{ReadsAtMost};
ghost use Rattle.std.specs.Io.KnownBytes.{ReadConsumes};
ghost use Rattle.aql_io.specs.Causes.{HasCause};

use crate::Failed;

/// What gives bytes in order, each once.
///
/// `left` is the bytes that are still to come, or None where the source doesn't tell them, which
/// never changes. `faults` counts the calls that failed; it never falls, and stops at 2^64 - 1. `looks` says whether what is
/// left can be looked at before it is read.
pub trait Source {
    ghost left: { Self → Option (List ℕ) };

    ghost faults: { Self → ℕ };

    ghost looks: { Self → Bool };

    /// Fills the front of `buf` with the next bytes and answers how many they are.
    ///
    /// Answers 0 only at the end of the source or for an empty `buf`. What is left loses just the
    /// bytes that were given, and a failed read takes none.
    fn read(&mut self, buf: &mut [u8]) -> Result<usize, Failed>
        ensures bound { ReadsAtMost result buf.new }
        ensures bytes { ReadConsumes (left self.old) (left self.new) result buf.new }
        ensures told { is_some (left self.new) ≡ is_some (left self.old) }
        ensures cause { HasCause (faults self.old) (faults self.new) result };

    /// Fills the front of `buf` with what stands `at` bytes behind the next one, and answers how many bytes these are: none
    /// where fewer are left, or where the source can't tell.
    ///
    /// Nothing is read by it, and several threads may look at once.
    fn look(&self, at: usize, buf: &mut [u8]) -> usize
        ensures bound { result ≤ length buf.new }
        ensures able { 0 < result → looks self.now ≡ true }
        ensures bytes { IfSome (left self.now) (λ bytes. take result (drop at bytes) ≡ take result buf.new) };

    /// Takes the next `count` bytes, as reads do that give them: they were looked at where they stand.
    fn pass(&mut self, count: usize)
        requires able { 0 < count → looks self.old ≡ true }
        requires there { IfSome (left self.old) (λ bytes. count ≤ length bytes) }
        ensures left { left self.new ≡ option_map (drop count) (left self.old) }
        ensures faults { faults self.new ≡ faults self.old };
}

/// A borrowed source is a source: what is read through the loan is gone from the owner.
impl<S: Source> Source for &mut S {
    ghost left = { λ s. S.left s.now };

    ghost faults = { λ s. S.faults s.now };

    ghost looks = { λ s. S.looks s.now };

    fn read(&mut self, buf: &mut [u8]) -> Result<usize, Failed> {
        Source::read(&mut **self, buf)
    }

    fn look(&self, at: usize, buf: &mut [u8]) -> usize {
        Source::look(&**self, at, buf)
    }

    fn pass(&mut self, count: usize) {
        Source::pass(&mut **self, count);
    }
}
