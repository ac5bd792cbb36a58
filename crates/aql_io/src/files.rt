ghost use Rattle.std.specs.Prelude.{◌≡◌, ℕ, Option, IfSome};
ghost use Rattle.std.specs.Io.{ReadsAtMost};
ghost use Rattle.aql_io.specs.Bytes.{Names, ReadsAt};
ghost use Rattle.aql_io.specs.Causes.{HasCause};

use crate::Failed;

/// Files by their names, read at any place.
///
/// `told` is the bytes of each file that is held, or None where they aren't told. No read changes
/// them. `faults` counts the calls that failed; it never falls, and stops at 2^64 - 1.
pub trait Files {
    ghost told: { Self → Option Names };

    ghost faults: { Self → ℕ };

    /// Fills the front of `buf` with bytes of the file `name` from byte `at` on, counted from 0, and
    /// answers how many they are.
    ///
    /// Answers 0 only at or past the file's end or for an empty `buf`. A name that isn't held fails.
    fn read(&mut self, name: &str, at: u64, buf: &mut [u8]) -> Result<usize, Failed>
        ensures bound { ReadsAtMost result buf.new }
        ensures bytes { IfSome (told self.old) (λ files. ReadsAt (files name.now) at result buf.new) }
        ensures told { told self.new ≡ told self.old }
        ensures cause { HasCause (faults self.old) (faults self.new) result };
}

/// Borrowed files are files.
impl<F: Files> Files for &mut F {
    ghost told = { λ f. F.told f.now };

    ghost faults = { λ f. F.faults f.now };

    fn read(&mut self, name: &str, at: u64, buf: &mut [u8]) -> Result<usize, Failed> {
        Files::read(&mut **self, name, at, buf)
    }
}
