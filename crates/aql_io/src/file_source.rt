ghost use Rattle.std.specs.Prelude.{◌≡◌, ◌≤◌, None, true, IfOk, OnErr, length};
ghost use Rattle.std.specs.Io.{ReadsAtMost};
ghost use Rattle.aql_io.specs.Causes.{HasCause};
ghost use Rattle.aql_io.specs.Places.{behind};

use crate::faults::Faults;
use crate::{Failed, Source};
use std::marker::Model;
use std::os::unix::fs::FileExt;

/// A source over a file that is read at places, from one on. It tells no bytes, and counts each error of a read.
///
/// What is left can be looked at where it stands, also by several threads at once.
#[derive(Drop)]
pub struct FileSource<F> {
    file: F,
    at: u64,
    faults: Faults,
}

impl<F> Model for FileSource<F> {
    ghost use Rattle.aql_io.specs.Places.{Placed};

    ghost Value = { Placed F };

    ghost view = { λ s. record { file = s.file; at = s.at; faults = s.faults } };
}

impl<F> FileSource<F> {
    /// A source of what stands in `file` from the place `at` on, in bytes.
    pub fn new(file: F, at: u64) -> FileSource<F>
        ensures { result ≡ record { file = file; at = at; faults = 0 } }
    {
        FileSource {
            file,
            at,
            faults: Faults::new(),
        }
    }
}

impl<F: FileExt> Source for FileSource<F> {
    ghost left = { λ _. None };

    ghost faults = { λ s. s.faults };

    ghost looks = { λ _. true };

    /// Gives what one read of the file gives at the place, and goes on behind it.
    fn read(&mut self, buf: &mut [u8]) -> Result<usize, Failed>
        ensures bound { ReadsAtMost result buf.new }
        ensures cause { HasCause self.old.faults self.new.faults result }
        ensures file { self.new.file ≡ self.old.file }
        ensures moved { IfOk result (λ n. self.new.at ≡ behind self.old.at n) }
        ensures stays { OnErr result (self.new.at ≡ self.old.at) }
    {
        match self.file.read_at(buf, self.at) {
            Ok(n) => {
                self.at = self.at.saturating_add(n as u64);
                Ok(n)
            }
            Err(_) => Err(self.faults.fail()),
        }
    }

    /// Looks at the file, as many bytes behind the place. None are told where that fails: the read that comes there tells.
    fn look(&self, at: usize, buf: &mut [u8]) -> usize
        ensures bound { result ≤ length buf.new }
    {
        match self.file.read_at(buf, self.at.saturating_add(at as u64)) {
            Ok(n) => n,
            Err(_) => 0,
        }
    }

    /// Goes on as many bytes behind the place.
    fn pass(&mut self, count: usize)
        ensures passed { self.new ≡ record { file = self.old.file; at = behind self.old.at count; faults = self.old.faults } }
    {
        self.at = self.at.saturating_add(count as u64);
    }
}
