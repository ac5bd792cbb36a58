ghost use Rattle.std.specs.Prelude.{◌≡◌, None};
ghost use Rattle.std.specs.Io.{ReadsAtMost};
ghost use Rattle.aql_io.specs.Causes.{HasCause};

use crate::faults::Faults;
use crate::{Failed, Files};
use std::io::{Read, Seek, SeekFrom};
use std::marker::Model;
use std::{fs, io, rt};

/// The files of the system. They tell no bytes, and each error is counted.
#[derive(Drop)]
pub struct RealFiles<R> {
    files: R,
    faults: Faults,
}

impl<R> Model for RealFiles<R> {
    ghost use Rattle.aql_io.specs.Counting.{Counting};

    ghost Value = { Counting R };

    ghost view = { λ f. record { inner = f.files; faults = f.faults } };
}

impl<R> RealFiles<R> {
    /// The files that `files`, a runtime, reaches.
    pub fn new(files: R) -> RealFiles<R>
        ensures { result ≡ record { inner = files; faults = 0 } }
    {
        RealFiles {
            files,
            faults: Faults::new(),
        }
    }
}

impl<R: rt::Files> Files for RealFiles<R> {
    ghost told = { λ _. None };

    ghost faults = { λ f. f.faults };

    /// Opens the file, goes to the place and reads once; a file that has no places, as a pipe, fails.
    fn read(&mut self, name: &str, at: u64, buf: &mut [u8]) -> Result<usize, Failed>
        ensures bound { ReadsAtMost result buf.new }
        ensures cause { HasCause self.old.faults self.new.faults result }
    {
        match read_at(&self.files, name, at, buf) {
            Ok(n) => Ok(n),
            Err(_) => Err(self.faults.fail()),
        }
    }
}

/// One read of the file `name` from byte `at` on.
fn read_at<R: rt::Files>(files: &R, name: &str, at: u64, buf: &mut [u8]) -> io::Result<usize>
    ensures { ReadsAtMost result buf.new }
{
    let mut file = fs::open(files, name)?;
    file.seek(SeekFrom::Start(at))?;
    file.read(buf)
}
