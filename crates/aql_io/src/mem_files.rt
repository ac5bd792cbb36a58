ghost use Rattle.std.specs.Prelude.{◌≡◌, ◌-◌, ◌↔◌, ◌⊎◌, Some, None, IsErr, IfOk, IfSome, length, min, take, drop};
ghost use Rattle.std.specs.Io.{ReadsAtMost};
ghost use Rattle.aql_io.specs.Bytes.{ReadsAt};
ghost use Rattle.aql_io.specs.Causes.{HasCause};

use crate::calls::Calls;
use crate::pieces::give;
use crate::{Failed, Files};
use std::collections::BTreeMap;

/// Files in memory, which tell their bytes and fail exactly at the calls that they are told, and for
/// names that aren't held.
#[derive(Debug, Drop)]
pub struct MemFiles {
    files: BTreeMap<String, Vec<u8>>,
    calls: Calls,
}

impl MemFiles {
    ghost use Rattle.std.specs.Option.{option_map};
    ghost use Rattle.std.specs.BTreeMap.{get_by_text};
    ghost use Rattle.aql_io.specs.InMemory.{no_calls};
    ghost use Rattle.aql_io.specs.Held.{names_in, calls_on};

    /// The files that `files` holds, by their names.
    ///
    /// The reads whose numbers, from 1, stand in `fail` fail, and those of names that aren't held,
    /// and no other. Numbers stop at 2^64 - 1.
    pub fn new(files: BTreeMap<String, Vec<u8>>, fail: Vec<u64>) -> MemFiles
        ensures names { names_in result ≡ (λ name. option_map (λ bytes. bytes.items) (get_by_text files name)) }
        ensures calls { calls_on result ≡ no_calls fail.items }
    {
        let calls = Calls::new(fail);
        MemFiles { files, calls }
    }
}

impl Files for MemFiles {
    ghost use Rattle.aql_io.specs.InMemory.{NextIsListed, after_call};
    ghost use Rattle.aql_io.specs.Held.{names_in, calls_on};

    ghost told = { λ f. Some (names_in f) };

    ghost faults = { λ f. (calls_on f).faults };

    /// Gives the file's bytes at the place: as many as `buf` has room for and the file has there.
    fn read(&mut self, name: &str, at: u64, buf: &mut [u8]) -> Result<usize, Failed>
        ensures bound { ReadsAtMost result buf.new }
        ensures bytes { ReadsAt (names_in self.old name.now) at result buf.new }
        ensures told { Some (names_in self.new) ≡ Some (names_in self.old) }
        ensures cause { HasCause (calls_on self.old).faults (calls_on self.new).faults result }
        ensures fails { IsErr result ↔ (NextIsListed (calls_on self.old) ⊎ (names_in self.old name.now ≡ None)) }
        ensures count { IfOk result (λ n. IfSome (names_in self.old name.now)
            (λ bytes. n ≡ min (length buf.old) (length bytes - at))) }
        ensures calls { calls_on self.new ≡ after_call (calls_on self.old) result }
    {
        if self.calls.begin() {
            return Err(self.calls.fail());
        }
        match self.files.get(name) {
            Some(bytes) => Ok(give_at(bytes.as_slice(), at, buf)),
            None => Err(self.calls.fail()),
        }
    }
}

/// Copies bytes of `file` from place `at` on to the front of `buf`, and answers how many.
fn give_at(file: &[u8], at: u64, buf: &mut [u8]) -> usize
    ensures count { result ≡ min (length buf.old) (length file.now - at) }
    ensures bytes { take result buf.new ≡ take result (drop at file.now) }
{
    let at = at as usize;
    if at < file.len() {
        give(&file[at..], usize::MAX, buf)
    } else {
        0
    }
}
