ghost use Rattle.std.specs.Prelude.{◌≡◌, ◌≢◌, ℕ, ◌<◌, ◌≤◌, ◌^◌, IfOk, IfSome, Ok, None, vec_len, length};
ghost use Rattle.aql_io.specs.Causes.{Rose};
ghost use Rattle.aqlx_top.specs.ProgramFile.{IsFrontOf, IsSoFar, Goes};

use aql_io::{Failed, Files};
use span_token::OutOfMemory;
use std::alloc::Global;

/// How many bytes of a file are asked for at once.
const PIECE: usize = 4096;

/// What one read of a file came to.
pub(crate) enum Reach {
    More,
    End,
    Failed,
}

/// The bytes of the file `name`, or its first `most` bytes where it has more; None where a read failed.
pub(crate) fn read_file<F: Files>(
    alloc: Global,
    files: &mut F,
    name: &str,
    most: usize,
) -> Result<Option<Vec<u8>>, OutOfMemory>
    requires some { 0 < most }
    requires small { most < 2 ^ 40 }
    ensures bytes { IfOk result (λ read. IfSome read (λ bytes. IfSome (F.told files.old) (λ names. IsFrontOf (names name.now) most bytes.items))) }
    ensures stands { IfOk result (λ read. IfSome read (λ _. F.faults files.new ≡ F.faults files.old)) }
    ensures failed { result ≡ Ok None → Rose (F.faults files.old) (F.faults files.new) }
    ensures told { F.told files.new ≡ F.told files.old }
    ensures later { F.faults files.old ≤ F.faults files.new }
{
    let mut piece = [0u8; PIECE];
    read_by_pieces(alloc, files, name, most, &mut piece)
}

fn read_by_pieces<F: Files>(
    alloc: Global,
    files: &mut F,
    name: &str,
    most: usize,
    piece: &mut [u8],
) -> Result<Option<Vec<u8>>, OutOfMemory>
    requires some { 0 < most }
    requires small { most < 2 ^ 40 }
    requires room { 0 < length piece.old }
    ensures bytes { IfOk result (λ read. IfSome read (λ bytes. IfSome (F.told files.old) (λ names. IsFrontOf (names name.now) most bytes.items))) }
    ensures stands { IfOk result (λ read. IfSome read (λ _. F.faults files.new ≡ F.faults files.old)) }
    ensures failed { result ≡ Ok None → Rose (F.faults files.old) (F.faults files.new) }
    ensures told { F.told files.new ≡ F.told files.old }
    ensures later { F.faults files.old ≤ F.faults files.new }
{
    let mut bytes = Vec::new(alloc);
    while bytes.len() < most {
        let room = piece.len().min(most - bytes.len());
        match read_next(files, name, &mut bytes, &mut piece[..room])? {
            Reach::More => {}
            Reach::End => return Ok(Some(bytes)),
            Reach::Failed => return Ok(None),
        }
    }
    Ok(Some(bytes))
}

/// Puts the next bytes of the file `name` after `bytes`, which are its first ones.
fn read_next<F: Files>(
    files: &mut F,
    name: &str,
    bytes: &mut Vec<u8>,
    piece: &mut [u8],
) -> Result<Reach, OutOfMemory>
    requires room { 0 < length piece.old }
    requires so_far { IfSome (F.told files.old) (λ names. IsSoFar (names name.now) bytes.old.items) }
    ensures bytes { IfOk result (λ reach. IfSome (F.told files.old) (λ names. IsSoFar (names name.now) bytes.new.items)) }
    ensures goes { IfOk result (λ reach. Goes reach (vec_len bytes.old) (vec_len bytes.new) (length piece.old)) }
    ensures end { IfOk result (λ reach. reach ≡ Reach.End → IfSome (F.told files.old) (λ names. (most : ℕ) → vec_len bytes.old ≤ most → IsFrontOf (names name.now) most bytes.new.items)) }
    ensures stands { IfOk result (λ reach. reach ≢ Reach.Failed → F.faults files.new ≡ F.faults files.old) }
    ensures failed { IfOk result (λ reach. reach ≡ Reach.Failed → Rose (F.faults files.old) (F.faults files.new)) }
    ensures told { F.told files.new ≡ F.told files.old }
    ensures later { F.faults files.old ≤ F.faults files.new }
{
    match files.read(name, bytes.len() as u64, piece) {
        Ok(0) => Ok(Reach::End),
        Ok(taken) => {
            bytes.extend_from_slice(&piece[..taken])?;
            Ok(Reach::More)
        }
        Err(Failed) => Ok(Reach::Failed),
    }
}
