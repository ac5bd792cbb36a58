use super::*;
use std::alloc::{AllocError, Global};
use std::cell::Cell;
use std::collections::BTreeMap;
use std::io::{Cursor, Read, Write};
use std::os::unix::fs::FileExt;
use std::process::Abort;
use std::test::Fail;
use std::{fs, io};

/// Asks for a piece, None for a call that failed.
fn is_piece(rt: &impl Abort, got: Option<&[u8]>, want: Option<&str>) {
    assert_eq!(rt; got, want.map(str::as_bytes));
}

/// Asks of calls of a source, each with a buffer of `room` bytes, at most 8, for these pieces, None for a call
/// that fails.
fn gives<S: Source>(rt: &impl Abort, source: &mut S, room: usize, pieces: &[Option<&str>]) {
    for want in pieces {
        let mut buf = [0u8; 8];
        let n = room.min(8);
        match source.read(&mut buf[..n]) {
            Ok(count) => is_piece(rt, Some(&buf[..count]), *want),
            Err(Failed) => is_piece(rt, None, *want),
        }
    }
}

/// A source of `abcdefg` in memory.
fn source_in_memory(alloc: Global, piece: usize, fail: &[u64]) -> Result<MemSource, AllocError> {
    let fail = fail.to_vec(alloc)?;
    let bytes = b"abcdefg".to_vec(alloc)?;
    Ok(MemSource::new(bytes, piece.max(1), fail))
}

/// The most bytes of a piece, the room for it, the calls that fail, and what each call gives.
static SOURCES: [(usize, usize, &[u64], &[Option<&str>]); 5] = [
    (
        8,
        8,
        &[],
        &[Some("abcdefg"), Some(""), Some(""), Some(""), Some("")],
    ),
    (
        3,
        8,
        &[],
        &[Some("abc"), Some("def"), Some("g"), Some(""), Some("")],
    ),
    (
        8,
        2,
        &[],
        &[Some("ab"), Some("cd"), Some("ef"), Some("g"), Some("")],
    ),
    (
        3,
        8,
        &[1, 3, 5],
        &[None, Some("abc"), None, Some("def"), None],
    ),
    (8, 0, &[2], &[Some(""), None, Some(""), Some(""), Some("")]),
];

#[test]
fn a_source_in_memory_gives_pieces_and_fails_as_listed(rt: HostRuntime) -> Result<(), Fail> {
    for (piece, room, fail, pieces) in SOURCES {
        let mut source = source_in_memory(rt.alloc(), piece, fail)?;
        gives(&rt, &mut source, room, pieces);
    }
    Ok(())
}

#[test]
fn a_sure_source_gives_all_and_then_its_end(rt: HostRuntime) -> Result<(), Fail> {
    let mut source = SureSource::new(b"abcdefghij".to_vec(rt.alloc())?);
    gives(
        &rt,
        &mut source,
        8,
        &[Some("abcdefgh"), Some("ij"), Some("")],
    );
    Ok(())
}

/// Asks of a look at so many bytes behind the next one, with a buffer of `room` bytes, at most 8, for these bytes.
fn shows<S: Source>(rt: &impl Abort, source: &S, at: usize, room: usize, want: &str) {
    let mut buf = [0u8; 8];
    let n = room.min(8);
    let count = source.look(at, &mut buf[..n]);
    is_piece(rt, Some(&buf[..count]), Some(want));
}

#[test]
fn what_is_left_is_looked_at_where_it_stands(rt: HostRuntime) -> Result<(), Fail> {
    let mut source = SureSource::new(b"abcdefghij".to_vec(rt.alloc())?);
    shows(&rt, &source, 0, 3, "abc");
    shows(&rt, &source, 4, 8, "efghij");
    shows(&rt, &source, 10, 8, "");
    shows(&rt, &source, 1_000, 8, "");
    shows(&rt, &source, 2, 0, "");
    source.pass(4);
    shows(&rt, &source, 1, 2, "fg");
    source.pass(0);
    source.pass(1);
    gives(&rt, &mut source, 3, &[Some("fgh")]);
    shows(&rt, &source, 0, 8, "ij");
    gives(&rt, &mut source, 8, &[Some("ij"), Some("")]);
    shows(&rt, &source, 0, 8, "");
    Ok(())
}

#[test]
fn a_source_of_pieces_shows_nothing(rt: HostRuntime) -> Result<(), Fail> {
    let source = source_in_memory(rt.alloc(), 8, &[])?;
    shows(&rt, &source, 0, 8, "");
    let stream = RealSource::new(Cursor::new(b"abc".as_slice()));
    shows(&rt, &stream, 0, 8, "");
    Ok(())
}

#[test]
fn a_file_is_read_from_a_place_on_and_looked_at(rt: HostRuntime) -> Result<(), Fail> {
    fs::write(&rt, "looked.txt", b"abcdefghij")?;
    let mut source = FileSource::new(fs::File::open(&rt, "looked.txt")?, 1);
    shows(&rt, &source, 0, 3, "bcd");
    gives(&rt, &mut source, 3, &[Some("bcd")]);
    shows(&rt, &source, 0, 8, "efghij");
    shows(&rt, &source, 2, 3, "ghi");
    shows(&rt, &source, 6, 3, "");
    shows(&rt, &source, 60, 3, "");
    source.pass(4);
    gives(&rt, &mut source, 1, &[Some("i")]);
    shows(&rt, &source, 0, 8, "j");
    source.pass(1);
    shows(&rt, &source, 0, 8, "");
    gives(&rt, &mut source, 8, &[Some(""), Some("")]);
    Ok(())
}

#[test]
fn a_file_is_looked_at_far_behind_what_was_read(rt: HostRuntime) -> Result<(), Fail> {
    let mut bytes = Vec::new(rt.alloc());
    bytes.resize(200_000, b'-')?;
    bytes.extend_from_slice(b"end")?;
    fs::write(&rt, "far.txt", bytes.as_slice())?;
    let mut source = FileSource::new(fs::File::open(&rt, "far.txt")?, 100_000);
    shows(&rt, &source, 65_536, 1, "-");
    shows(&rt, &source, 99_998, 8, "--end");
    source.pass(70_000);
    shows(&rt, &source, 29_999, 8, "-end");
    Ok(())
}

/// A file of `abcdef` whose reads with these numbers, from 1, fail.
#[derive(Drop)]
struct Faulty {
    fails: [u64; 2],
    made: Cell<u64>,
}

impl FileExt for Faulty {
    fn read_at(&self, buf: &mut [u8], offset: u64) -> io::Result<usize> {
        let made = self.made.get().saturating_add(1);
        self.made.set(made);
        if self.fails[0] == made || self.fails[1] == made {
            return Err(io::Error::from(io::ErrorKind::Other));
        }
        let bytes = b"abcdef".as_slice();
        let from = bytes.len().min(offset as usize);
        let n = buf.len().min(bytes.len() - from);
        buf[..n].copy_from_slice(&bytes[from..from + n]);
        Ok(n)
    }

    fn write_at(&self, _buf: &[u8], _offset: u64) -> io::Result<usize> {
        Ok(0)
    }
}

#[test]
fn a_look_that_fails_is_no_read_and_a_read_that_fails_takes_nothing(
    rt: HostRuntime,
) -> Result<(), Fail> {
    let file = Faulty {
        fails: [2, 3],
        made: Cell::new(0),
    };
    let mut source = FileSource::new(file, 0);
    gives(&rt, &mut source, 2, &[Some("ab")]);
    shows(&rt, &source, 0, 4, "");
    gives(
        &rt,
        &mut source,
        3,
        &[None, Some("cde"), Some("f"), Some("")],
    );
    Ok(())
}

#[test]
fn a_borrowed_source_takes_from_its_owner(rt: HostRuntime) -> Result<(), Fail> {
    let mut source = SureSource::new(b"abcdef".to_vec(rt.alloc())?);
    shows(&rt, &&mut source, 4, 8, "ef");
    gives(&rt, &mut &mut source, 4, &[Some("abcd")]);
    gives(&rt, &mut source, 4, &[Some("ef")]);
    Ok(())
}

/// Asks of one read with room for 4 bytes for these, None for a read that fails.
fn is_read<F: Files>(rt: &impl Abort, files: &mut F, name: &str, at: u64, want: Option<&str>) {
    let mut buf = [0u8; 4];
    match files.read(name, at, &mut buf) {
        Ok(n) => is_piece(rt, Some(&buf[..n]), want),
        Err(Failed) => is_piece(rt, None, want),
    }
}

/// Reads of the files in memory, in their order: the fourth is one that is listed.
static READS: [(&str, u64, Option<&str>); 7] = [
    ("a", 0, Some("abcd")),
    ("a", 4, Some("ef")),
    ("a", 6, Some("")),
    ("a", 0, None),
    ("a", 1_000_000_000_000, Some("")),
    ("missing", 0, None),
    ("empty", 0, Some("")),
];

/// A file `a` and an empty one in memory.
fn files_in_memory(alloc: Global) -> Result<MemFiles, AllocError> {
    let mut map = BTreeMap::new(alloc);
    map.insert(String::from_str(alloc, "a")?, b"abcdef".to_vec(alloc)?)?;
    map.insert(String::from_str(alloc, "empty")?, Vec::new(alloc))?;
    Ok(MemFiles::new(map, [4u64].to_vec(alloc)?))
}

#[test]
fn files_in_memory_are_read_at_any_place_and_fail_as_listed(rt: HostRuntime) -> Result<(), Fail> {
    let mut files = files_in_memory(rt.alloc())?;
    for (name, at, want) in READS {
        is_read(&rt, &mut files, name, at, want);
    }
    Ok(())
}

/// Asks of a write of `piece` for how many bytes are taken, None for a write that fails.
fn takes<O: Sink>(rt: &impl Abort, sink: &mut O, piece: &str, want: Option<usize>, case: &str) {
    assert_eq!(rt; sink.write(piece.as_bytes()).ok(), want, "{case}");
}

/// Asks of a flush whether it passes.
fn flushes<O: Sink>(rt: &impl Abort, sink: &mut O, want: bool, case: &str) {
    assert_eq!(rt; sink.flush().is_ok(), want, "{case}");
}

#[test]
fn a_sink_in_memory_takes_pieces_and_fails_as_listed_or_without_room(
    rt: HostRuntime,
) -> Result<(), Fail> {
    let alloc = rt.alloc();
    let mut sink = MemSink::new(alloc, 7, 4, [2u64, 5].to_vec(alloc)?)?;
    takes(&rt, &mut sink, "abcdef", Some(4), "a piece of four");
    takes(&rt, &mut sink, "xyz", None, "the second call is listed");
    takes(&rt, &mut sink, "", Some(0), "an empty piece");
    flushes(&rt, &mut sink, true, "no call that is listed");
    flushes(
        &rt,
        &mut sink,
        false,
        "flushes are numbered with the writes",
    );
    takes(&rt, &mut sink, "efgh", Some(3), "room for three");
    takes(&rt, &mut sink, "h", None, "no room");
    takes(&rt, &mut sink, "", Some(0), "an empty piece needs no room");
    is_piece(&rt, Some(sink.bytes()), Some("abcdefg"));
    Ok(())
}

#[test]
fn a_count_sink_counts_what_it_takes(rt: HostRuntime) {
    let mut sink = CountSink::new();
    takes(&rt, &mut sink, "abc", Some(3), "all of it");
    takes(&rt, &mut sink, "", Some(0), "an empty piece");
    takes(&rt, &mut &mut sink, "defg", Some(4), "through a loan");
    flushes(&rt, &mut sink, true, "what is counted");
    assert!(rt; sink.count() == 7);
}

/// A reader and writer of std that fails at its second call.
#[derive(Drop)]
struct Flaky {
    calls: u64,
}

impl Flaky {
    fn call(&mut self) -> io::Result<()> {
        self.calls = self.calls.saturating_add(1);
        if self.calls == 2 {
            return Err(io::Error::from(io::ErrorKind::Other));
        }
        Ok(())
    }
}

impl Read for Flaky {
    fn read(&mut self, _buf: &mut [u8]) -> io::Result<usize> {
        self.call()?;
        Ok(0)
    }
}

impl Write for Flaky {
    fn write(&mut self, buf: &[u8]) -> io::Result<usize> {
        self.call()?;
        Ok(buf.len().min(1))
    }

    fn flush(&mut self) -> io::Result<()> {
        self.call()
    }
}

#[test]
fn a_real_source_hands_through_what_its_reader_gives(rt: HostRuntime) -> Result<(), Fail> {
    let mut source = RealSource::new(Cursor::new(b"abcdef".to_vec(rt.alloc())?));
    gives(&rt, &mut source, 4, &[Some("abcd"), Some("ef"), Some("")]);
    let mut flaky = RealSource::new(Flaky { calls: 0 });
    gives(&rt, &mut flaky, 4, &[Some(""), None, Some("")]);
    Ok(())
}

#[test]
fn a_real_sink_hands_on_to_its_writer(rt: HostRuntime) {
    let mut sink = RealSink::new(Flaky { calls: 0 });
    takes(&rt, &mut sink, "ab", Some(1), "one byte at most");
    takes(&rt, &mut sink, "b", None, "the second call");
    flushes(&rt, &mut sink, true, "the third call");
    let mut flush_fails = RealSink::new(Flaky { calls: 1 });
    flushes(&rt, &mut flush_fails, false, "the second call");
}

#[test]
fn real_files_are_read_at_any_place_and_a_missing_one_fails(rt: HostRuntime) -> Result<(), Fail> {
    let name = "aql_io_real_files_are_read.txt";
    fs::write(&rt, name, "abcdef")?;
    let mut files = RealFiles::new(&rt);
    is_read(&rt, &mut files, name, 0, Some("abcd"));
    is_read(&rt, &mut files, name, 4, Some("ef"));
    is_read(&rt, &mut files, name, 6, Some(""));
    fs::remove_file(&rt, name)?;
    is_read(&rt, &mut files, name, 0, None);
    is_read(&rt, &mut files, ".", 0, None);
    Ok(())
}
