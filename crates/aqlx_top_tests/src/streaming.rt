//! Output isn't held back: a source that looks, at each of its reads, how much stands on the output.
ghost use Rattle.std.specs.Prelude.{Some, false, true};

use crate::setup::{NUMBERS, Setup, call, repeated, sink_of, source_of, usual};
use aql_io::{Failed, MemSink, MemSource, Sink, Source, SureSource};
use run_pool::Workers;
use std::alloc::Global;
use std::process::Abort;
use std::sync::atomic::{AtomicUsize, Ordering};
use std::test::Fail;
use std::thread::Threads;

/// A sink that shows how many bytes it holds.
#[derive(Drop)]
pub(crate) struct Shown<'a> {
    pub(crate) inner: MemSink,
    pub(crate) length: &'a AtomicUsize,
}

impl Sink for Shown<'_> {
    ghost held = { λ s. Some s.inner.held };

    ghost flushed = { λ s. s.inner.flushed };

    ghost faults = { λ s. s.inner.calls.faults };

    fn write(&mut self, piece: &[u8]) -> Result<usize, Failed> {
        let taken = self.inner.write(piece)?;
        self.length
            .store(self.inner.bytes().len(), Ordering::Relaxed);
        Ok(taken)
    }

    fn flush(&mut self) -> Result<(), Failed> {
        self.inner.flush()
    }
}

/// A source that keeps what the sink held at each of its reads.
#[derive(Drop)]
struct Looking<'a> {
    inner: MemSource,
    length: &'a AtomicUsize,
    seen: Vec<usize>,
}

impl Source for Looking<'_> {
    ghost left = { λ s. Some s.inner.left };

    ghost faults = { λ s. s.inner.calls.faults };

    ghost looks = { λ _. false };

    fn read(&mut self, buf: &mut [u8]) -> Result<usize, Failed> {
        let _kept = self.seen.push(self.length.load(Ordering::Relaxed));
        self.inner.read(buf)
    }

    fn look(&self, at: usize, buf: &mut [u8]) -> usize {
        self.inner.look(at, buf)
    }

    fn pass(&mut self, count: usize) {
        self.inner.pass(count);
    }
}

/// What the sink held at each read of the corpus; nothing where the run ended with a fault.
fn seen_at_reads<R: Threads + Sync>(
    rt: &R,
    alloc: Global,
    setup: &Setup<'_>,
) -> Result<Vec<usize>, Fail> {
    let length = AtomicUsize::new(0);
    let mut source = Looking {
        inner: source_of(alloc, setup)?,
        length: &length,
        seen: Vec::new(alloc),
    };
    let mut out = Shown {
        inner: sink_of(alloc, 1 << 20, 1 << 20, &[])?,
        length: &length,
    };
    let (code, _err) = call(rt, alloc, setup, &mut source, &mut out, &mut Workers)?;
    if code == 0 {
        Ok(source.seen)
    } else {
        Ok(Vec::new(alloc))
    }
}

/// Asserts what the sink holds at each read of the corpus.
fn holds_at_reads<R: Threads + Sync + Abort>(
    rt: &R,
    alloc: Global,
    setup: &Setup<'_>,
    wanted: &[usize],
    workers: &str,
) -> Result<(), Fail> {
    let piece = setup.piece;
    let seen = seen_at_reads(rt, alloc, setup)?;
    assert_eq!(rt;
        seen.as_slice(),
        wanted,
        "by reads of {piece} bytes, {workers} workers"
    );
    Ok(())
}

/// Three documents: a line is 13 bytes, and its output 57.
const THREE_DOCUMENTS: &str = "{\"text\":\"1\"}\n{\"text\":\"2\"}\n{\"text\":\"3\"}\n";

/// Each row: how many bytes a read brings, and what the sink holds at each. By 26 bytes the first read ends with a
/// line, by 30 within one, and by 5 most bring no line to its end.
const HELD: [(usize, &[usize]); 3] = [
    (26, &[0, 114, 171]),
    (30, &[0, 114, 171]),
    (5, &[0, 0, 0, 57, 57, 57, 114, 114, 171]),
];

#[test]
fn what_is_there_is_written_before_each_later_read(rt: HostRuntime) -> Result<(), Fail> {
    for (piece, wanted) in &HELD {
        for workers in &["1", "4"] {
            let words = ["run", "p.aql", "--workers", *workers];
            let setup = Setup {
                words: &words,
                piece: *piece,
                ..usual(NUMBERS, THREE_DOCUMENTS)
            };
            holds_at_reads(&rt, rt.alloc(), &setup, wanted, workers)?;
        }
    }
    Ok(())
}

/// So many documents of 192 bytes.
fn padded(alloc: Global, count: usize) -> Result<String, Fail> {
    let pad = repeated(alloc, "x", 170)?;
    let line = format!(in alloc; "{{\"text\":\"1\",\"pad\":\"{pad}\"}}\n")?;
    repeated(alloc, line.as_str(), count)
}

#[test]
fn output_begins_before_a_million_bytes_of_ten_thousand_documents_are_read(
    rt: HostRuntime,
) -> Result<(), Fail> {
    let alloc = rt.alloc();
    let corpus = padded(alloc, 10_000)?;
    let piece = 10_007;
    let setup = Setup {
        piece,
        ..usual(NUMBERS, corpus.as_str())
    };
    let seen = seen_at_reads(&rt, alloc, &setup)?;
    assert!(rt; seen.len() > 190);
    let read_before = seen.iter().take_while(|length| **length == 0).count();
    assert!(rt; read_before.saturating_sub(1).saturating_mul(piece) < 1_000_000);
    assert_eq!(rt; read_before, 1);
    Ok(())
}

/// A source that shows what is left, and counts its reads.
#[derive(Drop)]
struct Counted<'a> {
    inner: SureSource,
    reads: &'a AtomicUsize,
}

impl Source for Counted<'_> {
    ghost left = { λ s. Some s.inner };

    ghost faults = { λ _. 0 };

    ghost looks = { λ _. true };

    fn read(&mut self, buf: &mut [u8]) -> Result<usize, Failed> {
        self.reads.fetch_add(1, Ordering::Relaxed);
        self.inner.read(buf)
    }

    fn look(&self, at: usize, buf: &mut [u8]) -> usize {
        self.inner.look(at, buf)
    }

    fn pass(&mut self, count: usize) {
        self.inner.pass(count);
    }
}

/// How often a run by so many workers reads a corpus that shows what is left.
fn reads_by<R: Threads + Sync + Abort>(
    rt: &R,
    alloc: Global,
    corpus: &str,
    workers: &str,
) -> Result<usize, Fail> {
    let words = ["run", "p.aql", "--workers", workers];
    let setup = Setup {
        words: &words,
        ..usual(NUMBERS, "")
    };
    let reads = AtomicUsize::new(0);
    let mut source = Counted {
        inner: SureSource::new(Vec::from_slice(alloc, corpus.as_bytes())?),
        reads: &reads,
    };
    let mut out = sink_of(alloc, 1 << 21, 1 << 20, &[])?;
    let (code, _err) = call(rt, alloc, &setup, &mut source, &mut out, &mut Workers)?;
    assert_eq!(rt; code, 0, "{workers} workers");
    Ok(reads.load(Ordering::Relaxed))
}

#[test]
fn several_workers_look_at_what_a_corpus_shows_and_read_little_of_it(
    rt: HostRuntime,
) -> Result<(), Fail> {
    let alloc = rt.alloc();
    let corpus = padded(alloc, 20_000)?;
    // one worker reads all of it, and of several the first line and the end
    let alone = reads_by(&rt, alloc, corpus.as_str(), "1")?;
    assert!(rt; alone > 50, "{alone} reads by one worker");
    let shared = reads_by(&rt, alloc, corpus.as_str(), "4")?;
    assert!(rt; shared < 5, "{shared} reads by four");
    Ok(())
}
