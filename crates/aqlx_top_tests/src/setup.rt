//! A run of the top call over files, a source and sinks in memory.
use aql_io::{MemFiles, MemSink, MemSource, Sink, Source};
use aqlx_top::aqlx;
use run_pool::{Pool, Workers};
use std::alloc::Global;
use std::collections::BTreeMap;
use std::process::Abort;
use std::test::Fail;
use std::thread::Threads;

/// The program of one view that finds numbers.
pub const NUMBERS: &str =
    "create view P as extract regex /[0-9]+/ on D.text as num from Document D; output view P;";

/// A program that finds each digit by itself.
pub const DIGITS: &str =
    "create view P as extract regex /[0-9]/ on D.text as digit from Document D; \
    output view P;";

/// The line that it writes for a document whose text is the digit 1.
pub const DIGIT: &str = "{\"views\":{\"P\":[{\"num\":{\"begin\":0,\"end\":1,\"text\":\"1\"}}]}}\n";

/// And for one without a number.
pub const NO_MATCH: &str = "{\"views\":{\"P\":[]}}\n";

/// A program of persons and their telephone numbers, of two outputs.
pub const PERSONS: &str =
    r#"create dictionary FirstNames as ('Ann','John','Maria'); create view FirstName as extract dictionary 'FirstNames' on D.text as name from Document D; create view Caps as extract regex /[A-Z][a-z]+/ on 1 tokens in D.text as word from Document D; create view Person as select CombineSpans(F.name, C.word) as name from FirstName F, Caps C where FollowsTok(F.name, C.word, 0, 0) consolidate on name using 'ContainedWithin'; create view Phone as extract regex /\d{3}-\d{4}/ on D.text as number from Document D; create view PersonPhone as select P.name as person, N.number as phone from Person P, Phone N where Follows(P.name, N.number, 0, 20) order by person; output view PersonPhone; output view Person;"#;

/// A document of two persons.
pub const PERSONS_DOCUMENT: &str =
    r#"{"label":"m1","text":"Call John Smith at 555-0134 or Ann Lee, 555-0199."}"#;

/// Its line.
pub const PERSONS_LINE: &str =
    r#"{"label":"m1","views":{"Person":[{"name":{"begin":5,"end":15,"text":"John Smith"}},{"name":{"begin":31,"end":38,"text":"Ann Lee"}}],"PersonPhone":[{"person":{"begin":5,"end":15,"text":"John Smith"},"phone":{"begin":19,"end":27,"text":"555-0134"}},{"person":{"begin":31,"end":38,"text":"Ann Lee"},"phone":{"begin":40,"end":48,"text":"555-0199"}}]}}"#;

/// The summary of the demonstration on two documents, written by another program.
pub const DEMO_OF_2: &str =
    "documents 2\nDate 2\nDigits 3\nFirstPerson 2\nLongName 3\nLowerName 0\nNumberRun 6\nPerson 5\nPersonCity 1\nPersonOrg 2\nPersonPhone 1\nPersonRole 0\n";

/// What stands on standard error after a read that failed.
pub const READ_FAULT: &str = "aqlx: read fault\n";

/// A corpus of one document without a number.
pub const NO_NUMBERS: &str = "{\"text\":\"none\"}\n";

/// What a run came to: its exit status, and what stands on the output and on standard error.
#[derive(Drop)]
pub struct Ran {
    pub code: u8,
    pub out: MemSink,
    pub err: MemSink,
}

/// How a run is set up: its words, program and corpus, the corpus's pieces, and the calls that fail.
#[derive(Clone, Copy)]
pub struct Setup<'a> {
    pub words: &'a [&'a str],
    pub program: &'a [u8],
    pub file_fails: &'a [u64],
    pub corpus: &'a [u8],
    pub piece: usize,
    pub source_fails: &'a [u64],
    pub out_piece: usize,
    pub out_fails: &'a [u64],
    pub err_fails: &'a [u64],
}

/// A run of a program over a corpus, in pieces of ten bytes, without a call that fails.
pub(crate) fn usual<'a>(program: &'a str, corpus: &'a str) -> Setup<'a> {
    Setup {
        words: &["run", "p.aql"],
        program: program.as_bytes(),
        file_fails: &[],
        corpus: corpus.as_bytes(),
        piece: 10,
        source_fails: &[],
        out_piece: 10,
        out_fails: &[],
        err_fails: &[],
    }
}

/// Runs it, and asserts what it comes to: its exit status, the output, and the line on standard error.
///
/// `row` says which run it is, where it comes to something else.
pub(crate) fn comes_to<R: Threads + Sync + Abort>(
    rt: &R,
    alloc: Global,
    setup: &Setup<'_>,
    wanted: (u8, &[u8], &str),
    row: (&str, u64),
) -> Result<(), Fail> {
    comes_by(rt, alloc, setup, &mut Workers, wanted, row)
}

/// Runs it by a pool, and asserts what it comes to.
pub(crate) fn comes_by<R: Threads + Sync + Abort, P: Pool>(
    rt: &R,
    alloc: Global,
    setup: &Setup<'_>,
    pool: &mut P,
    wanted: (u8, &[u8], &str),
    row: (&str, u64),
) -> Result<(), Fail> {
    let (code, out, line) = wanted;
    let (of, at) = row;
    let ran = run_by(rt, alloc, setup, pool)?;
    assert_eq!(rt; ran.err.bytes(), line.as_bytes(), "of {of}, {at}");
    assert_eq!(rt; ran.code, code, "of {of}, {at}");
    assert!(rt; ran.out.bytes() == out, "the output of {of}, {at}");
    Ok(())
}

/// By how many workers a program is run, over how many bytes of lines at least, and in pieces of how many bytes these
/// are read and what is written goes out.
pub(crate) type Run = (&'static str, usize, usize);

/// Of 17,000 bytes that are there at once more than one worker takes lines.
const RUNS: [Run; 4] = [
    ("1", 1, 10),
    ("1", 17_000, 65_536),
    ("4", 17_000, 65_536),
    ("16", 17_000, 65_536),
];

/// Three large lines that are there at once are evaluated together.
pub(crate) const IN_A_WINDOW: Run = ("4", 200_000, 1 << 20);

/// Asserts what each run writes of a row: a program, lines, and what is written for these.
pub(crate) fn are_written<R: Threads + Sync + Abort>(
    rt: &R,
    alloc: Global,
    row: (&str, &str, &str),
) -> Result<(), Fail> {
    for run in &RUNS {
        is_written(rt, alloc, row, run)?;
    }
    Ok(())
}

/// Asserts what one run writes of a row, whose lines stand in the corpus as often as it takes.
pub(crate) fn is_written<R: Threads + Sync + Abort>(
    rt: &R,
    alloc: Global,
    row: (&str, &str, &str),
    run: &Run,
) -> Result<(), Fail> {
    let (program, lines, out) = row;
    let (workers, bytes, piece) = *run;
    let lines = format!(in alloc; "{lines}\n")?;
    let count = bytes.div_ceil(lines.len().max(1));
    let corpus = repeated(alloc, lines.as_str(), count)?;
    let out = repeated(alloc, out, count)?;
    let words = ["run", "p.aql", "--workers", workers];
    let setup = Setup {
        words: &words,
        piece,
        out_piece: piece,
        ..usual(program, corpus.as_str())
    };
    let wanted = (0, out.as_bytes(), "");
    comes_to(rt, alloc, &setup, wanted, (program, count as u64))
}

/// A document with 70,000 letters in a member that nobody reads.
pub(crate) fn padded(alloc: Global, document: &str) -> Result<String, Fail> {
    let letters = repeated(alloc, "x", 70_000)?;
    let members = document.strip_prefix("{").unwrap_or("}");
    Ok(format!(in alloc; "{{\"pad\":\"{letters}\",{members}")?)
}

/// A text so many times, one behind another.
pub(crate) fn repeated(alloc: Global, part: &str, count: usize) -> Result<String, Fail> {
    let mut all = String::new(alloc);
    for _ in 0..count {
        all.push_str(part)?;
    }
    Ok(all)
}

/// Runs it over objects in memory.
pub(crate) fn run<R: Threads + Sync>(
    rt: &R,
    alloc: Global,
    setup: &Setup<'_>,
) -> Result<Ran, Fail> {
    run_by(rt, alloc, setup, &mut Workers)
}

/// Runs it by a pool.
pub(crate) fn run_by<R: Threads + Sync, P: Pool>(
    rt: &R,
    alloc: Global,
    setup: &Setup<'_>,
    pool: &mut P,
) -> Result<Ran, Fail> {
    let mut corpus = source_of(alloc, setup)?;
    let mut out = sink_of(alloc, 1 << 20, setup.out_piece, setup.out_fails)?;
    let (code, err) = call(rt, alloc, setup, &mut corpus, &mut out, pool)?;
    Ok(Ran { code, out, err })
}

/// Makes the call over this source and this sink: its exit status, and what stands on standard error.
pub(crate) fn call<R: Threads + Sync, S: Source + Sync, O: Sink, P: Pool>(
    rt: &R,
    alloc: Global,
    setup: &Setup<'_>,
    corpus: &mut S,
    out: &mut O,
    pool: &mut P,
) -> Result<(u8, MemSink), Fail> {
    let words = words_of(alloc, setup.words)?;
    let mut files = files_of(alloc, setup)?;
    let mut err = sink_of(alloc, 4096, 4096, setup.err_fails)?;
    let status = aqlx(rt, alloc, &words, &mut files, corpus, out, &mut err, pool)?;
    Ok((status.code(), err))
}

/// The words of the command.
fn words_of(alloc: Global, words: &[&str]) -> Result<Vec<String>, Fail> {
    let mut all = Vec::new(alloc);
    for word in words {
        all.push(String::from_str(alloc, word)?)?;
    }
    Ok(all)
}

/// The program file, whose reads fail where the setup says so.
fn files_of(alloc: Global, setup: &Setup<'_>) -> Result<MemFiles, Fail> {
    let mut held = BTreeMap::new(alloc);
    held.insert(
        String::from_str(alloc, "p.aql")?,
        Vec::from_slice(alloc, setup.program)?,
    )?;
    Ok(MemFiles::new(held, Vec::from_slice(alloc, setup.file_fails)?))
}

/// The corpus, in pieces, whose reads fail where the setup says so.
pub(crate) fn source_of(alloc: Global, setup: &Setup<'_>) -> Result<MemSource, Fail> {
    let bytes = Vec::from_slice(alloc, setup.corpus)?;
    let fails = Vec::from_slice(alloc, setup.source_fails)?;
    Ok(MemSource::new(bytes, setup.piece.max(1), fails))
}

/// A sink with room for so many bytes, that takes at most `piece` bytes in a call, and whose calls fail that are
/// named.
pub(crate) fn sink_of(
    alloc: Global,
    room: usize,
    piece: usize,
    fails: &[u64],
) -> Result<MemSink, Fail> {
    let fails = Vec::from_slice(alloc, fails)?;
    let sink = MemSink::new(alloc, room, piece.max(1), fails)?;
    Ok(sink)
}
