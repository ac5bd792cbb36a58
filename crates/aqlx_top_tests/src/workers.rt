//! Runs by several workers: the bytes are those of one worker.
use crate::setup::{
    DIGIT, DIGITS, NO_MATCH, NUMBERS, READ_FAULT, Setup, call, comes_to, repeated, run, sink_of,
    usual,
};
use aql_io::{MemSink, SureSource};
use run_pool::Workers;
use std::alloc::Global;
use std::process::Abort;
use std::test::Fail;
use std::thread::Threads;

/// Numbers with the words before them, where both stand in one document.
const PAIRS: &str = "create view N as extract regex /[0-9]+/ on D.text as num from Document D; \
    create view W as extract regex /[a-z]+/ on D.text as word from Document D; \
    create view P as select W.word as word, N.num as num from W W, N N \
    where Follows(W.word, N.num, 1, 1); output view P; output view N;";

/// Numbers by their tokens.
const TOKENS: &str = "create view P as extract regex /[0-9]+/ on 1 token in D.text as num \
    from Document D; output view P;";

/// So many documents, every third without a number, and a blank line behind every fifth.
fn corpus(alloc: Global, count: u32) -> Result<String, Fail> {
    let mut all = String::new(alloc);
    for i in 0..count {
        if i % 3 == 2 {
            all.push_str("{\"text\":\"none\"}\n")?;
        } else {
            all.push_str("{\"text\":\"1\"}\n")?;
        }
        if i % 5 == 4 {
            all.push_str("\n")?;
        }
    }
    Ok(all)
}

/// The lines of these documents.
fn lines(alloc: Global, count: u32) -> Result<String, Fail> {
    let mut all = String::new(alloc);
    for i in 0..count {
        all.push_str(if i % 3 == 2 { NO_MATCH } else { DIGIT })?;
    }
    Ok(all)
}

#[test]
fn each_number_of_workers_writes_each_line_in_the_order_of_the_corpus(
    rt: HostRuntime,
) -> Result<(), Fail> {
    let alloc = rt.alloc();
    for count in &[0u32, 1, 63, 64, 65, 200] {
        let corpus = corpus(alloc, *count)?;
        let out = lines(alloc, *count)?;
        for workers in &["1", "2", "4", "16"] {
            let words = ["run", "p.aql", "--workers", *workers];
            let setup = Setup {
                words: &words,
                piece: 65_536,
                out_piece: 65_536,
                ..usual(NUMBERS, corpus.as_str())
            };
            let wanted = (0, out.as_bytes(), "");
            comes_to(&rt, alloc, &setup, wanted, (workers, u64::from(*count)))?;
        }
    }
    Ok(())
}

#[test]
fn a_bad_line_between_others_is_told_behind_the_lines_before_it(
    rt: HostRuntime,
) -> Result<(), Fail> {
    let alloc = rt.alloc();
    let mut text = corpus(alloc, 70)?;
    text.push_str("{\"text\":1}\n{\"text\":\"1\"}\n")?;
    let out = lines(alloc, 70)?;
    for workers in &["1", "4", "16"] {
        let words = ["run", "--workers", *workers, "p.aql"];
        let setup = Setup {
            words: &words,
            piece: 65_536,
            ..usual(NUMBERS, text.as_str())
        };
        let wanted = (
            3,
            out.as_bytes(),
            "aqlx: corpus line 85 is not a document\n",
        );
        comes_to(&rt, alloc, &setup, wanted, (workers, 85))?;
    }
    Ok(())
}

/// Asserts that a run by workers comes to what a run by one worker does.
fn is_as_alone<R: Threads + Sync + Abort>(
    rt: &R,
    alloc: Global,
    program: &str,
    corpus: &str,
    status: u8,
    line: &str,
) -> Result<(), Fail> {
    let alone = run(rt, alloc, &usual(program, corpus))?;
    let wanted = (status, alone.out.bytes(), line);
    for workers in &["2", "4", "16"] {
        let words = ["--workers", *workers, "run", "p.aql"];
        let setup = Setup {
            words: &words,
            piece: 1 << 20,
            out_piece: 1 << 20,
            ..usual(program, corpus)
        };
        comes_to(rt, alloc, &setup, wanted, (workers, corpus.len() as u64))?;
    }
    assert_eq!(rt; alone.code, status);
    assert_eq!(rt; alone.err.bytes(), line.as_bytes());
    Ok(())
}

#[test]
fn joins_and_several_outputs_are_the_same_by_workers(rt: HostRuntime) -> Result<(), Fail> {
    let alloc = rt.alloc();
    let text = repeated(
        alloc,
        "{\"text\":\"tel 12, fax 3 or 45\",\"label\":\"a\"}\n{\"text\":\"none\"}\n",
        40,
    )?;
    is_as_alone(&rt, alloc, PAIRS, text.as_str(), 0, "")
}

/// Documents of 5,800 equal digits and 11,000 letters, whose output lines have more than 262,144 bytes each, so that they are
/// handed on without a copy, and a short one behind each.
fn large_lines(alloc: Global) -> Result<String, Fail> {
    let letters = repeated(alloc, "x", 11_000)?;
    let mut all = String::new(alloc);
    for digit in &["1", "2", "3"] {
        let digits = repeated(alloc, digit, 5_800)?;
        all.push_str("{\"text\":\"")?;
        all.push_str(digits.as_str())?;
        all.push_str(letters.as_str())?;
        all.push_str("\"}\n{\"text\":\"9\"}\n")?;
    }
    Ok(all)
}

#[test]
fn large_texts_of_workers_come_in_the_order_of_the_corpus(rt: HostRuntime) -> Result<(), Fail> {
    let alloc = rt.alloc();
    let text = large_lines(alloc)?;
    is_as_alone(&rt, alloc, DIGITS, text.as_str(), 0, "")
}

/// Asserts that a run of which a write fails writes no more than a beginning of what it would have written.
fn is_cut<R: Threads + Sync + Abort>(
    rt: &R,
    alloc: Global,
    setup: &Setup<'_>,
    whole: &[u8],
    call: u64,
) -> Result<(), Fail> {
    let ran = run(rt, alloc, setup)?;
    assert_eq!(rt; ran.code, 5, "call {call} fails");
    assert!(rt; whole.starts_with(ran.out.bytes()), "call {call} fails");
    assert_eq!(rt; ran.err.bytes(), b"".as_slice());
    Ok(())
}

#[test]
fn a_failed_write_of_a_run_by_workers_leaves_the_lines_written_before_it(
    rt: HostRuntime,
) -> Result<(), Fail> {
    let alloc = rt.alloc();
    let text = corpus(alloc, 100)?;
    let whole = lines(alloc, 100)?;
    for call in &[1u64, 2, 7] {
        let fails = [*call];
        let setup = Setup {
            words: &["run", "p.aql", "--workers", "4"],
            piece: 300,
            out_piece: 64,
            out_fails: &fails,
            ..usual(NUMBERS, text.as_str())
        };
        is_cut(&rt, alloc, &setup, whole.as_bytes(), *call)?;
    }
    Ok(())
}

#[test]
fn a_failed_write_between_large_texts_leaves_those_before_it(rt: HostRuntime) -> Result<(), Fail> {
    let alloc = rt.alloc();
    let text = large_lines(alloc)?;
    let alone = run(&rt, alloc, &usual(DIGITS, text.as_str()))?;
    assert_eq!(rt; alone.code, 0);
    for call in &[1u64, 2, 3] {
        let fails = [*call];
        let setup = Setup {
            words: &["run", "p.aql", "--workers", "4"],
            piece: 1 << 20,
            out_piece: 1 << 20,
            out_fails: &fails,
            ..usual(DIGITS, text.as_str())
        };
        is_cut(&rt, alloc, &setup, alone.out.bytes(), *call)?;
    }
    Ok(())
}

/// Each row: what stands behind 4,000 documents of 13 bytes each, which read of 20,000 bytes fails, how many
/// documents were taken before, and the run's status and line.
const ENDED: [(&str, &[u64], usize, u8, &str); 5] = [
    ("", &[1], 0, 4, READ_FAULT),
    ("", &[2], 1_538, 4, READ_FAULT),
    ("", &[3], 3_076, 4, READ_FAULT),
    ("", &[4], 4_000, 4, READ_FAULT),
    (
        "[]\n{\"text\":\"1\"}\n",
        &[],
        4_000,
        3,
        "aqlx: corpus line 4001 is not a document\n",
    ),
];

/// Each row: which call of standard error fails, whether the run's status stands, and whether its line was written:
/// that is one write, and then a flush.
const TOLD: [(&[u64], bool, bool); 4] = [
    (&[], true, true),
    (&[1], false, false),
    (&[2], false, true),
    (&[3], true, true),
];

/// Asserts what a run comes to of which calls of standard error fail.
fn is_told<R: Threads + Sync + Abort>(
    rt: &R,
    alloc: Global,
    setup: &Setup<'_>,
    wanted: (u8, &[u8], &str),
    row: (&str, u64),
) -> Result<(), Fail> {
    let (status, out, line) = wanted;
    for (err_fails, stands, is_written) in &TOLD {
        let setup = Setup {
            err_fails: *err_fails,
            ..*setup
        };
        let status = if *stands { status } else { 5 };
        let line = if *is_written { line } else { "" };
        comes_to(rt, alloc, &setup, (status, out, line), row)?;
    }
    Ok(())
}

#[test]
fn what_ends_a_run_by_workers_is_told_where_standard_error_takes_its_line(
    rt: HostRuntime,
) -> Result<(), Fail> {
    let alloc = rt.alloc();
    let documents = repeated(alloc, "{\"text\":\"1\"}\n", 4_000)?;
    for (behind, source_fails, count, status, line) in &ENDED {
        let corpus = format!(in alloc; "{documents}{behind}")?;
        let out = repeated(alloc, DIGIT, *count)?;
        for workers in &["1", "4"] {
            let words = ["run", "p.aql", "--workers", *workers];
            let setup = Setup {
                words: &words,
                piece: 20_000,
                out_piece: 65_536,
                source_fails: *source_fails,
                ..usual(NUMBERS, corpus.as_str())
            };
            let wanted = (*status, out.as_bytes(), *line);
            is_told(&rt, alloc, &setup, wanted, (workers, *count as u64))?;
        }
    }
    Ok(())
}

/// So many documents of so many words, of which each fifth is a number.
fn long(alloc: Global, documents: u32, words: u32) -> Result<String, Fail> {
    let mut all = String::new(alloc);
    for _ in 0..documents {
        all.push_str("{\"text\":\"")?;
        for i in 0..words {
            all.push_str(if i % 5 == 4 { "12 " } else { "filler-words " })?;
        }
        all.push_str("\"}\n")?;
    }
    Ok(all)
}

#[test]
fn documents_of_every_size_give_the_same_lines(rt: HostRuntime) -> Result<(), Fail> {
    let alloc = rt.alloc();
    // short documents, pieces of which each worker takes; long ones with many rows, one after another by each;
    // and a few large ones, in a window
    let rows = [
        (1_030u32, 5u32, "aqlx: corpus line 1031 is not a document\n"),
        (12, 2_000, "aqlx: corpus line 13 is not a document\n"),
        (3, 9_000, "aqlx: corpus line 4 is not a document\n"),
    ];
    for (documents, words, line) in &rows {
        let mut text = long(alloc, *documents, *words)?;
        text.push_str("[]\n{\"text\":\"1\"}\n")?;
        is_as_alone(&rt, alloc, TOKENS, text.as_str(), 3, line)?;
    }
    Ok(())
}

/// So many documents of this padding and more with their numbers from 100,000 on, and a bad line behind them; the document
/// of number `long` has a hundred times as much.
fn numbered(alloc: Global, count: u32, padding: &str, long: u32) -> Result<String, Fail> {
    let much = repeated(alloc, padding, 100)?;
    let mut all = String::new(alloc);
    for i in 0..count {
        let number = i.saturating_add(100_000);
        let letters = if i == long { much.as_str() } else { padding };
        let line = format!(in alloc; "{{\"pad\":\"{letters}\",\"text\":\"{number}\"}}\n")?;
        all.push_str(line.as_str())?;
    }
    all.push_str("[]\n")?;
    Ok(all)
}

/// The lines of these documents.
fn numbered_lines(alloc: Global, count: u32) -> Result<String, Fail> {
    let mut all = String::new(alloc);
    for i in 0..count {
        let number = i.saturating_add(100_000);
        let line = format!(in alloc;
            "{{\"views\":{{\"P\":[{{\"num\":{{\"begin\":0,\"end\":6,\"text\":\"{number}\"}}}}]}}}}\n"
        )?;
        all.push_str(line.as_str())?;
    }
    Ok(all)
}

/// How many documents there are, of how many letters each, and which of them is a hundred times as long: 10 MB of short
/// lines, more than a read brings, and 17 MB of large ones, with a line of 8 MB among them that goes into a window.
const LOOKED_AT: [(u32, usize, u32); 2] = [(5_200, 2_000, 5_300), (110, 80_000, 60)];

#[test]
fn what_is_looked_at_is_answered_once_and_in_order(rt: HostRuntime) -> Result<(), Fail> {
    let alloc = rt.alloc();
    for (count, length, long) in LOOKED_AT {
        let padding = repeated(alloc, "x", length)?;
        let corpus = numbered(alloc, count, &padding, long)?;
        let lines = numbered_lines(alloc, count)?;
        let told = format!(in alloc;
            "aqlx: corpus line {} is not a document\n",
            count.saturating_add(1)
        )?;
        for workers in &["1", "2", "4"] {
            let words = ["run", "p.aql", "--workers", *workers];
            let setup = Setup {
                words: &words,
                ..usual(NUMBERS, "")
            };
            let mut source = SureSource::new(Vec::from_slice(alloc, corpus.as_bytes())?);
            let mut out = sink_of(alloc, 1 << 20, 1 << 20, &[])?;
            let (code, err) = call(&rt, alloc, &setup, &mut source, &mut out, &mut Workers)?;
            assert_eq!(rt; err.bytes(), told.as_bytes(), "{workers} workers");
            assert_eq!(rt; code, 3, "{workers} workers");
            assert!(rt; out.bytes() == lines.as_bytes(), "{workers} workers");
        }
    }
    Ok(())
}

/// 70 documents of 8,000 digits each, whose output lines have some 360,000 bytes each, and behind 40 of them one of 1,200,000
/// letters: more is written in all than may be held until it can be.
fn much_to_write(alloc: Global) -> Result<String, Fail> {
    let digits = repeated(alloc, "1", 8_000)?;
    let letters = repeated(alloc, "x", 1_200_000)?;
    let document = format!(in alloc; "{{\"text\":\"{digits}\"}}\n")?;
    let mut all = repeated(alloc, document.as_str(), 40)?;
    all.push_str("{\"text\":\"7")?;
    all.push_str(letters.as_str())?;
    all.push_str("\"}\n")?;
    let rest = repeated(alloc, document.as_str(), 30)?;
    all.push_str(rest.as_str())?;
    Ok(all)
}

/// Runs over a corpus that shows what is left of it, and asserts with which status the run ends.
fn write_all<R: Threads + Sync + Abort>(
    rt: &R,
    alloc: Global,
    corpus: &str,
    workers: &str,
    status: u8,
    out: &mut MemSink,
) -> Result<(), Fail> {
    let words = ["run", "p.aql", "--workers", workers];
    let setup = Setup {
        words: &words,
        ..usual(DIGITS, "")
    };
    let mut source = SureSource::new(Vec::from_slice(alloc, corpus.as_bytes())?);
    let (code, err) = call(rt, alloc, &setup, &mut source, out, &mut Workers)?;
    assert_eq!(rt; err.bytes(), b"".as_slice(), "{workers} workers");
    assert_eq!(rt; code, status, "{workers} workers");
    Ok(())
}

#[test]
fn a_failed_write_of_much_output_is_told_and_none_follows_it(rt: HostRuntime) -> Result<(), Fail> {
    let alloc = rt.alloc();
    let corpus = much_to_write(alloc)?;
    let mut alone = sink_of(alloc, 1 << 25, 1 << 20, &[])?;
    write_all(&rt, alloc, corpus.as_str(), "1", 0, &mut alone)?;
    for workers in &["2", "4"] {
        let mut out = sink_of(alloc, 1 << 25, 1 << 20, &[])?;
        write_all(&rt, alloc, corpus.as_str(), workers, 0, &mut out)?;
        assert!(rt; out.bytes() == alone.bytes(), "{workers} workers");
        // a write that fails while others answer lines is told, and leaves what was written before it
        for call in &[1u64, 4, 20] {
            let mut out = sink_of(alloc, 1 << 25, 1 << 20, &[*call])?;
            write_all(&rt, alloc, corpus.as_str(), workers, 5, &mut out)?;
            assert!(rt;
                alone.bytes().starts_with(out.bytes()),
                "{workers} workers, call {call}"
            );
            // and nothing behind it
            assert!(rt;
                out.bytes().len() < alone.bytes().len(),
                "{workers} workers, call {call}"
            );
            assert!(rt;
                (*call == 1) == out.bytes().is_empty(),
                "{workers} workers, call {call}"
            );
        }
    }
    Ok(())
}
