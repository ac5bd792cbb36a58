//! Words, lines and calls that fail: each with its very status, its output and its line.
use crate::setup::{DIGIT, NO_NUMBERS, NUMBERS, READ_FAULT, Setup, comes_to, repeated, usual};
use std::test::Fail;

const USAGE: &str = "aqlx: usage: aqlx MODE PROGRAM [--workers N]\n";

/// Each row: words, a corpus, and what comes of them: the status, the output, and the line on standard error.
const REFUSED: [(&[&str], &str, u8, &str, &str); 15] = [
    (&["run"], NO_NUMBERS, 2, "", USAGE),
    (&["run", "p.aql", "p.aql"], NO_NUMBERS, 2, "", USAGE),
    (&["walk", "p.aql"], NO_NUMBERS, 2, "", USAGE),
    (&[], NO_NUMBERS, 2, "", USAGE),
    (
        &["run", "p.aql", "--workers", "0"],
        NO_NUMBERS,
        2,
        "",
        USAGE,
    ),
    (
        &["run", "p.aql", "--workers", "17"],
        NO_NUMBERS,
        2,
        "",
        USAGE,
    ),
    (
        &["run", "p.aql", "--workers", "-1"],
        NO_NUMBERS,
        2,
        "",
        USAGE,
    ),
    (&["run", "p.aql", "--workers=4"], NO_NUMBERS, 2, "", USAGE),
    (&["run", "--workers", "4"], NO_NUMBERS, 2, "", USAGE),
    (
        &["run", "p.aql", "--workers", "004"],
        "{\"text\":\"1\"}",
        0,
        DIGIT,
        "",
    ),
    (
        &["run", "--workers", "16", "p.aql"],
        "{\"text\":\"1\"}",
        0,
        DIGIT,
        "",
    ),
    (
        &["--workers", "1", "run", "p.aql"],
        "{\"text\":\"1\"}",
        0,
        DIGIT,
        "",
    ),
    (&["run", "q.aql"], NO_NUMBERS, 4, "", READ_FAULT),
    (
        &["run", "p.aql"],
        "{\"text\":\"1\"}\n{\"text\":1}\n{\"text\":\"2\"}\n",
        3,
        DIGIT,
        "aqlx: corpus line 2 is not a document\n",
    ),
    (&["run", "p.aql"], "\n{\"text\":\"1\"}", 0, DIGIT, ""),
];

#[test]
fn refusals_have_their_status_and_their_line(rt: HostRuntime) -> Result<(), Fail> {
    for (words, corpus, status, out, err) in &REFUSED {
        let setup = Setup {
            words,
            ..usual(NUMBERS, corpus)
        };
        let wanted = (*status, out.as_bytes(), *err);
        comes_to(&rt, rt.alloc(), &setup, wanted, (corpus, 0))?;
    }
    Ok(())
}

/// Each row: a corpus, its output, and in how many writes and flushes of ten bytes it goes out.
const WRITTEN: [(&str, &str, u64); 3] = [
    ("", "", 1),
    ("{\"text\":\"1\"}\n", DIGIT, 7),
    (
        "{\"label\":\"a\",\"text\":\"x 12 345\"}\n",
        "{\"label\":\"a\",\"views\":{\"P\":[{\"num\":{\"begin\":2,\"end\":4,\"text\":\"12\"}},{\"num\":{\"begin\":5,\"end\":8,\"text\":\"345\"}}]}}\n",
        13,
    ),
];

#[test]
fn a_failed_write_or_flush_is_told_and_leaves_what_was_written(
    rt: HostRuntime,
) -> Result<(), Fail> {
    for (corpus, whole, calls) in &WRITTEN {
        for call in 1..calls.saturating_add(3) {
            let fails = [call];
            let setup = Setup {
                out_fails: &fails,
                ..usual(NUMBERS, corpus)
            };
            let cut = call <= *calls;
            let status = if cut { 5 } else { 0 };
            let written = if cut {
                (call as usize - 1).saturating_mul(10)
            } else {
                whole.len()
            };
            let front = &whole.as_bytes()[..written.min(whole.len())];
            comes_to(&rt, rt.alloc(), &setup, (status, front, ""), (corpus, call))?;
        }
    }
    Ok(())
}

/// Each row: a corpus of documents with one digit, how many of them were taken whole before each read of ten
/// bytes, the read of the end among them, and how many there are.
const READ: [(&str, &[usize], usize); 5] = [
    ("", &[0], 0),
    ("{\"text\":\"1\"}", &[0, 0, 0], 1),
    ("{\"text\":\"1\"}\n", &[0, 0, 1], 1),
    ("\n\n\n\n\n\n\n\n\n\n", &[0, 0], 0),
    (
        "{\"text\":\"1\"}\n{\"text\":\"1\"}\n\n{\"text\":\"1 \"}",
        &[0, 0, 1, 2, 2],
        3,
    ),
];

#[test]
fn a_failed_read_is_told_after_the_lines_before_it(rt: HostRuntime) -> Result<(), Fail> {
    let alloc = rt.alloc();
    for (corpus, taken, all) in &READ {
        for call in 1..taken.len() + 3 {
            let fails = [call as u64];
            let setup = Setup {
                source_fails: &fails,
                ..usual(NUMBERS, corpus)
            };
            let (status, line, count) = match taken.get(call - 1) {
                Some(count) => (4, READ_FAULT, *count),
                None => (0, "", *all),
            };
            let out = repeated(alloc, DIGIT, count)?;
            let wanted = (status, out.as_bytes(), line);
            comes_to(&rt, alloc, &setup, wanted, (corpus, call as u64))?;
        }
    }
    Ok(())
}

#[test]
fn a_failed_read_of_the_program_is_told(rt: HostRuntime) -> Result<(), Fail> {
    let alloc = rt.alloc();
    let spaces = repeated(alloc, " ", 4096)?;
    let long = format!(in alloc; "{NUMBERS}{spaces}")?;
    let rows = [(NUMBERS, 2u64), (long.as_str(), 3)];
    for (program, reads) in &rows {
        for call in 1..reads.saturating_add(3) {
            let fails = [call];
            let setup = Setup {
                file_fails: &fails,
                ..usual(program, "{\"text\":\"1\"}\n")
            };
            let (status, out, line) = if call <= *reads {
                (4, "", READ_FAULT)
            } else {
                (0, DIGIT, "")
            };
            let wanted = (status, out.as_bytes(), line);
            comes_to(
                &rt,
                alloc,
                &setup,
                wanted,
                ("a failed read of a program", call),
            )?;
        }
    }
    Ok(())
}

/// Each row: words, a program, a corpus, the reads of it that fail, and the status with its line.
const TOLD: [(&[&str], &str, &str, &[u64], u8, &str); 4] = [
    (&[], NUMBERS, "", &[], 2, USAGE),
    (
        &["run", "p.aql"],
        "output view Q;",
        "",
        &[],
        1,
        "aqlx: statement 1: no view Q\n",
    ),
    (
        &["run", "p.aql"],
        NUMBERS,
        "[]",
        &[],
        3,
        "aqlx: corpus line 1 is not a document\n",
    ),
    (&["run", "p.aql"], NUMBERS, "", &[1], 4, READ_FAULT),
];

#[test]
fn a_line_that_cannot_be_written_is_a_write_fault(rt: HostRuntime) -> Result<(), Fail> {
    for (words, program, corpus, source_fails, status, line) in &TOLD {
        // the line is one write, and then a flush
        let told = [(1u64, 5, ""), (2, 5, *line), (3, *status, *line)];
        for (call, status, err) in &told {
            let fails = [*call];
            let setup = Setup {
                words,
                source_fails,
                err_fails: &fails,
                ..usual(program, corpus)
            };
            comes_to(&rt, rt.alloc(), &setup, (*status, b"", *err), (line, *call))?;
        }
    }
    Ok(())
}
