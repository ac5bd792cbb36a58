//! The modes that read no corpus: what they write, and which words ask for them.
use crate::setup::{DEMO_OF_2, NUMBERS, READ_FAULT, Setup, comes_to, usual};
use std::test::Fail;

/// The summary of the demonstration on two hundred documents, written by another program.
const DEMO_OF_200: &str =
    "documents 200\nDate 75\nDigits 369\nFirstPerson 175\nLongName 225\nLowerName 75\nNumberRun 532\nPerson 300\nPersonCity 75\nPersonOrg 75\nPersonPhone 81\nPersonRole 0\n";

/// And on none.
const DEMO_OF_0: &str =
    "documents 0\nDate 0\nDigits 0\nFirstPerson 0\nLongName 0\nLowerName 0\nNumberRun 0\nPerson 0\nPersonCity 0\nPersonOrg 0\nPersonPhone 0\nPersonRole 0\n";

/// The corpus of one generated document.
const GEN_OF_1: &str =
    "{\"label\":\"d0\",\"text\":\"Call John Smith at 555-0000. Ann Lee joined Acme Corp on 12 May 2019. Dr. Maria Lopez wrote to info about order 0000.\"}\n";

/// The plan of the program of one view that finds numbers.
const PLAN: &str = "0 Doc\n1 Regex 0\n2 Project 1\nout P 2\n";

const USAGE: &str = "aqlx: usage: aqlx MODE PROGRAM [--workers N]\n";

/// Each row: words, and what comes of them: the status, the output, and the line on standard error.
const MODES: [(&[&str], u8, &str, &str); 14] = [
    (&["check", "p.aql"], 0, "ok\n", ""),
    (&["check", "--workers", "4", "p.aql"], 0, "ok\n", ""),
    (&["plan", "p.aql"], 0, PLAN, ""),
    (&["plan", "q.aql"], 4, "", READ_FAULT),
    (&["gen", "0"], 0, "", ""),
    (&["gen", "01"], 0, GEN_OF_1, ""),
    (&["demo", "0"], 0, DEMO_OF_0, ""),
    (&["--workers", "16", "demo", "2"], 0, DEMO_OF_2, ""),
    (&["demo", "200"], 0, DEMO_OF_200, ""),
    (&["gen", ""], 2, "", USAGE),
    (&["gen", "100001"], 2, "", USAGE),
    (&["demo", "-1"], 2, "", USAGE),
    (&["demo", "p.aql"], 2, "", USAGE),
    (&["Check", "p.aql"], 2, "", USAGE),
];

#[test]
fn each_mode_writes_its_text_and_reads_no_corpus(rt: HostRuntime) -> Result<(), Fail> {
    for (words, status, out, err) in &MODES {
        let setup = Setup {
            words,
            source_fails: &[1],
            ..usual(NUMBERS, "no document")
        };
        let wanted = (*status, out.as_bytes(), *err);
        comes_to(&rt, rt.alloc(), &setup, wanted, (out, 0))?;
    }
    Ok(())
}

#[test]
fn a_fault_is_told_in_each_mode_that_reads_a_program(rt: HostRuntime) -> Result<(), Fail> {
    for mode in &["check", "plan"] {
        let words = [*mode, "p.aql"];
        let setup = Setup {
            words: &words,
            ..usual("output view P;", "")
        };
        let wanted = (1, b"".as_slice(), "aqlx: statement 1: no view P\n");
        comes_to(&rt, rt.alloc(), &setup, wanted, (mode, 0))?;
    }
    Ok(())
}

/// Each row: words, and what they write.
const WRITTEN: [(&[&str], &str); 4] = [
    (&["check", "p.aql"], "ok\n"),
    (&["plan", "p.aql"], PLAN),
    (&["gen", "1"], GEN_OF_1),
    (&["demo", "2"], DEMO_OF_2),
];

#[test]
fn a_failed_write_of_each_mode_is_told(rt: HostRuntime) -> Result<(), Fail> {
    for (words, whole) in &WRITTEN {
        // the first call writes ten bytes, or all; the second one writes or flushes
        for (call, written) in &[(1u64, 0usize), (2, 10)] {
            let fails = [*call];
            let setup = Setup {
                words,
                out_fails: &fails,
                ..usual(NUMBERS, "")
            };
            let front = &whole.as_bytes()[..whole.len().min(*written)];
            comes_to(&rt, rt.alloc(), &setup, (5, front, ""), (whole, *call))?;
        }
    }
    Ok(())
}
