//! What is written for documents, and which lines are none.
use crate::setup::{
    DIGIT, NO_MATCH, NO_NUMBERS, NUMBERS, Setup, are_written, comes_to, repeated, usual,
};
use std::alloc::Global;
use std::test::Fail;

/// Each row: a program, a corpus, and what is written.
const DONE: [(&str, &str, &str); 10] = [
    (
        NUMBERS,
        "{\"label\":\"a\",\"text\":\"x 12 345\"}\n",
        "{\"label\":\"a\",\"views\":{\"P\":[{\"num\":{\"begin\":2,\"end\":4,\"text\":\"12\"}},{\"num\":{\"begin\":5,\"end\":8,\"text\":\"345\"}}]}}\n",
    ),
    (NUMBERS, "", ""),
    (
        NUMBERS,
        "{\"label\":\"a\",\"text\":\"\"}\n",
        "{\"label\":\"a\",\"views\":{\"P\":[]}}\n",
    ),
    (
        "create view P as extract regex /x*/ on D.text as num from Document D; output view P;",
        "{\"label\":\"a\",\"text\":\"\"}\n",
        "{\"label\":\"a\",\"views\":{\"P\":[{\"num\":{\"begin\":0,\"end\":0,\"text\":\"\"}}]}}\n",
    ),
    (
        NUMBERS,
        "{\"text\":\"\u{e9} 7\"}\n",
        "{\"views\":{\"P\":[{\"num\":{\"begin\":2,\"end\":3,\"text\":\"7\"}}]}}\n",
    ),
    (
        NUMBERS,
        "{\"label\":\"a\",\"text\":\"x 12 345\"}",
        "{\"label\":\"a\",\"views\":{\"P\":[{\"num\":{\"begin\":2,\"end\":4,\"text\":\"12\"}},{\"num\":{\"begin\":5,\"end\":8,\"text\":\"345\"}}]}}\n",
    ),
    (
        NUMBERS,
        " \t\r\n\n{\"text\":\"none\"}\n\n",
        "{\"views\":{\"P\":[]}}\n",
    ),
    (
        "create view P as extract regex /[0-9]+/ on D.text as num from Document D; output view P;\n",
        NO_NUMBERS,
        "{\"views\":{\"P\":[]}}\n",
    ),
    (
        "-- a name that is reserved, and the source under its own name\nCREATE VIEW \"view\" AS extract regex /\\/[0-9]/ on Document.text as \"a b\" from Document;\n/* and */ output view \"view\";",
        "{\"text\":\"1/2\"}\n",
        "{\"views\":{\"view\":[{\"a b\":{\"begin\":1,\"end\":3,\"text\":\"/2\"}}]}}\n",
    ),
    (
        "create view P as extract regex // on Document.text as num from Document; output view P;",
        "{\"text\":\"\"}\n",
        "{\"views\":{\"P\":[{\"num\":{\"begin\":0,\"end\":0,\"text\":\"\"}}]}}\n",
    ),
];

const BAD_LINE_1: &str = "aqlx: corpus line 1 is not a document\n";

#[test]
fn documents_are_written_in_order_with_their_matches(rt: HostRuntime) -> Result<(), Fail> {
    for (program, corpus, out) in &DONE {
        let setup = usual(program, corpus);
        comes_to(
            &rt,
            rt.alloc(),
            &setup,
            (0, out.as_bytes(), ""),
            (corpus, 0),
        )?;
    }
    Ok(())
}

#[test]
fn documents_are_written_in_order_by_each_number_of_workers(rt: HostRuntime) -> Result<(), Fail> {
    for row in &DONE {
        are_written(&rt, rt.alloc(), *row)?;
    }
    Ok(())
}

#[test]
fn a_document_cut_after_any_byte_is_a_bad_line(rt: HostRuntime) -> Result<(), Fail> {
    let line = "{\"text\":\"\u{e9}\"}".as_bytes();
    for end in 0..line.len() + 1 {
        let setup = Setup {
            corpus: &line[..end],
            ..usual(NUMBERS, "")
        };
        let (status, out, err) = if end == 0 {
            (0, "", "")
        } else if end == line.len() {
            (0, NO_MATCH, "")
        } else {
            (3, "", BAD_LINE_1)
        };
        let wanted = (status, out.as_bytes(), err);
        comes_to(
            &rt,
            rt.alloc(),
            &setup,
            wanted,
            ("a document cut", end as u64),
        )?;
    }
    let setup = Setup {
        corpus: b"{\"text\":\"\xff\"}",
        ..usual(NUMBERS, "")
    };
    comes_to(
        &rt,
        rt.alloc(),
        &setup,
        (3, b"", BAD_LINE_1),
        ("a byte that is no text", 0),
    )
}

#[test]
fn a_hundred_documents_before_a_bad_line_are_written(rt: HostRuntime) -> Result<(), Fail> {
    let alloc = rt.alloc();
    let documents = repeated(alloc, "{\"text\":\"1\"}\n", 100)?;
    let corpus = format!(in alloc; "{documents}[]\n{{\"text\":\"1\"}}\n")?;
    let out = repeated(alloc, DIGIT, 100)?;
    let wanted = (
        3,
        out.as_bytes(),
        "aqlx: corpus line 101 is not a document\n",
    );
    comes_to(
        &rt,
        alloc,
        &usual(NUMBERS, corpus.as_str()),
        wanted,
        ("a bad line", 101),
    )
}

/// The line of a document of so many letters.
fn line_of(alloc: Global, letters: usize) -> Result<Vec<u8>, Fail> {
    let mut line = Vec::from_slice(alloc, b"{\"text\":\"")?;
    let letter = vec![in alloc; b'a'; letters]?;
    line.extend_from_slice(&letter)?;
    line.extend_from_slice(b"\"}")?;
    Ok(line)
}

/// Each row: how many letters a document has, the status, the output, and the line on standard error.
const LIMIT: [(usize, u8, &str, &str); 2] = [
    (16_777_205, 0, NO_MATCH, ""),
    (
        16_777_206,
        3,
        "",
        "aqlx: corpus line 1 is longer than 16777216 bytes\n",
    ),
];

#[test]
fn a_line_of_the_limit_is_read_and_a_longer_one_is_not(rt: HostRuntime) -> Result<(), Fail> {
    for (letters, status, out, err) in &LIMIT {
        let line = line_of(rt.alloc(), *letters)?;
        let wanted = (*status, out.as_bytes(), *err);
        for workers in &["1", "4"] {
            let words = ["run", "p.aql", "--workers", *workers];
            let setup = Setup {
                words: &words,
                corpus: line.as_slice(),
                piece: 1 << 20,
                ..usual(NUMBERS, "")
            };
            comes_to(&rt, rt.alloc(), &setup, wanted, (workers, *letters as u64))?;
        }
    }
    Ok(())
}
