//! What is handed to pools, and written of what they answer.
use crate::setup::{
    DEMO_OF_2, NUMBERS, PERSONS, PERSONS_DOCUMENT, PERSONS_LINE, Ran, Setup, comes_by, run, usual,
};
use run_pool::{Hollow, Recorder};
use std::alloc::Global;
use std::process::Abort;
use std::test::Fail;
use std::thread::Threads;

/// A document with two numbers, and one with none.
const TWO_DOCUMENTS: &str = "{\"text\":\"1 2\"}\n\n{\"text\":\"none\"}\n";

/// Their lines.
const TWO_LINES: &str =
    "{\"views\":{\"P\":[{\"num\":{\"begin\":0,\"end\":1,\"text\":\"1\"}},{\"num\":{\"begin\":2,\"end\":3,\"text\":\"2\"}}]}}\n{\"views\":{\"P\":[]}}\n";

/// The summary of the demonstration on two documents, of which no row is answered.
const NO_ROWS_OF_2: &str =
    "documents 2\nDate 0\nDigits 0\nFirstPerson 0\nLongName 0\nLowerName 0\nNumberRun 0\nPerson 0\nPersonCity 0\nPersonOrg 0\nPersonPhone 0\nPersonRole 0\n";

/// The text of a program's plan, as it is shown.
fn plan_of<R: Threads + Sync>(rt: &R, alloc: Global, program: &str) -> Result<Ran, Fail> {
    let setup = Setup {
        words: &["plan", "p.aql"],
        ..usual(program, "")
    };
    run(rt, alloc, &setup)
}

#[test]
fn a_document_is_handed_over_with_the_plan_that_is_shown(rt: HostRuntime) -> Result<(), Fail> {
    let alloc = rt.alloc();
    let line = format!(in alloc; "{PERSONS_LINE}\n")?;
    let mut recorder = Recorder::new(alloc);
    let setup = usual(PERSONS, PERSONS_DOCUMENT);
    let wanted = (0, line.as_bytes(), "");
    comes_by(&rt, alloc, &setup, &mut recorder, wanted, ("persons", 1))?;
    let shown = plan_of(&rt, alloc, PERSONS)?;
    assert_eq!(rt; recorder.list().len(), 1);
    for handed in recorder.list() {
        assert_eq!(rt; handed.plan.as_bytes(), shown.out.bytes());
        assert_eq!(rt;
            handed.text.as_str(),
            "Call John Smith at 555-0134 or Ann Lee, 555-0199."
        );
        assert_eq!(rt; handed.line.as_slice(), line.as_bytes());
        assert_eq!(rt; handed.sizes.as_slice(), [2, 2].as_slice());
    }
    Ok(())
}

/// The texts that were handed over, each with a bar behind it.
fn texts_of(alloc: Global, recorder: &Recorder) -> Result<String, Fail> {
    let mut texts = String::new(alloc);
    for handed in recorder.list() {
        texts.push_str(handed.text.as_str())?;
        texts.push_str("|")?;
    }
    Ok(texts)
}

/// The lines that were answered, one behind another.
fn lines_of(alloc: Global, recorder: &Recorder) -> Result<Vec<u8>, Fail> {
    let mut lines = Vec::new(alloc);
    for handed in recorder.list() {
        lines.extend_from_slice(handed.line.as_slice())?;
    }
    Ok(lines)
}

/// How many rows were answered, of all outputs.
fn rows_of(recorder: &Recorder) -> u64 {
    let mut rows: u64 = 0;
    for handed in recorder.list() {
        for size in &handed.sizes {
            rows = rows.saturating_add(*size);
        }
    }
    rows
}

/// Asserts what of the two documents is handed over in a run of these words.
fn is_handed_over<R: Threads + Sync + Abort>(
    rt: &R,
    alloc: Global,
    words: &[&str],
) -> Result<(), Fail> {
    let mut recorder = Recorder::new(alloc);
    let setup = Setup {
        words,
        ..usual(NUMBERS, TWO_DOCUMENTS)
    };
    let wanted = (0, TWO_LINES.as_bytes(), "");
    comes_by(
        rt,
        alloc,
        &setup,
        &mut recorder,
        wanted,
        ("words", words.len() as u64),
    )?;
    let texts = texts_of(alloc, &recorder)?;
    let lines = lines_of(alloc, &recorder)?;
    assert_eq!(rt; texts.as_str(), "1 2|none|");
    assert_eq!(rt; lines.as_slice(), TWO_LINES.as_bytes());
    Ok(())
}

#[test]
fn each_document_of_a_corpus_is_handed_over_once(rt: HostRuntime) -> Result<(), Fail> {
    is_handed_over(&rt, rt.alloc(), &["run", "p.aql"])?;
    is_handed_over(&rt, rt.alloc(), &["run", "p.aql", "--workers", "4"])
}

/// Each row: words, and what they write where no row is answered.
const HOLLOW: [(&[&str], &str); 3] = [
    (
        &["run", "p.aql"],
        "{\"label\":\"a\",\"views\":{\"P\":[]}}\n",
    ),
    (
        &["run", "p.aql", "--workers", "2"],
        "{\"label\":\"a\",\"views\":{\"P\":[]}}\n",
    ),
    (&["demo", "2"], NO_ROWS_OF_2),
];

#[test]
fn rows_that_a_pool_does_not_answer_are_not_written(rt: HostRuntime) -> Result<(), Fail> {
    for (words, out) in &HOLLOW {
        let setup = Setup {
            words,
            ..usual(NUMBERS, "{\"label\":\"a\",\"text\":\"x 12 345\"}")
        };
        let wanted = (0, out.as_bytes(), "");
        comes_by(&rt, rt.alloc(), &setup, &mut Hollow, wanted, (out, 0))?;
    }
    Ok(())
}

#[test]
fn the_demonstration_hands_its_documents_over(rt: HostRuntime) -> Result<(), Fail> {
    let alloc = rt.alloc();
    let mut recorder = Recorder::new(alloc);
    let setup = Setup {
        words: &["demo", "2"],
        ..usual(NUMBERS, "")
    };
    let wanted = (0, DEMO_OF_2.as_bytes(), "");
    comes_by(&rt, alloc, &setup, &mut recorder, wanted, ("demo", 2))?;
    assert_eq!(rt; recorder.list().len(), 2);
    // the numbers of the summary on two documents, added up
    assert_eq!(rt; rows_of(&recorder), 25);
    Ok(())
}
