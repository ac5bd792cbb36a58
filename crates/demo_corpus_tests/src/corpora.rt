//! Generated documents, and their lines.
use crate::expected::{BYTES_OF_700_DOCUMENTS, THREE_DOCUMENTS};
use aql_io::{CountSink, MemSink};
use corpus_json::{Input, read_document};
use demo_corpus::{DEMO, append_line, gen_document, write_corpus};
use span_token::{Failure, OutOfMemory, OwnedText};
use std::alloc::Global;
use std::test::Fail;

#[test]
fn documents_have_their_label_and_their_sentences(rt: HostRuntime) -> Result<(), Fail> {
    let table: [(u32, &str, &str); 11] = [
        (
            0,
            "d0",
            "Call John Smith at 555-0000. Ann Lee joined Acme Corp on 12 May 2019. Dr. Maria Lopez wrote to info about order 0000.",
        ),
        (
            1,
            "d1",
            "Ann Lee joined Acme Corp on 12 May 2019. Meet Mr. Paul Jones in New York. Été à Paris: 7 résumés.",
        ),
        (
            2,
            "d2",
            "Dr. Maria Lopez wrote to info about order 0002. Été à Paris: 7 résumés. Meet Mr. Paul Jones in New York.",
        ),
        (
            3,
            "d3",
            "The invoice 0003 was paid. Dr. Maria Lopez wrote to info about order 0003. Ann Lee joined Acme Corp on 12 May 2019.",
        ),
        (
            7,
            "d7",
            "Été à Paris: 7 résumés. ann lee, Chief Technology Officer, 555-0007 No names here.",
        ),
        (
            8,
            "d8",
            "Call John Smith at 555-0008. Ann Lee joined Acme Corp on 12 May 2019. The invoice 0008 was paid.",
        ),
        (
            9_999,
            "d9999",
            "Été à Paris: 7 résumés. ann lee, Chief Technology Officer, 555-9999 ann lee, Chief Technology Officer, 555-9999",
        ),
        (
            10_000,
            "d10000",
            "Call John Smith at 555-0000. Ann Lee joined Acme Corp on 12 May 2019. Meet Mr. Paul Jones in New York.",
        ),
        (
            12_345,
            "d12345",
            "Ann Lee joined Acme Corp on 12 May 2019. Meet Mr. Paul Jones in New York. ann lee, Chief Technology Officer, 555-2345",
        ),
        (
            99_999,
            "d99999",
            "Été à Paris: 7 résumés. ann lee, Chief Technology Officer, 555-9999 Call John Smith at 555-9999.",
        ),
        (
            u32::MAX,
            "d4294967295",
            "Été à Paris: 7 résumés. ann lee, Chief Technology Officer, 555-7295 Meet Mr. Paul Jones in New York.",
        ),
    ];
    for (i, label, text) in table {
        let input = gen_document(rt.alloc(), i)?;
        assert_eq!(rt; input.text.as_str(), text, "document {i}");
        assert_eq!(rt; label_of(&input), label, "document {i}");
    }
    Ok(())
}

fn label_of(input: &Input) -> &str {
    match &input.label {
        Some(label) => label.as_str(),
        None => "",
    }
}

#[test]
fn lines_are_read_as_their_documents(rt: HostRuntime) -> Result<(), Fail> {
    for i in 0..17 {
        let input = gen_document(rt.alloc(), i)?;
        let line = append_line(Vec::new(rt.alloc()), &input)?;
        assert!(rt; line.len() > 0);
        match read_document(rt.alloc(), &line[..line.len() - 1]) {
            Ok(Some(found)) => {
                assert_eq!(rt; found.text.as_str(), input.text.as_str(), "document {i}");
                assert_eq!(rt; label_of(&found), label_of(&input), "document {i}");
            }
            _ => assert!(rt; false, "document {i}"),
        }
    }
    Ok(())
}

#[test]
fn a_line_has_a_label_where_its_document_has_one(rt: HostRuntime) -> Result<(), Fail> {
    let text = OwnedText::copied(rt.alloc(), "a \"b\"\n")?;
    let before = b"x".to_vec(rt.alloc())?;
    let line = append_line(before, &Input { label: None, text })?;
    assert_eq!(rt;
        line.as_slice(),
        b"x{\"text\":\"a \\\"b\\\"\\n\"}\n".as_slice()
    );
    Ok(())
}

/// What is written of a corpus of so many documents, with the answer: `written`, `fault` or `memory`.
fn written(
    alloc: Global,
    count: u32,
    room: usize,
    fail: Vec<u64>,
) -> Result<(MemSink, &'static str), OutOfMemory> {
    let mut sink = MemSink::new(alloc, room, 10, fail)?;
    let answer = match write_corpus(alloc, count, &mut sink) {
        Ok(()) => "written",
        Err(Failure::Fault(_)) => "fault",
        Err(Failure::OutOfMemory) => "memory",
    };
    Ok((sink, answer))
}

#[test]
fn the_first_documents_are_written_in_order(rt: HostRuntime) -> Result<(), Fail> {
    for count in [0u32, 1, 3] {
        let (sink, answer) = written(rt.alloc(), count, 10_000, Vec::new(rt.alloc()))?;
        assert_eq!(rt; answer, "written", "{count} documents");
        let whole = THREE_DOCUMENTS.as_bytes();
        assert_eq!(rt;
            sink.bytes().len(),
            lines_length(whole, count),
            "{count} documents"
        );
        assert!(rt; whole.starts_with(sink.bytes()), "{count} documents");
    }
    Ok(())
}

/// How many bytes the first lines have.
fn lines_length(bytes: &[u8], count: u32) -> usize {
    let mut lines = 0u32;
    for (i, byte) in bytes.iter().enumerate() {
        if lines >= count {
            return i;
        }
        if *byte == b'\n' {
            lines = lines.saturating_add(1);
        }
    }
    bytes.len()
}

#[test]
fn a_failed_write_leaves_a_beginning(rt: HostRuntime) -> Result<(), Fail> {
    for (failing, bytes) in [(1u64, 0usize), (3, 20), (12, 110)] {
        let fail = vec![in rt.alloc(); failing; 1]?;
        let (sink, answer) = written(rt.alloc(), 3, 10_000, fail)?;
        assert_eq!(rt; answer, "fault", "call {failing}");
        assert_eq!(rt; sink.bytes().len(), bytes, "call {failing}");
        assert!(rt;
            THREE_DOCUMENTS.as_bytes().starts_with(sink.bytes()),
            "call {failing}"
        );
    }
    let (sink, answer) = written(rt.alloc(), 3, 25, Vec::new(rt.alloc()))?;
    assert_eq!(rt; answer, "fault");
    assert_eq!(rt;
        sink.bytes(),
        b"{\"label\":\"d0\",\"text\":\"Cal".as_slice()
    );
    Ok(())
}

#[test]
fn a_corpus_longer_than_a_piece_is_written_whole(rt: HostRuntime) -> Result<(), Fail> {
    let mut sink = CountSink::new();
    assert!(rt; write_corpus(rt.alloc(), 700, &mut sink).is_ok());
    assert_eq!(rt; sink.count(), BYTES_OF_700_DOCUMENTS);
    Ok(())
}

#[test]
fn the_program_has_its_lines(rt: HostRuntime) -> Result<(), Fail> {
    assert_eq!(rt; DEMO.len(), 3591);
    assert_eq!(rt;
        DEMO.as_bytes()
            .iter()
            .filter(|byte| **byte == b'\n')
            .count(),
        47
    );
    assert!(rt;
        DEMO.starts_with("create dictionary FirstNames as ('Ann','John','Maria','Paul');\n")
    );
    assert!(rt; DEMO.ends_with("output view FirstPerson;\noutput view LowerName;\n"));
    Ok(())
}
