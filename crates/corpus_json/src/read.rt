ghost use Rattle.std.specs.Prelude.{◌≡◌, ◌≤◌, length, Err, Some, IfOk, IfSome, MatchOption, option_map, option_and_then};
ghost use Rattle.serde_json.specs.Read.{read as value_read};
ghost use Rattle.span_token.specs.declared.refusal.Failure.TheVariants.{Fault};
ghost use Rattle.corpus_json.specs.Documents.{is_blank, document_in, document_of, entry_of, blank, good, bad};
ghost use Rattle.corpus_json.specs.Inputs.{doc_of, doc_of_ref};
ghost use Rattle.corpus_json.specs.Passing.{AreStrings, whole_value, members_at, object_alone};
ghost use Rattle.serde_json.specs.Data.{Members, object};

mod flat;
mod members;
mod number;

use crate::{Input, InputRef, NotDocument};
use flat::flat_object;
use json::{Reader, Scratch, Token};
use members::{Strings, pass_members};
use span_token::{Failure, OutOfMemory};
use std::alloc::Global;

/// How deep arrays and objects may nest in an object of a line.
const DEPTH: usize = 126;

/// Reads documents, with memory that is used again from line to line.
#[derive(Drop)]
pub struct DocumentReader {
    scratch: Scratch,
}

impl DocumentReader {
    /// A reader without memory of its own yet, which grows to the longest line.
    pub fn new(alloc: Global) -> DocumentReader {
        DocumentReader {
            scratch: Scratch::new(alloc),
        }
    }

    /// The document of a line of the corpus, given without its LF; None where the line is blank.
    ///
    /// A line of spaces, tabs and CR alone, or of nothing, is blank. A line is a document where it is
    /// UTF-8 that serde_json reads as an object whose member `text` is a string; a member `label` that
    /// is a string is its label, and other members are passed over. Of members with equal names the
    /// last counts. The text has at most as many bytes as the line. `NotDocument` comes exactly where
    /// the line is neither blank nor a document. A text without escapes is borrowed from the line, and
    /// another from the reader.
    ///
    /// Meaning: `entry_of`, `specs/Documents.antt`.
    pub fn read<'d>(
        &'d mut self,
        line: &'d [u8],
    ) -> Result<Option<InputRef<'d>>, Failure<NotDocument>>
        ensures answer { IfOk result (λ found. MatchOption found (entry_of line.now ≡ blank)
            (λ input. entry_of line.now ≡ good (doc_of_ref input))) }
        ensures no_longer { IfOk result (λ found. IfSome found (λ input. length input.text.now ≤ length line.now)) }
        ensures exactly_where { result ≡ Err (Fault (record {})) → entry_of line.now ≡ bad }
    {
        if is_blank(line) {
            return Ok(None);
        }
        match read_json(&mut self.scratch, line)? {
            Some(input) => Ok(Some(input)),
            None => Err(Failure::Fault(NotDocument)),
        }
    }
}

/// The document of a line, as a `DocumentReader` reads it, with texts of its own.
pub fn read_document(alloc: Global, line: &[u8]) -> Result<Option<Input>, Failure<NotDocument>>
    ensures answer { IfOk result (λ found. MatchOption found (entry_of line.now ≡ blank)
        (λ input. entry_of line.now ≡ good (doc_of input))) }
    ensures no_longer { IfOk result (λ found. IfSome found (λ input. length input.text ≤ length line.now)) }
    ensures exactly_where { result ≡ Err (Fault (record {})) → entry_of line.now ≡ bad }
{
    let mut reader = DocumentReader::new(alloc);
    match reader.read(line) {
        Ok(Some(found)) => Ok(Some(Input::copied(alloc, found)?)),
        Ok(None) => Ok(None),
        Err(failure) => Err(failure),
    }
}

/// Whether the line has blank bytes alone.
fn is_blank(line: &[u8]) -> bool
    ensures { result ≡ is_blank line.now }
{
    line.iter()
        .all(|byte| *byte == b' ' || *byte == b'\t' || *byte == b'\r')
}

/// The document that the line is, where it is one.
#[tactic(auto, unfolding(crate::specs::Documents::document_in))]
fn read_json<'d>(
    scratch: &'d mut Scratch,
    line: &'d [u8],
) -> Result<Option<InputRef<'d>>, OutOfMemory>
    ensures { IfOk result (λ found. (option_map doc_of_ref found ≡ document_in line.now)
        × IfSome found (λ input. length input.text.now ≤ length line.now)) }
{
    match simdutf8::basic::from_utf8(line) {
        Ok(text) => {
            let found = read_text(scratch, text)?;
            Ok(found)
        }
        Err(_) => Ok(None),
    }
}

/// The document that a text is, where it is one.
fn read_text<'d>(
    scratch: &'d mut Scratch,
    text: &'d str,
) -> Result<Option<InputRef<'d>>, OutOfMemory>
    ensures { IfOk result (λ found. option_map doc_of_ref found ≡ option_and_then document_of (value_read text.now)) }
{
    if let Some(strings) = flat_object(text) {
        return Ok(input_of(strings));
    }
    let mut reader = Reader::new(text, scratch)?;
    Ok(whole_document(&mut reader))
}

/// The document that all tokens together are, where they are one.
fn whole_document<'d>(reader: &mut Reader<'d>) -> Option<InputRef<'d>>
    ensures { option_map doc_of_ref result ≡ option_and_then document_of (whole_value reader.old) }
{
    let token = reader.next()?;
    match token {
        Token::BeginObject => whole_object(reader),
        Token::String(_)
        | Token::Number(_)
        | Token::Bool(_)
        | Token::Null
        | Token::BeginArray
        | Token::EndArray
        | Token::EndObject
        | Token::Key(_)
        | Token::Bad => None,
    }
}

/// The document that an object is, given after its first brace, where it is the last and is one.
fn whole_object<'d>(reader: &mut Reader<'d>) -> Option<InputRef<'d>>
    ensures { option_map doc_of_ref result ≡ option_and_then document_of (object_alone (members_at 126 reader.old)) }
{
    let Ok(strings) = pass_members(reader, DEPTH) else {
        return None;
    };
    if reader.next().is_some() {
        return None;
    }
    input_of(strings)
}

/// The document that an object is, given its strings, where it is one.
fn input_of<'d>(strings: Strings<'d>) -> Option<InputRef<'d>>
    ensures { (members : Members) → AreStrings strings.entry members → option_map doc_of_ref result ≡ document_of (object members) }
{
    let text = strings.text?;
    Some(InputRef {
        label: strings.label,
        text,
    })
}
