ghost use Rattle.std.specs.Prelude.{◌≡◌, IfOk};
ghost use Rattle.corpus_json.specs.Inputs.{doc_of, doc_of_ref};

use span_token::{OutOfMemory, OwnedText};
use std::alloc::Global;

/// A document of the corpus that was read: its text, and its label where it has one.
#[derive(Debug, Drop)]
pub struct Input {
    pub label: Option<OwnedText>,
    pub text: OwnedText,
}

impl Input {
    /// The document with texts of its own.
    pub fn copied(alloc: Global, input: InputRef<'_>) -> Result<Input, OutOfMemory>
        ensures { IfOk result (λ copy. doc_of copy ≡ doc_of_ref input.entry) }
    {
        let text = OwnedText::copied(alloc, input.text)?;
        let label = match input.label {
            Some(label) => Some(OwnedText::copied(alloc, label)?),
            None => None,
        };
        Ok(Input { label, text })
    }
}

/// A document of the corpus whose texts are borrowed: from its line, or from its reader where they
/// are written with escapes.
#[derive(Clone, Copy, Debug)]
pub struct InputRef<'d> {
    pub label: Option<&'d str>,
    pub text: &'d str,
}

/// The line is neither blank nor a document.
#[derive(Clone, Copy, Debug, PartialEq, Eq)]
pub struct NotDocument;
