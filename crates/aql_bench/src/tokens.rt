//! Documents with their tokens.
ghost use Rattle.std.specs.Prelude.{◌≤◌, length, All};

use crate::bench::Bench;
use span_token::{Document, OutOfMemory};
use std::alloc::Global;

/// The most bytes that a document has.
pub(crate) const LIMIT: usize = 16_777_216;

/// A document for each line that isn't too long for one.
pub(crate) fn documents(alloc: Global, text: &str) -> Result<Vec<Document<'_>>, OutOfMemory> {
    let mut docs = Vec::new(alloc);
    for line in text.lines() {
        if line.len() <= LIMIT {
            docs.push(Document::new(alloc, line, None)?)?;
        }
    }
    Ok(docs)
}

/// A document with its tokens is made of each line, one after the other.
#[derive(Drop)]
pub(crate) struct Tokens<'t> {
    pub alloc: Global,
    pub text: &'t str,
}

impl Bench for Tokens<'_> {
    fn round(&mut self) -> Result<u64, OutOfMemory> {
        let mut count = 0u64;
        for line in self.text.lines() {
            if line.len() <= LIMIT {
                let doc = Document::new(self.alloc, line, None)?;
                count = count.wrapping_add(u64::from(doc.token_count()));
            }
        }
        Ok(count)
    }
}
