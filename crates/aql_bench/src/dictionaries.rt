//! A dictionary in one pass over each document.
use crate::bench::Bench;
use crate::tokens::LIMIT;
use dict_match::{DictMatch, DictPass, DictScratch, DictUse};
use span_token::{Document, OutOfMemory, OwnedList, OwnedText};
use std::alloc::Global;

/// So many entries: each tenth is a token of the documents, the others stand in no text.
pub(crate) fn entries(
    alloc: Global,
    docs: &[Document<'_>],
    number: usize,
) -> Result<OwnedList<OwnedText>, OutOfMemory> {
    let mut entries = OwnedList::new(alloc);
    for i in 0..number {
        entries.push(entry(alloc, docs, i)?)?;
    }
    Ok(entries)
}

fn entry(alloc: Global, docs: &[Document<'_>], i: usize) -> Result<OwnedText, OutOfMemory> {
    if i % 10 == 0 && !docs.is_empty() {
        let doc = &docs[i % docs.len()];
        let count = doc.token_count();
        if count > 0 {
            let token = doc.token((i % count as usize) as u32);
            return OwnedText::copied(alloc, doc.text_of(token));
        }
    }
    Ok(OwnedText::from(format!(in alloc; "zq{i}")?))
}

/// The first line of a text as the one entry.
pub(crate) fn first_line(alloc: Global, text: &str) -> Result<OwnedList<OwnedText>, OutOfMemory> {
    let mut entries = OwnedList::new(alloc);
    if let Some(line) = text.lines().next() {
        entries.push(OwnedText::copied(alloc, line)?)?;
    }
    Ok(entries)
}

/// A pass of one dictionary that doesn't look at case.
pub(crate) fn pass_of(
    alloc: Global,
    entries: OwnedList<OwnedText>,
) -> Result<DictPass, OutOfMemory> {
    let dict = DictUse {
        entries,
        exact: false,
    };
    DictPass::new(alloc, &[dict])
}

/// A document with its tokens is made of each line, and the pass walks over it.
#[derive(Drop)]
pub(crate) struct Dictionary<'t> {
    pub alloc: Global,
    pub text: &'t str,
    pub pass: DictPass,
    pub scratch: DictScratch,
    pub found: Vec<DictMatch>,
}

impl Bench for Dictionary<'_> {
    fn round(&mut self) -> Result<u64, OutOfMemory> {
        let mut count = 0u64;
        for line in self.text.lines() {
            if line.len() <= LIMIT {
                let doc = Document::new(self.alloc, line, None)?;
                self.found.clear();
                self.pass
                    .append_matches(&doc, doc.whole(), &mut self.scratch, &mut self.found)?;
                count = count.wrapping_add(self.found.len() as u64);
            }
        }
        Ok(count)
    }
}
