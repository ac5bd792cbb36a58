//! Patterns with a kept searcher.

use crate::bench::Bench;
use aql_regex_extract::{Searcher, Sought, SoughtRuns, WholeSearcher};
use span_token::{Document, OutOfMemory, Span};

/// The successive matches of a pattern in each document.
#[derive(Drop)]
pub(crate) struct Matches<'p, 'd> {
    pub searcher: Searcher<'p>,
    pub docs: &'d [Document<'d>],
    pub found: Vec<Option<Span>>,
}

impl Bench for Matches<'_, '_> {
    fn round(&mut self) -> Result<u64, OutOfMemory> {
        let mut count = 0u64;
        for doc in self.docs {
            self.found.clear();
            let sought = Sought {
                doc,
                source: doc.whole(),
                groups: &[0],
            };
            self.searcher.append_matches(&sought, &mut self.found)?;
            count = count.wrapping_add(self.found.len() as u64);
        }
        Ok(count)
    }
}

/// The runs of 1 to 4 tokens of a pattern in each document.
#[derive(Drop)]
pub(crate) struct Runs<'p, 'd> {
    pub searcher: WholeSearcher<'p>,
    pub docs: &'d [Document<'d>],
    pub found: Vec<Option<Span>>,
}

impl Bench for Runs<'_, '_> {
    fn round(&mut self) -> Result<u64, OutOfMemory> {
        let mut count = 0u64;
        for doc in self.docs {
            self.found.clear();
            let sought = SoughtRuns {
                doc,
                source: doc.whole(),
                low: 1,
                high: 4,
                groups: &[0],
            };
            self.searcher.append_token_runs(&sought, &mut self.found)?;
            count = count.wrapping_add(self.found.len() as u64);
        }
        Ok(count)
    }
}
