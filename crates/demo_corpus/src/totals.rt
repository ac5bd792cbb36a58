ghost use Rattle.std.specs.Prelude.{◌≡◌, ◌<◌, ◌+◌, ◌-◌, ◌++◌, ◌∷◌, ◌^◌, [], All, EachIndex, IfOk, List, length, slice_index, string_bytes};
ghost use Rattle.demo_corpus.specs.Summaries.{summary_of};
ghost use Rattle.demo_corpus.specs.Totals.{Answer, answer_of, size_at, tally_of};

use crate::summary::summary;
use row_values::{Output, Rows};
use span_token::OutOfMemory;
use std::alloc::Global;
use std::marker::Model;

/// How many documents were counted, and how many rows each output has over all of them.
#[derive(Debug, Drop)]
pub struct Totals {
    documents: u32,
    totals: Vec<u64>,
}

impl Model for Totals {
    ghost use Rattle.std.specs.Prelude.{◌<◌, ◌≤◌, ◌*◌, ◌^◌, All};
    ghost use Rattle.demo_corpus.specs.Totals.{Tally};

    ghost Value = { Tally };

    ghost view = { λ t. record { documents = t.documents; totals = t.totals.items } };

    ghost invariant = { λ t. All (λ total. total ≤ t.documents * 2 ^ 32) t.totals.items };
}

impl Totals {
    /// No document yet, of `outputs` outputs.
    pub fn new(alloc: Global, outputs: usize) -> Result<Totals, OutOfMemory>
        ensures { IfOk result (λ totals. totals ≡ tally_of outputs []) }
    {
        let totals = vec![in alloc; 0u64; outputs]?;
        Ok(Totals {
            documents: 0,
            totals,
        })
    }

    /// Counts the rows of one more document: those of each output, in the outputs' order, borrowed. Equal
    /// rows count each time. It takes no memory.
    pub fn add(&mut self, rows: &[&Rows<'_>])
        requires one_of_each { length rows.now ≡ length self.old.totals }
        requires room { self.old.documents < 2 ^ 32 - 1 }
        ensures counted { (answers : List Answer) → self.old ≡ tally_of (length rows.now) answers
            → self.new ≡ tally_of (length rows.now) (answers ++ answer_of rows.now ∷ []) }
        ensures documents { self.new.documents ≡ self.old.documents + 1 }
        ensures outputs { length self.new.totals ≡ length self.old.totals }
    {
        self.documents += 1;
        add_sizes(self.totals.as_mut_slice(), rows);
    }

    /// The summary: the line `documents`, a space and their number, and then for each output, by the bytes
    /// of its name, a line with its name, a space and its total.
    ///
    /// Meaning: `summary_of`, `specs/Summaries.antt`; docs/FORMATS.md, "Summaries".
    pub fn summary(&self, alloc: Global, outputs: &[Output]) -> Result<String, OutOfMemory>
        requires one_of_each { length outputs.now ≡ length self.now.totals }
        ensures { IfOk result (λ text. string_bytes text ≡ summary_of outputs.now self.now) }
    {
        summary(alloc, self.documents, outputs, self.totals.as_slice())
    }
}

/// Adds to each total the number of rows of its list.
fn add_sizes(totals: &mut [u64], rows: &[&Rows<'_>])
    requires one_of_each { length rows.now ≡ length totals.old }
    requires room { All (λ total. total < 2 ^ 64 - 2 ^ 32) totals.old }
    ensures added { EachIndex totals.new (λ k. slice_index totals.new k ≡ slice_index totals.old k + size_at (answer_of rows.now) k) }
    ensures grown { EachIndex totals.new (λ k. slice_index totals.new k < slice_index totals.old k + 2 ^ 32) }
{
    'outputs: for output in 0..rows.len() {
        totals[output] += u64::from(rows[output].len());
    }
}
