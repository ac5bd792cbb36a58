ghost use Rattle.std.specs.Prelude.{◌≡◌, [], map};
ghost use Rattle.run_pool.specs.Entries.{entry_told};

use crate::handed::{all_copied, handed_of};
use crate::{Answered, Handed, Pool};
use algebra::Plan;
use corpus_json::Layout;
use row_values::Rows;
use span_token::{Document, OutOfMemory};
use std::alloc::Global;
use std::marker::Model;

/// A pool for tests: it answers the rows that were found, and keeps a list of what was handed to it.
///
/// Contracts see the list.
#[derive(Drop)]
pub struct Recorder {
    list: Vec<Handed>,
}

impl Model for Recorder {
    ghost use Rattle.std.specs.Prelude.{List, map};
    ghost use Rattle.run_pool.specs.Entries.{Entry, entry_told};

    ghost Value = { List Entry };

    ghost view = { λ recorder. map entry_told recorder.list.items };
}

impl Recorder {
    /// A pool to which nothing was handed. It takes no memory.
    pub fn new(alloc: Global) -> Recorder
        ensures { result ≡ [] }
    {
        Recorder {
            list: Vec::new(alloc),
        }
    }

    /// What was handed to it, in order. It takes no memory.
    pub fn list(&self) -> &[Handed]
        ensures { map entry_told result.now ≡ self.now }
    {
        self.list.as_slice()
    }
}

impl Pool for Recorder {
    ghost use Rattle.std.specs.Prelude.{Some};
    ghost use Rattle.run_pool.specs.Lines.{rows_by};

    ghost means = { λ _. rows_by };

    ghost told = { λ recorder. Some recorder };

    fn answer<'d>(
        &mut self,
        alloc: Global,
        plan: &Plan,
        layout: &Layout<'_>,
        document: &Document<'d>,
        found: &[&Rows<'d>],
    ) -> Result<Answered<'d>, OutOfMemory> {
        let handed = handed_of(alloc, plan, layout, document, found)?;
        self.list.push(handed)?;
        Ok(Answered::AsFound)
    }

    fn is_plain(&self) -> bool {
        false
    }

    fn part(&self, alloc: Global) -> Recorder {
        Recorder::new(alloc)
    }

    fn gather(&mut self, alloc: Global, part: &Recorder) -> Result<(), OutOfMemory> {
        let mut more = all_copied(alloc, part.list())?;
        self.list.append(&mut more)?;
        Ok(())
    }
}
