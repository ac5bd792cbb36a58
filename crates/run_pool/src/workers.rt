ghost use Rattle.std.specs.Prelude.{◌≡◌, true};

use crate::{Answered, Pool};
use algebra::Plan;
use corpus_json::Layout;
use row_values::Rows;
use span_token::{Document, OutOfMemory};
use std::alloc::Global;

/// The pool of the program: it answers the rows that were found, and keeps no list.
#[derive(Drop)]
pub struct Workers;

impl Pool for Workers {
    ghost use Rattle.std.specs.Prelude.{None};
    ghost use Rattle.run_pool.specs.Lines.{rows_by};

    ghost means = { λ _. rows_by };

    ghost told = { λ _. None };

    fn answer<'d>(
        &mut self,
        _alloc: Global,
        _plan: &Plan,
        _layout: &Layout<'_>,
        _document: &Document<'d>,
        _found: &[&Rows<'d>],
    ) -> Result<Answered<'d>, OutOfMemory> {
        Ok(Answered::AsFound)
    }

    fn is_plain(&self) -> bool
        ensures plain { result ≡ true }
    {
        true
    }

    fn part(&self, _alloc: Global) -> Workers {
        Workers
    }

    fn gather(&mut self, _alloc: Global, _part: &Workers) -> Result<(), OutOfMemory> {
        Ok(())
    }
}
