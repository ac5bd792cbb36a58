ghost use Rattle.std.specs.Prelude.{◌≡◌, IfOk, map};
ghost use Rattle.run_pool.specs.Answers.{no_rows, IsAnswer};

use crate::{Answered, Pool};
use algebra::Plan;
use corpus_json::Layout;
use row_values::Rows;
use span_token::{Document, OutOfMemory};
use std::alloc::Global;

/// A pool for tests that isn't sound: it answers no row, and keeps no list.
#[derive(Drop)]
pub struct Hollow;

impl Pool for Hollow {
    ghost use Rattle.std.specs.Prelude.{None};
    ghost use Rattle.run_pool.specs.Answers.{no_rows};

    ghost means = { λ _. no_rows };

    ghost told = { λ _. None };

    fn answer<'d>(
        &mut self,
        alloc: Global,
        plan: &Plan,
        _layout: &Layout<'_>,
        document: &Document<'d>,
        _found: &[&Rows<'d>],
    ) -> Result<Answered<'d>, OutOfMemory> {
        Ok(Answered::Instead(rows_without(alloc, plan, document)?))
    }

    fn is_plain(&self) -> bool {
        false
    }

    fn part(&self, _alloc: Global) -> Hollow {
        Hollow
    }

    fn gather(&mut self, _alloc: Global, _part: &Hollow) -> Result<(), OutOfMemory> {
        Ok(())
    }
}

/// For each output of the plan a list without rows.
fn rows_without<'d>(
    alloc: Global,
    plan: &Plan,
    document: &Document<'d>,
) -> Result<Vec<Rows<'d>>, OutOfMemory>
    ensures { IfOk result (λ rows. IsAnswer no_rows plan.now document.now rows.items) }
{
    let _ = document;
    let mut rows = Vec::new(alloc);
    for out in plan.outputs() {
        rows.push(Rows::new(alloc, out.names.width()))?;
    }
    Ok(rows)
}
