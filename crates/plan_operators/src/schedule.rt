ghost use Rattle.std.specs.Prelude.{◌≡◌, ◌<◌, IfOk, IsTrue, length, map};
ghost use Rattle.span_token.specs.Documents.{Doc};
ghost use Rattle.algebra.specs.Needed.{IsNeeded};
ghost use Rattle.plan_operators.specs.Readers.{IsScheduled};

use crate::readers::count_readers;
use algebra::Plan;
use span_token::OutOfMemory;
use std::alloc::Global;
use std::marker::Model;

/// A plan with the numbers of those who read its nodes' rows, which are counted once for all documents.
///
/// Contracts see the plan.
#[derive(Drop)]
pub struct Schedule<'p> {
    plan: &'p Plan,
    readers: Vec<u64>,
}

impl<'p> Model for Schedule<'p> {
    ghost use Rattle.std.specs.Coded.{codes};
    ghost use Rattle.scalar_ops.specs.Codes.{term_code};
    ghost use Rattle.algebra.specs.Plans.{Parts};
    ghost use Rattle.plan_operators.specs.Readers.{IsScheduled};

    ghost Value = { Parts };

    ghost coded = { Prim.hlevel (codes, term_code) };

    ghost view = { λ schedule. schedule.plan.now };

    ghost invariant = { λ schedule. IsScheduled schedule.plan.now schedule.readers.items };
}

impl<'p> Schedule<'p> {
    /// The schedule of a plan.
    pub fn new(alloc: Global, plan: &'p Plan) -> Result<Schedule<'p>, OutOfMemory>
        ensures { IfOk result (λ schedule. schedule ≡ plan.now) }
    {
        let readers = count_readers(alloc, plan.nodes(), plan.outputs())?;
        Ok(Schedule { plan, readers })
    }

    /// The plan.
    pub fn plan(&self) -> &'p Plan
        ensures { result.now ≡ self.now }
    {
        self.plan
    }

    /// Whether somebody reads the rows of node `n`, from 0; it is so for each node that an output needs on
    /// some document.
    pub fn is_read(&self, n: u32) -> bool
        requires in_range { n < length self.now.nodes }
        ensures { (doc : Doc) → IsNeeded self.now.lists doc self.now.nodes (map (λ out. out.node) self.now.outputs) n → IsTrue result }
    {
        self.readers[n as usize] > 0
    }

    /// For each node how often it is read, and one more where an output shows it.
    pub(crate) fn readers(&self) -> &[u64]
        ensures { IsScheduled self.now result.now }
    {
        self.readers.as_slice()
    }
}
