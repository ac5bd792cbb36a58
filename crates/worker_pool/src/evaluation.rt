ghost use Rattle.std.specs.Prelude.{◌≡◌, ◌<◌, ◌^◌, IfOk, length};
ghost use Rattle.algebra.specs.Items.{item_count};
ghost use Rattle.worker_pool.specs.Evaluations.{IsEvaluation};
ghost use Rattle.worker_pool.specs.Workers.{HaveTools};

use crate::Gate;
use crate::crew::{Crew, Worker};
use crate::fill::{Winners, fill};
use crate::finished::Finished;
use crate::run::run;
use crate::window::Window;
use algebra::Plan;
use run_tables::{Results, Work};
use span_token::{Document, OutOfMemory};
use std::alloc::Global;
use std::marker::Brand;
use std::thread::Threads;

/// The rows of a plan's outputs on each document, by the workers of a crew for the plan's patterns and
/// dictionaries, each in a thread of its own but for the first one.
///
/// They are the same bags for every number of workers and every schedule. `gate` is told of each
/// evaluation of an item. No call waits for another thread but for the end of them all.
///
/// Meaning: `IsEvaluation`, `specs/Evaluations.antt`.
pub fn evaluate<'d, R: Threads + Sync, G: Gate>(
    rt: &R,
    alloc: Global,
    plan: &'d Plan,
    docs: &'d [Document<'d>],
    crew: &mut Crew<'_>,
    gate: &G,
) -> Result<Finished<'d>, OutOfMemory>
    requires of_plan { crew.old ≡ plan.now.lists }
    requires few { item_count plan.now docs.now < 2 ^ 32 }
    ensures done { IfOk result (IsEvaluation plan.now docs.now) }
    ensures same { crew.new ≡ crew.old }
{
    evaluate_as::<Brand, R, G>(rt, alloc, plan, docs, crew.workers.as_mut_slice(), gate)
}

/// The same, of the plan and the documents of a name.
fn evaluate_as<'d, W: Work + Send + Sync, R: Threads + Sync, G: Gate>(
    rt: &R,
    alloc: Global,
    plan: &'d Plan,
    docs: &'d [Document<'d>],
    workers: &mut [Worker<'_>],
    gate: &G,
) -> Result<Finished<'d>, OutOfMemory>
    requires work { (plan.now ≡ W.plan) × (docs.now ≡ W.docs) }
    requires some { 0 < length workers.old }
    requires number { length workers.old < 2 ^ 32 }
    requires tools { HaveTools plan.now.lists workers.old }
    requires few { item_count plan.now docs.now < 2 ^ 32 }
    ensures done { IfOk result (IsEvaluation plan.now docs.now) }
    ensures long { length workers.new ≡ length workers.old }
    ensures tools { HaveTools plan.now.lists workers.new }
{
    let results: Results<'d, W> = Results::new(alloc, plan, docs)?;
    let window = Window {
        gate,
        results: &results,
        plan,
        docs,
    };
    let number = workers.len() as u32;
    let words = run(rt, alloc, &window, workers)?;
    let winners = Winners {
        words: words.as_slice(),
        caller: if number > 1 { number } else { 0 },
    };
    fill(alloc, &window, &mut workers[0], &winners)
}
