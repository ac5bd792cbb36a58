ghost use Rattle.std.specs.Prelude.{◌≡◌, ◌≤◌, IfOk, vec_len};
ghost use Rattle.worker_pool.specs.Workers.{HaveTools};

use algebra::Plan;
use run_tables::ClaimSeat;
use scalar_ops::{Tables, Tools};
use span_token::OutOfMemory;
use std::alloc::Global;
use std::marker::Model;

/// The workers of a run: what each keeps of its own for a plan, made once and used for all windows.
///
/// Contracts see the patterns and dictionaries of the plan; each worker has tools for them.
#[derive(Drop)]
pub struct Crew<'p> {
    pub(crate) tables: &'p Tables,
    pub(crate) workers: Vec<Worker<'p>>,
}

impl<'p> Model for Crew<'p> {
    ghost use Rattle.std.specs.Prelude.{◌<◌, ◌^◌, vec_len};
    ghost use Rattle.std.specs.Coded.{codes};
    ghost use Rattle.scalar_ops.specs.Tables.{Lists};
    ghost use Rattle.worker_pool.specs.Workers.{HaveTools};

    ghost Value = { Lists };

    ghost view = { λ crew. crew.tables.now };

    ghost invariant = { λ crew. (0 < vec_len crew.workers) × (vec_len crew.workers < 2 ^ 32) × HaveTools crew.tables.now crew.workers.items };
}

/// One worker: its seat at the claims of a window, while it runs, and its tools.
#[derive(Drop)]
pub(crate) struct Worker<'p> {
    pub(crate) seat: Option<ClaimSeat>,
    pub(crate) tools: Tools<'p>,
}

impl<'p> Crew<'p> {
    /// So many workers for a plan. What a worker needs to search is made when it first does.
    pub fn new(alloc: Global, plan: &'p Plan, workers: u32) -> Result<Crew<'p>, OutOfMemory>
        requires some { 1 ≤ workers }
        ensures of_plan { IfOk result (λ crew. crew ≡ plan.now.lists) }
    {
        let tables = plan.tables();
        let workers = workers_for(alloc, tables, workers)?;
        Ok(Crew { tables, workers })
    }
}

/// So many workers with tools for the tables.
fn workers_for<'p>(
    alloc: Global,
    tables: &'p Tables,
    number: u32,
) -> Result<Vec<Worker<'p>>, OutOfMemory>
    ensures long { IfOk result (λ workers. vec_len workers ≡ number) }
    ensures tools { IfOk result (λ workers. HaveTools tables.now workers.items) }
{
    let mut workers = Vec::with_capacity(alloc, number as usize)?;
    for _ in 0..number {
        workers.push(Worker {
            seat: None,
            tools: Tools::new(alloc, tables)?,
        })?;
    }
    Ok(workers)
}
