//! A run by one worker, or by several.

ghost use Rattle.std.specs.Prelude.{◌≡◌, ◌≤◌, IfOk, OnErr};
ghost use Rattle.aqlx_top.specs.Devices.{source_between, sink_between};
ghost use Rattle.aqlx_top.specs.Handing.{InPartBy, pool_between};
ghost use Rattle.aqlx_top.specs.Planned.{names_in};
ghost use Rattle.aqlx_top.specs.PoolTurns.{IsRunBy};

use crate::Status;
use crate::run::run;
use crate::windows::run_in_windows;
use algebra::Plan;
use aql_io::{Sink, Source};
use row_values::Output;
use run_pool::Pool;
use span_token::OutOfMemory;
use std::alloc::Global;
use std::thread::Threads;

/// Runs a plan over a corpus by a pool and by so many workers: one evaluates line by line, and several at once
/// where the pool answers what is found and keeps no list, each document being handed to it or to a part of it.
pub(crate) fn run_by<R: Threads + Sync, S: Source + Sync, O: Sink, P: Pool>(
    rt: &R,
    alloc: Global,
    workers: u32,
    plan: &Plan,
    outputs: &[Output],
    pool: &mut P,
    corpus: &mut S,
    out: &mut O,
) -> Result<Status, OutOfMemory>
    requires some { 1 ≤ workers }
    requires outputs { outputs.now ≡ names_in plan.now }
    ensures ran { IfOk result (IsRunBy (pool_between P.means P.told pool.old pool.new) plan.now
        (source_between S.left S.faults corpus.old corpus.new)
        (sink_between O.held O.flushed O.faults out.old out.new)) }
    ensures part { OnErr result (InPartBy (pool_between P.means P.told pool.old pool.new) plan.now
        (source_between S.left S.faults corpus.old corpus.new)
        (O.held out.old) (O.held out.new)) }
    ensures means { P.means pool.new ≡ P.means pool.old }
{
    if workers > 1 && pool.is_plain() {
        run_in_windows(rt, alloc, workers, plan, outputs, pool, corpus, out)
    } else {
        run(alloc, plan, outputs, pool, corpus, out)
    }
}
