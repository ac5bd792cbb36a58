ghost use Rattle.std.specs.Prelude.{◌≡◌, ℕ, ◌+◌, IfOk, OnOk, OnErr, Option, List, MatchResult, ◌<◌, ◌^◌};
ghost use Rattle.aql_io.specs.Causes.{Rose};
ghost use Rattle.aqlx_top.specs.Devices.{SourceEnds, source_ends, sink_ends, source_between, sink_between};
ghost use Rattle.aqlx_top.specs.Progress.{IsGoing};
ghost use Rattle.aqlx_top.specs.Handing.{InPartBy, PoolEnds, pool_between, pool_ends};
ghost use Rattle.aqlx_top.specs.PoolTurns.{FinishedBy, IsRunBy, StandsBy, TurnedBy};
ghost use Rattle.aqlx_top.specs.Planned.{names_in};
ghost use Rattle.aqlx_top.specs.Turns.{Begins, IsKept};
ghost use Rattle.algebra.specs.Plans.{Parts};
ghost use Rattle.run_pool.specs.Entries.{Entry};

use crate::asks::asks_for_tokens;
use crate::put::put_and_flush;
use crate::{CorpusFault, Status};
use algebra::Plan;
use aql_io::{Failed, Sink, Source};
use corpus_json::{Layout, LineBuffer, Step};
use line_parts::put;
use plan_operators::Schedule;
use row_values::Output;
use run_pool::Pool;
use scalar_ops::Tools;
use span_token::OutOfMemory;
use std::alloc::Global;
use window_lines::{Room, answer_line};

/// How many bytes of output are held before they are written.
pub(crate) const PIECE: usize = 65_536;

/// What a run keeps from line to line.
#[derive(Drop)]
pub(crate) struct Work<'p> {
    pub schedule: Schedule<'p>,
    pub layout: Layout<'p>,
    pub reader: LineBuffer,
    pub line: Vec<u8>,
    pub number: u64,
    pub tools: Tools<'p>,
    pub with_tokens: bool,
    pub room: Room,
    pub pending: Vec<u8>,
}

/// What one turn came to: the next line, or the end of the run with its status.
#[derive(Drop)]
pub(crate) enum Turn {
    Next,
    Ended(Status),
}

/// Runs a plan over a corpus by a pool: hands each document over, and writes the line that the pool answers, until
/// a line is bad, the corpus ends, or it can't be read or written any more. What is written is flushed at the end.
pub(crate) fn run<S: Source, O: Sink, P: Pool>(
    alloc: Global,
    plan: &Plan,
    outputs: &[Output],
    pool: &mut P,
    corpus: &mut S,
    out: &mut O,
) -> Result<Status, OutOfMemory>
    requires outputs { outputs.now ≡ names_in plan.now }
    ensures ran { IfOk result (IsRunBy (pool_between P.means P.told pool.old pool.new) plan.now
        (source_between S.left S.faults corpus.old corpus.new)
        (sink_between O.held O.flushed O.faults out.old out.new)) }
    ensures part { OnErr result (InPartBy (pool_between P.means P.told pool.old pool.new) plan.now
        (source_between S.left S.faults corpus.old corpus.new)
        (O.held out.old) (O.held out.new)) }
    ensures means { P.means pool.new ≡ P.means pool.old }
{
    let mut work = begin(alloc, plan, outputs)?;
    'lines: loop {
        match send_in_time(out, &mut work) {
            Ok(()) => {}
            Err(Failed) => return Ok(Status::WriteFault),
        }
        match take_turn(alloc, &mut work, pool, corpus)? {
            Turn::Next => {}
            Turn::Ended(status) => return Ok(finish(out, &work.pending, status)),
        }
    }
}

fn begin<'p>(alloc: Global, plan: &'p Plan, outputs: &'p [Output]) -> Result<Work<'p>, OutOfMemory>
    ensures { IfOk result (λ work. Begins work outputs.now plan.now) }
{
    let schedule = Schedule::new(alloc, plan)?;
    let with_tokens = asks_for_tokens(&schedule);
    Ok(Work {
        schedule,
        layout: Layout::new(alloc, outputs)?,
        reader: LineBuffer::new(alloc)?,
        line: Vec::new(alloc),
        number: 0,
        tools: Tools::new(alloc, plan.tables())?,
        with_tokens,
        room: Room::new(alloc),
        pending: Vec::new(alloc),
    })
}

/// Writes what is pending, where it is a piece or where the next line isn't whole yet, so that what is
/// there stands on the output before the corpus is waited for.
fn send_in_time<O: Sink>(out: &mut O, work: &mut Work<'_>) -> Result<(), Failed>
    ensures sent { (pool : PoolEnds) (plan : Parts) (left_before left_now : Option (List ℕ)) (faults_before faults_now : ℕ) (before : Option (List ℕ)) →
        StandsBy pool plan (source_ends left_before left_now faults_before faults_now) before (O.held out.old) work.old.reader work.old.pending.items work.old.number →
        MatchResult result
        (λ _. StandsBy pool plan (source_ends left_before left_now faults_before faults_now) before (O.held out.new) work.new.reader work.new.pending.items work.new.number)
        (λ _. InPartBy pool plan (source_ends left_before left_now faults_before faults_now) before (O.held out.new)) }
    ensures same { IsKept work.old work.new }
    ensures stands { OnOk result (O.faults out.new ≡ O.faults out.old) }
    ensures cause { OnErr result (Rose (O.faults out.old) (O.faults out.new)) }
{
    if work.pending.len() >= PIECE || !work.reader.has_line() {
        put(out, &work.pending)?;
        work.pending.clear();
    }
    Ok(())
}

/// Looks at the next line, hands its document to the pool, and puts what is written for it after what is pending.
fn take_turn<S: Source, P: Pool>(
    alloc: Global,
    work: &mut Work<'_>,
    pool: &mut P,
    corpus: &mut S,
) -> Result<Turn, OutOfMemory>
    requires layout { work.old.layout ≡ names_in work.old.schedule }
    requires tables { work.old.tools ≡ work.old.schedule.lists }
    requires room { work.old.number < 2 ^ 63 }
    requires going { IsGoing work.old.reader }
    ensures turned { (told : Option (List Entry)) (left : Option (List ℕ)) (faults : ℕ) (before now : Option (List ℕ)) →
        StandsBy (pool_ends (P.means pool.old) told (P.told pool.old)) work.old.schedule (source_ends left (S.left corpus.old) faults (S.faults corpus.old)) before now work.old.reader work.old.pending.items work.old.number →
        TurnedBy (pool_ends (P.means pool.old) told (P.told pool.new)) work.old.schedule (source_ends left (S.left corpus.new) faults (S.faults corpus.new)) before now work.new.reader work.new.pending.items work.new.number result }
    ensures means { P.means pool.new ≡ P.means pool.old }
    ensures counts { IfOk result (λ came. came ≡ Turn.Next → work.new.number ≡ work.old.number + 1) }
    ensures going { IfOk result (λ came. came ≡ Turn.Next → IsGoing work.new.reader) }
    ensures same { (work.new.layout ≡ work.old.layout) × (work.new.tools ≡ work.old.tools) × (work.new.schedule ≡ work.old.schedule) }
{
    match work.reader.next_line(corpus, &mut work.line)? {
        Step::Line => {
            work.number += 1;
            // no more bytes were taken than a corpus has, which bounds the number of lines
            let _taken = work.reader.taken();
            if answer_line(
                alloc,
                &work.schedule,
                work.with_tokens,
                &work.layout,
                &mut work.tools,
                &mut work.room,
                pool,
                &work.line,
                &mut work.pending,
            )? {
                Ok(Turn::Next)
            } else {
                Ok(Turn::Ended(Status::Corpus(CorpusFault::BadLine(work.number))))
            }
        }
        Step::End => Ok(Turn::Ended(Status::Done)),
        Step::Long => Ok(Turn::Ended(Status::Corpus(CorpusFault::LineLong(work.number + 1)))),
        Step::Failed => Ok(Turn::Ended(Status::ReadFault)),
        Step::Limit => Ok(Turn::Ended(Status::Corpus(CorpusFault::CorpusLarge))),
    }
}

/// Writes what is pending and flushes it.
pub(crate) fn finish<O: Sink>(out: &mut O, pending: &[u8], status: Status) -> Status
    ensures { (pool : PoolEnds) (plan : Parts) (corpus : SourceEnds) (before : Option (List ℕ)) (flushed faults : ℕ) →
        O.faults out.old ≡ faults →
        FinishedBy pool plan corpus before (O.held out.old) pending.now status →
        IsRunBy pool plan corpus (sink_ends before (O.held out.new) flushed (O.flushed out.new) faults (O.faults out.new)) result }
{
    match put_and_flush(out, pending) {
        Ok(()) => status,
        Err(Failed) => Status::WriteFault,
    }
}
