ghost use Rattle.std.specs.Prelude.{◌≡◌, map, string_bytes, ◌≤◌, ℕ, List, IfOk, OnErr};
ghost use Rattle.aqlx_top.specs.Devices.{files_between, source_between, sink_between, IsUnread};
ghost use Rattle.aqlx_top.specs.Handing.{pool_between};
ghost use Rattle.aqlx_top.specs.Outcome.{Outcome, call_of, HasCauseOf, WroteFront};
ghost use Rattle.aqlx_top.specs.Orders.{asked_told, IsForWorkers};
ghost use Rattle.aqlx_top.specs.Words.{to_run, IsOrder, IsNoRun};
ghost use Rattle.aqlx_top.specs.Stages.{IsFileRunTo, IsFileInPart, IsTextRunTo, IsTextInPart};

use crate::Status;
use crate::demonstration::demonstrate;
use crate::limits::MOST_READ;
use crate::modes::{Shown, generate, show_file, told_of};
use crate::program::compile;
use crate::program_file::read_file;
use crate::status_line::report;
use crate::words::{Asked, Order, order_of};
use crate::workers::run_by;
use aql_io::{Files, Sink, Source};
use run_pool::Pool;
use span_token::{Failure, OutOfMemory};
use std::alloc::Global;
use std::thread::Threads;

/// Does what `words` ask for. `run PROGRAM` reads the program file PROGRAM of `files`, reads the corpus to
/// its end and writes to `out` the line of each document, in the corpus's order. `check PROGRAM` writes
/// `ok`, and `plan PROGRAM` the text of the program's plan. `gen N` writes N generated documents as a
/// corpus, and `demo N` the summary of the demonstration on them, N from 0 to 100,000.
///
/// Words that ask for nothing have the status `Usage`. Of the program file at most one byte more than
/// `PROGRAM_LIMIT` is read, and a program with a fault is refused for its first one (`ProgramFault`). A
/// status of 1 to 4 has its one line on `err`. With the statuses 1 and 2, and in other modes than `run`,
/// nothing is read of the corpus. With 1 and 2 nothing is written to `out`; with 0 all is written and
/// flushed, and so are with 3, and with 4 after a failed read of the corpus, the lines of all documents
/// before the bad line or the failed read; with 5 and after want of memory a prefix is written. `run` holds
/// one line of the corpus, and one piece of output beyond the lines of one document; `plan` and `demo` hold
/// their text.
///
/// `run` and `demo` write or count the rows that `pool` answered. A pool that keeps a list is handed each document, in
/// order and once, with a plan whose text `plan` may write; of one that keeps none no clause says how often. The
/// program's pool is `Workers`; a sound pool's lines are those that the program means.
///
/// With `--workers N`, N from 2 on, and a plain pool, `run` answers the lines that are ready, and those behind them that
/// the corpus shows, by N workers, each in a thread of its own but for one, and holds what docs/FORMATS.md lists
/// under "Output"; no byte of what is written depends on N. All other calls start no thread. No clause says of threads that
/// there are any.
///
/// Meaning: `Outcome`, `specs/Outcome.antt`; docs/FORMATS.md, "Exit status and standard error".
pub fn aqlx<R: Threads + Sync, F: Files, S: Source + Sync, O: Sink, E: Sink, P: Pool>(
    rt: &R,
    alloc: Global,
    words: &Vec<String>,
    files: &mut F,
    corpus: &mut S,
    out: &mut O,
    err: &mut E,
    pool: &mut P,
) -> Result<Status, OutOfMemory>
    ensures outcome { Outcome
        (call_of (map string_bytes words.now.items) (files_between F.told F.faults files.old files.new)
        (pool_between P.means P.told pool.old pool.new)
        (source_between S.left S.faults corpus.old corpus.new)
        (sink_between O.held O.flushed O.faults out.old out.new))
        (sink_between E.held E.flushed E.faults err.old err.new)
        result }
    ensures means { P.means pool.new ≡ P.means pool.old }
{
    let status = carry_out(rt, alloc, words, files, pool, corpus, out)?;
    report(alloc, err, status)
}

/// Does what the words ask for, and tells how it ended.
fn carry_out<R: Threads + Sync, F: Files, S: Source + Sync, O: Sink, P: Pool>(
    rt: &R,
    alloc: Global,
    words: &Vec<String>,
    files: &mut F,
    pool: &mut P,
    corpus: &mut S,
    out: &mut O,
) -> Result<Status, OutOfMemory>
    ensures cause { IfOk result (HasCauseOf
        (call_of (map string_bytes words.now.items) (files_between F.told F.faults files.old files.new)
        (pool_between P.means P.told pool.old pool.new)
        (source_between S.left S.faults corpus.old corpus.new)
        (sink_between O.held O.flushed O.faults out.old out.new))) }
    ensures front { OnErr result (WroteFront
        (call_of (map string_bytes words.now.items) (files_between F.told F.faults files.old files.new)
        (pool_between P.means P.told pool.old pool.new)
        (source_between S.left S.faults corpus.old corpus.new)
        (sink_between O.held O.flushed O.faults out.old out.new))) }
    ensures unread { IsNoRun (map string_bytes words.now.items) → IsUnread (source_between S.left S.faults corpus.old corpus.new) }
    ensures means { P.means pool.new ≡ P.means pool.old }
{
    match order_of(words) {
        Some(asked) => follow(rt, alloc, asked, files, pool, corpus, out),
        None => Ok(Status::Usage),
    }
}

/// Does what is asked for.
fn follow<R: Threads + Sync, F: Files, S: Source + Sync, O: Sink, P: Pool>(
    rt: &R,
    alloc: Global,
    asked: Asked<'_>,
    files: &mut F,
    pool: &mut P,
    corpus: &mut S,
    out: &mut O,
) -> Result<Status, OutOfMemory>
    requires workers { IsForWorkers asked }
    ensures cause { IfOk result (λ status. (words : List (List ℕ)) → IsOrder words (asked_told asked.entry) → HasCauseOf
        (call_of words (files_between F.told F.faults files.old files.new)
        (pool_between P.means P.told pool.old pool.new)
        (source_between S.left S.faults corpus.old corpus.new)
        (sink_between O.held O.flushed O.faults out.old out.new)) status) }
    ensures front { OnErr result ((words : List (List ℕ)) → IsOrder words (asked_told asked.entry) → WroteFront
        (call_of words (files_between F.told F.faults files.old files.new)
        (pool_between P.means P.told pool.old pool.new)
        (source_between S.left S.faults corpus.old corpus.new)
        (sink_between O.held O.flushed O.faults out.old out.new))) }
    ensures unread { ((name : List ℕ) → ¬ (asked_told asked.entry ≡ to_run name)) → IsUnread (source_between S.left S.faults corpus.old corpus.new) }
    ensures means { P.means pool.new ≡ P.means pool.old }
{
    let Asked { order, workers } = asked;
    match order {
        Order::Run(name) => run_file(rt, alloc, workers, name, files, pool, corpus, out),
        Order::Check(name) => show_file(alloc, Shown::Check, name, files, out),
        Order::Plan(name) => show_file(alloc, Shown::Plan, name, files, out),
        Order::Gen(count) => generate(alloc, count, out),
        Order::Demo(count) => demonstrate(alloc, count, pool, out),
    }
}

/// Reads a program file and runs its program.
fn run_file<R: Threads + Sync, F: Files, S: Source + Sync, O: Sink, P: Pool>(
    rt: &R,
    alloc: Global,
    workers: u32,
    name: &str,
    files: &mut F,
    pool: &mut P,
    corpus: &mut S,
    out: &mut O,
) -> Result<Status, OutOfMemory>
    requires some { 1 ≤ workers }
    ensures ran { IfOk result (IsFileRunTo name.now (files_between F.told F.faults files.old files.new)
        (pool_between P.means P.told pool.old pool.new)
        (source_between S.left S.faults corpus.old corpus.new)
        (sink_between O.held O.flushed O.faults out.old out.new)) }
    ensures part { OnErr result (IsFileInPart name.now (files_between F.told F.faults files.old files.new)
        (pool_between P.means P.told pool.old pool.new)
        (source_between S.left S.faults corpus.old corpus.new)
        (sink_between O.held O.flushed O.faults out.old out.new)) }
    ensures means { P.means pool.new ≡ P.means pool.old }
{
    match read_file(alloc, files, name, MOST_READ)? {
        Some(bytes) => run_text(rt, alloc, workers, &bytes, pool, corpus, out),
        None => Ok(Status::ReadFault),
    }
}

/// Runs the program that a file's bytes hold.
fn run_text<R: Threads + Sync, S: Source + Sync, O: Sink, P: Pool>(
    rt: &R,
    alloc: Global,
    workers: u32,
    bytes: &[u8],
    pool: &mut P,
    corpus: &mut S,
    out: &mut O,
) -> Result<Status, OutOfMemory>
    requires some { 1 ≤ workers }
    ensures ran { IfOk result (IsTextRunTo bytes.now
        (pool_between P.means P.told pool.old pool.new)
        (source_between S.left S.faults corpus.old corpus.new)
        (sink_between O.held O.flushed O.faults out.old out.new)) }
    ensures part { OnErr result (IsTextInPart bytes.now
        (pool_between P.means P.told pool.old pool.new)
        (source_between S.left S.faults corpus.old corpus.new)
        (sink_between O.held O.flushed O.faults out.old out.new)) }
    ensures means { P.means pool.new ≡ P.means pool.old }
{
    match compile(alloc, bytes) {
        Ok(program) => {
            told_of(&program.plan);
            run_by(
                rt,
                alloc,
                workers,
                &program.plan,
                &program.outputs,
                pool,
                corpus,
                out,
            )
        }
        Err(Failure::Fault(fault)) => Ok(Status::Program(fault)),
        Err(Failure::OutOfMemory) => Err(OutOfMemory),
    }
}
