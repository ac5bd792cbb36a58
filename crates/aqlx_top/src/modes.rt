//! The modes that read no corpus: a program is checked, its plan shown, or a corpus generated.

ghost use Rattle.std.specs.Prelude.{◌≡◌, [], IfOk, OnErr, string_bytes};
ghost use Rattle.algebra.specs.Nodes.{IsPlan};
ghost use Rattle.algebra.specs.Plans.{AreOutputs};
ghost use Rattle.demo_corpus.specs.Corpora.{generated_corpus};
ghost use Rattle.aqlx_top.specs.Devices.{files_between, sink_between, GainedFront, IsUntouched};
ghost use Rattle.aqlx_top.specs.Showings.{gives, shown_text, IsFileShown, IsSent, IsTextShown};

use crate::Status;
use crate::limits::MOST_READ;
use crate::program::plan_of;
use crate::program_file::read_file;
use crate::put::put_and_flush;
use algebra::Plan;
use aql_io::{Failed, Files, Sink};
use demo_corpus::write_corpus;
use plan_maker::plan_text;
use span_token::{Failure, OutOfMemory};
use std::alloc::Global;

/// What is shown of a program that isn't run: that it has no fault, or its plan.
#[derive(Clone, Copy)]
pub(crate) enum Shown {
    Check,
    Plan,
}

/// Reads a program file, and writes what is to be shown of its program.
pub(crate) fn show_file<F: Files, O: Sink>(
    alloc: Global,
    shown: Shown,
    name: &str,
    files: &mut F,
    out: &mut O,
) -> Result<Status, OutOfMemory>
    ensures shown { IfOk result (IsFileShown (gives shown) name.now (files_between F.told F.faults files.old files.new)
        (sink_between O.held O.flushed O.faults out.old out.new)) }
    ensures untouched { OnErr result (IsUntouched (sink_between O.held O.flushed O.faults out.old out.new)) }
{
    match read_file(alloc, files, name, MOST_READ)? {
        Some(bytes) => show_text(alloc, shown, &bytes, out),
        None => Ok(Status::ReadFault),
    }
}

/// Writes what is to be shown of the program that a file's bytes hold.
fn show_text<O: Sink>(
    alloc: Global,
    shown: Shown,
    bytes: &[u8],
    out: &mut O,
) -> Result<Status, OutOfMemory>
    ensures shown { IfOk result (IsTextShown (gives shown) bytes.now (sink_between O.held O.flushed O.faults out.old out.new)) }
    ensures untouched { OnErr result (IsUntouched (sink_between O.held O.flushed O.faults out.old out.new)) }
{
    match plan_of(alloc, bytes) {
        Ok(plan) => {
            told_of(&plan);
            let text = text_shown(alloc, shown, &plan)?;
            Ok(send(out, text.as_bytes()))
        }
        Err(Failure::Fault(fault)) => Ok(Status::Program(fault)),
        Err(Failure::OutOfMemory) => Err(OutOfMemory),
    }
}

/// Nothing is done: it says what holds of every plan.
pub(crate) fn told_of(plan: &Plan)
    ensures nodes { IsPlan plan.now.nodes }
    ensures outputs { AreOutputs plan.now.nodes plan.now.outputs }
{
    let _ = plan.outputs();
    let _ = plan.nodes().as_slice();
}

/// What is shown of a program by its plan.
fn text_shown(alloc: Global, shown: Shown, plan: &Plan) -> Result<String, OutOfMemory>
    ensures { IfOk result (λ text. string_bytes text ≡ shown_text shown plan.now) }
{
    match shown {
        Shown::Check => Ok(String::from_str(alloc, "ok\n")?),
        Shown::Plan => plan_text(alloc, plan),
    }
}

/// Writes the bytes and flushes them.
pub(crate) fn send<O: Sink>(out: &mut O, bytes: &[u8]) -> Status
    ensures { IsSent (sink_between O.held O.flushed O.faults out.old out.new) bytes.now result }
{
    match put_and_flush(out, bytes) {
        Ok(()) => Status::Done,
        Err(Failed) => Status::WriteFault,
    }
}

/// Writes so many generated documents as a corpus, and flushes them.
pub(crate) fn generate<O: Sink>(
    alloc: Global,
    count: u32,
    out: &mut O,
) -> Result<Status, OutOfMemory>
    ensures sent { IfOk result (IsSent (sink_between O.held O.flushed O.faults out.old out.new) (generated_corpus count)) }
    ensures front { OnErr result (GainedFront (sink_between O.held O.flushed O.faults out.old out.new) (generated_corpus count)) }
{
    match write_corpus(alloc, count, out) {
        Ok(()) => Ok(flush(out)),
        Err(Failure::Fault(Failed)) => Ok(Status::WriteFault),
        Err(Failure::OutOfMemory) => Err(OutOfMemory),
    }
}

/// Flushes what was written.
fn flush<O: Sink>(out: &mut O) -> Status
    ensures { IsSent (sink_between O.held O.flushed O.faults out.old out.new) [] result }
{
    match out.flush() {
        Ok(()) => Status::Done,
        Err(Failed) => Status::WriteFault,
    }
}
