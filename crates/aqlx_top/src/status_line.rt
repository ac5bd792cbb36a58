ghost use Rattle.std.specs.Prelude.{◌≡◌, ◌≢◌, ◌++◌, [], IfOk, OnOk, OnErr, string_bytes};
ghost use Rattle.aqlx_top.specs.Devices.{sink_between, IsUntouched};
ghost use Rattle.aqlx_top.specs.Stages.{IsToldAs, IsWrittenAs};
ghost use Rattle.aqlx_top.specs.Statuses.{message_of, error_line, program_text, name_text, statement_text, place_text, after_commas, corpus_text, what_text};

use crate::put::put_and_flush;
use crate::type_line::text_of_rule;
use crate::{CorpusFault, NameFault, ProgramFault, Status, SyntaxFault, What};
use aql_io::{Failed, Sink};
use corpus_json::LINE_LIMIT;
use span_token::{OutOfMemory, OwnedText};
use std::alloc::Global;

/// Writes the line of `status` on standard error and flushes it, and answers `status`; where that fails,
/// a failed write is answered in its place. With `Done` and `WriteFault` nothing is written.
pub(crate) fn report<E: Sink>(
    alloc: Global,
    err: &mut E,
    status: Status,
) -> Result<Status, OutOfMemory>
    ensures told { IfOk result (IsToldAs (sink_between E.held E.flushed E.faults err.old err.new) status) }
    ensures memory { OnErr result (IsUntouched (sink_between E.held E.flushed E.faults err.old err.new)) }
{
    match status {
        Status::Done | Status::WriteFault => Ok(status),
        _ => write_line(alloc, err, status),
    }
}

fn write_line<E: Sink>(alloc: Global, err: &mut E, status: Status) -> Result<Status, OutOfMemory>
    requires has_line { message_of status ≢ [] }
    ensures told { IfOk result (IsWrittenAs (sink_between E.held E.flushed E.faults err.old err.new) status) }
    ensures memory { OnErr result (IsUntouched (sink_between E.held E.flushed E.faults err.old err.new)) }
{
    let line = status_line(alloc, &status)?;
    match put_and_flush(err, line.as_bytes()) {
        Ok(()) => Ok(status),
        Err(Failed) => Ok(Status::WriteFault),
    }
}

/// What `status` writes on standard error: its one line with its line feed, and nothing with `Done`
/// and `WriteFault`.
fn status_line(alloc: Global, status: &Status) -> Result<String, OutOfMemory>
    ensures { IfOk result (λ line. string_bytes line ≡ message_of status.now) }
{
    match status {
        Status::Done | Status::WriteFault => Ok(String::new(alloc)),
        Status::Program(fault) => as_line(alloc, text_of_program_fault(alloc, fault)?.as_str()),
        Status::Usage => as_line(alloc, "usage: aqlx MODE PROGRAM [--workers N]"),
        Status::Corpus(fault) => as_line(alloc, text_of_corpus_fault(alloc, fault)?.as_str()),
        Status::ReadFault => as_line(alloc, "read fault"),
    }
}

/// A text as a line on standard error.
fn as_line(alloc: Global, text: &str) -> Result<String, OutOfMemory>
    ensures { IfOk result (λ line. string_bytes line ≡ error_line text.now) }
{
    Ok(format!(in alloc; "aqlx: {text}\n")?)
}

fn text_of_program_fault(alloc: Global, fault: &ProgramFault) -> Result<String, OutOfMemory>
    ensures { IfOk result (λ text. string_bytes text ≡ program_text fault.now) }
{
    match fault {
        ProgramFault::Text { place } => Ok(format!(in alloc;
            "program is not UTF-8 at byte {place}"
        )?),
        ProgramFault::Large { what, number } => {
            let what = text_of_what(*what);
            Ok(format!(in alloc; "program too large: {what} {number}")?)
        }
        ProgramFault::Lex(fault) => {
            let place = fault.place;
            Ok(format!(in alloc; "no token at byte {place}")?)
        }
        ProgramFault::Syntax(fault) => text_of_syntax_fault(alloc, fault),
        ProgramFault::Name(fault) => text_of_name_fault(alloc, fault),
        ProgramFault::Mistyped {
            statement,
            place,
            rule,
        } => {
            let said = text_of_rule(alloc, rule)?;
            at_byte(alloc, *statement, *place, said.as_str())
        }
    }
}

fn text_of_name_fault(alloc: Global, fault: &NameFault) -> Result<String, OutOfMemory>
    ensures { IfOk result (λ text. string_bytes text ≡ name_text fault.now) }
{
    match fault {
        NameFault::DuplicateName { statement, name } => {
            let name = name.as_str();
            let said = format!(in alloc; "{name} is defined again")?;
            of_statement(alloc, *statement, said.as_str())
        }
        NameFault::UnknownView { statement, name } => {
            let name = name.as_str();
            let said = format!(in alloc; "no view {name}")?;
            of_statement(alloc, *statement, said.as_str())
        }
        NameFault::UnknownDictionary { statement, name } => {
            let name = name.as_str();
            let said = format!(in alloc; "no dictionary {name}")?;
            of_statement(alloc, *statement, said.as_str())
        }
        NameFault::DuplicateOutput { statement, name } => {
            let name = name.as_str();
            let said = format!(in alloc; "output {name} again")?;
            of_statement(alloc, *statement, said.as_str())
        }
        NameFault::Cycle { views } => text_of_cycle(alloc, views.as_slice()),
    }
}

/// What is said of a statement.
fn of_statement(alloc: Global, statement: u32, said: &str) -> Result<String, OutOfMemory>
    ensures { IfOk result (λ text. string_bytes text ≡ statement_text statement said.now) }
{
    Ok(format!(in alloc; "statement {statement}: {said}")?)
}

/// What is said of a place in a statement.
fn at_byte(alloc: Global, statement: u32, place: u32, said: &str) -> Result<String, OutOfMemory>
    ensures { IfOk result (λ text. string_bytes text ≡ place_text statement place said.now) }
{
    let first = format!(in alloc; "statement {statement}, byte ")?;
    let second = format!(in alloc; "{first}{place}")?;
    Ok(format!(in alloc; "{second}: {said}")?)
}

fn text_of_cycle(alloc: Global, views: &[OwnedText]) -> Result<String, OutOfMemory>
    ensures { IfOk result (λ text. string_bytes text ≡ name_text (NameFault.Cycle views.now)) }
{
    let mut text = String::from_str(alloc, "cycle: ")?;
    if let Some(first) = views.first() {
        text.push_str(first.as_str())?;
        push_after_commas(&mut text, &views[1..])?;
    }
    Ok(text)
}

/// Puts the names after the text, with a comma before each.
fn push_after_commas(text: &mut String, names: &[OwnedText]) -> Result<(), OutOfMemory>
    ensures { OnOk result (string_bytes text.new ≡ string_bytes text.old ++ after_commas names.now) }
{
    for name in names {
        text.push_str(", ")?;
        text.push_str(name.as_str())?;
    }
    Ok(())
}

fn text_of_syntax_fault(alloc: Global, fault: &SyntaxFault) -> Result<String, OutOfMemory>
    ensures { IfOk result (λ text. string_bytes text ≡ program_text (ProgramFault.Syntax fault.now)) }
{
    let statement = fault.statement;
    let line = fault.line;
    let first = format!(in alloc; "syntax: statement {statement}, line ")?;
    Ok(format!(in alloc; "{first}{line}")?)
}

fn text_of_what(what: What) -> &'static str
    ensures { result.now ≡ what_text what }
{
    match what {
        What::Bytes => "bytes",
        What::Statements => "statements",
        What::Nesting => "nesting",
    }
}

fn text_of_corpus_fault(alloc: Global, fault: &CorpusFault) -> Result<String, OutOfMemory>
    ensures { IfOk result (λ text. string_bytes text ≡ corpus_text fault.now) }
{
    match *fault {
        CorpusFault::BadLine(line) => Ok(format!(in alloc;
            "corpus line {line} is not a document"
        )?),
        CorpusFault::LineLong(line) => text_of_long_line(alloc, line),
        CorpusFault::CorpusLarge => Ok(String::from_str(alloc, "corpus too large")?),
    }
}

fn text_of_long_line(alloc: Global, line: u64) -> Result<String, OutOfMemory>
    ensures { IfOk result (λ text. string_bytes text ≡ corpus_text (CorpusFault.LineLong line)) }
{
    let most = LINE_LIMIT;
    let first = format!(in alloc; "corpus line {line} is longer than ")?;
    let second = format!(in alloc; "{first}{most}")?;
    Ok(format!(in alloc; "{second} bytes")?)
}
