//! What a fault of a program is, in a word and a number.

use aqlx_top::{NameFault, ProgramFault, What};
use span_token::{Failure, OutOfMemory};
use std::alloc::Global;

/// What a fault is of, and the number that it tells; 0 where it tells none.
pub(crate) fn told(alloc: Global, failure: &Failure<ProgramFault>) -> Result<String, OutOfMemory> {
    match failure {
        Failure::Fault(fault) => {
            let kind = kind_of(fault);
            let number = number_of(fault);
            let told = format!(in alloc; "{kind} {number}")?;
            Ok(told)
        }
        Failure::OutOfMemory => Err(OutOfMemory),
    }
}

/// What a fault is of.
fn kind_of(fault: &ProgramFault) -> &'static str {
    match fault {
        ProgramFault::Text { .. } => "text",
        ProgramFault::Large { what, .. } => size_of(*what),
        ProgramFault::Lex(_) => "token",
        ProgramFault::Syntax(_) => "syntax",
        ProgramFault::Name(fault) => name_of(fault),
        ProgramFault::Mistyped { .. } => "type",
    }
}

/// What there is too much of.
fn size_of(what: What) -> &'static str {
    match what {
        What::Bytes => "bytes",
        What::Statements => "statements",
        What::Nesting => "nesting",
    }
}

/// What a fault of names is of.
fn name_of(fault: &NameFault) -> &'static str {
    match fault {
        NameFault::UnknownView { .. } => "unknown view",
        NameFault::Cycle { .. } => "cycle",
        NameFault::DuplicateName { .. }
        | NameFault::UnknownDictionary { .. }
        | NameFault::DuplicateOutput { .. } => "name",
    }
}

/// The number that a fault tells: how many there are, or the byte where it stands.
fn number_of(fault: &ProgramFault) -> u64 {
    match fault {
        ProgramFault::Text { place } => u64::from(*place),
        ProgramFault::Large { number, .. } => *number,
        ProgramFault::Lex(fault) => u64::from(fault.place),
        ProgramFault::Syntax(_) | ProgramFault::Name(_) => 0,
        ProgramFault::Mistyped { place, .. } => u64::from(*place),
    }
}
