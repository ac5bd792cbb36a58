//! The top call: command words, a program and a corpus in, output lines and a status out.
//!
//! `aqlx` runs a program, checks it or shows its plan, generates a corpus or runs the demonstration on one.
//! A run writes exactly the bytes that the program means on the corpus, in the corpus's order, and each
//! other status is answered only for its named cause; whatever it answers, what it wrote is a prefix
//! of the defined output. `plan_program` gives the plan of a program's text, or the text's first fault.
//! Stands on `aql_io` for files, sources and sinks, on `corpus_json` for lines and documents, on
//! `aql_lexer`, `aql_parser`, `view_graph` and `aql_types` for programs, and on `plan_maker` and
//! `plan_operators` for the plans that are run.
#![tactic(auto)]

mod asks;
mod demonstration;
mod limits;
mod modes;
mod outputs;
mod program;
mod program_file;
mod program_text;
mod put;
mod run;
mod status;
mod status_line;
mod top;
mod type_line;
mod windows;
mod words;
mod workers;

pub use aql_lexer::LexFault;
pub use aql_parser::SyntaxFault;
pub use aql_types::TypeRule;
pub use limits::{PROGRAM_LIMIT, STATEMENT_LIMIT};
pub use program::plan_program;
pub use status::{CorpusFault, ProgramFault, Status, What};
pub use top::aqlx;
pub use view_graph::NameFault;
