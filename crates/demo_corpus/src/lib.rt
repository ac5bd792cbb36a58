//! The demonstration: a program, a corpus of any size made from a number, and the summary of a run.
//!
//! `DEMO` is the program; `gen_document` gives the document of a number and `write_corpus` writes the
//! first ones as lines of a corpus; `Totals` counts the rows of each output, document by document, and
//! gives the summary. Their contracts give the crates above the exact documents, lines that
//! `corpus_json` reads as those documents again, and the sums of the numbers of rows, equal rows counted
//! each time. Stands on `aql_io` for sinks, on `corpus_json` for documents and their lines, on
//! `row_values` for outputs and rows, and on `json`.
#![tactic(auto)]

mod corpus;
mod demo;
mod generator;
mod line;
mod put;
mod sentences;
mod summary;
mod totals;

pub use corpus::write_corpus;
pub use demo::DEMO;
pub use generator::gen_document;
pub use line::append_line;
pub use totals::Totals;
