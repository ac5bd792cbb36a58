//! The patterns and dictionaries of a program, each once, before its expressions are typed.
//!
//! `collect` walks a program and compiles each text that stands as a pattern once; it gives exactly the
//! patterns and dictionaries that the program mentions, each once, in the order of their first mention.
//! `ProgramTables` tells the number of each, and of any text whether it is a pattern, and becomes the
//! tables in which typed expressions count. Stands on `aql_syntax` and `view_graph` for a program whose
//! names are known, on `aql_regex_extract` for patterns and on `scalar_ops` for the tables.
#![tactic(auto)]

mod dicts;
mod entries;
mod mention;
mod patterns;
mod tables;
mod walk;

pub use dicts::is_dictionary;
pub use tables::{ProgramTables, collect};
