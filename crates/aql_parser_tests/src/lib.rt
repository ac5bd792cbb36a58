//! Tests of programs: what is lexed, parsed, printed, and what is said of the trees.
//!
//! Stands on `aql_lexer`, `aql_syntax` and `aql_parser`, and calls their public functions alone.
#![tactic(auto)]

#[cfg(test)]
mod naming;
#[cfg(test)]
mod printing;
#[cfg(test)]
mod programs;
#[cfg(test)]
mod reading;
