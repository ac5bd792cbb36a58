//! Tests of `view_graph`, by its public calls alone: apart, so that the crate isn't proved twice.
//!
//! Stands on `aql_lexer` and `aql_parser` for programs from their texts.
#![tactic(auto)]

#[cfg(test)]
mod programs;
#[cfg(test)]
mod tests;
