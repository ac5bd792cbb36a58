//! Tests of `plan_maker`, apart from it, so that it is proved once: they call its public items alone.
//!
//! Stands on `aql_lexer`, `aql_parser`, `view_graph` and `aql_types` for programs from their texts, and on
//! `demo_corpus` for the demonstration's.
#![tactic(auto)]

#[cfg(test)]
mod plans;
#[cfg(test)]
mod programs;
