//! Tests of `share_plan`, apart from it, so that it is proved once: they call its public items alone.
//!
//! Stands on `aql_lexer`, `aql_parser`, `view_graph`, `aql_types` and `plan_maker` for plans of programs.
#![tactic(auto)]

#[cfg(test)]
mod plans;
#[cfg(test)]
mod programs;
