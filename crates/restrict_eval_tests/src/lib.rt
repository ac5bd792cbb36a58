//! Tests of `restrict_eval`, apart from it, so that it is proved once: they call its public items alone.
//!
//! Stands on `aql_lexer`, `aql_parser`, `view_graph`, `aql_types`, `plan_maker`, `share_plan` and
//! `push_select` for plans of programs from their texts, and for the texts of plans.
#![tactic(auto)]

#[cfg(test)]
mod plans;
#[cfg(test)]
mod programs;
