//! Tests of `aql_types`, apart from it, so that it is proved once: they call its public items alone.
//!
//! Stands on `aql_lexer` and `aql_parser` for programs from their texts.
#![tactic(auto)]

#[cfg(test)]
mod calls;
#[cfg(test)]
mod clauses;
#[cfg(test)]
mod kinds;
#[cfg(test)]
mod marks;
#[cfg(test)]
mod names;
#[cfg(test)]
mod order;
#[cfg(test)]
mod programs;
#[cfg(test)]
mod shown;
#[cfg(test)]
mod typed;
