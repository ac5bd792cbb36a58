//! The types of a program: its faults, and what it is without one.
//!
//! `check` gives the typed program of a graph, or its first fault: a part has the list of all its faults in
//! the order of checking, the first of which is told, and what stands for it where there is none. Stands on
//! `clause_types` for what a query does with a row of its sources, on `aql_tables` for patterns and
//! dictionaries and on `aql_typed` for typed programs.
#![tactic(auto)]

mod below;
mod checking;
mod fault;
mod outputs;
mod program;
mod query;
mod sides;
mod source;

pub use checking::check;
pub use clause_types::TypeRule;
pub use fault::TypeFault;
