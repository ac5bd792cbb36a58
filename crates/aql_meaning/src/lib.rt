//! What the views of a typed program mean on a document, by nested loops.
//!
//! `slow` gives exactly the rows of each view's meaning (`meanings`, `aql_typed`), each view evaluated
//! once, by rank; no plan, no rewrite and no join takes part. Stands on `aql_typed` for programs and
//! their meaning, on `scalar_ops` for expressions, and on `row_operators` for what is done to rows.
#![tactic(auto)]

mod combine;
mod extract;
mod keep;
mod meanings;
mod nest;
mod project;
mod query;
mod select;
mod sources;

pub use meanings::{rows_for, slow};
pub use query::slow_query;
