//! The types of what a query does with a row of its sources: expressions, items and clauses.
//!
//! `rows_over` gives the clauses of a selection and `found_over` those of an extraction, or the first fault: a
//! part has the list of all its faults in the order of checking (`specs/Faults.antt`), the first of which is
//! told, and what stands for it where there is none. Stands on `aql_tables` for patterns and dictionaries and
//! on `aql_typed` for columns and clauses.
#![tactic(auto)]

mod call;
mod clause;
mod columns;
mod copying;
mod expression;
mod extraction;
mod fault;
mod function;
mod given;
mod item;
mod key;
mod known;
mod label;
mod looked;
mod refusals;
mod scope;
mod selection;
mod wanted;

pub use extraction::{CheckedFound, found_over};
pub use fault::{Breach, TypeRule};
pub use known::Known;
pub use label::{Label, refuse_aliases};
pub use refusals::refusal;
pub use scope::Visible;
pub use selection::{CheckedRows, rows_over};
