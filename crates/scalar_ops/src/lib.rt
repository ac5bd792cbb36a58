//! Expressions over a row and its document: the functions and predicates of the language.
//!
//! `eval` gives exactly the value of an expression by the function table (`value`, `specs/Values.antt`),
//! and `holds` is true exactly where every condition is. `Tables` has the patterns and dictionaries of a
//! program, compiled once and shared; `Tools` is what one worker keeps of its own. Stands on
//! `span_token`, `row_values`, `aql_regex_extract` and `dict_match` for what operators ask.
#![tactic(auto)]

mod apply;
mod comparisons;
mod dicts;
mod evaluation;
mod expr;
mod extraction;
mod kind;
mod op;
mod predicates;
mod reading;
mod spans;
mod tables;
mod text;
mod tools;

pub use evaluation::{eval, holds};
pub use expr::{Expr, Exprs};
pub use kind::Kind;
pub use op::Op;
pub use reading::reads_below;
pub use tables::Tables;
pub use tools::Tools;
