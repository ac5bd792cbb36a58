//! The operators of plans: what each node gives of the rows of its inputs, and a whole plan on one document.
//!
//! `apply` gives the bag of rows that a node means (`op` of `algebra`) for lists of rows that are given up or
//! lent, and `evaluate` the rows of each output of a plan (`val`), by a `Schedule` that is made once for all
//! documents. Stands on `algebra` for plans, on `row_operators` for what is done to rows, and on `span_joins`
//! for joins.
#![tactic(auto)]

mod board;
mod consolidation;
mod cross;
mod dict;
mod dict_part;
mod extract;
mod filling;
mod input;
mod minus;
mod near;
mod operator;
mod order_limit;
mod passing;
mod readers;
mod restricted;
mod room;
mod schedule;
mod select;
mod span_join;
mod stretches;
mod union;

pub use board::{evaluate, rows_shown};
pub use input::Input;
pub use operator::apply;
pub use room::EvaluationRoom;
pub use schedule::Schedule;
