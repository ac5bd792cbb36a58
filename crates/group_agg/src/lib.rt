//! Groups and limits: one row for each set of rows with equal keys, and the first rows by some columns.
//!
//! `group` gives exactly one row for each set of rows with equal values in the key columns, with the
//! count, the exact sum, the least or the greatest value asked for; `order_limit` keeps exactly the first
//! rows by the key columns and then by row order. Both answer with a bag. Stands on `row_values` for rows
//! and their order and on `aql_base` for bags.
#![tactic(auto)]

mod agg;
mod first_rows;
mod groups;
mod tallies;
mod tally;

pub use agg::Agg;
pub use first_rows::{limited, order_limit};
pub use groups::group;
