//! Joins of rows by the spans in one column of each side.
//!
//! `join_follows`, `join_follows_tok`, `join_overlaps` and `join_contains` give the pairs of a left and a
//! right row on which the predicate of the same name holds, each as one row: the left row followed by
//! the right one. `join_follows_back`, `join_follows_tok_back` and `join_contains_back` take the predicate
//! from the right row to the left one. A sweep goes through the rows of one side by the begins of their
//! spans for each row of the other, and passes over those that are too near or too far; for overlaps both
//! sides are gone through at once. Rows that are in order are gone through where they stand; others are
//! found out, and sorted. Stands on `span_token` for the predicates, on `row_values` for rows and on
//! `aql_base` for bags and for the count of tests.
//!
//! The functions between a join and a test are marked to be inlined: so the sweep is compiled once for each
//! kind of test over rows where they stand.
#![tactic(auto)]

mod joins;
mod meet;
mod rule;
mod side;
mod sweep;
mod way;

pub use joins::{
    join_contains, join_contains_back, join_follows, join_follows_back, join_follows_tok,
    join_follows_tok_back, join_overlaps,
};
