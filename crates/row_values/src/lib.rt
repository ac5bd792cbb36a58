//! Values, rows and lists of rows, and the order of rows.
//!
//! A `Value` is Null, an integer, a truth value, borrowed text or a span; a `Row` is a list of values,
//! and `Rows` a list of rows of one width. Contracts see a value as a `Datum`, so that two equal texts
//! are one value wherever they lie. `compare_rows` is the row order, which is total, and `sort_rows`
//! gives the one list of a bag in that order. Stands on `aql_base` for bags and on `span_token` for
//! spans and the refusal types.
#![tactic(auto)]

mod order;
mod output;
mod row;
mod rows;
mod value;

pub use order::{compare_rows, compare_values, is_in_order, same_value, sort_rows};
pub use output::{Output, has_distinct_names};
pub use row::Row;
pub use rows::Rows;
pub use value::Value;
