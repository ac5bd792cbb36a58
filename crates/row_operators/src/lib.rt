//! What the meaning of views and the operators of plans do to rows, one operation each.
//!
//! A row is searched for a pattern or for entries (`push_found`), rows are selected, consolidated, cut,
//! grouped, put behind others or taken away by them, and expressions give the values of rows; each function
//! gives exactly the rows that the word of the meaning for it names (`specs/Meaning.antt` of `aql_typed`).
//! Stands on `aql_typed` for these words, on `scalar_ops` for expressions and extractions, and on
//! `span_sets` and `group_agg` for consolidation, blocks, groups and limits.
#![tactic(auto)]

mod blocks;
mod document;
mod found;
mod groups;
mod keep;
mod search;
mod sides;
mod values;
mod width;

pub use blocks::blocks_in;
pub use document::document_rows;
pub use found::{push_found, push_found_values};
pub use groups::grouped_in_order;
pub use keep::{consolidated, cut, push_if, selected};
pub use search::{Search, source_in};
pub use sides::{append_rows, does_occur, without};
pub use values::{values_for, values_for_each};
pub use width::columns_of_both;
