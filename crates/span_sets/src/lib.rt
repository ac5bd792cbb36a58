//! Consolidation and blocks: which rows stay, told by the spans in one column, and runs of spans.
//!
//! `consolidate` keeps exactly the rows that the policy's rule keeps, and `blocks` gives exactly the
//! runs of neighbours within the bounds. Stands on `row_values` for rows and their order and on
//! `span_token` for spans and tokens.
#![tactic(auto)]

mod block_runs;
mod candidate;
mod consolidation;
mod containment;
mod left_to_right;
mod lent;
mod numbered;
mod policy;
mod stays;

pub use block_runs::blocks;
pub use consolidation::consolidate;
pub use lent::consolidated;
pub use policy::Policy;
