//! Plans in which nothing is done twice: equal nodes become one, and so do the dictionaries of one column.
//!
//! `share` keeps every output of a plan, with its rows on each document as a bag; in its answer no two nodes
//! are equal, and no two `Dict` nodes search one column of one input. `prune` drops the nodes that nobody
//! reads, and puts the others in the order in which they are needed. Stands on `algebra` for what nodes mean
//! and for what a plan keeps, and looks into no value.
#![tactic(auto)]

mod index;
mod kind;
mod ordering;
mod pruning;
mod renumbering;
mod sharing;
mod words;

pub use pruning::prune;
pub use sharing::share;
