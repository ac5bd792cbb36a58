//! Names, and the graph of views: which view uses which, and in which order they can be computed.
//!
//! `resolve` refuses a program exactly where its names have a fault or its views use each other in a
//! circle, and names the first fault; else it gives the views by rank, so that each comes after all
//! that it uses. Stands on `aql_syntax` for the tree of a program and on `indexmap` for names.
#![tactic(auto)]

mod cycle;
mod fault;
mod graph;
mod index;
mod names;
mod order;
mod outputs;
mod search;
mod uses;

pub use fault::NameFault;
pub use graph::{Graph, NamedView, resolve};
