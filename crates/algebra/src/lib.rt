//! Plans: what their nodes are and mean.
//!
//! `Plan` is a list of nodes, each standing on nodes before it, with the tables that they name and the
//! outputs. `op` (`specs/Operators.antt`) says what a node gives of its inputs' rows, `val`
//! (`specs/Values.antt`) what it is worth on a document, and the laws of `specs/` are what lowering and
//! rewrites rest on. Stands on `aql_typed` for the words of the meaning, and on `span_joins` for joins.
#![tactic(auto)]

mod inputs;
mod node;
mod nodes;
mod output;
mod plan;
mod rewrite;
mod shape;

pub use node::{JoinKind, Local, Node, Target};
pub use nodes::Nodes;
pub use output::PlanOut;
pub use plan::Plan;
pub use rewrite::{Rewrite, rewritten};
pub use shape::{Form, Shape};
