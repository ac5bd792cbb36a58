//! Claims and results for threads: who may evaluate an item, and what it came to.
//!
//! A `claim` wins an item for one seat at most; a result that was published stays, and two who saw a result
//! of an item saw the same one. The calls of a claim and of a look take no memory and wait for nobody. Stands
//! on `atomic_table` for words that change in single steps, on `once_cell` for cells that are set once, on
//! `algebra` for the value of an item, and on `plan_operators` for what computes it.
#![tactic(auto)]

mod claims;
mod published;
mod results;
mod rule;
mod work;

pub use claims::{ClaimSeat, Claims};
pub use published::Published;
pub use results::{Results, Watch};
pub use rule::{Sizes, View, Win};
pub use work::Work;
