//! The workers: a plan is evaluated on several documents by threads that share its claims and results.
//!
//! `evaluate` gives, for every number of workers and every schedule, the rows of each output on each
//! document, which are its node's value, and a board that legal events reach, on which exactly the needed
//! items are claimed and published. Nobody waits for a lock, a channel or a condition, and one worker
//! starts no thread. Stands on `run_tables` for what threads share, and on `run_core` for boards.
#![tactic(auto)]

mod crew;
mod evaluation;
mod fill;
mod finished;
mod gate;
mod page;
mod results;
mod run;
mod walk;
mod window;
mod work;

pub use crew::Crew;
pub use evaluation::evaluate;
pub use finished::{Answer, Finished};
pub use gate::{Gate, Open};
