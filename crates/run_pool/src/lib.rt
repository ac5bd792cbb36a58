//! Pools: what is handed each document of a run with the rows that were found, and says which rows are
//! written.
//!
//! A run hands each document to its pool, and writes what the pool answered. The program's pool, `Workers`,
//! answers the rows that were found. Tests have two others: a `Recorder` keeps a list of what was handed to it,
//! and `Hollow` answers no rows. So contracts of a run that hold for every pool say that it goes round none
//! that keeps a list or answers other rows than were found.
//! Stands on `algebra` for plans, on `corpus_json` for output lines, and on `plan_maker` for the text of a plan.
#![tactic(auto)]

mod answered;
mod handed;
mod hollow;
mod pool;
mod recorder;
mod workers;

pub use answered::Answered;
pub use handed::Handed;
pub use hollow::Hollow;
pub use pool::Pool;
pub use recorder::Recorder;
pub use workers::Workers;
