//! A queue that threads share, at which none waits for another.
//!
//! A value goes in by one thread and comes out by another, or the same. Contracts say nothing of which ones are in it,
//! since other threads may change that at any moment: what is known of a value that comes out is what its type says.
//! Stands on `crossbeam_queue`.
#![tactic(auto)]

mod queue;

pub use queue::SharedQueue;

#[cfg(test)]
mod tests;
