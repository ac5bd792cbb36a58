//! Lines of a corpus that are looked at where they stand, before they are read, by several threads at once.
//!
//! What is seen are the bytes that were read and not given yet, and behind them what is left of a source that shows it.
//! Each thread has a sight of its own, which goes from line to line from any place on.
#![tactic(auto)]

mod seen;
mod sight;

pub use seen::Seen;
pub use sight::Sight;

#[cfg(test)]
mod tests;
