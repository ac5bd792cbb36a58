//! Bags, by which all operators answer, and a counter of steps.
//!
//! `same_bag` is true exactly where each value occurs in two lists equally often; `SameBag` of
//! `specs/Bags.antt` is the word of contracts, with the laws that it is kept by beside it. `Steps`
//! counts what its owner ticks, for a bound that a contract can state and that costs nothing when the
//! program runs. Stands on std.
#![tactic(auto)]

mod bag;
mod steps;
#[cfg(test)]
mod tests;

pub use bag::same_bag;
pub use steps::Steps;
