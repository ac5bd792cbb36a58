//! Tests of `plan_program`, the way from a program's text to its plan.
//!
//! It has no functions of its own: its tests call public items of `aqlx_top` and `plan_maker` alone. They stand
//! apart from those of `aqlx_top_tests`, since each of the two proofs is long.
#![tactic(auto)]

#[cfg(test)]
mod faults;
#[cfg(test)]
mod plans;
