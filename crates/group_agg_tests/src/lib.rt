//! Tests of `group_agg`, by its public calls alone: apart, so that the crate isn't proved twice.
#![tactic(auto)]

#[cfg(test)]
mod tests;
