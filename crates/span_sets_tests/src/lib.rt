//! Tests of `span_sets`, by its public calls alone: apart, so that the crate isn't proved twice.
#![tactic(auto)]

#[cfg(test)]
mod tests;
