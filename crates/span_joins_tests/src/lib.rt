//! Tests of `span_joins`, by its public items alone: so that the crate itself is proved without them.
#![tactic(auto)]

#[cfg(test)]
mod tests;
