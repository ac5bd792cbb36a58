//! Tests of `run_core`, apart from it, so that it is proved once: they call its public items alone.
#![tactic(auto)]

#[cfg(test)]
mod tests;
