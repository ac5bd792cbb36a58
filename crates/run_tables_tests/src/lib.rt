//! Tests of `run_tables`, apart from it, so that it is proved once: they call its public items alone.
#![tactic(auto)]

#[cfg(test)]
mod claims;
#[cfg(test)]
mod computing;
#[cfg(test)]
mod results;
