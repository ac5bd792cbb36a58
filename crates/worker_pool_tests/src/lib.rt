//! Tests of `worker_pool`, apart from it, so that it is proved once: they call its public items alone.
#![tactic(auto)]

#[cfg(test)]
mod gates;
#[cfg(test)]
mod plans;
#[cfg(test)]
mod programs;
#[cfg(test)]
mod tests;
