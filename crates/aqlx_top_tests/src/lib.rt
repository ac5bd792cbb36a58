//! Tests of the top call, over files, sources and sinks in memory.
//!
//! It has no functions of its own: its tests call public items of `aqlx_top`, `aql_io` and `run_pool` alone. The
//! other crates that it stands on have the types of a pool's method.
#![tactic(auto)]

#[cfg(test)]
mod devices;
#[cfg(test)]
mod documents;
#[cfg(test)]
mod language;
#[cfg(test)]
mod meeting;
#[cfg(test)]
mod modes;
#[cfg(test)]
mod pools;
#[cfg(test)]
mod programs;
#[cfg(test)]
mod setup;
#[cfg(test)]
mod streaming;
#[cfg(test)]
mod workers;
