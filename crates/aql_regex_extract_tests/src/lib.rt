//! Tests of `aql_regex_extract`, apart from it, so that it is proved once: they call its public items
//! alone.
#![tactic(auto)]

#[cfg(test)]
mod tests;
#[cfg(test)]
mod threads;
