//! Tests of `corpus_json`, apart from it, so that it is proved once: they call its public items alone.
#![tactic(auto)]

#[cfg(test)]
mod line_tests;
#[cfg(test)]
mod tests;
