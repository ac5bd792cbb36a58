//! Tests of `demo_corpus`, apart from it, so that it is proved once: they call its public items alone.
#![tactic(auto)]

#[cfg(test)]
mod corpora;
#[cfg(test)]
mod expected;
#[cfg(test)]
mod summaries;
