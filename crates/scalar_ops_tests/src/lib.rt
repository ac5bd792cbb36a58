//! Tests of `scalar_ops`, apart from it, so that it is proved once: they call its public items alone.
#![tactic(auto)]

#[cfg(test)]
mod cases;
#[cfg(test)]
mod tests;
