//! Tests of `plan_operators`, and of `rewritten` of `algebra`, apart from them, so that they are proved once:
//! they call public items alone.
#![tactic(auto)]

#[cfg(test)]
mod asking;
#[cfg(test)]
mod evaluation;
#[cfg(test)]
mod far;
#[cfg(test)]
mod rewrites;
#[cfg(test)]
mod setup;
#[cfg(test)]
mod standing;
