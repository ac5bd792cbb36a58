//! The names that a statement looks up, in the order of the text.

mod mentions;
mod queries;
mod terms;

pub(crate) use mentions::{Mention, Mentions};
pub(crate) use queries::query;
