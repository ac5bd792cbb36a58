//! Plans that look for what they need alone: joins that don't ask for their right input where their left one
//! has no row, and matches that are looked for near the left rows of the one join that reads them.
//!
//! `restrict` puts a plan together anew, so that each output shows the rows that it showed, as a bag, on every
//! document, every join is conditional, and no live join is left whose right input could be looked for near
//! its left rows (`specs/Restricting.antt`). `turn` puts the side of a product that has the matches of a
//! token-bounded pattern on its right, where the other one hasn't (`specs/Turning.antt`). Stands on `algebra`
//! for plans, for what nodes mean, and for the laws that a restricted join is the join with all matches and
//! that a part of a `Dict` node has those of its dictionary; it looks into no value.
#![tactic(auto)]

mod nearness;
mod readers;
mod rebuilding;
mod renumbering;
mod restricting;
mod turning;

pub use restricting::restrict;
pub use turning::turn;
