//! Plans in which conditions stand as low as they can, and joins by spans take the place of products.
//!
//! `push` puts a plan together anew, so that each output shows the rows that it showed, as a bag, on every
//! document: a condition of a selection goes down through projections of plain columns and unions, above a
//! product or a join to the side that it reads alone, and a predicate of a span of each side makes the product
//! a join; of three nodes those are joined first that a predicate connects. Every join of the answer asks for both of its inputs (`specs/Pushed.antt`). Stands on `algebra` for
//! plans, for what a rewrite owes, and for the laws of selections and joins.
#![tactic(auto)]

mod below;
mod conditions;
mod copying;
mod join;
mod joining;
mod projecting;
mod pushing;
mod reading;
mod selection;
mod sides;
mod swapping;
mod turning;
mod unrestricting;

pub use pushing::push;
