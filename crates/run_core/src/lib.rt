//! The pure machine: boards of what is claimed and published, and the events that change them.
//!
//! A `Board` has for each node of a plan on each document the worker that claimed it and its published
//! rows. `IsLegal` (`specs/Events.antt`) says which events may come, by what is published alone, and
//! `IsSound` (`specs/Promises.antt`) what holds of every board that legal events reach: each published
//! item holds its value. Stands on `algebra` for plans and their values. Starts no thread.
#![tactic(auto)]

mod board;
mod event;
mod spot;

pub use board::{Board, replay};
pub use event::Event;
