//! The output lines of a corpus's documents, by several workers.
//!
//! Where many lines are ready, each worker answers pieces of them by itself: it reads a line, evaluates the
//! plan on its document and makes the output line; the caller's thread writes what is done between its own pieces. Where a few large documents are, they make a window: its
//! documents are made, and their lines written, in stretches of neighbours, each in a thread of its own where
//! that pays, and between the two `worker_pool` evaluates the plan on all of them, node by node. What is
//! written is in the corpus's order, and no byte of it depends on the number of workers.
#![tactic(auto)]

mod answer;
mod answers;
mod documents;
mod hands;
mod lead;
mod lines;
mod pieces;
mod ready;
mod stretch;
mod window;

pub use answer::{Room, all_lent, all_shown, answer_line, append_answer, document_of, lent};
pub use hands::Hands;
pub use ready::answer_ready;
pub use window::append_window;
