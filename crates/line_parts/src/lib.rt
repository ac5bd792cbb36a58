//! What several threads write for lines of a corpus: in parts, which are put one behind the other and written while others are
//! made.
//!
//! A turn begins with a line, and what is written for it and for lines behind it goes behind what is pending, and on to the
//! output. Each part is what is written for lines that stand from one place to another in what is seen of the corpus; that it is,
//! its type keeps, so a thread may take it from another one. Stands on `line_sight` for what is seen, and on `aql_io` for
//! the output.
#![tactic(auto)]

mod desk;
mod pending;
mod send;
mod turn;

pub use desk::{Answered, Desk, First};
pub use pending::{Pending, Texts};
pub use send::{put, put_all};
pub use turn::{Done, Part, Turn};
