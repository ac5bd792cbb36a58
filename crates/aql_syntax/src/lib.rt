//! The tree of a program, the grammar that relates it to tokens, and its printer.
//!
//! `IsStatement` relates a statement to its tokens, with one case for each line of the grammar.
//! Stands on `aql_lexer` for tokens and on `span_token` for owned text.
#![tactic(auto)]

mod making;
mod names;
mod naming;
mod printing;
mod sameness;
mod tree;

pub use names::{is_reserved, same_word};
pub use naming::is_dictionary_predicate;
pub use printing::print;
pub use sameness::same_term;
pub use tree::{
    Ast, Cons, Extract, Flag, Form, FromPart, Ident, Item, Number, Query, Range, Select, Spec,
    Statement,
};
