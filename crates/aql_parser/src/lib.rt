//! The parser of programs.
//!
//! `parse` answers the trees whose tokens a program's are, with each place that it keeps, or names the first
//! statement that has no tree. `measure` counts statements and nested parentheses first and takes no
//! memory. `parse_statement` answers for the tokens of one statement, whose end `first_run` finds. Stands on
//! `aql_lexer` for tokens, on `aql_syntax` for trees and their grammar, and on `span_token` for owned text and
//! refusals.
//!
//! A tree that waits for what follows it is dropped by a call where that is refused, `drop` or
//! `expect_after`: a drop that `?` puts there would be proved field by field, at each such place.
#![tactic(auto)]

mod clauses;
mod cursor;
mod expressions;
mod extractions;
mod measuring;
mod parsing;
mod queries;
mod statements;

pub use cursor::NoTree;
pub use measuring::{MAX_NESTING, Run, Sizes, first_run, measure};
pub use parsing::{SyntaxFault, parse, parse_statement};
