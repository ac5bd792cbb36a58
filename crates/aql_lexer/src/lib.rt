//! The tokens of a program text.
//!
//! `lex` takes a text apart into white space, comments and tokens, and gives the tokens with their
//! places, or the one byte at which nothing of these stands. Its contract says so by a relation between
//! texts and tokens, and that each text has one reading or one such byte, and not both. Which bytes words
//! and names have is told byte by byte, too. Stands on `span_token` for owned texts and refusals, and on std
//! for numbers.
#![tactic(auto)]

mod alphabet;
mod lexer;
mod scan;
#[cfg(test)]
mod tests;
mod text;
mod token;

pub use alphabet::{begins_word, goes_on_word, is_in_name};
pub use lexer::lex;
pub use token::{LexFault, Tok, TokKind};
