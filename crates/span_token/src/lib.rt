//! Documents, spans and tokens, and the refusal types that all crates share.
//!
//! A `Span` is a half-open range of a document's characters; a `Document` is borrowed text that tells
//! spans from bytes and has its tokens, and functions of spans relate and extend them. Contracts say
//! the exact spans and tokens: the tokens of a text are the one list of its longest runs of word
//! characters and its other characters that aren't white space; a `SourceTokens` has those of a part of
//! a document, each with its text. A call that lacks memory answers `OutOfMemory`, a call with causes of
//! its own a `Failure`; `OwnedText` and `OwnedList` are a `String` and a `Vec` that contracts see as
//! their bytes and their elements alone. Stands on `unicode` for the properties of characters.
#![tactic(auto)]

mod ascii;
mod classes;
mod contexts;
mod decoded;
mod document;
mod leads;
mod limits;
mod offsets;
mod owned;
mod places;
mod points;
mod refusal;
mod relations;
mod scan;
mod source_tokens;
mod span;
mod sweep;
mod tokens;

pub use contexts::{left_context, left_context_tok, right_context, right_context_tok};
pub use document::Document;
pub use limits::TEXT_LIMIT;
pub use owned::{OwnedList, OwnedText};
pub use refusal::{Failure, OutOfMemory};
pub use relations::{between, combine, contains, follows, follows_tok, overlaps, tokens_between};
pub use source_tokens::SourceTokens;
pub use span::Span;
pub use tokens::tokens_of_text;
