//! Dictionaries: the runs of tokens that agree with an entry, for many dictionaries in one walk.
//!
//! A `DictPass` is built once from several dictionaries and shared. For each of them it gives exactly
//! the spans of the runs of tokens, wholly in a source, that agree token by token with some entry, each
//! span once and in span order (`matches`, `append_matches`), and it tells whether there is one
//! (`has_match`) and whether all tokens of a source are an entry's (`matches_whole`). Each token of the
//! source is folded and looked up once for all dictionaries, and runs of several tokens are followed in
//! one tree of all their entries. Stands on `caseless` for case foldings and on `span_token` for
//! documents and tokens.
#![tactic(auto)]

mod ahead;
mod dict_use;
mod fold;
mod marks;
mod numbers;
mod pass;
mod probe;
mod trie;
mod walk;

pub use dict_use::DictUse;
pub use pass::{DictPass, DictScratch};
pub use walk::DictMatch;
