//! Patterns on the text of a span: compiled once, searched by matchers that are kept.
//!
//! `compile_pattern` refuses exactly the texts that are too large or bad; `find_all` gives exactly the
//! successive matches of a pattern in the text of a span, `find_token_runs` exactly the longest run of
//! tokens from each token on, each as the spans of the asked groups, and `has_match` and
//! `matches_whole` say whether there is one; `Searcher` and `WholeSearcher` do the same over kept
//! memory. Every meaning is a function of the pattern's text. Stands on `regex` for the expressions and
//! on `span_token` for documents and spans; on `regex_syntax`, `regex_hir`, `regex_class` and
//! `regex_extract` for the bytes of which a pattern's matches are made.
#![tactic(auto)]

mod admitted;
mod byte_set;
mod cut;
mod find;
mod marks;
mod pattern;
mod rows;
mod runs;
mod search;
mod searcher;
mod sought;
mod weight;
mod whole;
mod whole_matcher;

pub use find::{find_all, find_token_runs, has_match, matches_whole};
pub use pattern::{Pattern, PatternFault, compile_pattern};
pub use searcher::Searcher;
pub use sought::{Sought, SoughtRuns};
pub use whole::WholeSearcher;
