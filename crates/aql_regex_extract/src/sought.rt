use span_token::{Document, Span};

/// What is searched for the matches of a pattern: the text of `source` in `doc`, and the numbers of the
/// groups whose spans are asked for, of which 0 is the whole match.
#[derive(Drop)]
pub struct Sought<'a, 'd> {
    pub doc: &'a Document<'d>,
    pub source: Span,
    pub groups: &'a [u32],
}

/// What is searched for token-bounded matches: the tokens wholly in `source`, by runs of `low` to `high`
/// of them, and the numbers of the groups whose spans are asked for.
#[derive(Drop)]
pub struct SoughtRuns<'a, 'd> {
    pub doc: &'a Document<'d>,
    pub source: Span,
    pub low: u32,
    pub high: u32,
    pub groups: &'a [u32],
}
