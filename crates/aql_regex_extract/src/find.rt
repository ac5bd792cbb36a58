ghost use Rattle.std.specs.Prelude.{◌≡◌, ◌≤◌, List, Option, IfOk, All};
ghost use Rattle.span_token.specs.Documents.{LiesIn};
ghost use Rattle.span_token.specs.Extents.{Extent, extent_of};
ghost use Rattle.aql_regex_extract.specs.Matches.{has_match, match_rows, extents_of_rows, IsInside};
ghost use Rattle.aql_regex_extract.specs.Patterns.{whole_form};
ghost use Rattle.aql_regex_extract.specs.TokenRuns.{run_rows, AreRunRows};

use crate::cut::cut;
use crate::pattern::Pattern;
use crate::searcher::Searcher;
use crate::sought::{Sought, SoughtRuns};
use crate::whole::WholeSearcher;
use span_token::{Document, OutOfMemory, Span};
use std::alloc::Global;

/// All successive matches of `p` in the text of `source`, from the left: for each match one entry for
/// each number in `groups`, in that order, None for a group that takes no part.
///
/// Group 0 is the whole match, and a number past the pattern's groups names one that never takes
/// part. An empty match right where the last match ended is passed over. Anchors and word boundaries
/// see the text of `source` alone. Spans count characters of `doc`.
///
/// Meaning: `match_rows`, `specs/Matches.antt`.
pub fn find_all(
    alloc: Global,
    p: &Pattern,
    doc: &Document<'_>,
    source: Span,
    groups: &[u32],
) -> Result<Vec<Vec<Option<Span>>>, OutOfMemory>
    requires in_document { LiesIn (extent_of source) doc.now }
    ensures matches { IfOk result (λ rows. extents_of_rows rows.items
        ≡ match_rows p.now doc.now (extent_of source) groups.now) }
    ensures within { IfOk result (λ rows. All (λ row. All (IsInside (extent_of source)) row.items) rows.items) }
{
    let mut searcher = Searcher::new(alloc, p)?;
    let mut flat = Vec::new(alloc);
    let sought = Sought {
        doc,
        source,
        groups,
    };
    let number = searcher.append_matches(&sought, &mut flat)?;
    cut(alloc, flat.as_slice(), number, groups.len())
}

/// The token-bounded matches of `p` in `source`, at most one from each token.
///
/// From each token wholly in `source`, takes the longest run of `low` to `high` tokens there in whose
/// text the whole-text form of `p` has a match; a token without such a run gives nothing, and runs may
/// overlap. A run is one entry for each number in `groups`, in that order, as its first match has them,
/// None for a group that takes no part. Spans count characters of `doc`.
///
/// Meaning: `AreRunRows`, `specs/TokenRuns.antt`; just one list of rows has it, `run_rows`.
pub fn find_token_runs(
    alloc: Global,
    p: &Pattern,
    doc: &Document<'_>,
    source: Span,
    low: u32,
    high: u32,
    groups: &[u32],
) -> Result<Vec<Vec<Option<Span>>>, OutOfMemory>
    requires in_document { LiesIn (extent_of source) doc.now }
    requires at_least_one { 1 ≤ low }
    ensures longest { IfOk result (λ rows. AreRunRows p.now doc.now (extent_of source) low high groups.now
        (extents_of_rows rows.items)) }
    ensures unique { IfOk result (λ rows. (others : List (List (Option Extent)))
        → AreRunRows p.now doc.now (extent_of source) low high groups.now others → others ≡ extents_of_rows rows.items) }
    ensures runs { IfOk result (λ rows. extents_of_rows rows.items
        ≡ run_rows p.now doc.now (extent_of source) low high groups.now) }
    ensures within { IfOk result (λ rows. All (λ row. All (IsInside (extent_of source)) row.items) rows.items) }
{
    let mut searcher = WholeSearcher::new(alloc, p)?;
    let mut flat = Vec::new(alloc);
    let sought = SoughtRuns {
        doc,
        source,
        low,
        high,
        groups,
    };
    let number = searcher.append_token_runs(&sought, &mut flat)?;
    cut(alloc, flat.as_slice(), number, groups.len())
}

/// Whether `p` matches somewhere in `text`.
///
/// Meaning: `has_match`, `specs/Matches.antt`.
pub fn has_match(alloc: Global, p: &Pattern, text: &str) -> Result<bool, OutOfMemory>
    ensures { IfOk result (λ found. found ≡ has_match p.now text.now) }
{
    let mut searcher = Searcher::new(alloc, p)?;
    Ok(searcher.has_match(text))
}

/// Whether `p` matches `text` from end to end: whether its whole-text form has a match there.
///
/// Meaning: `whole_form`, `specs/Patterns.antt`, and `has_match`, `specs/Matches.antt`.
pub fn matches_whole(alloc: Global, p: &Pattern, text: &str) -> Result<bool, OutOfMemory>
    ensures { IfOk result (λ found. found ≡ has_match (whole_form p.now) text.now) }
{
    let mut searcher = WholeSearcher::new(alloc, p)?;
    Ok(searcher.matches_whole(text))
}
