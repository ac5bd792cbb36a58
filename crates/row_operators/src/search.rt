ghost use Rattle.std.specs.Prelude.{◌≡◌, ◌≤◌, ◌∷◌, [], ◌++◌, OnOk, IfOk, IfSome, map, All, option_map};
ghost use Rattle.span_token.specs.Documents.{LiesIn};
ghost use Rattle.span_token.specs.Extents.{extent_of};
ghost use Rattle.row_values.specs.Datums.{IsOfDocument};
ghost use Rattle.row_values.specs.Rows.{span_in};
ghost use Rattle.aql_regex_extract.specs.Matches.{PutsRows, extents_of, match_rows};
ghost use Rattle.aql_regex_extract.specs.TokenRuns.{run_rows};
ghost use Rattle.dict_match.specs.DictMatches.{dict_matches};
ghost use Rattle.scalar_ops.specs.Extractions.{of_some, of_pattern, of_dict};
ghost use Rattle.aql_typed.specs.Fitting.{found_width};
ghost use Rattle.aql_typed.specs.Meaning.{found_in};
ghost use Rattle.row_operators.specs.Searches.{extraction_for, HasRuns, IsFoundIn};

use aql_regex_extract::{Sought, SoughtRuns};
use row_values::Row;
use scalar_ops::Tools;
use span_token::{Document, OutOfMemory, Span};
use std::alloc::Global;

/// What is looked for in a column of a row: patterns and dictionaries by their numbers in the tables, and
/// numbers of capture groups, of which 0 is the whole match.
///
/// Meaning: `extraction_for`, `specs/Searches.antt`.
#[derive(Clone, Copy, Debug)]
pub enum Search<'g> {
    /// The successive matches of a pattern.
    Regex {
        column: u32,
        pattern: u32,
        groups: &'g [u32],
    },
    /// The longest runs of `low` to `high` tokens that a pattern matches whole.
    TokenRegex {
        column: u32,
        low: u32,
        high: u32,
        pattern: u32,
        groups: &'g [u32],
    },
    /// The matches of a dictionary.
    Dict {
        column: u32,
        dict: u32,
    },
}

impl Search<'_> {
    /// The number of spans of a match.
    pub fn width(self) -> usize
        ensures { result ≡ found_width (extraction_for self.entry) }
    {
        match self {
            Search::Regex { groups, .. } => groups.len(),
            Search::TokenRegex { groups, .. } => groups.len(),
            Search::Dict { .. } => 1,
        }
    }
}

/// The span in a column of a row of the document.
pub fn source_in<'d>(doc: &Document<'d>, row: &Row<'d>, column: u32) -> Option<Span>
    requires in_document { All (IsOfDocument doc.now) row.now }
    ensures source { option_map extent_of result ≡ span_in column row.now }
    ensures lies { IfSome result (λ s. LiesIn (extent_of s) doc.now) }
{
    span_in(row, column)
}

/// Searches a row, in place of what `found` held: for each match one entry for each group, None for one
/// that takes no part. Gives the number of matches.
pub(crate) fn find<'d>(
    alloc: Global,
    tools: &mut Tools<'_>,
    doc: &Document<'d>,
    row: &Row<'d>,
    search: Search<'_>,
    found: &mut Vec<Option<Span>>,
) -> Result<usize, OutOfMemory>
    requires in_document { All (IsOfDocument doc.now) row.now }
    requires runs { HasRuns (extraction_for search) }
    ensures rows { IfOk result (PutsRows (found_in tools.old doc.now (extraction_for search.entry) row.now) [] (extents_of found.new.items)) }
    ensures lies { OnOk result (All (IsFoundIn doc.now) found.new.items) }
    ensures same { tools.new ≡ tools.old }
{
    found.clear();
    match search {
        Search::Regex {
            column,
            pattern,
            groups,
        } => {
            let source = source_in(doc, row, column);
            find_matches(tools, doc, source, pattern, groups, found)
        }
        Search::TokenRegex {
            column,
            low,
            high,
            pattern,
            groups,
        } => {
            let source = source_in(doc, row, column);
            let runs = Runs {
                pattern,
                low,
                high,
                groups,
            };
            find_runs(tools, doc, source, &runs, found)
        }
        Search::Dict { column, dict } => {
            let source = source_in(doc, row, column);
            find_entries(alloc, tools, doc, source, dict, found)
        }
    }
}

/// The span in a column of a row, None where it has no such column.
fn span_in(row: &Row<'_>, column: u32) -> Option<Span>
    ensures { option_map extent_of result ≡ span_in column row.now }
{
    if column < row.len() {
        row.get(column).as_span()
    } else {
        None
    }
}

/// The matches of a pattern in a span.
fn find_matches(
    tools: &mut Tools<'_>,
    doc: &Document<'_>,
    source: Option<Span>,
    pattern: u32,
    groups: &[u32],
    found: &mut Vec<Option<Span>>,
) -> Result<usize, OutOfMemory>
    requires in_document { IfSome source (λ s. LiesIn (extent_of s) doc.now) }
    requires none_yet { found.old.items ≡ [] }
    ensures rows { IfOk result (PutsRows (of_some (λ s. of_pattern tools.old pattern (λ p. match_rows p doc.now s groups.now)) (option_map extent_of source))
        [] (extents_of found.new.items)) }
    ensures lies { OnOk result (All (IsFoundIn doc.now) found.new.items) }
    ensures same { tools.new ≡ tools.old }
{
    match source {
        Some(source) => {
            let sought = Sought {
                doc,
                source,
                groups,
            };
            let number = tools.append_matches(pattern, &sought, found)?;
            Ok(number)
        }
        None => Ok(0),
    }
}

/// A pattern that matches runs of `low` to `high` tokens whole, and the groups that are asked for.
#[derive(Drop)]
struct Runs<'g> {
    pattern: u32,
    low: u32,
    high: u32,
    groups: &'g [u32],
}

/// The runs of tokens of a span that a pattern matches.
fn find_runs(
    tools: &mut Tools<'_>,
    doc: &Document<'_>,
    source: Option<Span>,
    runs: &Runs<'_>,
    found: &mut Vec<Option<Span>>,
) -> Result<usize, OutOfMemory>
    requires in_document { IfSome source (λ s. LiesIn (extent_of s) doc.now) }
    requires at_least_one { 1 ≤ runs.now.low }
    requires none_yet { found.old.items ≡ [] }
    ensures rows { IfOk result (PutsRows (of_some (λ s. of_pattern tools.old runs.now.pattern (λ p. run_rows p doc.now s runs.now.low runs.now.high runs.now.groups.now)) (option_map extent_of source))
        [] (extents_of found.new.items)) }
    ensures lies { OnOk result (All (IsFoundIn doc.now) found.new.items) }
    ensures same { tools.new ≡ tools.old }
{
    match source {
        Some(source) => {
            let sought = SoughtRuns {
                doc,
                source,
                low: runs.low,
                high: runs.high,
                groups: runs.groups,
            };
            let number = tools.append_token_runs(runs.pattern, &sought, found)?;
            Ok(number)
        }
        None => Ok(0),
    }
}

/// The matches of a dictionary in a span.
fn find_entries(
    alloc: Global,
    tools: &mut Tools<'_>,
    doc: &Document<'_>,
    source: Option<Span>,
    dict: u32,
    found: &mut Vec<Option<Span>>,
) -> Result<usize, OutOfMemory>
    requires in_document { IfSome source (λ s. LiesIn (extent_of s) doc.now) }
    requires none_yet { found.old.items ≡ [] }
    ensures rows { IfOk result (PutsRows (of_some (λ s. map (λ e. Some e ∷ []) (of_dict tools.old dict (λ the. dict_matches the doc.now s))) (option_map extent_of source))
        [] (extents_of found.new.items)) }
    ensures lies { OnOk result (All (IsFoundIn doc.now) found.new.items) }
    ensures same { tools.new ≡ tools.old }
{
    let Some(source) = source else {
        return Ok(0);
    };
    let mut spans = Vec::new(alloc);
    tools.append_dict_matches(dict, doc, source, &mut spans)?;
    push_spans(spans.as_slice(), found)?;
    Ok(spans.len())
}

/// Puts the spans after the others.
fn push_spans(spans: &[Span], found: &mut Vec<Option<Span>>) -> Result<(), OutOfMemory>
    ensures { OnOk result (extents_of found.new.items ≡ extents_of found.old.items ++ map Some (map extent_of spans.now)) }
{
    for span in spans {
        found.push(Some(*span))?;
    }
    Ok(())
}
