ghost use Rattle.std.specs.Prelude.{◌≡◌, ◌≤◌, ◌++◌, ℕ, map, IfOk, OnOk, IfSome, All};
ghost use Rattle.span_token.specs.Documents.{LiesIn};
ghost use Rattle.span_token.specs.Extents.{extent_of};
ghost use Rattle.span_token.specs.Relations.{ContainsExtent};
ghost use Rattle.aql_regex_extract.specs.Matches.{match_rows, PutsRows, extents_of, IsInside};
ghost use Rattle.aql_regex_extract.specs.TokenRuns.{run_rows};
ghost use Rattle.dict_match.specs.DictMatches.{dict_matches};
ghost use Rattle.dict_match.specs.Rows.{dict_and_extent, extents_for};
ghost use Rattle.scalar_ops.specs.Extractions.{of_pattern, of_dict};

use crate::Tools;
use aql_regex_extract::{Pattern, Searcher, Sought, SoughtRuns, WholeSearcher};
use dict_match::DictMatch;
use span_token::{Document, OutOfMemory, Span};
use std::alloc::Global;

impl<'t> Tools<'t> {
    /// The successive matches of the pattern with that number in the source, put after what `into` holds:
    /// for each match one entry for each group that is asked for, None for a group that takes no part.
    /// Gives the number of matches. A pattern that isn't there has none.
    ///
    /// After want of memory no clause says what `into` holds.
    pub fn append_matches(
        &mut self,
        pattern: u32,
        sought: &Sought<'_, '_>,
        into: &mut Vec<Option<Span>>,
    ) -> Result<usize, OutOfMemory>
        requires in_document { LiesIn (extent_of sought.now.source) sought.now.doc.now }
        ensures rows { IfOk result (PutsRows
            (of_pattern self.old pattern (λ p. match_rows p sought.now.doc.now (extent_of sought.now.source) sought.now.groups.now))
            (extents_of into.old.items) (extents_of into.new.items)) }
        ensures within { All (IsInside (extent_of sought.now.source)) into.old.items
            → OnOk result (All (IsInside (extent_of sought.now.source)) into.new.items) }
        ensures same { self.new ≡ self.old }
    {
        let index = pattern as usize;
        let tables = self.tables;
        match tables.patterns.get(index) {
            Some(pattern) => {
                let kept = &mut self.plain[index];
                append_found(self.alloc, kept, pattern, sought, into)
            }
            None => Ok(0),
        }
    }

    /// The token-bounded matches of the pattern with that number in the source, put after what `into`
    /// holds: for each token that has a run of the asked lengths one entry for each group that is asked
    /// for. Gives the number of runs. A pattern that isn't there has none.
    ///
    /// After want of memory no clause says what `into` holds.
    pub fn append_token_runs(
        &mut self,
        pattern: u32,
        sought: &SoughtRuns<'_, '_>,
        into: &mut Vec<Option<Span>>,
    ) -> Result<usize, OutOfMemory>
        requires in_document { LiesIn (extent_of sought.now.source) sought.now.doc.now }
        requires at_least_one { 1 ≤ sought.now.low }
        ensures rows { IfOk result (PutsRows
            (of_pattern self.old pattern (λ p. run_rows p sought.now.doc.now (extent_of sought.now.source) sought.now.low sought.now.high sought.now.groups.now))
            (extents_of into.old.items) (extents_of into.new.items)) }
        ensures within { All (IsInside (extent_of sought.now.source)) into.old.items
            → OnOk result (All (IsInside (extent_of sought.now.source)) into.new.items) }
        ensures same { self.new ≡ self.old }
    {
        let index = pattern as usize;
        let tables = self.tables;
        match tables.patterns.get(index) {
            Some(pattern) => {
                let kept = &mut self.whole[index];
                append_runs(self.alloc, kept, pattern, sought, into)
            }
            None => Ok(0),
        }
    }

    /// The matches of the dictionary with that number in `source`, put after what `into` holds, by begin
    /// and then by end. A dictionary that isn't there has none.
    ///
    /// After want of memory no clause says what `into` holds.
    pub fn append_dict_matches(
        &mut self,
        dict: u32,
        doc: &Document<'_>,
        source: Span,
        into: &mut Vec<Span>,
    ) -> Result<(), OutOfMemory>
        requires in_document { LiesIn (extent_of source) doc.now }
        ensures matches { OnOk result (map extent_of into.new.items ≡ map extent_of into.old.items
            ++ of_dict self.old dict (λ the. dict_matches the doc.now (extent_of source))) }
        ensures within { All (λ s. ContainsExtent (extent_of source) (extent_of s)) into.old.items
            → OnOk result (All (λ s. ContainsExtent (extent_of source) (extent_of s)) into.new.items) }
        ensures same { self.new ≡ self.old }
    {
        let tables = self.tables;
        self.found.clear();
        tables
            .pass
            .append_matches(doc, source, &mut self.scratch, &mut self.found)?;
        push_for(self.found.as_slice(), dict as usize, into)
    }

    /// The matches of all dictionaries in `source`, by one walk, in place of what `into` held. Those of one
    /// dictionary stand by begin and then by end, those of several among one another.
    ///
    /// After want of memory no clause says what `into` holds.
    pub fn find_dict_matches(
        &mut self,
        doc: &Document<'_>,
        source: Span,
        into: &mut Vec<DictMatch>,
    ) -> Result<(), OutOfMemory>
        requires in_document { LiesIn (extent_of source) doc.now }
        ensures matches { OnOk result ((dict : ℕ) → extents_for dict (map dict_and_extent into.new.items) ≡ of_dict self.old dict (λ the. dict_matches the doc.now (extent_of source))) }
        ensures within { OnOk result (All (λ m. ContainsExtent (extent_of source) m.1) (map dict_and_extent into.new.items)) }
        ensures same { self.new ≡ self.old }
    {
        let tables = self.tables;
        into.clear();
        tables
            .pass
            .append_matches(doc, source, &mut self.scratch, into)
    }
}

/// Puts the matches of a pattern after what `into` holds, by the searcher that is kept or is made now.
fn append_found<'t>(
    alloc: Global,
    kept: &mut Option<Searcher<'t>>,
    pattern: &'t Pattern,
    sought: &Sought<'_, '_>,
    into: &mut Vec<Option<Span>>,
) -> Result<usize, OutOfMemory>
    requires made { IfSome kept.old (λ searcher. searcher ≡ pattern.now) }
    requires in_document { LiesIn (extent_of sought.now.source) sought.now.doc.now }
    ensures rows { IfOk result (PutsRows (match_rows pattern.now sought.now.doc.now (extent_of sought.now.source) sought.now.groups.now)
        (extents_of into.old.items) (extents_of into.new.items)) }
    ensures within { All (IsInside (extent_of sought.now.source)) into.old.items
        → OnOk result (All (IsInside (extent_of sought.now.source)) into.new.items) }
    ensures made { IfSome kept.new (λ searcher. searcher ≡ pattern.now) }
{
    if kept.is_none() {
        *kept = Some(Searcher::new(alloc, pattern)?);
    }
    match kept {
        Some(searcher) => searcher.append_matches(sought, into),
        None => unreachable!(),
    }
}

/// Puts the token-bounded matches of a pattern after what `into` holds, by the searcher that is kept or is
/// made now.
fn append_runs<'t>(
    alloc: Global,
    kept: &mut Option<WholeSearcher<'t>>,
    pattern: &'t Pattern,
    sought: &SoughtRuns<'_, '_>,
    into: &mut Vec<Option<Span>>,
) -> Result<usize, OutOfMemory>
    requires made { IfSome kept.old (λ searcher. searcher ≡ pattern.now) }
    requires in_document { LiesIn (extent_of sought.now.source) sought.now.doc.now }
    requires at_least_one { 1 ≤ sought.now.low }
    ensures rows { IfOk result (PutsRows
        (run_rows pattern.now sought.now.doc.now (extent_of sought.now.source) sought.now.low sought.now.high sought.now.groups.now)
        (extents_of into.old.items) (extents_of into.new.items)) }
    ensures within { All (IsInside (extent_of sought.now.source)) into.old.items
        → OnOk result (All (IsInside (extent_of sought.now.source)) into.new.items) }
    ensures made { IfSome kept.new (λ searcher. searcher ≡ pattern.now) }
{
    if kept.is_none() {
        *kept = Some(WholeSearcher::new(alloc, pattern)?);
    }
    match kept {
        Some(searcher) => searcher.append_token_runs(sought, into),
        None => unreachable!(),
    }
}

/// Puts the spans of one dictionary's matches after what `into` holds.
fn push_for(found: &[DictMatch], dict: usize, into: &mut Vec<Span>) -> Result<(), OutOfMemory>
    ensures { OnOk result (map extent_of into.new.items ≡ map extent_of into.old.items ++ extents_for dict (map dict_and_extent found.now)) }
{
    for one in found {
        if one.dict == dict {
            into.push(one.span)?;
        }
    }
    Ok(())
}
