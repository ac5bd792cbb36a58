ghost use Rattle.std.specs.Prelude.{◌≡◌, ◌≤◌, List, Option, IfOk, OnOk, All};
ghost use Rattle.span_token.specs.Documents.{LiesIn};
ghost use Rattle.span_token.specs.Extents.{Extent, extent_of};
ghost use Rattle.aql_regex_extract.specs.Matches.{has_match, PutsRows, extents_of, IsInside};
ghost use Rattle.aql_regex_extract.specs.Patterns.{whole_form};
ghost use Rattle.aql_regex_extract.specs.TokenRuns.{AreRunRows, run_rows};

use crate::pattern::Pattern;
use crate::runs::{AskedRuns, push_runs};
use crate::sought::SoughtRuns;
use crate::whole_matcher::WholeMatcher;
use span_token::{OutOfMemory, SourceTokens, Span};
use std::alloc::Global;
use std::marker::Model;

/// What searches for the whole-text form of one pattern, made once and kept while documents go by.
/// Contracts see it as the pattern's text. A thread may be handed it.
#[derive(Drop)]
pub struct WholeSearcher<'p> {
    pattern: &'p Pattern,
    whole: WholeMatcher<'p>,
}

impl<'p> Model for WholeSearcher<'p> {
    ghost use Rattle.std.specs.Prelude.{ℕ, List};
    ghost use Rattle.aql_regex_extract.specs.Views.{FindsWhole};

    ghost Value = { List ℕ };

    ghost view = { λ s. s.pattern.now };

    ghost invariant = { λ s. FindsWhole s.whole s.pattern.now };
}

impl<'p> WholeSearcher<'p> {
    /// A searcher for the whole-text form of `pattern`.
    pub fn new(alloc: Global, pattern: &'p Pattern) -> Result<WholeSearcher<'p>, OutOfMemory>
        ensures { IfOk result (λ s. s ≡ pattern.now) }
    {
        let matcher = pattern.whole.matcher(alloc)?;
        let admitted = &pattern.admitted;
        Ok(WholeSearcher {
            pattern,
            whole: WholeMatcher { matcher, admitted },
        })
    }

    /// The token-bounded matches in the source, put after what `into` holds: for each token wholly in
    /// the source that has a run, in order, one entry for each group that is asked for, as
    /// `find_token_runs` gives them. Gives the number of runs.
    ///
    /// After want of memory no clause says what `into` holds.
    ///
    /// Meaning: `AreRunRows`, `specs/TokenRuns.antt`; just one list of rows has it, `run_rows`.
    pub fn append_token_runs(
        &mut self,
        sought: &SoughtRuns<'_, '_>,
        into: &mut Vec<Option<Span>>,
    ) -> Result<usize, OutOfMemory>
        requires in_document { LiesIn (extent_of sought.now.source) sought.now.doc.now }
        requires at_least_one { 1 ≤ sought.now.low }
        ensures runs { IfOk result (PutsRows (run_rows self.old sought.now.doc.now (extent_of sought.now.source) sought.now.low sought.now.high sought.now.groups.now)
            (extents_of into.old.items) (extents_of into.new.items)) }
        ensures longest { IfOk result (λ number. (rows : List (List (Option Extent)))
            × AreRunRows self.old sought.now.doc.now (extent_of sought.now.source) sought.now.low sought.now.high sought.now.groups.now rows
            × PutsRows rows (extents_of into.old.items) (extents_of into.new.items) number) }
        ensures unique { (rows : List (List (Option Extent)))
            → AreRunRows self.old sought.now.doc.now (extent_of sought.now.source) sought.now.low sought.now.high sought.now.groups.now rows
            → IfOk result (PutsRows rows (extents_of into.old.items) (extents_of into.new.items)) }
        ensures within { All (IsInside (extent_of sought.now.source)) into.old.items
            → OnOk result (All (IsInside (extent_of sought.now.source)) into.new.items) }
        ensures same { self.new ≡ self.old }
    {
        let tokens = SourceTokens::of(sought.doc, sought.source);
        let asked = AskedRuns {
            tokens: &tokens,
            low: sought.low,
            high: sought.high,
            groups: sought.groups,
        };
        let number = push_runs(&mut self.whole, &asked, into)?;
        Ok(number)
    }

    /// Whether the pattern matches `text` from end to end: whether its whole-text form has a match.
    pub fn matches_whole(&mut self, text: &str) -> bool
        ensures found { result ≡ has_match (whole_form self.old) text.now }
        ensures same { self.new ≡ self.old }
    {
        self.whole.has_match(text)
    }
}
