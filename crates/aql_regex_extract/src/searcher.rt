ghost use Rattle.std.specs.Prelude.{◌≡◌, ◌++◌, IfOk, OnOk, All};
ghost use Rattle.span_token.specs.Documents.{LiesIn};
ghost use Rattle.span_token.specs.Extents.{extent_of};
ghost use Rattle.aql_regex_extract.specs.Matches.{has_match, match_rows, flat_rows, PutsRows, extents_of, IsInside};

use crate::pattern::Pattern;
use crate::search::{has_found, push_found};
use crate::sought::Sought;
use regex::Matcher;
use span_token::{OutOfMemory, Span};
use std::alloc::Global;
use std::marker::Model;

/// What searches for one pattern, made once and kept while documents go by. Contracts see it as the
/// pattern's text. A thread may be handed it.
///
/// It keeps caches that grow with what it searches, up to some tens of megabytes.
#[derive(Drop)]
pub struct Searcher<'p> {
    pattern: &'p Pattern,
    matcher: Matcher<'p>,
}

impl<'p> Model for Searcher<'p> {
    ghost use Rattle.std.specs.Prelude.{ℕ, List};
    ghost use Rattle.regex.specs.Strings.{matcher_pattern};
    ghost use Rattle.aql_regex_extract.specs.Views.{Finds};

    ghost Value = { List ℕ };

    ghost view = { λ s. s.pattern.now };

    ghost invariant = { λ s. Finds (matcher_pattern s.matcher) s.pattern.now };
}

impl<'p> Searcher<'p> {
    /// A searcher for `pattern`.
    pub fn new(alloc: Global, pattern: &'p Pattern) -> Result<Searcher<'p>, OutOfMemory>
        ensures { IfOk result (λ s. s ≡ pattern.now) }
    {
        let matcher = pattern.plain.matcher(alloc)?;
        Ok(Searcher { pattern, matcher })
    }

    /// All successive matches in the text of the source, put after what `into` holds: for each match, in
    /// order, one entry for each group that is asked for, None for a group that takes no part. Gives the
    /// number of matches.
    ///
    /// After want of memory no clause says what `into` holds.
    ///
    /// Meaning: `match_rows`, `specs/Matches.antt`.
    pub fn append_matches(
        &mut self,
        sought: &Sought<'_, '_>,
        into: &mut Vec<Option<Span>>,
    ) -> Result<usize, OutOfMemory>
        requires in_document { LiesIn (extent_of sought.now.source) sought.now.doc.now }
        ensures rows { IfOk result (PutsRows (match_rows self.old sought.now.doc.now (extent_of sought.now.source) sought.now.groups.now)
            (extents_of into.old.items) (extents_of into.new.items)) }
        ensures matches { OnOk result (extents_of into.new.items ≡ extents_of into.old.items
            ++ flat_rows self.old sought.now.doc.now (extent_of sought.now.source) sought.now.groups.now) }
        ensures within { All (IsInside (extent_of sought.now.source)) into.old.items
            → OnOk result (All (IsInside (extent_of sought.now.source)) into.new.items) }
        ensures same { self.new ≡ self.old }
    {
        let text = sought.doc.text_of(sought.source);
        push_found(&mut self.matcher, sought, text, into)
    }

    /// Whether the pattern matches somewhere in `text`.
    pub fn has_match(&mut self, text: &str) -> bool
        ensures found { result ≡ has_match self.old text.now }
        ensures same { self.new ≡ self.old }
    {
        has_found(&mut self.matcher, text)
    }
}
