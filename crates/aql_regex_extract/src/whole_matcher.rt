ghost use Rattle.std.specs.Prelude.{◌≡◌, ℕ, List, true, IsFalse};
ghost use Rattle.aql_regex_extract.specs.Bytes.{AreBytes, Begins};
ghost use Rattle.aql_regex_extract.specs.Matches.{has_match};
ghost use Rattle.aql_regex_extract.specs.Patterns.{whole_form};
ghost use Rattle.aql_regex_extract.specs.Views.{FindsWhole, IsSameWhole};

use crate::admitted::Admitted;
use regex::Matcher;

/// A matcher of a whole-text form, with what is told of a text by its bytes.
#[derive(Drop)]
pub(crate) struct WholeMatcher<'p> {
    pub(crate) matcher: Matcher<'p>,
    pub(crate) admitted: &'p Admitted,
}

impl<'p> WholeMatcher<'p> {
    /// Whether the whole-text form has a match in the text. The engine is asked only where the bytes
    /// don't tell.
    #[inline]
    pub(crate) fn has_match(&mut self, text: &str) -> bool
        ensures found { (pattern : List ℕ) → FindsWhole self.old pattern
            → result ≡ has_match (whole_form pattern) text.now }
        ensures same { IsSameWhole self.old self.new }
    {
        self.admitted.admits(text) && self.matcher.is_match(text)
    }

    /// Whether the whole-text form may have a match in a text that begins as this one.
    #[inline]
    pub(crate) fn may_begin(&self, text: &str) -> bool
        ensures bytes { AreBytes text.now }
        ensures lost { IsFalse result → Begins self.now.admitted.now.firsts true text.now → ⊥ }
    {
        self.admitted.may_begin(text)
    }
}
