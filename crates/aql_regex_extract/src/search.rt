ghost use Rattle.std.specs.Prelude.{◌≡◌, ◌∷◌, [], ◌++◌, ◌+◌, IsTrue, true, ℕ, List, length, map, IfOk, OnOk, All};
ghost use Rattle.std.specs.List.{flat_map};
ghost use Rattle.regex.specs.Patterns.{find_str, find_all_str};
ghost use Rattle.regex.specs.Search.{next_match};
ghost use Rattle.regex.specs.Strings.{matcher_pattern};
ghost use Rattle.span_token.specs.Extents.{Extent, extent_of};
ghost use Rattle.span_token.specs.Relations.{ContainsExtent};
ghost use Rattle.aql_regex_extract.specs.Matches.{row_of, matches_of, has_match, PutsRows, extents_of, IsInside};
ghost use Rattle.aql_regex_extract.specs.Searches.{IsTextOf};
ghost use Rattle.aql_regex_extract.specs.Steps.{Pushes};
ghost use Rattle.aql_regex_extract.specs.Views.{Finds};

use crate::rows::push_groups;
use crate::sought::Sought;
use regex::Matcher;
use span_token::{OutOfMemory, Span};

/// The end of the match that the text has from `start` on. Where it is `least` or later, its row is
/// put after the others.
pub(crate) fn push_from(
    matcher: &mut Matcher<'_>,
    sought: &Sought<'_, '_>,
    text: &str,
    start: usize,
    least: usize,
    into: &mut Vec<Option<Span>>,
) -> Result<Option<usize>, OutOfMemory>
    requires text { IsTextOf sought.now text.now }
    ensures found { IfOk result (Pushes least sought.now.doc.now (extent_of sought.now.source) sought.now.groups.now
        (find_str (matcher_pattern matcher.old) text.now start)
        (extents_of into.old.items) (extents_of into.new.items)) }
    ensures within { (wide : Extent) → ContainsExtent wide (extent_of sought.now.source)
        → All (IsInside wide) into.old.items → OnOk result (All (IsInside wide) into.new.items) }
    ensures same { matcher_pattern matcher.new ≡ matcher_pattern matcher.old }
{
    if asks_whole_matches(sought.groups) {
        return push_span_from(matcher, sought, text, start, least, into);
    }
    push_groups_from(matcher, sought, text, start, least, into)
}

/// Whether the spans of the whole matches are asked for, and nothing else.
fn asks_whole_matches(groups: &[u32]) -> bool
    ensures { IsTrue result → groups.now ≡ 0 ∷ [] }
{
    groups == [0].as_slice()
}

/// The end of the match that the text has from `start` on. Where it is `least` or later, the span of
/// the match is put after the others.
fn push_span_from(
    matcher: &mut Matcher<'_>,
    sought: &Sought<'_, '_>,
    text: &str,
    start: usize,
    least: usize,
    into: &mut Vec<Option<Span>>,
) -> Result<Option<usize>, OutOfMemory>
    requires text { IsTextOf sought.now text.now }
    requires whole { sought.now.groups.now ≡ 0 ∷ [] }
    ensures found { IfOk result (Pushes least sought.now.doc.now (extent_of sought.now.source) sought.now.groups.now
        (find_str (matcher_pattern matcher.old) text.now start)
        (extents_of into.old.items) (extents_of into.new.items)) }
    ensures within { (wide : Extent) → ContainsExtent wide (extent_of sought.now.source)
        → All (IsInside wide) into.old.items → OnOk result (All (IsInside wide) into.new.items) }
    ensures same { matcher_pattern matcher.new ≡ matcher_pattern matcher.old }
{
    let Some(found) = matcher.find_at(text, start) else {
        return Ok(None);
    };
    let end = found.end();
    if least <= end {
        into.push(Some(sought.doc.span_in(sought.source, found.start(), end)))?;
    }
    Ok(Some(end))
}

/// The same by a search that finds the groups.
fn push_groups_from(
    matcher: &mut Matcher<'_>,
    sought: &Sought<'_, '_>,
    text: &str,
    start: usize,
    least: usize,
    into: &mut Vec<Option<Span>>,
) -> Result<Option<usize>, OutOfMemory>
    requires text { IsTextOf sought.now text.now }
    ensures found { IfOk result (Pushes least sought.now.doc.now (extent_of sought.now.source) sought.now.groups.now
        (find_str (matcher_pattern matcher.old) text.now start)
        (extents_of into.old.items) (extents_of into.new.items)) }
    ensures within { (wide : Extent) → ContainsExtent wide (extent_of sought.now.source)
        → All (IsInside wide) into.old.items → OnOk result (All (IsInside wide) into.new.items) }
    ensures same { matcher_pattern matcher.new ≡ matcher_pattern matcher.old }
{
    let Some(captures) = matcher.captures_at(text, start) else {
        return Ok(None);
    };
    let end = captures.get_match().end();
    if least <= end {
        push_groups(&captures, sought, into)?;
    }
    Ok(Some(end))
}

/// The same of the next match, where `after` is one more than the end of the last one, or 0 before
/// the first.
pub(crate) fn push_next(
    matcher: &mut Matcher<'_>,
    sought: &Sought<'_, '_>,
    text: &str,
    after: usize,
    into: &mut Vec<Option<Span>>,
) -> Result<Option<usize>, OutOfMemory>
    requires text { IsTextOf sought.now text.now }
    ensures found { IfOk result (Pushes 0 sought.now.doc.now (extent_of sought.now.source) sought.now.groups.now
        (next_match true (matcher_pattern matcher.old) text.now after)
        (extents_of into.old.items) (extents_of into.new.items)) }
    ensures within { All (IsInside (extent_of sought.now.source)) into.old.items
        → OnOk result (All (IsInside (extent_of sought.now.source)) into.new.items) }
    ensures same { matcher_pattern matcher.new ≡ matcher_pattern matcher.old }
{
    let start = after.saturating_sub(1);
    let Some(end) = push_from(matcher, sought, text, start, after, into)? else {
        return Ok(None);
    };
    if end < after {
        return push_from(matcher, sought, text, after, 0, into);
    }
    Ok(Some(end))
}

/// The same for any pattern whose tree the matcher has.
pub(crate) fn push_found(
    matcher: &mut Matcher<'_>,
    sought: &Sought<'_, '_>,
    text: &str,
    into: &mut Vec<Option<Span>>,
) -> Result<usize, OutOfMemory>
    requires text { IsTextOf sought.now text.now }
    ensures matches { (pattern : List ℕ) → Finds (matcher_pattern matcher.old) pattern
        → OnOk result (extents_of into.new.items ≡ extents_of into.old.items
        ++ flat_map (row_of sought.now.doc.now (extent_of sought.now.source) sought.now.groups.now) (matches_of pattern text.now)) }
    ensures rows { (pattern : List ℕ) → Finds (matcher_pattern matcher.old) pattern
        → IfOk result (PutsRows (map (row_of sought.now.doc.now (extent_of sought.now.source) sought.now.groups.now) (matches_of pattern text.now))
        (extents_of into.old.items) (extents_of into.new.items)) }
    ensures within { All (IsInside (extent_of sought.now.source)) into.old.items
        → OnOk result (All (IsInside (extent_of sought.now.source)) into.new.items) }
    ensures same { matcher_pattern matcher.new ≡ matcher_pattern matcher.old }
{
    let number = push_all(matcher, sought, text, into)?;
    Ok(number)
}

/// The rows of all successive matches, put after the others; gives their number.
fn push_all(
    matcher: &mut Matcher<'_>,
    sought: &Sought<'_, '_>,
    text: &str,
    into: &mut Vec<Option<Span>>,
) -> Result<usize, OutOfMemory>
    requires text { IsTextOf sought.now text.now }
    ensures matches { OnOk result (extents_of into.new.items ≡ extents_of into.old.items
        ++ flat_map (row_of sought.now.doc.now (extent_of sought.now.source) sought.now.groups.now)
        (find_all_str (matcher_pattern matcher.old) text.now)) }
    ensures number { IfOk result (λ n. n ≡ length (find_all_str (matcher_pattern matcher.old) text.now)) }
    ensures within { All (IsInside (extent_of sought.now.source)) into.old.items
        → OnOk result (All (IsInside (extent_of sought.now.source)) into.new.items) }
    ensures same { matcher_pattern matcher.new ≡ matcher_pattern matcher.old }
{
    let mut number = 0;
    let mut after = 0;
    'matches: while let Some(end) = push_next(matcher, sought, text, after, into)? {
        let more = one_more(number)?;
        if end >= text.len() {
            return Ok(more);
        }
        number = more;
        after = end + 1;
    }
    Ok(number)
}

/// The number after this one; past the greatest is want of memory.
fn one_more(number: usize) -> Result<usize, OutOfMemory>
    ensures { IfOk result (λ n. n ≡ number + 1) }
{
    match number.checked_add(1) {
        Some(more) => Ok(more),
        None => Err(OutOfMemory),
    }
}

/// Whether a pattern whose tree the matcher has matches somewhere in the text.
pub(crate) fn has_found(matcher: &mut Matcher<'_>, text: &str) -> bool
    ensures found { (pattern : List ℕ) → Finds (matcher_pattern matcher.old) pattern
        → result ≡ has_match pattern text.now }
    ensures same { matcher_pattern matcher.new ≡ matcher_pattern matcher.old }
{
    matcher.is_match(text)
}
