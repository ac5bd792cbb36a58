ghost use Rattle.std.specs.Prelude.{◌≡◌, ◌++◌, ◌+◌, ◌≤◌, ◌<◌, ℕ, List, length, cond, IfOk, OnOk, All};
ghost use Rattle.std.specs.List.{filter_map, flat_map, range_with_len};
ghost use Rattle.span_token.specs.Documents.{text_in};
ghost use Rattle.span_token.specs.Extents.{Extent};
ghost use Rattle.span_token.specs.Relations.{ContainsExtent};
ghost use Rattle.span_token.specs.SourceTokens.{HoldsTokens, run_extent};
ghost use Rattle.aql_regex_extract.specs.Matches.{extents_of, IsInside};
ghost use Rattle.aql_regex_extract.specs.Steps.{PutsRow};
ghost use Rattle.aql_regex_extract.specs.TokenRuns.{whole_row, run_row};
ghost use Rattle.aql_regex_extract.specs.Views.{FindsWhole, IsSameWhole};

use crate::search::push_from;
use crate::sought::Sought;
use crate::whole_matcher::WholeMatcher;
use span_token::{OutOfMemory, SourceTokens, Span};

/// The tokens of a source, and what is asked of their runs: `low` to `high` tokens, and the groups.
#[derive(Drop)]
pub(crate) struct AskedRuns<'a, 't, 'd> {
    pub(crate) tokens: &'a SourceTokens<'t, 'd>,
    pub(crate) low: u32,
    pub(crate) high: u32,
    pub(crate) groups: &'a [u32],
}

/// Puts the rows of all tokens after the others; gives their number.
pub(crate) fn push_runs(
    whole: &mut WholeMatcher<'_>,
    asked: &AskedRuns<'_, '_, '_>,
    into: &mut Vec<Option<Span>>,
) -> Result<usize, OutOfMemory>
    requires at_least_one { 1 ≤ asked.now.low }
    ensures runs { (pattern : List ℕ) → FindsWhole whole.old pattern
        → OnOk result (extents_of into.new.items ≡ extents_of into.old.items
        ++ flat_map (λ row. row) (filter_map (run_row pattern asked.now.tokens.now.doc asked.now.tokens.now.tokens asked.now.low asked.now.high asked.now.groups.now)
        (range_with_len 0 (length asked.now.tokens.now.tokens)))) }
    ensures number { (pattern : List ℕ) → FindsWhole whole.old pattern
        → IfOk result (λ n. n ≡ length (filter_map (run_row pattern asked.now.tokens.now.doc asked.now.tokens.now.tokens asked.now.low asked.now.high asked.now.groups.now)
        (range_with_len 0 (length asked.now.tokens.now.tokens)))) }
    ensures within { (wide : Extent) → HoldsTokens wide asked.now.tokens.now.tokens
        → All (IsInside wide) into.old.items → OnOk result (All (IsInside wide) into.new.items) }
    ensures same { IsSameWhole whole.old whole.new }
{
    let mut number = 0;
    for first in 0..asked.tokens.len() {
        let put = push_run(whole, asked, first, into)?;
        number = counted(number, put);
    }
    Ok(number)
}

/// One more where there is something to count.
fn counted(number: usize, is_more: bool) -> usize
    requires { number < usize.MAX }
    ensures number { result ≡ number + cond is_more 1 0 }
    ensures most { result ≤ number + 1 }
{
    if is_more { number + 1 } else { number }
}

/// Puts the row of the longest run from one token on after the others, if there is one.
///
/// All runs from a token begin with the same byte, so whether a match may begin there is asked once, of the longest.
fn push_run(
    whole: &mut WholeMatcher<'_>,
    asked: &AskedRuns<'_, '_, '_>,
    first: usize,
    into: &mut Vec<Option<Span>>,
) -> Result<bool, OutOfMemory>
    requires there { first < length asked.now.tokens.now.tokens }
    requires at_least_one { 1 ≤ asked.now.low }
    ensures run { (pattern : List ℕ) → FindsWhole whole.old pattern
        → IfOk result (PutsRow (run_row pattern asked.now.tokens.now.doc asked.now.tokens.now.tokens asked.now.low asked.now.high asked.now.groups.now first)
        (extents_of into.old.items) (extents_of into.new.items)) }
    ensures within { (wide : Extent) → HoldsTokens wide asked.now.tokens.now.tokens
        → All (IsInside wide) into.old.items → OnOk result (All (IsInside wide) into.new.items) }
    ensures same { IsSameWhole whole.old whole.new }
{
    let least = asked.low as usize;
    let mut count = (asked.high as usize).min(asked.tokens.len() - first);
    if count < least {
        return Ok(false);
    }
    let longest = asked.tokens.run_text(first, first + (count - 1));
    if !whole.may_begin(longest) {
        return Ok(false);
    }
    'lengths: while count >= least {
        let last = first + (count - 1);
        let text = asked.tokens.run_text(first, last);
        if push_row(whole, asked, first, last, text, into)? {
            return Ok(true);
        }
        count -= 1;
    }
    Ok(false)
}

/// Puts the row of the first match in the text of a run after the others, if there is one. The run's
/// span is made only then.
fn push_row(
    whole: &mut WholeMatcher<'_>,
    asked: &AskedRuns<'_, '_, '_>,
    first: usize,
    last: usize,
    text: &str,
    into: &mut Vec<Option<Span>>,
) -> Result<bool, OutOfMemory>
    requires in_order { first ≤ last }
    requires there { last < length asked.now.tokens.now.tokens }
    requires in_run { text.now ≡ text_in asked.now.tokens.now.doc (run_extent asked.now.tokens.now.tokens first last) }
    ensures row { (pattern : List ℕ) → FindsWhole whole.old pattern
        → IfOk result (PutsRow (whole_row pattern asked.now.tokens.now.doc asked.now.groups.now (run_extent asked.now.tokens.now.tokens first last))
        (extents_of into.old.items) (extents_of into.new.items)) }
    ensures within { (wide : Extent) → ContainsExtent wide (run_extent asked.now.tokens.now.tokens first last)
        → All (IsInside wide) into.old.items → OnOk result (All (IsInside wide) into.new.items) }
    ensures same { IsSameWhole whole.old whole.new }
{
    if !whole.has_match(text) {
        return Ok(false);
    }
    let doc = asked.tokens.doc();
    let source = asked.tokens.run(first, last);
    let sought = Sought {
        doc,
        source,
        groups: asked.groups,
    };
    match push_from(&mut whole.matcher, &sought, text, 0, 0, into)? {
        Some(_) => Ok(true),
        None => Ok(false),
    }
}
