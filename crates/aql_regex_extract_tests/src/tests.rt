ghost use Rattle.span_token.specs.Documents.{LiesIn};
ghost use Rattle.span_token.specs.Extents.{extent_of};

use aql_regex_extract::{
    Pattern, PatternFault, Searcher, Sought, SoughtRuns, WholeSearcher, compile_pattern, find_all,
    find_token_runs, has_match, matches_whole,
};
use span_token::{Document, Failure, Span, TEXT_LIMIT};
use std::alloc::Global;
use std::process::Abort;
use std::test::Fail;

/// A place of a span, or None where a group takes no part.
type Place = Option<(u32, u32)>;

fn is_row(row: &[Option<Span>], want: &[Place]) -> bool {
    if row.len() != want.len() {
        return false;
    }
    for (found, place) in row.iter().zip(want) {
        if found.map(|span| (span.begin, span.end)) != *place {
            return false;
        }
    }
    true
}

fn are_rows(rows: &[Vec<Option<Span>>], want: &[&[Place]]) -> bool {
    if rows.len() != want.len() {
        return false;
    }
    for (row, places) in rows.iter().zip(want) {
        if !is_row(row, places) {
            return false;
        }
    }
    true
}

/// Whether these are the values of the rows, one after another.
fn are_put(flat: &[Option<Span>], want: &[&[Place]]) -> bool {
    let mut rest = flat;
    for places in want {
        if rest.len() < places.len() {
            return false;
        }
        let (row, behind) = rest.split_at(places.len());
        if !is_row(row, places) {
            return false;
        }
        rest = behind;
    }
    rest.is_empty()
}

/// Whether these are the rows of all matches in a source.
fn finds_rows(
    alloc: Global,
    pattern: &Pattern,
    doc: &Document<'_>,
    source: Span,
    groups: &[u32],
    want: &[&[Place]],
) -> Result<bool, Fail>
    requires { LiesIn (extent_of source) doc.now }
{
    let rows = find_all(alloc, pattern, doc, source, groups)?;
    Ok(are_rows(&rows, want))
}

/// Whether a searcher puts the same ones.
fn puts_rows(
    alloc: Global,
    searcher: &mut Searcher<'_>,
    doc: &Document<'_>,
    source: Span,
    groups: &[u32],
    want: &[&[Place]],
) -> Result<bool, Fail>
    requires { LiesIn (extent_of source) doc.now }
{
    let mut flat = Vec::new(alloc);
    let sought = Sought {
        doc,
        source,
        groups,
    };
    let number = searcher.append_matches(&sought, &mut flat)?;
    Ok(number == want.len() && are_put(&flat, want))
}

/// Whether both are so in a part of a document, the whole one for None.
fn finds_in(
    alloc: Global,
    pattern: &Pattern,
    doc: &Document<'_>,
    part: Option<(u32, u32)>,
    groups: &[u32],
    want: &[&[Place]],
) -> Result<bool, Fail> {
    let whole = doc.whole();
    let (begin, end) = part.unwrap_or((whole.begin, whole.end));
    if begin > end || end > doc.len() {
        return Ok(false);
    }
    let source = Span { begin, end };
    if !finds_rows(alloc, pattern, doc, source, groups, want)? {
        return Ok(false);
    }
    let mut searcher = Searcher::new(alloc, pattern)?;
    puts_rows(alloc, &mut searcher, doc, source, groups, want)
}

/// Whether these are the rows of all matches in a part of the text, and a kept searcher puts the same ones.
fn finds(
    alloc: Global,
    pattern: &str,
    text: &str,
    part: Option<(u32, u32)>,
    groups: &[u32],
    want: &[&[Place]],
) -> Result<bool, Fail> {
    if text.len() > TEXT_LIMIT {
        return Ok(false);
    }
    let pattern = compile_pattern(alloc, pattern)?;
    let doc = Document::new(alloc, text, None)?;
    finds_in(alloc, &pattern, &doc, part, groups, want)
}

/// Where token runs are looked for, and how many tokens they have at least and at most.
type Runs = ((u32, u32), (u32, u32));

/// Whether these are the rows of the token runs of a part of a document.
fn finds_run_rows(
    alloc: Global,
    pattern: &Pattern,
    doc: &Document<'_>,
    runs: Runs,
    groups: &[u32],
    want: &[&[Place]],
) -> Result<bool, Fail> {
    let ((begin, end), (low, high)) = runs;
    if begin > end || end > doc.len() || low == 0 {
        return Ok(false);
    }
    let rows = find_token_runs(alloc, pattern, doc, Span { begin, end }, low, high, groups)?;
    Ok(are_rows(&rows, want))
}

/// Whether a kept searcher puts the same ones.
fn puts_run_rows(
    alloc: Global,
    pattern: &Pattern,
    doc: &Document<'_>,
    runs: Runs,
    groups: &[u32],
    want: &[&[Place]],
) -> Result<bool, Fail> {
    let ((begin, end), (low, high)) = runs;
    if begin > end || end > doc.len() || low == 0 {
        return Ok(false);
    }
    let source = Span { begin, end };
    let mut searcher = WholeSearcher::new(alloc, pattern)?;
    let mut flat = Vec::new(alloc);
    let sought = SoughtRuns {
        doc,
        source,
        low,
        high,
        groups,
    };
    let number = searcher.append_token_runs(&sought, &mut flat)?;
    Ok(number == want.len() && are_put(&flat, want))
}

/// Whether both are so of the token runs of a part of the text.
fn finds_runs(
    alloc: Global,
    pattern: &str,
    text: &str,
    runs: Runs,
    groups: &[u32],
    want: &[&[Place]],
) -> Result<bool, Fail> {
    if text.len() > TEXT_LIMIT {
        return Ok(false);
    }
    let pattern = compile_pattern(alloc, pattern)?;
    let doc = Document::new(alloc, text, None)?;
    if !finds_run_rows(alloc, &pattern, &doc, runs, groups, want)? {
        return Ok(false);
    }
    puts_run_rows(alloc, &pattern, &doc, runs, groups, want)
}

fn fault_of(alloc: Global, pattern: &str) -> Option<PatternFault> {
    match compile_pattern(alloc, pattern) {
        Err(Failure::Fault(fault)) => Some(fault),
        _ => None,
    }
}

#[test]
fn all_matches_are_found_in_characters(rt: HostRuntime) -> Result<(), Fail> {
    let alloc = rt.alloc();
    assert!(rt;
        finds(
            alloc,
            "[0-9]+",
            "x 12 345",
            None,
            &[0],
            &[&[Some((2, 4))], &[Some((5, 8))]]
        )?
    );
    assert!(rt; finds(alloc, "[0-9]+", "", None, &[0], &[])?);
    assert!(rt; finds(alloc, "x*", "", None, &[0], &[&[Some((0, 0))]])?);
    assert!(rt; finds(alloc, "[0-9]+", "é 7", None, &[0], &[&[Some((2, 3))]])?);
    assert!(rt;
        finds(
            alloc,
            "aa",
            "aaaa",
            None,
            &[0],
            &[&[Some((0, 2))], &[Some((2, 4))]]
        )?
    );
    assert!(rt; finds(alloc, "^a", "aaaa", None, &[0], &[&[Some((0, 1))]])?);
    Ok(())
}

#[test]
fn an_empty_match_right_after_a_match_is_passed_over(rt: HostRuntime) -> Result<(), Fail> {
    let alloc = rt.alloc();
    let want: &[&[Place]] = &[&[Some((0, 0))], &[Some((1, 3))], &[Some((4, 4))]];
    assert!(rt; finds(alloc, "a*", "baab", None, &[0], want)?);
    Ok(())
}

#[test]
fn a_group_that_takes_no_part_is_none_and_loses_no_match(rt: HostRuntime) -> Result<(), Fail> {
    let alloc = rt.alloc();
    let optional: &[&[Place]] = &[&[Some((0, 2)), Some((1, 2))], &[Some((3, 4)), None]];
    assert!(rt; finds(alloc, "(a)(b)?", "ab a", None, &[0, 2], optional)?);
    let either: &[&[Place]] = &[&[Some((0, 1)), None], &[None, Some((1, 2))]];
    assert!(rt; finds(alloc, "(a)|(b)", "ab", None, &[1, 2], either)?);
    assert!(rt; finds(alloc, "(a)|(b)", "ab", None, &[], &[&[], &[]])?);
    assert_eq!(rt; compile_pattern(alloc, "(a)|(b)")?.group_count(), 2);
    Ok(())
}

#[test]
fn a_match_sees_its_source_alone(rt: HostRuntime) -> Result<(), Fail> {
    let want: &[&[Place]] = &[&[Some((1, 2))], &[Some((2, 3))]];
    assert!(rt; finds(rt.alloc(), "^b|c$|d", "abcd", Some((1, 3)), &[0], want)?);
    Ok(())
}

#[test]
fn each_token_gives_its_longest_run(rt: HostRuntime) -> Result<(), Fail> {
    let alloc = rt.alloc();
    let words: &[&[Place]] = &[&[Some((0, 3))], &[Some((2, 5))], &[Some((4, 5))]];
    assert!(rt; finds_runs(alloc, r"\w+( \w+)?", "a b c", ((0, 5), (1, 2)), &[0], words)?);
    let names: &[&[Place]] = &[&[Some((0, 4))], &[Some((5, 9))], &[Some((20, 23))]];
    let text = "Call John at 555 or Ann";
    assert!(rt; finds_runs(alloc, "[A-Z][a-z]+", text, ((0, 23), (1, 1)), &[0], names)?);
    assert!(rt; finds_runs(alloc, "a", "a a", ((0, 3), (2, 3)), &[0], &[])?);
    Ok(())
}

#[test]
fn token_runs_beyond_ascii_count_characters(rt: HostRuntime) -> Result<(), Fail> {
    let alloc = rt.alloc();
    let text = "é Zoë Åsa 漢 Bö";
    let pairs: &[&[Place]] = &[&[Some((2, 9)), Some((6, 9)), None]];
    let pattern = r"\p{Lu}\w+ (\p{Lu}\w+)(x)?";
    assert!(rt; finds_runs(alloc, pattern, text, ((0, 14), (2, 3)), &[0, 1, 2], pairs)?);
    assert!(rt; finds_runs(alloc, pattern, text, ((3, 14), (2, 3)), &[0, 1, 2], &[])?);
    assert!(rt; finds_runs(alloc, "Bö", text, ((2, 14), (1, 2)), &[], &[&[]])?);
    Ok(())
}

#[test]
fn the_predicates_ask_for_a_match_and_for_the_whole_text(rt: HostRuntime) -> Result<(), Fail> {
    let alloc = rt.alloc();
    let pattern = compile_pattern(alloc, "b")?;
    assert!(rt; has_match(alloc, &pattern, "abc")?);
    assert!(rt; !matches_whole(alloc, &pattern, "abc")?);
    assert!(rt; matches_whole(alloc, &pattern, "b")?);
    Ok(())
}

/// Whether a pattern of this text matches the whole text.
fn matches_all_of(alloc: Global, pattern: &str, text: &str) -> Result<bool, Fail> {
    let pattern = compile_pattern(alloc, pattern)?;
    Ok(matches_whole(alloc, &pattern, text)?)
}

#[test]
fn what_is_told_by_bytes_loses_no_match(rt: HostRuntime) -> Result<(), Fail> {
    let alloc = rt.alloc();
    for (pattern, text, matches) in [
        ("(?:ab)?c", "c", true),
        ("(?:ab)?c", "abc", true),
        ("(?:ab)?c", "ab", false),
        ("x*y*z", "yz", true),
        ("(?:a?b?){2}c", "bac", true),
        ("(?:a?b?){2}c", "bb b", false),
        ("[a-z]+([._-][a-z0-9]+)+", "a.b-9", true),
        ("[a-z]+([._-][a-z0-9]+)+", "a. b", false),
        ("a|", "", true),
        ("|a", "a", true),
        ("(a||b*)c", "c", true),
        ("(?:)", "", true),
        ("(?:)", "a", false),
        ("^$", "", true),
        ("a*", "", true),
        ("(?m)^a", "a", true),
        (r"(?m)a$\n^b", "a\nb", true),
        (r"\bab\b", "ab", true),
        (r"\Bab", "ab", false),
        (r"\b-?\b", "-", false),
        ("(?i)ab", "aB", true),
        ("(?i)k", "\u{212A}", true),
        ("(?i)é+", "éÉ", true),
        ("[^a]", "é", true),
        ("[^a]", "a", false),
        ("[à-ü]+", "öé", true),
        ("[à-ü]+", "öe", false),
        (r"\p{Lu}\w+", "Åsa", true),
        (r"(?-u:\w)é", "aé", true),
        (r"(?-u:\w)é", "éé", false),
        (".", "\n", false),
        ("(?s).", "\n", true),
        (".+", "a 漢", true),
        ("(?x) a  b", "ab", true),
    ] {
        let found = matches_all_of(alloc, pattern, text)?;
        assert_eq!(rt; found, matches, "{pattern} in {text:?}");
    }
    let runs: &[&[Place]] = &[&[Some((0, 4))], &[Some((2, 4))], &[Some((7, 10))]];
    assert!(rt;
        finds_runs(
            alloc,
            "(?:x )?[a-zö]+",
            "x ab 7 ötz",
            ((0, 10), (1, 3)),
            &[0],
            runs
        )?
    );
    Ok(())
}

/// A pattern has this fault, or none.
fn has_fault<R: Abort + AllocGlobal>(
    rt: &R,
    pattern: &str,
    want: Option<PatternFault>,
    name: &str,
) {
    assert_eq!(rt; fault_of(rt.alloc(), pattern), want, "{name}");
}

#[test]
fn what_is_not_read_is_bad_and_what_is_large_is_so_first(rt: HostRuntime) -> Result<(), Fail> {
    for pattern in ["(", "a)|(?:b", "(?x)a # c", r"\"] {
        has_fault(&rt, pattern, Some(PatternFault::Bad), pattern);
    }
    for (pattern, bytes, weight) in [
        ("a{99}{99}", 9, 9_801),
        ("a{1000}{1000}", 13, 1_000_000),
        ("({9999}{9", 9, 9_999),
    ] {
        let large = Some(PatternFault::Large { bytes, weight });
        has_fault(&rt, pattern, large, pattern);
    }
    has_fault(&rt, "a{50}{50}", None, "a{50}{50}");
    Ok(())
}

/// So many copies of a text.
fn copies(alloc: Global, text: &str, number: u32) -> Result<String, Fail> {
    let mut all = String::new(alloc);
    for _ in 0..number {
        all.push_str(text)?;
    }
    Ok(all)
}

/// A group in a group, so many of them.
fn nested(alloc: Global, number: u32) -> Result<String, Fail> {
    let mut nested = copies(alloc, "(", number)?;
    nested.push('a')?;
    nested.push_str(copies(alloc, ")", number)?.as_str())?;
    Ok(nested)
}

#[test]
fn patterns_are_read_up_to_their_limits(rt: HostRuntime) -> Result<(), Fail> {
    for (bytes, is_large) in [(1_001, true), (100_000, true), (1_000, false)] {
        let large = Some(PatternFault::Large { bytes, weight: 1 });
        let want = if is_large { large } else { None };
        has_fault(
            &rt,
            copies(rt.alloc(), "a", bytes)?.as_str(),
            want,
            "a long one",
        );
    }
    has_fault(
        &rt,
        nested(rt.alloc(), 249)?.as_str(),
        Some(PatternFault::Bad),
        "a nested one",
    );
    Ok(())
}

/// The weight of a pattern, which is large by what stands behind it.
fn weight_of(alloc: Global, pattern: &str, behind: &str) -> Result<Option<u64>, Fail> {
    let mut text = String::from_str(alloc, pattern)?;
    text.push_str(behind)?;
    match fault_of(alloc, text.as_str()) {
        Some(PatternFault::Large { weight, .. }) => Ok(Some(weight)),
        _ => Ok(None),
    }
}

#[test]
fn the_weight_is_the_product_over_depths_of_the_greatest_chain(
    rt: HostRuntime,
) -> Result<(), Fail> {
    let alloc = rt.alloc();
    let behind = copies(alloc, "a", 1_001)?;
    for (pattern, weight) in [
        ("", 1),
        ("a", 1),
        ("a{3}", 3),
        ("a{2,}", 2),
        ("a{2,5}", 5),
        ("a{5,2}", 5),
        ("a{0}", 1),
        ("a{3}{4}", 12),
        ("a{3}?{4}?", 12),
        ("a{3}??{4}", 4),
        ("a{3}b{4}", 4),
        ("(a{3}){4}", 12),
        ("(a{3})(b{5}){2}", 10),
        (r"\{3}", 1),
        (r"\({3}b{2}", 3),
        (r"\x{41}", 41),
        ("[({3})]{2}", 6),
        (")a{3}", 3),
        ("a{ 3}", 1),
        ("a{3,4,5}", 1),
        ("a{99999999999999999999}", 1_000_000),
    ] {
        let found = weight_of(alloc, pattern, behind.as_str())?;
        assert_eq!(rt; found, Some(weight), "{pattern}");
    }
    Ok(())
}
