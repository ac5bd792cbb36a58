//! Worked examples, each public call once with ample memory, and a document shared among threads.
ghost use Rattle.std.specs.Prelude.{◌≤◌, ◌≡◌};
ghost use Rattle.span_token.specs.Extents.{extent_of};
ghost use Rattle.span_token.specs.Documents.{LiesIn};

use span_token::{
    Document, Failure, OutOfMemory, OwnedList, OwnedText, SourceTokens, Span, TEXT_LIMIT, between,
    combine, contains, follows, follows_tok, left_context, left_context_tok, overlaps,
    right_context, right_context_tok, tokens_of_text,
};
use std::alloc::Global;
use std::process::Abort;
use std::test::Fail;
use std::thread;

/// Tokens: Ann, met, Bo, a comma, 42, days, ago, a full stop.
const TEXT: &str = "Ann met Bo, 42 days ago.";

fn span(begin: u32, end: u32) -> Span
    requires { begin ≤ end }
    ensures begin { result.begin ≡ begin }
    ensures end { result.end ≡ end }
{
    Span { begin, end }
}

/// The document of a text, with its tokens kept or looked for in each call.
fn document<'d, R: Abort + AllocGlobal>(
    rt: &R,
    text: &'d str,
    keeps: bool,
) -> Result<Document<'d>, Fail> {
    assert!(rt; text.len() <= TEXT_LIMIT);
    if keeps {
        Ok(Document::new(rt.alloc(), text, None)?)
    } else {
        Ok(Document::plain(rt.alloc(), text, None)?)
    }
}

/// The text that is found of `of` is the wanted one.
fn is_text(rt: &impl Abort, found: &str, want: &str, of: &str) {
    assert_eq!(rt; found, want, "of {of:?}");
}

/// The number that is found of `of` is the wanted one.
fn is_number(rt: &impl Abort, found: u32, want: u32, of: u32) {
    assert_eq!(rt; found, want, "of {of}");
}

/// The span that is found of `of` has the wanted ends.
fn has_ends(rt: &impl Abort, found: Span, want: (u32, u32), of: (u32, u32, i64)) {
    assert_eq!(rt; (found.begin, found.end), want, "of {of:?}");
}

/// The truth that is found of two spans is the wanted one.
fn is_told(rt: &impl Abort, found: bool, want: bool, of: (u32, u32, u32, u32)) {
    assert_eq!(rt; found, want, "of {of:?}");
}

/// The texts of a document's tokens, with bars between.
fn barred(rt: &impl AllocGlobal, doc: &Document<'_>) -> Result<String, Fail> {
    let mut all = String::new(rt.alloc());
    for i in 0..doc.token_count() {
        if i > 0 {
            all.push('|')?;
        }
        all.push_str(doc.text_of(doc.token(i)))?;
    }
    Ok(all)
}

/// A document has these tokens.
fn has_texts<R: Abort + AllocGlobal>(rt: &R, doc: &Document<'_>, want: &str) -> Result<(), Fail> {
    is_text(rt, barred(rt, doc)?.as_str(), want, doc.text());
    Ok(())
}

/// A document that keeps its tokens and one that doesn't have these tokens.
fn has_tokens<R: Abort + AllocGlobal>(rt: &R, text: &str, want: &str) -> Result<(), Fail> {
    for keeps in [true, false] {
        has_texts(rt, &document(rt, text, keeps)?, want)?;
    }
    Ok(())
}

#[test]
fn words_and_other_characters_are_tokens(rt: HostRuntime) -> Result<(), Fail> {
    for (text, want) in [
        ("", ""),
        (" \t\r\n\x0b\x0c", ""),
        ("ab12 c_d", "ab12|c|_|d"),
        ("a.b --", "a|.|b|-|-"),
        ("\x00 \x1f\x7f", "\x00|\x1f|\x7f"),
        ("é 7", "é|7"),
        ("“né”", "“|né|”"),
        ("Straße", "Straße"),
        ("漢字kana", "漢字kana"),
        ("a😀b", "a|😀|b"),
    ] {
        has_tokens(&rt, text, want)?;
    }
    Ok(())
}

#[test]
fn marks_and_digits_of_all_scripts_make_words(rt: HostRuntime) -> Result<(), Fail> {
    for (text, want) in [
        ("e\u{301}x", "e\u{301}x"),
        ("हिन्दी।", "हिन्दी|।"),
        ("٣٤ ½Ⅷ", "٣٤|½Ⅷ"),
        ("a\u{20dd}\u{200d}", "a|\u{20dd}|\u{200d}"),
        ("a\u{a0}b\u{85}\u{3000}", "a|b"),
        ("\u{feff}a", "\u{feff}|a"),
    ] {
        has_tokens(&rt, text, want)?;
    }
    Ok(())
}

#[test]
fn tokens_count_characters(rt: HostRuntime) -> Result<(), Fail> {
    let listed = tokens_of_text(rt.alloc(), "né 漢.")?;
    let want = [span(0, 2), span(3, 4), span(4, 5)];
    assert_eq!(rt; listed.as_slice(), want.as_slice());
    Ok(())
}

#[test]
fn tokens_in_a_span_lie_wholly_in_it(rt: HostRuntime) -> Result<(), Fail> {
    let doc = document(&rt, TEXT, true)?;
    for (begin, end, want) in [
        (0, 24, (0, 8)),
        (1, 11, (1, 4)),
        (4, 7, (1, 2)),
        (5, 6, (2, 2)),
        (13, 15, (5, 5)),
        (24, 24, (8, 8)),
    ] {
        assert!(rt; begin <= end && end <= doc.len());
        assert_eq!(rt; doc.tokens_in(span(begin, end)), want, "in {begin}-{end}");
    }
    Ok(())
}

/// The texts of a source's tokens, with bars between.
fn source_barred(rt: &impl AllocGlobal, tokens: &SourceTokens<'_, '_>) -> Result<String, Fail> {
    let mut texts = String::new(rt.alloc());
    for i in 0..tokens.len() {
        if i > 0 {
            texts.push('|')?;
        }
        texts.push_str(tokens.text(i))?;
    }
    Ok(texts)
}

/// The run of all tokens of a source has this text, and the ends of its first and last token.
fn has_run(rt: &impl Abort, tokens: &SourceTokens<'_, '_>, want: &str) {
    assert!(rt; tokens.len() > 0);
    let last = tokens.len() - 1;
    is_text(rt, tokens.run_text(0, last), want, "the run");
    let ends = (tokens.get(0).begin, tokens.get(last).end);
    has_ends(rt, tokens.run(0, last), ends, (ends.0, ends.1, 0));
}

/// The texts of a source's tokens, with bars between, and the text and span of their run.
fn texts_and_run<R: Abort + AllocGlobal>(
    rt: &R,
    tokens: &SourceTokens<'_, '_>,
    want: (&str, &str),
) -> Result<(), Fail> {
    is_text(rt, source_barred(rt, tokens)?.as_str(), want.0, want.1);
    has_run(rt, tokens, want.1);
    Ok(())
}

/// The same of a part of a text, in a document that keeps its tokens or one that doesn't.
fn part_has<R: Abort + AllocGlobal>(
    rt: &R,
    text: &str,
    keeps: bool,
    part: (u32, u32),
    want: (&str, &str),
) -> Result<(), Fail> {
    let doc = document(rt, text, keeps)?;
    let (begin, end) = part;
    assert!(rt; begin <= end && end <= doc.len());
    let tokens = SourceTokens::of(&doc, span(begin, end));
    texts_and_run(rt, &tokens, want)
}

/// The number of tokens of a whole text.
fn number_in<R: Abort + AllocGlobal>(rt: &R, text: &str, keeps: bool) -> Result<usize, Fail> {
    let doc = document(rt, text, keeps)?;
    Ok(SourceTokens::all(&doc).len())
}

#[test]
fn the_tokens_of_a_source_have_their_texts_and_runs(rt: HostRuntime) -> Result<(), Fail> {
    for (text, begin, end, texts, run) in [
        ("Ann met Bo, 42.", 1, 11, "met|Bo|,", "met Bo,"),
        ("Zoë traf Bö, 漢😀 é", 1, 15, "traf|Bö|,|漢|😀", "traf Bö, 漢😀"),
        ("Zoë traf Bö", 0, 11, "Zoë|traf|Bö", "Zoë traf Bö"),
    ] {
        part_has(&rt, text, true, (begin, end), (texts, run))?;
    }
    assert_eq!(rt; number_in(&rt, "né", true)?, 1);
    assert_eq!(rt; number_in(&rt, "né", false)?, 1);
    part_has(&rt, "né", false, (0, 2), ("né", "né"))
}

#[test]
fn gaps_in_characters(rt: HostRuntime) {
    for (a, b, c, d, min, max, want) in [
        (0, 3, 4, 7, 1, 1, true),
        (0, 3, 4, 7, 2, 5, false),
        (0, 3, 4, 7, 0, 0, false),
        (4, 7, 0, 3, 0, 100, false),
        (0, 5, 4, 7, 0, 100, false),
        (8, 10, 10, 11, 0, 0, true),
        (8, 10, 10, 11, i64::MIN, i64::MAX, true),
        (8, 10, 10, 11, 1, i64::MAX, false),
        (8, 10, 10, 11, -3, -1, false),
        (5, 5, 5, 5, 0, 0, true),
    ] {
        assert!(rt; a <= b && c <= d);
        let found = follows(span(a, b), span(c, d), min, max);
        is_told(&rt, found, want, (a, b, c, d));
    }
}

/// Whether the gaps in tokens are as the table has them.
fn has_gaps(rt: &impl Abort, doc: &Document<'_>) {
    for (a, b, c, d, min, max, want) in [
        (0, 3, 8, 10, 1, 1, true),
        (0, 3, 8, 10, 0, 0, false),
        (0, 3, 8, 10, 2, i64::MAX, false),
        (0, 3, 4, 7, 0, 0, true),
        (0, 3, 23, 24, 6, 6, true),
        (8, 10, 0, 3, 0, 9, false),
        (0, 5, 8, 10, 0, 0, true),
        (0, 3, 6, 8, 0, 0, true),
        (0, 5, 6, 8, 0, 0, true),
    ] {
        assert!(rt; a <= b && c <= d && b <= doc.len() && d <= doc.len());
        let found = follows_tok(doc, span(a, b), span(c, d), min, max);
        is_told(rt, found, want, (a, b, c, d));
    }
}

#[test]
fn gaps_in_tokens(rt: HostRuntime) -> Result<(), Fail> {
    for keeps in [true, false] {
        has_gaps(&rt, &document(&rt, TEXT, keeps)?);
    }
    Ok(())
}

#[test]
fn spans_that_share_a_character_or_are_equal_overlap(rt: HostRuntime) {
    for (a, b, c, d, want) in [
        (0, 5, 4, 7, true),
        (4, 7, 0, 5, true),
        (0, 9, 4, 7, true),
        (8, 10, 10, 11, false),
        (0, 3, 4, 7, false),
        (4, 7, 4, 7, true),
        (5, 5, 5, 5, true),
        (5, 5, 4, 7, true),
        (4, 4, 4, 7, false),
        (7, 7, 4, 7, false),
    ] {
        assert!(rt; a <= b && c <= d);
        is_told(&rt, overlaps(span(a, b), span(c, d)), want, (a, b, c, d));
    }
}

#[test]
fn a_span_contains_itself_and_what_lies_in_it(rt: HostRuntime) {
    for (a, b, c, d, want) in [
        (4, 7, 4, 7, true),
        (0, 10, 4, 7, true),
        (4, 7, 0, 10, false),
        (4, 7, 4, 8, false),
        (4, 7, 3, 7, false),
        (4, 7, 7, 7, true),
        (4, 7, 8, 8, false),
        (5, 5, 5, 5, true),
    ] {
        assert!(rt; a <= b && c <= d);
        is_told(&rt, contains(span(a, b), span(c, d)), want, (a, b, c, d));
    }
}

#[test]
fn combined_spans_and_the_span_between(rt: HostRuntime) {
    for (a, b, c, d, whole, gap) in [
        (0, 3, 4, 7, (0, 7), (3, 4)),
        (4, 7, 0, 3, (0, 7), (7, 7)),
        (0, 9, 4, 7, (0, 9), (9, 9)),
        (4, 7, 0, 9, (0, 9), (7, 7)),
        (8, 10, 10, 11, (8, 11), (10, 10)),
        (0, 5, 4, 7, (0, 7), (5, 5)),
    ] {
        assert!(rt; a <= b && c <= d);
        let of = (a, b, i64::from(c));
        has_ends(&rt, combine(span(a, b), span(c, d)), whole, of);
        has_ends(&rt, between(span(a, b), span(c, d)), gap, of);
    }
}

#[test]
fn contexts_in_characters_end_at_the_document(rt: HostRuntime) -> Result<(), Fail> {
    let doc = document(&rt, TEXT, true)?;
    for (n, before, after) in [
        (2, 2, 22),
        (4, 0, 24),
        (10, 0, 24),
        (i64::MAX, 0, 24),
        (0, 4, 20),
        (-5, 4, 20),
        (i64::MIN, 4, 20),
    ] {
        assert!(rt; 20 <= doc.len());
        has_ends(&rt, left_context(span(4, 20), n), (before, 4), (4, 20, n));
        has_ends(
            &rt,
            right_context(&doc, span(4, 20), n),
            (20, after),
            (4, 20, n),
        );
    }
    Ok(())
}

/// Whether the contexts in tokens are as the table has them.
fn has_contexts(rt: &impl Abort, doc: &Document<'_>) {
    for (begin, end, n, before, after) in [
        (8, 10, 1, 4, 11),
        (8, 10, 2, 0, 14),
        (8, 10, i64::MAX, 0, 24),
        (8, 10, 0, 8, 10),
        (8, 10, i64::MIN, 8, 10),
        (5, 13, 1, 0, 19),
        (2, 24, 1, 2, 24),
        (0, 0, 2, 0, 7),
    ] {
        assert!(rt; begin <= end && end <= doc.len());
        let left = left_context_tok(doc, span(begin, end), n);
        has_ends(rt, left, (before, begin), (begin, end, n));
        let right = right_context_tok(doc, span(begin, end), n);
        has_ends(rt, right, (end, after), (begin, end, n));
    }
}

#[test]
fn contexts_in_tokens_have_whole_tokens(rt: HostRuntime) -> Result<(), Fail> {
    for keeps in [true, false] {
        has_contexts(&rt, &document(&rt, TEXT, keeps)?);
    }
    Ok(())
}

#[test]
fn a_document_gives_what_it_was_made_of(rt: HostRuntime) -> Result<(), Fail> {
    let doc = Document::new(rt.alloc(), "aé漢😀z", Some("mixed"))?;
    assert_eq!(rt; doc.label(), Some("mixed"));
    is_text(&rt, doc.text(), "aé漢😀z", "the text");
    is_number(&rt, doc.len(), 5, 0);
    is_text(&rt, doc.text_of(doc.whole()), "aé漢😀z", "the whole");
    Ok(())
}

#[test]
fn characters_are_told_from_bytes(rt: HostRuntime) -> Result<(), Fail> {
    let doc = document(&rt, "aé漢😀z", true)?;
    for (byte, place, text) in [
        (0, 0, "aé漢😀z"),
        (1, 1, "é漢😀z"),
        (3, 2, "漢😀z"),
        (6, 3, "😀z"),
        (10, 4, "z"),
        (11, 5, ""),
    ] {
        assert!(rt; doc.text().is_char_boundary(byte as usize) && place <= doc.len());
        is_number(&rt, doc.char_at(byte), place, byte);
        is_text(&rt, doc.text_of(span(place, doc.len())), text, text);
    }
    Ok(())
}

/// A hundred blocks of characters of one to four bytes.
fn blocks(rt: &impl AllocGlobal) -> Result<String, Fail> {
    let mut text = String::new(rt.alloc());
    for _ in 0..100 {
        text.push_str("aé漢😀")?;
    }
    Ok(text)
}

/// The places of the second and third character of each block are found.
fn has_blocks(rt: &impl Abort, doc: &Document<'_>) {
    for round in 0..100u32 {
        let begin = 4 * round + 1;
        assert!(rt; begin + 2 <= doc.len());
        is_text(rt, doc.text_of(span(begin, begin + 2)), "é漢", "a block");
        let byte = 10 * round + 3;
        assert!(rt; doc.text().is_char_boundary(byte as usize));
        is_number(rt, doc.char_at(byte), begin + 1, byte);
    }
}

#[test]
fn places_hold_past_many_blocks(rt: HostRuntime) -> Result<(), Fail> {
    let text = blocks(&rt)?;
    has_blocks(&rt, &document(&rt, text.as_str(), true)?);
    Ok(())
}

/// What follows the first `B` of a span.
fn from_b(doc: &Document<'_>, source: Span) -> Option<Span>
    requires { LiesIn (extent_of source) doc.now }
{
    let text = doc.text_of(source);
    let at = text.find('B')?;
    Some(doc.span_in(source, at, text.len()))
}

#[test]
fn bytes_of_a_span_are_moved_to_the_document(rt: HostRuntime) -> Result<(), Fail> {
    let doc = document(&rt, "éé Bö, ü", true)?;
    assert!(rt; doc.len() == 8);
    assert_eq!(rt; from_b(&doc, span(1, 5)), Some(span(3, 5)));
    assert_eq!(rt; from_b(&doc, span(4, 8)), None);
    Ok(())
}

#[test]
fn a_document_is_shared_among_threads(rt: HostRuntime) -> Result<(), Fail> {
    let doc = document(&rt, "Zoë met Bo.", true)?;
    let mut counts = [0, 0, 0, 0];
    thread::for_each_mut(&rt, &mut counts, 2, &|_, count| *count = doc.token_count());
    assert_eq!(rt; counts, [4, 4, 4, 4]);
    Ok(())
}

#[test]
fn a_document_is_sent_to_a_thread(rt: HostRuntime) -> Result<(), Fail> {
    let here = document(&rt, "Zoë met Bo.", true)?;
    let sent = document(&rt, "no one", true)?;
    let counts = thread::join(&rt, || here.token_count(), move || sent.token_count());
    assert_eq!(rt; counts, (4, 2));
    Ok(())
}

/// The documents of texts, in a list.
fn documents<'d>(rt: &impl AllocGlobal, texts: &[&'d str]) -> Result<Vec<Document<'d>>, Fail> {
    let mut docs = Vec::new(rt.alloc());
    for text in texts {
        if text.len() <= TEXT_LIMIT {
            docs.push(Document::new(rt.alloc(), *text, None)?)?;
        }
    }
    Ok(docs)
}

fn most_tokens(docs: &[Document<'_>]) -> u32 {
    let mut most = 0;
    for doc in docs {
        most = most.max(doc.token_count());
    }
    most
}

#[test]
fn documents_are_kept_in_a_list(rt: HostRuntime) -> Result<(), Fail> {
    let docs = documents(&rt, &["one two", "three"])?;
    assert_eq!(rt; docs.len(), 2);
    assert_eq!(rt; most_tokens(&docs), 2);
    Ok(())
}

/// A text is kept as it is given, as a slice and as a string.
fn keeps_text(rt: &impl Abort, text: OwnedText, want: &str) {
    is_text(rt, text.as_str(), want, "a slice");
    let again = OwnedText::from(text.into_string());
    is_text(rt, again.as_str(), want, "a string");
}

/// A list has these elements.
fn has_elements(rt: &impl Abort, list: &OwnedList<i32>, want: &[i32]) {
    assert_eq!(rt; list.as_slice(), want);
}

/// The list of the elements.
fn list_of(rt: &impl AllocGlobal, elements: &[i32]) -> Result<OwnedList<i32>, Fail> {
    let mut list = OwnedList::new(rt.alloc());
    for element in elements {
        list.push(*element)?;
    }
    Ok(list)
}

#[test]
fn owned_texts_and_lists_keep_what_they_are_given(rt: HostRuntime) -> Result<(), Fail> {
    keeps_text(&rt, OwnedText::copied(rt.alloc(), "né")?, "né");
    let list = list_of(&rt, &[7, 5])?;
    assert_eq!(rt; list.len(), 2);
    has_elements(&rt, &list, &[7, 5]);
    has_elements(&rt, &OwnedList::from(list.into_vec()), &[7, 5]);
    Ok(())
}

/// A call with a cause of its own, and its want of memory.
fn first_word(alloc: Global, text: &str) -> Result<OwnedText, Failure<u8>> {
    let Some((word, _)) = text.split_once(' ') else {
        return Err(Failure::Fault(1));
    };
    let mut copy = String::from_str(alloc, word)?;
    copy.push('.')?;
    Ok(OwnedText::copied(alloc, copy.as_str())?)
}

#[test]
fn a_failure_names_its_cause(rt: HostRuntime) -> Result<(), Fail> {
    is_text(
        &rt,
        first_word(rt.alloc(), "one two")?.as_str(),
        "one.",
        "one two",
    );
    let Err(failure) = first_word(rt.alloc(), "one") else {
        return Err(Fail::from("a word"));
    };
    assert!(rt; failure == Failure::Fault(1));
    assert!(rt; failure.renamed(|fault: u8| fault < 2) == Failure::Fault(true));
    let shown = format!(in rt.alloc(); "{}", OutOfMemory)?;
    is_text(&rt, shown.as_str(), "out of memory", "want of memory");
    Ok(())
}
