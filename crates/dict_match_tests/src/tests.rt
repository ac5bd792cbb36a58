use dict_match::{DictPass, DictScratch, DictUse};
use span_token::{Document, OutOfMemory, OwnedList, OwnedText, Span, TEXT_LIMIT};
use std::alloc::Global;
use std::process::Abort;
use std::test::Fail;
use std::thread::{self, Threads};

/// A span as its begin and end.
type Place = (u32, u32);

/// A dictionary: its entries, and whether case counts.
type Dict<'a> = (&'a [&'a str], bool);

fn dict_of(alloc: Global, entries: &[&str], exact: bool) -> Result<DictUse, Fail> {
    let mut texts = OwnedList::new(alloc);
    for entry in entries {
        texts.push(OwnedText::copied(alloc, entry)?)?;
    }
    Ok(DictUse {
        entries: texts,
        exact,
    })
}

fn dicts_of(alloc: Global, dicts: &[Dict<'_>]) -> Result<Vec<DictUse>, Fail> {
    let mut uses = Vec::new(alloc);
    for given in dicts {
        uses.push(dict_of(alloc, given.0, given.1)?)?;
    }
    Ok(uses)
}

fn pass_of(alloc: Global, dicts: &[Dict<'_>]) -> Result<DictPass, Fail> {
    let uses = dicts_of(alloc, dicts)?;
    Ok(DictPass::new(alloc, uses.as_slice())?)
}

fn are_places(spans: &[Span], want: &[Place]) -> bool {
    if spans.len() != want.len() {
        return false;
    }
    for (span, place) in spans.iter().zip(want) {
        if (span.begin, span.end) != *place {
            return false;
        }
    }
    true
}

fn are_rows(rows: &[Vec<Span>], want: &[&[Place]]) -> bool {
    if rows.len() != want.len() {
        return false;
    }
    for (row, places) in rows.iter().zip(want) {
        if !are_places(row, places) {
            return false;
        }
    }
    true
}

/// Whether these are the matches of each dictionary in a part of the document.
fn are_found(
    alloc: Global,
    pass: &DictPass,
    doc: &Document<'_>,
    part: Place,
    want: &[&[Place]],
) -> Result<bool, Fail> {
    let (begin, end) = part;
    if begin > end || end > doc.len() {
        return Ok(false);
    }
    let rows = pass.matches(alloc, doc, Span { begin, end })?;
    Ok(are_rows(&rows, want))
}

/// What two calls with one scratch put.
fn put_twice(
    alloc: Global,
    pass: &DictPass,
    doc: &Document<'_>,
) -> Result<Vec<dict_match::DictMatch>, Fail> {
    let mut scratch = DictScratch::new(alloc);
    let mut found = Vec::new(alloc);
    for _call in 0..2 {
        pass.append_matches(doc, doc.whole(), &mut scratch, &mut found)?;
    }
    Ok(found)
}

/// The spans of one dictionary.
fn spans_of(
    alloc: Global,
    found: &[dict_match::DictMatch],
    dict: usize,
) -> Result<Vec<Span>, Fail> {
    let mut spans = Vec::new(alloc);
    for one in found {
        if one.dict == dict {
            spans.push(one.span)?;
        }
    }
    Ok(spans)
}

/// Whether these are the places, and then the same ones.
fn are_twice(spans: &[Span], places: &[Place]) -> bool {
    if spans.len() < places.len() {
        return false;
    }
    let (first, second) = spans.split_at(places.len());
    are_places(first, places) && are_places(second, places)
}

/// Whether two calls with one scratch put these matches of each dictionary twice.
fn are_put_behind(
    alloc: Global,
    pass: &DictPass,
    doc: &Document<'_>,
    want: &[&[Place]],
) -> Result<bool, Fail> {
    let found = put_twice(alloc, pass, doc)?;
    for (dict, places) in want.iter().enumerate() {
        if !are_twice(&spans_of(alloc, &found, dict)?, places) {
            return Ok(false);
        }
    }
    Ok(true)
}

/// Whether these are the matches in the whole document, and the same are put behind what a kept list holds.
fn are_found_and_put(
    alloc: Global,
    pass: &DictPass,
    doc: &Document<'_>,
    want: &[&[Place]],
) -> Result<bool, Fail> {
    let whole = doc.whole();
    if !are_found(alloc, pass, doc, (whole.begin, whole.end), want)? {
        return Ok(false);
    }
    are_put_behind(alloc, pass, doc, want)
}

/// The same of a text.
fn pass_matches(
    alloc: Global,
    pass: &DictPass,
    text: &str,
    want: &[&[Place]],
) -> Result<bool, Fail> {
    if text.len() > TEXT_LIMIT {
        return Ok(false);
    }
    let doc = Document::new(alloc, text, None)?;
    are_found_and_put(alloc, pass, &doc, want)
}

/// The same of dictionaries.
fn matches(alloc: Global, dicts: &[Dict<'_>], text: &str, want: &[&[Place]]) -> Result<bool, Fail> {
    let pass = pass_of(alloc, dicts)?;
    pass_matches(alloc, &pass, text, want)
}

#[test]
fn a_span_comes_once_and_over_any_white_space(rt: HostRuntime) -> Result<(), Fail> {
    let alloc = rt.alloc();
    let dict: Dict<'_> = (&["new york", "NEW YORK"], false);
    assert!(rt; matches(alloc, &[dict], "New  York", &[&[(0, 9)]])?);
    assert!(rt;
        matches(
            alloc,
            &[dict],
            "New\n\tYork new york",
            &[&[(0, 9), (10, 18)]]
        )?
    );
    assert!(rt; matches(alloc, &[dict], "New, York Newyork", &[&[]])?);
    Ok(())
}

/// How many lists there are, and how many matches in all of them.
fn counts(found: &[Vec<Span>]) -> (usize, usize) {
    let mut all = 0usize;
    for matches in found {
        all = all.saturating_add(matches.len());
    }
    (found.len(), all)
}

/// How many lists of matches a document has, and how many matches.
fn number_found(
    alloc: Global,
    pass: &DictPass,
    doc: &Document<'_>,
) -> Result<(usize, usize), Fail> {
    let found = pass.matches(alloc, doc, doc.whole())?;
    Ok(counts(&found))
}

/// The same of a text.
fn number_in(alloc: Global, pass: &DictPass, text: &str) -> Result<(usize, usize), Fail> {
    if text.len() > TEXT_LIMIT {
        return Ok((0, 0));
    }
    let doc = Document::new(alloc, text, None)?;
    number_found(alloc, pass, &doc)
}

#[test]
fn case_is_folded_in_full_beyond_ascii(rt: HostRuntime) -> Result<(), Fail> {
    let alloc = rt.alloc();
    let rows: [(&str, &str, bool, bool); 8] = [
        ("Straße", "STRASSE", false, true),
        ("STRASSE", "Straße", false, true),
        ("ΣΑΣ", "σας", false, true),
        ("ΣΑΣ", "σας", true, false),
        ("Ann", "ANN", false, true),
        ("Ann", "ANN", true, false),
        ("Ann", "Ann", true, true),
        ("É", "é", false, true),
    ];
    for (entry, text, exact, does) in rows {
        let entries = [entry];
        let dicts: [Dict<'_>; 1] = [(&entries, exact)];
        let (lists, matches) = number_in(alloc, &pass_of(alloc, &dicts)?, text)?;
        assert_eq!(rt; (lists, matches == 1), (1, does), "{entry} in {text}");
    }
    Ok(())
}

#[test]
fn entries_are_cut_into_tokens(rt: HostRuntime) -> Result<(), Fail> {
    let alloc = rt.alloc();
    let dict: Dict<'_> = (&["O'Neil", "C++", "e-mail"], false);
    let text = "O ' neil wrote C + + by E-Mail; Neil, C+, email";
    assert!(rt; matches(alloc, &[dict], text, &[&[(0, 8), (15, 20), (24, 30)]])?);
    let inside: Dict<'_> = (&["art"], false);
    assert!(rt; matches(alloc, &[inside], "part arts art", &[&[(10, 13)]])?);
    Ok(())
}

#[test]
fn entries_overlap_and_stand_in_several_dictionaries(rt: HostRuntime) -> Result<(), Fail> {
    let alloc = rt.alloc();
    let cities: Dict<'_> = (&["New York", "New", "York City", "new york city"], false);
    let exact: Dict<'_> = (&["New York", "new", "New York"], true);
    let none: Dict<'_> = (&[], false);
    let empty: Dict<'_> = (&["", " \t", "New"], false);
    assert!(rt;
        matches(
            alloc,
            &[cities, exact, none, empty, cities],
            "a New York City new york",
            &[
                &[(2, 5), (2, 10), (2, 15), (6, 15), (16, 19), (16, 24)],
                &[(2, 10), (16, 19)],
                &[],
                &[(2, 5), (16, 19)],
                &[(2, 5), (2, 10), (2, 15), (6, 15), (16, 19), (16, 24)],
            ]
        )?
    );
    assert!(rt; matches(alloc, &[], "a New York", &[])?);
    assert!(rt; matches(alloc, &[cities], "", &[&[]])?);
    Ok(())
}

/// Whether these are the matches of a pass with one dictionary in a part of a text.
fn part_matches(
    alloc: Global,
    pass: &DictPass,
    text: &str,
    part: Place,
    want: &[&[Place]],
) -> Result<bool, Fail> {
    if text.len() > TEXT_LIMIT {
        return Ok(false);
    }
    let doc = Document::new(alloc, text, None)?;
    are_found(alloc, pass, &doc, part, want)
}

#[test]
fn only_tokens_wholly_in_the_source_count(rt: HostRuntime) -> Result<(), Fail> {
    let alloc = rt.alloc();
    let dict: Dict<'_> = (&["New York", "York"], false);
    let pass = pass_of(alloc, &[dict])?;
    let sources: [(Place, &[&[Place]]); 4] = [
        ((3, 11), &[&[(3, 11), (7, 11)]]),
        ((4, 11), &[&[(7, 11)]]),
        ((3, 10), &[&[]]),
        ((8, 15), &[&[]]),
    ];
    for ((begin, end), want) in sources {
        let are = part_matches(alloc, &pass, "in New York now", (begin, end), want)?;
        assert!(rt; are, "from {begin} to {end}");
    }
    Ok(())
}

/// Whether each of the two dictionaries of a pass matches in a span, and whether each matches all of it.
fn answers(
    pass: &DictPass,
    doc: &Document<'_>,
    place: Place,
    scratch: &mut DictScratch,
) -> Result<[bool; 4], OutOfMemory> {
    let (begin, end) = place;
    if begin > end || end > doc.len() {
        return Ok([true; 4]);
    }
    let source = Span { begin, end };
    Ok([
        pass.has_match(0, doc, source, scratch)?,
        pass.has_match(1, doc, source, scratch)?,
        pass.matches_whole(0, doc, source, scratch)?,
        pass.matches_whole(1, doc, source, scratch)?,
    ])
}

/// The same in a text.
fn answers_in(
    alloc: Global,
    pass: &DictPass,
    text: &str,
    place: Place,
    scratch: &mut DictScratch,
) -> Result<[bool; 4], OutOfMemory> {
    if text.len() > TEXT_LIMIT {
        return Ok([true; 4]);
    }
    let doc = Document::new(alloc, text, None)?;
    answers(pass, &doc, place, scratch)
}

/// The answers in a part of a text are the wanted ones.
fn are_answers<R: Abort + AllocGlobal>(
    rt: &R,
    pass: &DictPass,
    text: &str,
    place: Place,
    scratch: &mut DictScratch,
    want: [bool; 4],
) -> Result<(), Fail> {
    let found = answers_in(rt.alloc(), pass, text, place, scratch)?;
    assert!(rt; found == want, "from {} to {}", place.0, place.1);
    Ok(())
}

#[test]
fn whether_a_dictionary_matches_in_a_span_and_all_of_it(rt: HostRuntime) -> Result<(), Fail> {
    let alloc = rt.alloc();
    let cities: Dict<'_> = (&["New York", "York", ""], false);
    let exact: Dict<'_> = (&["new york"], true);
    let pass = pass_of(alloc, &[cities, exact])?;
    let text = "in New  York, éa new york";
    let mut scratch = DictScratch::new(alloc);
    let rows: [(Place, [bool; 4]); 8] = [
        ((0, 25), [true, true, false, false]),
        ((2, 12), [true, false, true, false]),
        ((2, 13), [true, false, false, false]),
        ((8, 12), [true, false, true, false]),
        ((3, 7), [false, false, false, false]),
        ((17, 25), [true, true, true, true]),
        ((14, 16), [false, false, false, false]),
        ((5, 5), [false, false, false, false]),
    ];
    for (place, want) in rows {
        are_answers(&rt, &pass, text, place, &mut scratch, want)?;
    }
    Ok(())
}

#[test]
fn a_match_has_as_many_tokens_as_the_longest_entry(rt: HostRuntime) -> Result<(), Fail> {
    let alloc = rt.alloc();
    // the second dictionary's longest entry has an apostrophe, which is a token
    let dicts: [Dict<'_>; 3] = [
        (&["Ann", "Ann Mary Lee", "Lee"], false),
        (&["O'Brien & Sons"], true),
        (&["", " "], false),
    ];
    let pass = pass_of(alloc, &dicts)?;
    let told = [
        pass.most_tokens(0),
        pass.most_tokens(1),
        pass.most_tokens(2),
        pass.most_tokens(3),
    ];
    assert!(rt; told == [3, 5, 0, 0]);
    Ok(())
}

/// As many blanks as a text has at most.
fn blanks(alloc: Global) -> Result<String, Fail> {
    let mut long = String::from_str(alloc, " ")?;
    for _i in 0..24 {
        long = format!(in alloc; "{long}{long}")?;
    }
    Ok(long)
}

/// Whether there is a pass with this entry alone.
fn is_entry(alloc: Global, entry: &str) -> Result<bool, Fail> {
    let dict = dict_of(alloc, &[entry], false)?;
    Ok(DictPass::new(alloc, &[dict]).is_ok())
}

#[test]
fn an_entry_longer_than_a_text_is_want_of_memory(rt: HostRuntime) -> Result<(), Fail> {
    let alloc = rt.alloc();
    let mut long = blanks(alloc)?;
    assert_eq!(rt; long.len(), TEXT_LIMIT);
    assert!(rt; is_entry(alloc, long.as_str())?);
    long.push_str(" ")?;
    assert!(rt; !is_entry(alloc, long.as_str())?);
    Ok(())
}

/// A text, and how many matches were found in it by a worker with a scratch of its own.
#[derive(Drop)]
struct Trial<'t> {
    text: &'t str,
    scratch: DictScratch,
    found: usize,
}

fn count_in(
    alloc: Global,
    pass: &DictPass,
    text: &str,
    scratch: &mut DictScratch,
) -> Result<usize, OutOfMemory> {
    if text.len() > TEXT_LIMIT {
        return Ok(0);
    }
    let doc = Document::new(alloc, text, None)?;
    let mut found = Vec::new(alloc);
    pass.append_matches(&doc, doc.whole(), scratch, &mut found)?;
    Ok(found.len())
}

fn try_in_threads<R: Threads + Sync>(
    rt: &R,
    alloc: Global,
    pass: &DictPass,
    trials: &mut [Trial<'_>],
) {
    thread::for_each_mut(
        rt,
        trials,
        4,
        &|_, trial: &mut Trial<'_>| {
            trial.found = count_in(alloc, pass, trial.text, &mut trial.scratch).unwrap_or(99);
        },
    );
}

/// A trial of the text, with a scratch of its own.
fn trial_of(alloc: Global, text: &str) -> Trial<'_> {
    Trial {
        text,
        scratch: DictScratch::new(alloc),
        found: 0,
    }
}

/// Trials of the texts.
fn trials_of<'t>(alloc: Global, texts: &[&'t str]) -> Result<Vec<Trial<'t>>, Fail> {
    let mut trials = Vec::new(alloc);
    for text in texts {
        trials.push(trial_of(alloc, text))?;
    }
    Ok(trials)
}

#[test]
fn several_threads_share_a_pass(rt: HostRuntime) -> Result<(), Fail> {
    let alloc = rt.alloc();
    let names: Dict<'_> = (&["Ann", "John Doe"], false);
    let pass = pass_of(alloc, &[names, names])?;
    let mut trials = trials_of(alloc, &["ann and Ann", "nobody", "John Doe", "Doe John"])?;
    try_in_threads(&rt, alloc, &pass, &mut trials);
    assert!(rt; trials.len() == 4);
    for (trial, want) in trials.iter().zip([4usize, 0, 2, 0]) {
        assert_eq!(rt; trial.found, want);
    }
    Ok(())
}

/// A pass and a scratch that a thread has for its own, and how many matches it found.
#[derive(Drop)]
struct Seat {
    pass: DictPass,
    scratch: DictScratch,
    found: usize,
}

fn move_to_threads<R: Threads + Sync>(rt: &R, alloc: Global, text: &str, seats: &mut [Seat]) {
    thread::for_each_mut(
        rt,
        seats,
        4,
        &|_, seat: &mut Seat| {
            seat.found = count_in(alloc, &seat.pass, text, &mut seat.scratch).unwrap_or(99);
        },
    );
}

/// A seat for each dictionary.
fn seats_of(alloc: Global, dicts: &[Dict<'_>]) -> Result<Vec<Seat>, Fail> {
    let mut seats = Vec::new(alloc);
    for dict in dicts {
        seats.push(Seat {
            pass: pass_of(alloc, &[*dict])?,
            scratch: DictScratch::new(alloc),
            found: 0,
        })?;
    }
    Ok(seats)
}

#[test]
fn each_thread_has_a_pass_of_its_own(rt: HostRuntime) -> Result<(), Fail> {
    let alloc = rt.alloc();
    let names: Dict<'_> = (&["Ann", "John Doe"], false);
    let cities: Dict<'_> = (&["York", "New York"], true);
    let mut seats = seats_of(alloc, &[names, cities])?;
    move_to_threads(&rt, alloc, "ann and John  Doe of New York", &mut seats);
    assert!(rt; seats.len() == 2);
    for (seat, want) in seats.iter().zip([2usize, 2]) {
        assert_eq!(rt; seat.found, want);
    }
    Ok(())
}
