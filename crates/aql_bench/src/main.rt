//! Benches of the library crates: the work of each on one text, timed.
//!
//! With no words each bench makes one round over a short text, and prints what it came to and nothing
//! of time, so that the gate runs them all. With the words `NAME FILE ROUNDS` one bench goes over a file
//! that many times, and the speed of its best round is printed to standard error, in megabytes of the
//! file a second. `bench/layers` runs them beside the same work in Rust. With the words
//! `items NUMBER ROUNDS` that many items without a row are made, claimed, published and read, and the
//! nanoseconds an item of the best round are printed. Stands on the crates that it measures.
#![tactic(auto)]

mod bench;
mod consolidations;
mod dictionaries;
mod filtering;
mod grouping;
mod items;
mod joining;
mod lexing;
mod patterns;
mod rows;
mod tokens;

use anyhow::{Context, Result, bail};
use aql_regex_extract::{Searcher, WholeSearcher, compile_pattern};
use bench::{Mode, run};
use consolidations::{SpanRows, Work, nested};
use dict_match::DictScratch;
use dictionaries::{Dictionary, entries, first_line, pass_of};
use filtering::{Cond, DocRows, Filter, tables_of};
use grouping::{FirstRows, Groups, Keep, numbered};
use items::EmptyItems;
use joining::{Joins, Pairs, Sides, Test};
use lexing::Lexing;
use patterns::{Matches, Runs};
use rows::{Order, RowPairs, pairs};
use scalar_ops::Tools;
use span_sets::Policy;
use span_token::{Document, OwnedList, OwnedText, Span, tokens_of_text};
use std::alloc::Global;
use std::io::Eprint;
use std::rt::{Clock, Files};
use std::{env, fs};
use tokens::{Tokens, documents};

/// A bench: what it measures.
#[derive(Clone, Copy)]
enum Kind {
    /// Documents with their tokens.
    Tokens,
    /// The successive matches of a pattern.
    Pattern(&'static str),
    /// The runs of 1 to 4 tokens of a pattern.
    TokenRuns(&'static str),
    /// Rows of two spans, made in an order, sorted and walked.
    Rows(Order),
    /// A dictionary of so many entries, over documents with their tokens.
    Dictionary(usize),
    /// A dictionary whose one entry is the first line, over documents with their tokens.
    LineDictionary,
    /// Rows of one span that nest and overlap, made and worked on.
    SpanRows(Work),
    /// Rows in so many groups, with the number and the sum of each.
    Groups(usize),
    /// Rows copied, and sorted or the first of them kept.
    FirstRows(Keep),
    /// Rows of one span on two sides, joined.
    Joins(Test, Pairs),
    /// Rows of a span and two numbers, filtered.
    Filter(Cond),
    /// The tokens of a program text.
    ProgramTokens,
}

/// The benches with their names.
const BENCHES: [(&str, Kind); 43] = [
    ("tokens", Kind::Tokens),
    ("digits", Kind::Pattern("[0-9]+")),
    ("dates", Kind::Pattern(r"\b\d{4}-\d{2}-\d{2}\b")),
    (
        "addresses",
        Kind::Pattern(r"[A-Za-z0-9._%+-]+@[A-Za-z0-9.-]+\.[A-Za-z]{2,}"),
    ),
    (
        "words",
        Kind::Pattern(
            "about|after|again|below|could|every|first|found|great|house|large|never|other|place|right|small|sound|still|their|where",
        ),
    ),
    (
        "folded",
        Kind::Pattern(r"(?i)\b(meeting|agreement|contract|energy|power)\b"),
    ),
    ("names", Kind::TokenRuns("[A-Z][a-z]+( [A-Z][a-z]+)*")),
    ("nested-repeat", Kind::Pattern("(a+)+$")),
    ("twofold-choice", Kind::Pattern("(a|a)*b")),
    ("optional-letters", Kind::Pattern("(?:a?){50}a{50}")),
    ("thousand-letters", Kind::Pattern(r"\w{1000}")),
    ("rows-rising", Kind::Rows(Order::Rising)),
    ("rows-falling", Kind::Rows(Order::Falling)),
    ("rows-mixed", Kind::Rows(Order::Mixed)),
    ("dictionary-10", Kind::Dictionary(10)),
    ("dictionary-10000", Kind::Dictionary(10_000)),
    ("dictionary-line", Kind::LineDictionary),
    ("spans-made", Kind::SpanRows(Work::Nothing)),
    ("spans-sorted", Kind::SpanRows(Work::Sort)),
    (
        "contained-within",
        Kind::SpanRows(Work::Consolidate(Policy::ContainedWithin)),
    ),
    (
        "not-contained-within",
        Kind::SpanRows(Work::Consolidate(Policy::NotContainedWithin)),
    ),
    (
        "contains-but-not-equal",
        Kind::SpanRows(Work::Consolidate(Policy::ContainsButNotEqual)),
    ),
    (
        "exact-match",
        Kind::SpanRows(Work::Consolidate(Policy::ExactMatch)),
    ),
    (
        "left-to-right",
        Kind::SpanRows(Work::Consolidate(Policy::LeftToRight)),
    ),
    ("groups-10", Kind::Groups(10)),
    ("groups-1000", Kind::Groups(1000)),
    ("groups-all", Kind::Groups(usize::MAX)),
    ("rows-copied", Kind::FirstRows(Keep::Copy)),
    ("rows-sorted", Kind::FirstRows(Keep::Sort)),
    ("first-ten", Kind::FirstRows(Keep::First(10))),
    ("follows-few", Kind::Joins(Test::Follows, Pairs::Few)),
    ("follows-all", Kind::Joins(Test::Follows, Pairs::All)),
    ("follows-tok-few", Kind::Joins(Test::FollowsTok, Pairs::Few)),
    ("follows-tok-all", Kind::Joins(Test::FollowsTok, Pairs::All)),
    ("overlaps-few", Kind::Joins(Test::Overlaps, Pairs::Few)),
    ("overlaps-all", Kind::Joins(Test::Overlaps, Pairs::All)),
    ("contains-few", Kind::Joins(Test::Contains, Pairs::Few)),
    ("contains-all", Kind::Joins(Test::Contains, Pairs::All)),
    ("equal-numbers", Kind::Filter(Cond::EqualNumbers)),
    ("long-spans", Kind::Filter(Cond::LongSpan)),
    ("digit-spans", Kind::Filter(Cond::DigitSpan)),
    ("dictionary-behind", Kind::Filter(Cond::DictBehind)),
    ("program-tokens", Kind::ProgramTokens),
];

/// The text of the rounds with no words.
const TEXT: &str = "create view Ann as extract regex /[0-9]+/ on d.text as n from Document d;
output view Ann;
-- Bo Li met zoë after the Meeting at bo@example.org on 2024-05-17, 12:30
";

/// Runs one bench over `text`.
fn run_kind<R: Eprint + Print + Clock + AllocGlobal>(
    rt: &R,
    mode: Mode,
    name: &str,
    kind: Kind,
    text: &str,
) -> Result<()> {
    let alloc = rt.alloc();
    match kind {
        Kind::Tokens => run(rt, mode, name, &mut Tokens { alloc, text }),
        Kind::Pattern(pattern) => run_matches(rt, mode, name, pattern, text),
        Kind::TokenRuns(pattern) => run_runs(rt, mode, name, pattern, text),
        Kind::Rows(order) => run_rows(rt, mode, name, order, text),
        Kind::Dictionary(number) => {
            let docs = documents(rt.alloc(), text)?;
            let entries = entries(rt.alloc(), docs.as_slice(), number)?;
            run_dictionary(rt, mode, name, entries, text)
        }
        Kind::LineDictionary => {
            run_dictionary(rt, mode, name, first_line(rt.alloc(), text)?, text)
        }
        Kind::SpanRows(work) => run_span_rows(rt, mode, name, work, text),
        Kind::Groups(number) => run_groups(rt, mode, name, number, text),
        Kind::FirstRows(keep) => run_first_rows(rt, mode, name, keep, text),
        Kind::Joins(test, pairs) => run_joins(rt, mode, name, test, pairs, text),
        Kind::Filter(cond) => run_filter(rt, mode, name, cond, text),
        Kind::ProgramTokens => run(rt, mode, name, &mut Lexing { alloc, text }),
    }
}

fn run_matches<R: Eprint + Print + Clock + AllocGlobal>(
    rt: &R,
    mode: Mode,
    name: &str,
    pattern: &str,
    text: &str,
) -> Result<()> {
    let alloc = rt.alloc();
    let Ok(pattern) = compile_pattern(alloc, pattern) else {
        bail!("{name}: no pattern");
    };
    let docs = documents(alloc, text)?;
    let searcher = Searcher::new(alloc, &pattern)?;
    run(
        rt,
        mode,
        name,
        &mut Matches {
            searcher,
            docs: docs.as_slice(),
            found: Vec::new(alloc),
        },
    )
}

fn run_runs<R: Eprint + Print + Clock + AllocGlobal>(
    rt: &R,
    mode: Mode,
    name: &str,
    pattern: &str,
    text: &str,
) -> Result<()> {
    let alloc = rt.alloc();
    let Ok(pattern) = compile_pattern(alloc, pattern) else {
        bail!("{name}: no pattern");
    };
    let docs = documents(alloc, text)?;
    let searcher = WholeSearcher::new(alloc, &pattern)?;
    run(
        rt,
        mode,
        name,
        &mut Runs {
            searcher,
            docs: docs.as_slice(),
            found: Vec::new(alloc),
        },
    )
}

/// The tokens of a text that isn't too long for a document.
fn spans_of(alloc: Global, name: &str, text: &str) -> Result<Vec<Span>> {
    if text.len() > tokens::LIMIT {
        bail!("{name}: the file is too long");
    }
    let spans = tokens_of_text(alloc, text)?;
    Ok(spans)
}

fn run_rows<R: Eprint + Print + Clock + AllocGlobal>(
    rt: &R,
    mode: Mode,
    name: &str,
    order: Order,
    text: &str,
) -> Result<()> {
    let alloc = rt.alloc();
    let spans = spans_of(alloc, name, text)?;
    let pairs = pairs(alloc, spans.as_slice(), order)?;
    run(rt, mode, name, &mut RowPairs { alloc, pairs })
}

fn run_dictionary<R: Eprint + Print + Clock + AllocGlobal>(
    rt: &R,
    mode: Mode,
    name: &str,
    entries: OwnedList<OwnedText>,
    text: &str,
) -> Result<()> {
    let alloc = rt.alloc();
    let pass = pass_of(alloc, entries)?;
    let scratch = DictScratch::new(alloc);
    let found = Vec::new(alloc);
    let mut bench = Dictionary {
        alloc,
        text,
        pass,
        scratch,
        found,
    };
    run(rt, mode, name, &mut bench)
}

fn run_span_rows<R: Eprint + Print + Clock + AllocGlobal>(
    rt: &R,
    mode: Mode,
    name: &str,
    work: Work,
    text: &str,
) -> Result<()> {
    let alloc = rt.alloc();
    let tokens = spans_of(alloc, name, text)?;
    let spans = nested(alloc, tokens.as_slice())?;
    run(rt, mode, name, &mut SpanRows { alloc, spans, work })
}

fn run_groups<R: Eprint + Print + Clock + AllocGlobal>(
    rt: &R,
    mode: Mode,
    name: &str,
    number: usize,
    text: &str,
) -> Result<()> {
    let alloc = rt.alloc();
    let spans = spans_of(alloc, name, text)?;
    let rows = numbered(alloc, spans.as_slice(), number, false)?;
    run(rt, mode, name, &mut Groups { alloc, rows })
}

fn run_first_rows<R: Eprint + Print + Clock + AllocGlobal>(
    rt: &R,
    mode: Mode,
    name: &str,
    keep: Keep,
    text: &str,
) -> Result<()> {
    let alloc = rt.alloc();
    let spans = spans_of(alloc, name, text)?;
    let rows = numbered(alloc, spans.as_slice(), 1000, true)?;
    run(rt, mode, name, &mut FirstRows { alloc, rows, keep })
}

fn run_joins<R: Eprint + Print + Clock + AllocGlobal>(
    rt: &R,
    mode: Mode,
    name: &str,
    test: Test,
    pairs: Pairs,
    text: &str,
) -> Result<()> {
    let alloc = rt.alloc();
    if text.len() > tokens::LIMIT {
        bail!("{name}: the file is too long");
    }
    let doc = Document::new(alloc, text, None)?;
    let wide = match test {
        Test::Follows | Test::FollowsTok => false,
        Test::Overlaps | Test::Contains => true,
    };
    let sides = Sides::new(alloc, doc, pairs, wide)?;
    let mut bench = Joins {
        alloc,
        sides,
        pairs,
        test,
    };
    run(rt, mode, name, &mut bench)
}

fn run_filter<R: Eprint + Print + Clock + AllocGlobal>(
    rt: &R,
    mode: Mode,
    name: &str,
    cond: Cond,
    text: &str,
) -> Result<()> {
    let alloc = rt.alloc();
    if text.len() > tokens::LIMIT {
        bail!("{name}: the file is too long");
    }
    let Ok(pattern) = compile_pattern(alloc, "[0-9]+") else {
        bail!("{name}: no pattern");
    };
    let docs = documents(alloc, text)?;
    let entries = entries(alloc, docs.as_slice(), 100)?;
    let tables = tables_of(alloc, pattern, entries)?;
    let both = DocRows::new(alloc, Document::new(alloc, text, None)?)?;
    let tools = Tools::new(alloc, &tables)?;
    run(
        rt,
        mode,
        name,
        &mut Filter {
            alloc,
            tools,
            both,
            cond,
        },
    )
}

/// Each bench once over the short text, and over a thousand items.
fn run_all<R: Eprint + Print + Clock + AllocGlobal>(rt: &R) -> Result<()> {
    for (name, kind) in BENCHES {
        run_kind(rt, Mode::Told, name, kind, TEXT)?;
    }
    let (_, read) = EmptyItems::new(rt.alloc(), 1000)?.timed(rt)?;
    println!(rt; "items {read}")?;
    Ok(())
}

/// The bench that `name` names, over the file, or over so many items, so many times.
fn run_named<R: Eprint + Print + Clock + Files + AllocGlobal>(
    rt: &R,
    name: &str,
    file: &str,
    rounds: &str,
) -> Result<()> {
    if name == "items" {
        return run_items(rt, file, rounds);
    }
    let Some((_, kind)) = BENCHES.iter().find(|bench| bench.0 == name) else {
        bail!("no bench has the name {name}");
    };
    let rounds = rounds.parse::<u32>().context("the number of rounds")?;
    let text = fs::read_to_string(rt, file).context("the file")?;
    run_kind(
        rt,
        Mode::Timed {
            rounds,
            bytes: text.len(),
        },
        name,
        *kind,
        text.as_str(),
    )
}

/// So many items, so many times.
fn run_items<R: Eprint + Clock + AllocGlobal>(rt: &R, number: &str, rounds: &str) -> Result<()> {
    let number = number.parse::<u32>().context("the number of items")?;
    let rounds = rounds.parse::<u32>().context("the number of rounds")?;
    let (best, read) = EmptyItems::new(rt.alloc(), number)?.best_of(rt, rounds)?;
    let each = best.as_nanos() / u128::from(number.max(1));
    let micros = best.as_micros();
    eprintln!(rt; "items: {each} ns an item, best of {rounds}, {micros} us, {read} read")?;
    Ok(())
}

fn main(rt: HostRuntime) -> Result<()> {
    let words = env::args(&rt)?.skip(1).collect::<Vec<String>>(rt.alloc())?;
    match words.as_slice() {
        [] => run_all(&rt),
        [name, file, rounds] => run_named(&rt, name.as_str(), file.as_str(), rounds.as_str()),
        _ => bail!("usage: aql_bench [NAME FILE ROUNDS | items NUMBER ROUNDS]"),
    }
}
