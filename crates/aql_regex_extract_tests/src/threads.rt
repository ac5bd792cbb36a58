use aql_regex_extract::{
    Pattern, Searcher, Sought, SoughtRuns, WholeSearcher, compile_pattern, has_match,
};
use span_token::{Document, Span};
use std::alloc::Global;
use std::process::Abort;
use std::test::Fail;
use std::thread::{self, Threads};

/// A text, and whether the pattern was found in it.
#[derive(Drop)]
struct Trial<'t> {
    text: &'t str,
    found: bool,
}

fn try_in_threads<R: Threads + Sync>(
    rt: &R,
    alloc: Global,
    pattern: &Pattern,
    trials: &mut [Trial<'_>],
) {
    thread::for_each_mut(
        rt,
        trials,
        4,
        &|_, trial: &mut Trial<'_>| {
            trial.found = matches!(has_match(alloc, pattern, trial.text), Ok(true));
        },
    );
}

/// Trials of the texts.
fn trials_of<'t>(alloc: Global, texts: &[&'t str]) -> Result<Vec<Trial<'t>>, Fail> {
    let mut trials = Vec::new(alloc);
    for text in texts {
        trials.push(Trial {
            text: *text,
            found: false,
        })?;
    }
    Ok(trials)
}

#[test]
fn several_threads_search_with_one_pattern(rt: HostRuntime) -> Result<(), Fail> {
    let alloc = rt.alloc();
    let pattern = compile_pattern(alloc, "[0-9]{3}")?;
    let mut trials = trials_of(alloc, &["call 555", "no digits", "12 345", "12"])?;
    try_in_threads(&rt, alloc, &pattern, &mut trials);
    assert!(rt; trials.len() == 4);
    for (trial, want) in trials.iter().zip([true, false, true, false]) {
        assert_eq!(rt; trial.found, want);
    }
    Ok(())
}

/// What a worker keeps from call to call: its searchers, and where it puts what they find.
#[derive(Drop)]
struct Worker<'p> {
    searcher: Searcher<'p>,
    whole: WholeSearcher<'p>,
    found: Vec<Option<Span>>,
    matches: usize,
    runs: usize,
}

fn search_in_threads<R: Threads + Sync>(rt: &R, doc: &Document<'_>, workers: &mut [Worker<'_>]) {
    thread::for_each_mut(
        rt,
        workers,
        2,
        &|_, worker: &mut Worker<'_>| {
            worker.found.clear();
            let source = doc.whole();
            let all = Sought {
                doc,
                source,
                groups: &[0],
            };
            if let Ok(number) = worker.searcher.append_matches(&all, &mut worker.found) {
                worker.matches = number;
            }
            let runs = SoughtRuns {
                doc,
                source,
                low: 1,
                high: 2,
                groups: &[0],
            };
            if let Ok(number) = worker.whole.append_token_runs(&runs, &mut worker.found) {
                worker.runs = number;
            }
        },
    );
}

fn patterns_of(alloc: Global, texts: &[&str]) -> Result<Vec<Pattern>, Fail> {
    let mut patterns = Vec::new(alloc);
    for text in texts {
        patterns.push(compile_pattern(alloc, text)?)?;
    }
    Ok(patterns)
}

/// A worker that has found nothing yet.
fn worker_of<'p>(alloc: Global, pattern: &'p Pattern) -> Result<Worker<'p>, Fail> {
    let searcher = Searcher::new(alloc, pattern)?;
    Ok(Worker {
        searcher,
        whole: WholeSearcher::new(alloc, pattern)?,
        found: Vec::new(alloc),
        matches: 0,
        runs: 0,
    })
}

/// A worker for each pattern.
fn workers_of<'p>(alloc: Global, patterns: &'p [Pattern]) -> Result<Vec<Worker<'p>>, Fail> {
    let mut workers = Vec::new(alloc);
    for pattern in patterns {
        workers.push(worker_of(alloc, pattern)?)?;
    }
    Ok(workers)
}

/// The workers find so many matches in the document.
fn finds_in_threads<R: Abort + Threads + Sync>(
    rt: &R,
    doc: &Document<'_>,
    workers: &mut [Worker<'_>],
    want: [usize; 2],
) {
    search_in_threads(rt, doc, workers);
    assert!(rt; workers.len() == 2);
    for (worker, number) in workers.iter().zip(want) {
        assert_eq!(rt; worker.matches, number, "matches in {:?}", doc.text());
    }
}

#[test]
fn workers_keep_their_searchers_from_call_to_call(rt: HostRuntime) -> Result<(), Fail> {
    let alloc = rt.alloc();
    let patterns = patterns_of(alloc, &[r"[0-9]+", r"[a-z]+"])?;
    let mut workers = workers_of(alloc, &patterns)?;
    for (text, want) in [("a 12 bc 3", [2, 2]), ("é 7x", [1, 1])] {
        finds_in_threads(&rt, &Document::new(alloc, text, None)?, &mut workers, want);
    }
    Ok(())
}
