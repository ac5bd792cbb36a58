ghost use Rattle.std.specs.Prelude.{◌≡◌, ◌<◌, ◌^◌, length, IfOk};
ghost use Rattle.algebra.specs.Items.{item_count};
ghost use Rattle.worker_pool.specs.Evaluations.{IsEvaluation};

use crate::gates::{Counted, Overlap};
use crate::plans::{joined, numbers};
use algebra::Plan;
use span_token::{Document, OutOfMemory};
use std::alloc::Global;
use std::process::Abort;
use std::test::Fail;
use std::thread::Threads;
use worker_pool::{Crew, Finished, Gate, Open, evaluate};

/// The plan on the documents, by so many workers, at least one.
pub(crate) fn evaluated<'d, R: Threads + Sync, G: Gate>(
    rt: &R,
    alloc: Global,
    plan: &'d Plan,
    docs: &'d [Document<'d>],
    workers: u32,
    gate: &G,
) -> Result<Finished<'d>, OutOfMemory>
    ensures done { IfOk result (IsEvaluation plan.now docs.now) }
    ensures few { IfOk result (λ _. item_count plan.now docs.now < 2 ^ 32) }
{
    let Some(items) = docs.len().checked_mul(plan.nodes().len() as usize) else {
        return Err(OutOfMemory);
    };
    if items >= 1 << 32 || workers == 0 {
        return Err(OutOfMemory);
    }
    let mut crew = Crew::new(alloc, plan, workers)?;
    evaluate(rt, alloc, plan, docs, &mut crew, gate)
}

/// The numbers of rows of the first output, document by document.
fn counts(alloc: Global, finished: Finished<'_>) -> Result<Vec<u32>, OutOfMemory> {
    let mut all = Vec::new(alloc);
    for rows in &finished.into_rows().docs {
        for list in rows {
            all.push(list.len())?;
        }
    }
    Ok(all)
}

/// Documents of these texts, none of which is long.
pub(crate) fn documents<'d>(
    alloc: Global,
    texts: &[&'d str],
) -> Result<Vec<Document<'d>>, OutOfMemory> {
    let mut docs = Vec::new(alloc);
    for text in texts {
        if text.len() > 100 {
            return Err(OutOfMemory);
        }
        docs.push(Document::new(alloc, text, None)?)?;
    }
    Ok(docs)
}

/// Texts with and without numbers and letters z.
const TEXTS: [&str; 9] = [
    "1 22 333",
    "",
    "none",
    "z 4",
    "z z 5 6",
    "7",
    "8 9 z",
    "zzz",
    "10 11 12 13",
];

/// Whether the plan's one output has so many rows on each document, by so many workers.
fn has_rows<'d, R: Threads + Sync>(
    rt: &R,
    alloc: Global,
    plan: &'d Plan,
    docs: &'d [Document<'d>],
    workers: u32,
    wanted: &[u32],
) -> Result<bool, OutOfMemory> {
    let finished = evaluated(rt, alloc, plan, docs, workers, &Open)?;
    let found = counts(alloc, finished)?;
    Ok(found.as_slice() == wanted)
}

/// How many numbers stand in each text, and how many pairs of a letter z and a number.
const NUMBERS: [u32; 9] = [3, 0, 0, 1, 2, 1, 2, 0, 4];

const PAIRS: [u32; 9] = [0, 0, 0, 1, 4, 0, 2, 0, 0];

/// Checks that the plan's one output has so many rows on each of the texts, by each number of workers.
fn expect_rows<R: Threads + Sync + Abort>(
    rt: &R,
    alloc: Global,
    plan: &Plan,
    wanted: &[u32],
) -> Result<(), OutOfMemory> {
    let docs = documents(alloc, &TEXTS)?;
    for workers in [1u32, 2, 4, 16] {
        assert!(rt;
            has_rows(rt, alloc, plan, docs.as_slice(), workers, wanted)?,
            "by {workers}"
        );
    }
    Ok(())
}

#[test]
fn every_number_of_workers_gives_the_same_rows(rt: HostRuntime) -> Result<(), Fail> {
    let plan = numbers(rt.alloc())?;
    Ok(expect_rows(&rt, rt.alloc(), &plan, &NUMBERS)?)
}

#[test]
fn every_number_of_workers_gives_the_same_pairs(rt: HostRuntime) -> Result<(), Fail> {
    let plan = joined(rt.alloc())?;
    Ok(expect_rows(&rt, rt.alloc(), &plan, &PAIRS)?)
}

#[test]
fn each_document_of_a_full_window_has_its_rows(rt: HostRuntime) -> Result<(), Fail> {
    let alloc = rt.alloc();
    let plan = numbers(alloc)?;
    let docs = documents(alloc, &["1 22"; 64])?;
    for workers in [1u32, 4, 16] {
        assert!(rt;
            has_rows(&rt, alloc, &plan, docs.as_slice(), workers, &[2; 64])?,
            "by {workers}"
        );
    }
    Ok(())
}

/// Who claimed the item, on the board.
fn claimed_by<'d>(
    finished: &Finished<'d>,
    plan: &Plan,
    docs: &[Document<'d>],
    item: u32,
) -> Option<u32>
    requires done { IsEvaluation plan.now docs.now finished.now }
    requires few { item_count plan.now docs.now < 2 ^ 32 }
{
    if (item as usize) < docs.len() * plan.nodes().len() as usize {
        finished.board().claimed(item)
    } else {
        None
    }
}

/// Whether the item is published, on the board.
pub(crate) fn is_published<'d>(
    finished: &Finished<'d>,
    plan: &Plan,
    docs: &[Document<'d>],
    item: u32,
) -> bool
    requires done { IsEvaluation plan.now docs.now finished.now }
    requires few { item_count plan.now docs.now < 2 ^ 32 }
{
    if (item as usize) < docs.len() * plan.nodes().len() as usize {
        finished.board().published(item).is_some()
    } else {
        false
    }
}

/// Whether each of the workers won the item that it began with.
fn won_their_first<'d>(
    gate: &Overlap,
    finished: &Finished<'d>,
    plan: &Plan,
    docs: &[Document<'d>],
    workers: u32,
) -> bool
    requires done { IsEvaluation plan.now docs.now finished.now }
    requires few { item_count plan.now docs.now < 2 ^ 32 }
{
    for worker in 0..workers {
        let Some(first) = gate.first(worker) else {
            return false;
        };
        if claimed_by(finished, plan, docs, first) != Some(worker) {
            return false;
        }
    }
    true
}

#[test]
fn workers_overlap_and_win_the_items_that_they_begin_with(rt: HostRuntime) -> Result<(), Fail> {
    let alloc = rt.alloc();
    let plan = numbers(alloc)?;
    let docs = documents(alloc, &["1"; 8])?;
    let gate = Overlap::new(alloc, 2)?;
    let finished = evaluated(&rt, alloc, &plan, docs.as_slice(), 2, &gate)?;
    assert!(rt; !gate.ran_out(), "no worker waits in vain");
    assert!(rt;
        won_their_first(&gate, &finished, &plan, docs.as_slice(), 2),
        "each worker won the item that it began with"
    );
    Ok(())
}

/// Whether exactly these items are published, and exactly they passed the gate.
fn are_needed<'d>(
    gate: &Counted,
    finished: &Finished<'d>,
    plan: &Plan,
    docs: &[Document<'d>],
    needed: &[bool],
) -> bool
    requires done { IsEvaluation plan.now docs.now finished.now }
    requires few { item_count plan.now docs.now < 2 ^ 32 }
{
    let mut item = 0u32;
    for wanted in needed {
        if is_published(finished, plan, docs, item) != *wanted || gate.has(item) != *wanted {
            return false;
        }
        item = item.wrapping_add(1);
    }
    true
}

#[test]
fn exactly_the_needed_items_are_evaluated(rt: HostRuntime) -> Result<(), Fail> {
    let alloc = rt.alloc();
    let plan = joined(alloc)?;
    let docs = documents(alloc, &["x 12", "z 12"])?;
    let gate = Counted::new(alloc, 10)?;
    let finished = evaluated(&rt, alloc, &plan, docs.as_slice(), 2, &gate)?;
    let needed = [true, true, false, true, true, true, true, true, true, true];
    assert!(rt;
        are_needed(&gate, &finished, &plan, docs.as_slice(), &needed),
        "all but the numbers where there is no letter"
    );
    Ok(())
}

#[test]
fn without_documents_nothing_is_evaluated(rt: HostRuntime) -> Result<(), Fail> {
    let alloc = rt.alloc();
    let plan = numbers(alloc)?;
    let gate = Counted::new(alloc, 3)?;
    let finished = evaluated(&rt, alloc, &plan, &[], 4, &gate)?;
    assert!(rt;
        finished.into_rows().docs.is_empty(),
        "no document has rows"
    );
    assert!(rt; !gate.has(0), "no item is evaluated");
    Ok(())
}
