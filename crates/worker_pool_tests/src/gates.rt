//! Gates that note which items are evaluated, and by whom.

use span_token::OutOfMemory;
use std::alloc::Global;
use std::sync::atomic::AtomicU64;
use std::sync::atomic::Ordering::SeqCst;
use worker_pool::Gate;

/// How often a worker looks whether the others have begun.
const TURNS: u64 = 1 << 32;

/// So many words, each 0.
fn words(alloc: Global, number: u32) -> Result<Vec<AtomicU64>, OutOfMemory> {
    let mut all = Vec::new(alloc);
    for _ in 0..number {
        all.push(AtomicU64::new(0))?;
    }
    Ok(all)
}

/// Counts how often each item is evaluated.
#[derive(Drop)]
pub(crate) struct Counted {
    passed: Vec<AtomicU64>,
}

impl Counted {
    pub(crate) fn new(alloc: Global, items: u32) -> Result<Counted, OutOfMemory> {
        Ok(Counted {
            passed: words(alloc, items)?,
        })
    }

    /// Whether the item was evaluated.
    pub(crate) fn has(&self, item: u32) -> bool {
        match self.passed.get(item as usize) {
            Some(word) => word.load(SeqCst) > 0,
            None => false,
        }
    }
}

impl Gate for Counted {
    fn pass(&self, _worker: u32, item: u32) {
        if let Some(word) = self.passed.get(item as usize) {
            word.fetch_add(1, SeqCst);
        }
    }
}

/// At its first item each worker waits until all others have one, and its first item is noted.
#[derive(Drop)]
pub(crate) struct Overlap {
    firsts: Vec<AtomicU64>,
    ran_out: AtomicU64,
}

impl Overlap {
    pub(crate) fn new(alloc: Global, workers: u32) -> Result<Overlap, OutOfMemory> {
        Ok(Overlap {
            firsts: words(alloc, workers)?,
            ran_out: AtomicU64::new(0),
        })
    }

    /// The first item of a worker.
    pub(crate) fn first(&self, worker: u32) -> Option<u32> {
        match self.firsts.get(worker as usize)?.load(SeqCst) {
            0 => None,
            word => u32::try_from(word - 1).ok(),
        }
    }

    /// Whether a worker waited in vain.
    pub(crate) fn ran_out(&self) -> bool {
        self.ran_out.load(SeqCst) > 0
    }

    /// Whether each worker has an item.
    fn all_begun(&self) -> bool {
        for first in &self.firsts {
            if first.load(SeqCst) == 0 {
                return false;
            }
        }
        true
    }

    /// Waits until each worker has an item.
    fn wait(&self) {
        for _ in 0..TURNS {
            if self.all_begun() {
                return;
            }
        }
        self.ran_out.store(1, SeqCst);
    }
}

impl Gate for Overlap {
    fn pass(&self, worker: u32, item: u32) {
        if let Some(first) = self.firsts.get(worker as usize) {
            let word = u64::from(item) + 1;
            if first.compare_exchange(0, word, SeqCst, SeqCst).is_ok() {
                self.wait();
            }
        }
    }
}
