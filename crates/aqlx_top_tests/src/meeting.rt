//! Workers answer documents at the same time, and what they have done is written meanwhile: pools whose parts wait.
use crate::setup::{
    DIGITS, NO_MATCH, NUMBERS, Setup, call, comes_by, repeated, sink_of, source_of, usual,
};
use crate::streaming::Shown;
use algebra::Plan;
use corpus_json::Layout;
use row_values::Rows;
use run_pool::{Answered, Pool};
use span_token::{Document, OutOfMemory};
use std::alloc::Global;
use std::sync::atomic::Ordering::SeqCst;
use std::sync::atomic::{AtomicU64, AtomicUsize};
use std::test::Fail;

/// How often a part looks whether the others have begun.
const TURNS: u64 = 1 << 32;

/// It answers the rows that were found and keeps no list. At its first document each part waits until so many parts
/// have one.
#[derive(Drop)]
struct Meeting<'a> {
    wanted: u64,
    /// How many parts have a document.
    begun: &'a AtomicU64,
    /// How many parts waited in vain.
    in_vain: &'a AtomicU64,
    waits: bool,
}

impl Meeting<'_> {
    /// Waits until so many parts have a document.
    fn wait(&self) {
        self.begun.fetch_add(1, SeqCst);
        for _ in 0..TURNS {
            if self.begun.load(SeqCst) >= self.wanted {
                return;
            }
        }
        self.in_vain.fetch_add(1, SeqCst);
    }
}

impl<'a> Pool for Meeting<'a> {
    ghost use Rattle.std.specs.Prelude.{None};
    ghost use Rattle.run_pool.specs.Lines.{rows_by};

    ghost means = { λ _. rows_by };

    ghost told = { λ _. None };

    fn answer<'d>(
        &mut self,
        _alloc: Global,
        _plan: &Plan,
        _layout: &Layout<'_>,
        _document: &Document<'d>,
        _found: &[&Rows<'d>],
    ) -> Result<Answered<'d>, OutOfMemory> {
        if self.waits {
            self.waits = false;
            self.wait();
        }
        Ok(Answered::AsFound)
    }

    fn is_plain(&self) -> bool {
        true
    }

    fn part(&self, _alloc: Global) -> Meeting<'a> {
        Meeting {
            wanted: self.wanted,
            begun: self.begun,
            in_vain: self.in_vain,
            waits: true,
        }
    }

    fn gather(&mut self, _alloc: Global, _part: &Meeting<'a>) -> Result<(), OutOfMemory> {
        Ok(())
    }
}

/// Each row: how many workers are asked for, as a word and as a number.
const WORKERS: [(&str, u64); 3] = [("2", 2), ("4", 4), ("16", 16)];

#[test]
fn all_workers_of_a_run_have_a_document_at_the_same_time(rt: HostRuntime) -> Result<(), Fail> {
    let alloc = rt.alloc();
    // 348,000 bytes, in pieces of 16,384
    let corpus = repeated(alloc, "{\"text\":\"there is no number\"}\n", 12_000)?;
    let out = repeated(alloc, NO_MATCH, 12_000)?;
    for (workers, number) in &WORKERS {
        let begun = AtomicU64::new(0);
        let in_vain = AtomicU64::new(0);
        let words = ["run", "p.aql", "--workers", *workers];
        let setup = Setup {
            words: &words,
            piece: 1 << 20,
            out_piece: 1 << 20,
            ..usual(NUMBERS, corpus.as_str())
        };
        let mut pool = Meeting {
            wanted: *number,
            begun: &begun,
            in_vain: &in_vain,
            waits: false,
        };
        let wanted = (0, out.as_bytes(), "");
        comes_by(&rt, alloc, &setup, &mut pool, wanted, (workers, *number))?;
        assert_eq!(rt; begun.load(SeqCst), *number, "{workers} workers");
        assert_eq!(rt; in_vain.load(SeqCst), 0, "{workers} workers");
    }
    Ok(())
}

/// It answers the rows that were found and keeps no list. The part that has the first document leads: at its next one it waits
/// until another part has one. Each other part waits at its first document until something is written.
#[derive(Drop)]
struct Handing<'a> {
    /// How many bytes are written.
    length: &'a AtomicUsize,
    /// How many parts but the leading one have a document.
    others: &'a AtomicU64,
    /// How many parts waited in vain.
    in_vain: &'a AtomicU64,
    leads: bool,
    waits: bool,
}

impl Handing<'_> {
    fn wait(&self) {
        if !self.leads {
            self.others.fetch_add(1, SeqCst);
        }
        for _ in 0..TURNS {
            let goes_on = if self.leads {
                self.others.load(SeqCst) > 0
            } else {
                self.length.load(SeqCst) > 0
            };
            if goes_on {
                return;
            }
        }
        self.in_vain.fetch_add(1, SeqCst);
    }
}

impl<'a> Pool for Handing<'a> {
    ghost use Rattle.std.specs.Prelude.{None};
    ghost use Rattle.run_pool.specs.Lines.{rows_by};

    ghost means = { λ _. rows_by };

    ghost told = { λ _. None };

    fn answer<'d>(
        &mut self,
        _alloc: Global,
        _plan: &Plan,
        _layout: &Layout<'_>,
        document: &Document<'d>,
        _found: &[&Rows<'d>],
    ) -> Result<Answered<'d>, OutOfMemory> {
        if document.text().starts_with("2") {
            self.leads = true;
        } else if self.waits {
            self.waits = false;
            self.wait();
        }
        Ok(Answered::AsFound)
    }

    fn is_plain(&self) -> bool {
        true
    }

    fn part(&self, _alloc: Global) -> Handing<'a> {
        Handing {
            length: self.length,
            others: self.others,
            in_vain: self.in_vain,
            leads: false,
            waits: true,
        }
    }

    fn gather(&mut self, _alloc: Global, _part: &Handing<'a>) -> Result<(), OutOfMemory> {
        Ok(())
    }
}

#[test]
fn what_is_done_is_written_while_others_have_documents(rt: HostRuntime) -> Result<(), Fail> {
    let alloc = rt.alloc();
    // a line that writes more than may be pending, and 348,000 bytes of others
    let digits = repeated(alloc, "2", 8_000)?;
    let rest = repeated(alloc, "{\"text\":\"there is no number\"}\n", 12_000)?;
    let corpus = format!(in alloc; "{{\"text\":\"{digits}\"}}\n{rest}")?;
    for workers in &["2", "4", "16"] {
        let length = AtomicUsize::new(0);
        let others = AtomicU64::new(0);
        let in_vain = AtomicU64::new(0);
        let words = ["run", "p.aql", "--workers", *workers];
        let setup = Setup {
            words: &words,
            piece: 1 << 20,
            ..usual(DIGITS, corpus.as_str())
        };
        let mut source = source_of(alloc, &setup)?;
        let mut out = Shown {
            inner: sink_of(alloc, 1 << 22, 1 << 20, &[])?,
            length: &length,
        };
        let mut pool = Handing {
            length: &length,
            others: &others,
            in_vain: &in_vain,
            leads: false,
            waits: false,
        };
        let (code, _err) = call(&rt, alloc, &setup, &mut source, &mut out, &mut pool)?;
        assert_eq!(rt; code, 0, "{workers} workers");
        assert!(rt; others.load(SeqCst) > 0, "{workers} workers");
        assert_eq!(rt; in_vain.load(SeqCst), 0, "{workers} workers");
    }
    Ok(())
}
