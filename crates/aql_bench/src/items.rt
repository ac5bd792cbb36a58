//! Items without a row: made, claimed, published and read on one thread.
ghost use Rattle.std.specs.Prelude.{◌≡◌, ◌<◌, ◌≤◌, ◌*◌, ◌^◌, length, IfOk};
ghost use Rattle.run_tables.specs.Seats.{SitsAt};
ghost use Rattle.aql_bench.specs.EmptyPlans.{IsEmptyPlan};

use algebra::{Node, Nodes, Plan, PlanOut};
use anyhow::{Result, bail};
use row_values::{Output, Rows};
use run_tables::{ClaimSeat, Claims, Published, Results, Work};
use scalar_ops::Tables;
use span_token::{Document, OutOfMemory, OwnedList, OwnedText};
use std::alloc::Global;
use std::marker::Brand;
use std::rt::Clock;
use std::time::{Duration, Instant};

/// An item for each of so many documents, which comes to no row.
#[derive(Drop)]
pub(crate) struct EmptyItems<'t> {
    pub alloc: Global,
    pub docs: Vec<Document<'t>>,
}

impl EmptyItems<'_> {
    /// So many empty documents.
    pub(crate) fn new(alloc: Global, number: u32) -> Result<EmptyItems<'static>, OutOfMemory> {
        let mut docs = Vec::new(alloc);
        for _ in 0..number {
            docs.push(Document::new(alloc, "", None)?)?;
        }
        Ok(EmptyItems { alloc, docs })
    }

    /// The time in which the items are made, claimed, published and read, and how many results were read.
    pub(crate) fn timed<R: Clock>(&self, clock: &R) -> Result<(Duration, u64)> {
        if self.docs.is_empty() || self.docs.len() >= 1 << 31 {
            bail!("items: from 1 to 2,147,483,647 of them");
        }
        let plan = empty_plan(self.alloc)?;
        worked_off::<Brand, R>(clock, self.alloc, &plan, self.docs.as_slice())
    }

    /// The best time of so many rounds, at least one, and how many results the last one read.
    pub(crate) fn best_of<R: Clock>(&self, clock: &R, rounds: u32) -> Result<(Duration, u64)> {
        let (mut best, mut read) = self.timed(clock)?;
        for _ in 1..rounds {
            let (took, next) = self.timed(clock)?;
            best = best.min(took);
            read = next;
        }
        Ok((best, read))
    }
}

/// The plan of the document, and of the matches of a pattern that isn't there, which are an output.
fn empty_plan(alloc: Global) -> Result<Plan, OutOfMemory>
    ensures { IfOk result IsEmptyPlan }
{
    let mut nodes = Nodes::new(alloc);
    nodes.add(Node::Doc)?;
    let node = nodes.add(Node::Regex {
        input: 0,
        column: 0,
        pattern: 0,
        groups: OwnedList::new(alloc),
    })?;
    let tables = Tables::new(alloc, Vec::new(alloc), &[])?;
    let mut columns = OwnedList::new(alloc);
    columns.push(OwnedText::copied(alloc, "span")?)?;
    let names = Output::new(OwnedText::copied(alloc, "V")?, columns)?;
    let mut outputs = Vec::new(alloc);
    outputs.push(PlanOut { names, node })?;
    Ok(Plan::new(nodes, tables, outputs))
}

/// Claims and publishes the item of the matches on each document, and reads how many results there are; what
/// was made is freed behind the time that is told.
fn worked_off<'d, W: Work, R: Clock>(
    clock: &R,
    alloc: Global,
    plan: &Plan,
    docs: &[Document<'d>],
) -> Result<(Duration, u64)>
    requires work { (plan.now ≡ W.plan) × (docs.now ≡ W.docs) }
    requires empty { IsEmptyPlan W.plan }
    requires some { 0 < length W.docs }
    requires few { length W.docs * 2 < 2 ^ 32 }
{
    let start = Instant::now(clock)?;
    let number = docs.len() as u32;
    let (claims, mut seats) = Claims::new(alloc, number * 2, 1)?;
    let results: Results<'d, W> = Results::new(alloc, plan, docs)?;
    let Some(mut seat) = seats.pop() else {
        bail!("items: no seat");
    };
    work_all(alloc, &claims, &mut seat, &results, number)?;
    let read = results_read(&results, number);
    Ok((start.elapsed(clock)?, read))
}

/// Claims the items of the matches on so many documents, one after the other, and publishes their results.
fn work_all<'d, W: Work>(
    alloc: Global,
    claims: &Claims,
    seat: &mut ClaimSeat,
    results: &Results<'d, W>,
    number: u32,
) -> Result<(), OutOfMemory>
    requires empty { IsEmptyPlan W.plan }
    requires there { number ≤ length W.docs }
    requires few { length W.docs * 2 < 2 ^ 32 }
    requires items { claims.now.sizes.items ≡ length W.docs * 2 }
    requires cells { length results.now ≡ length W.docs * 2 }
    requires sits { SitsAt claims.now.table seat.old }
    ensures sits { SitsAt claims.now.table seat.new }
{
    for d in 0..number {
        work_off(alloc, claims, seat, results, d)?;
    }
    Ok(())
}

/// Claims the item of the matches on document `d`, and publishes its result.
fn work_off<'d, W: Work>(
    alloc: Global,
    claims: &Claims,
    seat: &mut ClaimSeat,
    results: &Results<'d, W>,
    d: u32,
) -> Result<(), OutOfMemory>
    requires empty { IsEmptyPlan W.plan }
    requires there { d < length W.docs }
    requires few { length W.docs * 2 < 2 ^ 32 }
    requires items { claims.now.sizes.items ≡ length W.docs * 2 }
    requires cells { length results.now ≡ length W.docs * 2 }
    requires sits { SitsAt claims.now.table seat.old }
    ensures sits { SitsAt claims.now.table seat.new }
{
    let item = d * 2 + 1;
    if claims.claim(seat, item) {
        let found = Published::new(alloc, item, Rows::new(alloc, 1))?;
        let mut watch = results.watch(item);
        let _ = results.publish(&mut watch, found);
    }
    Ok(())
}

/// How many of the items of the matches on so many documents are seen to have a result without a row.
fn results_read<W: Work>(results: &Results<'_, W>, number: u32) -> u64
    requires few { number * 2 < 2 ^ 32 }
    requires cells { length results.now ≡ number * 2 }
{
    let mut read = 0u64;
    for d in 0..number {
        let mut watch = results.watch(d * 2 + 1);
        match results.look(&mut watch) {
            Some(found) if found.rows().len() == 0 => read = read.wrapping_add(1),
            _ => {}
        }
    }
    read
}
