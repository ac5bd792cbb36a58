//! The workers in their threads: seats are dealt, the documents gone over, and the claims read.

ghost use Rattle.std.specs.Prelude.{◌≡◌, ◌+◌, ◌<◌, ◌^◌, All, length, vec_len};
ghost use Rattle.std.specs.Thread.{IsSync};
ghost use Rattle.algebra.specs.Items.{item_count};
ghost use Rattle.run_tables.specs.Seats.{SitsAt};
ghost use Rattle.worker_pool.specs.Workers.{HasSeat, HaveSeats, HaveTools};

use crate::Gate;
use crate::crew::Worker;
use crate::window::{Shared, Window};
use crate::work::work;
use run_tables::{ClaimSeat, Claims, Work};
use span_token::OutOfMemory;
use std::alloc::Global;
use std::thread::{self, Threads};

/// The words of the claims on the items of a window, after all workers went over its documents in threads; no
/// word where there is one worker alone, or no item.
pub(crate) fn run<'d, W: Work + Send + Sync, R: Threads + Sync, G: Gate>(
    rt: &R,
    alloc: Global,
    window: &Window<'_, 'd, W, G>,
    workers: &mut [Worker<'_>],
) -> Result<Vec<u64>, OutOfMemory>
    requires some { 0 < length workers.old }
    requires few { length workers.old < 2 ^ 32 }
    requires tools { HaveTools W.plan.lists workers.old }
    ensures long { length workers.new ≡ length workers.old }
    ensures tools { HaveTools W.plan.lists workers.new }
{
    let items = window.items();
    if workers.len() == 1 || items == 0 {
        return Ok(Vec::new(alloc));
    }
    claimed(rt, alloc, window, workers, items)
}

/// The words of the claims on so many items, after all workers went over the documents in threads.
fn claimed<'d, W: Work + Send + Sync, R: Threads + Sync, G: Gate>(
    rt: &R,
    alloc: Global,
    window: &Window<'_, 'd, W, G>,
    workers: &mut [Worker<'_>],
    items: u32,
) -> Result<Vec<u64>, OutOfMemory>
    requires some { 0 < length workers.old }
    requires few { length workers.old < 2 ^ 32 }
    requires tools { HaveTools W.plan.lists workers.old }
    requires some_items { 0 < items }
    requires all_items { items ≡ item_count W.plan W.docs }
    ensures long { length workers.new ≡ length workers.old }
    ensures tools { HaveTools W.plan.lists workers.new }
{
    let (claims, seats) = Claims::new(alloc, items, workers.len() as u32)?;
    deal::<W>(&claims, seats, workers);
    let shared = Shared {
        window,
        claims: &claims,
    };
    work_in_threads(rt, alloc, &shared, workers);
    let seat = stand_up::<W>(&claims, workers);
    let words = claims.close(alloc, seat)?;
    Ok(words)
}

/// Gives each worker a seat.
fn deal<W: Work>(claims: &Claims, mut seats: Vec<ClaimSeat>, workers: &mut [Worker<'_>])
    requires sit { All (SitsAt claims.now.table) seats.items }
    requires enough { vec_len seats ≡ length workers.old }
    requires tools { HaveTools W.plan.lists workers.old }
    ensures long { length workers.new ≡ length workers.old }
    ensures seats { HaveSeats claims.now.table workers.new }
    ensures tools { HaveTools W.plan.lists workers.new }
{
    'each: for i in 0..workers.len() {
        let seat = next_seat(claims, &mut seats);
        workers[i].seat = Some(seat);
    }
}

/// One of the seats, of which there are some.
fn next_seat(claims: &Claims, seats: &mut Vec<ClaimSeat>) -> ClaimSeat
    requires some { 0 < vec_len seats.old }
    requires sit { All (SitsAt claims.now.table) seats.old.items }
    ensures sits { SitsAt claims.now.table result }
    ensures fewer { vec_len seats.new + 1 ≡ vec_len seats.old }
    ensures sit { All (SitsAt claims.now.table) seats.new.items }
{
    let _ = claims;
    match seats.pop() {
        Some(seat) => seat,
        None => unreachable!(),
    }
}

/// Lets all workers work, each in a thread of its own, but for the first one: it works in this thread.
fn work_in_threads<'a, 'd, W: Work + Send + Sync, R: Threads + Sync, G: Gate>(
    rt: &R,
    alloc: Global,
    shared: &Shared<'a, 'd, W, G>,
    workers: &mut [Worker<'_>],
)
    requires some { 0 < length workers.old }
    requires seats { HaveSeats shared.now.claims.now.table workers.old }
    requires tools { HaveTools W.plan.lists workers.old }
    ensures long { length workers.new ≡ length workers.old }
    ensures seats { HaveSeats shared.now.claims.now.table workers.new }
    ensures tools { HaveTools W.plan.lists workers.new }
{
    let threads = workers.len();
    let job = |number: usize, worker: &mut Worker<'_>|
        requires { IsSync G.row × HasSeat shared.now.claims.now.table worker.old × (worker.old.tools ≡ W.plan.lists) }
        ensures { HasSeat shared.entry.now.claims.now.table worker.new × (worker.new.tools ≡ W.plan.lists) }
    { work(alloc, shared, number, worker) };
    thread::for_each_mut(rt, workers, threads, &job);
}

/// Takes the seats back, joined into one that stands for all.
fn stand_up<W: Work>(claims: &Claims, workers: &mut [Worker<'_>]) -> ClaimSeat
    requires some { 0 < length workers.old }
    requires seats { HaveSeats claims.now.table workers.old }
    requires tools { HaveTools W.plan.lists workers.old }
    ensures long { length workers.new ≡ length workers.old }
    ensures seat { (result.table ≡ claims.now.table) × (result.view.parts ≡ length workers.old) }
    ensures tools { HaveTools W.plan.lists workers.new }
{
    let mut all = seat_of(claims, &mut workers[0]);
    'each: for i in 1..workers.len() {
        join_seat(claims, &mut all, &mut workers[i]);
    }
    all
}

/// Takes the seat of a worker back, and joins it into another one.
fn join_seat(claims: &Claims, all: &mut ClaimSeat, worker: &mut Worker<'_>)
    requires table { all.old.table ≡ claims.now.table }
    requires seat { HasSeat claims.now.table worker.old }
    ensures table { all.new.table ≡ claims.now.table }
    ensures parts { all.new.view.parts ≡ all.old.view.parts + 1 }
    ensures tools { worker.new.tools ≡ worker.old.tools }
{
    let seat = seat_of(claims, worker);
    claims.join(all, seat);
}

/// The seat of a worker, who has none afterwards.
fn seat_of(claims: &Claims, worker: &mut Worker<'_>) -> ClaimSeat
    requires seat { HasSeat claims.now.table worker.old }
    ensures sits { SitsAt claims.now.table result }
    ensures tools { worker.new.tools ≡ worker.old.tools }
{
    let _ = claims;
    match worker.seat.take() {
        Some(seat) => seat,
        None => unreachable!(),
    }
}
