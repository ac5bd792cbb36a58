//! What one worker does: it goes over the documents, and evaluates items that it claims.

ghost use Rattle.std.specs.Prelude.{◌≡◌, ◌<◌, IfOk, OnOk, IsSome, IsSomeAnd, length};
ghost use Rattle.run_tables.specs.Seats.{SitsAt};
ghost use Rattle.worker_pool.specs.Pages.{known_at, AreWaiting, IsAlwaysWanted, IsBlank, IsNext, IsPage, IsResultOf};
ghost use Rattle.worker_pool.specs.Workers.{HasSeat};

use crate::Gate;
use crate::crew::Worker;
use crate::page::has;
use crate::results::{computed, published, seen};
use crate::walk::{Walk, next_node};
use crate::window::Shared;
use run_tables::{ClaimSeat, Claims, Published, Work};
use span_token::OutOfMemory;
use std::alloc::Global;

/// Goes once over the documents of the window, each worker from another one on, and evaluates what is needed
/// on those that nobody took up. What a worker can't do for want of memory is left to who comes after it.
pub(crate) fn work<'a, 'd, W: Work, G: Gate>(
    alloc: Global,
    shared: &Shared<'a, 'd, W, G>,
    number: usize,
    worker: &mut Worker<'_>,
)
    requires seat { HasSeat shared.now.claims.now.table worker.old }
    requires tools { worker.old.tools ≡ W.plan.lists }
    ensures seat { HasSeat shared.now.claims.now.table worker.new }
    ensures tools { worker.new.tools ≡ W.plan.lists }
{
    let docs = shared.window.documents();
    if docs == 0 {
        return;
    }
    let mut walk = Walk::new(alloc);
    let mut d = number % docs;
    'docs: for _ in 0..docs {
        if work_on(alloc, shared, worker, &mut walk, d).is_err() {
            return;
        }
        d += 1;
        if d == docs {
            d = 0;
        }
    }
}

/// Evaluates what is needed on document `d`, unless somebody took it up.
fn work_on<'a, 'd, W: Work, G: Gate>(
    alloc: Global,
    shared: &Shared<'a, 'd, W, G>,
    worker: &mut Worker<'_>,
    walk: &mut Walk<'d, W>,
    d: usize,
) -> Result<(), OutOfMemory>
    requires there { d < length W.docs }
    requires seat { HasSeat shared.now.claims.now.table worker.old }
    requires tools { worker.old.tools ≡ W.plan.lists }
    ensures seat { HasSeat shared.now.claims.now.table worker.new }
    ensures tools { worker.new.tools ≡ W.plan.lists }
{
    let window = shared.window;
    if window.outputs() == 0 {
        return Ok(());
    }
    walk.begin(window, d)?;
    if is_taken_up(shared, worker, walk)? {
        return Ok(());
    }
    'outputs: for i in 0..window.outputs() {
        reach(alloc, shared, worker, walk, window.output(i))?;
    }
    Ok(())
}

/// Whether the first item that the walk comes to is claimed.
fn is_taken_up<'a, 'd, W: Work, G: Gate>(
    shared: &Shared<'a, 'd, W, G>,
    worker: &mut Worker<'_>,
    walk: &mut Walk<'d, W>,
) -> Result<bool, OutOfMemory>
    requires some { 0 < length W.plan.outputs }
    requires page { IsPage W.plan W.docs walk.old.d walk.old.page.items }
    requires blank { IsBlank walk.old.page.items }
    requires path { AreWaiting W.plan walk.old.page.items walk.old.path.items }
    requires seat { HasSeat shared.now.claims.now.table worker.old }
    requires tools { worker.old.tools ≡ W.plan.lists }
    ensures page { IsPage W.plan W.docs walk.new.d walk.new.page.items }
    ensures path { AreWaiting W.plan walk.new.page.items walk.new.path.items }
    ensures seat { HasSeat shared.now.claims.now.table worker.new }
    ensures tools { worker.new.tools ≡ W.plan.lists }
{
    let window = shared.window;
    let out = window.output(0);
    let n = next_node(window, &walk.page, &mut walk.path, out)?;
    let item = window.item(walk.d, n);
    Ok(taken(shared.claims, &mut worker.seat, item))
}

/// Makes node `out` known, and before it what it asks for.
fn reach<'a, 'd, W: Work, G: Gate>(
    alloc: Global,
    shared: &Shared<'a, 'd, W, G>,
    worker: &mut Worker<'_>,
    walk: &mut Walk<'d, W>,
    out: u32,
) -> Result<(), OutOfMemory>
    requires page { IsPage W.plan W.docs walk.old.d walk.old.page.items }
    requires path { AreWaiting W.plan walk.old.page.items walk.old.path.items }
    requires there { out < length W.plan.nodes }
    requires wanted { IsAlwaysWanted W.plan out }
    requires seat { HasSeat shared.now.claims.now.table worker.old }
    requires tools { worker.old.tools ≡ W.plan.lists }
    ensures page { IsPage W.plan W.docs walk.new.d walk.new.page.items }
    ensures path { AreWaiting W.plan walk.new.page.items walk.new.path.items }
    ensures known { OnOk result (IsSome (known_at walk.new.page.items out)) }
    ensures seat { HasSeat shared.now.claims.now.table worker.new }
    ensures tools { worker.new.tools ≡ W.plan.lists }
{
    'nodes: while !has(&walk.page, out) {
        let n = next_node(shared.window, &walk.page, &mut walk.path, out)?;
        let found = item_result(alloc, shared, worker, walk, n)?;
        walk.put(n, found);
    }
    Ok(())
}

/// The result of node `n`: the one that its cell is seen to hold, or what it comes to. The worker claims the
/// item, and where another one did and no result is seen, it helps.
fn item_result<'a, 'd, W: Work, G: Gate>(
    alloc: Global,
    shared: &Shared<'a, 'd, W, G>,
    worker: &mut Worker<'_>,
    walk: &Walk<'d, W>,
    n: u32,
) -> Result<Published<'d, W>, OutOfMemory>
    requires page { IsPage W.plan W.docs walk.now.d walk.now.page.items }
    requires next { IsNext W.plan walk.now.page.items n }
    requires seat { HasSeat shared.now.claims.now.table worker.old }
    requires tools { worker.old.tools ≡ W.plan.lists }
    ensures result { IfOk result (IsResultOf W.plan W.docs walk.now.d n) }
    ensures seat { HasSeat shared.now.claims.now.table worker.new }
    ensures tools { worker.new.tools ≡ W.plan.lists }
{
    let window = shared.window;
    let item = window.item(walk.d, n);
    let mut watch = window.results.watch(item);
    if let Some(found) = seen(window.results, &mut watch)? {
        return Ok(found);
    }
    let (won, number) = claim(shared.claims, &mut worker.seat, item);
    if !won {
        if let Some(found) = seen(window.results, &mut watch)? {
            return Ok(found);
        }
    }
    window.gate.pass(number, item);
    let found = computed(alloc, window, &mut worker.tools, walk.d, &walk.page, n)?;
    published(window.results, &mut watch, found)
}

/// Whether the seat wins the item, and the seat's number.
fn claim(claims: &Claims, seat: &mut Option<ClaimSeat>, item: u32) -> (bool, u32)
    requires in_range { item < claims.now.sizes.items }
    requires sits { IsSomeAnd seat.old (SitsAt claims.now.table) }
    ensures sits { IsSomeAnd seat.new (SitsAt claims.now.table) }
{
    match seat {
        Some(seat) => (claims.claim(seat, item), seat.number()),
        None => unreachable!(),
    }
}

/// Whether the seat finds the item claimed.
fn taken(claims: &Claims, seat: &mut Option<ClaimSeat>, item: u32) -> bool
    requires in_range { item < claims.now.sizes.items }
    requires sits { IsSomeAnd seat.old (SitsAt claims.now.table) }
    ensures sits { IsSomeAnd seat.new (SitsAt claims.now.table) }
{
    match seat {
        Some(seat) => claims.taken(seat, item),
        None => unreachable!(),
    }
}
