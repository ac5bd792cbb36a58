//! What is done when all workers are through: the board is filled, document by document, by legal events,
//! with the results that the workers published, and what is missing is computed.

ghost use Rattle.std.specs.Prelude.{◌≡◌, ◌+◌, ◌<◌, Some, None, IfOk, OnOk, IsSome, length, map, take};
ghost use Rattle.std.specs.List.{AllZip};
ghost use Rattle.std.specs.Arc.{arc_value};
ghost use Rattle.algebra.specs.Items.{item_at};
ghost use Rattle.run_core.specs.Boards.{standing};
ghost use Rattle.run_core.specs.Events.{MayClaim};
ghost use Rattle.run_core.specs.Promises.{IsValueAt};
ghost use Rattle.worker_pool.specs.Evaluations.{AreAnswers, IsEvaluation};
ghost use Rattle.worker_pool.specs.Filling.{HasPut, IsAnswerOn, IsFilledTo, IsFilling};
ghost use Rattle.worker_pool.specs.Pages.{known_at, rows_on, unknown_count, AreKnown, AreWaiting, IsAlwaysWanted, IsNext, IsPage, IsResultOf, KnowsMore};

use crate::Gate;
use crate::crew::Worker;
use crate::finished::Finished;
use crate::page::has;
use crate::results::{computed, seen};
use crate::walk::{Walk, next_node, told_of};
use crate::window::Window;
use row_values::Rows;
use run_core::{Board, Event};
use run_tables::{Published, Work};
use scalar_ops::Tools;
use span_token::OutOfMemory;
use std::alloc::Global;
use std::sync::Arc;

/// Who claimed the items: the words of the table of claims, and the number of who claims what nobody did.
#[derive(Drop)]
pub(crate) struct Winners<'w> {
    pub(crate) words: &'w [u64],
    pub(crate) caller: u32,
}

impl<'w> Winners<'w> {
    /// The worker that claims the item.
    fn of(&self, item: u32) -> u32 {
        let Some(word) = self.words.get(item as usize) else {
            return self.caller;
        };
        if *word == 0 || *word > u64::from(u32::MAX) {
            self.caller
        } else {
            (*word - 1) as u32
        }
    }
}

/// What the evaluation came to, by the results of the window's items.
pub(crate) fn fill<'d, W: Work, G: Gate>(
    alloc: Global,
    window: &Window<'_, 'd, W, G>,
    worker: &mut Worker<'_>,
    winners: &Winners<'_>,
) -> Result<Finished<'d>, OutOfMemory>
    requires of_plan { worker.old.tools ≡ W.plan.lists }
    ensures done { IfOk result (IsEvaluation W.plan W.docs) }
    ensures same { worker.new.tools ≡ worker.old.tools }
{
    let mut board = empty_board(alloc, window)?;
    let mut docs = Vec::with_capacity(alloc, window.documents())?;
    let mut walk = Walk::new(alloc);
    'each: for d in 0..window.documents() {
        let rows = fill_document(
            alloc,
            window,
            &mut worker.tools,
            winners,
            &mut walk,
            d,
            &mut board,
        )?;
        docs.push(rows)?;
    }
    Ok(completed::<W>(board, docs))
}

/// The board on which nothing is claimed and nothing is published.
fn empty_board<'d, W: Work, G: Gate>(
    alloc: Global,
    window: &Window<'_, 'd, W, G>,
) -> Result<Board<'d>, OutOfMemory>
    ensures filled { IfOk result (IsFilledTo W.plan W.docs 0 (item_at W.plan 0 0)) }
{
    Board::new(alloc, window.plan, window.docs)
}

/// The evaluation with this board, which is filled, and these rows.
fn completed<'d, W: Work>(board: Board<'d>, docs: Vec<Vec<Arc<Rows<'d>, Global>>>) -> Finished<'d>
    requires filled { IsFilledTo W.plan W.docs (length W.docs) (item_at W.plan (length W.docs) 0) board }
    requires answers { AreAnswers W.plan W.docs (map (λ rows. map arc_value rows.items) docs.items) }
    ensures done { IsEvaluation W.plan W.docs result }
{
    board.promise();
    Finished { board, docs }
}

/// Fills the board with what is needed on document `d`, and gives the rows of the outputs there.
fn fill_document<'d, W: Work, G: Gate>(
    alloc: Global,
    window: &Window<'_, 'd, W, G>,
    tools: &mut Tools<'_>,
    winners: &Winners<'_>,
    walk: &mut Walk<'d, W>,
    d: usize,
    board: &mut Board<'d>,
) -> Result<Vec<Arc<Rows<'d>, Global>>, OutOfMemory>
    requires there { d < length W.docs }
    requires of_plan { tools.old ≡ W.plan.lists }
    requires filled { IsFilledTo W.plan W.docs d (item_at W.plan d 0) board.old }
    ensures filled { OnOk result (IsFilledTo W.plan W.docs (d + 1) (item_at W.plan (d + 1) 0) board.new) }
    ensures rows { IfOk result (λ rows. IsAnswerOn W.plan W.docs d (map arc_value rows.items)) }
    ensures same { tools.new ≡ tools.old }
{
    begin_document(window, walk, d, board)?;
    fill_outputs(alloc, window, tools, winners, walk, board)?;
    let rows = end_document(alloc, window, walk, d, board)?;
    Ok(rows)
}

/// Begins on document `d`.
fn begin_document<'d, W: Work, G: Gate>(
    window: &Window<'_, 'd, W, G>,
    walk: &mut Walk<'d, W>,
    d: usize,
    board: &Board<'d>,
) -> Result<(), OutOfMemory>
    requires there { d < length W.docs }
    requires filled { IsFilledTo W.plan W.docs d (item_at W.plan d 0) board.now }
    ensures document { walk.new.d ≡ d }
    ensures filling { OnOk result (IsFilling W.plan W.docs walk.new.d board.now walk.new.page.items) }
    ensures path { AreWaiting W.plan walk.new.page.items walk.new.path.items }
{
    let _ = board;
    walk.begin(window, d)?;
    Ok(())
}

/// The rows of the outputs on document `d`, all of which are known.
fn end_document<'d, W: Work, G: Gate>(
    alloc: Global,
    window: &Window<'_, 'd, W, G>,
    walk: &Walk<'d, W>,
    d: usize,
    board: &Board<'d>,
) -> Result<Vec<Arc<Rows<'d>, Global>>, OutOfMemory>
    requires document { walk.now.d ≡ d }
    requires filling { IsFilling W.plan W.docs walk.now.d board.now walk.now.page.items }
    requires known { AreKnown walk.now.page.items W.plan.outputs }
    ensures filled { IsFilledTo W.plan W.docs (d + 1) (item_at W.plan (d + 1) 0) board.now }
    ensures rows { IfOk result (λ rows. IsAnswerOn W.plan W.docs d (map arc_value rows.items)) }
{
    let _ = board;
    told_of(window.plan);
    rows_shown(alloc, window, &walk.page)
}

/// Fills the board up to the nodes of all outputs on the walk's document.
fn fill_outputs<'d, W: Work, G: Gate>(
    alloc: Global,
    window: &Window<'_, 'd, W, G>,
    tools: &mut Tools<'_>,
    winners: &Winners<'_>,
    walk: &mut Walk<'d, W>,
    board: &mut Board<'d>,
) -> Result<(), OutOfMemory>
    requires of_plan { tools.old ≡ W.plan.lists }
    requires filling { IsFilling W.plan W.docs walk.old.d board.old walk.old.page.items }
    requires path { AreWaiting W.plan walk.old.page.items walk.old.path.items }
    ensures document { walk.new.d ≡ walk.old.d }
    ensures filling { OnOk result (IsFilling W.plan W.docs walk.new.d board.new walk.new.page.items) }
    ensures known { OnOk result (AreKnown walk.new.page.items W.plan.outputs) }
    ensures same { tools.new ≡ tools.old }
{
    'each: for i in 0..window.outputs() {
        fill_output(alloc, window, tools, winners, walk, i, board)?;
    }
    Ok(())
}

/// Fills the board up to the node of output `i`, where it is filled up to those of the outputs before it.
fn fill_output<'d, W: Work, G: Gate>(
    alloc: Global,
    window: &Window<'_, 'd, W, G>,
    tools: &mut Tools<'_>,
    winners: &Winners<'_>,
    walk: &mut Walk<'d, W>,
    i: usize,
    board: &mut Board<'d>,
) -> Result<(), OutOfMemory>
    requires there { i < length W.plan.outputs }
    requires of_plan { tools.old ≡ W.plan.lists }
    requires filling { IsFilling W.plan W.docs walk.old.d board.old walk.old.page.items }
    requires path { AreWaiting W.plan walk.old.page.items walk.old.path.items }
    requires known { AreKnown walk.old.page.items (take i W.plan.outputs) }
    ensures document { walk.new.d ≡ walk.old.d }
    ensures filling { OnOk result (IsFilling W.plan W.docs walk.new.d board.new walk.new.page.items) }
    ensures path { OnOk result (AreWaiting W.plan walk.new.page.items walk.new.path.items) }
    ensures known { OnOk result (AreKnown walk.new.page.items (take (i + 1) W.plan.outputs)) }
    ensures same { tools.new ≡ tools.old }
{
    let out = window.output(i);
    fill_node(alloc, window, tools, winners, walk, out, board)?;
    Ok(())
}

/// Fills the board up to node `out` of the walk's document, with what it asks for.
fn fill_node<'d, W: Work, G: Gate>(
    alloc: Global,
    window: &Window<'_, 'd, W, G>,
    tools: &mut Tools<'_>,
    winners: &Winners<'_>,
    walk: &mut Walk<'d, W>,
    out: u32,
    board: &mut Board<'d>,
) -> Result<(), OutOfMemory>
    requires there { out < length W.plan.nodes }
    requires wanted { IsAlwaysWanted W.plan out }
    requires of_plan { tools.old ≡ W.plan.lists }
    requires filling { IsFilling W.plan W.docs walk.old.d board.old walk.old.page.items }
    requires path { AreWaiting W.plan walk.old.page.items walk.old.path.items }
    ensures document { walk.new.d ≡ walk.old.d }
    ensures filling { OnOk result (IsFilling W.plan W.docs walk.new.d board.new walk.new.page.items) }
    ensures path { OnOk result (AreWaiting W.plan walk.new.page.items walk.new.path.items) }
    ensures known { OnOk result (IsSome (known_at walk.new.page.items out)) }
    ensures more { OnOk result (KnowsMore walk.old.page.items walk.new.page.items) }
    ensures same { tools.new ≡ tools.old }
{
    'nodes: while !has(&walk.page, out) {
        let n = next_node(window, &walk.page, &mut walk.path, out)?;
        let found = last_result(alloc, window, tools, winners.caller, walk, n)?;
        put_found(window, winners, walk, board, n, found)?;
    }
    Ok(())
}

/// Puts the result of node `n` on the board and on the page.
fn put_found<'d, W: Work, G: Gate>(
    window: &Window<'_, 'd, W, G>,
    winners: &Winners<'_>,
    walk: &mut Walk<'d, W>,
    board: &mut Board<'d>,
    n: u32,
    found: Published<'d, W>,
) -> Result<(), OutOfMemory>
    requires filling { IsFilling W.plan W.docs walk.old.d board.old walk.old.page.items }
    requires path { AreWaiting W.plan walk.old.page.items walk.old.path.items }
    requires next { IsNext W.plan walk.old.page.items n }
    requires of_node { IsResultOf W.plan W.docs walk.old.d n found }
    ensures document { walk.new.d ≡ walk.old.d }
    ensures filling { OnOk result (IsFilling W.plan W.docs walk.new.d board.new walk.new.page.items) }
    ensures path { OnOk result (AreWaiting W.plan walk.new.page.items walk.new.path.items) }
    ensures more { OnOk result (KnowsMore walk.old.page.items walk.new.page.items) }
    ensures fewer { OnOk result (unknown_count walk.new.page.items < unknown_count walk.old.page.items) }
{
    let item = window.item(walk.d, n);
    let rows = found.share()?;
    put_on_board(board, winners.of(item), item, rows);
    walk.put(n, found);
    Ok(())
}

/// The result of node `n`: the one that its cell is seen to hold, or what it comes to.
fn last_result<'d, W: Work, G: Gate>(
    alloc: Global,
    window: &Window<'_, 'd, W, G>,
    tools: &mut Tools<'_>,
    caller: u32,
    walk: &Walk<'d, W>,
    n: u32,
) -> Result<Published<'d, W>, OutOfMemory>
    requires of_plan { tools.old ≡ W.plan.lists }
    requires page { IsPage W.plan W.docs walk.now.d walk.now.page.items }
    requires next { IsNext W.plan walk.now.page.items n }
    ensures result { IfOk result (IsResultOf W.plan W.docs walk.now.d n) }
    ensures same { tools.new ≡ tools.old }
{
    let item = window.item(walk.d, n);
    let mut watch = window.results.watch(item);
    if let Some(found) = seen(window.results, &mut watch)? {
        return Ok(found);
    }
    window.gate.pass(caller, item);
    let found = computed(alloc, window, tools, walk.d, &walk.page, n)?;
    Ok(Box::into_inner(found))
}

/// The item is claimed, and its rows are published.
fn put_on_board<'d>(board: &mut Board<'d>, worker: u32, item: u32, rows: Arc<Rows<'d>, Global>)
    requires may_claim { MayClaim board.old item }
    requires unpublished { (standing board.old item).rows ≡ None }
    requires value { IsValueAt board.old.plan board.old.docs item (arc_value rows) }
    ensures put { HasPut board.old board.new item (arc_value rows.entry) }
{
    board.promise();
    board.step(Event::Claim { worker, item }, None);
    board.step(Event::Publish { worker, item }, Some(rows));
}

/// For each output its rows on the document of a page.
fn rows_shown<'d, W: Work, G: Gate>(
    alloc: Global,
    window: &Window<'_, 'd, W, G>,
    page: &Vec<Option<Published<'d, W>>>,
) -> Result<Vec<Arc<Rows<'d>, Global>>, OutOfMemory>
    requires sized { length page.now.items ≡ length W.plan.nodes }
    requires known { AreKnown page.now.items W.plan.outputs }
    ensures rows { IfOk result (λ rows. AllZip (λ out list. rows_on page.now.items out.node ≡ Some list) W.plan.outputs (map arc_value rows.items)) }
{
    let mut shown = Vec::with_capacity(alloc, window.outputs())?;
    'each: for i in 0..window.outputs() {
        shown.push(rows_of(page, window.output(i))?)?;
    }
    Ok(shown)
}

/// The rows of a node whose result is known.
fn rows_of<'d, W: Work>(
    page: &Vec<Option<Published<'d, W>>>,
    n: u32,
) -> Result<Arc<Rows<'d>, Global>, OutOfMemory>
    requires there { n < length page.now.items }
    requires known { IsSome (known_at page.now.items n) }
    ensures rows { IfOk result (λ rows. rows_on page.now.items n ≡ Some (arc_value rows)) }
{
    match &page[n as usize] {
        Some(found) => found.share(),
        None => unreachable!(),
    }
}
