ghost use Rattle.std.specs.Prelude.{◌≡◌, ℕ, ◌<◌, ◌⊎◌, IfOk, IfSome, IfNone, OnOk, IsTrue, IsSome, All, Some, None, Contains, true, length, map, slice_index_or, vec_len};
ghost use Rattle.span_token.specs.Documents.{Doc};
ghost use Rattle.algebra.specs.Needed.{IsNeeded};
ghost use Rattle.algebra.specs.Plans.{Parts};
ghost use Rattle.plan_operators.specs.Boards.{Holds, IsBoardOf};
ghost use Rattle.plan_operators.specs.Filling.{IsAskedBy, IsEvaluated, IsNeededNode, IsStanding, shown_by};
ghost use Rattle.plan_operators.specs.Readers.{number_of_readers, waits};

use crate::filling::{missing, rows_of, source_of};
use crate::{EvaluationRoom, Schedule};
use algebra::{Plan, PlanOut};
use row_values::Rows;
use scalar_ops::Tools;
use span_token::{Document, OutOfMemory};
use std::alloc::Global;
use std::mem;

/// The rows of the nodes that the outputs of a plan show, on a document.
///
/// The result, a board, has an entry for each node of the plan, by its number from 0 (`long`). A node that an output
/// shows has its rows there (`shown`). Any other entry is empty, or has rows that weren't given up to a node that
/// reads them: these too are the rows of its node (`board`), which is one that the outputs need on this document
/// (`needed`). The rows of a node are what it is worth as a bag, with its columns, and their spans, in characters
/// from 0, lie in the document.
///
/// A node is evaluated where it is asked for, and at most once: the outputs ask for the nodes that they show, and
/// a node that is evaluated asks for its inputs, but a conditional join for its right one only where its left one
/// has a row. Rows are given up to the last node that reads them, so that what only passes through isn't copied;
/// what is given up, passed on or not asked for has no rows here.
///
/// `tools` are made of the plan's tables (`of_plan`), and stay as they are (`same`), for want of memory too. `room`
/// is used again from call to call, and changes no row. The only error is `OutOfMemory`; what was evaluated until
/// then is freed.
///
/// Meaning: `val`, `specs/Values.antt`, and `IsNeeded`, `specs/Needed.antt` of `algebra`.
pub fn evaluate<'d>(
    alloc: Global,
    tools: &mut Tools<'_>,
    room: &mut EvaluationRoom,
    doc: &Document<'d>,
    schedule: &Schedule<'d>,
) -> Result<Vec<Option<Rows<'d>>>, OutOfMemory>
    requires of_plan { tools.old ≡ schedule.now.lists }
    ensures long { IfOk result (λ board. vec_len board ≡ length schedule.now.nodes) }
    ensures shown { IfOk result (λ board. All (λ out. Holds schedule.now.lists doc.now schedule.now.nodes out.node (slice_index_or board.items out.node None)) schedule.now.outputs) }
    ensures board { IfOk result (λ board. IsBoardOf schedule.now.lists doc.now schedule.now.nodes board.items) }
    ensures needed { IfOk result (λ board. (n : ℕ) → IsSome (slice_index_or board.items n None) → IsNeeded schedule.now.lists doc.now schedule.now.nodes (map (λ out. out.node) schedule.now.outputs) n) }
    ensures same { tools.new ≡ tools.old }
{
    let plan = schedule.plan();
    let outputs = plan.outputs();
    let mut board = empty_board(alloc, plan.nodes().len())?;
    let kept = mem::replace(&mut room.readers, Vec::new(alloc));
    let mut readers = copied(kept, schedule.readers())?;
    let mut asking = mem::replace(&mut room.asking, Vec::new(alloc));
    for out in outputs {
        fill(
            alloc,
            tools,
            doc,
            plan,
            out.node,
            &mut board,
            &mut readers,
            &mut asking,
        )?;
    }
    room.readers = readers;
    room.asking = asking;
    Ok(board)
}

/// A copy of the numbers, in the room of a list.
fn copied(room: Vec<u64>, numbers: &[u64]) -> Result<Vec<u64>, OutOfMemory>
    ensures { IfOk result (λ copy. copy.items ≡ numbers.now) }
{
    let mut copy = room;
    copy.clear();
    copy.extend_from_slice(numbers)?;
    Ok(copy)
}

/// The rows of an output, of those that were evaluated.
pub fn rows_shown<'r, 'd>(board: &'r [Option<Rows<'d>>], out: &PlanOut) -> &'r Rows<'d>
    requires there { out.now.node < length board.now }
    requires shown { IsSome (slice_index_or board.now out.now.node None) }
    ensures { slice_index_or board.now out.now.node None ≡ Some result.now }
{
    match &board[out.node as usize] {
        Some(rows) => rows,
        None => unreachable!(),
    }
}

/// An entry for each node, without rows.
fn empty_board<'d>(alloc: Global, number: u32) -> Result<Vec<Option<Rows<'d>>>, OutOfMemory>
    ensures long { IfOk result (λ board. vec_len board ≡ number) }
    ensures none { IfOk result (λ board. (n : ℕ) → slice_index_or board.items n None ≡ None) }
{
    let mut board = Vec::with_capacity(alloc, number as usize)?;
    for _n in 0..number {
        board.push(None)?;
    }
    Ok(board)
}

/// Puts the rows of node `n` on the board, and before them those of the nodes for which it asks.
///
/// `asking` has the nodes that wait for another one, which was asked for last and is looked at first: so long as
/// the plan may be, no call is made in a call.
fn fill<'d>(
    alloc: Global,
    tools: &mut Tools<'_>,
    doc: &Document<'d>,
    plan: &'d Plan,
    n: u32,
    board: &mut Vec<Option<Rows<'d>>>,
    readers: &mut Vec<u64>,
    asking: &mut Vec<u32>,
) -> Result<(), OutOfMemory>
    requires of_plan { tools.old ≡ plan.now.lists }
    requires shown { Contains (shown_by plan.now) n }
    requires stands { IsStanding doc.now plan.now board.old.items readers.old.items }
    ensures stands { OnOk result (IsStanding doc.now plan.now board.new.items readers.new.items) }
    ensures there { OnOk result (IsSome (slice_index_or board.new.items n None)) }
    ensures kept { OnOk result ((m : ℕ) → Contains (shown_by plan.now) m → IsSome (slice_index_or board.old.items m None) → IsSome (slice_index_or board.new.items m None)) }
    ensures same { tools.new ≡ tools.old }
{
    asking.clear();
    let mut next = n;
    'asked: while board[n as usize].is_none() {
        match fill_or_ask(alloc, tools, doc, plan, next, board, readers)? {
            Some(input) => {
                asking.push(next)?;
                next = input;
            }
            None => next = last_asking(asking, board.as_slice(), readers, n),
        }
    }
    Ok(())
}

/// The node that is looked at next, when the rows of another one are there: the one that asked last, which is taken
/// off those that asked, where it waits still; else node `n`, for whose rows all of them ask.
fn last_asking(asking: &mut Vec<u32>, board: &[Option<Rows<'_>>], readers: &[u64], n: u32) -> u32
    requires long { length readers.now ≡ length board.now }
    ensures waits { (result ≡ n) ⊎ (waits board.now readers.now result ≡ true) }
    ensures needed { (doc : Doc) (plan : Parts) → All (IsNeededNode doc plan) asking.old.items → IsNeededNode doc plan n → All (IsNeededNode doc plan) asking.new.items × IsNeededNode doc plan result }
{
    match asking.pop() {
        Some(last) => {
            if does_wait(board, readers, last) {
                last
            } else {
                n
            }
        }
        None => n,
    }
}

/// Whether a node has no rows on the board, though it is read.
fn does_wait(board: &[Option<Rows<'_>>], readers: &[u64], n: u32) -> bool
    requires long { length readers.now ≡ length board.now }
    ensures { IsTrue result → waits board.now readers.now n ≡ true }
{
    let index = n as usize;
    index < board.len() && board[index].is_none() && readers[index] > 0
}

/// Puts the rows of node `n` on the board, where those that it asks for are there; else gives the number of one
/// that isn't.
fn fill_or_ask<'d>(
    alloc: Global,
    tools: &mut Tools<'_>,
    doc: &Document<'d>,
    plan: &'d Plan,
    n: u32,
    board: &mut Vec<Option<Rows<'d>>>,
    readers: &mut Vec<u64>,
) -> Result<Option<u32>, OutOfMemory>
    requires of_plan { tools.old ≡ plan.now.lists }
    requires stands { IsStanding doc.now plan.now board.old.items readers.old.items }
    requires waits { waits board.old.items readers.old.items n ≡ true }
    requires needed { IsNeededNode doc.now plan.now n }
    ensures asked { IfOk result (λ asked. IfSome asked (IsAskedBy doc.now plan.now board.new.items readers.new.items n)) }
    ensures before { IfOk result (λ asked. IfSome asked (λ _. (board.new.items ≡ board.old.items) × (readers.new.items ≡ readers.old.items))) }
    ensures evaluated { IfOk result (λ asked. IfNone asked (IsEvaluated doc.now plan.now n board.old.items readers.old.items board.new.items readers.new.items)) }
    ensures same { tools.new ≡ tools.old }
{
    let nodes = plan.nodes();
    let source = source_of(nodes, n, board.as_slice(), readers.as_slice());
    let node = nodes.get(source);
    match missing(node, board.as_slice()) {
        Some(input) => Ok(Some(input)),
        None => {
            let rows = rows_of(alloc, tools, doc, nodes, n, source, board, readers)?;
            put(rows, n, source, board, readers);
            Ok(None)
        }
    }
}

/// Puts the rows of node `n` on the board; of the node that passed its rows on to it, if another did, none are
/// asked for any more.
fn put<'d>(
    rows: Rows<'d>,
    n: u32,
    source: u32,
    board: &mut Vec<Option<Rows<'d>>>,
    readers: &mut Vec<u64>,
)
    requires there { n < vec_len board.old }
    requires source_there { source < vec_len readers.old }
    ensures long { vec_len board.new ≡ vec_len board.old }
    ensures readers_long { vec_len readers.new ≡ vec_len readers.old }
    ensures there { slice_index_or board.new.items n None ≡ Some rows.entry }
    ensures others { (m : ℕ) → (m ≡ n → ⊥) → slice_index_or board.new.items m None ≡ slice_index_or board.old.items m None }
    ensures passed { (source ≡ n → ⊥) → number_of_readers readers.new.items source ≡ 0 }
    ensures as_read { (m : ℕ) → (m ≡ source → ⊥) ⊎ (source ≡ n) → number_of_readers readers.new.items m ≡ number_of_readers readers.old.items m }
{
    if source != n {
        readers[source as usize] = 0;
    }
    board[n as usize] = Some(rows);
}
