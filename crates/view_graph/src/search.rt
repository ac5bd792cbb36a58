//! The ranks of views, found by a walk down the uses, or a cycle.

ghost use Rattle.std.specs.Prelude.{◌≡◌, ℕ, ◌+◌, ◌<◌, ◌≤◌, ◌^◌, ◌∷◌, [], ◌++◌, length, slice_index, slice_set, map, drop, max, IfOk, OnOk, MatchOption};
ghost use Rattle.view_graph.specs.Names.{AllDiffer};
ghost use Rattle.view_graph.specs.Graphs.{IsClosed};
ghost use Rattle.view_graph.specs.Search.{Edge, used_in, IsGraph, mark_at, done, StaysSeen, begun, IsScanned, AreRanked, IsSearch, GoesOn, IsCircle};
ghost use Rattle.view_graph.specs.Walks.{IsWalk};

use span_token::{OutOfMemory, OwnedList};
use std::alloc::Global;

/// How far the walk is with a view.
#[derive(Clone, Copy, Debug)]
pub(crate) enum Mark {
    /// Not met yet.
    Unseen,
    /// On the way from the first view to the last, at this depth from 0.
    Open(usize),
    /// Done: its rank.
    Ranked(u32),
}

/// A view on the way: its index, how many of those it uses were looked at, and its rank by them.
#[derive(Clone, Copy, Debug)]
pub(crate) struct Frame {
    pub(crate) view: u32,
    pub(crate) next: usize,
    pub(crate) rank: u32,
}

/// The ranks of all views, or views in a circle.
#[derive(Debug, Drop)]
pub(crate) enum Walk {
    Ranked(Vec<Mark>),
    Circle(Vec<u32>),
}

/// The ranks of all views, or views in a circle.
pub(crate) fn rank_all(alloc: Global, uses: &[OwnedList<u32>]) -> Result<Walk, OutOfMemory>
    requires graph { IsGraph uses.now }
    requires short { length uses.now < 2 ^ 32 }
    ensures { IfOk result (IsWalk uses.now) }
{
    let mut marks = vec![in alloc; Mark::Unseen; uses.len()]?;
    for view in 0..uses.len() {
        if let Mark::Unseen = marks[view] {
            if let Some(views) = descend(alloc, uses, &mut marks, view as u32)? {
                return Ok(Walk::Circle(views));
            }
        }
    }
    Ok(Walk::Ranked(marks))
}

/// Ranks a view that wasn't met, and all below it, or gives views in a circle.
fn descend(
    alloc: Global,
    uses: &[OwnedList<u32>],
    marks: &mut [Mark],
    view: u32,
) -> Result<Option<Vec<u32>>, OutOfMemory>
    requires graph { IsGraph uses.now }
    requires short { length uses.now < 2 ^ 32 }
    requires within { view < length uses.now }
    requires search { IsSearch uses.now marks.old [] }
    requires fresh { mark_at marks.old view ≡ Mark.Unseen }
    ensures { IfOk result (λ circle. MatchOption circle (IsSearch uses.now marks.new [] × StaysSeen marks.old marks.new × (¬ (mark_at marks.new view ≡ Mark.Unseen))) (λ views. IsClosed (Edge uses.now) views.items × AllDiffer views.items)) }
{
    let mut stack = Vec::new(alloc);
    enter(marks, &mut stack, view)?;
    while let Some(frame) = stack.pop() {
        if let Some(depth) = step(uses, marks, &mut stack, frame)? {
            return Ok(Some(way_from(alloc, &stack, depth)?));
        }
    }
    Ok(None)
}

/// The views on the way, from this depth on.
fn way_from(alloc: Global, stack: &[Frame], depth: usize) -> Result<Vec<u32>, OutOfMemory>
    requires { depth ≤ length stack.now }
    ensures { IfOk result (λ views. views.items ≡ map (λ f. f.view) (drop depth stack.now)) }
{
    let mut views = Vec::new(alloc);
    for frame in &stack[depth..] {
        views.push(frame.view)?;
    }
    Ok(views)
}

/// One step of the walk from the last view of the way, `frame`, which was taken off it.
///
/// Where all that it uses have ranks, it gets its own and is done. Else the first that has none is
/// put after it on the way, if it wasn't met; if it is on the way, the way is a circle from its depth on.
fn step(
    uses: &[OwnedList<u32>],
    marks: &mut [Mark],
    stack: &mut Vec<Frame>,
    frame: Frame,
) -> Result<Option<usize>, OutOfMemory>
    requires graph { IsGraph uses.now }
    requires short { length uses.now < 2 ^ 32 }
    requires search { IsSearch uses.now marks.old (stack.old.items ++ frame ∷ []) }
    ensures { IfOk result (λ circle. MatchOption circle (GoesOn uses.now marks.old marks.new stack.old.items stack.new.items) (IsCircle uses.now marks.new stack.new.items)) }
{
    let frame = scan(uses, marks, frame);
    let used = uses[frame.view as usize].as_slice();
    if frame.next >= used.len() {
        marks[frame.view as usize] = Mark::Ranked(frame.rank);
        return Ok(None);
    }
    let below = used[frame.next];
    stack.push(frame)?;
    if let Mark::Open(depth) = marks[below as usize] {
        return Ok(Some(depth));
    }
    enter(marks, stack, below)?;
    Ok(None)
}

/// Puts a view that wasn't met at the end of the way.
fn enter(marks: &mut [Mark], stack: &mut Vec<Frame>, view: u32) -> Result<(), OutOfMemory>
    requires { view < length marks.old }
    ensures marks { OnOk result (marks.new ≡ slice_set marks.old view (Mark.Open (length stack.old.items))) }
    ensures stack { OnOk result (stack.new.items ≡ stack.old.items ++ begun view ∷ []) }
{
    let depth = stack.len();
    stack.push(Frame {
        view,
        next: 0,
        rank: 0,
    })?;
    marks[view as usize] = Mark::Open(depth);
    Ok(())
}

/// Goes on over the views that a view uses, as long as they have ranks.
fn scan(uses: &[OwnedList<u32>], marks: &[Mark], first: Frame) -> Frame
    requires graph { IsGraph uses.now }
    requires marked { length marks.now ≡ length uses.now }
    requires short { length uses.now < 2 ^ 32 }
    requires within { first.view < length uses.now }
    requires ranked { AreRanked uses.now marks.now }
    requires scanned { IsScanned uses.now first }
    requires low { first.rank ≤ done marks.now }
    ensures view { result.view ≡ first.view }
    ensures scanned { IsScanned uses.now result }
    ensures low { result.rank ≤ done marks.now }
    ensures stopped { result.next < length (used_in uses.now first.view) → (rank : ℕ) → ¬ (mark_at marks.now (slice_index (used_in uses.now first.view) result.next) ≡ Mark.Ranked rank) }
{
    let used = uses[first.view as usize].as_slice();
    let mut frame = first;
    while frame.next < used.len() {
        match marks[used[frame.next] as usize] {
            Mark::Ranked(rank) => frame = passed(frame, rank),
            _ => return frame,
        }
    }
    frame
}

/// One more of the views that a view uses was looked at, and has this rank.
fn passed(frame: Frame, rank: u32) -> Frame
    requires short { frame.next + 1 < 2 ^ 64 }
    requires low { rank + 1 < 2 ^ 32 }
    ensures view { result.view ≡ frame.view }
    ensures next { result.next ≡ frame.next + 1 }
    ensures rank { result.rank ≡ max frame.rank (rank + 1) }
{
    Frame {
        view: frame.view,
        next: frame.next + 1,
        rank: frame.rank.max(rank + 1),
    }
}
