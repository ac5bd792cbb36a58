ghost use Rattle.std.specs.Prelude.{◌≡◌, ◌<◌, Some, None, IfOk, OnOk, length, set};
ghost use Rattle.algebra.specs.Nodes.{IsPlan};
ghost use Rattle.algebra.specs.Plans.{AreOutputs};
ghost use Rattle.run_core.specs.Wanted.{IsWanted};
ghost use Rattle.worker_pool.specs.Pages.{known_at, rows_on, unknown_count, AreWaiting, IsAlwaysWanted, IsBlank, IsNext, IsPage, IsResultOf, KnowsMore};

use crate::Gate;
use crate::page::{clear_page, has, missing, put_result};
use crate::window::Window;
use algebra::Plan;
use run_tables::{Published, Work};
use span_token::OutOfMemory;
use std::alloc::Global;

/// A walk over the nodes of a plan on one document: the document's number, what is known of it, and nodes
/// that wait for others. It is kept over documents.
#[derive(Drop)]
pub(crate) struct Walk<'d, W: Work> {
    pub(crate) d: usize,
    pub(crate) page: Vec<Option<Published<'d, W>>>,
    pub(crate) path: Vec<u32>,
}

impl<'d, W: Work> Walk<'d, W> {
    /// A walk that hasn't begun.
    pub(crate) fn new(alloc: Global) -> Walk<'d, W> {
        Walk {
            d: 0,
            page: Vec::new(alloc),
            path: Vec::new(alloc),
        }
    }

    /// Begins on document `d`, of whose nodes nothing is known.
    pub(crate) fn begin<G: Gate>(
        &mut self,
        window: &Window<'_, 'd, W, G>,
        d: usize,
    ) -> Result<(), OutOfMemory>
        requires there { d < length W.docs }
        ensures document { self.new.d ≡ d }
        ensures page { OnOk result (IsPage W.plan W.docs self.new.d self.new.page.items) }
        ensures blank { OnOk result (IsBlank self.new.page.items) }
        ensures path { AreWaiting W.plan self.new.page.items self.new.path.items }
    {
        self.d = d;
        self.path.clear();
        clear_page(&mut self.page, window.nodes())
    }

    /// Puts the result of node `n`, which was taken up, on the page.
    pub(crate) fn put(&mut self, n: u32, found: Published<'d, W>)
        requires page { IsPage W.plan W.docs self.old.d self.old.page.items }
        requires path { AreWaiting W.plan self.old.page.items self.old.path.items }
        requires next { IsNext W.plan self.old.page.items n }
        requires of_node { IsResultOf W.plan W.docs self.old.d n found }
        ensures document { self.new.d ≡ self.old.d }
        ensures put { self.new.page.items ≡ set self.old.page.items n (Some found.entry) }
        ensures page { IsPage W.plan W.docs self.new.d self.new.page.items }
        ensures path { AreWaiting W.plan self.new.page.items self.new.path.items }
        ensures more { KnowsMore self.old.page.items self.new.page.items }
        ensures fewer { unknown_count self.new.page.items < unknown_count self.old.page.items }
    {
        put_result(&mut self.page, n, found);
    }
}

/// The node that is taken up next on the way to node `out`.
pub(crate) fn next_node<'d, W: Work, G: Gate>(
    window: &Window<'_, 'd, W, G>,
    page: &Vec<Option<Published<'d, W>>>,
    path: &mut Vec<u32>,
    out: u32,
) -> Result<u32, OutOfMemory>
    requires sized { length page.now.items ≡ length W.plan.nodes }
    requires wanted { IsAlwaysWanted W.plan out }
    requires unseen { known_at page.now.items out ≡ None }
    requires path { AreWaiting W.plan page.now.items path.old.items }
    ensures path { AreWaiting W.plan page.now.items path.new.items }
    ensures next { IfOk result (IsNext W.plan page.now.items) }
{
    let first = last_waiting(page, window.plan, path, out);
    first_ready(page, window.plan, path, first)
}

/// The last of the nodes that wait and whose result isn't known, else `out`; it and those behind it wait no
/// longer.
fn last_waiting<'d, W: Work>(
    page: &Vec<Option<Published<'d, W>>>,
    plan: &Plan,
    path: &mut Vec<u32>,
    out: u32,
) -> u32
    requires sized { length page.now.items ≡ length plan.now.nodes }
    requires wanted { IsWanted plan.now (rows_on page.now.items) out }
    requires unseen { known_at page.now.items out ≡ None }
    requires path { AreWaiting plan.now page.now.items path.old.items }
    ensures path { AreWaiting plan.now page.now.items path.new.items }
    ensures wanted { IsWanted plan.now (rows_on page.now.items) result }
    ensures unseen { known_at page.now.items result ≡ None }
{
    told_of(plan);
    'path: while let Some(n) = path.pop() {
        if !has(page, n) {
            return n;
        }
    }
    out
}

/// From node `first` on, the node on the way down of which all is known that it asks for; those that were
/// passed wait.
fn first_ready<'d, W: Work>(
    page: &Vec<Option<Published<'d, W>>>,
    plan: &Plan,
    path: &mut Vec<u32>,
    first: u32,
) -> Result<u32, OutOfMemory>
    requires sized { length page.now.items ≡ length plan.now.nodes }
    requires wanted { IsWanted plan.now (rows_on page.now.items) first }
    requires unseen { known_at page.now.items first ≡ None }
    requires path { AreWaiting plan.now page.now.items path.old.items }
    ensures path { AreWaiting plan.now page.now.items path.new.items }
    ensures next { IfOk result (IsNext plan.now page.now.items) }
{
    told_of(plan);
    let mut n = first;
    'down: while let Some(i) = missing(page, plan, n) {
        path.push(n)?;
        n = i;
    }
    Ok(n)
}

/// Nothing is done: it says what holds of every plan.
pub(crate) fn told_of(plan: &Plan)
    ensures planned { IsPlan plan.now.nodes }
    ensures outputs { AreOutputs plan.now.nodes plan.now.outputs }
{
    let _ = plan.outputs();
    let _ = plan.nodes().as_slice();
}
