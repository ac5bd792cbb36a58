ghost use Rattle.std.specs.Prelude.{◌≡◌, ◌<◌, ◌^◌, length, slice_index_or};
ghost use Rattle.algebra.specs.declared.output.PlanOut as declared_output;
ghost use Rattle.algebra.specs.Items.{item_at, item_count};
ghost use Rattle.worker_pool.specs.Pages.{IsAlwaysWanted};

use crate::Gate;
use algebra::Plan;
use run_tables::{Claims, Results, Work};
use span_token::Document;

/// The documents that are evaluated together, with the plan and the cells for results.
#[derive(Drop)]
pub(crate) struct Window<'a, 'd, W: Work, G: Gate> {
    pub(crate) gate: &'a G,
    pub(crate) results: &'a Results<'d, W>,
    pub(crate) plan: &'d Plan,
    pub(crate) docs: &'d [Document<'d>],
    pub(crate) ghost plan_is: { plan.now ≡ W.plan },
    pub(crate) ghost docs_are: { docs.now ≡ W.docs },
    pub(crate) ghost cells: { length results.now ≡ item_count W.plan W.docs },
    pub(crate) ghost few: { item_count W.plan W.docs < 2 ^ 32 },
}

/// What workers share: the window, and the table of claims on its items.
#[derive(Drop)]
pub(crate) struct Shared<'a, 'd, W: Work, G: Gate> {
    pub(crate) window: &'a Window<'a, 'd, W, G>,
    pub(crate) claims: &'a Claims,
    pub(crate) ghost items: { claims.now.sizes.items ≡ item_count W.plan W.docs },
}

impl<'a, 'd, W: Work, G: Gate> Window<'a, 'd, W, G> {
    /// How many documents it has.
    pub(crate) fn documents(&self) -> usize
        ensures { result ≡ length W.docs }
    {
        self.docs.len()
    }

    /// How many nodes the plan has.
    pub(crate) fn nodes(&self) -> u32
        ensures { result ≡ length W.plan.nodes }
    {
        self.plan.nodes().len()
    }

    /// How many outputs the plan has.
    pub(crate) fn outputs(&self) -> usize
        ensures { result ≡ length W.plan.outputs }
    {
        self.plan.outputs().len()
    }

    /// How many items there are.
    pub(crate) fn items(&self) -> u32
        ensures { result ≡ item_count W.plan W.docs }
    {
        (self.documents() * self.nodes() as usize) as u32
    }

    /// The node of output `i`, from 0.
    pub(crate) fn output(&self, i: usize) -> u32
        requires in_range { i < length W.plan.outputs }
        ensures is { (out : declared_output.PlanOut) → result ≡ (slice_index_or W.plan.outputs i out).node }
        ensures there { result < length W.plan.nodes }
        ensures wanted { IsAlwaysWanted W.plan result }
    {
        self.plan.outputs()[i].node
    }

    /// The number of the item of node `n` on document `d`.
    pub(crate) fn item(&self, d: usize, n: u32) -> u32
        requires document { d < length W.docs }
        requires node { n < length W.plan.nodes }
        ensures is { result ≡ item_at W.plan d n }
        ensures in_range { result < item_count W.plan W.docs }
    {
        (d * self.nodes() as usize + n as usize) as u32
    }
}
