ghost use Rattle.std.specs.Prelude.{◌≡◌, ◌<◌, ◌^◌, length, replicate, map, option_map, vec_len, IfOk, IfSome, IfNone};
ghost use Rattle.std.specs.Arc.{arc_value};
ghost use Rattle.algebra.specs.Items.{item_count};
ghost use Rattle.algebra.specs.Nodes.{IsPlan};
ghost use Rattle.algebra.specs.Plans.{AreOutputs};
ghost use Rattle.run_core.specs.Boards.{fresh, standing, untouched};
ghost use Rattle.run_core.specs.Events.{IsLegal, after, item_of, items_after};
ghost use Rattle.run_core.specs.Histories.{AreLegal, IsReached, IsReachedBy, after_all, happening};
ghost use Rattle.run_core.specs.Promises.{IsNeededAt, IsSound, IsValueAt, Keeps, MayGoOn};

use crate::Event;
use crate::spot::Spot;
use algebra::Plan;
use row_values::Rows;
use span_token::{Document, OutOfMemory};
use std::alloc::Global;
use std::marker::Model;
use std::sync::Arc;

/// What is claimed and what is published of a plan's items over documents: one for each node on each
/// document, fewer than 2^32. A board that legal events made of the one with nothing claimed and nothing
/// published, and no other.
///
/// Rows are shared with whoever else keeps them, and never copied.
///
/// Meaning: `State`, `specs/Boards.antt`; what holds of every board: `IsSound`, `specs/Promises.antt`.
#[derive(Drop)]
pub struct Board<'d> {
    plan: &'d Plan,
    docs: &'d [Document<'d>],
    spots: Vec<Spot<'d>>,
}

impl<'d> Model for Board<'d> {
    ghost use Rattle.std.specs.Coded.{codes};
    ghost use Rattle.scalar_ops.specs.Codes.{term_code};
    ghost use Rattle.run_core.specs.Boards.{State};
    ghost use Rattle.run_core.specs.Histories.{IsBoard};

    ghost Value = { State };

    ghost coded = { Prim.hlevel (codes, term_code) };

    ghost view = { λ board. record { plan = board.plan.now; docs = board.docs.now; items = board.spots.items } };

    ghost invariant = { λ board. IsBoard (record { plan = board.plan.now; docs = board.docs.now; items = board.spots.items }) };
}

impl<'d> Board<'d> {
    /// The board with nothing claimed and nothing published. It takes two words an item.
    pub fn new(
        alloc: Global,
        plan: &'d Plan,
        docs: &'d [Document<'d>],
    ) -> Result<Board<'d>, OutOfMemory>
        requires few { item_count plan.now docs.now < 2 ^ 32 }
        ensures fresh { IfOk result (λ board. board ≡ fresh plan.now docs.now) }
        ensures sound { IfOk result (λ board. IsSound board) }
    {
        let count = docs.len() * nodes_of(plan);
        let spots = untouched_spots(alloc, count)?;
        Ok(Board { plan, docs, spots })
    }

    /// Does what a legal event does: a `Claim` sets the claim, a `Publish` the rows, and a `Late` changes
    /// nothing. Rows come with a `Publish` alone. It takes no memory.
    pub fn step(&mut self, event: Event, rows: Option<Arc<Rows<'d>, Global>>)
        requires legal { IsLegal self.old event (option_map arc_value rows) }
        ensures after { self.new ≡ after self.old event (option_map arc_value rows.entry) }
        ensures keeps { Keeps self.old self.new }
        ensures sound { IsSound self.new }
    {
        step_spots(&mut self.spots, event, rows);
    }

    /// The worker that claimed the item. It takes no memory.
    pub fn claimed(&self, item: u32) -> Option<u32>
        requires in_range { item < item_count self.now.plan self.now.docs }
        ensures claim { result ≡ (standing self.now item).claim }
        ensures needed { IfSome result (λ worker. IsNeededAt self.now.plan self.now.docs item) }
    {
        self.spots[item as usize].claim()
    }

    /// The published rows of the item. It takes no memory.
    pub fn published(&self, item: u32) -> Option<&Rows<'d>>
        requires in_range { item < item_count self.now.plan self.now.docs }
        ensures rows { option_map (λ rows. rows.now) result ≡ (standing self.now item).rows }
        ensures value { IfSome result (λ rows. IsValueAt self.now.plan self.now.docs item rows.now) }
        ensures needed { IfSome result (λ rows. IsNeededAt self.now.plan self.now.docs item) }
        ensures goes_on { IfNone result (IsNeededAt self.now.plan self.now.docs item → MayGoOn self.now) }
    {
        self.spots[item as usize].rows()
    }

    /// Nothing is done: it says what holds of every board.
    pub fn promise(&self)
        ensures reached { IsReached self.now }
        ensures sound { IsSound self.now }
    {
        let _spots = &self.spots;
    }
}

/// The board that a legal list of events makes of the one with nothing claimed and nothing published; each
/// `Publish` has its rows.
pub fn replay<'d>(
    alloc: Global,
    plan: &'d Plan,
    docs: &'d [Document<'d>],
    events: Vec<(Event, Option<Arc<Rows<'d>, Global>>)>,
) -> Result<Board<'d>, OutOfMemory>
    requires few { item_count plan.now docs.now < 2 ^ 32 }
    requires legal { AreLegal (fresh plan.now docs.now) (map (happening arc_value) events.items) }
    ensures after { IfOk result (λ board. board ≡ after_all (fresh plan.now docs.now) (map (happening arc_value) events.entry.items)) }
    ensures reached { IfOk result (λ board. IsReachedBy board (map (happening arc_value) events.entry.items)) }
    ensures sound { IfOk result (λ board. IsSound board) }
{
    let mut board = Board::new(alloc, plan, docs)?;
    for (event, rows) in events {
        board.step(event, rows);
    }
    Ok(board)
}

/// How many nodes the plan has.
fn nodes_of(plan: &Plan) -> usize
    ensures count { result ≡ length plan.now.nodes }
    ensures planned { IsPlan plan.now.nodes }
    ensures outputs { AreOutputs plan.now.nodes plan.now.outputs }
{
    let _ = plan.outputs();
    plan.nodes().as_slice().len()
}

/// So many items, each untouched.
fn untouched_spots<'d>(alloc: Global, count: usize) -> Result<Vec<Spot<'d>>, OutOfMemory>
    ensures { IfOk result (λ spots. spots.items ≡ replicate count untouched) }
{
    let mut spots = Vec::with_capacity(alloc, count)?;
    for _ in 0..count {
        spots.push(Spot::new())?;
    }
    Ok(spots)
}

/// Does what an event does to the items.
fn step_spots<'d>(spots: &mut Vec<Spot<'d>>, event: Event, rows: Option<Arc<Rows<'d>, Global>>)
    requires in_range { item_of event < vec_len spots.old }
    ensures { spots.new.items ≡ items_after spots.old.items event (option_map arc_value rows.entry) }
{
    match event {
        Event::Claim { worker, item } => spots[item as usize].set_claim(worker),
        Event::Publish { item, .. } => spots[item as usize].set_rows(rows),
        Event::Late { .. } => {}
    }
}
