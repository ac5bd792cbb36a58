ghost use Rattle.std.specs.Prelude.{◌≡◌, Some, option_map};
ghost use Rattle.std.specs.Arc.{arc_value};
ghost use Rattle.run_core.specs.Boards.{untouched};

use row_values::Rows;
use std::alloc::Global;
use std::marker::Model;
use std::mem::replace;
use std::ops::Deref;
use std::sync::Arc;

/// How an item stands: the worker that claimed it, and its published rows, shared with whoever keeps them.
#[derive(Drop)]
pub(crate) struct Spot<'d> {
    kept: Kept<'d>,
}

/// What is kept of an item, in two words: the worker's number stands beside the case in the first one. Two
/// `Option`s would take three, since each says which case it is in a word of its own.
#[derive(Drop)]
pub(crate) enum Kept<'d> {
    /// Nobody claimed it, and nothing is published.
    Nothing,
    /// The worker that claimed it.
    Claimed(u32),
    /// The rows of an item that nobody claimed.
    Published(Arc<Rows<'d>, Global>),
    /// The worker that claimed it, and its rows.
    Both(u32, Arc<Rows<'d>, Global>),
}

impl<'d> Model for Spot<'d> {
    ghost use Rattle.run_core.specs.Boards.{Standing};

    ghost Value = { Standing };

    ghost use Rattle.run_core.specs.Spots.{standing_of};

    ghost view = { λ spot. standing_of spot.kept };
}

impl<'d> Spot<'d> {
    /// Nobody claimed the item, and nothing is published.
    pub(crate) fn new() -> Spot<'d>
        ensures { result ≡ untouched }
    {
        Spot {
            kept: Kept::Nothing,
        }
    }

    /// The worker that claimed the item.
    pub(crate) fn claim(&self) -> Option<u32>
        ensures { result ≡ self.now.claim }
    {
        match &self.kept {
            Kept::Claimed(worker) | Kept::Both(worker, _) => Some(*worker),
            Kept::Nothing | Kept::Published(_) => None,
        }
    }

    /// The published rows.
    pub(crate) fn rows(&self) -> Option<&Rows<'d>>
        ensures { option_map (λ rows. rows.now) result ≡ self.now.rows }
    {
        match &self.kept {
            Kept::Published(rows) | Kept::Both(_, rows) => Some(rows.deref()),
            Kept::Nothing | Kept::Claimed(_) => None,
        }
    }

    /// The worker claims the item.
    pub(crate) fn set_claim(&mut self, worker: u32)
        ensures { self.new ≡ record self.old { claim = Some worker } }
    {
        self.kept = match replace(&mut self.kept, Kept::Nothing) {
            Kept::Nothing | Kept::Claimed(_) => Kept::Claimed(worker),
            Kept::Published(rows) | Kept::Both(_, rows) => Kept::Both(worker, rows),
        };
    }

    /// The rows are published.
    pub(crate) fn set_rows(&mut self, rows: Option<Arc<Rows<'d>, Global>>)
        ensures { self.new ≡ record self.old { rows = option_map arc_value rows.entry } }
    {
        self.kept = match (self.claim(), rows) {
            (None, None) => Kept::Nothing,
            (Some(worker), None) => Kept::Claimed(worker),
            (None, Some(rows)) => Kept::Published(rows),
            (Some(worker), Some(rows)) => Kept::Both(worker, rows),
        };
    }
}
