//! The stages of a plan's making.

use algebra::Plan;
use aql_typed::Typed;
use plan_maker::{lower, make_plan};
use push_select::push;
use restrict_eval::turn;
use share_plan::{prune, share};
use span_token::OutOfMemory;
use std::alloc::Global;

/// How far a plan is made: each stage has the work of those before it.
#[derive(Clone, Copy)]
pub(crate) enum Stage {
    /// The program is lowered.
    Lowered,
    /// Products are turned, conditions are pushed down, and what nobody reads is dropped.
    Pushed,
    /// What stands twice is shared, and what nobody reads is dropped: all of `make_plan` but `restrict`.
    Shared,
    /// The plan by which `aqlx` runs the program.
    Normal,
}

/// The stages with their names.
pub(crate) const STAGES: [(&str, Stage); 4] = [
    ("lowered", Stage::Lowered),
    ("pushed", Stage::Pushed),
    ("shared", Stage::Shared),
    ("normal", Stage::Normal),
];

impl Stage {
    /// The stage that has a name.
    pub(crate) fn named(name: &str) -> Option<Stage> {
        for (known, stage) in STAGES {
            if known == name {
                return Some(stage);
            }
        }
        None
    }

    /// The plan of a typed program at this stage.
    pub(crate) fn plan(self, alloc: Global, typed: Typed) -> Result<Plan, OutOfMemory> {
        match self {
            Stage::Lowered => lower(alloc, typed),
            Stage::Pushed => pushed(alloc, typed),
            Stage::Shared => shared(alloc, typed),
            Stage::Normal => make_plan(alloc, typed),
        }
    }
}

fn pushed(alloc: Global, typed: Typed) -> Result<Plan, OutOfMemory> {
    let lowered = lower(alloc, typed)?;
    let turned = turn(alloc, lowered)?;
    let pushed = push(alloc, turned)?;
    prune(alloc, pushed)
}

fn shared(alloc: Global, typed: Typed) -> Result<Plan, OutOfMemory> {
    let pushed = pushed(alloc, typed)?;
    let shared = share(alloc, pushed)?;
    prune(alloc, shared)
}
