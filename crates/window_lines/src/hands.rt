//! What each of several threads keeps of its own.

ghost use Rattle.std.specs.Prelude.{◌≡◌, ◌≤◌, IfOk, vec_len};
ghost use Rattle.window_lines.specs.Hands.{HaveTools};

use crate::answer::Room;
use algebra::Plan;
use line_sight::Sight;
use scalar_ops::{Tables, Tools};
use span_token::OutOfMemory;
use std::alloc::Global;
use std::marker::Model;

/// What each of several threads keeps of its own for a plan, made once and used for all lines of a run.
///
/// Contracts see the patterns and dictionaries of the plan.
#[derive(Drop)]
pub struct Hands<'p> {
    pub(crate) tables: &'p Tables,
    pub(crate) hands: Vec<Box<Hand<'p>>>,
}

impl<'p> Model for Hands<'p> {
    ghost use Rattle.std.specs.Prelude.{◌<◌, ◌^◌, vec_len};
    ghost use Rattle.std.specs.Coded.{codes};
    ghost use Rattle.scalar_ops.specs.Tables.{Lists};
    ghost use Rattle.window_lines.specs.Hands.{HaveTools};

    ghost Value = { Lists };

    ghost view = { λ hands. hands.tables.now };

    ghost invariant = { λ hands. (0 < vec_len hands.hands) × (vec_len hands.hands < 2 ^ 32) × HaveTools hands.tables.now hands.hands.items };
}

/// What one thread keeps: its tools, room for a document, and what it looked at. It has thousands of bytes, and lies in a box, so
/// that no call moves it over the stack of the thread that starts all others.
#[derive(Drop)]
pub(crate) struct Hand<'p> {
    pub tools: Tools<'p>,
    pub room: Room,
    pub sight: Sight,
}

impl<'p> Hands<'p> {
    /// So many threads for a plan. What a thread needs to search is made when it first does.
    pub fn new(alloc: Global, plan: &'p Plan, threads: u32) -> Result<Hands<'p>, OutOfMemory>
        requires some { 1 ≤ threads }
        ensures of_plan { IfOk result (λ hands. hands ≡ plan.now.lists) }
    {
        let tables = plan.tables();
        let hands = hands_for(alloc, tables, threads)?;
        Ok(Hands { tables, hands })
    }
}

/// So many hands with tools for the tables.
fn hands_for<'p>(
    alloc: Global,
    tables: &'p Tables,
    number: u32,
) -> Result<Vec<Box<Hand<'p>>>, OutOfMemory>
    ensures long { IfOk result (λ hands. vec_len hands ≡ number) }
    ensures tools { IfOk result (λ hands. HaveTools tables.now hands.items) }
{
    let mut hands = Vec::with_capacity(alloc, number as usize)?;
    for _ in 0..number {
        hands.push(hand_for(alloc, tables)?)?;
    }
    Ok(hands)
}

/// A hand with tools for the tables.
#[inline(never)]
fn hand_for<'p>(alloc: Global, tables: &'p Tables) -> Result<Box<Hand<'p>>, OutOfMemory>
    ensures { IfOk result (λ hand. hand.value.tools ≡ tables.now) }
{
    Ok(Box::new(
        alloc,
        Hand {
            tools: Tools::new(alloc, tables)?,
            room: Room::new(alloc),
            sight: Sight::new(alloc),
        },
    )?)
}
