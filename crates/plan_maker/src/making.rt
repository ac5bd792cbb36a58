//! Plans of programs that are put together anew.

ghost use Rattle.std.specs.Prelude.{IfOk};
ghost use Rattle.plan_maker.specs.Promised.{IsNormal};
ghost use Rattle.plan_maker.specs.Shown.{ShowsProgram};

use crate::lowering::lower;
use algebra::Plan;
use aql_typed::Typed;
use push_select::push;
use restrict_eval::{restrict, turn};
use share_plan::{prune, share};
use span_token::OutOfMemory;
use std::alloc::Global;

/// The plan by which a program is run: it has the program's tables, and each of its outputs shows on each
/// document what the view means, as a bag.
///
/// The program is lowered; of a product whose left side can be looked for near rows the sides are turned;
/// conditions are pushed down, what nobody reads then is dropped, what stands twice is shared, and again is
/// dropped what nobody reads. Then joins become conditional and look near their left rows, and what they
/// read no more is dropped. The nodes stand in the order in which they are needed, so that a left side that
/// has no row is known before what only right sides behind it need.
///
/// Meaning: `ShowsProgram`, `specs/Shown.antt`; `IsNormal`, `specs/Promised.antt`.
pub fn make_plan(alloc: Global, typed: Typed) -> Result<Plan, OutOfMemory>
    ensures shows { IfOk result (λ plan. ShowsProgram typed plan) }
    ensures normal { IfOk result IsNormal }
{
    let lowered = lower(alloc, typed)?;
    let turned = turn(alloc, lowered)?;
    let pushed = push(alloc, turned)?;
    let read = prune(alloc, pushed)?;
    let shared = share(alloc, read)?;
    let whole = prune(alloc, shared)?;
    let restricted = restrict(alloc, whole)?;
    let plan = prune(alloc, restricted)?;
    Ok(plan)
}
