ghost use Rattle.std.specs.Prelude.{◌≡◌, ◌≢◌, ◌<◌, List, ℕ, [], length, map, All, IfOk};
ghost use Rattle.std.specs.List.{AllPairs};
ghost use Rattle.algebra.specs.Items.{output_nodes};
ghost use Rattle.algebra.specs.Mapping.{renumbered};
ghost use Rattle.algebra.specs.Plans.{KeepsOutputs};
ghost use Rattle.restrict_eval.specs.Keeping.{AreUnrestricted, AreApart};
ghost use Rattle.restrict_eval.specs.Rebuilding.{IsRestrictedFrom};
ghost use Rattle.restrict_eval.specs.Restricting.{AreConditional, AreRestricted};

use crate::rebuilding::rebuilt;
use algebra::{Plan, PlanOut};
use span_token::OutOfMemory;
use std::alloc::Global;

/// The plan in which every join is conditional, and the right input of a join is looked for near its left
/// rows where it is the matches in the document of a token-bounded pattern, or of a dictionary that is the
/// only one of its `Dict` node, and nobody else needs it.
///
/// Each output has its names and columns, stands where it stood, and shows on each document the same rows, as
/// a bag. Any other node stands as it stood, with its inputs renumbered. A plain pattern is never looked for
/// near rows: where it matches depends on what stands to the left. Nor is one of several dictionaries of a
/// node, which one walk over the document finds. What a restricted join reads no more stays in the plan, where
/// no output needs it. Takes time about linear in the plan. More nodes than `u32` can count are want of memory.
///
/// Meaning: `AreConditional`, `AreRestricted`, `specs/Restricting.antt`; `IsRestrictedFrom`,
/// `specs/Rebuilding.antt`; `KeepsOutputs`, `specs/Plans.antt` of `algebra`.
pub fn restrict(alloc: Global, plan: Plan) -> Result<Plan, OutOfMemory>
    ensures keeps { IfOk result (λ new. KeepsOutputs plan new) }
    ensures conditional { IfOk result (λ new. AreConditional new.nodes) }
    ensures restricted { IfOk result (λ new. AreRestricted new.nodes (output_nodes new)) }
    ensures distinct { IfOk result (λ new. AreUnrestricted plan.nodes → AllPairs (λ a b. a ≢ b) plan.nodes → AllPairs (λ a b. a ≢ b) new.nodes) }
    ensures merged { IfOk result (λ new. AreUnrestricted plan.nodes → AllPairs AreApart plan.nodes → AllPairs AreApart new.nodes) }
    ensures rebuilt { IfOk result (λ new. (to : List ℕ) × IsRestrictedFrom plan.nodes (output_nodes plan) new.nodes to) }
{
    let (old, tables, outputs) = plan.into_parts();
    let mut to = Vec::new(alloc);
    let nodes = rebuilt(alloc, old, outputs.as_slice(), &mut to)?;
    let outputs = outputs_shown(alloc, outputs, to.as_slice())?;
    Ok(Plan::new(nodes, tables, outputs))
}

/// The outputs, each shown by the node that stands for its own.
fn outputs_shown(
    alloc: Global,
    outputs: Vec<PlanOut>,
    to: &[u32],
) -> Result<Vec<PlanOut>, OutOfMemory>
    requires there { All (λ out. out.node < length to.now) outputs.items }
    ensures { IfOk result (λ new. new.items ≡ map (renumbered to.now) outputs.items) }
{
    let mut new = Vec::new(alloc);
    for out in outputs {
        new.push(PlanOut {
            names: out.names,
            node: to[out.node as usize],
        })?;
    }
    Ok(new)
}
