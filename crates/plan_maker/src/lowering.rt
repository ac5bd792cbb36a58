//! Plans of typed programs.

ghost use Rattle.std.specs.Prelude.{◌≡◌, ◌+◌, ◌*◌, ◌≤◌, [], map, length, All, IfOk, OnOk};
ghost use Rattle.std.specs.List.{sum_by};
ghost use Rattle.aql_typed.specs.Fitting.{AllFit, widths_of};
ghost use Rattle.aql_typed.specs.Meaning.{meanings};
ghost use Rattle.aql_typed.specs.Views.{body_of};
ghost use Rattle.plan_maker.specs.Grounds.{IsBase};
ghost use Rattle.plan_maker.specs.Lowered.{IsLowered, IsLoweredForm, query_size};

use crate::below::Below;
use crate::outputs::outputs_shown;
use crate::query::query;
use algebra::{Node, Nodes, Plan};
use aql_typed::{Typed, TypedView};
use span_token::OutOfMemory;
use std::alloc::Global;

/// The plan of a program: it has the program's tables, and each of its outputs shows on each document what
/// the view means, as a bag. Its nodes are no `SpanJoin` and no `Restricted`, no join is conditional, and
/// each `Dict` has one dictionary.
///
/// Each view stands once, also one that nothing names: what names it reads its node. So a plan is about as
/// long as its program, with at most eight nodes for each query and source.
///
/// Meaning: `IsLowered`, `specs/Lowered.antt`.
pub fn lower(alloc: Global, typed: Typed) -> Result<Plan, OutOfMemory>
    ensures lowered { IfOk result (λ plan. IsLowered typed plan) }
{
    let (views, tables, outputs) = typed.into_parts();
    let mut nodes = Nodes::new(alloc);
    let below = views_lowered(alloc, &mut nodes, views.as_slice())?;
    let shown = outputs_shown(alloc, views.as_slice(), outputs.as_slice(), &below)?;
    Ok(Plan::new(nodes, tables, shown))
}

/// The nodes of the document and of the views.
fn views_lowered(
    alloc: Global,
    nodes: &mut Nodes,
    views: &[TypedView],
) -> Result<Below, OutOfMemory>
    requires fit { AllFit [] (map body_of views.now) }
    ensures forms { OnOk result (All IsLoweredForm nodes.old → All IsLoweredForm nodes.new) }
    ensures few { OnOk result (length nodes.new ≤ length nodes.old + 1 + 8 * sum_by query_size (map body_of views.now)) }
    ensures base { IfOk result (λ below. IsBase nodes.new below (widths_of (map body_of views.now)) (λ lists doc. meanings lists doc (map body_of views.now))) }
{
    let document = nodes.add(Node::Doc)?;
    let mut below = Below {
        document,
        views: Vec::new(alloc),
    };
    for view in views {
        let n = query(alloc, nodes, &below, &view.body)?;
        below.views.push(n)?;
    }
    Ok(below)
}
