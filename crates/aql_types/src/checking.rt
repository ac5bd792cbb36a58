//! The check of a program.

ghost use Rattle.std.specs.Prelude.{◌≡◌, [], map, IfOk, OnOk, IfErr};
ghost use Rattle.aql_syntax.specs.Views.{statement_of};
ghost use Rattle.aql_tables.specs.Programs.{collected, lists_of};
ghost use Rattle.clause_types.specs.Known.{known_of_program};
ghost use Rattle.aql_types.specs.Programs as spec;
ghost use Rattle.span_token.specs.Refusals.{OfFault};
ghost use Rattle.view_graph.specs.Answers.{HasOutputs};

use crate::fault::TypeFault;
use crate::outputs::outputs;
use crate::program::views;
use aql_tables::{ProgramTables, collect};
use aql_typed::{Typed, TypedView};
use clause_types::Known;
use span_token::Failure;
use std::alloc::Global;
use view_graph::Graph;

/// The typed program of a graph, or its first fault of types.
///
/// Views are checked by rank and then by statement, the parts of a statement in one order; a program has
/// one first fault, or none. Recurs as deep as the program nests. A source looks through the views below
/// it, and a column through those of its source.
///
/// Meaning: `IsTyped` and `IsTypeFault`, `specs/Programs.antt`.
pub fn check(alloc: Global, graph: &Graph) -> Result<Typed, Failure<TypeFault>>
    ensures typed { IfOk result (spec.IsTyped (known_of_program (map statement_of graph.now.0)) (lists_of (map statement_of graph.now.0)) (map statement_of graph.now.0) graph.now.1) }
    ensures fault { IfErr result (OfFault (spec.IsTypeFault (known_of_program (map statement_of graph.now.0)) (map statement_of graph.now.0) graph.now.1)) }
{
    let tables = collect(alloc, graph)?;
    let views = known_views(alloc, graph, &tables)?;
    let outputs = outputs(alloc, &views, graph.statements())?;
    let tables = tables.into_tables(alloc)?;
    Ok(Typed::new(views, tables, outputs))
}

/// The views of a program whose patterns and dictionaries are collected.
fn known_views(
    alloc: Global,
    graph: &Graph,
    tables: &ProgramTables,
) -> Result<Vec<TypedView>, Failure<TypeFault>>
    requires collected { tables.now ≡ collected (map statement_of graph.now.0) }
    ensures outputs { HasOutputs (map statement_of graph.now.0) }
    ensures ok { IfOk result (λ views. map spec.view_seen views.items ≡ spec.views_of_program (known_of_program (map statement_of graph.now.0)) (map statement_of graph.now.0) graph.now.1) }
    ensures none { OnOk result (spec.faults_of_program (known_of_program (map statement_of graph.now.0)) (map statement_of graph.now.0) graph.now.1 ≡ []) }
    ensures fault { IfErr result (OfFault (spec.IsTypeFault (known_of_program (map statement_of graph.now.0)) (map statement_of graph.now.0) graph.now.1)) }
{
    let known = Known { graph, tables };
    views(alloc, &known, graph.order())
}
