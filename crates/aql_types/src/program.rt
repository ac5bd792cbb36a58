//! The views of a program, by rank, each above those before it.

ghost use Rattle.std.specs.Prelude.{◌≡◌, [], map, IfOk, OnOk, IfErr};
ghost use Rattle.aql_syntax.specs.Views as see;
ghost use Rattle.aql_typed.specs.Trees as tree;
ghost use Rattle.aql_typed.specs.Views as typed;
ghost use Rattle.clause_types.specs.Knowns.{known_of};
ghost use Rattle.aql_types.specs.Programs as spec;
ghost use Rattle.aql_types.specs.Queries.{typing_of_query};
ghost use Rattle.aql_types.specs.Refusals as refusals;
ghost use Rattle.aql_types.specs.Sources.{query_seen};
ghost use Rattle.view_graph.specs.Uses.{statement_numbered};

use crate::fault::TypeFault;
use crate::query::query;
use crate::source::CheckedQuery;
use aql_syntax::{Ident, Query, Statement};
use aql_typed::{TypedQuery, TypedView};
use clause_types::{Breach, Known};
use span_token::{Failure, OutOfMemory, OwnedText};
use std::alloc::Global;

/// The views, each above those before it, or the first fault.
pub(crate) fn views(
    alloc: Global,
    known: &Known<'_>,
    order: &[u32],
) -> Result<Vec<TypedView>, Failure<TypeFault>>
    ensures ok { IfOk result (λ views. map spec.view_seen views.items ≡ spec.views_of_program (known_of known.now) (map see.statement_of known.now.graph.now.0) order.now) }
    ensures none { OnOk result (spec.faults_of_program (known_of known.now) (map see.statement_of known.now.graph.now.0) order.now ≡ []) }
    ensures fault { IfErr result (refusals.IsFirstFault (spec.faults_of_program (known_of known.now) (map see.statement_of known.now.graph.now.0) order.now)) }
{
    let mut views = Vec::new(alloc);
    for number in order {
        let view = view_numbered(alloc, known, &views, *number)?;
        views.push(view)?;
    }
    Ok(views)
}

/// The view of the statement with this number, from 1.
fn view_numbered(
    alloc: Global,
    known: &Known<'_>,
    below: &[TypedView],
    number: u32,
) -> Result<TypedView, Failure<TypeFault>>
    ensures ok { IfOk result (λ v. (spec.typing_of_statement (known_of known.now) (map spec.view_seen below.now) number (statement_numbered (map see.statement_of known.now.graph.now.0) number)).view ≡ spec.view_seen v) }
    ensures none { OnOk result ((spec.typing_of_statement (known_of known.now) (map spec.view_seen below.now) number (statement_numbered (map see.statement_of known.now.graph.now.0) number)).faults ≡ []) }
    ensures fault { IfErr result (refusals.IsFirstFault (spec.typing_of_statement (known_of known.now) (map spec.view_seen below.now) number (statement_numbered (map see.statement_of known.now.graph.now.0) number)).faults) }
{
    match known
        .graph
        .statements()
        .get((number as usize).saturating_sub(1))
    {
        Some(statement) => view_of(alloc, known, below, number, statement),
        None => empty(alloc),
    }
}

/// The view of a statement.
fn view_of(
    alloc: Global,
    known: &Known<'_>,
    below: &[TypedView],
    number: u32,
    statement: &Statement,
) -> Result<TypedView, Failure<TypeFault>>
    ensures ok { IfOk result (λ v. (spec.typing_of_statement (known_of known.now) (map spec.view_seen below.now) number (see.statement_of statement.now)).view ≡ spec.view_seen v) }
    ensures none { OnOk result ((spec.typing_of_statement (known_of known.now) (map spec.view_seen below.now) number (see.statement_of statement.now)).faults ≡ []) }
    ensures fault { IfErr result (refusals.IsFirstFault (spec.typing_of_statement (known_of known.now) (map spec.view_seen below.now) number (see.statement_of statement.now)).faults) }
{
    match statement {
        Statement::View { name, query } => view_with(alloc, known, below, number, name, query),
        Statement::Module(_) => empty(alloc),
        Statement::Require => empty(alloc),
        Statement::Export(_) => empty(alloc),
        Statement::Dictionary { .. } => empty(alloc),
        Statement::Output { .. } => empty(alloc),
    }
}

/// The view of a statement that creates one.
#[tactic(auto, using(crate::proofs::ProgramFirsts::first_told))]
fn view_with(
    alloc: Global,
    known: &Known<'_>,
    below: &[TypedView],
    number: u32,
    name: &Ident,
    body: &Query,
) -> Result<TypedView, Failure<TypeFault>>
    ensures ok { IfOk result (λ v. spec.view_of name.now.text (typing_of_query (known_of known.now) (map spec.view_seen below.now) (see.query_of body.now)) ≡ spec.view_seen v) }
    ensures none { OnOk result (map (spec.fault_in number) (typing_of_query (known_of known.now) (map spec.view_seen below.now) (see.query_of body.now)).faults ≡ []) }
    ensures fault { IfErr result (refusals.IsFirstFault (map (spec.fault_in number) (typing_of_query (known_of known.now) (map spec.view_seen below.now) (see.query_of body.now)).faults)) }
{
    match query(alloc, known, below, body) {
        Ok(checked) => {
            let view = named(alloc, name, checked)?;
            Ok(view)
        }
        Err(failure) => Err(told(number, failure)),
    }
}

/// A view of what its query is.
fn named(alloc: Global, name: &Ident, query: CheckedQuery) -> Result<TypedView, OutOfMemory>
    ensures { IfOk result (λ v. spec.view_seen v ≡ spec.view_of name.now.text (query_seen query)) }
{
    let name = OwnedText::copied(alloc, name.text.as_str())?;
    let CheckedQuery { columns, body, .. } = query;
    Ok(TypedView {
        name,
        columns,
        body,
    })
}

/// A refusal in the statement with this number, from 1.
fn told(number: u32, failure: Failure<Breach>) -> Failure<TypeFault>
    ensures { result ≡ refusals.told number failure }
{
    match failure {
        Failure::OutOfMemory => Failure::OutOfMemory,
        Failure::Fault(breach) => {
            let Breach { at, rule } = breach;
            Failure::Fault(TypeFault {
                statement: number,
                at,
                rule,
            })
        }
    }
}

fn empty(alloc: Global) -> Result<TypedView, Failure<TypeFault>>
    ensures ok { IfOk result (λ v. spec.no_view ≡ spec.view_seen v) }
    ensures fault { IfErr result (refusals.IsFirstFault []) }
{
    let view = no_view(alloc)?;
    Ok(view)
}

/// What stands for a statement that creates no view.
fn no_view(alloc: Global) -> Result<TypedView, OutOfMemory>
    ensures { IfOk result (λ v. spec.view_seen v ≡ spec.no_view) }
{
    let name = OwnedText::copied(alloc, "")?;
    Ok(TypedView {
        name,
        columns: Vec::new(alloc),
        body: no_query(alloc),
    })
}

fn no_query(alloc: Global) -> TypedQuery
    ensures { typed.query_of result ≡ tree.union tree.no_queries }
{
    let sides = Vec::new(alloc);
    TypedQuery::Union(sides)
}
