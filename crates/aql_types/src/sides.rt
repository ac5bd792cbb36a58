//! Unions and differences of sides without a fault.

ghost use Rattle.std.specs.Prelude.{◌≡◌, ◌∷◌, [], map, OnOk, IfOk, IfErr};
ghost use Rattle.aql_typed.specs.Trees as tree;
ghost use Rattle.aql_typed.specs.Views as typed;
ghost use Rattle.aql_types.specs.Queries as spec;
ghost use Rattle.clause_types.specs.Refusals.{IsFirst};
ghost use Rattle.aql_types.specs.Sources.{query_seen};

use crate::source::CheckedQuery;
use aql_typed::{Column, TypedQuery};
use clause_types::{Breach, TypeRule, refusal};
use scalar_ops::Kind;
use span_token::{Failure, OutOfMemory, OwnedText};
use std::alloc::Global;

/// A union of sides without a fault.
#[tactic(auto, using(crate::proofs::SourceFaults::sides_faultless, clause_types::specs::FaultLaws::first_later, clause_types::specs::FaultLaws::all_faultless))]
pub(crate) fn unite(
    alloc: Global,
    sides: Vec<CheckedQuery>,
) -> Result<CheckedQuery, Failure<Breach>>
    ensures ok { IfOk result (λ q. spec.union_of (map query_seen sides.items) ≡ query_seen q) }
    ensures fault { IfErr result (IsFirst (spec.union_of (map query_seen sides.items)).faults) }
{
    refuse_mismatched(&sides)?;
    let at = first_at(&sides);
    let columns = first_columns(alloc, &sides)?;
    let bodies = bodies(alloc, sides)?;
    Ok(joined(at, columns, bodies))
}

/// Refuses sides whose columns differ.
fn refuse_mismatched(sides: &[CheckedQuery]) -> Result<(), Failure<Breach>>
    ensures ok { OnOk result (spec.mismatched (map query_seen sides.now) ≡ []) }
    ensures fault { IfErr result (IsFirst (spec.mismatched (map query_seen sides.now))) }
{
    match sides {
        [] => Ok(()),
        [first, later @ ..] => refuse_sides(first, later),
    }
}

/// Refuses the first later side whose columns aren't those of the first.
fn refuse_sides(first: &CheckedQuery, later: &[CheckedQuery]) -> Result<(), Failure<Breach>>
    ensures ok { OnOk result (spec.mismatches (query_seen first.now) (map query_seen later.now) ≡ []) }
    ensures fault { IfErr result (IsFirst (spec.mismatches (query_seen first.now) (map query_seen later.now))) }
{
    for side in later {
        refuse_side(first, side)?;
    }
    Ok(())
}

/// Refuses a side whose columns aren't those of the first.
fn refuse_side(first: &CheckedQuery, side: &CheckedQuery) -> Result<(), Failure<Breach>>
    ensures ok { OnOk result (spec.mismatch (query_seen first.now) (query_seen side.now) ≡ []) }
    ensures fault { IfErr result (IsFirst (spec.mismatch (query_seen first.now) (query_seen side.now))) }
{
    if same_columns(&first.columns, &side.columns) {
        Ok(())
    } else {
        Err(refusal(side.at, TypeRule::SchemaMismatch))
    }
}

/// Whether the columns are equal in name and kind, one by one.
fn same_columns(columns: &[Column], others: &[Column]) -> bool
    ensures { result ≡ spec.same_columns columns.now others.now }
{
    if columns.len() != others.len() {
        return false;
    }
    for (index, column) in columns.iter().enumerate() {
        if !same_column(column, &others[index]) {
            return false;
        }
    }
    true
}

fn same_column(a: &Column, b: &Column) -> bool
    ensures { result ≡ spec.same_column a.now b.now }
{
    a.name.as_str() == b.name.as_str() && same_kind(a.kind, b.kind)
}

fn same_kind(a: Kind, b: Kind) -> bool
    ensures { result ≡ spec.same_kind a b }
{
    match a {
        Kind::Integer => matches!(b, Kind::Integer),
        Kind::Boolean => matches!(b, Kind::Boolean),
        Kind::Text => matches!(b, Kind::Text),
        Kind::Span => matches!(b, Kind::Span),
        _ => false,
    }
}

fn first_at(sides: &[CheckedQuery]) -> u32
    ensures { result ≡ spec.first_at (map query_seen sides.now) }
{
    match sides {
        [] => 0,
        [side, ..] => side.at,
    }
}

fn first_columns(alloc: Global, sides: &[CheckedQuery]) -> Result<Vec<Column>, OutOfMemory>
    ensures { IfOk result (λ columns. columns.items ≡ spec.first_columns (map query_seen sides.now)) }
{
    match sides {
        [] => Ok(Vec::new(alloc)),
        [side, ..] => copied_columns(alloc, &side.columns),
    }
}

fn copied_columns(alloc: Global, columns: &[Column]) -> Result<Vec<Column>, OutOfMemory>
    ensures { IfOk result (λ copies. copies.items ≡ columns.now) }
{
    let mut copies = Vec::new(alloc);
    for column in columns {
        let name = OwnedText::copied(alloc, column.name.as_str())?;
        copies.push(Column {
            name,
            kind: column.kind,
        })?;
    }
    Ok(copies)
}

fn bodies(alloc: Global, sides: Vec<CheckedQuery>) -> Result<Vec<TypedQuery>, OutOfMemory>
    ensures { IfOk result (λ bodies. map typed.query_of bodies.items ≡ spec.bodies_of (map query_seen sides.items)) }
{
    let mut bodies = Vec::new(alloc);
    for side in sides {
        bodies.push(side.body)?;
    }
    Ok(bodies)
}

fn joined(at: u32, columns: Vec<Column>, bodies: Vec<TypedQuery>) -> CheckedQuery
    ensures at { result.at ≡ at }
    ensures columns { result.columns ≡ columns }
    ensures body { typed.query_of result.body ≡ tree.union (tree.as_queries (map typed.query_of bodies.items)) }
{
    CheckedQuery {
        at,
        columns,
        body: TypedQuery::Union(bodies),
    }
}

/// The difference of two sides without a fault.
#[tactic(auto, using(clause_types::specs::FaultLaws::first_here, crate::proofs::SourceFaults::minus_is))]
pub(crate) fn differ(
    alloc: Global,
    left: CheckedQuery,
    right: CheckedQuery,
) -> Result<CheckedQuery, Failure<Breach>>
    ensures ok { IfOk result (λ q. spec.minus_of (query_seen left) (query_seen right) ≡ query_seen q) }
    ensures fault { IfErr result (IsFirst (spec.minus_of (query_seen left) (query_seen right)).faults) }
{
    refuse_side(&left, &right)?;
    let query = minus(alloc, left, right)?;
    Ok(query)
}

/// The difference of two sides, in words of their parts.
fn minus(
    alloc: Global,
    left: CheckedQuery,
    right: CheckedQuery,
) -> Result<CheckedQuery, OutOfMemory>
    ensures { IfOk result (λ q. query_seen q ≡ spec.minus_with (query_seen left) (query_seen right)) }
{
    let CheckedQuery { at, columns, body } = left;
    let CheckedQuery { body: other, .. } = right;
    let kept = Box::new(alloc, body)?;
    let taken = Box::new(alloc, other)?;
    Ok(CheckedQuery {
        at,
        columns,
        body: TypedQuery::Minus(kept, taken),
    })
}
