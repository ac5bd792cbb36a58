//! Queries: sources, selections, extractions, unions and differences.

ghost use Rattle.std.specs.Prelude.{◌≡◌, map, option_map, IfOk, IfErr};
ghost use Rattle.aql_syntax.specs.Views as see;
ghost use Rattle.aql_typed.specs.Views as typed;
ghost use Rattle.clause_types.specs.Knowns.{known_of};
ghost use Rattle.aql_types.specs.Queries as spec;
ghost use Rattle.aql_types.specs.QueryTypings.{extraction, selection, faults_of_sources};
ghost use Rattle.clause_types.specs.Refusals.{IsFirst};
ghost use Rattle.aql_types.specs.Sources.{source_seen, query_seen};
ghost use Rattle.aql_types.specs.Programs.{view_seen};

use crate::below::{Columns, view_source};
use crate::sides::{differ, unite};
use crate::source::{CheckedQuery, CheckedSource, extract, select};
use aql_syntax::{Extract, FromPart, Ident, Query, Select};
use aql_typed::{TypedSource, TypedView};
use clause_types::{Breach, Known};
use span_token::{Failure, OutOfMemory, OwnedText};
use std::alloc::Global;

/// A query, where `below` are the views that it may use.
///
/// Recurses as deep as queries nest.
///
/// Meaning: `typing_of_query`, `specs/Queries.antt`.
#[cycle(query)]
#[tactic(auto, using(clause_types::specs::FaultLaws::first_here, clause_types::specs::FaultLaws::first_later))]
pub(crate) fn query(
    alloc: Global,
    known: &Known<'_>,
    below: &[TypedView],
    query: &Query,
) -> Result<CheckedQuery, Failure<Breach>>
    ensures ok { IfOk result (λ q. spec.typing_of_query (known_of known.now) (map view_seen below.now) (see.query_of query.now) ≡ query_seen q) }
    ensures fault { IfErr result (IsFirst (spec.typing_of_query (known_of known.now) (map view_seen below.now) (see.query_of query.now)).faults) }
{
    match query {
        Query::Select(query) => selected(alloc, known, below, query),
        Query::Extract(query) => extracted(alloc, known, below, query),
        Query::Union(sides) => united(alloc, known, below, sides),
        Query::Minus(left, right) => {
            let left = self::query(alloc, known, below, left)?;
            let right = self::query(alloc, known, below, right)?;
            differ(alloc, left, right)
        }
    }
}

/// A selection: its sources from the left, and then the rest.
#[cycle(query)]
#[tactic(auto, using(clause_types::specs::FaultLaws::first_here))]
fn selected(
    alloc: Global,
    known: &Known<'_>,
    below: &[TypedView],
    query: &Select,
) -> Result<CheckedQuery, Failure<Breach>>
    ensures ok { IfOk result (λ q. selection (known_of known.now) (map (spec.typing_of_source (known_of known.now) (map view_seen below.now)) (map see.source_of query.now.sources.items)) (map see.item_of query.now.items.items) (see.clauses_of query.now) query.now.at ≡ query_seen q) }
    ensures fault { IfErr result (IsFirst (selection (known_of known.now) (map (spec.typing_of_source (known_of known.now) (map view_seen below.now)) (map see.source_of query.now.sources.items)) (map see.item_of query.now.items.items) (see.clauses_of query.now) query.now.at).faults) }
{
    let sources = sources(alloc, known, below, &query.sources)?;
    select(alloc, known, sources, query)
}

#[cycle(query)]
#[tactic(auto, using(clause_types::specs::FaultLaws::first_here))]
fn sources<'a>(
    alloc: Global,
    known: &Known<'_>,
    below: &'a [TypedView],
    parts: &[FromPart],
) -> Result<Vec<CheckedSource<'a>>, Failure<Breach>>
    ensures ok { IfOk result (λ all. map (spec.typing_of_source (known_of known.now) (map view_seen below.now)) (map see.source_of parts.now) ≡ map source_seen all.items) }
    ensures fault { IfErr result (IsFirst (faults_of_sources (map (spec.typing_of_source (known_of known.now) (map view_seen below.now)) (map see.source_of parts.now)))) }
{
    let mut all = Vec::new(alloc);
    for part in parts {
        let checked = source(alloc, known, below, part)?;
        all.push(checked)?;
    }
    Ok(all)
}

#[cycle(query)]
fn source<'a>(
    alloc: Global,
    known: &Known<'_>,
    below: &'a [TypedView],
    part: &FromPart,
) -> Result<CheckedSource<'a>, Failure<Breach>>
    ensures ok { IfOk result (λ s. spec.typing_of_source (known_of known.now) (map view_seen below.now) (see.source_of part.now) ≡ source_seen s) }
    ensures fault { IfErr result (IsFirst (spec.typing_of_source (known_of known.now) (map view_seen below.now) (see.source_of part.now)).faults) }
{
    match part {
        FromPart::View { name, alias } => {
            let source = view_source(alloc, below, alias_or(name, alias), name.text.as_str())?;
            Ok(source)
        }
        FromPart::Nested { query, alias } => {
            let inner = self::query(alloc, known, below, query)?;
            let source = nested(alloc, alias, inner)?;
            Ok(source)
        }
    }
}

/// The alias, or else the view's name.
fn alias_or<'a>(name: &'a Ident, alias: &'a Option<Ident>) -> &'a Ident
    ensures { see.name_of result.now ≡ spec.alias_or (see.name_of name.now) (option_map see.name_of alias.now) }
{
    match alias {
        Some(alias) => alias,
        None => name,
    }
}

/// A query as a source.
fn nested<'a>(
    alloc: Global,
    alias: &Ident,
    inner: CheckedQuery,
) -> Result<CheckedSource<'a>, OutOfMemory>
    ensures { IfOk result (λ s. spec.typing_of_nested (see.name_of alias.now) (query_seen inner) ≡ source_seen s) }
{
    let text = OwnedText::copied(alloc, alias.text.as_str())?;
    let CheckedQuery { columns, body, .. } = inner;
    Ok(CheckedSource {
        alias: Ident { text, at: alias.at },
        columns: Columns::Own(columns),
        body: TypedSource::Nested(Box::new(alloc, body)?),
    })
}

/// An extraction: its source, and then the rest.
#[cycle(query)]
#[tactic(auto, using(clause_types::specs::FaultLaws::first_here))]
fn extracted(
    alloc: Global,
    known: &Known<'_>,
    below: &[TypedView],
    query: &Extract,
) -> Result<CheckedQuery, Failure<Breach>>
    ensures ok { IfOk result (λ q. extraction (known_of known.now) (spec.typing_of_source (known_of known.now) (map view_seen below.now) (see.source_of query.now.source)) (map see.item_of query.now.items.items) (see.spec_of query.now.spec) (see.tail_of query.now) query.now.at ≡ query_seen q) }
    ensures fault { IfErr result (IsFirst (extraction (known_of known.now) (spec.typing_of_source (known_of known.now) (map view_seen below.now) (see.source_of query.now.source)) (map see.item_of query.now.items.items) (see.spec_of query.now.spec) (see.tail_of query.now) query.now.at).faults) }
{
    let source = source(alloc, known, below, &query.source)?;
    extract(alloc, known, source, query)
}

/// The sides of a union, from the left, and then their columns.
#[cycle(query)]
#[tactic(auto, using(clause_types::specs::FaultLaws::first_here))]
fn united(
    alloc: Global,
    known: &Known<'_>,
    below: &[TypedView],
    sides: &[Query],
) -> Result<CheckedQuery, Failure<Breach>>
    ensures ok { IfOk result (λ q. spec.union_of (map (spec.typing_of_query (known_of known.now) (map view_seen below.now)) (map see.query_of sides.now)) ≡ query_seen q) }
    ensures fault { IfErr result (IsFirst (spec.union_of (map (spec.typing_of_query (known_of known.now) (map view_seen below.now)) (map see.query_of sides.now))).faults) }
{
    let sides = queries(alloc, known, below, sides)?;
    unite(alloc, sides)
}

#[cycle(query)]
#[tactic(auto, using(clause_types::specs::FaultLaws::first_here))]
fn queries(
    alloc: Global,
    known: &Known<'_>,
    below: &[TypedView],
    sides: &[Query],
) -> Result<Vec<CheckedQuery>, Failure<Breach>>
    ensures ok { IfOk result (λ all. map (spec.typing_of_query (known_of known.now) (map view_seen below.now)) (map see.query_of sides.now) ≡ map query_seen all.items) }
    ensures fault { IfErr result (IsFirst (spec.faults_of_sides (map (spec.typing_of_query (known_of known.now) (map view_seen below.now)) (map see.query_of sides.now)))) }
{
    let mut all = Vec::new(alloc);
    for side in sides {
        let checked = query(alloc, known, below, side)?;
        all.push(checked)?;
    }
    Ok(all)
}
