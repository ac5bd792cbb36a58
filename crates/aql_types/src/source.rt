//! Sources of a query without a fault.

ghost use Rattle.std.specs.Prelude.{◌≡◌, [], map, OnOk, IfOk, IfErr};
ghost use Rattle.aql_syntax.specs.Views.{item_of, spec_of, tail_of, clauses_of};
ghost use Rattle.aql_typed.specs.Views as typed;
ghost use Rattle.aql_types.specs.QueryTypings as spec;
ghost use Rattle.clause_types.specs.Items.{columns_of_items};
ghost use Rattle.clause_types.specs.Knowns.{known_of};
ghost use Rattle.clause_types.specs.Refusals.{IsFirst};
ghost use Rattle.clause_types.specs.Selections as selections;
ghost use Rattle.aql_types.specs.Sources.{source_seen, query_seen};
ghost use Rattle.clause_types.specs.Views.{visible_of, label_of};
ghost use Rattle.clause_types.specs.Extractions as extractions;

use crate::below::Columns;
use aql_syntax::{Extract, Ident, Select};
use aql_typed::{Column, TypedExtract, TypedQuery, TypedSelect, TypedSource};
use clause_types::{
    Breach, CheckedFound, CheckedRows, Known, Label, Visible, found_over, refuse_aliases, rows_over,
};
use span_token::{Failure, OutOfMemory};
use std::alloc::Global;

/// A source without a fault.
#[derive(Debug, Drop)]
pub(crate) struct CheckedSource<'a> {
    pub(crate) alias: Ident,
    pub(crate) columns: Columns<'a>,
    pub(crate) body: TypedSource,
}

/// A query without a fault.
#[derive(Debug, Drop)]
pub(crate) struct CheckedQuery {
    pub(crate) at: u32,
    pub(crate) columns: Vec<Column>,
    pub(crate) body: TypedQuery,
}

/// A selection over sources without a fault.
#[tactic(auto, using(clause_types::specs::FaultLaws::first_here, clause_types::specs::FaultLaws::first_later, clause_types::specs::FaultLaws::all_faultless, crate::proofs::SourceFaults::sources_faultless))]
pub(crate) fn select(
    alloc: Global,
    known: &Known<'_>,
    sources: Vec<CheckedSource<'_>>,
    query: &Select,
) -> Result<CheckedQuery, Failure<Breach>>
    ensures ok { IfOk result (λ q. spec.selection (known_of known.now) (map source_seen sources.entry.items) (map item_of query.now.items.items) (clauses_of query.now) query.now.at ≡ query_seen q) }
    ensures fault { IfErr result (IsFirst (spec.selection (known_of known.now) (map source_seen sources.entry.items) (map item_of query.now.items.items) (clauses_of query.now) query.now.at).faults) }
{
    refuse_same(alloc, &sources)?;
    let rows = rows_of(alloc, known, &sources, query)?;
    let sources = bodies(alloc, sources)?;
    Ok(selected(query.at, sources, rows))
}

/// Refuses an alias that two sources have.
fn refuse_same(alloc: Global, sources: &[CheckedSource<'_>]) -> Result<(), Failure<Breach>>
    ensures ok { OnOk result (spec.duplicate_aliases (map source_seen sources.now) ≡ []) }
    ensures fault { IfErr result (IsFirst (spec.duplicate_aliases (map source_seen sources.now))) }
{
    let labels = labels(alloc, sources)?;
    refuse_aliases(alloc, &labels)
}

fn labels<'a>(
    alloc: Global,
    sources: &'a [CheckedSource<'_>],
) -> Result<Vec<Label<'a>>, OutOfMemory>
    ensures { IfOk result (λ labels. map label_of labels.items ≡ spec.aliases_of (map source_seen sources.now)) }
{
    let mut labels = Vec::new(alloc);
    for source in sources {
        labels.push(label(source))?;
    }
    Ok(labels)
}

fn label<'a>(source: &'a CheckedSource<'_>) -> Label<'a>
    ensures { label_of result ≡ (source_seen source.now).alias }
{
    Label {
        text: source.alias.text.as_str(),
        at: source.alias.at,
    }
}

/// The rows of a selection over its sources.
fn rows_of(
    alloc: Global,
    known: &Known<'_>,
    sources: &[CheckedSource<'_>],
    query: &Select,
) -> Result<CheckedRows, Failure<Breach>>
    ensures ok { IfOk result (λ rows. typed.select_clauses_of rows.clauses ≡ selections.rows_clauses (known_of known.now) (spec.row_of (map source_seen sources.now)) (map item_of query.now.items.items) (clauses_of query.now)) }
    ensures columns { IfOk result (λ rows. rows.columns.items ≡ columns_of_items (selections.items_typed (known_of known.now) (spec.row_of (map source_seen sources.now)) (map item_of query.now.items.items) (clauses_of query.now))) }
    ensures none { OnOk result (selections.rows_faults (known_of known.now) (spec.row_of (map source_seen sources.now)) (map item_of query.now.items.items) (clauses_of query.now) ≡ []) }
    ensures fault { IfErr result (IsFirst (selections.rows_faults (known_of known.now) (spec.row_of (map source_seen sources.now)) (map item_of query.now.items.items) (clauses_of query.now))) }
{
    let visible = visible_in(alloc, sources)?;
    rows_over(alloc, known, &visible, query)
}

/// The sources as expressions see them.
fn visible_in<'a>(
    alloc: Global,
    sources: &'a [CheckedSource<'_>],
) -> Result<Vec<Visible<'a>>, OutOfMemory>
    ensures { IfOk result (λ all. map visible_of all.items ≡ spec.visible_in (map source_seen sources.now)) }
{
    let mut all = Vec::new(alloc);
    for source in sources {
        all.push(visible(source))?;
    }
    Ok(all)
}

fn visible<'a>(source: &'a CheckedSource<'_>) -> Visible<'a>
    ensures { visible_of result ≡ spec.visible_source (source_seen source.now) }
{
    Visible {
        alias: source.alias.text.as_str(),
        columns: source.columns.as_slice(),
    }
}

/// What the sources are.
fn bodies(alloc: Global, sources: Vec<CheckedSource<'_>>) -> Result<Vec<TypedSource>, OutOfMemory>
    ensures { IfOk result (λ bodies. map typed.source_of bodies.items ≡ spec.bodies_of (map source_seen sources.entry.items)) }
{
    let mut bodies = Vec::new(alloc);
    for source in sources {
        bodies.push(source.body)?;
    }
    Ok(bodies)
}

/// A selection of what its rows and sources are.
fn selected(at: u32, sources: Vec<TypedSource>, rows: CheckedRows) -> CheckedQuery
    ensures at { result.at ≡ at }
    ensures columns { result.columns ≡ rows.columns }
    ensures body { typed.query_of result.body ≡ spec.selected (map typed.source_of sources.items) (typed.select_clauses_of rows.clauses) }
{
    let CheckedRows { columns, clauses } = rows;
    CheckedQuery {
        at,
        columns,
        body: TypedQuery::Select(TypedSelect { sources, clauses }),
    }
}

/// An extraction from a source without a fault.
pub(crate) fn extract(
    alloc: Global,
    known: &Known<'_>,
    source: CheckedSource<'_>,
    query: &Extract,
) -> Result<CheckedQuery, Failure<Breach>>
    ensures ok { IfOk result (λ q. spec.extraction (known_of known.now) (source_seen source.entry) (map item_of query.now.items.items) (spec_of query.now.spec) (tail_of query.now) query.now.at ≡ query_seen q) }
    ensures fault { IfErr result (IsFirst (spec.extraction (known_of known.now) (source_seen source.entry) (map item_of query.now.items.items) (spec_of query.now.spec) (tail_of query.now) query.now.at).faults) }
{
    let found = found_of(alloc, known, &source, query)?;
    let CheckedSource { body, .. } = source;
    let CheckedFound { columns, clauses } = found;
    Ok(CheckedQuery {
        at: query.at,
        columns,
        body: TypedQuery::Extract(TypedExtract {
            source: body,
            clauses,
        }),
    })
}

/// What an extraction finds over its source.
fn found_of(
    alloc: Global,
    known: &Known<'_>,
    source: &CheckedSource<'_>,
    query: &Extract,
) -> Result<CheckedFound, Failure<Breach>>
    ensures ok { IfOk result (λ found. typed.extract_clauses_of found.clauses ≡ extractions.extract_clauses (known_of known.now) (spec.row_of_one (source_seen source.now)) (map item_of query.now.items.items) (spec_of query.now.spec) (tail_of query.now)) }
    ensures columns { IfOk result (λ found. found.columns.items ≡ extractions.columns_given (known_of known.now) (spec.row_of_one (source_seen source.now)) (map item_of query.now.items.items) (spec_of query.now.spec) (tail_of query.now)) }
    ensures none { OnOk result (extractions.found_faults (known_of known.now) (spec.row_of_one (source_seen source.now)) (map item_of query.now.items.items) (spec_of query.now.spec) (tail_of query.now) ≡ []) }
    ensures fault { IfErr result (IsFirst (extractions.found_faults (known_of known.now) (spec.row_of_one (source_seen source.now)) (map item_of query.now.items.items) (spec_of query.now.spec) (tail_of query.now))) }
{
    found_over(alloc, known, &[visible(source)], query)
}
