//! Extractions: what they find in a row of their source.

ghost use Rattle.std.specs.Prelude.{◌≡◌, ◌++◌, [], map, option_map, OnOk, IfOk, IfErr};
ghost use Rattle.scalar_ops.specs.Views.{term_of as expr_term};
ghost use Rattle.aql_syntax.specs.Views.{name_of, item_of, group_of, spec_of, tail_of};
ghost use Rattle.aql_typed.specs.Views as typed;
ghost use Rattle.clause_types.specs.Clauses.{kind_faults};
ghost use Rattle.clause_types.specs.Extractions as spec;
ghost use Rattle.clause_types.specs.Items as items;
ghost use Rattle.clause_types.specs.Knowns.{known_of};
ghost use Rattle.clause_types.specs.Parts.{SameTail};
ghost use Rattle.clause_types.specs.Refusals.{IsFirst};
ghost use Rattle.clause_types.specs.Scopes.{row_over};
ghost use Rattle.clause_types.specs.Typings.{column_meant};
ghost use Rattle.clause_types.specs.Views.{scope_of, visible_of, item_seen, label_of};
ghost use Rattle.scalar_ops.specs.declared.kind.Kind.TheVariants as kind;

use crate::call::refuse_wrong;
use crate::clause::{consolidation, limit, wanted_terms};
use crate::columns::{columns, extract_items, labels, plain_exprs};
use crate::fault::Breach;
use crate::item::CheckedItem;
use crate::known::Known;
use crate::label::{Label, refuse_columns};
use crate::looked::looked_for;
use crate::scope::{Names, Scope, Visible, column};
use crate::wanted::Wanted;
use aql_syntax::{Extract, Ident, Item, Number, Spec};
use aql_typed::{Column, Consolidate, ExtractClauses};
use scalar_ops::{Expr, Exprs, Kind};
use span_token::{Failure, OutOfMemory, OwnedText};
use std::alloc::Global;

/// What the clauses after the source stand for.
#[derive(Debug, Drop)]
pub(crate) struct TailParts {
    conds: Vec<Expr>,
    consolidate: Option<Consolidate>,
    limit: Option<u64>,
}

/// What an extraction does with the rows of its source, and its columns.
#[derive(Debug, Drop)]
pub struct CheckedFound {
    pub columns: Vec<Column>,
    pub clauses: ExtractClauses,
}

/// The clauses and the columns of an extraction over a source, or its first fault but for those of the
/// source: of its items, the column in which it looks, what it looks for, output names, and its clauses.
///
/// Columns of the source count from 0. Recurses as deep as calls nest.
///
/// Meaning: `extract_clauses` and `found_faults`, `specs/Extractions.antt`.
pub fn found_over(
    alloc: Global,
    known: &Known<'_>,
    sources: &[Visible<'_>],
    query: &Extract,
) -> Result<CheckedFound, Failure<Breach>>
    ensures ok { IfOk result (λ found. typed.extract_clauses_of found.clauses ≡ spec.extract_clauses (known_of known.now) (row_over (map visible_of sources.now)) (map item_of query.now.items.items) (spec_of query.now.spec) (tail_of query.now)) }
    ensures columns { IfOk result (λ found. found.columns.items ≡ spec.columns_given (known_of known.now) (row_over (map visible_of sources.now)) (map item_of query.now.items.items) (spec_of query.now.spec) (tail_of query.now)) }
    ensures none { OnOk result (spec.found_faults (known_of known.now) (row_over (map visible_of sources.now)) (map item_of query.now.items.items) (spec_of query.now.spec) (tail_of query.now) ≡ []) }
    ensures fault { IfErr result (IsFirst (spec.found_faults (known_of known.now) (row_over (map visible_of sources.now)) (map item_of query.now.items.items) (spec_of query.now.spec) (tail_of query.now))) }
{
    let row = Scope {
        sources,
        names: Names::Nothing,
    };
    found(alloc, known, &row, query)
}

/// What an extraction finds in the rows of its source.
fn found(
    alloc: Global,
    known: &Known<'_>,
    row: &Scope<'_>,
    query: &Extract,
) -> Result<CheckedFound, Failure<Breach>>
    ensures ok { IfOk result (λ found. typed.extract_clauses_of found.clauses ≡ spec.extract_clauses (known_of known.now) (scope_of row.now) (map item_of query.now.items.items) (spec_of query.now.spec) (tail_of query.now)) }
    ensures columns { IfOk result (λ found. found.columns.items ≡ spec.columns_given (known_of known.now) (scope_of row.now) (map item_of query.now.items.items) (spec_of query.now.spec) (tail_of query.now)) }
    ensures none { OnOk result (spec.found_faults (known_of known.now) (scope_of row.now) (map item_of query.now.items.items) (spec_of query.now.spec) (tail_of query.now) ≡ []) }
    ensures fault { IfErr result (IsFirst (spec.found_faults (known_of known.now) (scope_of row.now) (map item_of query.now.items.items) (spec_of query.now.spec) (tail_of query.now))) }
{
    let checked = extract_items(alloc, known, row, items_beside(&query.spec, &query.items))?;
    let column = column_on(alloc, known, row, &query.spec)?;
    let extraction = looked_for(alloc, known, column, &query.spec)?;
    refuse_names(alloc, &checked, &query.spec)?;
    let columns = columns_given(alloc, &checked, &query.spec)?;
    let tail = tail_over(alloc, known, &columns, query)?;
    let items = plain_exprs(alloc, checked)?;
    Ok(CheckedFound {
        columns,
        clauses: extract_clauses(items, extraction, tail),
    })
}

/// The items; blocks stand without.
fn items_beside<'a>(sought: &Spec, items: &'a [Item]) -> &'a [Item]
    ensures { map item_of result.now ≡ spec.items_beside (spec_of sought.now) (map item_of items.now) }
{
    match sought {
        Spec::Blocks { .. } => &[],
        Spec::Regex { .. } => items,
        Spec::Dict { .. } => items,
    }
}

/// The number of the column in which is looked.
#[tactic(auto, using(crate::specs::FaultLaws::first_here, crate::specs::FaultLaws::first_later, crate::specs::FaultLaws::all_faultless))]
fn column_on(
    alloc: Global,
    known: &Known<'_>,
    row: &Scope<'_>,
    sought: &Spec,
) -> Result<u32, Failure<Breach>>
    ensures ok { IfOk result (λ n. n ≡ column_meant (spec.typing_on (scope_of row.now).sources (spec_of sought.now)).meant) }
    ensures none { OnOk result (kind_faults (known_of known.now) kind.Span (spec.typing_on (scope_of row.now).sources (spec_of sought.now)) ≡ []) }
    ensures fault { IfErr result (IsFirst (kind_faults (known_of known.now) kind.Span (spec.typing_on (scope_of row.now).sources (spec_of sought.now)))) }
{
    let alias = alias_on(sought);
    let given = column(alloc, row.sources, alias.at, alias, name_on(sought))?;
    refuse_wrong(known, Wanted::OfKind(Kind::Span), &given)?;
    Ok(given.meant.column())
}

fn alias_on(sought: &Spec) -> &Ident
    ensures { name_of result.now ≡ spec.alias_on (spec_of sought.now) }
{
    match sought {
        Spec::Regex { on, .. } => &on.0,
        Spec::Dict { on, .. } => &on.0,
        Spec::Blocks { on, .. } => &on.0,
    }
}

fn name_on(sought: &Spec) -> &Ident
    ensures { name_of result.now ≡ spec.name_on (spec_of sought.now) }
{
    match sought {
        Spec::Regex { on, .. } => &on.1,
        Spec::Dict { on, .. } => &on.1,
        Spec::Blocks { on, .. } => &on.1,
    }
}

/// Refuses an output name that is given twice.
fn refuse_names(
    alloc: Global,
    checked: &[CheckedItem],
    sought: &Spec,
) -> Result<(), Failure<Breach>>
    ensures ok { OnOk result (items.duplicate_columns (items.names_of_items (map item_seen checked.now) ++ spec.names_found (spec_of sought.now)) ≡ []) }
    ensures fault { IfErr result (IsFirst (items.duplicate_columns (items.names_of_items (map item_seen checked.now) ++ spec.names_found (spec_of sought.now)))) }
{
    let mut labels = labels(alloc, checked)?;
    append_found(&mut labels, sought)?;
    refuse_columns(alloc, &labels)
}

/// Appends the names of the columns that are found.
fn append_found<'a>(labels: &mut Vec<Label<'a>>, sought: &'a Spec) -> Result<(), OutOfMemory>
    ensures { OnOk result (map label_of labels.new.items ≡ map label_of labels.old.items ++ spec.names_found (spec_of sought.now)) }
{
    match sought {
        Spec::Regex { groups, .. } => append_groups(labels, groups),
        Spec::Dict { name, .. } => {
            labels.push(label(name))?;
            Ok(())
        }
        Spec::Blocks { name, .. } => {
            labels.push(label(name))?;
            Ok(())
        }
    }
}

fn append_groups<'a>(
    labels: &mut Vec<Label<'a>>,
    groups: &'a [(Option<Number>, Ident)],
) -> Result<(), OutOfMemory>
    ensures { OnOk result (map label_of labels.new.items ≡ map label_of labels.old.items ++ spec.names_of_groups (map group_of groups.now)) }
{
    for group in groups {
        labels.push(label(&group.1))?;
    }
    Ok(())
}

fn label(name: &Ident) -> Label<'_>
    ensures { label_of result ≡ name_of name.now }
{
    Label {
        text: name.text.as_str(),
        at: name.at,
    }
}

/// The columns of the items, and then of what is found.
fn columns_given(
    alloc: Global,
    checked: &[CheckedItem],
    sought: &Spec,
) -> Result<Vec<Column>, OutOfMemory>
    ensures { IfOk result (λ columns. columns.items ≡ items.columns_of_items (map item_seen checked.now) ++ spec.columns_found (spec_of sought.now)) }
{
    let mut labels = Vec::new(alloc);
    append_found(&mut labels, sought)?;
    let mut columns = columns(alloc, checked)?;
    append_spans(alloc, &mut columns, &labels)?;
    Ok(columns)
}

fn append_spans(
    alloc: Global,
    columns: &mut Vec<Column>,
    labels: &[Label<'_>],
) -> Result<(), OutOfMemory>
    ensures { OnOk result (columns.new.items ≡ columns.old.items ++ spec.span_columns (map label_of labels.now)) }
{
    for label in labels {
        let name = OwnedText::copied(alloc, label.text)?;
        columns.push(Column {
            name,
            kind: Kind::Span,
        })?;
    }
    Ok(())
}

/// The clauses, where bare names are these columns.
fn tail_over(
    alloc: Global,
    known: &Known<'_>,
    columns: &[Column],
    query: &Extract,
) -> Result<TailParts, Failure<Breach>>
    ensures ok { IfOk result (SameTail (known_of known.now) (spec.column_scope columns.now) (tail_of query.now)) }
    ensures none { OnOk result (spec.tail_faults (known_of known.now) (spec.column_scope columns.now) (tail_of query.now) ≡ []) }
    ensures fault { IfErr result (IsFirst (spec.tail_faults (known_of known.now) (spec.column_scope columns.now) (tail_of query.now))) }
{
    let scope = Scope {
        sources: &[],
        names: Names::OfColumns(columns),
    };
    tail(alloc, known, &scope, query)
}

/// The clauses, in the order of checking.
#[tactic(auto, using(crate::specs::FaultLaws::first_here, crate::specs::FaultLaws::first_later, crate::specs::FaultLaws::all_faultless))]
fn tail(
    alloc: Global,
    known: &Known<'_>,
    scope: &Scope<'_>,
    query: &Extract,
) -> Result<TailParts, Failure<Breach>>
    ensures ok { IfOk result (SameTail (known_of known.now) (scope_of scope.now) (tail_of query.now)) }
    ensures none { OnOk result (spec.tail_faults (known_of known.now) (scope_of scope.now) (tail_of query.now) ≡ []) }
    ensures fault { IfErr result (IsFirst (spec.tail_faults (known_of known.now) (scope_of scope.now) (tail_of query.now))) }
{
    let conds = wanted_terms(alloc, known, scope, Kind::Boolean, &query.conds)?;
    let consolidate = consolidation(alloc, known, scope, &query.cons)?;
    let limit = limit(&query.limit)?;
    Ok(TailParts {
        conds,
        consolidate,
        limit,
    })
}

/// The clauses with the items and what is looked for.
fn extract_clauses(
    items: Vec<Expr>,
    extraction: aql_typed::Extraction,
    tail: TailParts,
) -> ExtractClauses
    ensures { typed.extract_clauses_of result ≡ record { items = map expr_term items.items; extraction = typed.extraction_of extraction; conds = map expr_term tail.conds.items; consolidate = option_map typed.consolidation_of tail.consolidate; limit = tail.limit } }
{
    let TailParts {
        conds,
        consolidate,
        limit,
    } = tail;
    ExtractClauses {
        items: Exprs::from(items),
        extraction,
        conds: Exprs::from(conds),
        consolidate,
        limit,
    }
}
