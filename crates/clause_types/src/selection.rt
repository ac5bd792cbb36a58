//! Selections: what they do with a row of their sources.

ghost use Rattle.std.specs.Prelude.{◌≡◌, [], map, option_map, length, OnOk, IfOk, IfErr};
ghost use Rattle.scalar_ops.specs.Views.{term_of as expr_term};
ghost use Rattle.aql_syntax.specs.Views.{term_of, item_of, clauses_of};
ghost use Rattle.aql_typed.specs.Views as typed;
ghost use Rattle.clause_types.specs.Items as items;
ghost use Rattle.clause_types.specs.Knowns.{known_of};
ghost use Rattle.clause_types.specs.Refusals.{IsFirst};
ghost use Rattle.clause_types.specs.Selections as spec;
ghost use Rattle.clause_types.specs.Parts.{parts_of, SameParts, clauses_with};
ghost use Rattle.clause_types.specs.Scopes.{row_over};
ghost use Rattle.clause_types.specs.Views.{scope_of, visible_of, item_seen};

use crate::clause::{consolidation, limit, order, wanted_terms};
use crate::columns::{
    aggregates, arguments, columns, groups, plain_exprs, refuse_not_grouped, refuse_repeated,
    select_items,
};
use crate::fault::Breach;
use crate::item::CheckedItem;
use crate::known::Known;
use crate::scope::{Names, Scope, Visible};
use aql_syntax::{Ast, Item, Select};
use aql_typed::{Column, Consolidate, Projection, SelectClauses};
use scalar_ops::{Expr, Exprs, Kind};
use span_token::{Failure, OutOfMemory};
use std::alloc::Global;

/// What the clauses of a selection stand for, but for its columns.
#[derive(Debug, Drop)]
pub(crate) struct Parts {
    conds: Vec<Expr>,
    consolidate: Option<Consolidate>,
    keys: Vec<Expr>,
    order: Vec<u32>,
    limit: Option<u64>,
}

/// What a selection does with the rows of its sources, and its columns.
#[derive(Debug, Drop)]
pub struct CheckedRows {
    pub columns: Vec<Column>,
    pub clauses: SelectClauses,
}

/// The clauses and the columns of a selection over some sources, or its first fault but for those of the
/// sources and their aliases: of its items from the left, their names, and its clauses.
///
/// Columns of the sources count from 0 through all of them. Recurses as deep as calls nest.
///
/// Meaning: `rows_clauses` and `rows_faults`, `specs/Selections.antt`.
pub fn rows_over(
    alloc: Global,
    known: &Known<'_>,
    sources: &[Visible<'_>],
    query: &Select,
) -> Result<CheckedRows, Failure<Breach>>
    ensures ok { IfOk result (λ rows. typed.select_clauses_of rows.clauses ≡ spec.rows_clauses (known_of known.now) (row_over (map visible_of sources.now)) (map item_of query.now.items.items) (clauses_of query.now)) }
    ensures columns { IfOk result (λ rows. rows.columns.items ≡ items.columns_of_items (spec.items_typed (known_of known.now) (row_over (map visible_of sources.now)) (map item_of query.now.items.items) (clauses_of query.now))) }
    ensures none { OnOk result (spec.rows_faults (known_of known.now) (row_over (map visible_of sources.now)) (map item_of query.now.items.items) (clauses_of query.now) ≡ []) }
    ensures fault { IfErr result (IsFirst (spec.rows_faults (known_of known.now) (row_over (map visible_of sources.now)) (map item_of query.now.items.items) (clauses_of query.now))) }
{
    let row = Scope {
        sources,
        names: Names::Nothing,
    };
    rows(alloc, known, &row, query)
}

/// The rows of a selection: its items, their names, and its clauses.
#[tactic(auto, using(crate::specs::FaultLaws::first_here, crate::specs::FaultLaws::first_later, crate::specs::FaultLaws::all_faultless))]
fn rows(
    alloc: Global,
    known: &Known<'_>,
    row: &Scope<'_>,
    query: &Select,
) -> Result<CheckedRows, Failure<Breach>>
    ensures ok { IfOk result (λ rows. typed.select_clauses_of rows.clauses ≡ spec.rows_clauses (known_of known.now) (scope_of row.now) (map item_of query.now.items.items) (clauses_of query.now)) }
    ensures columns { IfOk result (λ rows. rows.columns.items ≡ items.columns_of_items (spec.items_typed (known_of known.now) (scope_of row.now) (map item_of query.now.items.items) (clauses_of query.now))) }
    ensures none { OnOk result (spec.rows_faults (known_of known.now) (scope_of row.now) (map item_of query.now.items.items) (clauses_of query.now) ≡ []) }
    ensures fault { IfErr result (IsFirst (spec.rows_faults (known_of known.now) (scope_of row.now) (map item_of query.now.items.items) (clauses_of query.now))) }
{
    let checked = select_items(alloc, known, row, &query.items)?;
    refuse_repeated(alloc, &checked)?;
    let columns = columns(alloc, &checked)?;
    let parts = item_parts(alloc, known, row, &checked, query)?;
    let clauses = clauses(alloc, query, checked, parts)?;
    Ok(CheckedRows { columns, clauses })
}

/// The clauses, with the items that bare names stand for.
fn item_parts(
    alloc: Global,
    known: &Known<'_>,
    row: &Scope<'_>,
    checked: &[CheckedItem],
    query: &Select,
) -> Result<Parts, Failure<Breach>>
    requires { length query.now.items.items ≡ length checked.now }
    ensures ok { IfOk result (SameParts (known_of known.now) (scope_of row.now) (spec.scope_with (scope_of row.now) (map item_seen checked.now)) (map item_of query.now.items.items) (clauses_of query.now)) }
    ensures none { OnOk result (spec.clause_faults (known_of known.now) (scope_of row.now) (spec.scope_with (scope_of row.now) (map item_seen checked.now)) (map item_of query.now.items.items) (map item_seen checked.now) (clauses_of query.now) ≡ []) }
    ensures fault { IfErr result (IsFirst (spec.clause_faults (known_of known.now) (scope_of row.now) (spec.scope_with (scope_of row.now) (map item_seen checked.now)) (map item_of query.now.items.items) (map item_seen checked.now) (clauses_of query.now))) }
{
    let scope = Scope {
        sources: row.sources,
        names: Names::OfItems(checked),
    };
    clause_parts(alloc, known, row, &scope, checked, query)
}

/// The clauses, in the order of checking.
#[tactic(auto, using(crate::specs::FaultLaws::first_here, crate::specs::FaultLaws::first_later, crate::specs::FaultLaws::all_faultless))]
fn clause_parts(
    alloc: Global,
    known: &Known<'_>,
    row: &Scope<'_>,
    scope: &Scope<'_>,
    checked: &[CheckedItem],
    query: &Select,
) -> Result<Parts, Failure<Breach>>
    requires { length query.now.items.items ≡ length checked.now }
    ensures ok { IfOk result (SameParts (known_of known.now) (scope_of row.now) (scope_of scope.now) (map item_of query.now.items.items) (clauses_of query.now)) }
    ensures none { OnOk result (spec.clause_faults (known_of known.now) (scope_of row.now) (scope_of scope.now) (map item_of query.now.items.items) (map item_seen checked.now) (clauses_of query.now) ≡ []) }
    ensures fault { IfErr result (IsFirst (spec.clause_faults (known_of known.now) (scope_of row.now) (scope_of scope.now) (map item_of query.now.items.items) (map item_seen checked.now) (clauses_of query.now))) }
{
    let conds = wanted_terms(alloc, known, row, Kind::Boolean, &query.conds)?;
    let consolidate = consolidation(alloc, known, scope, &query.cons)?;
    let keys = wanted_terms(alloc, known, scope, Kind::Any, &query.group)?;
    refuse_grouping(&query.items, &query.group, checked)?;
    let order = order(alloc, known, scope, &query.items, &query.order)?;
    let limit = limit(&query.limit)?;
    Ok(Parts {
        conds,
        consolidate,
        keys,
        order,
        limit,
    })
}

/// Refuses an item that is no key, where the selection groups.
fn refuse_grouping(
    items: &[Item],
    keys: &[Ast],
    checked: &[CheckedItem],
) -> Result<(), Failure<Breach>>
    requires { length items.now ≡ length checked.now }
    ensures ok { OnOk result (spec.grouped_faults (map item_of items.now) (map item_seen checked.now) (map term_of keys.now) ≡ []) }
    ensures fault { IfErr result (IsFirst (spec.grouped_faults (map item_of items.now) (map item_seen checked.now) (map term_of keys.now))) }
{
    if groups(keys, checked) {
        refuse_not_grouped(items, keys, checked)
    } else {
        Ok(())
    }
}

/// What the parts and the columns are together.
fn clauses(
    alloc: Global,
    query: &Select,
    checked: Vec<CheckedItem>,
    parts: Parts,
) -> Result<SelectClauses, OutOfMemory>
    requires { length query.now.items.items ≡ length checked.items }
    ensures { IfOk result (λ c. typed.select_clauses_of c ≡ clauses_with (parts_of parts) (map item_of query.now.items.items) (map item_seen checked.items) (clauses_of query.now)) }
{
    let Parts {
        conds,
        consolidate,
        keys,
        order,
        limit,
    } = parts;
    let projection = projection(alloc, &query.items, &query.group, checked, keys)?;
    Ok(SelectClauses {
        conds: Exprs::from(conds),
        consolidate,
        projection,
        order,
        limit,
    })
}

/// The columns of a selection.
fn projection(
    alloc: Global,
    items: &[Item],
    group: &[Ast],
    checked: Vec<CheckedItem>,
    keys: Vec<Expr>,
) -> Result<Projection, OutOfMemory>
    requires { length items.now ≡ length checked.items }
    ensures { IfOk result (λ p. typed.projection_of p ≡ spec.projection_by (map expr_term keys.items) (map item_of items.now) (map item_seen checked.items) (map term_of group.now)) }
{
    if groups(group, &checked) {
        let aggregates = aggregates(alloc, items, group, &checked)?;
        let arguments = arguments(alloc, checked)?;
        Ok(Projection::Grouped {
            keys: Exprs::from(keys),
            arguments: Exprs::from(arguments),
            aggregates,
        })
    } else {
        let exprs = plain_exprs(alloc, checked)?;
        Ok(Projection::Plain(Exprs::from(exprs)))
    }
}
