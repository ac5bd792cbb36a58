//! The items of a selection together: their names, their columns, and what is told of groups.

ghost use Rattle.std.specs.Prelude.{◌≡◌, ◌<◌, [], map, option_map, option_to_list, length, OnOk, IfOk, IfErr};
ghost use Rattle.scalar_ops.specs.Views.{term_of as expr_term};
ghost use Rattle.aql_syntax.specs.Views.{term_of, item_of};
ghost use Rattle.clause_types.specs.Clauses as clauses;
ghost use Rattle.clause_types.specs.Items as spec;
ghost use Rattle.clause_types.specs.Knowns.{known_of};
ghost use Rattle.clause_types.specs.Refusals.{IsFirst};
ghost use Rattle.clause_types.specs.Selections as selections;
ghost use Rattle.clause_types.specs.Views.{scope_of, item_seen, content_of, label_of};

use crate::fault::{Breach, TypeRule};
use crate::function::Aggregate;
use crate::item::{CheckedItem, Content, extract_item, select_item};
use crate::key::key_number;
use crate::known::Known;
use crate::label::{Label, refuse_columns};
use crate::refusals::refusal;
use crate::scope::Scope;
use aql_syntax::{Ast, Item};
use aql_typed::Column;
use group_agg::Agg;
use scalar_ops::Expr;
use span_token::{Failure, OutOfMemory, OwnedText};
use std::alloc::Global;

/// The items of a selection, from the left.
pub(crate) fn select_items(
    alloc: Global,
    known: &Known<'_>,
    scope: &Scope<'_>,
    items: &[Item],
) -> Result<Vec<CheckedItem>, Failure<Breach>>
    ensures ok { IfOk result (λ checked. map (spec.select_item (known_of known.now) (scope_of scope.now)) (map item_of items.now) ≡ map item_seen checked.items) }
    ensures fault { IfErr result (IsFirst (spec.faults_of_items (map (spec.select_item (known_of known.now) (scope_of scope.now)) (map item_of items.now)))) }
{
    let mut checked = Vec::new(alloc);
    for item in items {
        let one = select_item(alloc, known, scope, item)?;
        checked.push(one)?;
    }
    Ok(checked)
}

/// The items of an extraction, from the left.
pub(crate) fn extract_items(
    alloc: Global,
    known: &Known<'_>,
    scope: &Scope<'_>,
    items: &[Item],
) -> Result<Vec<CheckedItem>, Failure<Breach>>
    ensures ok { IfOk result (λ checked. map (spec.extract_item (known_of known.now) (scope_of scope.now)) (map item_of items.now) ≡ map item_seen checked.items) }
    ensures fault { IfErr result (IsFirst (spec.faults_of_items (map (spec.extract_item (known_of known.now) (scope_of scope.now)) (map item_of items.now)))) }
{
    let mut checked = Vec::new(alloc);
    for item in items {
        let one = extract_item(alloc, known, scope, item)?;
        checked.push(one)?;
    }
    Ok(checked)
}

/// The output names of items, with their tokens.
pub(crate) fn labels<'a>(
    alloc: Global,
    items: &'a [CheckedItem],
) -> Result<Vec<Label<'a>>, OutOfMemory>
    ensures { IfOk result (λ labels. map label_of labels.items ≡ spec.names_of_items (map item_seen items.now)) }
{
    let mut labels = Vec::new(alloc);
    for item in items {
        labels.push(label(item))?;
    }
    Ok(labels)
}

/// The output name of an item, with its token.
fn label(item: &CheckedItem) -> Label<'_>
    ensures { label_of result ≡ (item_seen item.now).name }
{
    Label {
        text: item.name.text.as_str(),
        at: item.name.at,
    }
}

/// Refuses an output name that two items have.
pub(crate) fn refuse_repeated(alloc: Global, items: &[CheckedItem]) -> Result<(), Failure<Breach>>
    ensures ok { OnOk result (spec.duplicate_columns (spec.names_of_items (map item_seen items.now)) ≡ []) }
    ensures fault { IfErr result (IsFirst (spec.duplicate_columns (spec.names_of_items (map item_seen items.now)))) }
{
    let labels = labels(alloc, items)?;
    refuse_columns(alloc, &labels)
}

/// The columns that items give.
pub(crate) fn columns(alloc: Global, items: &[CheckedItem]) -> Result<Vec<Column>, OutOfMemory>
    ensures { IfOk result (λ columns. columns.items ≡ spec.columns_of_items (map item_seen items.now)) }
{
    let mut columns = Vec::new(alloc);
    for item in items {
        let name = OwnedText::copied(alloc, item.name.text.as_str())?;
        columns.push(Column {
            name,
            kind: item.kind,
        })?;
    }
    Ok(columns)
}

/// Whether a selection with these keys and items groups.
pub(crate) fn groups(keys: &[Ast], items: &[CheckedItem]) -> bool
    ensures { result ≡ selections.groups (map term_of keys.now) (map item_seen items.now) }
{
    !keys.is_empty() || has_aggregate(items)
}

fn has_aggregate(items: &[CheckedItem]) -> bool
    ensures { result ≡ selections.has_aggregate (map item_seen items.now) }
{
    for item in items {
        if is_aggregate(&item.content) {
            return true;
        }
    }
    false
}

fn is_aggregate(content: &Content) -> bool
    ensures { result ≡ clauses.is_aggregate (content_of content.now) }
{
    match content {
        Content::Expression(_) => false,
        Content::RowCount => true,
        Content::Aggregated(_, _) => true,
    }
}

/// Refuses the first item, from the left, that is neither an aggregate nor a key.
pub(crate) fn refuse_not_grouped(
    items: &[Item],
    keys: &[Ast],
    checked: &[CheckedItem],
) -> Result<(), Failure<Breach>>
    requires { length items.now ≡ length checked.now }
    ensures ok { OnOk result (clauses.not_grouped (map item_of items.now) (map term_of keys.now) (map item_of items.now) (map item_seen checked.now) ≡ []) }
    ensures fault { IfErr result (IsFirst (clauses.not_grouped (map item_of items.now) (map term_of keys.now) (map item_of items.now) (map item_seen checked.now))) }
{
    for (number, item) in items.iter().enumerate() {
        refuse_ungrouped(items, keys, item, &checked[number])?;
    }
    Ok(())
}

/// Refuses an item that is neither an aggregate nor a key.
fn refuse_ungrouped(
    items: &[Item],
    keys: &[Ast],
    item: &Item,
    checked: &CheckedItem,
) -> Result<(), Failure<Breach>>
    ensures ok { OnOk result (clauses.ungrouped (map item_of items.now) (map term_of keys.now) (item_of item.now) (item_seen checked.now) ≡ []) }
    ensures fault { IfErr result (IsFirst (clauses.ungrouped (map item_of items.now) (map term_of keys.now) (item_of item.now) (item_seen checked.now))) }
{
    if is_aggregate(&checked.content) || key_number(items, keys, item) < keys.len() {
        Ok(())
    } else {
        Err(refusal(checked.at, TypeRule::NotGrouped))
    }
}

/// What is told of each group, item by item.
pub(crate) fn aggregates(
    alloc: Global,
    items: &[Item],
    keys: &[Ast],
    checked: &[CheckedItem],
) -> Result<Vec<Agg>, OutOfMemory>
    requires { length items.now ≡ length checked.now }
    ensures { IfOk result (λ aggs. aggs.items ≡ selections.aggs_of (map item_of items.now) (map term_of keys.now) (length (map term_of keys.now)) (map item_of items.now) (map item_seen checked.now)) }
{
    let mut aggs = Vec::new(alloc);
    let mut column = keys.len();
    for (number, item) in items.iter().enumerate() {
        let content = &checked[number].content;
        let key = narrow(key_number(items, keys, item))?;
        aggs.push(agg_in(key, narrow(column)?, content))?;
        column = narrow(column)? as usize + argument_count(content);
    }
    Ok(aggs)
}

/// A number that fits; a greater one is want of memory.
fn narrow(number: usize) -> Result<u32, OutOfMemory>
    ensures { IfOk result (λ n. n ≡ number) }
{
    match u32::try_from(number) {
        Ok(number) => Ok(number),
        Err(_) => Err(OutOfMemory),
    }
}

/// An item of a selection that groups.
fn agg_in(key: u32, column: u32, content: &Content) -> Agg
    ensures { result ≡ selections.agg_in key column (content_of content.now) }
{
    match content {
        Content::Expression(_) => Agg::Key(key),
        Content::RowCount => Agg::Count,
        Content::Aggregated(aggregate, _) => agg_of(*aggregate, column),
    }
}

/// An aggregate of a column.
fn agg_of(aggregate: Aggregate, column: u32) -> Agg
    ensures { result ≡ selections.agg_of aggregate column }
{
    match aggregate {
        Aggregate::Count => Agg::CountOf(column),
        Aggregate::Sum => Agg::Sum(column),
        Aggregate::Min => Agg::Min(column),
        Aggregate::Max => Agg::Max(column),
    }
}

fn argument_count(content: &Content) -> usize
    ensures { result ≡ length (selections.arguments_in (content_of content.now)) }
{
    match content {
        Content::Aggregated(_, _) => 1,
        _ => 0,
    }
}

/// The arguments of the aggregates, from the left.
pub(crate) fn arguments(alloc: Global, items: Vec<CheckedItem>) -> Result<Vec<Expr>, OutOfMemory>
    ensures { IfOk result (λ exprs. map expr_term exprs.items ≡ selections.arguments_of (map item_seen items.items)) }
{
    let mut exprs = Vec::new(alloc);
    for item in items {
        if let Some(expr) = argument(item.content) {
            exprs.push(expr)?;
        }
    }
    Ok(exprs)
}

/// The argument of an aggregate.
fn argument(content: Content) -> Option<Expr>
    ensures { option_to_list (option_map expr_term result) ≡ selections.arguments_in (content_of content) }
{
    match content {
        Content::Aggregated(_, meant) => Some(meant.into_expr()),
        _ => None,
    }
}

/// The value of each item.
pub(crate) fn plain_exprs(alloc: Global, items: Vec<CheckedItem>) -> Result<Vec<Expr>, OutOfMemory>
    ensures { IfOk result (λ exprs. map expr_term exprs.items ≡ selections.plain_terms (map item_seen items.items)) }
{
    let mut exprs = Vec::new(alloc);
    for item in items {
        exprs.push(plain_expr(alloc, item.content)?)?;
    }
    Ok(exprs)
}

/// The value of an item.
fn plain_expr(alloc: Global, content: Content) -> Result<Expr, OutOfMemory>
    ensures { IfOk result (λ expr. expr_term expr ≡ selections.plain_term (content_of content)) }
{
    match content {
        Content::Expression(meant) => Ok(meant.into_expr()),
        _ => {
            let text = OwnedText::copied(alloc, "")?;
            Ok(Expr::Str(text))
        }
    }
}
