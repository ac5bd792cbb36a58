//! What the names in an expression stand for.

ghost use Rattle.std.specs.Prelude.{◌≡◌, ◌+◌, map, option_map, MatchOption, Some, None, IfOk, IfErr};
ghost use Rattle.aql_syntax.specs.Views.{name_of};
ghost use Rattle.clause_types.specs.Refusals.{IsFirst};
ghost use Rattle.clause_types.specs.Scopes as spec;
ghost use Rattle.clause_types.specs.Views.{seen, visible_of, source_columns_of, numbered_of, item_seen, names_seen};

use crate::fault::Breach;
use crate::given::{Given, Meant};
use crate::item::{CheckedItem, Content};
use crate::refusals::{unknown_alias, unknown_column, unknown_function};
use aql_syntax::Ident;
use aql_typed::Column;
use scalar_ops::{Expr, Kind};
use span_token::{Failure, OutOfMemory};
use std::alloc::Global;

/// A source as expressions see it: its alias and its columns.
#[derive(Clone, Copy, Debug)]
pub struct Visible<'a> {
    pub alias: &'a str,
    pub columns: &'a [Column],
}

/// What a bare name stands for: nothing, the expression of an item, or a column.
#[derive(Clone, Copy, Debug)]
pub(crate) enum Names<'a> {
    Nothing,
    OfItems(&'a [CheckedItem]),
    OfColumns(&'a [Column]),
}

/// What the names in an expression stand for.
#[derive(Clone, Copy, Debug)]
pub(crate) struct Scope<'a> {
    pub(crate) sources: &'a [Visible<'a>],
    pub(crate) names: Names<'a>,
}

/// A source's columns, and the number of the first of them.
#[derive(Clone, Copy, Debug)]
pub(crate) struct SourceColumns<'a> {
    start: u32,
    columns: &'a [Column],
}

/// A column with its number.
#[derive(Clone, Copy, Debug)]
pub(crate) struct Numbered {
    number: u32,
    kind: Kind,
}

/// The first column with a name, where the columns count from `start`.
pub(crate) fn column_named(
    name: &str,
    start: u32,
    columns: &[Column],
) -> Result<Option<Numbered>, OutOfMemory>
    ensures { IfOk result (λ found. option_map numbered_of found ≡ spec.column_named name.now start columns.now) }
{
    for (index, column) in columns.iter().enumerate() {
        if column.name.as_str() == name {
            let number = sum(start, index)?;
            return Ok(Some(Numbered {
                number,
                kind: column.kind,
            }));
        }
    }
    Ok(None)
}

/// A column of a source.
pub(crate) fn column(
    alloc: Global,
    sources: &[Visible<'_>],
    at: u32,
    alias: &Ident,
    name: &Ident,
) -> Result<Given, Failure<Breach>>
    ensures ok { IfOk result (λ given. spec.typing_of_column (map visible_of sources.now) at (name_of alias.now) (name_of name.now) ≡ seen given) }
    ensures fault { IfErr result (IsFirst (spec.typing_of_column (map visible_of sources.now) at (name_of alias.now) (name_of name.now)).faults) }
{
    match source_named(alias.text.as_str(), sources)? {
        None => Err(unknown_alias(alloc, alias.at, alias.text.as_str())),
        Some(source) => {
            let text = name.text.as_str();
            let found = column_named(text, source.start, source.columns)?;
            found_or_unknown(alloc, at, text, found)
        }
    }
}

/// The first source with an alias; columns count from 0 through all sources.
fn source_named<'a>(
    alias: &str,
    sources: &[Visible<'a>],
) -> Result<Option<SourceColumns<'a>>, OutOfMemory>
    ensures { IfOk result (λ found. option_map source_columns_of found ≡ spec.source_named alias.now 0 (map visible_of sources.now)) }
{
    let mut start = 0;
    for source in sources {
        if source.alias == alias {
            return Ok(Some(SourceColumns {
                start,
                columns: source.columns,
            }));
        }
        start = sum(start, source.columns.len())?;
    }
    Ok(None)
}

/// The number after some others. More than a `u32` counts are want of memory.
fn sum(start: u32, count: usize) -> Result<u32, OutOfMemory>
    ensures { IfOk result (λ n. n ≡ start + count) }
{
    let Ok(count) = u32::try_from(count) else {
        return Err(OutOfMemory);
    };
    match start.checked_add(count) {
        Some(n) => Ok(n),
        None => Err(OutOfMemory),
    }
}

/// The column with a name, at a token; the name is unknown where there is none.
pub(crate) fn found_or_unknown(
    alloc: Global,
    at: u32,
    name: &str,
    found: Option<Numbered>,
) -> Result<Given, Failure<Breach>>
    ensures ok { IfOk result (λ given. spec.found_or_unknown at name.now (option_map numbered_of found) ≡ seen given) }
    ensures fault { IfErr result (IsFirst (spec.found_or_unknown at name.now (option_map numbered_of found)).faults) }
{
    match found {
        Some(found) => Ok(given_column(at, found)),
        None => Err(unknown_column(alloc, at, name)),
    }
}

fn given_column(at: u32, found: Numbered) -> Given
    ensures { seen result ≡ spec.typing_of_numbered at (numbered_of found) }
{
    Given {
        at,
        kind: found.kind,
        meant: Meant::Value(Expr::Column(found.number)),
    }
}

/// The first item with an output name.
pub(crate) fn item_named<'a>(name: &str, items: &'a [CheckedItem]) -> Option<&'a CheckedItem>
    ensures { MatchOption result (spec.item_named name.now (map item_seen items.now) ≡ None) (λ item. spec.item_named name.now (map item_seen items.now) ≡ Some (item_seen item.now)) }
{
    for item in items {
        if item.name.text.as_str() == name {
            return Some(item);
        }
    }
    None
}

/// What a bare name stands for.
pub(crate) fn bare(
    alloc: Global,
    names: Names<'_>,
    at: u32,
    name: &str,
) -> Result<Given, Failure<Breach>>
    ensures ok { IfOk result (λ given. spec.typing_of_name (names_seen names.entry) at name.now ≡ seen given) }
    ensures fault { IfErr result (IsFirst (spec.typing_of_name (names_seen names.entry) at name.now).faults) }
{
    match names {
        Names::Nothing => Err(unknown_alias(alloc, at, name)),
        Names::OfItems(items) => item_or_unknown(alloc, at, name, items),
        Names::OfColumns(columns) => {
            let found = column_named(name, 0, columns)?;
            found_or_unknown(alloc, at, name, found)
        }
    }
}

/// The expression of the first item with an output name.
fn item_or_unknown(
    alloc: Global,
    at: u32,
    name: &str,
    items: &[CheckedItem],
) -> Result<Given, Failure<Breach>>
    ensures ok { IfOk result (λ given. spec.item_or_unknown at name.now (spec.item_named name.now (map item_seen items.now)) ≡ seen given) }
    ensures fault { IfErr result (IsFirst (spec.item_or_unknown at name.now (spec.item_named name.now (map item_seen items.now))).faults) }
{
    match item_named(name, items) {
        Some(item) => given_item(alloc, at, item),
        None => Err(unknown_column(alloc, at, name)),
    }
}

/// The expression of an item, at the bare name that stands for it.
fn given_item(alloc: Global, at: u32, item: &CheckedItem) -> Result<Given, Failure<Breach>>
    ensures ok { IfOk result (λ given. spec.typing_of_content at (item_seen item.now) (item_seen item.now).content ≡ seen given) }
    ensures fault { IfErr result (IsFirst (spec.typing_of_content at (item_seen item.now) (item_seen item.now).content).faults) }
{
    match &item.content {
        Content::Expression(meant) => {
            let meant = meant.copied(alloc)?;
            Ok(Given {
                at,
                kind: item.kind,
                meant,
            })
        }
        Content::RowCount => Err(unknown_function(alloc, item.at, "Count")),
        Content::Aggregated(aggregate, _) => {
            Err(unknown_function(alloc, item.at, aggregate.name()))
        }
    }
}
