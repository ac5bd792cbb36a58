//! Queries.

ghost use Rattle.std.specs.Prelude.{◌≡◌, ◌∷◌, [], map, option_map, box_value, IfOk};
ghost use Rattle.aql_syntax.specs.Views.{name_of, item_of, spec_of, source_of, query_of};
ghost use Rattle.aql_parser.specs.Readers.{Gives, separated, sees, sees_sign, prefixed, where_seen, sees_name, a_name, symbol, keyword, ◌⊗◌, ◌◁◌, ◌▷◌};
ghost use Rattle.aql_parser.specs.Reading.Queries as spec;
ghost use Rattle.aql_parser.specs.ClauseViews.{select_clauses, extract_tail};
ghost use Rattle.aql_syntax.specs.Trees.{minus, nested, extract};

use crate::clauses::{ExtractTail, SelectClauses, clauses, tail};
use crate::cursor::{Cursor, NoTree, Refused};
use crate::expressions::{item, items};
use crate::extractions::{blocks, sought};
use aql_syntax::{Extract, FromPart, Ident, Item, Query, Select, Spec};
use span_token::{Failure, OutOfMemory};
use std::alloc::Global;

/// A query within at most `depth` parentheses.
#[cycle(query)]
#[tactic(auto, unfolding(crate::specs::Reading::Queries::read_query))]
pub fn query(alloc: Global, depth: u32, toks: &mut Cursor<'_>) -> Result<Query, Refused>
    ensures { Gives query_of (spec.read_query depth toks.old.at toks.old.kinds) result toks.new }
{
    let at = toks.at();
    if toks.eat(b'(') {
        let first = parenthesis(alloc, depth, toks)?;
        return put_together(alloc, depth, toks, first);
    }
    if toks.eat_word("select") {
        return selection(alloc, depth, toks, at);
    }
    toks.expect_word("extract")?;
    extraction(alloc, depth, toks, at)
}

/// A query and its `)`, after its `(`, which is one of `depth` parentheses.
#[cycle(query)]
fn parenthesis(alloc: Global, depth: u32, toks: &mut Cursor<'_>) -> Result<Query, Refused>
    ensures { Gives query_of (spec.within depth toks.old.at toks.old.kinds) result toks.new }
{
    if depth == 0 {
        return Err(Failure::Fault(NoTree));
    }
    closed(alloc, depth - 1, toks)
}

/// A query within at most `depth` parentheses, and a `)`.
#[cycle(query)]
fn closed(alloc: Global, depth: u32, toks: &mut Cursor<'_>) -> Result<Query, Refused>
    ensures { Gives query_of ((spec.read_query depth ◁ symbol ")") toks.old.at toks.old.kinds) result toks.new }
{
    let inner = query(alloc, depth, toks)?;
    toks.expect_after(inner, b')')
}

/// What follows the first of the queries that are put together.
#[cycle(query)]
#[tactic(auto, unfolding(crate::specs::Reading::Queries::put_together))]
fn put_together(
    alloc: Global,
    depth: u32,
    toks: &mut Cursor<'_>,
    first: Query,
) -> Result<Query, Refused>
    ensures { Gives query_of (spec.put_together depth (spec.within depth) (query_of first) toks.old.at toks.old.kinds) result toks.new }
{
    if toks.eat_word("minus") {
        let first = Box::new(alloc, first)?;
        let second = opened(alloc, depth, toks)?;
        return Ok(minus(alloc, first, second)?);
    }
    let sides = one_side(alloc, first)?;
    toks.expect_word("union")?;
    let sides = sides_after(alloc, depth, toks, sides)?;
    Ok(Query::of_union(sides))
}

/// A query in parentheses.
#[cycle(query)]
fn opened(alloc: Global, depth: u32, toks: &mut Cursor<'_>) -> Result<Query, Refused>
    ensures { Gives query_of ((symbol "(" ▷ spec.within depth) toks.old.at toks.old.kinds) result toks.new }
{
    toks.expect(b'(')?;
    parenthesis(alloc, depth, toks)
}

fn minus(alloc: Global, first: Box<Query>, second: Query) -> Result<Query, OutOfMemory>
    ensures { IfOk result (λ query. query_of query ≡ minus (query_of (box_value first)) (query_of second)) }
{
    let second = Box::new(alloc, second)?;
    Ok(Query::Minus(first, second))
}

fn one_side(alloc: Global, first: Query) -> Result<Vec<Query>, OutOfMemory>
    ensures { IfOk result (λ sides. map query_of sides.items ≡ query_of first ∷ []) }
{
    let mut sides = Vec::new(alloc);
    sides.push(first)?;
    Ok(sides)
}

/// The sides of a union: `sides`, and those that follow.
#[cycle(query)]
fn sides_after(
    alloc: Global,
    depth: u32,
    toks: &mut Cursor<'_>,
    mut sides: Vec<Query>,
) -> Result<Vec<Query>, Refused>
    ensures { Gives (λ all. map query_of all.items) (prefixed (map query_of sides.items) (separated (sees "union") (spec.side depth (spec.within depth)) toks.old.at toks.old.kinds)) result toks.new }
{
    for _turn in 0..toks.left() + 1 {
        let other = side(alloc, depth, toks)?;
        sides.push(other)?;
        if !toks.eat_word("union") {
            return Ok(sides);
        }
    }
    Err(Failure::Fault(NoTree))
}

/// A side of a union, after its `union`.
#[cycle(query)]
#[tactic(auto, unfolding(crate::specs::Reading::Queries::side))]
fn side(alloc: Global, depth: u32, toks: &mut Cursor<'_>) -> Result<Query, Refused>
    ensures { Gives query_of (spec.side depth (spec.within depth) toks.old.at toks.old.kinds) result toks.new }
{
    toks.expect_word("all")?;
    opened(alloc, depth, toks)
}

/// A selection, after its `select`, which has the number `at`.
#[cycle(query)]
#[tactic(auto, unfolding(crate::specs::Reading::Queries::selection))]
fn selection(alloc: Global, depth: u32, toks: &mut Cursor<'_>, at: u32) -> Result<Query, Refused>
    ensures { Gives query_of (spec.selection depth (spec.within depth) at toks.old.at toks.old.kinds) result toks.new }
{
    let items = items(alloc, depth, toks)?;
    toks.expect_word("from")?;
    let sources = sources(alloc, depth, toks)?;
    let clauses = clauses(alloc, depth, toks)?;
    Ok(select(at, items, sources, clauses))
}

/// Sources with commas between them.
#[cycle(query)]
fn sources(alloc: Global, depth: u32, toks: &mut Cursor<'_>) -> Result<Vec<FromPart>, Refused>
    ensures { Gives (λ sources. map source_of sources.items) (separated (sees_sign ",") (spec.read_source depth) toks.old.at toks.old.kinds) result toks.new }
{
    let mut sources = Vec::new(alloc);
    for _turn in 0..toks.left() + 1 {
        let one = source(alloc, depth, toks)?;
        sources.push(one)?;
        if !toks.eat(b',') {
            return Ok(sources);
        }
    }
    Err(Failure::Fault(NoTree))
}

/// A source of a query.
#[cycle(query)]
#[tactic(auto, unfolding(crate::specs::Reading::Queries::source_with))]
fn source(alloc: Global, depth: u32, toks: &mut Cursor<'_>) -> Result<FromPart, Refused>
    ensures { Gives source_of (spec.read_source depth toks.old.at toks.old.kinds) result toks.new }
{
    if toks.eat(b'(') {
        let query = parenthesis(alloc, depth, toks)?;
        let alias = match toks.name(alloc) {
            Ok(alias) => alias,
            Err(refused) => {
                drop(query);
                return Err(refused);
            }
        };
        return Ok(nested(alloc, query, alias)?);
    }
    view(alloc, toks)
}

fn alias(alloc: Global, toks: &mut Cursor<'_>) -> Result<Option<Ident>, Refused>
    ensures { Gives (λ o. option_map name_of o) (where_seen sees_name a_name toks.old.at toks.old.kinds) result toks.new }
{
    if toks.sees_name() {
        let alias = toks.name(alloc)?;
        return Ok(Some(alias));
    }
    Ok(None)
}

fn nested(alloc: Global, query: Query, alias: Ident) -> Result<FromPart, OutOfMemory>
    ensures { IfOk result (λ source. source_of source ≡ nested (query_of query) (name_of alias)) }
{
    let query = Box::new(alloc, query)?;
    Ok(FromPart::Nested { query, alias })
}

/// A view as a source, whose alias may be left out.
#[tactic(auto, unfolding(crate::specs::Reading::Queries::read_view))]
fn view(alloc: Global, toks: &mut Cursor<'_>) -> Result<FromPart, Refused>
    ensures { Gives source_of (spec.read_view toks.old.at toks.old.kinds) result toks.new }
{
    let name = toks.name(alloc)?;
    let alias = alias(alloc, toks)?;
    Ok(FromPart::View { name, alias })
}

fn select(at: u32, items: Vec<Item>, sources: Vec<FromPart>, clauses: SelectClauses) -> Query
    ensures { query_of result ≡ spec.made_select at (map item_of items.items, (map source_of sources.items, select_clauses clauses)) }
{
    let SelectClauses {
        conds,
        cons,
        group,
        order,
        limit,
    } = clauses;
    Query::of_select(Select {
        at,
        items,
        sources,
        conds,
        cons,
        group,
        order,
        limit,
    })
}

/// An extraction, after its `extract`, which has the number `at`.
#[cycle(query)]
#[tactic(auto, unfolding(crate::specs::Reading::Queries::extraction))]
fn extraction(alloc: Global, depth: u32, toks: &mut Cursor<'_>, at: u32) -> Result<Query, Refused>
    ensures { Gives query_of (spec.extraction depth (spec.within depth) at toks.old.at toks.old.kinds) result toks.new }
{
    let found = extracted(alloc, depth, toks)?;
    let rest = match source_and_tail(alloc, depth, toks) {
        Ok(rest) => rest,
        Err(refused) => {
            drop(found);
            return Err(refused);
        }
    };
    Ok(extract(at, found, rest))
}

/// The items of an extraction, and what it looks for.
#[tactic(auto, unfolding(crate::specs::Reading::Queries::read_extracted))]
fn extracted(alloc: Global, depth: u32, toks: &mut Cursor<'_>) -> Result<(Vec<Item>, Spec), Refused>
    ensures { Gives (λ pair. (map item_of pair.0.items, spec_of pair.1)) (spec.read_extracted depth toks.old.at toks.old.kinds) result toks.new }
{
    if toks.begins_blocks() {
        let spec = blocks(alloc, toks)?;
        return Ok((Vec::new(alloc), spec));
    }
    let items = items_before(alloc, depth, toks)?;
    let spec = sought(alloc, toks)?;
    Ok((items, spec))
}

/// Items with a comma after each, up to what the extraction looks for.
fn items_before(alloc: Global, depth: u32, toks: &mut Cursor<'_>) -> Result<Vec<Item>, Refused>
    ensures { Gives (λ items. map item_of items.items) (spec.read_items_before depth toks.old.at toks.old.kinds) result toks.new }
{
    let mut items = Vec::new(alloc);
    for _turn in 0..toks.left() + 1 {
        if begins_sought(toks) {
            return Ok(items);
        }
        let one = item_before(alloc, depth, toks)?;
        items.push(one)?;
    }
    Err(Failure::Fault(NoTree))
}

fn begins_sought(toks: &Cursor<'_>) -> bool
    ensures { result ≡ spec.begins_sought toks.now.kinds }
{
    toks.begins_pattern() || toks.begins_dictionary()
}

/// An item and the comma after it.
fn item_before(alloc: Global, depth: u32, toks: &mut Cursor<'_>) -> Result<Item, Refused>
    ensures { Gives item_of (spec.item_before depth toks.old.at toks.old.kinds) result toks.new }
{
    let one = item(alloc, depth, toks)?;
    toks.expect_after(one, b',')
}

/// `from`, the source of an extraction, and its clauses.
#[cycle(query)]
fn source_and_tail(
    alloc: Global,
    depth: u32,
    toks: &mut Cursor<'_>,
) -> Result<(FromPart, ExtractTail), Refused>
    ensures { Gives (λ pair. (source_of pair.0, extract_tail pair.1)) ((keyword "from" ▷ spec.read_source depth ⊗ spec.read_tail depth) toks.old.at toks.old.kinds) result toks.new }
{
    toks.expect_word("from")?;
    let source = source(alloc, depth, toks)?;
    let tail = match tail(alloc, depth, toks) {
        Ok(tail) => tail,
        Err(refused) => {
            drop(source);
            return Err(refused);
        }
    };
    Ok((source, tail))
}

fn extract(at: u32, found: (Vec<Item>, Spec), rest: (FromPart, ExtractTail)) -> Query
    ensures { query_of result ≡ extract at (map item_of found.0.items) (spec_of found.1) (source_of rest.0) (extract_tail rest.1) }
{
    let (items, spec) = found;
    let (source, tail) = rest;
    let ExtractTail { conds, cons, limit } = tail;
    Query::Extract(Extract {
        at,
        items,
        spec,
        source,
        conds,
        cons,
        limit,
    })
}
