//! The names in queries.

ghost use Rattle.std.specs.Prelude.{◌≡◌, ◌++◌, map, flat_map, option_map, OnOk};
ghost use Rattle.aql_syntax.specs.Views as see;
ghost use Rattle.view_graph.specs.Names as spec;

use crate::names::mentions::Mentions;
use crate::names::terms::{items, term, terms};
use aql_syntax::{Cons, Extract, FromPart, Query, Select, Spec};
use span_token::OutOfMemory;

/// The names in a query, and in those nested in it.
#[cycle(query)]
pub(crate) fn query<'a>(out: &mut Mentions<'a>, query: &'a Query) -> Result<(), OutOfMemory>
    ensures { OnOk result (out.new ≡ out.old ++ spec.names_in_query (see.query_of query.now)) }
{
    match query {
        Query::Select(query) => select(out, query),
        Query::Extract(query) => extract(out, query),
        Query::Union(sides) => union(out, sides),
        Query::Minus(left, right) => {
            self::query(out, left)?;
            self::query(out, right)
        }
    }
}

#[cycle(query)]
fn select<'a>(out: &mut Mentions<'a>, query: &'a Select) -> Result<(), OutOfMemory>
    ensures { OnOk result (out.new ≡ out.old ++ spec.names_in_selection (map see.item_of query.now.items.items) (map see.source_of query.now.sources.items) (see.clauses_of query.now)) }
{
    items(out, &query.items)?;
    sources(out, &query.sources)?;
    clauses(out, query)
}

#[cycle(query)]
fn sources<'a>(out: &mut Mentions<'a>, sources: &'a [FromPart]) -> Result<(), OutOfMemory>
    ensures { OnOk result (out.new ≡ out.old ++ flat_map spec.names_in_source (map see.source_of sources.now)) }
{
    for one in sources {
        source(out, one)?;
    }
    Ok(())
}

#[cycle(query)]
fn source<'a>(out: &mut Mentions<'a>, source: &'a FromPart) -> Result<(), OutOfMemory>
    ensures { OnOk result (out.new ≡ out.old ++ spec.names_in_source (see.source_of source.now)) }
{
    match source {
        FromPart::View { name, .. } => out.view(name.text.as_str()),
        FromPart::Nested { query, .. } => self::query(out, query),
    }
}

fn clauses<'a>(out: &mut Mentions<'a>, query: &'a Select) -> Result<(), OutOfMemory>
    ensures { OnOk result (out.new ≡ out.old ++ spec.names_in_clauses (see.clauses_of query.now)) }
{
    terms(out, &query.conds)?;
    cons(out, &query.cons)?;
    terms(out, &query.group)?;
    terms(out, &query.order)
}

fn cons<'a>(out: &mut Mentions<'a>, cons: &'a Option<Cons>) -> Result<(), OutOfMemory>
    ensures { OnOk result (out.new ≡ out.old ++ spec.names_in_cons (option_map see.cons_of cons.now)) }
{
    match cons {
        None => Ok(()),
        Some(cons) => term(out, &cons.target),
    }
}

#[cycle(query)]
fn extract<'a>(out: &mut Mentions<'a>, query: &'a Extract) -> Result<(), OutOfMemory>
    ensures { OnOk result (out.new ≡ out.old ++ spec.names_in_extraction (map see.item_of query.now.items.items) (see.spec_of query.now.spec) (see.source_of query.now.source) (see.tail_of query.now)) }
{
    items(out, &query.items)?;
    sought(out, &query.spec)?;
    source(out, &query.source)?;
    tail(out, query)
}

fn sought<'a>(out: &mut Mentions<'a>, sought: &'a Spec) -> Result<(), OutOfMemory>
    ensures { OnOk result (out.new ≡ out.old ++ spec.names_in_spec (see.spec_of sought.now)) }
{
    match sought {
        Spec::Dict { dict, .. } => out.dictionary(dict.text.as_str()),
        _ => Ok(()),
    }
}

fn tail<'a>(out: &mut Mentions<'a>, query: &'a Extract) -> Result<(), OutOfMemory>
    ensures { OnOk result (out.new ≡ out.old ++ spec.names_in_tail (see.tail_of query.now)) }
{
    terms(out, &query.conds)?;
    cons(out, &query.cons)
}

#[cycle(query)]
fn union<'a>(out: &mut Mentions<'a>, sides: &'a [Query]) -> Result<(), OutOfMemory>
    ensures { OnOk result (out.new ≡ out.old ++ flat_map spec.names_in_query (map see.query_of sides.now)) }
{
    for side in sides {
        query(out, side)?;
    }
    Ok(())
}
