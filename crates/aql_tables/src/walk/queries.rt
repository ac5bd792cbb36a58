//! What queries mention.

ghost use Rattle.std.specs.Prelude.{◌≡◌, ◌++◌, map, flat_map, option_map, OnOk};
ghost use Rattle.aql_syntax.specs.Views as see;
ghost use Rattle.aql_tables.specs.Mentions as spec;

use crate::mention::Mentions;
use crate::walk::terms::{columns, items, term, terms};
use aql_syntax::{Cons, Extract, Flag, FromPart, Query, Select, Spec};
use span_token::OutOfMemory;

/// What a query and those nested in it mention.
#[cycle(query)]
pub(crate) fn query<'a>(out: &mut Mentions<'a>, query: &'a Query) -> Result<(), OutOfMemory>
    ensures { OnOk result (out.new ≡ out.old ++ spec.mentions_in_query (see.query_of query.now)) }
{
    match query {
        Query::Select(query) => select(out, query),
        Query::Extract(query) => extract(out, query),
        Query::Union(sides) => union(out, sides),
        Query::Minus(left, right) => {
            self::query(out, left)?;
            self::query(out, right)
        }
    }
}

#[cycle(query)]
fn select<'a>(out: &mut Mentions<'a>, query: &'a Select) -> Result<(), OutOfMemory>
    ensures { OnOk result (out.new ≡ out.old ++ spec.mentions_in_selection (map see.item_of query.now.items.items) (map see.source_of query.now.sources.items) (see.clauses_of query.now)) }
{
    items(out, &query.items)?;
    sources(out, &query.sources)?;
    clauses(out, query)
}

#[cycle(query)]
fn sources<'a>(out: &mut Mentions<'a>, sources: &'a [FromPart]) -> Result<(), OutOfMemory>
    ensures { OnOk result (out.new ≡ out.old ++ flat_map spec.mentions_in_source (map see.source_of sources.now)) }
{
    for one in sources {
        source(out, one)?;
    }
    Ok(())
}

#[cycle(query)]
fn source<'a>(out: &mut Mentions<'a>, source: &'a FromPart) -> Result<(), OutOfMemory>
    ensures { OnOk result (out.new ≡ out.old ++ spec.mentions_in_source (see.source_of source.now)) }
{
    match source {
        FromPart::View { .. } => Ok(()),
        FromPart::Nested { query, .. } => self::query(out, query),
    }
}

fn clauses<'a>(out: &mut Mentions<'a>, query: &'a Select) -> Result<(), OutOfMemory>
    ensures { OnOk result (out.new ≡ out.old ++ spec.mentions_in_clauses (see.clauses_of query.now)) }
{
    terms(out, &query.conds)?;
    cons(out, &query.cons)?;
    terms(out, &query.group)?;
    terms(out, &query.order)
}

fn cons<'a>(out: &mut Mentions<'a>, cons: &'a Option<Cons>) -> Result<(), OutOfMemory>
    ensures { OnOk result (out.new ≡ out.old ++ spec.mentions_in_cons (option_map see.cons_of cons.now)) }
{
    match cons {
        None => Ok(()),
        Some(cons) => term(out, &cons.target),
    }
}

#[cycle(query)]
fn extract<'a>(out: &mut Mentions<'a>, query: &'a Extract) -> Result<(), OutOfMemory>
    ensures { OnOk result (out.new ≡ out.old ++ spec.mentions_in_extraction (map see.item_of query.now.items.items) (see.spec_of query.now.spec) (see.source_of query.now.source) (see.tail_of query.now)) }
{
    columns(out, &query.items)?;
    sought(out, &query.spec)?;
    source(out, &query.source)?;
    tail(out, query)
}

fn sought<'a>(out: &mut Mentions<'a>, sought: &'a Spec) -> Result<(), OutOfMemory>
    ensures { OnOk result (out.new ≡ out.old ++ spec.mentions_in_spec (see.spec_of sought.now)) }
{
    match sought {
        Spec::Regex { pattern, .. } => out.pattern(pattern.text.as_str()),
        Spec::Dict { dict, flag, .. } => out.dictionary(dict.text.as_str(), is_exact(*flag)),
        Spec::Blocks { .. } => Ok(()),
    }
}

/// Whether case counts for an extraction's dictionary.
fn is_exact(flag: Option<Flag>) -> bool
    ensures { result ≡ spec.is_exact (option_map see.flag_of flag) }
{
    match flag {
        Some(Flag::Exact) => true,
        Some(Flag::IgnoreCase) => false,
        None => false,
    }
}

fn tail<'a>(out: &mut Mentions<'a>, query: &'a Extract) -> Result<(), OutOfMemory>
    ensures { OnOk result (out.new ≡ out.old ++ spec.mentions_in_tail (see.tail_of query.now)) }
{
    terms(out, &query.conds)?;
    cons(out, &query.cons)
}

#[cycle(query)]
fn union<'a>(out: &mut Mentions<'a>, sides: &'a [Query]) -> Result<(), OutOfMemory>
    ensures { OnOk result (out.new ≡ out.old ++ flat_map spec.mentions_in_query (map see.query_of sides.now)) }
{
    for side in sides {
        query(out, side)?;
    }
    Ok(())
}
