//! The tokens of queries.

ghost use Rattle.std.specs.Prelude.{◌≡◌, [], ◌∷◌, ◌++◌, map, option_map, OnOk};
ghost use Rattle.aql_syntax.specs.Views as see;
ghost use Rattle.aql_syntax.specs.Printed as spec;
ghost use Rattle.aql_syntax.specs.Trees.{view};

use crate::printing::expressions::{conds, items, items_before, keys, term};
use crate::printing::extractions::extraction;
use crate::printing::writer::Writer;
use crate::tree::{Cons, Extract, FromPart, Ident, Number, Query, Select};
use span_token::OutOfMemory;

#[cycle(query)]
pub fn query(out: &mut Writer, query: &Query) -> Result<(), OutOfMemory>
    ensures { OnOk result (out.new ≡ out.old ++ spec.printed_query (see.query_of query.now)) }
{
    match query {
        Query::Select(query) => select(out, query),
        Query::Extract(query) => extract(out, query),
        Query::Union(sides) => union(out, sides),
        Query::Minus(left, right) => {
            nested(out, left)?;
            out.word("minus")?;
            nested(out, right)
        }
    }
}

#[cycle(query)]
fn select(out: &mut Writer, query: &Select) -> Result<(), OutOfMemory>
    ensures { OnOk result (out.new ≡ out.old ++ spec.printed_select (map see.item_of query.now.items.items) (map see.source_of query.now.sources.items) (see.clauses_of query.now)) }
{
    out.word("select")?;
    items(out, &query.items)?;
    out.word("from")?;
    sources(out, &query.sources)?;
    clauses(out, query)
}

#[cycle(query)]
fn sources(out: &mut Writer, sources: &[FromPart]) -> Result<(), OutOfMemory>
    ensures { OnOk result (out.new ≡ out.old ++ spec.printed_separated spec.comma spec.printed_source (map see.source_of sources.now)) }
{
    for (i, one) in sources.iter().enumerate() {
        out.comma(i)?;
        source(out, one)?;
    }
    Ok(())
}

#[cycle(query)]
fn source(out: &mut Writer, source: &FromPart) -> Result<(), OutOfMemory>
    ensures { OnOk result (out.new ≡ out.old ++ spec.printed_source (see.source_of source.now)) }
{
    match source {
        FromPart::View { name, alias } => view(out, name, alias),
        FromPart::Nested { query, alias } => {
            nested(out, query)?;
            out.name(alias)
        }
    }
}

fn view(out: &mut Writer, name: &Ident, alias: &Option<Ident>) -> Result<(), OutOfMemory>
    ensures { OnOk result (out.new ≡ out.old ++ spec.printed_source (view (see.name_of name.now) (option_map see.name_of alias.now))) }
{
    out.name(name)?;
    match alias {
        None => Ok(()),
        Some(alias) => out.name(alias),
    }
}

#[cycle(query)]
fn nested(out: &mut Writer, inner: &Query) -> Result<(), OutOfMemory>
    ensures { OnOk result (out.new ≡ out.old ++ spec.printed_nested (see.query_of inner.now)) }
{
    out.symbol(b'(')?;
    query(out, inner)?;
    out.symbol(b')')
}

fn clauses(out: &mut Writer, query: &Select) -> Result<(), OutOfMemory>
    ensures { OnOk result (out.new ≡ out.old ++ spec.printed_clauses (see.clauses_of query.now)) }
{
    conds(out, "where", &query.conds)?;
    cons(out, &query.cons)?;
    keys(out, "group", &query.group)?;
    keys(out, "order", &query.order)?;
    limit(out, &query.limit)
}

fn cons(out: &mut Writer, cons: &Option<Cons>) -> Result<(), OutOfMemory>
    ensures { OnOk result (out.new ≡ out.old ++ spec.printed_optional spec.printed_cons (option_map see.cons_of cons.now)) }
{
    match cons {
        None => Ok(()),
        Some(cons) => consolidate(out, cons),
    }
}

fn consolidate(out: &mut Writer, cons: &Cons) -> Result<(), OutOfMemory>
    ensures { OnOk result (out.new ≡ out.old ++ spec.printed_cons (see.cons_of cons.now)) }
{
    out.word("consolidate")?;
    out.word("on")?;
    term(out, &cons.target)?;
    policy(out, &cons.policy)
}

fn policy(out: &mut Writer, policy: &Option<Ident>) -> Result<(), OutOfMemory>
    ensures { OnOk result (out.new ≡ out.old ++ spec.printed_optional spec.printed_policy (option_map see.name_of policy.now)) }
{
    match policy {
        None => Ok(()),
        Some(policy) => {
            out.word("using")?;
            out.string(policy.text.as_str())
        }
    }
}

fn limit(out: &mut Writer, limit: &Option<Number>) -> Result<(), OutOfMemory>
    ensures { OnOk result (out.new ≡ out.old ++ spec.printed_optional spec.printed_limit (option_map see.number_of limit.now)) }
{
    match limit {
        None => Ok(()),
        Some(limit) => {
            out.word("limit")?;
            out.int(limit.value)
        }
    }
}

#[cycle(query)]
fn extract(out: &mut Writer, query: &Extract) -> Result<(), OutOfMemory>
    ensures { OnOk result (out.new ≡ out.old ++ spec.printed_extract (map see.item_of query.now.items.items) (see.spec_of query.now.spec) (see.source_of query.now.source) (see.tail_of query.now)) }
{
    out.word("extract")?;
    items_before(out, &query.items)?;
    extraction(out, &query.spec)?;
    out.word("from")?;
    source(out, &query.source)?;
    tail(out, query)
}

fn tail(out: &mut Writer, query: &Extract) -> Result<(), OutOfMemory>
    ensures { OnOk result (out.new ≡ out.old ++ spec.printed_tail (see.tail_of query.now)) }
{
    conds(out, "having", &query.conds)?;
    cons(out, &query.cons)?;
    limit(out, &query.limit)
}

#[cycle(query)]
fn union(out: &mut Writer, sides: &[Query]) -> Result<(), OutOfMemory>
    ensures { OnOk result (out.new ≡ out.old ++ spec.printed_union (map see.query_of sides.now)) }
{
    for (i, side) in sides.iter().enumerate() {
        out.union_all(i)?;
        nested(out, side)?;
    }
    Ok(())
}
