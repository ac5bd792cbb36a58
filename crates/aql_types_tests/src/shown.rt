//! Typed programs as texts: operators and expressions as `Debug` writes them, the rest in words.

use aql_typed::{
    Consolidate, Output, Projection, TypedExtract, TypedQuery, TypedSelect, TypedSource, TypedView,
};
use span_token::OutOfMemory;
use std::alloc::Global;

/// The views with their columns, in their order.
pub(crate) fn views_shown(alloc: Global, views: &[TypedView]) -> Result<String, OutOfMemory> {
    let mut all = String::new(alloc);
    for view in views {
        let columns = columns_shown(alloc, view)?;
        let view = format!(in alloc; "{}: {}; ", view.name.as_str(), columns.as_str())?;
        all.push_str(view.as_str())?;
    }
    Ok(all)
}

/// The outputs with their views, in their order.
pub(crate) fn outputs_shown(alloc: Global, outputs: &[Output]) -> Result<String, OutOfMemory> {
    let mut all = String::new(alloc);
    for output in outputs {
        let output = format!(in alloc; "{} {:?}; ", output.name.as_str(), output.view)?;
        all.push_str(output.as_str())?;
    }
    Ok(all)
}

/// The columns of a view with their kinds.
pub(crate) fn columns_shown(alloc: Global, view: &TypedView) -> Result<String, OutOfMemory> {
    let mut all = String::new(alloc);
    for column in &view.columns {
        if !all.is_empty() {
            all.push_str(", ")?;
        }
        let column = format!(in alloc; "{} {:?}", column.name.as_str(), column.kind)?;
        all.push_str(column.as_str())?;
    }
    Ok(all)
}

/// A query without its columns; of a nested one, of a union and of a difference only that it is one.
pub(crate) fn query_shown(alloc: Global, query: &TypedQuery) -> Result<String, OutOfMemory> {
    match query {
        TypedQuery::Select(select) => select_shown(alloc, select),
        TypedQuery::Extract(extract) => extract_shown(alloc, extract),
        TypedQuery::Union(sides) => Ok(format!(in alloc; "union of {}", sides.len())?),
        TypedQuery::Minus(_, _) => Ok(String::from_str(alloc, "minus")?),
    }
}

fn select_shown(alloc: Global, select: &TypedSelect) -> Result<String, OutOfMemory> {
    let clauses = &select.clauses;
    let mut all = sources_shown(alloc, &select.sources)?;
    let conds = clauses.conds.as_slice();
    if !conds.is_empty() {
        let conds = format!(in alloc; "; where {conds:?}")?;
        all.push_str(conds.as_str())?;
    }
    let consolidate = consolidate_shown(alloc, &clauses.consolidate)?;
    all.push_str(consolidate.as_str())?;
    let projection = projection_shown(alloc, &clauses.projection)?;
    all.push_str(projection.as_str())?;
    if !clauses.order.is_empty() {
        let order = format!(in alloc; "; order {:?}", clauses.order)?;
        all.push_str(order.as_str())?;
    }
    let limit = limit_shown(alloc, &clauses.limit)?;
    all.push_str(limit.as_str())?;
    Ok(all)
}

fn extract_shown(alloc: Global, extract: &TypedExtract) -> Result<String, OutOfMemory> {
    let clauses = &extract.clauses;
    let mut all = source_shown(alloc, &extract.source)?;
    let found = format!(in alloc;
        "; {:?}, {:?}",
        clauses.items.as_slice(),
        clauses.extraction
    )?;
    all.push_str(found.as_str())?;
    let conds = clauses.conds.as_slice();
    if !conds.is_empty() {
        let conds = format!(in alloc; "; where {conds:?}")?;
        all.push_str(conds.as_str())?;
    }
    let consolidate = consolidate_shown(alloc, &clauses.consolidate)?;
    all.push_str(consolidate.as_str())?;
    let limit = limit_shown(alloc, &clauses.limit)?;
    all.push_str(limit.as_str())?;
    Ok(all)
}

/// The sources, from the left.
fn sources_shown(alloc: Global, sources: &[TypedSource]) -> Result<String, OutOfMemory> {
    let mut all = String::new(alloc);
    for source in sources {
        if !all.is_empty() {
            all.push_str(", ")?;
        }
        let source = source_shown(alloc, source)?;
        all.push_str(source.as_str())?;
    }
    Ok(all)
}

fn source_shown(alloc: Global, source: &TypedSource) -> Result<String, OutOfMemory> {
    Ok(match source {
        TypedSource::Document => String::from_str(alloc, "document")?,
        TypedSource::View(number) => format!(in alloc; "view {number}")?,
        TypedSource::Nested(_) => String::from_str(alloc, "a query")?,
    })
}

fn projection_shown(alloc: Global, projection: &Projection) -> Result<String, OutOfMemory> {
    Ok(match projection {
        Projection::Plain(items) => format!(in alloc; "; {:?}", items.as_slice())?,
        Projection::Grouped {
            keys,
            arguments,
            aggregates,
        } => {
            let keys = format!(in alloc; "; keys {:?}", keys.as_slice())?;
            let arguments = format!(in alloc; ", arguments {:?}", arguments.as_slice())?;
            format!(in alloc; "{keys}{arguments}, {aggregates:?}")?
        }
    })
}

fn consolidate_shown(
    alloc: Global,
    consolidate: &Option<Consolidate>,
) -> Result<String, OutOfMemory> {
    Ok(match consolidate {
        None => String::new(alloc),
        Some(Consolidate { policy, target }) => { format!(in alloc; "; {policy:?} of {target:?}")? }
    })
}

fn limit_shown(alloc: Global, limit: &Option<u64>) -> Result<String, OutOfMemory> {
    Ok(match limit {
        None => String::new(alloc),
        Some(limit) => format!(in alloc; "; limit {limit}")?,
    })
}
