ghost use Rattle.std.specs.Prelude.{◌≡◌, length, map, IfOk, All};
ghost use Rattle.std.specs.List.{AllZip};
ghost use Rattle.row_values.specs.Rows.{RowsLieIn};
ghost use Rattle.aql_typed.specs.Fitting.{Fits, SourceFits, SidesFit, width_of, first_width};
ghost use Rattle.aql_typed.specs.Meaning.{meaning_of, all_sides};
ghost use Rattle.aql_typed.specs.Trees.{as_queries};
ghost use Rattle.aql_typed.specs.Views.{query_of, source_of};
ghost use Rattle.aql_meaning.specs.RowLists.{rows_in, widths_in, AllLieIn};
ghost use Rattle.aql_meaning.specs.Sources.{IsOwnOf};

use crate::select::{extraction, selection};
use crate::sources::lent;
use aql_typed::{TypedExtract, TypedQuery, TypedSelect, TypedSource};
use row_operators::{append_rows, document_rows, without};
use row_values::Rows;
use scalar_ops::Tools;
use span_token::{Document, OutOfMemory};
use std::alloc::Global;

/// What a query means on a document, where `below` has the rows of the views by their numbers.
///
/// The rows stand in the order of the meaning: as nested loops over the sources give them, and in row
/// order behind a consolidation, groups or a limit. Rows of views are lent to sources, never copied; no
/// list of the combinations of sources is kept but of those on which the conditions hold.
///
/// Meaning: `meaning_of`, `specs/Meaning.antt` of `aql_typed`.
#[cycle(query)]
pub fn slow_query<'d>(
    alloc: Global,
    tools: &mut Tools<'_>,
    doc: &Document<'d>,
    below: &[Rows<'d>],
    query: &'d TypedQuery,
) -> Result<Rows<'d>, OutOfMemory>
    requires in_document { AllLieIn doc.now below.now }
    requires fits { Fits (widths_in below.now) (query_of query.now) }
    ensures rows { IfOk result (λ out. out.rows ≡ meaning_of tools.old doc.now (rows_in below.now) (query_of query.now)) }
    ensures width { IfOk result (λ out. out.width ≡ width_of (widths_in below.now) (query_of query.now)) }
    ensures lies { IfOk result (λ out. RowsLieIn doc.now out.rows) }
    ensures same { tools.new ≡ tools.old }
{
    match query {
        TypedQuery::Select(select) => {
            let own = own_sources(alloc, tools, doc, below, select.sources.as_slice())?;
            let out = selection_of(alloc, tools, doc, below, select, own.as_slice())?;
            Ok(out)
        }
        TypedQuery::Extract(extract) => {
            let own = own_rows(alloc, tools, doc, below, &extract.source)?;
            let out = extraction_of(alloc, tools, doc, below, extract, &own)?;
            Ok(out)
        }
        TypedQuery::Union(sides) => {
            let out = union(alloc, tools, doc, below, sides.as_slice())?;
            Ok(out)
        }
        TypedQuery::Minus(left, right) => {
            let left = slow_query(alloc, tools, doc, below, left)?;
            let right = slow_query(alloc, tools, doc, below, right)?;
            let out = without(alloc, left, &right)?;
            Ok(out)
        }
    }
}

/// The rows of each source that is no view, and none for a view.
#[cycle(query)]
fn own_sources<'d>(
    alloc: Global,
    tools: &mut Tools<'_>,
    doc: &Document<'d>,
    below: &[Rows<'d>],
    sources: &'d [TypedSource],
) -> Result<Vec<Rows<'d>>, OutOfMemory>
    requires in_document { AllLieIn doc.now below.now }
    requires fit { All (λ source. SourceFits (widths_in below.now) (source_of source)) sources.now }
    ensures own { IfOk result (λ own. AllZip (λ source own. IsOwnOf tools.old doc.now below.now (source_of source) own) sources.now own.items) }
    ensures lies { IfOk result (λ own. AllLieIn doc.now own.items) }
    ensures same { tools.new ≡ tools.old }
{
    let mut own = Vec::new(alloc);
    for source in sources {
        let rows = own_rows(alloc, tools, doc, below, source)?;
        own.push(rows)?;
    }
    Ok(own)
}

/// The rows of a source that is no view, and none for a view.
#[cycle(query)]
fn own_rows<'d>(
    alloc: Global,
    tools: &mut Tools<'_>,
    doc: &Document<'d>,
    below: &[Rows<'d>],
    source: &'d TypedSource,
) -> Result<Rows<'d>, OutOfMemory>
    requires in_document { AllLieIn doc.now below.now }
    requires fits { SourceFits (widths_in below.now) (source_of source.now) }
    ensures own { IfOk result (λ own. IsOwnOf tools.old doc.now below.now (source_of source.now) own) }
    ensures lies { IfOk result (λ own. RowsLieIn doc.now own.rows) }
    ensures same { tools.new ≡ tools.old }
{
    match source {
        TypedSource::Document => {
            let out = document_rows(alloc, doc)?;
            Ok(out)
        }
        TypedSource::View(_) => Ok(Rows::new(alloc, 0)),
        TypedSource::Nested(query) => {
            let out = slow_query(alloc, tools, doc, below, query)?;
            Ok(out)
        }
    }
}

/// What a selection means; `own` has the rows of each source that is no view.
fn selection_of<'d>(
    alloc: Global,
    tools: &mut Tools<'_>,
    doc: &Document<'d>,
    below: &[Rows<'d>],
    select: &'d TypedSelect,
    own: &[Rows<'d>],
) -> Result<Rows<'d>, OutOfMemory>
    requires in_document { AllLieIn doc.now below.now }
    requires own_in_document { AllLieIn doc.now own.now }
    requires fits { Fits (widths_in below.now) (query_of (TypedQuery.Select select.now)) }
    requires own { AllZip (λ source own. IsOwnOf tools.old doc.now below.now (source_of source) own) select.now.sources.items own.now }
    ensures rows { IfOk result (λ out. out.rows ≡ meaning_of tools.old doc.now (rows_in below.now) (query_of (TypedQuery.Select select.now))) }
    ensures width { IfOk result (λ out. out.width ≡ width_of (widths_in below.now) (query_of (TypedQuery.Select select.now))) }
    ensures lies { IfOk result (λ out. RowsLieIn doc.now out.rows) }
    ensures same { tools.new ≡ tools.old }
{
    let sources = select.sources.as_slice();
    let out = selection(alloc, tools, doc, below, sources, own, &select.clauses)?;
    Ok(out)
}

/// What an extraction means; `own` has the rows of its source where it is no view.
fn extraction_of<'d>(
    alloc: Global,
    tools: &mut Tools<'_>,
    doc: &Document<'d>,
    below: &[Rows<'d>],
    extract: &'d TypedExtract,
    own: &Rows<'d>,
) -> Result<Rows<'d>, OutOfMemory>
    requires in_document { AllLieIn doc.now below.now }
    requires own_in_document { RowsLieIn doc.now own.now.rows }
    requires fits { Fits (widths_in below.now) (query_of (TypedQuery.Extract extract.now)) }
    requires own { IsOwnOf tools.old doc.now below.now (source_of extract.now.source) own.now }
    ensures rows { IfOk result (λ out. out.rows ≡ meaning_of tools.old doc.now (rows_in below.now) (query_of (TypedQuery.Extract extract.now))) }
    ensures width { IfOk result (λ out. out.width ≡ width_of (widths_in below.now) (query_of (TypedQuery.Extract extract.now))) }
    ensures lies { IfOk result (λ out. RowsLieIn doc.now out.rows) }
    ensures same { tools.new ≡ tools.old }
{
    let rows = lent(below, &extract.source, own);
    let out = extraction(alloc, tools, doc, rows, &extract.clauses)?;
    Ok(out)
}

/// The rows of all sides of a union, one side after another.
#[cycle(query)]
fn union<'d>(
    alloc: Global,
    tools: &mut Tools<'_>,
    doc: &Document<'d>,
    below: &[Rows<'d>],
    sides: &'d [TypedQuery],
) -> Result<Rows<'d>, OutOfMemory>
    requires in_document { AllLieIn doc.now below.now }
    requires fit { All (λ side. Fits (widths_in below.now) (query_of side)) sides.now }
    requires same_width { All (λ side. width_of (widths_in below.now) (query_of side) ≡ first_width (widths_in below.now) (as_queries (map query_of sides.now))) sides.now }
    ensures rows { IfOk result (λ out. out.rows ≡ all_sides tools.old doc.now (rows_in below.now) (as_queries (map query_of sides.now))) }
    ensures width { IfOk result (λ out. out.width ≡ first_width (widths_in below.now) (as_queries (map query_of sides.now))) }
    ensures lies { IfOk result (λ out. RowsLieIn doc.now out.rows) }
    ensures same { tools.new ≡ tools.old }
{
    let Some((first, rest)) = sides.split_first() else {
        return Ok(Rows::new(alloc, 0));
    };
    let mut out = slow_query(alloc, tools, doc, below, first)?;
    for side in rest {
        let rows = slow_query(alloc, tools, doc, below, side)?;
        append_rows(rows, &mut out)?;
    }
    Ok(out)
}
