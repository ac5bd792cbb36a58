ghost use Rattle.std.specs.Prelude.{◌≡◌, length, map, option_map, IfOk, All};
ghost use Rattle.std.specs.List.{AllZip};
ghost use Rattle.row_values.specs.Rows.{RowsLieIn};
ghost use Rattle.aql_typed.specs.Fitting.{projection_width, extract_width, FitsSelect, FitsExtraction, SourceFits};
ghost use Rattle.aql_typed.specs.Meaning.{kept, projected, cut, select_rows, extract_rows};
ghost use Rattle.aql_typed.specs.Views.{consolidation_of, projection_of, extraction_of, select_clauses_of, extract_clauses_of, source_of};
ghost use Rattle.aql_meaning.specs.RowLists.{widths_in, AllLieIn};
ghost use Rattle.aql_meaning.specs.Sources.{products, IsOwnOf, source_list};

use crate::combine::combined;
use crate::extract::extracted;
use crate::keep::kept;
use crate::project::projected;
use crate::sources::lent_sources;
use aql_typed::{ExtractClauses, SelectClauses, TypedSource};
use row_operators::{cut, selected};
use row_values::Rows;
use scalar_ops::Tools;
use span_token::{Document, OutOfMemory};
use std::alloc::Global;

/// A selection of the combinations of its sources' rows; `own` has the rows of each source that is no
/// view.
pub(crate) fn selection<'d>(
    alloc: Global,
    tools: &mut Tools<'_>,
    doc: &Document<'d>,
    below: &[Rows<'d>],
    sources: &[TypedSource],
    own: &[Rows<'d>],
    clauses: &'d SelectClauses,
) -> Result<Rows<'d>, OutOfMemory>
    requires there { All (λ source. SourceFits (widths_in below.now) (source_of source)) sources.now }
    requires fits { FitsSelect (select_clauses_of clauses.now) }
    requires below_in_document { AllLieIn doc.now below.now }
    requires own_in_document { AllLieIn doc.now own.now }
    requires own { AllZip (λ source own. IsOwnOf tools.old doc.now below.now (source_of source) own) sources.now own.now }
    requires one_each { length own.now ≡ length sources.now }
    ensures rows { IfOk result (λ out. out.rows ≡ select_rows tools.old doc.now (select_clauses_of clauses.now)
        (products (map (λ list. list.rows) (map (λ source. source_list tools.old doc.now below.now (source_of source)) sources.now)))) }
    ensures width { IfOk result (λ out. out.width ≡ projection_width (projection_of clauses.now.projection)) }
    ensures lies { IfOk result (λ out. RowsLieIn doc.now out.rows) }
    ensures same { tools.new ≡ tools.old }
{
    let lent = lent_sources(alloc, below, sources, own)?;
    let rows = combined(alloc, tools, doc, lent.as_slice(), &clauses.conds)?;
    let out = shaped(alloc, tools, doc, rows, clauses)?;
    Ok(out)
}

/// What a selection makes of rows on which its conditions hold.
fn shaped<'d>(
    alloc: Global,
    tools: &mut Tools<'_>,
    doc: &Document<'d>,
    rows: Rows<'d>,
    clauses: &'d SelectClauses,
) -> Result<Rows<'d>, OutOfMemory>
    requires in_document { RowsLieIn doc.now rows.rows }
    requires fits { FitsSelect (select_clauses_of clauses.now) }
    ensures rows { IfOk result (λ out. out.rows ≡ cut clauses.now.order.items clauses.now.limit
        (projected tools.old doc.now (projection_of clauses.now.projection) (kept tools.old doc.now (option_map consolidation_of clauses.now.consolidate) rows.entry.rows))) }
    ensures width { IfOk result (λ out. out.width ≡ projection_width (projection_of clauses.now.projection)) }
    ensures lies { IfOk result (λ out. RowsLieIn doc.now out.rows) }
    ensures same { tools.new ≡ tools.old }
{
    let rows = kept(alloc, tools, doc, rows, &clauses.consolidate)?;
    let columns = projected(alloc, tools, doc, rows.as_slice(), &clauses.projection)?;
    let out = cut(alloc, columns, clauses.order.as_slice(), clauses.limit)?;
    Ok(out)
}

/// An extraction of the rows of its source.
pub(crate) fn extraction<'d>(
    alloc: Global,
    tools: &mut Tools<'_>,
    doc: &Document<'d>,
    rows: &Rows<'d>,
    clauses: &'d ExtractClauses,
) -> Result<Rows<'d>, OutOfMemory>
    requires in_document { RowsLieIn doc.now rows.now.rows }
    requires fits { FitsExtraction (extract_clauses_of clauses.now) (extraction_of clauses.now.extraction) }
    ensures rows { IfOk result (λ out. out.rows ≡ extract_rows tools.old doc.now (extract_clauses_of clauses.now) rows.now.rows) }
    ensures width { IfOk result (λ out. out.width ≡ extract_width (extract_clauses_of clauses.now)) }
    ensures lies { IfOk result (λ out. RowsLieIn doc.now out.rows) }
    ensures same { tools.new ≡ tools.old }
{
    let found = extracted(alloc, tools, doc, rows.as_slice(), clauses)?;
    let held = selected(alloc, tools, doc, found, &clauses.conds)?;
    let stay = kept(alloc, tools, doc, held, &clauses.consolidate)?;
    let out = cut(alloc, stay, &[], clauses.limit)?;
    Ok(out)
}
