ghost use Rattle.std.specs.Prelude.{◌≡◌, ◌<◌, length, map, IfOk, All};
ghost use Rattle.std.specs.List.{AllZip};
ghost use Rattle.span_token.specs.Documents.{Doc};
ghost use Rattle.row_values.specs.Rows.{RowsLieIn};
ghost use Rattle.scalar_ops.specs.Tables.{Lists};
ghost use Rattle.aql_typed.specs.Fitting.{SourceFits};
ghost use Rattle.aql_typed.specs.Views.{source_of};
ghost use Rattle.aql_meaning.specs.RowLists.{widths_in, AllLieIn};
ghost use Rattle.aql_meaning.specs.Sources.{IsOwnOf, source_list};

use aql_typed::TypedSource;
use row_values::Rows;
use span_token::OutOfMemory;
use std::alloc::Global;

/// The rows of a source: those of a view, which are lent, or its own.
pub(crate) fn lent<'r, 'd>(
    below: &'r [Rows<'d>],
    source: &TypedSource,
    own: &'r Rows<'d>,
) -> &'r Rows<'d>
    requires there { SourceFits (widths_in below.now) (source_of source.now) }
    ensures list { (lists : Lists) (doc : Doc) → IsOwnOf lists doc below.now (source_of source.now) own.now → result.now ≡ source_list lists doc below.now (source_of source.now) }
    ensures lies { (doc : Doc) → AllLieIn doc below.now → RowsLieIn doc own.now.rows → RowsLieIn doc result.now.rows }
{
    match source {
        TypedSource::View(number) => &below[*number as usize],
        TypedSource::Document => own,
        TypedSource::Nested(_) => own,
    }
}

/// The rows of each source: those of a view, which are lent, or its own.
pub(crate) fn lent_sources<'r, 'd>(
    alloc: Global,
    below: &'r [Rows<'d>],
    sources: &[TypedSource],
    own: &'r [Rows<'d>],
) -> Result<Vec<&'r Rows<'d>>, OutOfMemory>
    requires there { All (λ source. SourceFits (widths_in below.now) (source_of source)) sources.now }
    requires one_each { length own.now ≡ length sources.now }
    ensures lists { (lists : Lists) (doc : Doc) → AllZip (λ source own. IsOwnOf lists doc below.now (source_of source) own) sources.now own.now
        → IfOk result (λ lent. map (λ list. list.now) lent.items ≡ map (λ source. source_list lists doc below.now (source_of source)) sources.now) }
    ensures lies { (doc : Doc) → AllLieIn doc below.now → AllLieIn doc own.now → IfOk result (λ lent. All (λ list. RowsLieIn doc list.now.rows) lent.items) }
{
    let mut lists = Vec::new(alloc);
    for i in 0..sources.len() {
        lists.push(lent(below, &sources[i], &own[i]))?;
    }
    Ok(lists)
}
