//! Queries: each becomes nodes, and its rows are those of the last.

ghost use Rattle.std.specs.Prelude.{◌≡◌, ◌+◌, ◌*◌, ◌≤◌, OnOk, IfOk, All, length};
ghost use Rattle.aql_typed.specs.Fitting.{width_of, first_width, source_width, all_widths};
ghost use Rattle.aql_typed.specs.Meaning.{selected, meaning_of, all_sides, source_rows, combinations};
ghost use Rattle.aql_typed.specs.Views.{query_of, source_of};
ghost use Rattle.algebra.specs.Growth.{Grows};
ghost use Rattle.plan_maker.specs.Grounds.{Gives, IsWell, QueryFits, SourceThere, SidesThere, JoinFits, sides_seen, sources_seen, terms_lent};
ghost use Rattle.plan_maker.specs.Lowered.{IsLoweredForm, query_size, sides_size, source_size, sources_size};

use crate::below::Below;
use crate::conditions::parted;
use crate::extraction::extraction;
use crate::joining::{crossed, empty_row, narrowed, no_row, selected};
use crate::selection::shaped;
use algebra::{Node, Nodes};
use aql_typed::{TypedQuery, TypedSource};
use scalar_ops::Expr;
use span_token::OutOfMemory;
use std::alloc::Global;

/// A node of what a query means.
#[cycle(query)]
pub(crate) fn query(
    alloc: Global,
    nodes: &mut Nodes,
    below: &Below,
    typed: &TypedQuery,
) -> Result<u32, OutOfMemory>
    requires well { IsWell nodes.old below.now (QueryFits (query_of typed.now)) }
    ensures grows { OnOk result (Grows nodes.old nodes.new) }
    ensures forms { OnOk result (All IsLoweredForm nodes.old → All IsLoweredForm nodes.new) }
    ensures few { OnOk result (length nodes.new + 2 ≤ length nodes.old + 8 * query_size (query_of typed.now)) }
    ensures gives { IfOk result (λ n. (well : IsWell nodes.old below.now (QueryFits (query_of typed.now)))
        → Gives nodes.new n (width_of well.widths (query_of typed.now)) (λ lists doc. meaning_of lists doc (well.means lists doc) (query_of typed.now))) }
{
    match typed {
        TypedQuery::Select(select) => {
            let conds = parted(alloc, select.clauses.conds.as_slice())?;
            let joined = combined(alloc, nodes, below, select.sources.as_slice(), conds)?;
            let n = shaped(alloc, nodes, joined, &select.clauses)?;
            Ok(n)
        }
        TypedQuery::Extract(extract) => {
            let input = source(alloc, nodes, below, &extract.source)?;
            let n = extraction(alloc, nodes, input, &extract.clauses)?;
            Ok(n)
        }
        TypedQuery::Union(sides) => {
            let n = union(alloc, nodes, below, sides.as_slice())?;
            Ok(n)
        }
        TypedQuery::Minus(left, right) => {
            let left = query(alloc, nodes, below, left)?;
            let right = query(alloc, nodes, below, right)?;
            let n = nodes.add(Node::Minus { left, right })?;
            Ok(n)
        }
    }
}

/// A node of the combinations of one row of each source on which every condition holds. Each condition is
/// tried as soon as the sources that it reads are joined.
#[cycle(query)]
fn combined(
    alloc: Global,
    nodes: &mut Nodes,
    below: &Below,
    sources: &[TypedSource],
    conds: Vec<&Expr>,
) -> Result<u32, OutOfMemory>
    requires well { IsWell nodes.old below.now (JoinFits (sources_seen sources.now) (terms_lent conds.items)) }
    ensures grows { OnOk result (Grows nodes.old nodes.new) }
    ensures forms { OnOk result (All IsLoweredForm nodes.old → All IsLoweredForm nodes.new) }
    ensures few { OnOk result (length nodes.new ≤ length nodes.old + 2 + 8 * sources_size (sources_seen sources.now)) }
    ensures gives { IfOk result (λ n. (well : IsWell nodes.old below.now (JoinFits (sources_seen sources.now) (terms_lent conds.entry.items)))
        → Gives nodes.new n (all_widths well.widths (sources_seen sources.now)) (λ lists doc. selected lists doc (terms_lent conds.entry.items) (combinations lists doc (well.means lists doc) (sources_seen sources.now)))) }
{
    let mut last = conds;
    let Some((first, rest)) = sources.split_first() else {
        let row = empty_row(alloc, nodes, below.document)?;
        let n = selected(alloc, nodes, row, last.as_slice())?;
        return Ok(n);
    };
    let input = source(alloc, nodes, below, first)?;
    let mut joined = narrowed(alloc, nodes, input, &mut last)?;
    for next in rest {
        let right = source(alloc, nodes, below, next)?;
        joined = crossed(alloc, nodes, joined, right, &mut last)?;
    }
    let n = selected(alloc, nodes, joined, last.as_slice())?;
    Ok(n)
}

/// A node of the rows of a source: that of the document or of a view, or one of its own.
#[cycle(query)]
fn source(
    alloc: Global,
    nodes: &mut Nodes,
    below: &Below,
    source: &TypedSource,
) -> Result<u32, OutOfMemory>
    requires well { IsWell nodes.old below.now (SourceThere (source_of source.now)) }
    ensures grows { OnOk result (Grows nodes.old nodes.new) }
    ensures forms { OnOk result (All IsLoweredForm nodes.old → All IsLoweredForm nodes.new) }
    ensures few { OnOk result (length nodes.new + 2 ≤ length nodes.old + 8 * source_size (source_of source.now)) }
    ensures gives { IfOk result (λ n. (well : IsWell nodes.old below.now (SourceThere (source_of source.now)))
        → Gives nodes.new n (source_width well.widths (source_of source.now)) (λ lists doc. source_rows lists doc (well.means lists doc) (source_of source.now))) }
{
    match source {
        TypedSource::Document => Ok(below.document),
        TypedSource::View(number) => Ok(below.views.as_slice()[*number as usize]),
        TypedSource::Nested(nested) => {
            let n = query(alloc, nodes, below, nested)?;
            Ok(n)
        }
    }
}

/// A node of the rows of all sides of a union, one side after another.
#[cycle(query)]
fn union(
    alloc: Global,
    nodes: &mut Nodes,
    below: &Below,
    sides: &[TypedQuery],
) -> Result<u32, OutOfMemory>
    requires well { IsWell nodes.old below.now (SidesThere (sides_seen sides.now)) }
    ensures grows { OnOk result (Grows nodes.old nodes.new) }
    ensures forms { OnOk result (All IsLoweredForm nodes.old → All IsLoweredForm nodes.new) }
    ensures few { OnOk result (length nodes.new ≤ length nodes.old + 2 + 8 * sides_size (sides_seen sides.now)) }
    ensures gives { IfOk result (λ n. (well : IsWell nodes.old below.now (SidesThere (sides_seen sides.now)))
        → Gives nodes.new n (first_width well.widths (sides_seen sides.now)) (λ lists doc. all_sides lists doc (well.means lists doc) (sides_seen sides.now))) }
{
    let Some((first, rest)) = sides.split_first() else {
        let n = no_row(alloc, nodes, below.document)?;
        return Ok(n);
    };
    let mut all = query(alloc, nodes, below, first)?;
    for side in rest {
        let right = query(alloc, nodes, below, side)?;
        all = nodes.add(Node::Union { left: all, right })?;
    }
    Ok(all)
}
