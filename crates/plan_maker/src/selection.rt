//! What selections and extractions do with rows: consolidations, projections, groups, limits.

ghost use Rattle.std.specs.Prelude.{◌≡◌, ◌+◌, ◌≤◌, ◌++◌, OnOk, IfOk, All, length, map, option_map};
ghost use Rattle.std.specs.List.{range_with_len};
ghost use Rattle.row_values.specs.Rows.{sorted};
ghost use Rattle.group_agg.specs.Groups.{HasKey, HasColumn, grouped};
ghost use Rattle.aql_typed.specs.Fitting.{projection_width};
ghost use Rattle.aql_typed.specs.Meaning.{row_of, kept, projected, cut};
ghost use Rattle.aql_typed.specs.Views.{consolidation_of, projection_of, select_clauses_of};
ghost use Rattle.algebra.specs.Growth.{Grows};
ghost use Rattle.plan_maker.specs.Grounds.{Gives, CanRead, AllRead, TargetFits, ColumnsFit, ClausesFit, KeysFit};
ghost use Rattle.plan_maker.specs.Lowered.{IsLoweredForm};

use crate::copying::{
    aggregates_copied, both_copied, copied, exprs_copied, first_numbers, numbers_copied,
};
use algebra::{Node, Nodes, Target};
use aql_typed::{Consolidate, Projection, SelectClauses};
use group_agg::Agg;
use scalar_ops::Exprs;
use span_token::OutOfMemory;
use std::alloc::Global;

/// A node of what a selection makes of rows on which its conditions hold.
pub(crate) fn shaped(
    alloc: Global,
    nodes: &mut Nodes,
    input: u32,
    clauses: &SelectClauses,
) -> Result<u32, OutOfMemory>
    requires can { CanRead nodes.old input (ClausesFit (select_clauses_of clauses.now)) }
    ensures grows { OnOk result (Grows nodes.old nodes.new) }
    ensures forms { OnOk result (All IsLoweredForm nodes.old → All IsLoweredForm nodes.new) }
    ensures few { OnOk result (length nodes.new ≤ length nodes.old + 4) }
    ensures gives { IfOk result (λ n. (can : CanRead nodes.old input (ClausesFit (select_clauses_of clauses.now)))
        → Gives nodes.new n (projection_width (projection_of clauses.now.projection)) (λ lists doc. cut clauses.now.order.items clauses.now.limit
        (projected lists doc (projection_of clauses.now.projection) (kept lists doc (option_map consolidation_of clauses.now.consolidate) (can.rows lists doc))))) }
{
    let stay = consolidated(alloc, nodes, input, &clauses.consolidate)?;
    let columns = projected(alloc, nodes, stay, &clauses.projection)?;
    let n = limited(
        alloc,
        nodes,
        columns,
        clauses.order.as_slice(),
        clauses.limit,
    )?;
    Ok(n)
}

/// A node of the rows that a consolidation keeps: `input` itself where there is none.
pub(crate) fn consolidated(
    alloc: Global,
    nodes: &mut Nodes,
    input: u32,
    consolidate: &Option<Consolidate>,
) -> Result<u32, OutOfMemory>
    requires can { CanRead nodes.old input (TargetFits (option_map consolidation_of consolidate.now)) }
    ensures grows { OnOk result (Grows nodes.old nodes.new) }
    ensures forms { OnOk result (All IsLoweredForm nodes.old → All IsLoweredForm nodes.new) }
    ensures few { OnOk result (length nodes.new ≤ length nodes.old + 1) }
    ensures gives { IfOk result (λ n. (can : CanRead nodes.old input (TargetFits (option_map consolidation_of consolidate.now)))
        → Gives nodes.new n can.width (λ lists doc. kept lists doc (option_map consolidation_of consolidate.now) (can.rows lists doc))) }
{
    let Some(consolidate) = consolidate else {
        return Ok(input);
    };
    let target = Target::from(copied(alloc, &consolidate.target)?);
    let n = nodes.add(Node::Consolidate {
        input,
        policy: consolidate.policy,
        target,
    })?;
    Ok(n)
}

/// A node of the columns of a selection.
fn projected(
    alloc: Global,
    nodes: &mut Nodes,
    input: u32,
    projection: &Projection,
) -> Result<u32, OutOfMemory>
    requires can { CanRead nodes.old input (ColumnsFit (projection_of projection.now)) }
    ensures grows { OnOk result (Grows nodes.old nodes.new) }
    ensures forms { OnOk result (All IsLoweredForm nodes.old → All IsLoweredForm nodes.new) }
    ensures few { OnOk result (length nodes.new ≤ length nodes.old + 2) }
    ensures gives { IfOk result (λ n. (can : CanRead nodes.old input (ColumnsFit (projection_of projection.now)))
        → Gives nodes.new n (projection_width (projection_of projection.now)) (λ lists doc. projected lists doc (projection_of projection.now) (can.rows lists doc))) }
{
    match projection {
        Projection::Plain(items) => {
            let items = exprs_copied(alloc, items.as_slice())?;
            let n = nodes.add(Node::Project { input, items })?;
            Ok(n)
        }
        Projection::Grouped {
            keys,
            arguments,
            aggregates,
        } => {
            let n = grouped(alloc, nodes, input, keys, arguments, aggregates.as_slice())?;
            Ok(n)
        }
    }
}

/// A node of the groups of rows with equal keys, over a node of the keys and the arguments.
fn grouped(
    alloc: Global,
    nodes: &mut Nodes,
    input: u32,
    keys: &Exprs,
    arguments: &Exprs,
    aggs: &[Agg],
) -> Result<u32, OutOfMemory>
    requires can { CanRead nodes.old input (AllRead (keys.now ++ arguments.now)) }
    requires keys_there { All (HasKey (length keys.now)) aggs.now }
    requires columns_there { All (HasColumn (length (keys.now ++ arguments.now))) aggs.now }
    ensures grows { OnOk result (Grows nodes.old nodes.new) }
    ensures forms { OnOk result (All IsLoweredForm nodes.old → All IsLoweredForm nodes.new) }
    ensures few { OnOk result (length nodes.new ≤ length nodes.old + 2) }
    ensures gives { IfOk result (λ n. (can : CanRead nodes.old input (AllRead (keys.now ++ arguments.now)))
        → Gives nodes.new n (length aggs.now) (λ lists doc. sorted (grouped (range_with_len 0 (length keys.now)) aggs.now (map (row_of lists doc (keys.now ++ arguments.now)) (can.rows lists doc))))) }
{
    let items = both_copied(alloc, keys.as_slice(), arguments.as_slice())?;
    let columns = nodes.add(Node::Project { input, items })?;
    let keys = first_numbers(alloc, keys.as_slice().len())?;
    let aggs = aggregates_copied(alloc, aggs)?;
    let n = nodes.add(Node::Group {
        input: columns,
        keys,
        aggs,
    })?;
    Ok(n)
}

/// A node of the first rows: `input` itself where there is no limit.
pub(crate) fn limited(
    alloc: Global,
    nodes: &mut Nodes,
    input: u32,
    order: &[u32],
    limit: Option<u64>,
) -> Result<u32, OutOfMemory>
    requires can { CanRead nodes.old input (KeysFit order.now) }
    ensures grows { OnOk result (Grows nodes.old nodes.new) }
    ensures forms { OnOk result (All IsLoweredForm nodes.old → All IsLoweredForm nodes.new) }
    ensures few { OnOk result (length nodes.new ≤ length nodes.old + 1) }
    ensures gives { IfOk result (λ n. (can : CanRead nodes.old input (KeysFit order.now))
        → Gives nodes.new n can.width (λ lists doc. cut order.now limit (can.rows lists doc))) }
{
    if limit.is_none() {
        return Ok(input);
    }
    let keys = numbers_copied(alloc, order)?;
    let n = nodes.add(Node::OrderLimit { input, keys, limit })?;
    Ok(n)
}
