//! Extractions: what is found, and the columns beside it.

ghost use Rattle.std.specs.Prelude.{◌+◌, ◌≤◌, OnOk, IfOk, All, length};
ghost use Rattle.std.specs.List.{flat_map};
ghost use Rattle.aql_typed.specs.Fitting.{extract_width, found_width};
ghost use Rattle.aql_typed.specs.Meaning.{extracted, extracted_from, extract_rows};
ghost use Rattle.aql_typed.specs.Trees.{dict};
ghost use Rattle.aql_typed.specs.Views.{extraction_of, extract_clauses_of};
ghost use Rattle.algebra.specs.Growth.{Grows};
ghost use Rattle.algebra.specs.Operators.{with_found};
ghost use Rattle.plan_maker.specs.Grounds.{Gives, CanRead, ExtractFits, MatchesFit, SearchFits};
ghost use Rattle.plan_maker.specs.Lowered.{IsLoweredForm};

use crate::conditions::lent;
use crate::copying::{numbers_copied, with_columns};
use crate::joining::selected;
use crate::selection::{consolidated, limited};
use algebra::{Node, Nodes};
use aql_typed::{ExtractClauses, Extraction};
use span_token::{OutOfMemory, OwnedList};
use std::alloc::Global;

/// A node of an extraction from the rows of `input`.
pub(crate) fn extraction(
    alloc: Global,
    nodes: &mut Nodes,
    input: u32,
    clauses: &ExtractClauses,
) -> Result<u32, OutOfMemory>
    requires can { CanRead nodes.old input (ExtractFits (extract_clauses_of clauses.now)) }
    ensures grows { OnOk result (Grows nodes.old nodes.new) }
    ensures forms { OnOk result (All IsLoweredForm nodes.old → All IsLoweredForm nodes.new) }
    ensures few { OnOk result (length nodes.new ≤ length nodes.old + 6) }
    ensures gives { IfOk result (λ n. (can : CanRead nodes.old input (ExtractFits (extract_clauses_of clauses.now)))
        → Gives nodes.new n (extract_width (extract_clauses_of clauses.now)) (λ lists doc. extract_rows lists doc (extract_clauses_of clauses.now) (can.rows lists doc))) }
{
    let found = extracted(alloc, nodes, input, clauses)?;
    let conds = lent(alloc, clauses.conds.as_slice())?;
    let held = selected(alloc, nodes, found, conds.as_slice())?;
    let stay = consolidated(alloc, nodes, held, &clauses.consolidate)?;
    let n = limited(alloc, nodes, stay, &[], clauses.limit)?;
    Ok(n)
}

/// A node of what is extracted: blocks of all rows together, or for each match in a row the values of the
/// items, followed by what is found.
fn extracted(
    alloc: Global,
    nodes: &mut Nodes,
    input: u32,
    clauses: &ExtractClauses,
) -> Result<u32, OutOfMemory>
    requires can { CanRead nodes.old input (ExtractFits (extract_clauses_of clauses.now)) }
    ensures grows { OnOk result (Grows nodes.old nodes.new) }
    ensures forms { OnOk result (All IsLoweredForm nodes.old → All IsLoweredForm nodes.new) }
    ensures few { OnOk result (length nodes.new ≤ length nodes.old + 3) }
    ensures gives { IfOk result (λ n. (can : CanRead nodes.old input (ExtractFits (extract_clauses_of clauses.now)))
        → Gives nodes.new n (extract_width (extract_clauses_of clauses.now)) (λ lists doc. extracted lists doc clauses.now.items (extraction_of clauses.now.extraction) (can.rows lists doc))) }
{
    match &clauses.extraction {
        Extraction::Blocks {
            column,
            low,
            high,
            gap_low,
            gap_high,
            tokens,
        } => {
            let n = nodes.add(Node::Blocks {
                input,
                column: *column,
                low: *low,
                high: *high,
                gap_low: *gap_low,
                gap_high: *gap_high,
                tokens: *tokens,
            })?;
            Ok(n)
        }
        Extraction::Regex { .. } => {
            let n = each_extracted(alloc, nodes, input, clauses)?;
            Ok(n)
        }
        Extraction::TokenRegex { .. } => {
            let n = each_extracted(alloc, nodes, input, clauses)?;
            Ok(n)
        }
        Extraction::Dict { .. } => {
            let n = each_extracted(alloc, nodes, input, clauses)?;
            Ok(n)
        }
    }
}

/// A node of what is extracted from each row: the values of the items, followed by what is found.
fn each_extracted(
    alloc: Global,
    nodes: &mut Nodes,
    input: u32,
    clauses: &ExtractClauses,
) -> Result<u32, OutOfMemory>
    requires can { CanRead nodes.old input (MatchesFit (extract_clauses_of clauses.now)) }
    ensures grows { OnOk result (Grows nodes.old nodes.new) }
    ensures forms { OnOk result (All IsLoweredForm nodes.old → All IsLoweredForm nodes.new) }
    ensures few { OnOk result (length nodes.new ≤ length nodes.old + 3) }
    ensures gives { IfOk result (λ n. (can : CanRead nodes.old input (MatchesFit (extract_clauses_of clauses.now)))
        → Gives nodes.new n (extract_width (extract_clauses_of clauses.now)) (λ lists doc. flat_map (extracted_from lists doc clauses.now.items (extraction_of clauses.now.extraction)) (can.rows lists doc))) }
{
    let _plan = nodes.as_slice();
    let width = nodes.shape(input).width;
    let found = found(alloc, nodes, input, &clauses.extraction)?;
    let count = nodes.shape(found).width - width;
    let items = with_columns(alloc, clauses.items.as_slice(), width, count)?;
    let n = nodes.add(Node::Project {
        input: found,
        items,
    })?;
    Ok(n)
}

/// A node of each row of `input`, followed by what is found in it.
fn found(
    alloc: Global,
    nodes: &mut Nodes,
    input: u32,
    extraction: &Extraction,
) -> Result<u32, OutOfMemory>
    requires can { CanRead nodes.old input (SearchFits (extraction_of extraction.now)) }
    ensures grows { OnOk result (Grows nodes.old nodes.new) }
    ensures forms { OnOk result (All IsLoweredForm nodes.old → All IsLoweredForm nodes.new) }
    ensures few { OnOk result (length nodes.new ≤ length nodes.old + 2) }
    ensures gives { IfOk result (λ n. (can : CanRead nodes.old input (SearchFits (extraction_of extraction.now)))
        → Gives nodes.new n (can.width + found_width (extraction_of extraction.now)) (λ lists doc. with_found lists doc (extraction_of extraction.now) (can.rows lists doc))) }
{
    match extraction {
        Extraction::Regex {
            column,
            pattern,
            groups,
        } => {
            let groups = numbers_copied(alloc, groups.as_slice())?;
            let n = nodes.add(Node::Regex {
                input,
                column: *column,
                pattern: *pattern,
                groups,
            })?;
            Ok(n)
        }
        Extraction::TokenRegex {
            column,
            low,
            high,
            pattern,
            groups,
        } => {
            let groups = numbers_copied(alloc, groups.as_slice())?;
            let n = nodes.add(Node::TokenRegex {
                input,
                column: *column,
                low: *low,
                high: *high,
                pattern: *pattern,
                groups,
            })?;
            Ok(n)
        }
        Extraction::Dict { column, dict } => {
            let n = entries(alloc, nodes, input, *column, *dict)?;
            Ok(n)
        }
        Extraction::Blocks { .. } => unreachable!(),
    }
}

/// A node of each row of `input`, followed by a match of a dictionary: the only one of a `Dict` node.
fn entries(
    alloc: Global,
    nodes: &mut Nodes,
    input: u32,
    column: u32,
    number: u32,
) -> Result<u32, OutOfMemory>
    requires can { CanRead nodes.old input (SearchFits (dict column number)) }
    ensures grows { OnOk result (Grows nodes.old nodes.new) }
    ensures forms { OnOk result (All IsLoweredForm nodes.old → All IsLoweredForm nodes.new) }
    ensures few { OnOk result (length nodes.new ≤ length nodes.old + 2) }
    ensures gives { IfOk result (λ n. (can : CanRead nodes.old input (SearchFits (dict column number)))
        → Gives nodes.new n (can.width + 1) (λ lists doc. with_found lists doc (dict column number) (can.rows lists doc))) }
{
    let mut dicts = OwnedList::new(alloc);
    dicts.push(number)?;
    let input = nodes.add(Node::Dict {
        input,
        column,
        dicts,
    })?;
    let n = nodes.add(Node::DictPart { input, number: 0 })?;
    Ok(n)
}
