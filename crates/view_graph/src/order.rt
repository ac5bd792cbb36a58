//! The views by rank and then by number.

ghost use Rattle.std.specs.Prelude.{◌≡◌, ℕ, ◌<◌, ◌≤◌, ◌^◌, map, length, slice_index, All, IfOk};
ghost use Rattle.aql_syntax.specs.Views.{statement_of};
ghost use Rattle.view_graph.specs.Kept.{IsIndexed};
ghost use Rattle.view_graph.specs.Names.{AllDiffer};
ghost use Rattle.view_graph.specs.Orders.{IsNumbering, HaveRanks};

use crate::search::Mark;
use aql_syntax::Statement;
use span_token::OutOfMemory;
use std::alloc::Global;

/// The numbers of the views, from 1, by rank and then by number.
pub(crate) fn in_order(
    alloc: Global,
    statements: &[Statement],
    marks: &[Mark],
) -> Result<Vec<u32>, OutOfMemory>
    requires short { length statements.now < 2 ^ 32 }
    requires marked { length marks.now ≡ length statements.now }
    ensures { IfOk result (λ order. IsNumbering (map statement_of statements.now) marks.now order.items) }
{
    let mut views = with_ranks(alloc, statements, marks)?;
    views.sort()?;
    let mut order = Vec::new(alloc);
    for (_, view) in &views {
        order.push(*view + 1)?;
    }
    Ok(order)
}

/// The views with their ranks: rank and index, by index.
fn with_ranks(
    alloc: Global,
    statements: &[Statement],
    marks: &[Mark],
) -> Result<Vec<(u32, u32)>, OutOfMemory>
    requires short { length statements.now < 2 ^ 32 }
    requires marked { length marks.now ≡ length statements.now }
    ensures { IfOk result (λ views. HaveRanks (map statement_of statements.now) marks.now views.items) }
{
    let mut views = Vec::new(alloc);
    for (index, statement) in statements.iter().enumerate() {
        if let Statement::View { .. } = statement {
            views.push((rank_of(marks[index]), index as u32))?;
        }
    }
    Ok(views)
}

/// The rank that the walk marked.
fn rank_of(mark: Mark) -> u32
    ensures { (rank : ℕ) → mark ≡ Mark.Ranked rank → result ≡ rank }
{
    match mark {
        Mark::Ranked(rank) => rank,
        _ => 0,
    }
}

/// For each statement the index of its view in the order; 0 where it creates no view.
pub(crate) fn indexes_of(
    alloc: Global,
    order: &[u32],
    count: usize,
) -> Result<Vec<u32>, OutOfMemory>
    requires short { count < 2 ^ 32 }
    requires within { All (λ number. (0 < number) × (number ≤ count)) order.now }
    requires distinct { AllDiffer order.now }
    ensures { IfOk result (λ indexes. IsIndexed order.now indexes.items) }
{
    let mut indexes = vec![in alloc; 0u32; count]?;
    for (index, number) in order.iter().enumerate() {
        indexes[*number as usize - 1] = index as u32;
    }
    Ok(indexes)
}

/// The index of a view in the order, as it is kept.
pub(crate) fn index_at(indexes: &[u32], view: u32) -> u32
    requires { view < length indexes.now }
    ensures { result ≡ slice_index indexes.now view }
{
    indexes[view as usize]
}
