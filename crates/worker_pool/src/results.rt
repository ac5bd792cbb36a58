//! The result of one item: seen in its cell, or computed.

ghost use Rattle.std.specs.Prelude.{◌≡◌, IfOk, IfSome};
ghost use Rattle.run_tables.specs.Cells.{Belongs};
ghost use Rattle.run_tables.specs.Items.{IsResult};
ghost use Rattle.worker_pool.specs.Pages.{IsNext, IsPage, IsResultOf};

use crate::Gate;
use crate::page::result_of;
use crate::walk::told_of;
use crate::window::Window;
use run_tables::{Published, Results, Watch, Work};
use scalar_ops::Tools;
use span_token::OutOfMemory;
use std::alloc::Global;

/// The result of the watch's item, where its cell is seen to hold one.
pub(crate) fn seen<'d, W: Work>(
    results: &Results<'d, W>,
    watch: &mut Watch<'d, W>,
) -> Result<Option<Published<'d, W>>, OutOfMemory>
    requires belongs { Belongs results.now watch.old }
    ensures belongs { Belongs results.now watch.new }
    ensures item { watch.new.item ≡ watch.old.item }
    ensures seen { IfOk result (λ found. IfSome found (λ found. (found.item ≡ watch.old.item) × IsResult W.plan W.docs found.item found.rows)) }
{
    match results.look(watch) {
        Some(found) => Ok(Some(found.again()?)),
        None => Ok(None),
    }
}

/// What node `n` comes to on the document of the page, which has what it asks for.
pub(crate) fn computed<'d, W: Work, G: Gate>(
    alloc: Global,
    window: &Window<'_, 'd, W, G>,
    tools: &mut Tools<'_>,
    d: usize,
    page: &Vec<Option<Published<'d, W>>>,
    n: u32,
) -> Result<Box<Published<'d, W>>, OutOfMemory>
    requires of_plan { tools.old ≡ W.plan.lists }
    requires page { IsPage W.plan W.docs d page.now.items }
    requires next { IsNext W.plan page.now.items n }
    ensures result { IfOk result (λ found. IsResultOf W.plan W.docs d n found.value) }
    ensures same { tools.new ≡ tools.old }
{
    told_of(window.plan);
    let item = window.item(d, n);
    let (left, right) = window.plan.nodes().get(n).inputs();
    let left_result = result_of(page, left);
    let right_result = result_of(page, right);
    let found: Box<Published<'d, W>> = Published::compute(
        alloc,
        tools,
        window.plan,
        window.docs,
        item,
        left_result,
        right_result,
    )?;
    Ok(found)
}

/// Puts the result into the cell of its item, and gives the one that stands there, so far as it is seen, else
/// this one.
pub(crate) fn published<'d, W: Work>(
    results: &Results<'d, W>,
    watch: &mut Watch<'d, W>,
    found: Box<Published<'d, W>>,
) -> Result<Published<'d, W>, OutOfMemory>
    requires belongs { Belongs results.now watch.old }
    requires of_item { found.value.item ≡ watch.old.item }
    requires is_result { IsResult W.plan W.docs found.value.item found.value.rows }
    ensures result { IfOk result (λ found. (found.item ≡ watch.old.item) × IsResult W.plan W.docs found.item found.rows) }
{
    let own = found.again()?;
    if results.publish(watch, found).is_ok() {
        return Ok(own);
    }
    match seen(results, watch)? {
        Some(first) => Ok(first),
        None => Ok(own),
    }
}
