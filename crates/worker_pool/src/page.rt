//! What is known of the nodes of a plan on one document: a page has for each node its result, where it was
//! evaluated or seen.

ghost use Rattle.std.specs.Prelude.{◌≡◌, ◌≢◌, ◌↔◌, ◌<◌, [], None, IfNone, IfSome, IsTrue, OnOk, is_some, length, option_map, set, Some};
ghost use Rattle.algebra.specs.Inputs.{IsAmong};
ghost use Rattle.algebra.specs.Plans.{Parts};
ghost use Rattle.run_core.specs.Wanted.{given};
ghost use Rattle.worker_pool.specs.Pages.{empty_page, known_at, known_of, rows_on, IsMissing, IsReadyOn, IsSeen};

use algebra::Plan;
use run_tables::{Published, Work};
use span_token::OutOfMemory;

/// So many nodes of which nothing is known, in place of others.
pub(crate) fn clear_page<'d, W: Work>(
    known: &mut Vec<Option<Published<'d, W>>>,
    nodes: u32,
) -> Result<(), OutOfMemory>
    ensures { OnOk result (known.new.items ≡ empty_page nodes) }
{
    known.clear();
    for _ in 0..nodes {
        known.push(None)?;
    }
    Ok(())
}

/// Puts the result of node `n` on the page.
pub(crate) fn put_result<'d, W: Work>(
    known: &mut Vec<Option<Published<'d, W>>>,
    n: u32,
    found: Published<'d, W>,
)
    requires there { n < length known.old.items }
    ensures { known.new.items ≡ set known.old.items n (Some found.entry) }
{
    known[n as usize] = Some(found);
}

/// Whether the node's result is known.
pub(crate) fn has<'d, W: Work>(known: &Vec<Option<Published<'d, W>>>, n: u32) -> bool
    requires there { n < length known.now.items }
    ensures { result ≡ is_some (known_at known.now.items n) }
{
    known[n as usize].is_some()
}

/// The result of an input, where there is one and it is known.
pub(crate) fn result_of<'r, 'd, W: Work>(
    known: &'r Vec<Option<Published<'d, W>>>,
    input: Option<u32>,
) -> Option<&'r Published<'d, W>>
    requires among { IsAmong (length known.now.items) input }
    ensures { option_map (λ found. found.now) result ≡ known_of known.now.items input }
{
    match input {
        Some(i) => match &known[i as usize] {
            Some(found) => Some(found),
            None => None,
        },
        None => None,
    }
}

/// Whether an input has a row, as far as is known.
fn has_row<'d, W: Work>(known: &Vec<Option<Published<'d, W>>>, input: Option<u32>) -> bool
    requires among { IsAmong (length known.now.items) input }
    ensures { (plan : Parts) → IsTrue result ↔ (given plan (rows_on known.now.items) input ≢ []) }
{
    match result_of(known, input) {
        Some(found) => found.rows().len() > 0,
        None => false,
    }
}

/// The input, where there is one that isn't known.
fn unseen<'d, W: Work>(known: &Vec<Option<Published<'d, W>>>, input: Option<u32>) -> Option<u32>
    requires among { IsAmong (length known.now.items) input }
    ensures unseen { IfSome result (λ i. (input ≡ Some i) × (known_at known.now.items i ≡ None)) }
    ensures seen { IfNone result (IsSeen known.now.items input) }
{
    match input {
        Some(i) => { if has(known, i) { None } else { Some(i) } }
        None => None,
    }
}

/// A node that node `n` asks for and that isn't known, where there is one.
pub(crate) fn missing<'d, W: Work>(
    known: &Vec<Option<Published<'d, W>>>,
    plan: &Plan,
    n: u32,
) -> Option<u32>
    requires there { n < length plan.now.nodes }
    requires sized { length known.now.items ≡ length plan.now.nodes }
    ensures missing { IfSome result (IsMissing plan.now known.now.items n) }
    ensures ready { IfNone result (IsReadyOn plan.now known.now.items n) }
{
    let node = plan.nodes().get(n);
    let (left, right) = node.inputs();
    match unseen(known, left) {
        Some(i) => Some(i),
        None => match unseen(known, right) {
            Some(i) => {
                if node.is_conditional() && !has_row(known, left) {
                    None
                } else {
                    Some(i)
                }
            }
            None => None,
        },
    }
}
