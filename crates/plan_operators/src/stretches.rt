//! Where runs of tokens begin that may join with some outer row.

ghost use Rattle.std.specs.Prelude.{◌+◌, ◌<◌, ◌≤◌, ◌^◌, ℕ, All, IfOk};
ghost use Rattle.row_values.specs.Rows.{RowsLieIn};
ghost use Rattle.plan_operators.specs.Neighbourhoods.{AreAround, FirstsRise, IsIn, IsInSome, IsNearRun};

use crate::near::{Near, where_near};
use algebra::JoinKind;
use row_operators::source_in;
use row_values::Rows;
use span_token::{Document, OutOfMemory};
use std::alloc::Global;

/// Tokens of a document that stand in a row, by their numbers: from `first` to before `past`.
#[derive(Clone, Copy, Debug)]
pub(crate) struct Stretch {
    pub(crate) first: u64,
    pub(crate) past: u64,
}

/// Where runs of at most `reach` tokens begin that may join with some outer row, from the left.
///
/// Stretches of several rows are one where they share tokens, and where fewer tokens lie between than would be
/// looked at behind the first.
pub(crate) fn stretches_around<'d>(
    alloc: Global,
    doc: &Document<'d>,
    kind: JoinKind,
    outer: &Rows<'d>,
    lc: u32,
    reach: u64,
) -> Result<Vec<Stretch>, OutOfMemory>
    requires in_document { RowsLieIn doc.now outer.now.rows }
    requires few { reach < 2 ^ 32 }
    ensures around { IfOk result (λ all. All (AreAround doc.now kind lc reach all.items) outer.now.rows) }
    ensures rise { IfOk result (λ all. FirstsRise all.items) }
{
    let mut all = stretches_of_each(alloc, doc, kind, outer, lc, reach)?;
    all.sort_unstable_by_key(|stretch| stretch.first);
    let all = merged(alloc, all.as_slice(), 2 * reach)?;
    Ok(all)
}

/// A stretch for each outer row that has a span.
fn stretches_of_each<'d>(
    alloc: Global,
    doc: &Document<'d>,
    kind: JoinKind,
    outer: &Rows<'d>,
    lc: u32,
    reach: u64,
) -> Result<Vec<Stretch>, OutOfMemory>
    requires in_document { RowsLieIn doc.now outer.now.rows }
    ensures { IfOk result (λ all. All (AreAround doc.now kind lc reach all.items) outer.now.rows) }
{
    let mut all = Vec::new(alloc);
    for row in outer.as_slice() {
        match source_in(doc, row, lc) {
            Some(span) => all.push(begins_of(where_near(doc, kind, span), reach))?,
            None => (),
        }
    }
    Ok(all)
}

/// Where runs of at most `reach` tokens begin that are near.
fn begins_of(near: Near, reach: u64) -> Stretch
    ensures { (first past : ℕ) → IsNearRun near first past → past ≤ first + reach → IsIn result.first result.past first }
{
    Stretch {
        first: near.past.saturating_sub(reach),
        past: near.before,
    }
}

/// The same tokens and those of short gaps, of fewer than `gap` tokens, in stretches that stand apart.
fn merged(alloc: Global, stretches: &[Stretch], gap: u64) -> Result<Vec<Stretch>, OutOfMemory>
    requires rise { FirstsRise stretches.now }
    ensures same { IfOk result (λ all. (i : ℕ) → IsInSome stretches.now i → IsInSome all.items i) }
    ensures rise { IfOk result (λ all. FirstsRise all.items) }
{
    let mut all = Vec::new(alloc);
    let mut last = Stretch { first: 0, past: 0 };
    for stretch in stretches {
        if stretch.first <= last.past.saturating_add(gap) {
            last.past = last.past.max(stretch.past);
        } else {
            all.push(last)?;
            last = *stretch;
        }
    }
    all.push(last)?;
    Ok(all)
}
