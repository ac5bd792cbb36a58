ghost use Rattle.std.specs.Prelude.{ℕ, ◌≡◌, ◌+◌, ◌++◌, ◌<◌, ◌≤◌, ◌∷◌, [], true, false, IfOk, OnOk, OnErr, IsTrue, length, take, All};
ghost use Rattle.std.specs.Option.{option_map};
ghost use Rattle.span_token.specs.Extents.{extent_of};
ghost use Rattle.span_joins.specs.Answers.{IsWithin, is_exact, order_of, other_order_of};
ghost use Rattle.span_joins.specs.declared.rule.Answer.TheVariants.{Before};
ghost use Rattle.span_joins.specs.Sweeps.{AreBefore, AreInOrder, HaveWidth, IsRankBefore, IsProper, IsWithinAny, all_pairs, answer_at, entries_of, entry_at, pairs_with, row_of};

use crate::rule::{Answer, By, Front, Rule, test_at};
use crate::side::Side;
use aql_base::Steps;
use row_values::{Row, Rows};
use span_token::{OutOfMemory, Span};
use std::alloc::Global;
use std::sync::ledger::Ledger;

/// Puts the pairs of all first rows with the others after the rows of `out`.
///
/// The first rows and the others have to be in the two orders of the rule. That is
/// looked at in passing: where they aren't, the result is false, and the rows that were put may be any.
#[inline(always)]
pub(crate) fn sweep<'d, L: Ledger>(
    alloc: Global,
    rule: Rule<'_, '_>,
    firsts: Side<'_, 'd>,
    others: Side<'_, 'd>,
    out: &mut Rows<'d>,
    steps: &mut Steps<L>,
) -> Result<bool, OutOfMemory>
    requires widths { All (λ first. HaveWidth out.old.width first.values (entries_of others)) (entries_of firsts) }
    requires firsts_within { All (λ first. IsWithinAny rule first.span) (entries_of firsts) }
    requires others_within { All (λ other. IsWithinAny rule other.span) (entries_of others) }

    ensures pairs { AreInOrder (order_of rule.entry) (entries_of firsts.entry) → AreInOrder (other_order_of rule.entry) (entries_of others.entry)
        → OnOk result (out.new.rows ≡ out.old.rows ++ all_pairs rule.entry (entries_of firsts.entry) (entries_of others.entry)) }
    ensures in_order { AreInOrder (order_of rule.entry) (entries_of firsts.entry) → AreInOrder (other_order_of rule.entry) (entries_of others.entry) → IfOk result (λ seen. seen ≡ true) }
    ensures firsts_seen { IfOk result (λ seen. seen ≡ true → AreInOrder (order_of rule.entry) (entries_of firsts.entry)) }
    ensures others_seen { IfOk result (λ seen. seen ≡ true → AreInOrder (other_order_of rule.entry) (entries_of others.entry)) }
    ensures proper { IfOk result (λ seen. seen ≡ true → All (λ other. IsProper other.span) (entries_of others.entry)) }

    ensures width { out.new.width ≡ out.old.width }
    ensures bound { IsTrue (is_exact rule.entry) → steps.new ≤ steps.old + (length (entries_of firsts.entry) + length (entries_of others.entry) + length (all_pairs rule.entry (entries_of firsts.entry) (entries_of others.entry))) }
    ensures counted { steps.old + length out.new.rows ≤ steps.new + length out.old.rows }
    ensures grows { steps.old ≤ steps.new }
{
    let mut from = 0;
    let (mut last_first, mut last_other) = (0, 0);
    for i in 0..firsts.len() {
        let rises = firsts.rises_at(rule.order(), i, &mut last_first);
        if !others.rises_at(rule.other_order(), i, &mut last_other) || !rises {
            return Ok(false);
        }
        if let Some(first) = firsts.span(i) {
            let row = firsts.row(i);
            from = push_pairs(alloc, rule, first, row, others, from, out, steps)?;
        }
    }
    Ok(rises_from(others, rule.other_order(), firsts.len(), last_other))
}

/// Whether the rows from number `from` on go on in an order; `last` is the rank of the
/// row in front of them.
fn rises_from(side: Side<'_, '_>, by: By, from: usize, mut last: u64) -> bool
    requires last { IsRankBefore by (entries_of side) from last }
    requires rises { AreInOrder by (take from (entries_of side)) }
    requires proper { All (λ entry. IsProper entry.span) (take from (entries_of side)) }
    ensures yes { result ≡ true → AreInOrder by (entries_of side.entry) }
    ensures proper { result ≡ true → All (λ entry. IsProper entry.span) (entries_of side.entry) }
    ensures always { AreInOrder by (entries_of side.entry) → result ≡ true }
{
    for i in from..side.len() {
        if !side.rises_at(by, i, &mut last) {
            return false;
        }
    }
    true
}

/// Puts the pairs of one row and its span with the others after the rows of `out`. The others below
/// `from` are known to be too near; the result is a greater such number.
#[inline(always)]
pub(crate) fn push_pairs<'d, L: Ledger>(
    alloc: Global,
    rule: Rule<'_, '_>,
    first: Span,
    row: &Row<'d>,
    others: Side<'_, 'd>,
    from: usize,
    out: &mut Rows<'d>,
    steps: &mut Steps<L>,
) -> Result<usize, OutOfMemory>
    requires in_list { from ≤ length (entries_of others) }
    requires widths { HaveWidth out.old.width row.now (entries_of others) }
    requires first_within { IsWithin rule (extent_of first) }
    requires others_within { All (λ other. IsWithinAny rule other.span) (entries_of others) }

    ensures pairs { AreInOrder (other_order_of rule.entry) (entries_of others.entry) → AreBefore rule.entry (extent_of first) (entries_of others.entry) from
        → OnOk result (out.new.rows ≡ out.old.rows ++ pairs_with rule.entry (extent_of first) row.now (entries_of others.entry)) }
    ensures before { AreInOrder (other_order_of rule.entry) (entries_of others.entry) → AreBefore rule.entry (extent_of first) (entries_of others.entry) from
        → IfOk result (AreBefore rule.entry (extent_of first) (entries_of others.entry)) }

    ensures still { ((k : ℕ) → from ≤ k → k < length (entries_of others.entry) → answer_at rule.entry (extent_of first) (entry_at others.entry k).span ≡ Before → ⊥) → IfOk result (λ next. next ≡ from) }

    ensures width { out.new.width ≡ out.old.width }
    ensures in_list { IfOk result (λ next. next ≤ length (entries_of others.entry)) }
    ensures spent { IfOk result (λ next. IsTrue (is_exact rule.entry) → steps.new + from ≤ steps.old + (next + length (pairs_with rule.entry (extent_of first) row.now (entries_of others.entry)) + 1)) }
    ensures bound { IsTrue (is_exact rule.entry) → steps.new + from ≤ steps.old + (length (entries_of others.entry) + length (pairs_with rule.entry (extent_of first) row.now (entries_of others.entry)) + 1) }
    ensures counted { steps.old + length out.new.rows ≤ steps.new + length out.old.rows }
    ensures grows { steps.old ≤ steps.new }
{
    let mut next = from;
    for j in from..others.len() {
        match test_at(rule, first, others.span(j), steps) {
            Answer::Before => next = j + 1,
            Answer::Pair => push_pair(alloc, rule, row, others.row(j), out)?,
            Answer::Neither => {}
            Answer::Beyond => return Ok(next),
        }
    }
    Ok(next)
}

/// Puts the pair of two rows after the rows of `out`.
#[inline(always)]
fn push_pair<'d>(
    alloc: Global,
    rule: Rule<'_, '_>,
    first: &Row<'d>,
    other: &Row<'d>,
    out: &mut Rows<'d>,
) -> Result<(), OutOfMemory>
    requires width { length first.now + length other.now ≡ out.old.width }
    ensures ok { OnOk result (out.new ≡ record { width = out.old.width; rows = out.old.rows ++ row_of rule.entry first.now other.now ∷ [] }) }
    ensures err { OnErr result (out.new ≡ out.old) }
{
    let (front, back) = match rule.front() {
        Front::First => (first, other),
        Front::Other => (other, first),
    };
    out.push_joined(alloc, front, back)
}
