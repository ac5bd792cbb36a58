ghost use Rattle.std.specs.Prelude.{ℕ, ◌≡◌, ◌+◌, ◌-◌, ◌++◌, ◌<◌, ◌≤◌, [], true, false, Some, IfOk, OnOk, length, All};
ghost use Rattle.span_token.specs.Extents.{Extent};
ghost use Rattle.aql_base.specs.Bags.{SameBag};
ghost use Rattle.span_joins.specs.Joins.{rank};
ghost use Rattle.span_joins.specs.Answers.{number_of, other_order_of};
ghost use Rattle.span_joins.specs.declared.rule.By.TheVariants.{Begin};
ghost use Rattle.span_joins.specs.declared.rule.Answer.TheVariants.{Before};
ghost use Rattle.span_joins.specs.declared.meet.Turn.TheVariants.{Left, LeftAlone, Right};
ghost use Rattle.span_joins.specs.declared.rule.Rule.TheVariants.{OverlapsFromLeft, OverlapsFromRight};
ghost use Rattle.span_joins.specs.Sweeps.{AreBefore, AreInOrder, answer_at, HaveWidth, IsRankBefore, IsProper, IsWithinAny, all_pairs, entries_of, entry_at, pairs_from};

use crate::rule::{Answer, By, Rule, test_at};
use crate::side::Side;
use crate::sweep::push_pairs;
use aql_base::Steps;
use row_values::Rows;
use span_token::OutOfMemory;
use std::alloc::Global;
use std::sync::ledger::Ledger;

/// Puts the overlapping pairs of two sides after the rows of `out`: both are gone through at once by the
/// begins of their spans, and each row meets those rows of the other side that begin within its span.
///
/// Both sides have to be in the order of their begins. That is looked at in passing: where one isn't, the
/// result is false, and the rows that were put may be any.
#[inline(always)]
pub(crate) fn meet<'d, L: Ledger>(
    alloc: Global,
    lefts: Side<'_, 'd>,
    rights: Side<'_, 'd>,
    out: &mut Rows<'d>,
    steps: &mut Steps<L>,
) -> Result<bool, OutOfMemory>
    requires widths { All (λ left. HaveWidth out.old.width left.values (entries_of rights)) (entries_of lefts) }

    ensures pairs { AreInOrder Begin (entries_of lefts.entry) → AreInOrder Begin (entries_of rights.entry)
        → OnOk result (SameBag out.new.rows (out.old.rows ++ (all_pairs OverlapsFromLeft (entries_of lefts.entry) (entries_of rights.entry) ++ all_pairs OverlapsFromRight (entries_of rights.entry) (entries_of lefts.entry)))) }
    ensures in_order { AreInOrder Begin (entries_of lefts.entry) → AreInOrder Begin (entries_of rights.entry) → IfOk result (λ seen. seen ≡ true) }
    ensures lefts_seen { IfOk result (λ seen. seen ≡ true → AreInOrder Begin (entries_of lefts.entry)) }
    ensures rights_seen { IfOk result (λ seen. seen ≡ true → AreInOrder Begin (entries_of rights.entry)) }
    ensures proper { IfOk result (λ seen. seen ≡ true → All (λ right. IsProper right.span) (entries_of rights.entry)) }

    ensures width { out.new.width ≡ out.old.width }
    ensures counted { steps.old + length out.new.rows ≤ steps.new + length out.old.rows }
    ensures grows { steps.old ≤ steps.new }
{
    let (past_lefts, past_rights) = (lefts.len(), rights.len());
    let (mut i, mut j) = (0, 0);
    let (mut last_left, mut last_right) = (0, 0);
    while i < past_lefts || j < past_rights {
        match next_turn(lefts, i, rights, j, steps) {
            Turn::Left => {
                let rule = Rule::OverlapsFromLeft;
                if !push_next(alloc, rule, lefts, i, &mut last_left, rights, j, out, steps)? {
                    return Ok(false);
                }
                i += 1;
            }
            Turn::LeftAlone => {
                if !lefts.rises_at(By::Begin, i, &mut last_left) {
                    return Ok(false);
                }
                i += 1;
            }
            Turn::Right => {
                let rule = Rule::OverlapsFromRight;
                if !push_next(
                    alloc,
                    rule,
                    rights,
                    j,
                    &mut last_right,
                    lefts,
                    i,
                    out,
                    steps,
                )? {
                    return Ok(false);
                }
                j += 1;
            }
        }
    }
    Ok(true)
}

/// Which of the next rows of two sides is taken first.
#[derive(Clone, Copy)]
enum Turn {
    /// The left one, which doesn't begin after the right one.
    Left,
    /// The left one, which ends before the right one begins.
    LeftAlone,
    /// The right one, which begins before the left one.
    Right,
}

/// Which of row `i` of the left side and row `j` of the right side is taken first. Where a side has no
/// row left it is the other's.
#[inline(always)]
fn next_turn<L: Ledger>(
    lefts: Side<'_, '_>,
    i: usize,
    rights: Side<'_, '_>,
    j: usize,
    steps: &mut Steps<L>,
) -> Turn
    requires left_in_list { i ≤ length (entries_of lefts) }
    requires right_in_list { j ≤ length (entries_of rights) }
    requires some { i + j < length (entries_of lefts) + length (entries_of rights) }
    ensures left { result ≡ Left → i < length (entries_of lefts.entry) }
    ensures left_no_later { result ≡ Left → j < length (entries_of rights.entry) → rank (number_of Begin) (entry_at lefts.entry i).span ≤ rank (number_of Begin) (entry_at rights.entry j).span }
    ensures alone { result ≡ LeftAlone → i < length (entries_of lefts.entry) }
    ensures alone_no_later { result ≡ LeftAlone → j < length (entries_of rights.entry) → rank (number_of Begin) (entry_at lefts.entry i).span ≤ rank (number_of Begin) (entry_at rights.entry j).span }
    ensures alone_pairs { result ≡ LeftAlone → AreInOrder Begin (entries_of rights.entry) → ((a : Extent) → (entry_at lefts.entry i).span ≡ Some a → AreBefore OverlapsFromLeft a (entries_of rights.entry) j)
        → pairs_from OverlapsFromLeft (entry_at lefts.entry i).span (entry_at lefts.entry i).values (entries_of rights.entry) ≡ [] }
    ensures right { result ≡ Right → j < length (entries_of rights.entry) }
    ensures right_later { result ≡ Right → i < length (entries_of lefts.entry) → rank (number_of Begin) (entry_at rights.entry j).span < rank (number_of Begin) (entry_at lefts.entry i).span }
    ensures grows { steps.old ≤ steps.new }
{
    if j == rights.len() {
        return Turn::Left;
    }
    if i == lefts.len() {
        return Turn::Right;
    }
    let Some(left) = lefts.span(i) else {
        return Turn::Left;
    };
    match test_at(Rule::OverlapsFromLeft, left, rights.span(j), steps) {
        Answer::Before => Turn::Right,
        Answer::Beyond => Turn::LeftAlone,
        Answer::Pair | Answer::Neither => Turn::Left,
    }
}

/// Puts the pairs of row `i` of a side with the others from `j` on after the rows of `out`. The result is
/// false where the row begins before the one in front of it, whose rank is `last`, or where another begins
/// too early to stand where it does: were it passed over, each later row would come upon it again.
#[inline(always)]
fn push_next<'d, L: Ledger>(
    alloc: Global,
    rule: Rule<'_, '_>,
    firsts: Side<'_, 'd>,
    i: usize,
    last: &mut u64,
    others: Side<'_, 'd>,
    j: usize,
    out: &mut Rows<'d>,
    steps: &mut Steps<L>,
) -> Result<bool, OutOfMemory>
    requires in_range { i < length (entries_of firsts) }
    requires in_list { j ≤ length (entries_of others) }
    requires last { IsRankBefore Begin (entries_of firsts) i last.old }
    requires widths { All (λ first. HaveWidth out.old.width first.values (entries_of others)) (entries_of firsts) }
    requires first_within { IsWithinAny rule (entry_at firsts i).span }
    requires others_within { All (λ other. IsWithinAny rule other.span) (entries_of others) }

    ensures pairs { AreInOrder (other_order_of rule.entry) (entries_of others.entry) → ((a : Extent) → (entry_at firsts.entry i).span ≡ Some a → AreBefore rule.entry a (entries_of others.entry) j)
        → IfOk result (λ rises. rises ≡ true → out.new.rows ≡ out.old.rows ++ pairs_from rule.entry (entry_at firsts.entry i).span (entry_at firsts.entry i).values (entries_of others.entry)) }
    ensures yes { IfOk result (λ rises. rises ≡ true → 0 < i → rank (number_of Begin) (entry_at firsts.entry (i - 1)).span ≤ rank (number_of Begin) (entry_at firsts.entry i).span) }
    ensures proper { IfOk result (λ rises. rises ≡ true → IsProper (entry_at firsts.entry i).span) }
    ensures always { AreInOrder Begin (entries_of firsts.entry) → ((a : Extent) (k : ℕ) → (entry_at firsts.entry i).span ≡ Some a → j ≤ k → k < length (entries_of others.entry) → answer_at rule.entry a (entry_at others.entry k).span ≡ Before → ⊥)
        → IfOk result (λ rises. rises ≡ true) }

    ensures last { IsRankBefore Begin (entries_of firsts.entry) (i + 1) last.new }
    ensures width { out.new.width ≡ out.old.width }
    ensures counted { steps.old + length out.new.rows ≤ steps.new + length out.old.rows }
    ensures grows { steps.old ≤ steps.new }
{
    if !firsts.rises_at(By::Begin, i, last) {
        return Ok(false);
    }
    if let Some(first) = firsts.span(i) {
        let row = firsts.row(i);
        return Ok(push_pairs(alloc, rule, first, row, others, j, out, steps)? == j);
    }
    Ok(true)
}
