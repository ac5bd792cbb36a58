ghost use Rattle.std.specs.Prelude.{◌≡◌, ◌+◌, ◌*◌, ◌++◌, ◌≤◌, [], true, IfOk, OnOk, IsTrue, length, All};
ghost use Rattle.aql_base.specs.Bags.{SameBag};
ghost use Rattle.span_joins.specs.Answers.{is_back, is_bounded, order_by, other_order_by, test_by};
ghost use Rattle.span_joins.specs.Sweeps.{AreInOrder, HaveWidth, IsProper, MayMeetAny, entries_of, pairs_of};

use crate::meet::meet;
use crate::rule::{By, Rule};
use crate::side::Side;
use crate::sweep::sweep;
use aql_base::Steps;
use row_values::Rows;
use span_token::OutOfMemory;
use std::alloc::Global;
use std::sync::ledger::Ledger;

/// How two sides are joined.
#[derive(Clone, Copy)]
pub(crate) enum Way<'a, 'b> {
    /// For each row of the first side those of the other are swept by a rule.
    Swept(Rule<'a, 'b>),
    /// Both sides at once, for spans that overlap.
    Met,
}

impl Way<'_, '_> {
    /// The order that the rows of the first side have to be in.
    fn order(self) -> By
        ensures { result ≡ order_by self.entry }
    {
        match self {
            Way::Swept(rule) => rule.order(),
            Way::Met => By::Begin,
        }
    }

    /// The order that those of the other have to be in.
    fn other_order(self) -> By
        ensures { result ≡ other_order_by self.entry }
    {
        match self {
            Way::Swept(rule) => rule.other_order(),
            Way::Met => By::Begin,
        }
    }
}

/// Fills `out`, which has no row, with the pairs of two sides in any order.
pub(crate) fn put<'d, L: Ledger>(
    alloc: Global,
    way: Way<'_, '_>,
    firsts: Side<'_, 'd>,
    others: Side<'_, 'd>,
    out: &mut Rows<'d>,
    steps: &mut Steps<L>,
) -> Result<(), OutOfMemory>
    requires none { out.old.rows ≡ [] }
    requires widths { All (λ first. HaveWidth out.old.width first.values (entries_of others)) (entries_of firsts) }
    requires firsts_within { All (λ first. MayMeetAny way first.span) (entries_of firsts) }
    requires others_within { All (λ other. MayMeetAny way other.span) (entries_of others) }
    ensures pairs { OnOk result (SameBag out.new.rows (pairs_of (test_by way.entry) (is_back way.entry) (entries_of firsts.entry) (entries_of others.entry))) }
    ensures width { out.new.width ≡ out.old.width }
    ensures bound { IsTrue (is_bounded way.entry) → AreInOrder (order_by way.entry) (entries_of firsts.entry) → AreInOrder (other_order_by way.entry) (entries_of others.entry)
        → steps.new ≤ steps.old + (length (entries_of firsts.entry) + length (entries_of others.entry) + length (pairs_of (test_by way.entry) (is_back way.entry) (entries_of firsts.entry) (entries_of others.entry))) }
    ensures bound_in_any_order { IsTrue (is_bounded way.entry) → steps.new ≤ steps.old + 2 * (length (entries_of firsts.entry) + length (entries_of others.entry) + length (pairs_of (test_by way.entry) (is_back way.entry) (entries_of firsts.entry) (entries_of others.entry))) }
    ensures counted { OnOk result (steps.old + length out.new.rows ≤ steps.new) }
    ensures grows { steps.old ≤ steps.new }
{
    if !put_in_order(alloc, way, firsts, others, out, steps)? {
        out.clear();
        put_sorted(alloc, way, firsts, others, out, steps)?;
    }
    Ok(())
}

/// Puts the pairs of two sides, which are sorted, after the rows of `out`.
fn put_sorted<'d, L: Ledger>(
    alloc: Global,
    way: Way<'_, '_>,
    firsts: Side<'_, 'd>,
    others: Side<'_, 'd>,
    out: &mut Rows<'d>,
    steps: &mut Steps<L>,
) -> Result<(), OutOfMemory>
    requires widths { All (λ first. HaveWidth out.old.width first.values (entries_of others)) (entries_of firsts) }
    requires firsts_within { All (λ first. MayMeetAny way first.span) (entries_of firsts) }
    requires others_within { All (λ other. MayMeetAny way other.span) (entries_of others) }
    ensures pairs { OnOk result (SameBag out.new.rows (out.old.rows ++ pairs_of (test_by way.entry) (is_back way.entry) (entries_of firsts.entry) (entries_of others.entry))) }
    ensures width { out.new.width ≡ out.old.width }
    ensures bound { IsTrue (is_bounded way.entry) → steps.new ≤ steps.old + (length (entries_of firsts.entry) + length (entries_of others.entry) + length (pairs_of (test_by way.entry) (is_back way.entry) (entries_of firsts.entry) (entries_of others.entry))) }
    ensures counted { steps.old + length out.new.rows ≤ steps.new + length out.old.rows }
    ensures grows { steps.old ≤ steps.new }
{
    let first_keys = firsts.sorted(alloc, way.order())?;
    let other_keys = others.sorted(alloc, way.other_order())?;
    let firsts = Side::Sorted(first_keys.as_slice());
    let others = Side::Sorted(other_keys.as_slice());
    put_in_order(alloc, way, firsts, others, out, steps)?;
    Ok(())
}

/// Puts the pairs of two sides after the rows of `out`.
///
/// The rows of the two sides have to be in the two orders of the way. That is looked at in passing: where
/// they aren't, the result is false, and the rows that were put may be any.
fn put_in_order<'d, L: Ledger>(
    alloc: Global,
    way: Way<'_, '_>,
    firsts: Side<'_, 'd>,
    others: Side<'_, 'd>,
    out: &mut Rows<'d>,
    steps: &mut Steps<L>,
) -> Result<bool, OutOfMemory>
    requires widths { All (λ first. HaveWidth out.old.width first.values (entries_of others)) (entries_of firsts) }
    requires firsts_within { All (λ first. MayMeetAny way first.span) (entries_of firsts) }
    requires others_within { All (λ other. MayMeetAny way other.span) (entries_of others) }

    ensures pairs { AreInOrder (order_by way.entry) (entries_of firsts.entry) → AreInOrder (other_order_by way.entry) (entries_of others.entry) → All (λ other. IsProper other.span) (entries_of others.entry)
        → OnOk result (SameBag out.new.rows (out.old.rows ++ pairs_of (test_by way.entry) (is_back way.entry) (entries_of firsts.entry) (entries_of others.entry))) }
    ensures in_order { AreInOrder (order_by way.entry) (entries_of firsts.entry) → AreInOrder (other_order_by way.entry) (entries_of others.entry) → IfOk result (λ seen. seen ≡ true) }
    ensures firsts_seen { IfOk result (λ seen. seen ≡ true → AreInOrder (order_by way.entry) (entries_of firsts.entry)) }
    ensures others_seen { IfOk result (λ seen. seen ≡ true → AreInOrder (other_order_by way.entry) (entries_of others.entry)) }
    ensures proper { IfOk result (λ seen. seen ≡ true → All (λ other. IsProper other.span) (entries_of others.entry)) }

    ensures width { out.new.width ≡ out.old.width }
    ensures bound { IsTrue (is_bounded way.entry) → steps.new ≤ steps.old + (length (entries_of firsts.entry) + length (entries_of others.entry) + length (pairs_of (test_by way.entry) (is_back way.entry) (entries_of firsts.entry) (entries_of others.entry))) }
    ensures counted { steps.old + length out.new.rows ≤ steps.new + length out.old.rows }
    ensures grows { steps.old ≤ steps.new }
{
    match way {
        // The same calls: each is compiled for one rule over rows where they stand.
        Way::Swept(rule) => match (rule, firsts, others) {
            (Rule::Gap(_, _, _), Side::InPlace(_, _), Side::InPlace(_, _)) => {
                sweep(alloc, rule, firsts, others, out, steps)
            }
            (Rule::Contains(_), Side::InPlace(_, _), Side::InPlace(_, _)) => {
                sweep(alloc, rule, firsts, others, out, steps)
            }
            _ => sweep(alloc, rule, firsts, others, out, steps),
        },
        Way::Met => match (firsts, others) {
            (Side::InPlace(_, _), Side::InPlace(_, _)) => meet(alloc, firsts, others, out, steps),
            _ => meet(alloc, firsts, others, out, steps),
        },
    }
}
