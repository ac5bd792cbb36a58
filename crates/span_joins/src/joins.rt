ghost use Rattle.std.specs.Prelude.{◌≡◌, ◌+◌, ◌*◌, ◌<◌, ◌≤◌, IfOk, IsTrue, length, All};
ghost use Rattle.aql_base.specs.Bags.{SameBag};
ghost use Rattle.span_token.specs.Documents.{characters};
ghost use Rattle.span_token.specs.Tokens.{tokens_of};
ghost use Rattle.span_token.specs.Relations.{Follows, FollowsTok, Overlaps, ContainsExtent, does_follow, does_follow_tok, do_overlap, does_contain};
ghost use Rattle.row_values.specs.Rows.{ColumnLiesIn, span_in};
ghost use Rattle.span_joins.specs.Joins.{DoRise, IsJoin, RiseTogether, joined_where, most_tests};
ghost use Rattle.span_joins.specs.Answers.{is_bounded, number_of, order_by};
ghost use Rattle.span_joins.specs.Sweeps.{MayMeetAny, joined_by};

use crate::rule::{Front, Rule};
use crate::side::Side;
use crate::way::{Way, put};
use aql_base::Steps;
use row_values::Rows;
use span_token::{Document, OutOfMemory};
use std::alloc::Global;
use std::sync::ledger::Ledger;

/// The pairs of rows whose spans follow each other, with `min` to `max` characters between.
///
/// Each result row is a left row followed by a right row, such that the span in column `rc` of the right
/// row begins at or after the end of the span in column `lc` of the left row, with a gap within the
/// bounds. Spans that touch have no character between; nothing follows where `max` is below `min` or
/// below 0. Columns are counted from 0, and a row without a span in its column joins with nothing. Each
/// of equal rows makes pairs of its own. The result is a bag: its order isn't promised.
///
/// `steps` counts the tests of one row against another, one or more for each result row, and those that
/// were made before a want of memory too. Rows that are in order, the left ones by the ends and the right
/// ones by the begins of their spans, with those without a span first, are gone through where they stand,
/// by no more tests than there are rows on both sides and in the result together. Where rows turn out to
/// stand in another order, both sides are sorted and gone through once more, which takes twice as many at
/// most. Comparisons of rows of one side aren't counted. 2^32 result rows or more, or as many columns, are
/// a want of memory.
///
/// `joined` tells the meaning by the predicate; `rows` says the same by its test, as one bag.
///
/// Meaning: `IsJoin` and `joined_where`, `specs/Joins.antt`; docs/LANGUAGE.md, "Joins".
pub fn join_follows<'d, L: Ledger>(
    alloc: Global,
    left: &Rows<'d>,
    lc: u32,
    right: &Rows<'d>,
    rc: u32,
    min: i64,
    max: i64,
    steps: &mut Steps<L>,
) -> Result<Rows<'d>, OutOfMemory>
    requires left_column { lc < left.now.width }
    requires right_column { rc < right.now.width }

    ensures joined { IfOk result (IsJoin (λ a b. Follows a b min max) left.now lc right.now rc) }
    ensures rows { IfOk result (λ out. SameBag out.rows (joined_where (λ a b. does_follow a b min max) left.now.rows lc right.now.rows rc)) }

    ensures bound { RiseTogether left.now.rows lc right.now.rows rc → steps.new ≤ steps.old + most_tests (λ a b. does_follow a b min max) left.now.rows lc right.now.rows rc }
    ensures bound_in_any_order { steps.new ≤ steps.old + 2 * most_tests (λ a b. does_follow a b min max) left.now.rows lc right.now.rows rc }
    ensures counted { IfOk result (λ out. steps.old + length out.rows ≤ steps.new) }
    ensures grows { steps.old ≤ steps.new }
{
    let way = Way::Swept(Rule::Gap(min, max, Front::First));
    join_by(alloc, way, left, lc, right, rc, steps)
}

/// The pairs of a left and a right row of which the left one follows, with `min` to `max` characters
/// between.
///
/// As `join_follows` of the right and the left rows, but the left row stands in front in each result row.
///
/// Meaning: `IsJoin` and `joined_where`, `specs/Joins.antt`; docs/LANGUAGE.md, "Joins".
pub fn join_follows_back<'d, L: Ledger>(
    alloc: Global,
    left: &Rows<'d>,
    lc: u32,
    right: &Rows<'d>,
    rc: u32,
    min: i64,
    max: i64,
    steps: &mut Steps<L>,
) -> Result<Rows<'d>, OutOfMemory>
    requires left_column { lc < left.now.width }
    requires right_column { rc < right.now.width }

    ensures joined { IfOk result (IsJoin (λ a b. Follows b a min max) left.now lc right.now rc) }
    ensures rows { IfOk result (λ out. SameBag out.rows (joined_where (λ a b. does_follow b a min max) left.now.rows lc right.now.rows rc)) }

    ensures bound { RiseTogether right.now.rows rc left.now.rows lc → steps.new ≤ steps.old + most_tests (λ a b. does_follow b a min max) left.now.rows lc right.now.rows rc }
    ensures bound_in_any_order { steps.new ≤ steps.old + 2 * most_tests (λ a b. does_follow b a min max) left.now.rows lc right.now.rows rc }
    ensures counted { IfOk result (λ out. steps.old + length out.rows ≤ steps.new) }
    ensures grows { steps.old ≤ steps.new }
{
    let way = Way::Swept(Rule::Gap(min, max, Front::Other));
    join_by(alloc, way, right, rc, left, lc, steps)
}

/// The pairs of rows whose spans follow each other, with `min` to `max` tokens of `doc` wholly between.
///
/// As `join_follows`, but a gap is counted in the tokens that lie wholly in it. The spans lie in `doc`.
///
/// Meaning: `IsJoin` and `joined_where`, `specs/Joins.antt`; docs/LANGUAGE.md, "Joins".
pub fn join_follows_tok<'d, L: Ledger>(
    alloc: Global,
    doc: &Document<'_>,
    left: &Rows<'d>,
    lc: u32,
    right: &Rows<'d>,
    rc: u32,
    min: i64,
    max: i64,
    steps: &mut Steps<L>,
) -> Result<Rows<'d>, OutOfMemory>
    requires left_column { lc < left.now.width }
    requires right_column { rc < right.now.width }
    requires left_in_document { ColumnLiesIn doc.now lc left.now.rows }
    requires right_in_document { ColumnLiesIn doc.now rc right.now.rows }

    ensures joined { IfOk result (IsJoin (λ a b. FollowsTok (tokens_of (characters doc.now)) a b min max) left.now lc right.now rc) }
    ensures rows { IfOk result (λ out. SameBag out.rows (joined_where (λ a b. does_follow_tok (tokens_of (characters doc.now)) a b min max) left.now.rows lc right.now.rows rc)) }

    ensures bound { RiseTogether left.now.rows lc right.now.rows rc → steps.new ≤ steps.old + most_tests (λ a b. does_follow_tok (tokens_of (characters doc.now)) a b min max) left.now.rows lc right.now.rows rc }
    ensures bound_in_any_order { steps.new ≤ steps.old + 2 * most_tests (λ a b. does_follow_tok (tokens_of (characters doc.now)) a b min max) left.now.rows lc right.now.rows rc }
    ensures counted { IfOk result (λ out. steps.old + length out.rows ≤ steps.new) }
    ensures grows { steps.old ≤ steps.new }
{
    let way = Way::Swept(Rule::Tokens(doc, min, max, Front::First));
    join_by(alloc, way, left, lc, right, rc, steps)
}

/// The pairs of a left and a right row of which the left one follows, with `min` to `max` tokens of `doc`
/// wholly between.
///
/// As `join_follows_tok` of the right and the left rows, but the left row stands in front in each result
/// row.
///
/// Meaning: `IsJoin` and `joined_where`, `specs/Joins.antt`; docs/LANGUAGE.md, "Joins".
pub fn join_follows_tok_back<'d, L: Ledger>(
    alloc: Global,
    doc: &Document<'_>,
    left: &Rows<'d>,
    lc: u32,
    right: &Rows<'d>,
    rc: u32,
    min: i64,
    max: i64,
    steps: &mut Steps<L>,
) -> Result<Rows<'d>, OutOfMemory>
    requires left_column { lc < left.now.width }
    requires right_column { rc < right.now.width }
    requires left_in_document { ColumnLiesIn doc.now lc left.now.rows }
    requires right_in_document { ColumnLiesIn doc.now rc right.now.rows }

    ensures joined { IfOk result (IsJoin (λ a b. FollowsTok (tokens_of (characters doc.now)) b a min max) left.now lc right.now rc) }
    ensures rows { IfOk result (λ out. SameBag out.rows (joined_where (λ a b. does_follow_tok (tokens_of (characters doc.now)) b a min max) left.now.rows lc right.now.rows rc)) }

    ensures bound { RiseTogether right.now.rows rc left.now.rows lc → steps.new ≤ steps.old + most_tests (λ a b. does_follow_tok (tokens_of (characters doc.now)) b a min max) left.now.rows lc right.now.rows rc }
    ensures bound_in_any_order { steps.new ≤ steps.old + 2 * most_tests (λ a b. does_follow_tok (tokens_of (characters doc.now)) b a min max) left.now.rows lc right.now.rows rc }
    ensures counted { IfOk result (λ out. steps.old + length out.rows ≤ steps.new) }
    ensures grows { steps.old ≤ steps.new }
{
    let way = Way::Swept(Rule::Tokens(doc, min, max, Front::Other));
    join_by(alloc, way, right, rc, left, lc, steps)
}

/// The pairs of rows whose spans overlap: they share a character, or are equal.
///
/// Spans that touch don't overlap; an empty span overlaps itself, and a span around its place. As
/// `join_follows`, but no clause bounds the tests. Both sides are gone through at once by the begins of
/// the spans: rows in order take two tests for each row, and one for each two rows of which one begins
/// within the other or, where it is empty, with it.
///
/// Meaning: `IsJoin` and `joined_where`, `specs/Joins.antt`; docs/LANGUAGE.md, "Joins".
pub fn join_overlaps<'d, L: Ledger>(
    alloc: Global,
    left: &Rows<'d>,
    lc: u32,
    right: &Rows<'d>,
    rc: u32,
    steps: &mut Steps<L>,
) -> Result<Rows<'d>, OutOfMemory>
    requires left_column { lc < left.now.width }
    requires right_column { rc < right.now.width }

    ensures joined { IfOk result (IsJoin Overlaps left.now lc right.now rc) }
    ensures rows { IfOk result (λ out. SameBag out.rows (joined_where do_overlap left.now.rows lc right.now.rows rc)) }

    ensures counted { IfOk result (λ out. steps.old + length out.rows ≤ steps.new) }
    ensures grows { steps.old ≤ steps.new }
{
    join_by(alloc, Way::Met, left, lc, right, rc, steps)
}

/// The pairs of rows such that the span of the left row contains that of the right row.
///
/// Each span contains itself. As `join_follows`, but both sides are taken by the begins of their spans, the
/// right rows of one begin with an empty span first, and no clause bounds the tests: rows in order take one
/// for each row, and one for each left row and right row that begins within it.
///
/// Meaning: `IsJoin` and `joined_where`, `specs/Joins.antt`; docs/LANGUAGE.md, "Joins".
pub fn join_contains<'d, L: Ledger>(
    alloc: Global,
    left: &Rows<'d>,
    lc: u32,
    right: &Rows<'d>,
    rc: u32,
    steps: &mut Steps<L>,
) -> Result<Rows<'d>, OutOfMemory>
    requires left_column { lc < left.now.width }
    requires right_column { rc < right.now.width }

    ensures joined { IfOk result (IsJoin ContainsExtent left.now lc right.now rc) }
    ensures rows { IfOk result (λ out. SameBag out.rows (joined_where does_contain left.now.rows lc right.now.rows rc)) }

    ensures counted { IfOk result (λ out. steps.old + length out.rows ≤ steps.new) }
    ensures grows { steps.old ≤ steps.new }
{
    let way = Way::Swept(Rule::Contains(Front::First));
    join_by(alloc, way, left, lc, right, rc, steps)
}

/// The pairs of rows such that the span of the right row contains that of the left row.
///
/// As `join_contains` of the right and the left rows, but the left row stands in front in each result row.
///
/// Meaning: `IsJoin` and `joined_where`, `specs/Joins.antt`; docs/LANGUAGE.md, "Joins".
pub fn join_contains_back<'d, L: Ledger>(
    alloc: Global,
    left: &Rows<'d>,
    lc: u32,
    right: &Rows<'d>,
    rc: u32,
    steps: &mut Steps<L>,
) -> Result<Rows<'d>, OutOfMemory>
    requires left_column { lc < left.now.width }
    requires right_column { rc < right.now.width }

    ensures joined { IfOk result (IsJoin (λ a b. ContainsExtent b a) left.now lc right.now rc) }
    ensures rows { IfOk result (λ out. SameBag out.rows (joined_where (λ a b. does_contain b a) left.now.rows lc right.now.rows rc)) }

    ensures counted { IfOk result (λ out. steps.old + length out.rows ≤ steps.new) }
    ensures grows { steps.old ≤ steps.new }
{
    let way = Way::Swept(Rule::Contains(Front::Other));
    join_by(alloc, way, right, rc, left, lc, steps)
}

/// The join of first rows and others by the test of a way.
fn join_by<'d, L: Ledger>(
    alloc: Global,
    way: Way<'_, '_>,
    firsts: &Rows<'d>,
    fc: u32,
    others: &Rows<'d>,
    oc: u32,
    steps: &mut Steps<L>,
) -> Result<Rows<'d>, OutOfMemory>
    requires firsts_within { All (λ row. MayMeetAny way (span_in fc row)) firsts.now.rows }
    requires others_within { All (λ row. MayMeetAny way (span_in oc row)) others.now.rows }
    ensures rows { IfOk result (λ out. SameBag out.rows (joined_by way.entry firsts.now.rows fc others.now.rows oc)) }
    ensures width { IfOk result (λ out. out.width ≡ firsts.now.width + others.now.width) }
    ensures bound { IsTrue (is_bounded way.entry) → DoRise (number_of (order_by way.entry)) fc firsts.now.rows → DoRise (λ e. e.begin) oc others.now.rows
        → steps.new ≤ steps.old + (length firsts.now.rows + length others.now.rows + length (joined_by way.entry firsts.now.rows fc others.now.rows oc)) }
    ensures bound_in_any_order { IsTrue (is_bounded way.entry) → steps.new ≤ steps.old + 2 * (length firsts.now.rows + length others.now.rows + length (joined_by way.entry firsts.now.rows fc others.now.rows oc)) }
    ensures counted { IfOk result (λ out. steps.old + length out.rows ≤ steps.new) }
    ensures grows { steps.old ≤ steps.new }
{
    let Some(width) = firsts.width().checked_add(others.width()) else {
        return Err(OutOfMemory);
    };
    let mut out = Rows::new(alloc, width);
    let first_side = Side::InPlace(firsts.as_slice(), fc);
    let other_side = Side::InPlace(others.as_slice(), oc);
    put(alloc, way, first_side, other_side, &mut out, steps)?;
    Ok(out)
}
