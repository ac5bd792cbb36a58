ghost use Rattle.std.specs.Prelude.{◌≡◌, length, IfOk, All};
ghost use Rattle.span_token.specs.Documents.{LiesIn};
ghost use Rattle.span_token.specs.Extents.{extent_of};

use row_values::{Row, Rows, Value};
use span_sets::{Policy, blocks, consolidate, consolidated};
use span_token::{Document, Span};
use std::alloc::Global;
use std::process::Abort;
use std::test::Fail;

/// The ends of a target; reversed ones stand for Null.
type Ends = (u32, u32);

const NULL: Ends = (1, 0);

const POLICIES: [Policy; 5] = [
    Policy::ContainedWithin,
    Policy::NotContainedWithin,
    Policy::ContainsButNotEqual,
    Policy::ExactMatch,
    Policy::LeftToRight,
];

fn target(ends: Ends) -> Option<Span> {
    let (begin, end) = ends;
    if begin <= end {
        Some(Span { begin, end })
    } else {
        None
    }
}

/// The row of one target.
fn row_of(alloc: Global, ends: Ends) -> Row<'static>
    ensures { length result ≡ 1 }
{
    match target(ends) {
        Some(span) => Row::single(alloc, Value::Span(span)),
        None => Row::single(alloc, Value::Null),
    }
}

/// A row for each target.
fn rows_of(alloc: Global, table: &[Ends]) -> Result<Rows<'static>, Fail> {
    let mut rows = Rows::new(alloc, 1);
    for ends in table {
        rows.push(row_of(alloc, *ends))?;
    }
    Ok(rows)
}

fn targets_of(alloc: Global, table: &[Ends]) -> Result<Vec<Option<Span>>, Fail> {
    let mut targets = Vec::new(alloc);
    for ends in table {
        targets.push(target(*ends))?;
    }
    Ok(targets)
}

/// What the policy keeps of rows with a target each.
fn kept_by(
    alloc: Global,
    rows: Rows<'static>,
    targets: Vec<Option<Span>>,
    policy: Policy,
) -> Result<Rows<'static>, Fail> {
    if targets.len() != rows.len() as usize {
        return Err(Fail::from("one target each"));
    }
    Ok(consolidate(alloc, rows, targets, policy)?)
}

/// What the policy keeps of rows that are their own targets.
fn kept(alloc: Global, table: &[Ends], policy: Policy) -> Result<Rows<'static>, Fail> {
    let targets = targets_of(alloc, table)?;
    kept_by(alloc, rows_of(alloc, table)?, targets, policy)
}

/// The rows that a policy kept are the wanted ones.
fn are_rows(rt: &impl Abort, got: &Rows<'_>, want: &Rows<'_>, policy: Policy, of: &[Ends]) {
    assert_eq!(rt; got.as_slice(), want.as_slice(), "{policy:?} of {of:?}");
}

/// The rows that a policy kept are those of these targets.
fn has_rows<R: Abort + AllocGlobal>(
    rt: &R,
    got: &Rows<'_>,
    want: &[Ends],
    policy: Policy,
    of: &[Ends],
) -> Result<(), Fail> {
    are_rows(rt, got, &rows_of(rt.alloc(), want)?, policy, of);
    Ok(())
}

/// The policy keeps these of rows that are their own targets.
fn keeps<R: Abort + AllocGlobal>(
    rt: &R,
    table: &[Ends],
    policy: Policy,
    want: &[Ends],
) -> Result<(), Fail> {
    has_rows(rt, &kept(rt.alloc(), table, policy)?, want, policy, table)
}

#[test]
fn policies_side_by_side(rt: HostRuntime) -> Result<(), Fail> {
    let table: [(&[Ends], [&[Ends]; 5]); 10] = [
        (&[], [&[], &[], &[], &[], &[]]),
        (
            &[(3, 4)],
            [&[(3, 4)], &[(3, 4)], &[(3, 4)], &[(3, 4)], &[(3, 4)]],
        ),
        (
            &[(0, 5), (0, 5), (1, 3)],
            [
                &[(0, 5)],
                &[(1, 3)],
                &[(0, 5), (0, 5)],
                &[(0, 5), (1, 3)],
                &[(0, 5)],
            ],
        ),
        (
            &[NULL, (0, 5), NULL, (1, 3)],
            [
                &[NULL, NULL, (0, 5)],
                &[NULL, NULL, (1, 3)],
                &[NULL, NULL, (0, 5)],
                &[NULL, NULL, (0, 5), (1, 3)],
                &[NULL, NULL, (0, 5)],
            ],
        ),
        (
            &[(0, 4), (3, 9), (5, 8)],
            [
                &[(0, 4), (3, 9)],
                &[(0, 4), (5, 8)],
                &[(0, 4), (3, 9)],
                &[(0, 4), (3, 9), (5, 8)],
                &[(0, 4), (5, 8)],
            ],
        ),
        (
            &[(5, 8), (0, 4), (3, 9)],
            [
                &[(0, 4), (3, 9)],
                &[(0, 4), (5, 8)],
                &[(0, 4), (3, 9)],
                &[(0, 4), (3, 9), (5, 8)],
                &[(0, 4), (5, 8)],
            ],
        ),
        (
            &[(0, 9), (1, 8), (2, 7)],
            [
                &[(0, 9)],
                &[(2, 7)],
                &[(0, 9)],
                &[(0, 9), (1, 8), (2, 7)],
                &[(0, 9)],
            ],
        ),
        (
            &[(0, 5), (0, 3), (2, 5)],
            [
                &[(0, 5)],
                &[(0, 3), (2, 5)],
                &[(0, 5)],
                &[(0, 3), (0, 5), (2, 5)],
                &[(0, 5)],
            ],
        ),
        (
            &[(3, 3), (3, 3), (3, 5), (1, 3)],
            [
                &[(1, 3), (3, 5)],
                &[(3, 3)],
                &[(1, 3), (3, 5)],
                &[(1, 3), (3, 3), (3, 5)],
                &[(1, 3), (3, 3), (3, 5)],
            ],
        ),
        (
            &[(0, 5), (2, 2)],
            [
                &[(0, 5)],
                &[(2, 2)],
                &[(0, 5)],
                &[(0, 5), (2, 2)],
                &[(0, 5)],
            ],
        ),
    ];
    for (rows, wanted) in table {
        for k in 0..5 {
            keeps(&rt, rows, POLICIES[k], wanted[k])?;
        }
    }
    Ok(())
}

/// A row of a target and a number for each of both.
fn tagged(alloc: Global, table: &[Ends], tags: &[i64]) -> Result<Rows<'static>, Fail> {
    let mut rows = Rows::new(alloc, 2);
    for (ends, tag) in table.iter().zip(tags) {
        let mut row = row_of(alloc, *ends);
        row.push(Value::Int(*tag))?;
        rows.push(row)?;
    }
    Ok(rows)
}

/// What the policy keeps of rows of a target and a number each.
fn kept_tagged(
    alloc: Global,
    table: &[Ends],
    tags: &[i64],
    policy: Policy,
) -> Result<Rows<'static>, Fail> {
    let targets = targets_of(alloc, table)?;
    kept_by(alloc, tagged(alloc, table, tags)?, targets, policy)
}

/// The rows that a policy kept are those of these targets and numbers.
fn has_tagged<R: Abort + AllocGlobal>(
    rt: &R,
    got: &Rows<'_>,
    want: &[Ends],
    tags: &[i64],
    policy: Policy,
) -> Result<(), Fail> {
    are_rows(rt, got, &tagged(rt.alloc(), want, tags)?, policy, want);
    Ok(())
}

#[test]
fn of_equal_targets_the_first_row_in_row_order_stays(rt: HostRuntime) -> Result<(), Fail> {
    let given: [Ends; 5] = [(0, 5), (0, 5), (1, 3), (0, 5), NULL];
    let numbers = [2, 1, 9, 1, 4];
    let table: [(Policy, &[Ends], &[i64]); 5] = [
        (Policy::ContainedWithin, &[NULL, (0, 5)], &[4, 1]),
        (Policy::NotContainedWithin, &[NULL, (1, 3)], &[4, 9]),
        (
            Policy::ContainsButNotEqual,
            &[NULL, (0, 5), (0, 5), (0, 5)],
            &[4, 1, 1, 2],
        ),
        (Policy::ExactMatch, &[NULL, (0, 5), (1, 3)], &[4, 1, 9]),
        (Policy::LeftToRight, &[NULL, (0, 5)], &[4, 1]),
    ];
    for (policy, want, tags) in table {
        let got = kept_tagged(rt.alloc(), &given, &numbers, policy)?;
        has_tagged(&rt, &got, want, tags, policy)?;
    }
    Ok(())
}

/// A row for each number.
fn numbered(alloc: Global, numbers: &[i64]) -> Result<Rows<'static>, Fail> {
    let mut rows = Rows::new(alloc, 1);
    for number in numbers {
        rows.push(Row::single(alloc, Value::Int(*number)))?;
    }
    Ok(rows)
}

/// The outermost of rows of these numbers are those of the wanted ones.
fn keeps_numbers<R: Abort + AllocGlobal>(
    rt: &R,
    numbers: &[i64],
    table: &[Ends],
    want: &[i64],
) -> Result<(), Fail> {
    let (alloc, policy) = (rt.alloc(), Policy::ContainedWithin);
    let targets = targets_of(alloc, table)?;
    let got = kept_by(alloc, numbered(alloc, numbers)?, targets, policy)?;
    are_rows(rt, &got, &numbered(alloc, want)?, policy, table);
    Ok(())
}

#[test]
fn equal_rows_have_targets_of_their_own(rt: HostRuntime) -> Result<(), Fail> {
    keeps_numbers(&rt, &[7, 7, 3], &[(0, 5), (1, 3), (9, 9)], &[3, 7])
}

/// What the policy keeps of rows that are lent, with the targets of the rows in row order.
fn kept_of<'d>(
    alloc: Global,
    rows: &Rows<'d>,
    targets: &[Option<Span>],
    policy: Policy,
) -> Result<Rows<'d>, Fail>
    requires { length targets.now ≡ length rows.now.rows }
{
    let sorted = rows.sorted(alloc)?;
    let order = sorted.as_slice();
    let kept = consolidated(alloc, rows, order, targets, policy)?;
    Ok(kept)
}

/// The policy keeps these of rows that are lent.
fn keeps_lent<R: Abort + AllocGlobal>(
    rt: &R,
    rows: &Rows<'_>,
    table: &[Ends],
    policy: Policy,
    want: &[Ends],
) -> Result<(), Fail> {
    let targets = targets_of(rt.alloc(), table)?;
    assert!(rt; targets.len() == rows.len() as usize);
    let got = kept_of(rt.alloc(), rows, targets.as_slice(), policy)?;
    has_rows(rt, &got, want, policy, table)
}

#[test]
fn rows_that_are_lent_are_copied_where_they_stay(rt: HostRuntime) -> Result<(), Fail> {
    let rows = rows_of(rt.alloc(), &[(1, 3), NULL, (0, 5)])?;
    let targets: [Ends; 3] = [NULL, (0, 5), (1, 3)];
    keeps_lent(
        &rt,
        &rows,
        &targets,
        Policy::ContainedWithin,
        &[NULL, (0, 5)],
    )?;
    assert_eq!(rt; rows.len(), 3);
    Ok(())
}

/// A thousand spans that lie in one another, the innermost first.
fn nested(alloc: Global) -> Result<Vec<Ends>, Fail> {
    let mut spans = Vec::new(alloc);
    for i in 0..1024u16 {
        spans.push((1024 - u32::from(i), 1024 + u32::from(i)))?;
    }
    Ok(spans)
}

#[test]
fn of_many_nested_spans_the_outermost_the_innermost_or_all_stay(
    rt: HostRuntime,
) -> Result<(), Fail> {
    let spans = nested(rt.alloc())?;
    keeps(&rt, &spans, Policy::ContainedWithin, &[(1, 2047)])?;
    keeps(&rt, &spans, Policy::NotContainedWithin, &[(1024, 1024)])?;
    assert_eq!(rt; kept(rt.alloc(), &spans, Policy::ExactMatch)?.len(), 1024);
    Ok(())
}

/// Those of the spans that lie in the document.
fn spans_in(alloc: Global, doc: &Document<'_>, table: &[Ends]) -> Result<Vec<Span>, Fail>
    ensures { IfOk result (λ spans. All (λ s. LiesIn (extent_of s) doc.now) spans.items) }
{
    let mut spans = Vec::new(alloc);
    for (begin, end) in table {
        if *begin <= *end && *end <= doc.len() {
            spans.push(Span {
                begin: *begin,
                end: *end,
            })?;
        }
    }
    Ok(spans)
}

/// The runs and gaps of blocks that are asked for, and whether gaps are in tokens.
type Asked = ((u32, u32), (i64, i64), bool);

fn blocks_of(
    alloc: Global,
    doc: &Document<'_>,
    spans: &[Ends],
    asked: Asked,
) -> Result<Vec<Span>, Fail> {
    let ((low, high), (gap_low, gap_high), tokens) = asked;
    let given = spans_in(alloc, doc, spans)?;
    Ok(blocks(alloc, given, doc, low, high, gap_low, gap_high, tokens)?)
}

/// The blocks of the spans are the wanted ones.
fn has_blocks<R: Abort + AllocGlobal>(
    rt: &R,
    doc: &Document<'_>,
    spans: &[Ends],
    asked: Asked,
    want: &[Ends],
) -> Result<(), Fail> {
    let got = blocks_of(rt.alloc(), doc, spans, asked)?;
    let want = spans_in(rt.alloc(), doc, want)?;
    assert_eq!(rt;
        got.as_slice(),
        want.as_slice(),
        "{spans:?}, asked for {asked:?}"
    );
    Ok(())
}

#[test]
fn blocks_are_runs_of_neighbours(rt: HostRuntime) -> Result<(), Fail> {
    let doc = Document::new(rt.alloc(), "1 2 3   4", None)?;
    let numbers: &[Ends] = &[(4, 5), (0, 1), (8, 9), (2, 3), (0, 1)];
    let table: [(&[Ends], (u32, u32), (i64, i64), bool, &[Ends]); 12] = [
        (numbers, (2, 3), (0, 1), false, &[(0, 3), (0, 5), (2, 5)]),
        (numbers, (2, 2), (0, 1), false, &[(0, 3), (2, 5)]),
        (numbers, (2, 9), (2, 3), false, &[(4, 9)]),
        (
            numbers,
            (2, 9),
            (0, 0),
            true,
            &[(0, 3), (0, 5), (0, 9), (2, 5), (2, 9), (4, 9)],
        ),
        (numbers, (2, 9), (1, 1), true, &[]),
        (&[(0, 1), (4, 5)], (2, 2), (1, 1), true, &[(0, 5)]),
        (
            numbers,
            (1, 1),
            (0, 0),
            false,
            &[(0, 1), (2, 3), (4, 5), (8, 9)],
        ),
        (
            numbers,
            (0, 1),
            (-1, 0),
            false,
            &[(0, 1), (2, 3), (4, 5), (8, 9)],
        ),
        (
            &[(0, 0), (0, 1), (2, 3)],
            (2, 3),
            (0, 1),
            false,
            &[(0, 1), (0, 3), (0, 3)],
        ),
        (&[(0, 3), (2, 5)], (2, 2), (0, 9), false, &[]),
        (numbers, (3, 2), (0, 9), false, &[]),
        (&[], (1, 4294967295), (0, 9), true, &[]),
    ];
    for (spans, runs, gaps, tokens, want) in table {
        has_blocks(&rt, &doc, spans, (runs, gaps, tokens), want)?;
    }
    Ok(())
}

/// Fifty letters, each with a blank behind it.
const LETTERS: &str =
    "x x x x x x x x x x x x x x x x x x x x x x x x x x x x x x x x x x x x x x x x x x x x x x x x x x ";

#[test]
fn of_many_neighbours_each_run_of_two_or_three_is_a_block(rt: HostRuntime) -> Result<(), Fail> {
    let alloc = rt.alloc();
    let doc = Document::new(alloc, LETTERS, None)?;
    let mut spans: Vec<Ends> = Vec::new(alloc);
    let mut want: Vec<Ends> = Vec::new(alloc);
    for i in 0..50 {
        spans.push((2 * i, 2 * i + 1))?;
        if i < 49 {
            want.push((2 * i, 2 * i + 3))?;
        }
        if i < 48 {
            want.push((2 * i, 2 * i + 5))?;
        }
    }
    let asked = ((2, 3), (0, 1), false);
    has_blocks(&rt, &doc, spans.as_slice(), asked, want.as_slice())
}
