ghost use Rattle.std.specs.Prelude.{◌≡◌, ◌<◌, [], ◌∷◌, IfOk};
ghost use Rattle.span_token.specs.Documents.{LiesIn};
ghost use Rattle.span_token.specs.Extents.{extent_of};
ghost use Rattle.row_values.specs.Datums.{int, span};
ghost use Rattle.row_values.specs.Rows.{ColumnLiesIn};

use aql_base::Steps;
use row_values::{Row, Rows, Value};
use span_joins::{
    join_contains, join_contains_back, join_follows, join_follows_back, join_follows_tok,
    join_follows_tok_back, join_overlaps,
};
use span_token::{Document, Span};
use std::alloc::Global;
use std::marker::Brand;
use std::process::Abort;
use std::sync::ledger::{Blank, Ledger};
use std::test::Fail;

/// The ends of a span; `None` stands for Null.
type Ends = Option<(u32, u32)>;

/// The numbers of a left and a right row that are joined.
type Pair = (i64, i64);

fn value(ends: Ends) -> Value<'static> {
    match ends {
        Some((begin, end)) if begin <= end => Value::Span(Span { begin, end }),
        _ => Value::Null,
    }
}

/// A row for each span, with its number from 0 in front.
fn given(alloc: Global, table: &[Ends]) -> Result<Rows<'static>, Fail>
    ensures { IfOk result (λ rows. rows.width ≡ 2) }
{
    let mut rows = Rows::new(alloc, 2);
    for ends in table {
        let number = Row::single(alloc, Value::Int(i64::from(rows.len())));
        rows.push_joined(alloc, &number, &Row::single(alloc, value(*ends)))?;
    }
    Ok(rows)
}

/// The pairs of numbers in joined rows, in order.
fn pairs(alloc: Global, rows: &Rows<'_>) -> Result<Vec<Pair>, Fail> {
    let mut pairs = Vec::new(alloc);
    for row in rows.as_slice() {
        if let (Some(left), Some(right)) = (number(row, 0), number(row, 2)) {
            pairs.push((left, right))?;
        }
    }
    pairs.sort_unstable();
    Ok(pairs)
}

/// The number in a column of a row.
fn number(row: &Row<'_>, column: usize) -> Option<i64> {
    row.values().get(column)?.as_int()
}

/// A join that takes no document; a gap by its least and greatest number of characters.
#[derive(Clone, Copy, Debug)]
enum Kind {
    Follows(i64, i64),
    FollowsBack(i64, i64),
    Overlaps,
    Contains,
    ContainsBack,
}

/// The join of two lists by the spans behind their numbers.
fn joined<'d, L: Ledger>(
    alloc: Global,
    kind: Kind,
    left: &Rows<'d>,
    right: &Rows<'d>,
    steps: &mut Steps<L>,
) -> Result<Rows<'d>, span_token::OutOfMemory>
    requires left_width { left.now.width ≡ 2 }
    requires right_width { right.now.width ≡ 2 }
{
    match kind {
        Kind::Follows(min, max) => join_follows(alloc, left, 1, right, 1, min, max, steps),
        Kind::FollowsBack(min, max) => join_follows_back(alloc, left, 1, right, 1, min, max, steps),
        Kind::Overlaps => join_overlaps(alloc, left, 1, right, 1, steps),
        Kind::Contains => join_contains(alloc, left, 1, right, 1, steps),
        Kind::ContainsBack => join_contains_back(alloc, left, 1, right, 1, steps),
    }
}

/// The pairs of a join, in order.
fn pairs_of<L: Ledger>(
    alloc: Global,
    kind: Kind,
    left: &[Ends],
    right: &[Ends],
    blank: Blank,
) -> Result<Vec<Pair>, Fail>
    requires name { blank.name ≡ L.name }
    requires parts { blank.parts ≡ L.parts }
    requires some { 0 < blank.parts }
{
    let mut steps = Steps::<L>::new(blank);
    let left = given(alloc, left)?;
    let right = given(alloc, right)?;
    let out = joined(alloc, kind, &left, &right, &mut steps)?;
    pairs(alloc, &out)
}

/// The pairs that were found are the wanted ones.
fn are_pairs(rt: &impl Abort, got: &[Pair], want: &[Pair], join: &str, name: &str) {
    assert_eq!(rt; got, want, "{join}: {name}");
}

#[test]
fn gaps_in_characters(rt: HostRuntime) -> Result<(), Fail> {
    let widest = (i64::MIN, i64::MAX);
    let table: [(&str, &[Ends], &[Ends], (i64, i64), &[Pair]); 20] = [
        ("no rows", &[], &[], (0, 9), &[]),
        ("no left row", &[], &[Some((0, 1))], widest, &[]),
        ("no right row", &[Some((0, 1))], &[], widest, &[]),
        (
            "equal spans on both sides",
            &[Some((0, 2)), Some((0, 2))],
            &[Some((2, 3)), Some((2, 3))],
            (0, 0),
            &[(0, 0), (0, 1), (1, 0), (1, 1)],
        ),
        (
            "empty spans",
            &[Some((3, 3))],
            &[Some((3, 3))],
            (0, 0),
            &[(0, 0)],
        ),
        (
            "bounds 0 and 0",
            &[Some((0, 3))],
            &[Some((2, 4)), Some((3, 4)), Some((4, 5))],
            (0, 0),
            &[(0, 1)],
        ),
        (
            "gaps at both bounds",
            &[Some((0, 1))],
            &[Some((2, 3)), Some((3, 4)), Some((4, 5)), Some((5, 6))],
            (2, 3),
            &[(0, 1), (0, 2)],
        ),
        (
            "bounds as wide as can be",
            &[Some((0, 1)), Some((5, 6))],
            &[Some((0, 0)), Some((6, 7)), Some((9, 9))],
            widest,
            &[(0, 1), (0, 2), (1, 1), (1, 2)],
        ),
        (
            "the greater bound below",
            &[Some((0, 1))],
            &[Some((2, 3))],
            (1, 0),
            &[],
        ),
        (
            "bounds below 0",
            &[Some((0, 1))],
            &[Some((1, 3))],
            (-9, -1),
            &[],
        ),
        (
            "Null joins with nothing",
            &[None, Some((0, 1))],
            &[None, Some((1, 2))],
            widest,
            &[(1, 1)],
        ),
        ("Null alone", &[None], &[None], widest, &[]),
        (
            "rows in any order",
            &[Some((2, 3)), Some((0, 1))],
            &[Some((3, 4)), Some((1, 2))],
            (0, 0),
            &[(0, 0), (1, 1)],
        ),
        (
            "rows in any order, Null in the middle",
            &[Some((4, 6)), None, Some((0, 2))],
            &[Some((7, 8)), None, Some((2, 4)), Some((6, 6))],
            (0, 1),
            &[(0, 0), (0, 3), (2, 2)],
        ),
        (
            "Null after spans",
            &[Some((0, 1)), Some((2, 3)), None],
            &[Some((1, 2)), Some((4, 5)), Some((5, 6)), None],
            (0, 1),
            &[(0, 0), (1, 1)],
        ),
        (
            "left rows out of order",
            &[Some((5, 6)), Some((0, 1)), Some((2, 4))],
            &[Some((1, 1)), Some((4, 5)), Some((6, 7)), Some((8, 9))],
            (0, 2),
            &[(0, 2), (0, 3), (1, 0), (2, 1), (2, 2)],
        ),
        (
            "right rows out of order",
            &[Some((0, 1)), Some((2, 4)), Some((5, 6))],
            &[Some((8, 9)), Some((4, 5)), Some((1, 1)), Some((6, 7))],
            (0, 2),
            &[(0, 2), (1, 1), (1, 3), (2, 0), (2, 3)],
        ),
        (
            "left rows by their begins and not by their ends",
            &[Some((0, 9)), Some((1, 2))],
            &[Some((2, 3)), Some((9, 9))],
            (0, 0),
            &[(0, 1), (1, 0)],
        ),
        (
            "equal begins with empty spans",
            &[Some((0, 3)), Some((3, 3))],
            &[Some((3, 3)), Some((3, 5)), Some((3, 3))],
            (0, 0),
            &[(0, 0), (0, 1), (0, 2), (1, 0), (1, 1), (1, 2)],
        ),
        (
            "the last right row out of order, after all left rows",
            &[Some((0, 1))],
            &[Some((1, 2)), Some((5, 6)), Some((2, 3))],
            (0, 1),
            &[(0, 0), (0, 2)],
        ),
    ];
    for (name, left, right, bounds, want) in table {
        let kind = Kind::Follows(bounds.0, bounds.1);
        let got = pairs_of::<Brand>(rt.alloc(), kind, left, right, Blank::new(1))?;
        are_pairs(&rt, &got, want, "follows", name);
    }
    Ok(())
}

/// A row for each span, as far as it lies in the document, with its number in front.
fn given_in(alloc: Global, doc: &Document<'_>, table: &[(u32, u32)]) -> Result<Rows<'static>, Fail>
    ensures width { IfOk result (λ rows. rows.width ≡ 2) }
    ensures within { IfOk result (λ rows. ColumnLiesIn doc.now 1 rows.rows) }
{
    let mut rows = Rows::new(alloc, 2);
    for (begin, end) in table {
        let number = i64::from(rows.len());
        let span = cut(doc, *begin, *end);
        rows.push(span_row(alloc, number, span)?)?;
    }
    Ok(rows)
}

/// The span, as far as it lies in the document.
fn cut(doc: &Document<'_>, begin: u32, end: u32) -> Span
    ensures { LiesIn (extent_of result) doc.now }
{
    let end = end.min(doc.len());
    Span {
        begin: begin.min(end),
        end,
    }
}

/// The row of a number and a span.
fn span_row(alloc: Global, number: i64, place: Span) -> Result<Row<'static>, Fail>
    ensures { IfOk result (λ row. row ≡ int number ∷ span (extent_of place) ∷ []) }
{
    let mut row = Row::single(alloc, Value::Int(number));
    row.push(Value::Span(place))?;
    Ok(row)
}

/// The join of two lists by a gap in tokens, or that from the right to the left, which is the same of sides
/// that change places.
fn joined_tok<'d, L: Ledger>(
    alloc: Global,
    doc: &Document<'_>,
    left: &Rows<'d>,
    right: &Rows<'d>,
    bounds: (i64, i64),
    is_back: bool,
    steps: &mut Steps<L>,
) -> Result<Rows<'d>, span_token::OutOfMemory>
    requires left_width { left.now.width ≡ 2 }
    requires right_width { right.now.width ≡ 2 }
    requires left_in_document { ColumnLiesIn doc.now 1 left.now.rows }
    requires right_in_document { ColumnLiesIn doc.now 1 right.now.rows }
{
    let (min, max) = bounds;
    if is_back {
        join_follows_tok_back(alloc, doc, right, 1, left, 1, min, max, steps)
    } else {
        join_follows_tok(alloc, doc, left, 1, right, 1, min, max, steps)
    }
}

/// The pairs of such a join, in order.
fn by_tokens<L: Ledger>(
    alloc: Global,
    doc: &Document<'_>,
    sides: [&[(u32, u32)]; 2],
    bounds: (i64, i64),
    is_back: bool,
    blank: Blank,
) -> Result<Vec<Pair>, Fail>
    requires name { blank.name ≡ L.name }
    requires parts { blank.parts ≡ L.parts }
    requires some { 0 < blank.parts }
{
    let mut steps = Steps::<L>::new(blank);
    let left = given_in(alloc, doc, sides[0])?;
    let right = given_in(alloc, doc, sides[1])?;
    let out = joined_tok(alloc, doc, &left, &right, bounds, is_back, &mut steps)?;
    pairs(alloc, &out)
}

#[test]
fn gaps_in_tokens(rt: HostRuntime) -> Result<(), Fail> {
    // Tokens: Ann, met, Bo, a comma, 42, days, ago, a full stop.
    let doc = Document::new(rt.alloc(), "Ann met Bo, 42 days ago.", None)?;
    let names: &[(u32, u32)] = &[(0, 3), (8, 10)];
    let days: &[(u32, u32)] = &[(8, 10), (12, 14), (13, 14)];
    let table: [(&str, (i64, i64), &[Pair]); 5] = [
        ("one token", (1, 1), &[(0, 0), (1, 1), (1, 2)]),
        ("a token that sticks out", (3, 3), &[(0, 1), (0, 2)]),
        ("no token", (0, 0), &[]),
        (
            "at most three",
            (i64::MIN, 3),
            &[(0, 0), (0, 1), (0, 2), (1, 1), (1, 2)],
        ),
        ("the greater bound below", (3, 1), &[]),
    ];
    for (name, bounds, want) in table {
        for is_back in [false, true] {
            let sides = [names, days];
            let got = by_tokens::<Brand>(rt.alloc(), &doc, sides, bounds, is_back, Blank::new(1))?;
            if is_back {
                assert_eq!(rt; got.len(), want.len(), "back: {name}");
            } else {
                are_pairs(&rt, &got, want, "follows in tokens", name);
            }
        }
    }
    Ok(())
}

#[test]
fn overlaps_and_contains_side_by_side(rt: HostRuntime) -> Result<(), Fail> {
    let table: [(&str, &[Ends], &[Ends], &[Pair], &[Pair]); 14] = [
        ("no rows", &[], &[], &[], &[]),
        ("Null alone", &[None], &[None], &[], &[]),
        (
            "equal spans on both sides",
            &[Some((0, 2)), Some((0, 2))],
            &[Some((0, 2)), Some((0, 2))],
            &[(0, 0), (0, 1), (1, 0), (1, 1)],
            &[(0, 0), (0, 1), (1, 0), (1, 1)],
        ),
        (
            "spans that touch",
            &[Some((0, 2)), Some((2, 4))],
            &[Some((2, 3)), Some((0, 2))],
            &[(0, 1), (1, 0)],
            &[(0, 1), (1, 0)],
        ),
        (
            "empty spans",
            &[Some((0, 5)), Some((5, 5)), Some((3, 3))],
            &[
                Some((5, 9)),
                Some((5, 5)),
                Some((3, 3)),
                Some((4, 6)),
                Some((0, 5)),
            ],
            &[(0, 2), (0, 3), (0, 4), (1, 1), (1, 3), (2, 2), (2, 4)],
            &[(0, 1), (0, 2), (0, 4), (1, 1), (2, 2)],
        ),
        (
            "a long span before short ones",
            &[Some((0, 9)), Some((1, 2)), Some((4, 5))],
            &[Some((1, 2)), None, Some((4, 6)), Some((0, 1))],
            &[(0, 0), (0, 2), (0, 3), (1, 0), (2, 2)],
            &[(0, 0), (0, 2), (0, 3), (1, 0)],
        ),
        (
            "Null after spans",
            &[Some((0, 4)), Some((2, 3)), None],
            &[Some((1, 2)), Some((2, 5)), None],
            &[(0, 0), (0, 1), (1, 1)],
            &[(0, 0)],
        ),
        (
            "rows in any order, Null in the middle",
            &[Some((4, 6)), None, Some((0, 3))],
            &[Some((5, 6)), None, Some((2, 5))],
            &[(0, 0), (0, 2), (2, 2)],
            &[(0, 0)],
        ),
        (
            "equal begins with empty spans",
            &[Some((3, 3)), Some((3, 5))],
            &[Some((3, 3)), Some((3, 4))],
            &[(0, 0), (1, 1)],
            &[(0, 0), (1, 0), (1, 1)],
        ),
        (
            "left rows out of order",
            &[Some((5, 7)), Some((0, 2)), Some((1, 6))],
            &[Some((0, 1)), Some((1, 3)), Some((4, 6)), Some((6, 8))],
            &[(0, 2), (0, 3), (1, 0), (1, 1), (2, 1), (2, 2)],
            &[(1, 0), (2, 1), (2, 2)],
        ),
        (
            "right rows out of order",
            &[Some((0, 2)), Some((1, 6)), Some((5, 7))],
            &[Some((6, 8)), Some((0, 1)), Some((4, 6)), Some((1, 3))],
            &[(0, 1), (0, 3), (1, 2), (1, 3), (2, 0), (2, 2)],
            &[(0, 1), (1, 2), (1, 3)],
        ),
        (
            "a long left span after short ones",
            &[Some((0, 1)), Some((1, 2)), Some((2, 9))],
            &[Some((0, 3)), Some((3, 4)), Some((5, 6)), Some((8, 10))],
            &[(0, 0), (1, 0), (2, 0), (2, 1), (2, 2), (2, 3)],
            &[(2, 1), (2, 2)],
        ),
        (
            "a long right span after short ones",
            &[Some((0, 3)), Some((3, 4)), Some((5, 6)), Some((8, 10))],
            &[Some((0, 1)), Some((1, 2)), Some((2, 9))],
            &[(0, 0), (0, 1), (0, 2), (1, 2), (2, 2), (3, 2)],
            &[(0, 0), (0, 1)],
        ),
        (
            "the last right row out of order, after all left rows",
            &[Some((0, 4))],
            &[Some((1, 2)), Some((5, 6)), Some((2, 3))],
            &[(0, 0), (0, 2)],
            &[(0, 0), (0, 2)],
        ),
    ];
    for (name, left, right, overlapping, containing) in table {
        for (kind, want, join) in [
            (Kind::Overlaps, overlapping, "overlaps"),
            (Kind::Contains, containing, "contains"),
        ] {
            let got = pairs_of::<Brand>(rt.alloc(), kind, left, right, Blank::new(1))?;
            are_pairs(&rt, &got, want, join, name);
        }
    }
    Ok(())
}

#[test]
fn a_join_back_has_the_left_row_in_front(rt: HostRuntime) -> Result<(), Fail> {
    let left: &[Ends] = &[Some((5, 6)), Some((0, 1)), None, Some((2, 3))];
    let right: &[Ends] = &[Some((0, 2)), Some((2, 4)), Some((5, 7))];
    let table: [(Kind, &[Pair], &str); 2] = [
        (Kind::FollowsBack(0, 1), &[(0, 1), (3, 0)], "follows"),
        (Kind::ContainsBack, &[(0, 2), (1, 0), (3, 1)], "contains"),
    ];
    for (kind, want, join) in table {
        let got = pairs_of::<Brand>(rt.alloc(), kind, left, right, Blank::new(1))?;
        are_pairs(&rt, &got, want, join, "back");
    }
    Ok(())
}

/// So many rows, of which row i has the span from i to i + 2.
fn many(alloc: Global, number: u32) -> Result<Rows<'static>, Fail>
    ensures { IfOk result (λ rows. rows.width ≡ 2) }
{
    let mut table = Vec::new(alloc);
    for i in 0..number {
        table.push(Some((i, i.saturating_add(2))))?;
    }
    given(alloc, table.as_slice())
}

/// How many pairs a join of rows with themselves has.
fn number_of<L: Ledger>(
    alloc: Global,
    kind: Kind,
    rows: &Rows<'_>,
    blank: Blank,
) -> Result<u32, Fail>
    requires width { rows.now.width ≡ 2 }
    requires name { blank.name ≡ L.name }
    requires parts { blank.parts ≡ L.parts }
    requires some { 0 < blank.parts }
{
    let mut steps = Steps::<L>::new(blank);
    Ok(joined(alloc, kind, rows, rows, &mut steps)?.len())
}

#[test]
fn many_rows_are_joined(rt: HostRuntime) -> Result<(), Fail> {
    let rows = many(rt.alloc(), 3000)?;
    for (kind, want) in [
        (Kind::Follows(0, 0), 2998),
        (Kind::Overlaps, 8998),
        (Kind::Contains, 3000),
    ] {
        let got = number_of::<Brand>(rt.alloc(), kind, &rows, Blank::new(1))?;
        assert_eq!(rt; got, want, "{kind:?}");
    }
    Ok(())
}
