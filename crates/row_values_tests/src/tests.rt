ghost use Rattle.std.specs.Prelude.{◌≡◌, ◌+◌, ◌<◌, ◌≤◌, ◌^◌, length, IfOk};

use aql_base::same_bag;
use row_values::{
    Output, Row, Rows, Value, compare_rows, compare_values, has_distinct_names, is_in_order,
    same_value, sort_rows,
};
use span_token::{OwnedList, OwnedText, Span};
use std::alloc::Global;
use std::cmp::Ordering;
use std::process::Abort;
use std::test::Fail;
use std::thread;

fn span(begin: u32, length: u8) -> Value<'static>
    requires { begin ≤ 1000 }
{
    Value::Span(Span {
        begin,
        end: begin + u32::from(length),
    })
}

#[test]
fn values_are_in_order_by_kind_and_then_by_what_they_show(rt: HostRuntime) {
    let rising = [
        Value::Null,
        Value::Int(i64::MIN),
        Value::Int(-1),
        Value::Int(0),
        Value::Int(9),
        Value::Int(10),
        Value::Bool(false),
        Value::Bool(true),
        Value::Text(""),
        Value::Text("Z"),
        Value::Text("a"),
        Value::Text("a\0"),
        Value::Text("aa"),
        Value::Text("b"),
        Value::Text("\u{e9}"),
        span(0, 0),
        span(0, 9),
        span(1, 0),
        span(1, 2),
        span(3, 0),
    ];
    for (i, a) in rising.iter().enumerate() {
        for (j, b) in rising.iter().enumerate() {
            assert_eq!(rt; compare_values(*a, *b), i.cmp(&j), "{a:?} and {b:?}");
            assert_eq!(rt; same_value(*a, *b), i == j, "{a:?} and {b:?}");
        }
    }
}

#[test]
fn a_value_tells_what_it_is(rt: HostRuntime) {
    let at = Span { begin: 1, end: 3 };
    let table = [
        (Value::Null, true, None, None),
        (Value::Int(-7), false, Some(-7), None),
        (Value::Bool(true), false, None, None),
        (Value::Text("7"), false, None, None),
        (Value::Span(at), false, None, Some(at)),
    ];
    for (value, null, int, span) in table {
        let told = (value.is_null(), value.as_int(), value.as_span());
        assert_eq!(rt; told, (null, int, span), "{value:?}");
    }
}

/// The row of the given values.
fn row<'d>(alloc: Global, values: &[Value<'d>]) -> Result<Row<'d>, Fail>
    ensures { IfOk result (λ row. length row ≡ length values.now) }
{
    Ok(Row::copied(alloc, values)?)
}

/// The order of the rows of the given values.
fn order_of(alloc: Global, a: &[Value<'_>], b: &[Value<'_>]) -> Result<Ordering, Fail> {
    let (a, b) = (row(alloc, a)?, row(alloc, b)?);
    Ok(compare_rows(&a, &b))
}

#[test]
fn rows_are_in_order_by_columns_and_a_prefix_comes_first(rt: HostRuntime) -> Result<(), Fail> {
    let alloc = rt.alloc();
    let rising: [&[Value<'static>]; 7] = [
        &[],
        &[Value::Null],
        &[Value::Null, Value::Int(7)],
        &[span(0, 1)],
        &[span(0, 1), Value::Null],
        &[
            span(0, 1),
            Value::Null,
            Value::Null,
            Value::Null,
            Value::Int(1),
        ],
        &[span(0, 2)],
    ];
    for (i, a) in rising.iter().enumerate() {
        for (j, b) in rising.iter().enumerate() {
            assert_eq!(rt; order_of(alloc, a, b)?, i.cmp(&j), "{i} and {j}");
        }
    }
    Ok(())
}

/// The row of `front` and `back`, made by following a row with values.
fn followed<'d>(alloc: Global, front: &[Value<'d>], back: &[Value<'d>]) -> Result<Row<'d>, Fail> {
    Ok(row(alloc, front)?.followed_by(alloc, back)?)
}

/// The same, made by filling an empty row.
fn filled<'d>(alloc: Global, front: &[Value<'d>], back: &[Value<'d>]) -> Result<Row<'d>, Fail> {
    let mut row = Row::empty(alloc);
    for value in front {
        row.push(*value)?;
    }
    row.extend(back)?;
    Ok(row)
}

/// The list of the row of two rows, twice.
fn joined<'d>(alloc: Global, left: &Row<'d>, right: &Row<'d>) -> Result<Rows<'d>, Fail>
    requires few { length left.now + length right.now < 2 ^ 32 }
{
    let mut rows = Rows::new(alloc, left.len() + right.len());
    rows.push_joined(alloc, left, right)?;
    rows.push_joined(alloc, left, right)?;
    Ok(rows)
}

/// The same, made in a list of rows, twice.
fn pushed<'d>(alloc: Global, front: &[Value<'d>], back: &[Value<'d>]) -> Result<Rows<'d>, Fail>
    requires few { length front.now + length back.now < 2 ^ 32 }
{
    let left = row(alloc, front)?;
    let right = row(alloc, back)?;
    joined(alloc, &left, &right)
}

/// A row has these values.
fn has_values(rt: &impl Abort, found: &Row<'_>, want: &[Value<'_>]) {
    assert_eq!(rt; found.values(), want);
}

/// Each row of a list has these values.
fn all_have_values(rt: &impl Abort, rows: &Rows<'_>, want: &[Value<'_>]) {
    for row in rows.as_slice() {
        has_values(rt, row, want);
    }
}

#[test]
fn a_row_is_made_from_a_vec_from_values_and_from_rows(rt: HostRuntime) -> Result<(), Fail> {
    let alloc = rt.alloc();
    let five = [
        Value::Int(1),
        Value::Text("two"),
        Value::Bool(true),
        span(4, 1),
        Value::Null,
    ];
    for at in 0..6 {
        let (front, back) = five.split_at(at);
        has_values(&rt, &followed(alloc, front, back)?, &five);
        has_values(&rt, &filled(alloc, front, back)?, &five);
        all_have_values(&rt, &pushed(alloc, front, back)?, &five);
    }
    Ok(())
}

#[test]
fn a_row_of_a_vec_has_its_values(rt: HostRuntime) -> Result<(), Fail> {
    let alloc = rt.alloc();
    let row = Row::new([Value::Null, Value::Text("two")].to_vec(alloc)?);
    assert_eq!(rt; (row.len(), row.get(1)), (2, Value::Text("two")));
    assert!(rt; row.copy(alloc)? == row);
    Ok(())
}

/// The list of one-column rows of the given values.
fn column<'d>(alloc: Global, values: &[Value<'d>]) -> Result<Rows<'d>, Fail> {
    let mut rows = Rows::new(alloc, 1);
    for value in values {
        rows.push(Row::single(alloc, *value))?;
    }
    Ok(rows)
}

/// Whether the rows are a column of these values in any order.
fn is_bag_of(alloc: Global, rows: &Rows<'_>, values: &[Value<'_>]) -> Result<bool, Fail> {
    let want = column(alloc, values)?;
    Ok(same_bag(rows.as_slice(), want.as_slice()))
}

/// The rows as they are lent in order are the wanted ones.
fn lends_in_order<R: Abort + AllocGlobal>(
    rt: &R,
    rows: &Rows<'_>,
    want: &Rows<'_>,
) -> Result<(), Fail> {
    for (got, wanted) in rows.sorted(rt.alloc())?.iter().zip(want.as_slice()) {
        assert_eq!(rt; compare_rows(got, wanted), Ordering::Equal);
    }
    Ok(())
}

/// The rows become the wanted ones by a sort.
fn sorts_to(rt: &impl Abort, rows: &mut Rows<'_>, want: &Rows<'_>) -> Result<(), Fail> {
    assert!(rt; !is_in_order(rows));
    sort_rows(rows)?;
    assert!(rt; is_in_order(rows));
    assert!(rt; rows.as_slice() == want.as_slice());
    Ok(())
}

#[test]
fn a_sort_keeps_equal_rows_and_puts_null_first(rt: HostRuntime) -> Result<(), Fail> {
    let alloc = rt.alloc();
    let mixed = [span(3, 1), Value::Null, span(0, 5), span(3, 1), Value::Null];
    let in_order = [Value::Null, Value::Null, span(0, 5), span(3, 1), span(3, 1)];
    let want = column(alloc, &in_order)?;
    let mut rows = column(alloc, &mixed)?;
    lends_in_order(&rt, &rows, &want)?;
    sorts_to(&rt, &mut rows, &want)?;
    assert!(rt; is_bag_of(alloc, &rows, &mixed)?);
    assert!(rt; !is_bag_of(alloc, &rows, &mixed[1..])?);
    Ok(())
}

/// The numbers below 4,001, each once and out of order.
fn mixed_numbers(alloc: Global) -> Result<Vec<Value<'static>>, Fail> {
    let mut values = Vec::new(alloc);
    for i in 0..4001i64 {
        values.push(Value::Int(i.wrapping_mul(1000) % 4001))?;
    }
    Ok(values)
}

#[test]
fn many_rows_are_sorted(rt: HostRuntime) -> Result<(), Fail> {
    let values = mixed_numbers(rt.alloc())?;
    let mut rows = column(rt.alloc(), values.as_slice())?;
    sort_rows(&mut rows)?;
    for (i, row) in rows.as_slice().iter().enumerate() {
        has_values(&rt, row, &[Value::Int(i as i64)]);
    }
    Ok(())
}

/// A list has so many rows of so many values.
fn has_size(rt: &impl Abort, rows: &Rows<'_>, size: (u32, u32)) {
    assert_eq!(rt; (rows.len(), rows.width()), size);
}

/// The row of this number in a list, from 0, has these values.
fn has_values_at(rt: &impl Abort, rows: &Rows<'_>, number: u32, want: &[Value<'_>]) {
    assert!(rt; number < rows.len());
    has_values(rt, rows.get(number), want);
}

#[test]
fn a_list_of_rows_keeps_its_width_and_is_copied_whole(rt: HostRuntime) -> Result<(), Fail> {
    let alloc = rt.alloc();
    let mut rows = column(alloc, &[Value::Int(2), Value::Int(1), Value::Int(2)])?;
    has_size(&rt, &rows, (3, 1));
    has_values_at(&rt, &rows, 1, &[Value::Int(1)]);
    let copy = rows.copy(alloc)?;
    rows.clear();
    has_size(&rt, &rows, (0, 1));
    has_size(&rt, &copy, (3, 1));
    has_values_at(&rt, &copy, 2, &[Value::Int(2)]);
    Ok(())
}

/// The list made of a `Vec` of one row.
fn of_vec(alloc: Global, value: Value<'_>) -> Result<Rows<'_>, Fail> {
    let mut made = Vec::new(alloc);
    made.push(Row::single(alloc, value))?;
    Ok(Rows::from_vec(1, made))
}

#[test]
fn a_list_gives_its_rows_back(rt: HostRuntime) -> Result<(), Fail> {
    let alloc = rt.alloc();
    let rows = column(alloc, &[Value::Int(2), Value::Null])?.into_vec();
    assert_eq!(rt; rows.len(), 2);
    has_values(&rt, &rows[0], &[Value::Int(2)]);
    has_size(&rt, &of_vec(alloc, Value::Null)?, (1, 1));
    Ok(())
}

/// The texts, as a list of names.
fn names(alloc: Global, texts: &[&str]) -> Result<OwnedList<OwnedText>, Fail> {
    let mut names = OwnedList::new(alloc);
    for text in texts {
        names.push(OwnedText::copied(alloc, text)?)?;
    }
    Ok(names)
}

#[test]
fn an_output_has_its_name_and_its_columns(rt: HostRuntime) -> Result<(), Fail> {
    let alloc = rt.alloc();
    let columns = names(alloc, &["b", "", "\u{e9}"])?;
    assert!(rt; has_distinct_names(columns.as_slice()));
    let output = Output::new(OwnedText::copied(alloc, "V")?, columns)?;
    assert_eq!(rt; (output.name(), output.width()), ("V", 3));
    assert_eq!(rt;
        (output.column(0), output.column(1), output.column(2)),
        ("b", "", "\u{e9}")
    );
    Ok(())
}

#[test]
fn names_are_distinct_where_no_two_are_equal(rt: HostRuntime) -> Result<(), Fail> {
    let alloc = rt.alloc();
    let table: [(&[&str], bool); 5] = [
        (&[], true),
        (&["a"], true),
        (&["a", "A", "", "aa"], true),
        (&["a", "b", "a"], false),
        (&["", "b", "b"], false),
    ];
    for (texts, want) in table {
        let names = names(alloc, texts)?;
        assert_eq!(rt; has_distinct_names(names.as_slice()), want, "{texts:?}");
    }
    Ok(())
}

#[test]
fn rows_are_shared_by_threads(rt: HostRuntime) -> Result<(), Fail> {
    let alloc = rt.alloc();
    let rows = column(alloc, &[Value::Text("a"), Value::Null, Value::Text("b")])?;
    let lengths = thread::map_indices(
        &rt,
        alloc,
        3,
        &|i| {
            if (i as u32) < rows.len() {
                rows.get(i as u32).len()
            } else {
                0
            }
        },
    )?;
    assert_eq!(rt; lengths.as_slice(), &[1u32, 1, 1][..]);
    Ok(())
}
