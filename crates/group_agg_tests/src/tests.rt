ghost use Rattle.std.specs.Prelude.{◌≡◌, IfOk};

use aql_base::same_bag;
use group_agg::{Agg, group, limited, order_limit};
use row_values::{Row, Rows, Value};
use std::alloc::Global;
use std::test::Fail;

/// The list of one-column rows of the given values.
fn column<'d>(alloc: Global, values: &[Value<'d>]) -> Result<Rows<'d>, Fail>
    ensures { IfOk result (λ rows. rows.width ≡ 1) }
{
    let mut rows = Rows::new(alloc, 1);
    for value in values {
        rows.push(Row::single(alloc, *value))?;
    }
    Ok(rows)
}

/// The list of two-column rows of the given pairs.
fn table<'d>(alloc: Global, pairs: &[(Value<'d>, Value<'d>)]) -> Result<Rows<'d>, Fail>
    ensures { IfOk result (λ rows. rows.width ≡ 2) }
{
    let mut rows = Rows::new(alloc, 2);
    for (first, second) in pairs {
        let mut row = Row::single(alloc, *first);
        row.push(*second)?;
        rows.push(row)?;
    }
    Ok(rows)
}

/// Whether two lists are one bag.
fn same<'d>(a: Rows<'d>, b: Rows<'d>) -> bool {
    same_bag(a.as_slice(), b.as_slice())
}

#[test]
fn equal_keys_make_one_row(rt: HostRuntime) -> Result<(), Fail> {
    let alloc = rt.alloc();
    let (seven, eight) = (Value::Int(7), Value::Int(8));
    let rows = column(alloc, &[seven, eight, seven])?;
    let got = group(alloc, &rows, &[0], &[Agg::Key(0), Agg::Count])?;
    let want = table(alloc, &[(seven, Value::Int(2)), (eight, Value::Int(1))])?;
    assert!(rt; same(got, want), "7 8 7 by value");
    Ok(())
}

#[test]
fn null_is_one_key_and_is_counted_as_a_row_alone(rt: HostRuntime) -> Result<(), Fail> {
    let alloc = rt.alloc();
    let rows = column(alloc, &[Value::Null, Value::Int(7), Value::Null])?;
    let got = group(alloc, &rows, &[0], &[Agg::Count, Agg::CountOf(0)])?;
    let want = table(
        alloc,
        &[
            (Value::Int(2), Value::Int(0)),
            (Value::Int(1), Value::Int(1)),
        ],
    )?;
    assert!(rt; same(got, want), "Null 7 Null by value");
    Ok(())
}

#[test]
fn with_no_keys_all_rows_are_one_group_and_no_rows_are_none(rt: HostRuntime) -> Result<(), Fail> {
    let alloc = rt.alloc();
    let some = column(alloc, &[Value::Int(1), Value::Int(2)])?;
    let got = group(alloc, &some, &[], &[Agg::Count])?;
    assert!(rt; same(got, column(alloc, &[Value::Int(2)])?), "two rows");
    let none = group(alloc, &Rows::new(alloc, 1), &[], &[Agg::Count])?;
    assert_eq!(rt; (none.len(), none.width()), (0, 1));
    Ok(())
}

/// The sum of a column.
fn sum<'d>(alloc: Global, values: &[Value<'d>]) -> Result<Rows<'d>, Fail> {
    let rows = column(alloc, values)?;
    Ok(group(alloc, &rows, &[], &[Agg::Sum(0)])?)
}

#[test]
fn a_sum_is_exact_or_the_nearer_end_of_the_range(rt: HostRuntime) -> Result<(), Fail> {
    let alloc = rt.alloc();
    let (max, min, null) = (Value::Int(i64::MAX), Value::Int(i64::MIN), Value::Null);
    let (one, less, five) = (Value::Int(1), Value::Int(-1), Value::Int(5));
    let table: [(&[Value<'static>], Value<'static>); 9] = [
        (&[null, five], five),
        (&[five, less, less], Value::Int(3)),
        (&[max, max], max),
        (&[min, min], min),
        (&[max, one], max),
        (&[min, null, less], min),
        (&[max, max, min, min, five], Value::Int(3)),
        (&[min, min, max, max, five], Value::Int(3)),
        (&[null, null], null),
    ];
    for (parts, want) in table {
        assert!(rt;
            same(sum(alloc, parts)?, column(alloc, &[want])?),
            "{parts:?}"
        );
    }
    Ok(())
}

/// The one row of these aggregates over a column.
fn over<'d>(alloc: Global, values: &[Value<'d>]) -> Result<Rows<'d>, Fail> {
    let rows = column(alloc, values)?;
    Ok(group(alloc, &rows, &[], &[Agg::Min(0), Agg::Max(0)])?)
}

#[test]
fn the_least_and_the_greatest_pass_over_null(rt: HostRuntime) -> Result<(), Fail> {
    let alloc = rt.alloc();
    let (null, seven, word) = (Value::Null, Value::Int(7), Value::Text("a"));
    let cases: [(&[Value<'static>], (Value<'static>, Value<'static>)); 4] = [
        (&[null, null], (null, null)),
        (&[null, seven], (seven, seven)),
        (&[seven, null, word], (seven, word)),
        (&[word, Value::Int(9), seven], (seven, word)),
    ];
    for (values, want) in cases {
        assert!(rt;
            same(over(alloc, values)?, table(alloc, &[want])?),
            "{values:?}"
        );
    }
    let rows = column(alloc, &[null, null])?;
    let sum = group(alloc, &rows, &[], &[Agg::Sum(0)])?;
    assert!(rt; same(sum, column(alloc, &[null])?), "the sum of Null alone");
    Ok(())
}

#[test]
fn a_limit_keeps_the_first_rows_by_the_keys_and_then_in_row_order(
    rt: HostRuntime,
) -> Result<(), Fail> {
    let alloc = rt.alloc();
    let (seven, eight) = (Value::Int(7), Value::Int(8));
    let got = order_limit(alloc, column(alloc, &[seven, eight])?, &[0], Some(1))?;
    assert!(rt; same(got, column(alloc, &[seven])?), "limit 1 of 7 8");
    let got = order_limit(alloc, column(alloc, &[eight, Value::Null])?, &[0], Some(1))?;
    assert!(rt;
        same(got, column(alloc, &[Value::Null])?),
        "Null comes first"
    );
    let pairs = [(eight, seven), (seven, eight), (seven, seven)];
    let got = order_limit(alloc, table(alloc, &pairs)?, &[0], Some(1))?;
    assert!(rt;
        same(got, table(alloc, &[(seven, seven)])?),
        "a tie goes by row order"
    );
    let got = order_limit(alloc, table(alloc, &pairs)?, &[1], Some(2))?;
    assert!(rt;
        same(got, table(alloc, &[(seven, seven), (eight, seven)])?),
        "by the second column"
    );
    for limit in [None, Some(3), Some(9)] {
        let got = order_limit(alloc, table(alloc, &pairs)?, &[0], limit)?;
        assert!(rt;
            same(got, table(alloc, &pairs)?),
            "all stay under {limit:?}"
        );
    }
    let none = order_limit(alloc, table(alloc, &pairs)?, &[0], Some(0))?;
    assert_eq!(rt; (none.len(), none.width()), (0, 2));
    Ok(())
}

#[test]
fn rows_that_are_lent_are_copied_where_they_stay(rt: HostRuntime) -> Result<(), Fail> {
    let alloc = rt.alloc();
    let (seven, eight) = (Value::Int(7), Value::Int(8));
    let rows = column(alloc, &[eight, seven, eight])?;
    let first = limited(alloc, &rows, &[0], Some(1))?;
    assert!(rt; same(first, column(alloc, &[seven])?), "limit 1 of 8 7 8");
    let all = limited(alloc, &rows, &[0], None)?;
    assert!(rt;
        same(all, column(alloc, &[seven, eight, eight])?),
        "no limit"
    );
    assert_eq!(rt; rows.len(), 3);
    Ok(())
}

/// The numbers below 1024, each once, in an order that rises and falls.
fn mixed(alloc: Global) -> Result<Rows<'static>, Fail>
    ensures { IfOk result (λ rows. rows.width ≡ 1) }
{
    let mut rows = Rows::new(alloc, 1);
    for i in 0..1024u16 {
        rows.push(Row::single(alloc, Value::Int(i64::from(i ^ 341))))?;
    }
    Ok(rows)
}

#[test]
fn a_limit_of_many_rows_keeps_the_least(rt: HostRuntime) -> Result<(), Fail> {
    let alloc = rt.alloc();
    let got = order_limit(alloc, mixed(alloc)?, &[0], Some(3))?;
    let want = column(alloc, &[Value::Int(0), Value::Int(1), Value::Int(2)])?;
    assert!(rt; same(got, want), "the least three of a thousand");
    Ok(())
}

#[test]
fn a_thousand_rows_make_one_group_or_a_thousand(rt: HostRuntime) -> Result<(), Fail> {
    let alloc = rt.alloc();
    let rows = mixed(alloc)?;
    let one = group(
        alloc,
        &rows,
        &[],
        &[Agg::Count, Agg::Sum(0), Agg::Min(0), Agg::Max(0)],
    )?;
    let mut want = Row::single(alloc, Value::Int(1024));
    want.push(Value::Int(523_776))?;
    want.push(Value::Int(0))?;
    want.push(Value::Int(1023))?;
    assert_eq!(rt; one.as_slice(), &[want][..]);
    let each = group(alloc, &rows, &[0], &[Agg::Key(0), Agg::Count])?;
    assert_eq!(rt; each.len(), 1024);
    Ok(())
}
