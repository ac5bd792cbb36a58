//! Faults of names: aliases, columns, and names that come twice.

use crate::marks::has_faults;
use std::test::Fail;

/// No source has the alias, at each place of a column; and a bare name in an item or in `where`.
static UNKNOWN_ALIASES: [(&str, &str); 29] = [
    ("select ^W.s from V", "no alias W"),
    ("select V.t, ^W.s as x from V", "no alias W"),
    ("select ^v.s from V", "no alias v"),
    ("select ^V.s from V W", "no alias V"),
    ("select ^Document.text from Document d", "no alias Document"),
    ("select ^A.s from V", "no alias A"),
    ("select ^\"a b\".s from V", "no alias a b"),
    ("select Sum(^W.i) as n from V", "no alias W"),
    (
        "select LeftContext(V.s, GetLength(^W.s)) as c from V",
        "no alias W",
    ),
    ("select V.s from V where ^W.b", "no alias W"),
    (
        "select V.s from V where V.b and Equals(V.i, ^W.i)",
        "no alias W",
    ),
    ("select V.s from V consolidate on ^W.s", "no alias W"),
    ("select V.s from V group by ^W.s", "no alias W"),
    ("select V.s from V order by ^W.s", "no alias W"),
    ("select V.s from V order by GetLength(^W.s)", "no alias W"),
    ("select N.s from V W, (select ^W.s from V) N", "no alias W"),
    ("select ^V.s from (select V.s from V) N", "no alias V"),
    ("extract ^W.s, regex /a/ on V.s as m from V", "no alias W"),
    ("extract regex /a/ on ^W.s as m from V", "no alias W"),
    (
        "extract regex /a/ on 2 tokens in ^W.s as m from V",
        "no alias W",
    ),
    ("extract dictionary D on ^W.s as m from V", "no alias W"),
    (
        "extract blocks with count 2 and separation 0 tokens on ^W.s as m from V",
        "no alias W",
    ),
    (
        "extract V.b, regex /a/ on V.s as m from V having ^V.b",
        "no alias V",
    ),
    (
        "extract V.s, regex /a/ on V.s as m from V consolidate on ^V.s",
        "no alias V",
    ),
    ("select ^s as x from V", "no alias s"),
    ("select V.s as x, GetText(^x) as y from V", "no alias x"),
    ("select V.b from V where ^b", "no alias b"),
    ("select Min(^i) as n from V", "no alias i"),
    (
        "extract ^s as x, regex /a/ on V.s as m from V",
        "no alias s",
    ),
];

/// The source has no such column; a bare name is no output column; an `order by` key is no item.
static UNKNOWN_COLUMNS: [(&str, &str); 38] = [
    ("select ^V.none from V", "no column none"),
    ("select ^V.S from V", "no column S"),
    ("select ^D.txt from Document D", "no column txt"),
    ("select ^N.t from (select V.s from V) N", "no column t"),
    ("select ^N.s from (select V.s as x from V) N", "no column s"),
    ("select ^V.text from V, Document D", "no column text"),
    ("select Max(^V.none) as n from V", "no column none"),
    (
        "select Not(Equals(1, ^V.none)) as x from V",
        "no column none",
    ),
    ("select V.s from V where ^V.none", "no column none"),
    ("select V.s from V consolidate on ^V.none", "no column none"),
    ("select V.s from V group by ^V.none", "no column none"),
    ("select V.s from V order by ^V.none", "no column none"),
    (
        "extract ^V.none, regex /a/ on V.s as m from V",
        "no column none",
    ),
    ("extract regex /a/ on ^V.none as m from V", "no column none"),
    (
        "extract regex /a/ on between 1 and 2 tokens in ^V.none return group 0 as m from V",
        "no column none",
    ),
    (
        "extract dictionary D with flags 'Exact' on ^V.none as m from V",
        "no column none",
    ),
    (
        "extract blocks with count 2 and separation 0 characters on ^V.none as m from V",
        "no column none",
    ),
    ("select V.s as x from V consolidate on ^s", "no column s"),
    (
        "select V.s as x from V consolidate on CombineSpans(x, ^s)",
        "no column s",
    ),
    ("select V.s as x from V group by ^s", "no column s"),
    (
        "select V.s as x from V group by V.s, GetText(^s)",
        "no column s",
    ),
    ("select V.s as x from V order by ^s", "no column s"),
    ("select V.s as x from V order by GetText(^s)", "no column s"),
    ("select V.s from V order by ^V.t", "no column t"),
    (
        "select GetText(V.s) as x from V order by ^V.s",
        "no column s",
    ),
    ("select V.s from V, V W order by ^W.s", "no column s"),
    (
        "select V.s from V order by ^GetText(V.s)",
        "no column order by",
    ),
    (
        "select GetLength(V.s) as n from V order by ^Equals(n, 1)",
        "no column order by",
    ),
    ("select V.i from V order by ^1", "no column order by"),
    ("select V.t from V order by ^'x'", "no column order by"),
    ("select V.t from V order by ^/x/", "no column order by"),
    (
        "select ContainsDict('D', V.s) as x from V order by ^ContainsDict('D', 'IgnoreCase', V.s)",
        "no column order by",
    ),
    (
        "select Count(*) as n from V order by n, ^V.i",
        "no column i",
    ),
    (
        "extract V.b as x, regex /a/ on V.s as m from V having ^b",
        "no column b",
    ),
    (
        "extract regex /a/ on V.s as m from V having Contains(m, ^s)",
        "no column s",
    ),
    (
        "extract regex /a/ on V.s as m from V consolidate on ^s",
        "no column s",
    ),
    (
        "extract dictionary D on V.s as m from V consolidate on SpanBetween(m, ^M)",
        "no column M",
    ),
    (
        "extract blocks with count 2 and separation 0 tokens on V.s as m from V having NotNull(^s)",
        "no column s",
    ),
];

/// An alias that an earlier source has, and an output name that an earlier column has.
static REPEATED: [(&str, &str); 26] = [
    ("select V.s from V, ^V", "alias V again"),
    ("select V.s from V a, V ^a", "alias a again"),
    ("select V.s from V a, V ^\"a\"", "alias a again"),
    ("select V.s from Document V, ^V", "alias V again"),
    ("select V.s from V, Document ^V", "alias V again"),
    ("select V.s from V, (select V.s from V) ^V", "alias V again"),
    ("select V.s from (select V.s from V) V, ^V", "alias V again"),
    (
        "select V.s from V, Document, V W, ^Document, V",
        "alias Document again",
    ),
    ("select N.s from (select V.s from V, ^V) N", "alias V again"),
    (
        "extract regex /a/ on N.s as m from (select V.s from V a, V b, V ^b) N",
        "alias b again",
    ),
    (
        "(select V.s from V) union all (select V.s from V, Document ^V)",
        "alias V again",
    ),
    ("select V.s, ^V.s from V", "column s again"),
    ("select V.s, ^W.s from V, V W", "column s again"),
    ("select V.s, V.t as ^s from V", "column s again"),
    ("select V.t as s, ^V.s from V", "column s again"),
    (
        "select V.s as x, V.t as y, V.i as ^\"x\" from V",
        "column x again",
    ),
    (
        "select Count(*) as n, Max(V.i) as ^n from V",
        "column n again",
    ),
    (
        "select N.s from (select V.s, ^V.s from V) N",
        "column s again",
    ),
    (
        "(select V.s from V) minus (select V.s, 1 as ^s from V)",
        "column s again",
    ),
    (
        "extract V.s, ^V.s, regex /a/ on V.s as m from V",
        "column s again",
    ),
    (
        "extract V.s, regex /a/ on V.s as ^s from V",
        "column s again",
    ),
    (
        "extract 1 as m, regex /a/ on 1 token in V.s as ^m from V",
        "column m again",
    ),
    (
        "extract regex /(a)/ on V.s return group 0 as m and group 1 as ^m from V",
        "column m again",
    ),
    (
        "extract V.s, regex /(a)/ on V.s return group 0 as m and group 1 as ^s from V",
        "column s again",
    ),
    (
        "extract V.s, dictionary D on V.s as ^s from V",
        "column s again",
    ),
    (
        "extract V.s as m, dictionary 'D' with flags 'IgnoreCase' on V.s as ^m from V",
        "column m again",
    ),
];

#[test]
fn an_alias_that_no_source_has_is_refused_wherever_it_stands(rt: HostRuntime) -> Result<(), Fail> {
    has_faults(&rt, rt.alloc(), &UNKNOWN_ALIASES)
}

#[test]
fn a_name_that_is_no_column_is_refused_wherever_it_stands(rt: HostRuntime) -> Result<(), Fail> {
    has_faults(&rt, rt.alloc(), &UNKNOWN_COLUMNS)
}

#[test]
fn an_alias_or_a_column_that_comes_again_is_refused(rt: HostRuntime) -> Result<(), Fail> {
    has_faults(&rt, rt.alloc(), &REPEATED)
}
