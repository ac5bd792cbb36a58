//! Programs with several faults: which is told.

use crate::marks::{has_fault, has_faults};
use std::test::Fail;

/// Selects with a fault in one part and in each part behind it, in the order of checking.
static PARTS_OF_A_SELECT: [(&str, &str); 12] = [
    (
        "select W.s, 1 as n, 2 as n from (select ^W.s from V) a, (select Z.s from V) b, V a where V.i consolidate on 1 using 'Best' group by V.none order by V.u limit -1",
        "no alias W",
    ),
    (
        "select W.s, 1 as n, 2 as n from V a, (select ^Z.s from V) b, V a where V.i consolidate on 1 using 'Best' group by V.none order by V.u limit -1",
        "no alias Z",
    ),
    (
        "select W.s, 1 as n, 2 as n from V, V ^V where V.i consolidate on 1 using 'Best' group by V.none order by V.u limit -1",
        "alias V again",
    ),
    (
        "select 1 as n, 2 as n, ^W.s from V where V.i consolidate on 1 using 'Best' group by V.none order by V.u limit -1",
        "no alias W",
    ),
    (
        "select 1 as n, 2 as ^n from V where V.i consolidate on 1 using 'Best' group by V.none order by V.u limit -1",
        "column n again",
    ),
    (
        "select 1 as n from V where ^V.i consolidate on 1 using 'Best' group by V.none order by V.u limit -1",
        "wanted Boolean, found Integer",
    ),
    (
        "select 1 as n from V consolidate on ^1 using 'Best' group by V.none order by V.u limit -1",
        "wanted Span, found Integer",
    ),
    (
        "select 1 as n from V consolidate on V.s using ^'Best' group by V.none order by V.u limit -1",
        "no policy Best",
    ),
    (
        "select 1 as n from V group by ^V.none order by V.u limit -1",
        "no column none",
    ),
    (
        "select ^1 as n from V group by V.t order by V.u limit -1",
        "not grouped",
    ),
    ("select 1 as n from V order by ^V.u limit -1", "no column u"),
    (
        "select 1 as n from V order by n limit ^-1",
        "range -1 to -1",
    ),
];

/// Extractions with a fault in one part and in each part behind it, in the order of checking.
static PARTS_OF_AN_EXTRACTION: [(&str, &str); 18] = [
    (
        "extract N.none, regex /(/ on 0 tokens in N.u return group 1 as m and group 2 as m from (select ^W.s from V) N having 1 consolidate on 1 using 'Best' limit -1",
        "no alias W",
    ),
    (
        "extract ^V.none, regex /(/ on 0 tokens in V.u return group 1 as m and group 2 as m from V having 1 consolidate on 1 using 'Best' limit -1",
        "no column none",
    ),
    (
        "extract regex /(/ on 0 tokens in ^V.u return group 1 as m and group 2 as m from V having 1 consolidate on 1 using 'Best' limit -1",
        "no column u",
    ),
    (
        "extract regex /(/ on 0 tokens in ^V.t return group 1 as m and group 2 as m from V having 1 consolidate on 1 using 'Best' limit -1",
        "wanted Span, found Text",
    ),
    (
        "extract regex ^/(/ on 0 tokens in V.s return group 1 as m and group 2 as m from V having 1 consolidate on 1 using 'Best' limit -1",
        "bad pattern",
    ),
    (
        "extract regex ^/a{99}{99}/ on 0 tokens in V.s return group 1 as m and group 2 as m from V having 1 consolidate on 1 using 'Best' limit -1",
        "pattern too large: 9 bytes, weight 9801",
    ),
    (
        "extract regex /a/ on ^0 tokens in V.s return group 1 as m and group 2 as m from V having 1 consolidate on 1 using 'Best' limit -1",
        "range 0 to 0",
    ),
    (
        "extract regex /a/ on V.s return group ^1 as m and group 2 as m from V having 1 consolidate on 1 using 'Best' limit -1",
        "no group 1",
    ),
    (
        "extract regex /(a)/ on V.s return group 1 as m and group ^2 as m from V having 1 consolidate on 1 using 'Best' limit -1",
        "no group 2",
    ),
    (
        "extract regex /(a)/ on V.s return group 1 as m and group 0 as ^m from V having 1 consolidate on 1 using 'Best' limit -1",
        "column m again",
    ),
    (
        "extract dictionary D on V.s as m from V having ^1 consolidate on 1 using 'Best' limit -1",
        "wanted Boolean, found Integer",
    ),
    (
        "extract dictionary D on V.s as m from V consolidate on ^1 using 'Best' limit -1",
        "wanted Span, found Integer",
    ),
    (
        "extract dictionary D on V.s as m from V consolidate on m using ^'Best' limit -1",
        "no policy Best",
    ),
    (
        "extract dictionary D on V.s as m from V consolidate on m limit ^-1",
        "range -1 to -1",
    ),
    (
        "extract V.s as m, dictionary D on ^V.t as m from V",
        "wanted Span, found Text",
    ),
    (
        "extract blocks with count 0 and separation -1 tokens on ^V.t as m from V having 1",
        "wanted Span, found Text",
    ),
    (
        "extract blocks with count ^0 and separation -1 tokens on V.s as m from V having 1",
        "range 0 to 0",
    ),
    (
        "extract blocks with count 1 and separation ^-1 tokens on V.s as m from V having 1",
        "range -1 to -1",
    ),
];

/// Calls with several faults: all arguments by themselves, the name, the kinds, the range.
static PARTS_OF_A_CALL: [(&str, &str); 21] = [
    ("select None(^V.none, W.s) as x from V", "no column none"),
    ("select None(1, ^W.s, V.none) as x from V", "no alias W"),
    (
        "select LeftContext(3, ^V.none) as x from V",
        "no column none",
    ),
    (
        "select GetText(/a/, GetText(^1)) as x from V",
        "wanted Span, found Integer",
    ),
    (
        "select ^None(/a/, GetText(V.s)) as x from V",
        "no function None",
    ),
    (
        "select Follows(^1, 'a', 9, 1) as x from V",
        "wanted Span, found Integer",
    ),
    (
        "select Follows(V.s, ^'a', V.i, 1) as x from V",
        "wanted Span, found Text",
    ),
    (
        "select Follows(V.s, V.s, ^V.i, 'a') as x from V",
        "wanted Number, found Integer",
    ),
    (
        "select Follows(V.s, ^V.t, 9, 1) as x from V",
        "wanted Span, found Text",
    ),
    (
        "select Follows(V.s, V.s, 9, 1, ^V.s) as x from V",
        "wanted Nothing, found Span",
    ),
    (
        "select CombineSpans(^1) as x from V",
        "wanted Span, found Integer",
    ),
    (
        "select GetText(^1, 'a') as x from V",
        "wanted Span, found Integer",
    ),
    ("select Equals(/a/, ^/(/) as x from V", "bad pattern"),
    (
        "select Equals(^/a/, /b/) as x from V",
        "wanted Any, found Pattern",
    ),
    (
        "select ContainsDict(^1, 1) as x from V",
        "wanted Dictionary, found Integer",
    ),
    (
        "select MatchesDict('D', ^'exact', V.t) as x from V",
        "wanted Dictionary, found Text",
    ),
    ("select And(1, ^V.none) as x from V", "no column none"),
    ("select Sum(^V.none, W.s) as x from V", "no column none"),
    ("select Sum(V.s, ^W.s) as x from V", "no alias W"),
    (
        "select Sum(^V.s, 1) as x from V",
        "wanted Integer, found Span",
    ),
    (
        "select Not(GetText(Follows(V.s, ^V.t, 9, 1))) as x from V",
        "wanted Span, found Text",
    ),
];

/// Two faults in one part, and faults of sides: from the left, each whole.
static FROM_THE_LEFT: [(&str, &str); 20] = [
    ("select ^V.none, W.s from V", "no column none"),
    ("select ^W.s, V.none from V", "no alias W"),
    (
        "select ^/a/ as x, V.none from V",
        "wanted Any, found Pattern",
    ),
    (
        "select 1 as a, 2 as b, 3 as ^b, 4 as a from V",
        "column b again",
    ),
    ("select V.s from V a, V b, V ^b, V a", "alias b again"),
    (
        "select V.s from V where ^V.i and V.none",
        "wanted Boolean, found Integer",
    ),
    ("select V.s from V where ^V.none and V.i", "no column none"),
    (
        "select V.s from V group by ^/a/, V.none",
        "wanted Any, found Pattern",
    ),
    ("select V.s from V group by V.t, ^V.none", "no column none"),
    ("select ^V.s, V.i from V group by V.t", "not grouped"),
    ("select V.s from V order by ^V.t, W.s", "no column t"),
    ("select V.s from V order by ^W.s, V.t", "no alias W"),
    (
        "extract ^/a/ as x, V.none, regex /a/ on V.s as m from V",
        "wanted Any, found Pattern",
    ),
    (
        "extract regex /a/ on V.s as m from V having ^m and x",
        "wanted Boolean, found Span",
    ),
    (
        "(select V.s, V.t from V) union all (select ^V.none from V) union all (select W.s from V)",
        "no column none",
    ),
    (
        "(select V.s from V) union all (select V.t from V) union all (select ^W.s from V)",
        "no alias W",
    ),
    (
        "(select ^V.none from V) minus (select W.s from V)",
        "no column none",
    ),
    (
        "(select V.s from V) minus (select V.t from V limit ^-1)",
        "range -1 to -1",
    ),
    (
        "select V.s from ((select V.s from V) minus (^select V.t from V)) N, (select W.s from V) N",
        "schemas differ",
    ),
    (
        "((select V.s from V) minus (^select V.t from V)) union all (select W.s from V)",
        "schemas differ",
    ),
];

/// Whole programs: views by rank and then by statement, wherever they stand, and rows of worked examples.
static PROGRAMS: [(&str, &str); 27] = [
    (
        "create view A as select ^D.txt from Document D; output view A;",
        "no column txt",
    ),
    (
        "create view P as extract regex ^/(/ on D.text as n from Document D;",
        "bad pattern",
    ),
    (
        "create view P as extract regex ^/a{1000}{1000}/ on D.text as n from Document D;",
        "pattern too large: 13 bytes, weight 1000000",
    ),
    (
        "create view T as extract regex /a/ on between ^3 and 1 tokens in D.text as t from Document D;",
        "range 3 to 1",
    ),
    (
        "create view P as extract regex ^/a{99}{99}/ on D.text as n from Document D;",
        "pattern too large: 9 bytes, weight 9801",
    ),
    (
        "create view A as select GetLength(^3) as n from Document D;",
        "wanted Span, found Integer",
    ),
    (
        "create view P as extract regex /[0-9]+/ on D.text as num from Document D; create view G as select ^P.num, Count(*) as n from P;",
        "not grouped",
    ),
    (
        "create view A as select B.no from B; create view B as select ^D.no from Document D;",
        "no column no",
    ),
    (
        "create view A as select ^D.no from Document D; create view B as select E.text from Document D;",
        "no column no",
    ),
    (
        "create view C as select B.x, C.x from B; create view B as select A.x, B.x from A; create view A as select D.text as x, ^A.x from Document D;",
        "no alias A",
    ),
    (
        "create view C as select A.no from A; create view B as select D.text from Document D; create view A as select ^D.no from Document D; create view E as select D.ne from Document D;",
        "no column no",
    ),
    (
        "create view A as select N.no from (select B.no from B) N; create view B as select ^D.no from Document D;",
        "no column no",
    ),
    (
        "create view A as select D.text as x from Document D; create view B as select A.x as y, ^A.text as z from A;",
        "no column text",
    ),
    (
        "create view B as select GetText(^A.n) as t from A; create view A as select GetLength(D.text) as n from Document D;",
        "wanted Span, found Integer",
    ),
    (
        "create view A as select Max(GetText(D.text)) as m, Count(*) as n from Document D; create view B as select GetText(^A.m) as t from A;",
        "wanted Span, found Text",
    ),
    (
        "create view A as select Count(D.text) as n from Document D; create view B as select A.n from A where ^A.n;",
        "wanted Boolean, found Integer",
    ),
    (
        "create view A as extract Equals(1, 1) as b, regex /a/ on D.text as m from Document D; create view B as select A.m from A, A C where C.b and ^C.m;",
        "wanted Boolean, found Span",
    ),
    (
        "create view A as (select D.text as x from Document D) union all (select D.text as x from Document D); create view B as select Sum(^A.x) as n from A;",
        "wanted Integer, found Span",
    ),
    (
        "create dictionary A as ('x'); create view A as select D.text as x from Document D; create view B as select ^A.text as y from A;",
        "no column text",
    ),
    (
        "create view A as extract regex /a/ on ^D.text as m from Document;",
        "no alias D",
    ),
    (
        "module m; require document with columns text Text; export view A; output view A; create dictionary D as ('x'); create view A as select ^D.no from Document D;",
        "no column no",
    ),
    (
        "create dictionary D as ('é', '日本'); /* ü */ create view A as select ^D.no from Document D;",
        "no column no",
    ),
    (
        "\u{feff}-- a view\ncreate view A as\n\tselect\r\n\t\t^D . no\nfrom Document D;",
        "no column no",
    ),
    (
        "create view \"A b\" as select D.text as \"x y\" from Document D; create view B as select ^\"A b\".\"x z\" from \"A b\";",
        "no column x z",
    ),
    (
        "create view \"A b\" as select D.text as \"é\" from Document D; create view B as select Document.\"é\" from \"A b\" Document, ^\"Document\";",
        "alias Document again",
    ),
    (
        "CREATE VIEW A AS SELECT ^d.TEXT FROM Document d;",
        "no column TEXT",
    ),
    (
        "create view A as select D.text from Document D where ^\"D\".no; output view A; output view Document;",
        "no column no",
    ),
];

#[test]
fn the_parts_of_a_select_are_checked_in_one_order(rt: HostRuntime) -> Result<(), Fail> {
    has_faults(&rt, rt.alloc(), &PARTS_OF_A_SELECT)
}

#[test]
fn the_parts_of_an_extraction_are_checked_in_one_order(rt: HostRuntime) -> Result<(), Fail> {
    has_faults(&rt, rt.alloc(), &PARTS_OF_AN_EXTRACTION)
}

#[test]
fn the_parts_of_a_call_are_checked_in_one_order(rt: HostRuntime) -> Result<(), Fail> {
    has_faults(&rt, rt.alloc(), &PARTS_OF_A_CALL)
}

#[test]
fn what_stands_on_the_left_is_told_first(rt: HostRuntime) -> Result<(), Fail> {
    has_faults(&rt, rt.alloc(), &FROM_THE_LEFT)
}

#[test]
fn views_are_checked_by_rank_and_then_by_statement(rt: HostRuntime) -> Result<(), Fail> {
    let alloc = rt.alloc();
    for (program, rule) in &PROGRAMS {
        has_fault(&rt, alloc, program, rule)?;
    }
    Ok(())
}
