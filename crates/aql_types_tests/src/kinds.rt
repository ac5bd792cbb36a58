//! Clauses that are of another kind than wanted.

use crate::marks::has_faults;
use std::test::Fail;

/// Clauses of another kind than wanted, at their expression, which may be a bare name.
static KINDS_OF_CLAUSES: [(&str, &str); 36] = [
    ("select ^/a/ as x from V", "wanted Any, found Pattern"),
    ("select V.s, ^/a/ as x from V", "wanted Any, found Pattern"),
    (
        "extract ^/a/ as x, regex /a/ on V.s as m from V",
        "wanted Any, found Pattern",
    ),
    (
        "select V.s from V where ^V.i",
        "wanted Boolean, found Integer",
    ),
    (
        "select V.s from V where V.b and ^V.s",
        "wanted Boolean, found Span",
    ),
    (
        "select V.s from V where ^'true'",
        "wanted Boolean, found Text",
    ),
    (
        "select V.s from V where ^/a/",
        "wanted Boolean, found Pattern",
    ),
    (
        "select V.s from V where ^GetText(V.s)",
        "wanted Boolean, found Text",
    ),
    (
        "select V.s from V consolidate on ^V.t",
        "wanted Span, found Text",
    ),
    (
        "select V.s from V consolidate on ^/a/",
        "wanted Span, found Pattern",
    ),
    (
        "select V.s from V consolidate on ^1",
        "wanted Span, found Integer",
    ),
    (
        "select V.i as x from V consolidate on ^x",
        "wanted Span, found Integer",
    ),
    (
        "select V.b as x from V consolidate on LeftContext(V.s, ^x)",
        "wanted Integer, found Boolean",
    ),
    (
        "select V.s from V group by V.s, ^/a/",
        "wanted Any, found Pattern",
    ),
    (
        "select V.t as x from V group by V.t, GetLength(^x)",
        "wanted Span, found Text",
    ),
    (
        "select V.t as x from V order by GetLength(^x)",
        "wanted Span, found Text",
    ),
    (
        "extract regex /a/ on ^V.t as m from V",
        "wanted Span, found Text",
    ),
    (
        "extract regex /a/ on 1 token in ^V.i as m from V",
        "wanted Span, found Integer",
    ),
    (
        "extract dictionary D on ^V.b as m from V",
        "wanted Span, found Boolean",
    ),
    (
        "extract blocks with count 2 and separation 0 tokens on ^V.t as m from V",
        "wanted Span, found Text",
    ),
    (
        "extract regex /a/ on V.s as m from V having ^m",
        "wanted Boolean, found Span",
    ),
    (
        "extract V.i, regex /a/ on V.s as m from V having Equals(m, m) and ^i",
        "wanted Boolean, found Integer",
    ),
    (
        "extract regex /a/ on V.s as m from V having GreaterThan(^m, 1)",
        "wanted Integer, found Span",
    ),
    (
        "extract V.t, regex /a/ on V.s as m from V consolidate on ^t",
        "wanted Span, found Text",
    ),
    (
        "extract dictionary D on V.s as m from V consolidate on ^GetLength(m)",
        "wanted Span, found Integer",
    ),
    (
        "extract blocks with count 2 and separation 0 tokens on V.s as m from V consolidate on ^GetText(m)",
        "wanted Span, found Text",
    ),
    (
        "select GetLength(V.s) as x from V group by Follows(V.s, V.s, ^x, 1), x",
        "wanted Number, found Integer",
    ),
    (
        "select V.t as x from V group by ContainsDict(^x, V.s), x",
        "wanted Dictionary, found Text",
    ),
    (
        "select 'N' as x from V group by MatchesDict(^x, V.s), x",
        "wanted Dictionary, found Text",
    ),
    (
        "select 'exact' as x from V group by MatchesDict('D', ^x, V.s), x",
        "wanted Dictionary, found Text",
    ),
    (
        "select 'N' as x from V consolidate on LeftContext(V.s, ^x)",
        "wanted Integer, found Text",
    ),
    (
        "select 'N' as x from V order by ContainsDict(^x, V.s)",
        "wanted Dictionary, found Text",
    ),
    (
        "extract 1 as x, regex /a/ on V.s as m from V having Follows(m, m, ^x, 1)",
        "wanted Number, found Integer",
    ),
    (
        "extract 'D' as x, regex /a/ on V.s as m from V having ContainsDict(^x, m)",
        "wanted Dictionary, found Text",
    ),
    (
        "select N.x from (select V.s as x from V where ^V.i) N",
        "wanted Boolean, found Integer",
    ),
    (
        "(select V.s from V) minus (select V.s from V consolidate on ^V.t)",
        "wanted Span, found Text",
    ),
];

#[test]
fn each_clause_of_another_kind_is_refused(rt: HostRuntime) -> Result<(), Fail> {
    has_faults(&rt, rt.alloc(), &KINDS_OF_CLAUSES)
}
