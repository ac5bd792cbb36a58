//! Faults of calls: functions that there aren't, and arguments of another kind than wanted.

use crate::marks::has_faults;
use std::test::Fail;

/// There is no such function, at each place of a call; an aggregate is no whole item of a select; a `*`
/// stands in another call than `Count`; a bare name stands for an aggregate.
static UNKNOWN_FUNCTIONS: [(&str, &str); 46] = [
    ("select ^None(V.s) as x from V", "no function None"),
    (
        "select ^getlength(V.s) as x from V",
        "no function getlength",
    ),
    ("select ^count(V.s) as x from V", "no function count"),
    ("select ^Select() as x from V", "no function Select"),
    ("select V.t, ^and(V.b) as x from V", "no function and"),
    ("select Not(^None(V.s)) as x from V", "no function None"),
    (
        "select Equals(V.s, ^None()) as x from V",
        "no function None",
    ),
    ("select Max(^None(V.s)) as x from V", "no function None"),
    ("select V.s from V where ^None(V.s)", "no function None"),
    (
        "select V.s from V where V.b and Or(V.b, ^None())",
        "no function None",
    ),
    (
        "select V.s from V consolidate on ^None(V.s)",
        "no function None",
    ),
    ("select V.s from V group by ^None(V.s)", "no function None"),
    ("select V.s from V order by ^None(V.s)", "no function None"),
    (
        "select V.s from V order by GetLength(^None(s))",
        "no function None",
    ),
    (
        "select N.x from (select ^None(V.s) as x from V) N",
        "no function None",
    ),
    (
        "extract ^None(V.s) as x, regex /a/ on V.s as m from V",
        "no function None",
    ),
    (
        "extract regex /a/ on V.s as m from V having ^None(m)",
        "no function None",
    ),
    (
        "extract regex /a/ on V.s as m from V consolidate on ^None(m)",
        "no function None",
    ),
    ("select Not(^Max(V.b)) as x from V", "no function Max"),
    ("select Sum(^Sum(V.i)) as x from V", "no function Sum"),
    ("select Count(^Count(*)) as x from V", "no function Count"),
    ("select V.s from V where ^Max(V.b)", "no function Max"),
    (
        "select V.s from V where GreaterThan(^Count(*), 1)",
        "no function Count",
    ),
    (
        "select V.s from V consolidate on ^Max(V.s)",
        "no function Max",
    ),
    ("select V.s from V group by ^Min(V.s)", "no function Min"),
    ("select V.s from V group by ^Count(*)", "no function Count"),
    (
        "select Count(*) as n from V order by ^Count(*)",
        "no function Count",
    ),
    (
        "select Sum(V.i) as n from V order by ^Sum(V.i)",
        "no function Sum",
    ),
    (
        "extract ^Count(*) as n, regex /a/ on V.s as m from V",
        "no function Count",
    ),
    (
        "extract ^Min(V.i) as n, regex /a/ on V.s as m from V",
        "no function Min",
    ),
    (
        "extract regex /a/ on V.s as m from V having GreaterThan(^Count(m), 1)",
        "no function Count",
    ),
    (
        "extract regex /a/ on V.s as m from V consolidate on ^Max(m)",
        "no function Max",
    ),
    ("select ^Sum(*) as n from V", "no function Sum"),
    ("select ^Min(*) as n from V", "no function Min"),
    ("select V.s, ^GetText(*) as n from V", "no function GetText"),
    ("select ^None(*) as n from V", "no function None"),
    ("select GetText(^Max(*)) as n from V", "no function Max"),
    ("select V.s from V where ^Or(*)", "no function Or"),
    ("select V.s from V order by ^None(*)", "no function None"),
    (
        "select ^Count(*) as n from V group by n",
        "no function Count",
    ),
    (
        "select V.t, ^Max(V.s) as m from V group by V.t, m",
        "no function Max",
    ),
    (
        "select V.t, ^Min(V.s) as m from V group by V.t, GetText(m)",
        "no function Min",
    ),
    (
        "select ^Max(V.s) as m from V consolidate on m",
        "no function Max",
    ),
    (
        "select V.t, ^Count(V.s) as n from V consolidate on LeftContext(V.s, n) group by V.t",
        "no function Count",
    ),
    (
        "select ^Count(*) as n from V order by Equals(n, 1)",
        "no function Count",
    ),
    (
        "select ^Sum(V.i) as n from V order by Not(Equals(1, n))",
        "no function Sum",
    ),
];

/// Each function with each of its arguments of another kind than wanted.
static WRONG_ARGUMENTS: [(&str, &str); 62] = [
    (
        "select GetBegin(^V.t) as x from V",
        "wanted Span, found Text",
    ),
    (
        "select GetEnd(^V.i) as x from V",
        "wanted Span, found Integer",
    ),
    (
        "select GetLength(^V.b) as x from V",
        "wanted Span, found Boolean",
    ),
    (
        "select GetText(^GetText(V.s)) as x from V",
        "wanted Span, found Text",
    ),
    (
        "select GetText(^/a/) as x from V",
        "wanted Span, found Pattern",
    ),
    (
        "select CombineSpans(^V.t, V.s) as x from V",
        "wanted Span, found Text",
    ),
    (
        "select CombineSpans(V.s, ^1) as x from V",
        "wanted Span, found Integer",
    ),
    (
        "select SpanBetween(^'a', V.s) as x from V",
        "wanted Span, found Text",
    ),
    (
        "select SpanBetween(V.s, ^V.b) as x from V",
        "wanted Span, found Boolean",
    ),
    (
        "select LeftContext(^1, 1) as x from V",
        "wanted Span, found Integer",
    ),
    (
        "select LeftContext(V.s, ^V.s) as x from V",
        "wanted Integer, found Span",
    ),
    (
        "select RightContext(^V.t, 1) as x from V",
        "wanted Span, found Text",
    ),
    (
        "select RightContext(V.s, ^'1') as x from V",
        "wanted Integer, found Text",
    ),
    (
        "select LeftContextTok(^V.b, V.i) as x from V",
        "wanted Span, found Boolean",
    ),
    (
        "select LeftContextTok(V.s, ^V.b) as x from V",
        "wanted Integer, found Boolean",
    ),
    (
        "select RightContextTok(^/a/, V.i) as x from V",
        "wanted Span, found Pattern",
    ),
    (
        "select RightContextTok(V.s, ^/a/) as x from V",
        "wanted Integer, found Pattern",
    ),
    (
        "select Follows(^V.t, V.s, 0, 1) as x from V",
        "wanted Span, found Text",
    ),
    (
        "select Follows(V.s, ^V.t, 0, 1) as x from V",
        "wanted Span, found Text",
    ),
    (
        "select Follows(V.s, V.s, ^V.i, 1) as x from V",
        "wanted Number, found Integer",
    ),
    (
        "select Follows(V.s, V.s, 0, ^GetLength(V.s)) as x from V",
        "wanted Number, found Integer",
    ),
    (
        "select Follows(V.s, V.s, ^'0', 1) as x from V",
        "wanted Number, found Text",
    ),
    (
        "select FollowsTok(^1, V.s, 0, 1) as x from V",
        "wanted Span, found Integer",
    ),
    (
        "select FollowsTok(V.s, ^V.b, 0, 1) as x from V",
        "wanted Span, found Boolean",
    ),
    (
        "select FollowsTok(V.s, V.s, ^V.s, 1) as x from V",
        "wanted Number, found Span",
    ),
    (
        "select FollowsTok(V.s, V.s, 0, ^V.b) as x from V",
        "wanted Number, found Boolean",
    ),
    (
        "select Overlaps(^V.i, V.s) as x from V",
        "wanted Span, found Integer",
    ),
    (
        "select Overlaps(V.s, ^V.t) as x from V",
        "wanted Span, found Text",
    ),
    (
        "select Contains(^V.t, V.s) as x from V",
        "wanted Span, found Text",
    ),
    (
        "select Contains(V.s, ^'a') as x from V",
        "wanted Span, found Text",
    ),
    (
        "select Equals(^/a/, 1) as x from V",
        "wanted Any, found Pattern",
    ),
    (
        "select Equals(V.s, ^V.t) as x from V",
        "wanted Span, found Text",
    ),
    (
        "select Equals(V.b, ^1) as x from V",
        "wanted Boolean, found Integer",
    ),
    (
        "select Equals(1, ^/a/) as x from V",
        "wanted Any, found Pattern",
    ),
    (
        "select GreaterThan(^V.s, 1) as x from V",
        "wanted Integer, found Span",
    ),
    (
        "select GreaterThan(1, ^V.t) as x from V",
        "wanted Integer, found Text",
    ),
    (
        "select NotNull(^/a/) as x from V",
        "wanted Any, found Pattern",
    ),
    (
        "select ContainsRegex(^'a', V.s) as x from V",
        "wanted Pattern, found Text",
    ),
    (
        "select ContainsRegex(/a/, ^1) as x from V",
        "wanted SpanOrText, found Integer",
    ),
    (
        "select MatchesRegex(^V.s, V.s) as x from V",
        "wanted Pattern, found Span",
    ),
    (
        "select MatchesRegex(/a/, ^V.b) as x from V",
        "wanted SpanOrText, found Boolean",
    ),
    (
        "select ContainsDict(^V.t, V.s) as x from V",
        "wanted Dictionary, found Text",
    ),
    (
        "select ContainsDict('D', ^V.t) as x from V",
        "wanted Span, found Text",
    ),
    (
        "select ContainsDict('D', ^'Exact') as x from V",
        "wanted Span, found Text",
    ),
    (
        "select ContainsDict('D', ^'exact', V.s) as x from V",
        "wanted Dictionary, found Text",
    ),
    (
        "select ContainsDict('D', ^V.t, V.s) as x from V",
        "wanted Dictionary, found Text",
    ),
    (
        "select ContainsDict('D', ^V.s, V.s) as x from V",
        "wanted Dictionary, found Span",
    ),
    (
        "select ContainsDict('D', 'Exact', ^1) as x from V",
        "wanted Span, found Integer",
    ),
    (
        "select MatchesDict(^1, V.s) as x from V",
        "wanted Dictionary, found Integer",
    ),
    (
        "select MatchesDict(^/a/, 'Exact', V.s) as x from V",
        "wanted Dictionary, found Pattern",
    ),
    (
        "select MatchesDict('D', ^1) as x from V",
        "wanted Span, found Integer",
    ),
    (
        "select MatchesDict('D', ^'D', V.s) as x from V",
        "wanted Dictionary, found Text",
    ),
    (
        "select MatchesDict('D', 'IgnoreCase', ^V.t) as x from V",
        "wanted Span, found Text",
    ),
    (
        "select Not(^1) as x from V",
        "wanted Boolean, found Integer",
    ),
    ("select And(^V.s) as x from V", "wanted Boolean, found Span"),
    (
        "select And(V.b, V.b, ^'a', V.b) as x from V",
        "wanted Boolean, found Text",
    ),
    (
        "select Or(V.b, ^/a/) as x from V",
        "wanted Boolean, found Pattern",
    ),
    ("select Sum(^V.s) as x from V", "wanted Integer, found Span"),
    ("select Sum(^'1') as x from V", "wanted Integer, found Text"),
    (
        "select Count(^/a/) as x from V",
        "wanted Any, found Pattern",
    ),
    ("select Min(^/a/) as x from V", "wanted Any, found Pattern"),
    ("select Max(^/a/) as x from V", "wanted Any, found Pattern"),
];

/// Arguments that are missing, at the call, or too many, each at itself.
static COUNTS_OF_ARGUMENTS: [(&str, &str); 42] = [
    (
        "select ^GetBegin() as x from V",
        "wanted Span, found Nothing",
    ),
    (
        "select GetBegin(V.s, ^V.s) as x from V",
        "wanted Nothing, found Span",
    ),
    ("select ^GetEnd() as x from V", "wanted Span, found Nothing"),
    (
        "select ^GetLength() as x from V",
        "wanted Span, found Nothing",
    ),
    (
        "select GetText(V.s, ^1, 'a') as x from V",
        "wanted Nothing, found Integer",
    ),
    (
        "select ^CombineSpans(V.s) as x from V",
        "wanted Span, found Nothing",
    ),
    (
        "select CombineSpans(V.s, V.s, ^'a') as x from V",
        "wanted Nothing, found Text",
    ),
    (
        "select ^SpanBetween() as x from V",
        "wanted Span, found Nothing",
    ),
    (
        "select ^LeftContext(V.s) as x from V",
        "wanted Integer, found Nothing",
    ),
    (
        "select RightContext(V.s, 1, ^V.b) as x from V",
        "wanted Nothing, found Boolean",
    ),
    (
        "select ^LeftContextTok() as x from V",
        "wanted Span, found Nothing",
    ),
    (
        "select RightContextTok(V.s, 1, ^/a/) as x from V",
        "wanted Nothing, found Pattern",
    ),
    (
        "select ^Follows(V.s) as x from V",
        "wanted Span, found Nothing",
    ),
    (
        "select ^Follows(V.s, V.s) as x from V",
        "wanted Number, found Nothing",
    ),
    (
        "select ^Follows(V.s, V.s, 0) as x from V",
        "wanted Number, found Nothing",
    ),
    (
        "select Follows(V.s, V.s, 0, 1, ^2) as x from V",
        "wanted Nothing, found Integer",
    ),
    (
        "select ^FollowsTok(V.s, V.s, 3) as x from V",
        "wanted Number, found Nothing",
    ),
    (
        "select FollowsTok(V.s, V.s, 0, 1, ^V.t) as x from V",
        "wanted Nothing, found Text",
    ),
    (
        "select ^Overlaps(V.s) as x from V",
        "wanted Span, found Nothing",
    ),
    (
        "select Contains(V.s, V.s, ^V.s) as x from V",
        "wanted Nothing, found Span",
    ),
    ("select ^Equals() as x from V", "wanted Any, found Nothing"),
    (
        "select ^Equals(V.t) as x from V",
        "wanted Text, found Nothing",
    ),
    (
        "select ^Equals(1) as x from V",
        "wanted Integer, found Nothing",
    ),
    (
        "select Equals(1, 1, ^1) as x from V",
        "wanted Nothing, found Integer",
    ),
    (
        "select ^GreaterThan(1) as x from V",
        "wanted Integer, found Nothing",
    ),
    ("select ^NotNull() as x from V", "wanted Any, found Nothing"),
    (
        "select NotNull(1, ^1) as x from V",
        "wanted Nothing, found Integer",
    ),
    (
        "select ^ContainsRegex() as x from V",
        "wanted Pattern, found Nothing",
    ),
    (
        "select ^MatchesRegex(/a/) as x from V",
        "wanted SpanOrText, found Nothing",
    ),
    (
        "select MatchesRegex(/a/, V.s, ^'a') as x from V",
        "wanted Nothing, found Text",
    ),
    (
        "select ^ContainsDict() as x from V",
        "wanted Dictionary, found Nothing",
    ),
    (
        "select ^ContainsDict('D') as x from V",
        "wanted Span, found Nothing",
    ),
    (
        "select MatchesDict('D', 'Exact', V.s, ^V.s) as x from V",
        "wanted Nothing, found Span",
    ),
    ("select ^Not() as x from V", "wanted Boolean, found Nothing"),
    (
        "select Not(V.b, ^V.b) as x from V",
        "wanted Nothing, found Boolean",
    ),
    ("select ^And() as x from V", "wanted Boolean, found Nothing"),
    ("select ^Or() as x from V", "wanted Boolean, found Nothing"),
    ("select ^Count() as x from V", "wanted Any, found Nothing"),
    (
        "select Count(V.s, ^V.t) as x from V",
        "wanted Nothing, found Text",
    ),
    ("select ^Sum() as x from V", "wanted Integer, found Nothing"),
    ("select ^Min() as x from V", "wanted Any, found Nothing"),
    (
        "select Max(1, ^/a/) as x from V",
        "wanted Nothing, found Pattern",
    ),
];

#[test]
fn a_function_that_there_is_not_is_refused_wherever_it_stands(rt: HostRuntime) -> Result<(), Fail> {
    has_faults(&rt, rt.alloc(), &UNKNOWN_FUNCTIONS)
}

#[test]
fn each_argument_of_another_kind_is_refused(rt: HostRuntime) -> Result<(), Fail> {
    has_faults(&rt, rt.alloc(), &WRONG_ARGUMENTS)
}

#[test]
fn missing_and_surplus_arguments_are_refused(rt: HostRuntime) -> Result<(), Fail> {
    has_faults(&rt, rt.alloc(), &COUNTS_OF_ARGUMENTS)
}
