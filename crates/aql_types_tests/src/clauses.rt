//! Faults of clauses: schemas, groups, ranges, policies, patterns and their groups.

use crate::marks::{has_fault, has_faults};
use std::test::Fail;

/// Two sides differ in a column's name or kind, in their order, or in how many there are.
static SCHEMAS: [(&str, &str); 17] = [
    (
        "(select V.s from V) union all (^select V.s as x from V)",
        "schemas differ",
    ),
    (
        "(select V.s from V) union all (^select V.t as s from V)",
        "schemas differ",
    ),
    (
        "(select V.s from V) union all (^select V.s as S from V)",
        "schemas differ",
    ),
    (
        "(select V.s, V.t from V) union all (^select V.t, V.s from V)",
        "schemas differ",
    ),
    (
        "(select V.s, V.t from V) union all (^select V.s from V)",
        "schemas differ",
    ),
    (
        "(select V.s from V) union all (^select V.s, V.t from V)",
        "schemas differ",
    ),
    (
        "(select V.i from V) union all (^select V.b as i from V)",
        "schemas differ",
    ),
    (
        "(select V.s from V) union all (select V.s from V) union all (^select V.t from V)",
        "schemas differ",
    ),
    (
        "(select V.s from V) union all (^select V.t from V) union all (select V.i from V)",
        "schemas differ",
    ),
    (
        "(select V.s from V) union all (^extract regex /a/ on V.s as m from V)",
        "schemas differ",
    ),
    (
        "(extract regex /a/ on V.s as m from V) union all (^extract V.t, regex /a/ on V.s as m from V)",
        "schemas differ",
    ),
    (
        "(select V.s from V) union all ((^select V.t from V) union all (select V.t from V))",
        "schemas differ",
    ),
    (
        "(select V.s from V) minus (^select V.t from V)",
        "schemas differ",
    ),
    (
        "(select V.s, 1 as n from V) minus (^select 1 as n, V.s from V)",
        "schemas differ",
    ),
    (
        "(select V.s from V) minus ((^extract dictionary D on V.s as m from V) minus (select V.s as m from V))",
        "schemas differ",
    ),
    (
        "select N.s from (select V.s from V) M, ((select V.s from V) minus (^select V.t from V)) N",
        "schemas differ",
    ),
    (
        "(select Count(*) as n from V) union all (^select Max(V.s) as n from V)",
        "schemas differ",
    ),
];

/// A select groups, and an item is neither an aggregate nor equal to a key.
static UNGROUPED: [(&str, &str); 17] = [
    ("select ^V.s, Count(*) as n from V", "not grouped"),
    ("select Count(*) as n, ^V.s from V", "not grouped"),
    ("select Sum(V.i) as n, ^V.i from V", "not grouped"),
    ("select Min(V.s) as n, ^1 as one from V", "not grouped"),
    ("select ^V.s from V group by V.t", "not grouped"),
    ("select V.t, ^V.s from V group by V.t", "not grouped"),
    (
        "select V.t, ^GetText(V.s) as x from V group by V.t, V.s",
        "not grouped",
    ),
    ("select ^V.s from V group by GetText(V.s)", "not grouped"),
    (
        "select V.t, ^GetLength(V.s) as n from V group by t",
        "not grouped",
    ),
    ("select ^V.s as x from V, V W group by W.s", "not grouped"),
    ("select ^V.t as x from V group by 'x'", "not grouped"),
    ("select ^2 as x from V group by 1", "not grouped"),
    (
        "select ^2 as x from V group by Follows(V.s, V.s, x, 3)",
        "not grouped",
    ),
    (
        "select ^ContainsDict('D', V.s) as x from V group by ContainsDict('D', 'IgnoreCase', V.s)",
        "not grouped",
    ),
    (
        "select ^MatchesRegex(/a/, V.s) as x from V group by MatchesRegex(/b/, V.s)",
        "not grouped",
    ),
    (
        "select N.s from (select ^V.s, Count(*) as n from V) N",
        "not grouped",
    ),
    (
        "(select V.s from V) union all (select Max(V.s) as m, ^V.s from V)",
        "not grouped",
    ),
];

/// Ranges and limits out of their bounds.
static RANGES: [(&str, &str); 39] = [
    (
        "extract regex /a/ on ^0 tokens in V.s as m from V",
        "range 0 to 0",
    ),
    (
        "extract regex /a/ on ^-2 tokens in V.s as m from V",
        "range -2 to -2",
    ),
    (
        "extract regex /a/ on ^1001 tokens in V.s as m from V",
        "range 1001 to 1001",
    ),
    (
        "extract regex /a/ on between ^0 and 1 tokens in V.s as m from V",
        "range 0 to 1",
    ),
    (
        "extract regex /a/ on between ^1 and 1001 tokens in V.s as m from V",
        "range 1 to 1001",
    ),
    (
        "extract regex /a/ on between ^3 and 1 tokens in V.s as m from V",
        "range 3 to 1",
    ),
    (
        "extract regex /a/ on between ^-1 and 0 tokens in V.s return group 0 as m from V",
        "range -1 to 0",
    ),
    (
        "extract regex /a/ on between ^1 and 9223372036854775807 tokens in V.s as m from V",
        "range 1 to 9223372036854775807",
    ),
    (
        "extract regex /a/ on between ^-9223372036854775808 and 1 tokens in V.s as m from V",
        "range -9223372036854775808 to 1",
    ),
    (
        "extract blocks with count ^0 and separation 0 tokens on V.s as m from V",
        "range 0 to 0",
    ),
    (
        "extract blocks with count ^1001 and separation 0 tokens on V.s as m from V",
        "range 1001 to 1001",
    ),
    (
        "extract blocks with count between ^2 and 1 and separation 0 tokens on V.s as m from V",
        "range 2 to 1",
    ),
    (
        "extract blocks with count between ^2 and 1001 and separation 0 characters on V.s as m from V",
        "range 2 to 1001",
    ),
    (
        "extract blocks with count between ^-3 and -2 and separation 0 characters on V.s as m from V",
        "range -3 to -2",
    ),
    (
        "extract blocks with count 2 and separation ^-1 tokens on V.s as m from V",
        "range -1 to -1",
    ),
    (
        "extract blocks with count 2 and separation between ^-1 and 5 tokens on V.s as m from V",
        "range -1 to 5",
    ),
    (
        "extract blocks with count 2 and separation between ^5 and 4 characters on V.s as m from V",
        "range 5 to 4",
    ),
    (
        "select Follows(V.s, V.s, ^-1, 1) as x from V",
        "range -1 to 1",
    ),
    (
        "select Follows(V.s, V.s, ^2, 1) as x from V",
        "range 2 to 1",
    ),
    (
        "select FollowsTok(V.s, V.s, ^-3, -2) as x from V",
        "range -3 to -2",
    ),
    (
        "select Not(FollowsTok(V.s, V.s, ^1, 0)) as x from V",
        "range 1 to 0",
    ),
    (
        "select Max(Follows(V.s, V.s, ^1, 0)) as x from V",
        "range 1 to 0",
    ),
    (
        "select V.s from V where Follows(V.s, V.s, ^9, 1)",
        "range 9 to 1",
    ),
    (
        "select V.s from V where V.b and FollowsTok(V.s, V.s, ^9, 1)",
        "range 9 to 1",
    ),
    (
        "select V.s from V consolidate on LeftContext(V.s, GetLength(Follows(V.s, V.s, ^9, 1)))",
        "range 9 to 1",
    ),
    (
        "select V.s from V group by Follows(V.s, V.s, ^9, 1)",
        "range 9 to 1",
    ),
    (
        "select 2 as x, Follows(V.s, V.s, 0, 2) as y from V group by x, y, Follows(V.s, V.s, ^x, 1)",
        "range 2 to 1",
    ),
    (
        "select V.s from V order by FollowsTok(V.s, V.s, ^9, 1)",
        "range 9 to 1",
    ),
    (
        "extract Follows(V.s, V.s, ^2, 1) as x, regex /a/ on V.s as m from V",
        "range 2 to 1",
    ),
    (
        "extract regex /a/ on V.s as m from V having Follows(m, m, ^2, 1)",
        "range 2 to 1",
    ),
    (
        "extract regex /a/ on V.s as m from V consolidate on LeftContext(m, Follows(m, m, ^2, 1))",
        "range 2 to 1",
    ),
    ("select V.s from V limit ^-1", "range -1 to -1"),
    (
        "select V.s from V order by V.s limit ^-9223372036854775808",
        "range -9223372036854775808 to -9223372036854775808",
    ),
    (
        "extract regex /a/ on V.s as m from V limit ^-1",
        "range -1 to -1",
    ),
    (
        "extract dictionary D on V.s as m from V limit ^-2",
        "range -2 to -2",
    ),
    (
        "extract blocks with count 2 and separation 0 tokens on V.s as m from V limit ^-3",
        "range -3 to -3",
    ),
    (
        "select N.s from (select V.s from V limit ^-1) N",
        "range -1 to -1",
    ),
    (
        "(select V.s from V) union all (select V.s from V limit ^-1)",
        "range -1 to -1",
    ),
    (
        "extract regex /a/ on N.m as m from (extract regex /a/ on ^0 tokens in V.s as m from V) N",
        "range 0 to 0",
    ),
];

/// The text after `using` is no policy's name.
static POLICIES: [(&str, &str); 9] = [
    (
        "select V.s from V consolidate on V.s using ^'Best'",
        "no policy Best",
    ),
    (
        "select V.s from V consolidate on V.s using ^'containedwithin'",
        "no policy containedwithin",
    ),
    ("select V.s from V consolidate on s using ^''", "no policy "),
    (
        "select V.s from V consolidate on V.s using ^' LeftToRight'",
        "no policy  LeftToRight",
    ),
    (
        "select V.s from V consolidate on V.s using ^'Contained\nWithin'",
        "no policy Contained\nWithin",
    ),
    (
        "extract regex /a/ on V.s as m from V consolidate on m using ^'Exact'",
        "no policy Exact",
    ),
    (
        "extract dictionary D on V.s as m from V consolidate on m using ^'IgnoreCase'",
        "no policy IgnoreCase",
    ),
    (
        "extract blocks with count 2 and separation 0 tokens on V.s as m from V consolidate on m using ^'D'",
        "no policy D",
    ),
    (
        "select N.s from (select V.s from V consolidate on V.s using ^'exactmatch') N",
        "no policy exactmatch",
    ),
];

/// Texts that are no patterns, or too large, wherever a pattern stands; and groups that they haven't.
static PATTERNS: [(&str, &str); 47] = [
    ("extract regex ^/(/ on V.s as m from V", "bad pattern"),
    ("extract regex ^/a)/ on V.s as m from V", "bad pattern"),
    ("extract regex ^/[/ on V.s as m from V", "bad pattern"),
    ("extract regex ^/+/ on V.s as m from V", "bad pattern"),
    ("extract regex ^/(?=a)/ on V.s as m from V", "bad pattern"),
    (
        "extract regex ^/(?x)a # c/ on V.s as m from V",
        "bad pattern",
    ),
    (
        "extract regex ^/a{2,1}/ on 1 token in V.s as m from V",
        "bad pattern",
    ),
    ("select Equals(^/(/, 1) as x from V", "bad pattern"),
    ("select ^/(/ as x from V", "bad pattern"),
    ("select ContainsRegex(^/(/, V.s) as x from V", "bad pattern"),
    ("select Count(^/(/) as x from V", "bad pattern"),
    ("select None(^/(/) as x from V", "bad pattern"),
    (
        "select V.s from V where MatchesRegex(^/(/, V.s)",
        "bad pattern",
    ),
    ("select V.s from V where ^/(/", "bad pattern"),
    ("select V.s from V consolidate on ^/(/", "bad pattern"),
    ("select V.s from V group by ^/(/", "bad pattern"),
    ("select V.s from V order by ^/(/", "bad pattern"),
    (
        "extract MatchesRegex(^/(/, V.s) as x, regex /a/ on V.s as m from V",
        "bad pattern",
    ),
    (
        "extract regex /a/ on V.s as m from V having MatchesRegex(^/(/, m)",
        "bad pattern",
    ),
    (
        "extract regex /a/ on V.s as m from V consolidate on CombineSpans(m, ^/(/)",
        "bad pattern",
    ),
    (
        "extract regex ^/a{99}{99}/ on V.s as m from V",
        "pattern too large: 9 bytes, weight 9801",
    ),
    (
        "extract regex ^/a{1000}{1000}/ on V.s as m from V",
        "pattern too large: 13 bytes, weight 1000000",
    ),
    (
        "extract regex ^/(a{1001}){1000}/ on V.s as m from V",
        "pattern too large: 15 bytes, weight 1000000",
    ),
    (
        "extract regex ^/a{50001}/ on 1 token in V.s as m from V",
        "pattern too large: 8 bytes, weight 50001",
    ),
    (
        "extract regex ^/ab{6251}/ on V.s as m from V",
        "pattern too large: 8 bytes, weight 6251",
    ),
    (
        "extract regex ^/({99}{99}/ on V.s as m from V",
        "pattern too large: 9 bytes, weight 9801",
    ),
    (
        "select ^/a{9,99}?{99}/ as x from V",
        "pattern too large: 12 bytes, weight 9801",
    ),
    (
        "select Min(^/a{99}{99}/) as x from V",
        "pattern too large: 9 bytes, weight 9801",
    ),
    (
        "select ContainsRegex(^/a{99}{99}/, V.s) as x from V",
        "pattern too large: 9 bytes, weight 9801",
    ),
    (
        "select V.s from V where MatchesRegex(^/[{9999}]/, V.s)",
        "pattern too large: 8 bytes, weight 9999",
    ),
    (
        "select V.s from V consolidate on ^/a{99}{99}/",
        "pattern too large: 9 bytes, weight 9801",
    ),
    (
        "select V.s from V group by ^/a{99}{99}/",
        "pattern too large: 9 bytes, weight 9801",
    ),
    (
        "select V.s from V order by ^/a{99}{99}/",
        "pattern too large: 9 bytes, weight 9801",
    ),
    (
        "extract ^/a{99}{99}/ as x, regex /a/ on V.s as m from V",
        "pattern too large: 9 bytes, weight 9801",
    ),
    (
        "extract regex /a/ on V.s as m from V having ContainsRegex(^/a{99}{99}/, m)",
        "pattern too large: 9 bytes, weight 9801",
    ),
    (
        "extract regex /a/ on V.s as m from V consolidate on ^/a{99}{99}/",
        "pattern too large: 9 bytes, weight 9801",
    ),
    (
        "extract regex /(a)/ on V.s return group ^2 as m from V",
        "no group 2",
    ),
    (
        "extract regex /(a)/ on V.s return group ^-1 as m from V",
        "no group -1",
    ),
    (
        "extract regex /a/ on V.s return group ^1 as m from V",
        "no group 1",
    ),
    (
        "extract regex /(a)/ on V.s return group 0 as m and group ^2 as n from V",
        "no group 2",
    ),
    (
        "extract regex /(?:a)/ on V.s return group ^1 as m from V",
        "no group 1",
    ),
    (
        "extract regex /[(]/ on V.s return group ^1 as m from V",
        "no group 1",
    ),
    (
        "extract regex /(a)(?P<b>b)/ on V.s return group 2 as m and group ^3 as n from V",
        "no group 3",
    ),
    (
        "extract regex /(a)/ on 1 token in V.s return group ^2 as m from V",
        "no group 2",
    ),
    (
        "extract regex /(a)/ on V.s return group ^9223372036854775807 as m from V",
        "no group 9223372036854775807",
    ),
    (
        "extract regex /(a)/ on V.s return group ^4294967296 as m from V",
        "no group 4294967296",
    ),
    (
        "select N.m from (extract regex /a/ on V.s return group ^1 as m from V) N",
        "no group 1",
    ),
];

#[test]
fn sides_of_other_columns_are_refused(rt: HostRuntime) -> Result<(), Fail> {
    has_faults(&rt, rt.alloc(), &SCHEMAS)
}

#[test]
fn an_item_that_is_no_key_is_refused_beside_groups(rt: HostRuntime) -> Result<(), Fail> {
    has_faults(&rt, rt.alloc(), &UNGROUPED)
}

#[test]
fn ranges_and_limits_out_of_bounds_are_refused(rt: HostRuntime) -> Result<(), Fail> {
    has_faults(&rt, rt.alloc(), &RANGES)
}

#[test]
fn a_policy_that_there_is_not_is_refused(rt: HostRuntime) -> Result<(), Fail> {
    has_faults(&rt, rt.alloc(), &POLICIES)
}

#[test]
fn patterns_and_groups_are_refused_wherever_they_stand(rt: HostRuntime) -> Result<(), Fail> {
    has_faults(&rt, rt.alloc(), &PATTERNS)
}

#[test]
fn a_pattern_of_a_thousand_and_one_bytes_is_refused(rt: HostRuntime) -> Result<(), Fail> {
    let alloc = rt.alloc();
    let long = "a".repeat(alloc, 1001)?;
    let program = format!(in alloc;
        "create view A as extract regex ^/{long}/ on D.text as m from Document D;"
    )?;
    has_fault(
        &rt,
        alloc,
        program.as_str(),
        "pattern too large: 1001 bytes, weight 1",
    )
}
