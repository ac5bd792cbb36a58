//! What a program without a fault comes to.

use crate::marks::program_of;
use crate::programs::{fault, typed};
use crate::shown::{columns_shown, outputs_shown, query_shown, views_shown};
use aql_typed::Typed;
use std::alloc::Global;
use std::test::Fail;

/// Queries without a fault, most of them near one.
static ACCEPTED: [&str; 34] = [
    "select V.s, v.t, V.t as T from V, V v, Document, (select V.s from V) \"V \"",
    "select V.s as x from V consolidate on x",
    "select V.s as x from V consolidate on V.s using 'NotContainedWithin'",
    "select V.s as x from V consolidate on CombineSpans(x, V.s) using 'ContainsButNotEqual'",
    "select 2 as n from V consolidate on LeftContext(V.s, n) using 'ExactMatch'",
    "select V.t, Count(*) as n from V group by t order by n, V.t, t limit 0",
    "select GetText(V.s) as x from V group by /* a */ GetText( V . \"s\" )",
    "select 1 as n, Count(*) as c from V group by 001, V.i",
    "select 1 as n, 2 as m from V group by m, n",
    "select Max(V.i) as n from V order by n limit 9223372036854775807",
    "select V.s from V where V.b and And(V.b) and Or(V.b, V.b, V.b) and Not(V.b)",
    "select Equals(V.s, V.s) as a, Equals('a', V.t) as b, Equals(V.b, V.b) as c, Equals(1, GetLength(V.s)) as d from V",
    "select Follows(V.s, V.s, 0, 0) as a, FollowsTok(V.s, V.s, 0, 9223372036854775807) as b from V",
    "select ContainsRegex(/a/, V.t) as a, MatchesRegex(/a/, 'a') as b, ContainsRegex(/a/, V.s) as c from V",
    "select ContainsDict('D', V.s) as a, MatchesDict('D', 'Exact', V.s) as b, ContainsDict('D', 'IgnoreCase', V.s) as c from V",
    "select 'D' as d from V group by d, ContainsDict(d, V.s), MatchesDict(d, 'Exact', V.s)",
    "select 'Exact' as f from V group by f, ContainsDict('D', f, V.s)",
    "select 2 as x from V group by x, Follows(V.s, V.s, x, 3), FollowsTok(V.s, V.s, 1, x)",
    "select Count(V.b) as n, Min(V.b) as l, Max('a') as h, Sum(-1) as m from V order by l, n, h, m",
    "select ContainsDict('D', V.s) as x from V group by ContainsDict('D', V.s) order by ContainsDict('D', V.s)",
    "select N.x from (select V.s as x from V) N where Contains(N.x, N.x) consolidate on x group by x order by x limit 1",
    "extract regex /a/ on between 1 and 1000 tokens in V.s as m from V limit 0",
    "extract regex /a/ on 1000 tokens in V.s as m from V",
    "extract regex /(a)(?P<n>b)/ on V.s return group 0 as m and group 2 as n and group 2 as o from V",
    "extract regex /ab{6250}/ on V.s as m from V",
    "extract regex /a{50}{50}/ on V.s as m from V",
    "extract V.s, V.b, regex /a/ on V.s as m from V having b and Contains(s, m) consolidate on CombineSpans(s, m) limit 1",
    "extract dictionary \"D\" with flags 'Exact' on V.s as m from V having Equals(m, m) consolidate on m using 'LeftToRight'",
    "extract 1 as x, 'D' as d, dictionary D on V.s as m from V having GreaterThan(x, 0) and Equals(d, 'D')",
    "extract blocks with count between 1 and 1000 and separation between 0 and 9223372036854775807 tokens on V.s as m from V",
    "extract blocks with count 1 and separation 0 characters on V.s as m from V having NotNull(m) consolidate on m limit 3",
    "(select V.s, V.t from V) union all (select W.s, 'a' as t from V W) union all (select d.text as s, GetText(d.text) as t from Document d)",
    "(select V.s as m from V) minus (extract regex /a/ on V.s as m from V)",
    "((select V.s from V) minus (select V.s from V)) union all ((select V.s from V) union all (select V.s from V))",
];

/// The columns that a query gives, each with its kind.
static TYPED_COLUMNS: [(&str, &str); 13] = [
    (
        "select V.s, V.t, V.i, V.b from V",
        "s Span, t Text, i Integer, b Boolean",
    ),
    (
        "select V.t as x, 'a' as y, 1 as z from V",
        "x Text, y Text, z Integer",
    ),
    (
        "select D.text, V.i as text2 from Document D, V",
        "text Span, text2 Integer",
    ),
    (
        "select GetBegin(V.s) as a, GetEnd(V.s) as b, GetLength(V.s) as c, GetText(V.s) as d from V",
        "a Integer, b Integer, c Integer, d Text",
    ),
    (
        "select CombineSpans(V.s, V.s) as a, SpanBetween(V.s, V.s) as b, LeftContext(V.s, 1) as c, RightContextTok(V.s, 1) as d from V",
        "a Span, b Span, c Span, d Span",
    ),
    (
        "select Overlaps(V.s, V.s) as a, GreaterThan(1, 2) as b, NotNull(V.t) as c, MatchesRegex(/a/, V.t) as d, ContainsDict('D', V.s) as e, Or(V.b) as f from V",
        "a Boolean, b Boolean, c Boolean, d Boolean, e Boolean, f Boolean",
    ),
    (
        "select Count(*) as a, Count(V.s) as b, Sum(V.i) as c, Min(V.t) as d, Max(V.b) as e, Max(V.s) as f from V",
        "a Integer, b Integer, c Integer, d Text, e Boolean, f Span",
    ),
    ("extract regex /a/ on V.s as m from V", "m Span"),
    (
        "extract V.t, 1 as n, regex /(a)/ on V.s return group 1 as m and group 0 as w from V",
        "t Text, n Integer, m Span, w Span",
    ),
    (
        "extract V.b, dictionary D on V.s as m from V",
        "b Boolean, m Span",
    ),
    (
        "extract blocks with count 2 and separation 0 tokens on V.s as m from V",
        "m Span",
    ),
    (
        "(select V.t as x from V) union all (select 'a' as x from V)",
        "x Text",
    ),
    (
        "select N.b as c, N.n from ((select V.b, 1 as n from V) minus (select V.b, 2 as n from V)) N",
        "c Boolean, n Integer",
    ),
];

/// What a query is: `V` is the view with number 0, with the columns `s`, `t`, `i` and `b`.
static TYPED_QUERIES: [(&str, &str); 24] = [
    ("select V.s from V", "view 0; [Column(0)]"),
    (
        "select W.i, D.text, V.b from V, Document D, V W",
        "view 0, document, view 0; [Column(7), Column(4), Column(3)]",
    ),
    (
        "select N.y, 'a' as z from V, (select V.s as x, V.i as y from V) N",
        "view 0, a query; [Column(5), Str(OwnedText { text: \"a\" })]",
    ),
    (
        "select V.s from Document D, V where V.b and Follows(D.text, V.s, 0, 9)",
        "document, view 0; where [Column(4), Call { op: Follows { min: 0, max: 9 }, args: [Column(0), Column(1)] }]; [Column(1)]",
    ),
    (
        "select V.t from V consolidate on V.s",
        "view 0; ContainedWithin of Column(0); [Column(1)]",
    ),
    (
        "select V.t as s, V.s as t from V consolidate on CombineSpans(t, V.s) using 'LeftToRight'",
        "view 0; LeftToRight of Call { op: CombineSpans, args: [Column(0), Column(0)] }; [Column(1), Column(0)]",
    ),
    (
        "select 2 as n from V consolidate on LeftContextTok(V.s, n) using 'NotContainedWithin'",
        "view 0; NotContainedWithin of Call { op: LeftContextTok, args: [Column(0), Int(2)] }; [Int(2)]",
    ),
    (
        "select Count(*) as n from V",
        "view 0; keys [], arguments [], [Count]",
    ),
    (
        "select GetText(V.s) as x, Count(*) as n, Max(V.i) as m, V.t, Sum(GetLength(V.s)) as l, Min(V.b) as c from V group by V.t, x",
        "view 0; keys [Column(1), Call { op: GetText, args: [Column(0)] }], arguments [Column(2), Call { op: GetLength, args: [Column(0)] }, Column(3)], [Key(1), Count, Max(2), Key(0), Sum(3), Min(4)]",
    ),
    (
        "select Count(V.t) as n, V.b from V group by V.i, V.b",
        "view 0; keys [Column(2), Column(3)], arguments [Column(1)], [CountOf(2), Key(1)]",
    ),
    (
        "select V.s, V.i, V.t as x from V order by x, V.s, i limit 3",
        "view 0; [Column(0), Column(2), Column(1)]; order [2, 0, 1]; limit 3",
    ),
    (
        "select V.t, Count(*) as n, Max(V.s) as m from V group by V.t order by n, t, m",
        "view 0; keys [Column(1)], arguments [Column(0)], [Key(0), Count, Max(1)]; order [1, 0, 2]",
    ),
    ("select V.s from V limit 0", "view 0; [Column(0)]; limit 0"),
    (
        "select ContainsRegex(/a/, V.s) as x, MatchesRegex(/b/, V.s) as y, MatchesRegex(/a/, V.t) as z from V where ContainsRegex(/b/, V.t)",
        "view 0; where [Call { op: ContainsRegex(1), args: [Column(1)] }]; [Call { op: ContainsRegex(0), args: [Column(0)] }, Call { op: MatchesRegex(1), args: [Column(0)] }, Call { op: MatchesRegex(0), args: [Column(1)] }]",
    ),
    (
        "select ContainsDict('D', V.s) as x, MatchesDict('D', 'IgnoreCase', V.s) as y, ContainsDict('D', 'Exact', V.s) as z from V",
        "view 0; [Call { op: ContainsDict(0), args: [Column(0)] }, Call { op: MatchesDict(0), args: [Column(0)] }, Call { op: ContainsDict(1), args: [Column(0)] }]",
    ),
    (
        "extract regex /a/ on V.s as m from V",
        "view 0; [], Regex { column: 0, pattern: 0, groups: [0] }",
    ),
    (
        "extract V.t, GetLength(V.s) as n, regex /(a)(b)/ on between 1 and 3 tokens in V.s return group 2 as m and group 0 as w from V having Equals(t, 'a') and Contains(w, m) consolidate on w using 'ExactMatch' limit 5",
        "view 0; [Column(1), Call { op: GetLength, args: [Column(0)] }], TokenRegex { column: 0, low: 1, high: 3, pattern: 0, groups: [2, 0] }; where [Call { op: Equals, args: [Column(0), Str(OwnedText { text: \"a\" })] }, Call { op: Contains, args: [Column(3), Column(2)] }]; ExactMatch of Column(3); limit 5",
    ),
    (
        "extract regex /a/ on 2 tokens in N.y as m from (select V.i as x, V.s as y from V where MatchesRegex(/a/, V.t)) N consolidate on m",
        "a query; [], TokenRegex { column: 1, low: 2, high: 2, pattern: 0, groups: [0] }; ContainedWithin of Column(0)",
    ),
    (
        "extract dictionary D on V.s as m from V having MatchesDict('D', 'IgnoreCase', m) and MatchesDict('D', 'Exact', m)",
        "view 0; [], Dict { column: 0, dict: 0 }; where [Call { op: MatchesDict(0), args: [Column(0)] }, Call { op: MatchesDict(1), args: [Column(0)] }]",
    ),
    (
        "extract dictionary 'D' with flags 'Exact' on D.text as m from Document D having MatchesDict('D', 'Exact', m) and MatchesDict('D', m)",
        "document; [], Dict { column: 0, dict: 0 }; where [Call { op: MatchesDict(0), args: [Column(0)] }, Call { op: MatchesDict(1), args: [Column(0)] }]",
    ),
    (
        "extract blocks with count between 2 and 4 and separation between 1 and 10 characters on V.s as m from V",
        "view 0; [], Blocks { column: 0, low: 2, high: 4, gap_low: 1, gap_high: 10, tokens: false }",
    ),
    (
        "extract blocks with count 3 and separation 0 tokens on N.y as m from (select V.i as x, V.s as y from V) N",
        "a query; [], Blocks { column: 1, low: 3, high: 3, gap_low: 0, gap_high: 0, tokens: true }",
    ),
    (
        "(select V.s from V) union all (select V.s from V) union all (select V.s from V)",
        "union of 3",
    ),
    ("(select V.s from V) minus (select V.s from V)", "minus"),
];

/// Views by rank, outputs by the bytes of their names, and a diamond of views.
const OUTPUTS: &str = "
    output view B as 'b'; output view Top; output view Document; output view B as 'é'; output view Document as '';
    create view Top as select L.x from Left_ L, Right_ R;
    create view Left_ as select B.x from B;
    create view Right_ as select B.x as y from B;
    create view B as select D.text as x from Document D;
    output view B; output view Right_ as 'Document2';
";

/// The columns of the second view, with their kinds.
fn second_columns_shown(alloc: Global, typed: &Typed) -> Result<String, Fail> {
    match typed.views().get(1) {
        Some(view) => Ok(columns_shown(alloc, view)?),
        None => Err(Fail::from("there are two views")),
    }
}

/// The query of the second view.
fn second_query_shown(alloc: Global, typed: &Typed) -> Result<String, Fail> {
    match typed.views().get(1) {
        Some(view) => Ok(query_shown(alloc, &view.body)?),
        None => Err(Fail::from("there are two views")),
    }
}

#[test]
fn a_query_that_nearly_has_a_fault_has_none(rt: HostRuntime) -> Result<(), Fail> {
    let alloc = rt.alloc();
    for query in &ACCEPTED {
        let program = program_of(alloc, query)?;
        let got = fault(alloc, program.as_str())?;
        assert_eq!(rt; got.as_str(), "no fault", "of {query}");
    }
    Ok(())
}

#[test]
fn a_view_has_the_columns_of_its_query(rt: HostRuntime) -> Result<(), Fail> {
    let alloc = rt.alloc();
    for (query, want) in &TYPED_COLUMNS {
        let program = program_of(alloc, query)?;
        let typed = typed(alloc, program.as_str())?;
        let got = second_columns_shown(alloc, &typed)?;
        assert_eq!(rt; got.as_str(), *want, "of {query}");
    }
    Ok(())
}

#[test]
fn names_become_numbers_and_defaults_are_filled_in(rt: HostRuntime) -> Result<(), Fail> {
    let alloc = rt.alloc();
    for (query, want) in &TYPED_QUERIES {
        let program = program_of(alloc, query)?;
        let typed = typed(alloc, program.as_str())?;
        let got = second_query_shown(alloc, &typed)?;
        assert_eq!(rt; got.as_str(), *want, "of {query}");
    }
    Ok(())
}

#[test]
fn views_stand_by_rank_and_outputs_by_name(rt: HostRuntime) -> Result<(), Fail> {
    let alloc = rt.alloc();
    let typed = typed(alloc, OUTPUTS)?;
    let views = views_shown(alloc, typed.views())?;
    assert_eq!(rt;
        views.as_str(),
        "B: x Span; Left_: x Span; Right_: y Span; Top: x Span; "
    );
    let outputs = outputs_shown(alloc, typed.outputs())?;
    assert_eq!(rt;
        outputs.as_str(),
        " None; B Some(0); Document None; Document2 Some(2); Top Some(3); b Some(0); é Some(0); "
    );
    Ok(())
}
