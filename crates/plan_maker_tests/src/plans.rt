//! Plans of programs, by their texts.

use crate::programs::typed;
use demo_corpus::DEMO;
use plan_maker::{lower, make_plan, plan_text};
use span_token::OutOfMemory;
use std::alloc::Global;
use std::test::Fail;

/// Programs and their plans: a condition stands as soon as its sources are joined; each kind of query; the
/// document as a view; a nested query.
static PLANS: [(&str, &str); 3] = [
    (
        "create view Word as extract regex /[a-z]+/ on d.text as word from Document d;
         create view Pair as
           select a.word as first, b.word as second, c.word as third from Word a, Word b, Word c
           where Follows(a.word, b.word, 0, 1) and And(ContainsRegex(/x/, a.word), Overlaps(a.word, c.word))
           order by first limit 3;
         output view Pair;",
        "0 Doc
1 Regex 0
2 Project 1
3 Select 2
4 Cross 3 2
5 Select 4
6 Cross 5 2
7 Select 6
8 Project 7
9 OrderLimit 8
out Pair 9
",
    ),
    (
        "create dictionary Days as ('Monday');
         create view Day as extract dictionary Days on t.text as day from Document t;
         create view Short as
           extract regex /[a-z]+/ on 1 token in t.text as day from Document t having ContainsRegex(/a/, day) consolidate on day;
         create view Run as extract blocks with count 2 and separation 0 characters on s.day as day from Short s limit 5;
         create view Both as (select d.day from Day d) union all (select s.day from Short s);
         create view Rest as (select b.day from Both b) minus (select r.day from Run r);
         create view Number as select GetText(r.day) as day, Count(*) as n from Rest r group by GetText(r.day);
         output view Both;
         output view Document;
         output view Number;",
        "0 Doc
1 Dict 0
2 DictPart 1
3 Project 2
4 TokenRegex 0
5 Project 4
6 Select 5
7 Consolidate 6
8 Blocks 7
9 OrderLimit 8
10 Project 3
11 Project 7
12 Union 10 11
13 Project 12
14 Project 9
15 Minus 13 14
16 Project 15
17 Group 16
out Both 12
out Document 0
out Number 17
",
    ),
    (
        "create view Far as
           select n.m as m, e.text as whole
           from (extract regex /a/ on d.text as m from Document d) n, Document e where Contains(e.text, n.m) consolidate on m;
         output view Far as 'far away';",
        "0 Doc
1 Regex 0
2 Project 1
3 Cross 2 0
4 Select 3
5 Consolidate 4
6 Project 5
out far away 6
",
    ),
];

/// Programs and the plans by which they are run: products become joins, what stands twice stands once, and
/// views that nobody reads aren't there; conditions go through a projection, also where an output shows it
/// too, and to both sides of a union; of three views those are joined first that a predicate
/// connects, also where their product is turned; a selection stands right behind its product. A token-bounded
/// pattern is looked for near the other side, on whichever side of the query it stands, and a dictionary on the
/// right one, where no other that is needed is looked for with it.
static MADE: [(&str, &str); 12] = [
    (
        "create view Word as extract regex /[a-z]+/ on d.text as word from Document d;
         create view Unread as select w.word as w from Word w;
         create view Pair as
           select a.word as first, b.word as second, c.word as third from Word a, Word b, Word c
           where Follows(a.word, b.word, 0, 1) and And(Follows(b.word, c.word, 0, 1), Overlaps(a.word, c.word))
           order by first limit 3;
         output view Pair;",
        "0 Doc
1 Regex 0
2 Project 1
3 SpanJoin 2 2
4 SpanJoin 3 2
5 Select 4
6 Project 5
7 OrderLimit 6
out Pair 7
",
    ),
    (
        "create dictionary Cities as ('New York');
         create dictionary Words as ('York', 'New');
         create view City as extract dictionary Cities on d.text as m from Document d;
         create view Word as extract dictionary Words on d.text as m from Document d;
         create view Town as extract dictionary Cities on t.text as m from Document t;
         create view Both as select c.m as city, w.m as word from City c, Word w where Contains(c.m, w.m);
         create view Same as select t.m as city, w.m as word from Town t, Word w where Contains(t.m, w.m);
         output view Both;
         output view Same;",
        "0 Doc
1 Dict 0
2 DictPart 1
3 Project 2
4 DictPart 1
5 Project 4
6 SpanJoin 3 5
7 Project 6
out Both 7
out Same 7
",
    ),
    (
        "create view P as extract regex /[0-9]+/ on d.text as num from Document d;
         create view C as select A.num as a, B.num as b from P A, P B;
         create view S as select C.a from C where And(Follows(C.a, C.b, 0, 9));
         output view S;",
        "0 Doc
1 Regex 0
2 Project 1
3 SpanJoin 2 2
4 Project 3
out S 4
",
    ),
    (
        "create view P as extract regex /[0-9]+/ on d.text as num from Document d;
         create view C as select A.num as a, B.num as b from P A, P B;
         create view D as select C.b as x, C.a as y from C;
         create view S as select D.y from D where Follows(D.y, D.x, 0, 9);
         output view C;
         output view S;",
        "0 Doc
1 Regex 0
2 Project 1
3 Cross 2 2
4 Project 3
5 SpanJoin 2 2
6 Project 5
out C 4
out S 6
",
    ),
    (
        "create view A as extract regex /a+/ on d.text as x from Document d;
         create view B as extract regex /b+/ on d.text as y from Document d;
         create view U as (select a.x from A a) union all (select b.y as x from B b);
         create view F as select u.x from U u where GreaterThan(GetLength(u.x), 1);
         output view F;",
        "0 Doc
1 Regex 0
2 Select 1
3 Project 2
4 Regex 0
5 Select 4
6 Project 5
7 Union 3 6
8 Project 7
out F 8
",
    ),
    (
        "create view A as extract regex /a/ on d.text as x from Document d;
         create view B as extract regex /b/ on d.text as y from Document d;
         create view C as extract regex /c/ on d.text as z from Document d;
         create view T as select a.x, b.y, c.z from A a, B b, C c
           where FollowsTok(a.x, c.z, 0, 2) and Overlaps(c.z, b.y);
         output view T;",
        "0 Doc
1 Regex 0
2 Project 1
3 Regex 0
4 Project 3
5 Regex 0
6 Project 5
7 SpanJoin 4 6
8 SpanJoin 2 7
9 Project 8
out T 9
",
    ),
    (
        "create view A as extract regex /a/ on d.text as x from Document d;
         create view B as extract regex /b/ on d.text as y from Document d;
         create view V as select a.x, b.y from A a, B b;
         create view W as select a.x from A a consolidate on a.x;
         create view S as select v.x from V v where Or(Overlaps(v.x, v.y), Contains(v.x, v.y));
         output view W;
         output view S;",
        "0 Doc
1 Regex 0
2 Project 1
3 Regex 0
4 Project 3
5 Cross 2 4
6 Select 5
7 Project 6
8 Consolidate 2
9 Project 8
out S 7
out W 9
",
    ),
    (
        "create view A as extract regex /a/ on d.text as x from Document d;
         create view B as extract regex /b/ on between 1 and 2 tokens in d.text as y from Document d;
         create view C as select a.x, b.y from A a, B b where FollowsTok(a.x, b.y, 0, 2);
         output view C;",
        "0 Doc
1 Regex 0
2 Project 1
3 Restricted 2 0
4 Project 3
5 Project 4
out C 5
",
    ),
    (
        "create view A as extract regex /a/ on d.text as x from Document d;
         create view B as extract regex /b/ on between 1 and 2 tokens in d.text as y from Document d;
         create view C as select a.x, b.y from B b, A a where FollowsTok(b.y, a.x, 0, 2);
         output view C;",
        "0 Doc
1 Regex 0
2 Project 1
3 Restricted 2 0
4 Project 3
5 Project 4
out C 5
",
    ),
    (
        "create dictionary Words as ('b');
         create dictionary Names as ('c', 'd');
         create view A as extract regex /a/ on d.text as x from Document d;
         create view B as extract dictionary Words on d.text as y from Document d;
         create view N as extract dictionary Names on d.text as z from Document d;
         create view T as select a.x, b.y from A a, B b where FollowsTok(a.x, b.y, 0, 2);
         output view T;",
        "0 Doc
1 Regex 0
2 Project 1
3 Restricted 2 0
4 Project 3
5 Project 4
out T 5
",
    ),
    (
        "create dictionary Words as ('b');
         create dictionary Names as ('c', 'd');
         create view A as extract regex /a/ on d.text as x from Document d;
         create view B as extract dictionary Words on d.text as y from Document d;
         create view N as extract dictionary Names on d.text as z from Document d;
         create view T as select a.x, b.y from A a, B b where FollowsTok(a.x, b.y, 0, 2);
         output view N; output view T;",
        "0 Doc
1 Dict 0
2 DictPart 1
3 Project 2
4 Regex 0
5 Project 4
6 DictPart 1
7 Project 6
8 SpanJoin 5 7
9 Project 8
out N 3
out T 9
",
    ),
    (
        "create view A as extract regex /a/ on between 1 and 2 tokens in d.text as x from Document d;
         create view B as extract regex /b/ on d.text as y from Document d;
         create view C as extract regex /c/ on d.text as z from Document d;
         create view T as select a.x, b.y, c.z from A a, B b, C c where FollowsTok(c.z, a.x, 0, 2);
         output view T;",
        "0 Doc
1 Regex 0
2 Project 1
3 TokenRegex 0
4 Project 3
5 Regex 0
6 Project 5
7 SpanJoin 4 6
8 Cross 2 7
9 Project 8
out T 9
",
    ),
];

/// Two predicates of spans that connect three views, in each way.
static CONNECTED: [&str; 6] = [
    "Follows(a.x, b.y, 0, 9) and Follows(b.y, c.z, 0, 9)",
    "Follows(b.y, a.x, 0, 9) and Contains(c.z, b.y)",
    "Overlaps(a.x, b.y) and FollowsTok(c.z, a.x, 0, 9)",
    "Follows(a.x, c.z, 0, 9) and Follows(b.y, c.z, 0, 9)",
    "Contains(c.z, a.x) and Overlaps(b.y, c.z)",
    "And(FollowsTok(c.z, b.y, 0, 9), Follows(c.z, a.x, 0, 9))",
];

/// A ladder: a view of the words, and so many views, each of which reads the one before it twice.
fn ladder(alloc: Global, views: u32) -> Result<String, OutOfMemory> {
    let mut text = String::from_str(
        alloc,
        "create view V0 as extract regex /[a-z]+/ on d.text as word from Document d;",
    )?;
    for last in 0..views {
        let next = last + 1;
        let view = format!(in alloc;
            "create view V{next} as select a.word from V{last} a, V{last} b;"
        )?;
        text.push_str(view.as_str())?;
    }
    let output = format!(in alloc; "output view V{views};")?;
    text.push_str(output.as_str())?;
    Ok(text)
}

/// A chain: a view of pairs, and so many views, each with a condition on the left column of the one before
/// it. Outputs show all of them.
fn chain(alloc: Global, views: u32) -> Result<String, OutOfMemory> {
    let mut text = String::from_str(
        alloc,
        "create view A as extract regex /a+/ on d.text as x from Document d;
         create view B as extract regex /b+/ on d.text as y from Document d;
         create view V0 as select a.x, b.y from A a, B b;
         output view V0;",
    )?;
    for last in 0..views {
        let next = last + 1;
        let view = format!(in alloc;
            "create view V{next} as select v.x, v.y from V{last} v where GreaterThan(GetLength(v.x), {next});
             output view V{next};"
        )?;
        text.push_str(view.as_str())?;
    }
    Ok(text)
}

#[test]
fn programs_have_plans(rt: HostRuntime) -> Result<(), Fail> {
    let alloc = rt.alloc();
    for (program, want) in &PLANS {
        let plan = lower(alloc, typed(alloc, program)?)?;
        let got = plan_text(alloc, &plan)?;
        assert_eq!(rt; got.as_str(), *want, "of {program}");
    }
    Ok(())
}

#[test]
fn views_that_are_read_twice_stand_once(rt: HostRuntime) -> Result<(), Fail> {
    let alloc = rt.alloc();
    let program = ladder(alloc, 200)?;
    let plan = lower(alloc, typed(alloc, program.as_str())?)?;
    assert_eq!(rt; plan.nodes().len(), 3 + 2 * 200);
    Ok(())
}

#[test]
fn made_plans_have_joins_and_no_node_twice_or_unread(rt: HostRuntime) -> Result<(), Fail> {
    let alloc = rt.alloc();
    for (program, want) in &MADE {
        let plan = make_plan(alloc, typed(alloc, program)?)?;
        let got = plan_text(alloc, &plan)?;
        assert_eq!(rt; got.as_str(), *want, "of {program}");
    }
    Ok(())
}

#[test]
fn two_predicates_that_connect_three_views_leave_no_product(rt: HostRuntime) -> Result<(), Fail> {
    let alloc = rt.alloc();
    for conds in &CONNECTED {
        let program = format!(in alloc;
            "create view A as extract regex /a/ on d.text as x from Document d;
             create view B as extract regex /b/ on d.text as y from Document d;
             create view C as extract regex /c/ on d.text as z from Document d;
             create view T as select a.x, b.y, c.z from A a, B b, C c where {conds};
             output view T;"
        )?;
        let plan = make_plan(alloc, typed(alloc, program.as_str())?)?;
        let text = plan_text(alloc, &plan)?;
        assert!(rt; !text.as_str().contains("Cross"), "of {conds}");
    }
    Ok(())
}

/// How many lines of a text have this in them.
fn lines_with(text: &str, part: &str) -> usize {
    let mut found: usize = 0;
    for line in text.lines() {
        if line.contains(part) {
            found = found.saturating_add(1);
        }
    }
    found
}

#[test]
fn seven_dictionaries_on_the_text_are_looked_for_at_once(rt: HostRuntime) -> Result<(), Fail> {
    let alloc = rt.alloc();
    let plan = make_plan(alloc, typed(alloc, DEMO)?)?;
    let text = plan_text(alloc, &plan)?;
    assert_eq!(rt; lines_with(text.as_str(), " Dict 0"), 1);
    assert_eq!(rt; lines_with(text.as_str(), " DictPart "), 7);
    Ok(())
}

#[test]
fn each_condition_of_a_chain_adds_as_much(rt: HostRuntime) -> Result<(), Fail> {
    let alloc = rt.alloc();
    let program = chain(alloc, 50)?;
    let plan = make_plan(alloc, typed(alloc, program.as_str())?)?;
    assert_eq!(rt; plan.nodes().len(), 7 + 4 * 50);
    Ok(())
}
