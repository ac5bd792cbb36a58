//! Plans of programs with their joins restricted, by their texts.

use crate::programs::typed;
use algebra::{Node, Plan};
use plan_maker::{lower, plan_text};
use push_select::push;
use restrict_eval::{restrict, turn};
use share_plan::share;
use std::alloc::Global;
use std::test::Fail;

/// Two views of a column each: `x` is found by a pattern in characters, `y` by a token-bounded one.
const VIEWS: &str = "create view A as extract regex /a/ on d.text as x from Document d;
     create view B as extract regex /b/ on between 1 and 2 tokens in d.text as y from Document d;";

/// Their nodes.
const NODES: &str = "0 Doc
1 Regex 0
2 Project 1
3 TokenRegex 0
4 Project 3
";

/// Views that join the two, and the nodes of their plans behind those. The right side is looked for near the
/// left one where nobody else needs it: not where an output shows it, nor where another join or a minus reads
/// it, nor where it is found by a pattern in characters. Where both sides are one view, the join alone reads
/// it. A join by what a condition above the match has left isn't restricted.
static PLANS: [(&str, &str); 9] = [
    (
        "create view C as select a.x, b.y from A a, B b where FollowsTok(a.x, b.y, 0, 2); output view C;",
        "5 Cross 2 4
6 Restricted 2 0
7 Project 6
8 Project 7
out C 8
",
    ),
    (
        "create view C as select a.x, b.y from A a, B b where FollowsTok(a.x, b.y, 0, 2) and ContainsRegex(/c/, a.x);
         output view C;",
        "5 Select 1
6 Project 5
7 Cross 6 4
8 Restricted 6 0
9 Project 8
10 Project 9
out C 10
",
    ),
    (
        "create view C as select a.x, b.y from A a, B b where FollowsTok(a.x, b.y, 0, 2);
         output view C; output view B;",
        "5 Cross 2 4
6 SpanJoin 2 4
7 Project 6
out B 4
out C 7
",
    ),
    (
        "create view C as select a.x, b.y from B b, A a where FollowsTok(b.y, a.x, 0, 2); output view C;",
        "5 Cross 4 2
6 SpanJoin 4 2
7 Project 6
out C 7
",
    ),
    (
        "create view C as select a.x, b.y from A a, B b where FollowsTok(a.x, b.y, 0, 2);
         create view D as select a.x, b.y from A a, B b where Overlaps(a.x, b.y);
         output view C; output view D;",
        "5 Cross 2 4
6 SpanJoin 2 4
7 Project 6
8 SpanJoin 2 4
9 Project 8
out C 7
out D 9
",
    ),
    (
        "create view C as select a.x, b.y from A a, B b where FollowsTok(a.x, b.y, 0, 2);
         create view D as (select a.x as y from A a) minus (select b.y from B b);
         output view C;",
        "5 Cross 2 4
6 Restricted 2 0
7 Project 6
8 Project 7
9 Project 1
10 Project 3
11 Minus 9 10
out C 8
",
    ),
    (
        "create view C as select a.x, b.y from A a, B b where FollowsTok(a.x, b.y, 0, 2);
         create view D as (select a.x as y from A a) minus (select b.y from B b);
         output view C; output view D;",
        "5 Cross 2 4
6 SpanJoin 2 4
7 Project 6
8 Project 1
9 Project 3
10 Minus 8 9
out C 7
out D 10
",
    ),
    (
        "create view C as select b.y, c.y as z from B b, B c where FollowsTok(b.y, c.y, 0, 2); output view C;",
        "5 Cross 4 4
6 Restricted 4 0
7 Project 6
8 Project 7
out C 8
",
    ),
    (
        "create view C as select a.x, b.y from A a, B b where FollowsTok(a.x, b.y, 0, 2) and ContainsRegex(/c/, b.y);
         output view C;",
        "5 Cross 2 4
6 Select 3
7 Project 6
8 SpanJoin 2 7
9 Project 8
out C 9
",
    ),
];

/// Two views of a column each: `x` is found by a pattern in characters, `y` by a dictionary.
const ENTRIES: &str = "create dictionary Words as ('b');
     create dictionary Names as ('c', 'd');
     create view A as extract regex /a/ on d.text as x from Document d;
     create view B as extract dictionary Words on d.text as y from Document d;";

/// Their nodes.
const ENTRY_NODES: &str = "0 Doc
1 Regex 0
2 Project 1
3 Dict 0
4 DictPart 3
5 Project 4
";

/// Views that join the two, and the nodes of their plans behind those. The entries are looked for near the
/// left side where nobody else needs them: not where an output shows them, nor where another dictionary is
/// looked for in the document, since one walk finds the entries of both.
static ENTRY_PLANS: [(&str, &str); 3] = [
    (
        "create view T as select a.x, b.y from A a, B b where FollowsTok(a.x, b.y, 0, 2); output view T;",
        "6 Cross 2 5
7 Restricted 2 0
8 Project 7
9 Project 8
out T 9
",
    ),
    (
        "create view N as extract dictionary Names on d.text as z from Document d;
         create view T as select a.x, b.y from A a, B b where FollowsTok(a.x, b.y, 0, 2);
         output view N; output view T;",
        "6 DictPart 3
7 Project 6
8 Cross 2 5
9 SpanJoin 2 5
10 Project 9
out N 7
out T 10
",
    ),
    (
        "create view T as select a.x, b.y from A a, B b where FollowsTok(a.x, b.y, 0, 2);
         output view B; output view T;",
        "6 Cross 2 5
7 SpanJoin 2 5
8 Project 7
out B 5
out T 8
",
    ),
];

/// The plan of a program, shared, pushed and restricted.
fn restricted(alloc: Global, program: &str) -> Result<Plan, Fail> {
    let plan = lower(alloc, typed(alloc, program)?)?;
    let plan = push(alloc, share(alloc, plan)?)?;
    let plan = restrict(alloc, plan)?;
    Ok(plan)
}

#[test]
fn joins_look_near_their_left_rows_for_what_nobody_else_needs(rt: HostRuntime) -> Result<(), Fail> {
    let alloc = rt.alloc();
    for (views, want) in &PLANS {
        let program = format!(in alloc; "{VIEWS} {views}")?;
        let plan = restricted(alloc, program.as_str())?;
        let got = plan_text(alloc, &plan)?;
        let want = format!(in alloc; "{NODES}{want}")?;
        assert_eq!(rt; got.as_str(), want.as_str(), "of {views}");
    }
    Ok(())
}

#[test]
fn joins_look_near_their_left_rows_for_a_dictionary_that_nobody_else_needs(
    rt: HostRuntime,
) -> Result<(), Fail> {
    let alloc = rt.alloc();
    for (views, want) in &ENTRY_PLANS {
        let program = format!(in alloc; "{ENTRIES} {views}")?;
        let plan = restricted(alloc, program.as_str())?;
        let got = plan_text(alloc, &plan)?;
        let want = format!(in alloc; "{ENTRY_NODES}{want}")?;
        assert_eq!(rt; got.as_str(), want.as_str(), "of {views}");
    }
    Ok(())
}

#[test]
fn every_join_is_conditional(rt: HostRuntime) -> Result<(), Fail> {
    let alloc = rt.alloc();
    for (views, _) in &PLANS {
        let program = format!(in alloc; "{VIEWS} {views}")?;
        let plan = restricted(alloc, program.as_str())?;
        for node in plan.nodes().as_slice() {
            if let Node::Cross { conditional, .. } | Node::SpanJoin { conditional, .. } = node {
                assert!(rt; *conditional, "of {views}");
            }
        }
    }
    Ok(())
}

#[test]
fn a_plan_that_was_restricted_stays_as_it_is(rt: HostRuntime) -> Result<(), Fail> {
    let alloc = rt.alloc();
    for (views, want) in &PLANS {
        let program = format!(in alloc; "{VIEWS} {views}")?;
        let plan = restrict(alloc, restricted(alloc, program.as_str())?)?;
        let got = plan_text(alloc, &plan)?;
        let want = format!(in alloc; "{NODES}{want}")?;
        assert_eq!(rt; got.as_str(), want.as_str(), "of {views}");
    }
    Ok(())
}

/// Views that are products of the two before their conditions are pushed, and the nodes that their plans have
/// in their place: sides are turned where the left one alone can be looked for.
static TURNED: [(&str, &str); 3] = [
    (
        "create view C as select a.x, b.y from B b, A a where FollowsTok(b.y, a.x, 0, 2); output view C;",
        "5 Cross 2 4
6 Project 5
7 Select 6
8 Project 7
out C 8
",
    ),
    (
        "create view C as select a.x, b.y from A a, B b where FollowsTok(a.x, b.y, 0, 2); output view C;",
        "5 Cross 2 4
6 Select 5
7 Project 6
out C 7
",
    ),
    (
        "create view C as select b.y, c.y as z from B b, B c where FollowsTok(b.y, c.y, 0, 2); output view C;",
        "5 Cross 4 4
6 Select 5
7 Project 6
out C 7
",
    ),
];

#[test]
fn what_can_be_looked_for_goes_right(rt: HostRuntime) -> Result<(), Fail> {
    let alloc = rt.alloc();
    for (views, want) in &TURNED {
        let program = format!(in alloc; "{VIEWS} {views}")?;
        let plan = turn(alloc, lower(alloc, typed(alloc, program.as_str())?)?)?;
        let got = plan_text(alloc, &plan)?;
        let want = format!(in alloc; "{NODES}{want}")?;
        assert_eq!(rt; got.as_str(), want.as_str(), "of {views}");
    }
    Ok(())
}

#[test]
fn a_dictionary_may_stay_on_the_left(rt: HostRuntime) -> Result<(), Fail> {
    let alloc = rt.alloc();
    let program = format!(in alloc;
        "{ENTRIES} create view T as select a.x, b.y from B b, A a where FollowsTok(b.y, a.x, 0, 2); output view T;"
    )?;
    let plan = turn(alloc, lower(alloc, typed(alloc, program.as_str())?)?)?;
    let got = plan_text(alloc, &plan)?;
    let want = format!(in alloc; "{ENTRY_NODES}6 Cross 5 2\n7 Select 6\n8 Project 7\nout T 8\n")?;
    assert_eq!(rt; got.as_str(), want.as_str());
    Ok(())
}
