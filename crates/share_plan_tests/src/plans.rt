//! Plans without equal or unread nodes, by their texts.

use crate::programs::typed;
use plan_maker::{lower, plan_text};
use share_plan::{prune, share};
use std::test::Fail;

/// Programs and their plans: two dictionaries on the document's text are one node, and a view that is written
/// twice is one; so are dictionaries on views that become one; patterns with other groups, conditions and
/// dictionaries on another column stay apart.
static PLANS: [(&str, &str); 3] = [
    (
        "create dictionary Cities as ('New York');
         create dictionary Words as ('York', 'New');
         create view City as extract dictionary Cities on d.text as m from Document d;
         create view Word as extract dictionary Words on d.text as m from Document d;
         create view Town as extract dictionary Cities on t.text as m from Document t;
         output view City;
         output view Word;
         output view Town;",
        "0 Doc
1 Dict 0
2 DictPart 1
3 Project 2
4 DictPart 1
5 Project 4
out City 3
out Town 3
out Word 5
",
    ),
    (
        "create dictionary Cities as ('New York');
         create dictionary Words as ('York', 'New');
         create view City as extract dictionary Cities on d.text as m from Document d;
         create view Town as extract dictionary Cities on t.text as m from Document t;
         create view InCity as extract dictionary Words on c.m as n from City c;
         create view InTown as extract dictionary Cities on c.m as n from Town c;
         output view InCity;
         output view InTown;",
        "0 Doc
1 Dict 0
2 DictPart 1
3 Project 2
4 Dict 3
5 DictPart 4
6 Project 5
7 DictPart 4
8 Project 7
out InCity 6
out InTown 8
",
    ),
    (
        "create view First as extract regex /(a)(b)/ on d.text return group 1 as m from Document d;
         create view Second as extract regex /(a)(b)/ on d.text return group 2 as m from Document d;
         create view Long as select f.m from First f where GreaterThan(GetLength(f.m), 1);
         create view Short as select f.m from First f where GreaterThan(GetLength(f.m), 2);
         create view Same as select g.m from First g where GreaterThan(GetLength(g.m), 1);
         output view Second;
         output view Long;
         output view Short;
         output view Same;",
        "0 Doc
1 Regex 0
2 Project 1
3 Regex 0
4 Project 3
5 Select 2
6 Project 5
7 Select 2
8 Project 7
out Long 6
out Same 6
out Second 4
out Short 8
",
    ),
];

#[test]
fn plans_do_nothing_twice(rt: HostRuntime) -> Result<(), Fail> {
    let alloc = rt.alloc();
    for (program, want) in &PLANS {
        let plan = share(alloc, lower(alloc, typed(alloc, program)?)?)?;
        let got = plan_text(alloc, &plan)?;
        assert_eq!(rt; got.as_str(), *want, "of {program}");
    }
    Ok(())
}

#[test]
fn a_plan_that_was_shared_stays_as_it_is(rt: HostRuntime) -> Result<(), Fail> {
    let alloc = rt.alloc();
    for (program, want) in &PLANS {
        let plan = share(alloc, lower(alloc, typed(alloc, program)?)?)?;
        let again = share(alloc, plan)?;
        let got = plan_text(alloc, &again)?;
        assert_eq!(rt; got.as_str(), *want, "of {program}");
    }
    Ok(())
}

/// A program with views that no output needs: one that reads others and two that it reads, of which an
/// output needs one.
const UNREAD: &str = "create view A as extract regex /a/ on d.text as x from Document d;
     create view B as extract regex /b/ on d.text as y from Document d;
     create view Both as select a.x, b.y from A a, B b;
     create view C as extract regex /c/ on b.y as z from B b;
     output view C;";

#[test]
fn what_nobody_reads_is_dropped(rt: HostRuntime) -> Result<(), Fail> {
    let alloc = rt.alloc();
    let plan = prune(alloc, lower(alloc, typed(alloc, UNREAD)?)?)?;
    let got = plan_text(alloc, &plan)?;
    let want = "0 Doc
1 Regex 0
2 Project 1
3 Regex 2
4 Project 3
out C 4
";
    assert_eq!(rt; got.as_str(), want);
    Ok(())
}

/// A program of three views, of which two are joined first and then with the third.
const LATE: &str = "create view A as extract regex /a/ on d.text as x from Document d;
     create view B as extract regex /b/ on d.text as y from Document d;
     create view C as extract regex /c/ on d.text as z from Document d;
     create view Pair as select a.x, b.y from A a, B b;
     create view Trio as select p.x, c.z from Pair p, C c;
     output view Trio;";

#[test]
fn what_a_right_side_needs_stands_behind_the_left_one(rt: HostRuntime) -> Result<(), Fail> {
    let alloc = rt.alloc();
    let lowered = lower(alloc, typed(alloc, LATE)?)?;
    let got = plan_text(alloc, &lowered)?;
    let want = "0 Doc
1 Regex 0
2 Project 1
3 Regex 0
4 Project 3
5 Regex 0
6 Project 5
7 Cross 2 4
8 Project 7
9 Cross 8 6
10 Project 9
out Trio 10
";
    assert_eq!(rt; got.as_str(), want);
    let got = plan_text(alloc, &prune(alloc, lowered)?)?;
    let want = "0 Doc
1 Regex 0
2 Project 1
3 Regex 0
4 Project 3
5 Cross 2 4
6 Project 5
7 Regex 0
8 Project 7
9 Cross 6 8
10 Project 9
out Trio 10
";
    assert_eq!(rt; got.as_str(), want);
    Ok(())
}
