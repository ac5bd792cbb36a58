//! Plans of programs that are pushed, by their texts.

use crate::programs::typed;
use algebra::{Node, Plan};
use plan_maker::{lower, plan_text};
use push_select::push;
use std::test::Fail;

/// Two views of a column each: `x` is column 0 of its product with the other, and `y` column 1.
const VIEWS: &str = "create view A as extract regex /a/ on d.text as x from Document d;
     create view B as extract regex /b/ on d.text as y from Document d;";

/// Their nodes.
const NODES: &str = "0 Doc
1 Regex 0
2 Project 1
3 Regex 0
4 Project 3
";

/// Conditions on the two views, how many of them are left in selections, and what their plan has in place of
/// a product and a selection above it.
static PUSHED: [(&str, usize, &str); 7] = [
    (
        "FollowsTok(a.x, b.y, 0, 2)",
        0,
        "5 Cross 2 4
6 SpanJoin 2 4
7 Project 6
out C 7
",
    ),
    (
        "Contains(b.y, a.x)",
        0,
        "5 Cross 2 4
6 SpanJoin 2 4
7 Project 6
out C 7
",
    ),
    (
        "ContainsRegex(/c/, b.y) and GreaterThan(GetBegin(b.y), GetBegin(a.x))",
        2,
        "5 Cross 2 4
6 Select 3
7 Project 6
8 Cross 2 7
9 Select 8
10 Project 9
out C 10
",
    ),
    (
        "Overlaps(b.y, a.x) and And(Equals(a.x, b.y), MatchesRegex(/d/, b.y))",
        2,
        "5 Cross 2 4
6 Select 3
7 Project 6
8 SpanJoin 2 7
9 Select 8
10 Project 9
out C 10
",
    ),
    (
        "Follows(a.x, b.y, 0, 9) and Follows(b.y, a.x, 0, 9)",
        1,
        "5 Cross 2 4
6 SpanJoin 2 4
7 Select 6
8 Project 7
out C 8
",
    ),
    (
        "Contains(a.x, b.y) and ContainsRegex(/c/, a.x) and Overlaps(a.x, b.y)",
        2,
        "5 Select 1
6 Project 5
7 Cross 6 4
8 SpanJoin 6 4
9 Select 8
10 Project 9
out C 10
",
    ),
    (
        "Or(Overlaps(a.x, b.y), Contains(a.x, b.y))",
        1,
        "5 Cross 2 4
6 Cross 2 4
7 Select 6
8 Project 7
out C 8
",
    ),
];

/// How many conditions the selections of a plan have.
fn conditions_left(plan: &Plan) -> usize {
    let mut left: usize = 0;
    for node in plan.nodes().as_slice() {
        left = left.saturating_add(conditions_of(node));
    }
    left
}

/// How many a node has.
fn conditions_of(node: &Node) -> usize {
    match node {
        Node::Select { conds, .. } => conds.as_slice().len(),
        _ => 0,
    }
}

#[test]
fn conditions_go_down_and_products_become_joins(rt: HostRuntime) -> Result<(), Fail> {
    let alloc = rt.alloc();
    for (conds, left, want) in &PUSHED {
        let program = format!(in alloc;
            "{VIEWS} create view C as select a.x, b.y from A a, B b where {conds}; output view C;"
        )?;
        let plan = push(alloc, lower(alloc, typed(alloc, program.as_str())?)?)?;
        let got = plan_text(alloc, &plan)?;
        let want = format!(in alloc; "{NODES}{want}")?;
        assert_eq!(rt; got.as_str(), want.as_str(), "of {conds}");
        assert_eq!(rt;
            conditions_left(&plan),
            *left,
            "no condition is left that stands in a join, or lower down: {conds}"
        );
    }
    Ok(())
}

/// Three views: `b` is joined to `a`, and `c` to both.
const THREE: &str = "create view Word as extract regex /[a-z]+/ on d.text as word from Document d;
     create view Three as
       select a.word as first, b.word as second, c.word as third from Word a, Word b, Word c
       where Follows(a.word, b.word, 0, 1) and FollowsTok(b.word, c.word, 0, 1) and ContainsRegex(/x/, c.word)
       consolidate on a.word order by first limit 3;
     output view Three;";

#[test]
fn three_views_have_no_product_that_is_read(rt: HostRuntime) -> Result<(), Fail> {
    let alloc = rt.alloc();
    let plan = push(alloc, lower(alloc, typed(alloc, THREE)?)?)?;
    let got = plan_text(alloc, &plan)?;
    let want = "0 Doc
1 Regex 0
2 Project 1
3 Cross 2 2
4 SpanJoin 2 2
5 Cross 4 2
6 Select 1
7 Project 6
8 SpanJoin 4 7
9 Consolidate 8
10 Project 9
11 OrderLimit 10
out Three 11
";
    assert_eq!(rt; got.as_str(), want);
    Ok(())
}

/// Three views of a column each, and the nodes of two of them and of their product.
const MORE: &str = "create view C as extract regex /c/ on d.text as z from Document d;";

const MORE_NODES: &str = "5 Regex 0
6 Project 5
7 Cross 2 4
";

/// Predicates that connect three views in each way, and what their plan has behind the product of the first
/// two. A product that a join takes the place of stays, unread.
static CONNECTED: [(&str, &str); 6] = [
    (
        "Overlaps(a.x, b.y)",
        "8 SpanJoin 2 4
9 Cross 8 6
10 Project 9
out T 10
",
    ),
    (
        "Overlaps(b.y, c.z)",
        "8 Cross 7 6
9 SpanJoin 4 6
10 Cross 2 9
11 Project 10
out T 11
",
    ),
    (
        "Overlaps(a.x, c.z)",
        "8 Cross 7 6
9 SpanJoin 2 6
10 Cross 4 9
11 Project 10
12 Project 10
out T 12
",
    ),
    (
        "Overlaps(a.x, b.y) and Contains(c.z, b.y)",
        "8 SpanJoin 2 4
9 Cross 8 6
10 SpanJoin 8 6
11 Project 10
out T 11
",
    ),
    (
        "Overlaps(a.x, b.y) and Contains(c.z, a.x)",
        "8 SpanJoin 2 4
9 Cross 8 6
10 SpanJoin 8 6
11 Project 10
out T 11
",
    ),
    (
        "Overlaps(a.x, c.z) and Contains(c.z, b.y)",
        "8 Cross 7 6
9 SpanJoin 4 6
10 SpanJoin 2 9
11 Project 10
out T 11
",
    ),
];

#[test]
fn of_three_views_those_are_joined_first_that_a_predicate_connects(
    rt: HostRuntime,
) -> Result<(), Fail> {
    let alloc = rt.alloc();
    for (conds, want) in &CONNECTED {
        let program = format!(in alloc;
            "{VIEWS} {MORE} create view T as select a.x, b.y, c.z from A a, B b, C c where {conds}; output view T;"
        )?;
        let plan = push(alloc, lower(alloc, typed(alloc, program.as_str())?)?)?;
        let got = plan_text(alloc, &plan)?;
        let want = format!(in alloc; "{NODES}{MORE_NODES}{want}")?;
        assert_eq!(rt; got.as_str(), want.as_str(), "of {conds}");
        assert_eq!(rt;
            conditions_left(&plan),
            0,
            "each predicate stands in a join: {conds}"
        );
    }
    Ok(())
}

/// A view of two views, one of which a predicate connects with a third.
const NESTED: &str = "create view V as select a.x, b.y from A a, B b;
     create view T as select v.y, c.z from V v, C c where Overlaps(v.x, c.z);
     output view T;";

#[test]
fn columns_of_a_product_are_joined_below_it(rt: HostRuntime) -> Result<(), Fail> {
    let alloc = rt.alloc();
    let program = format!(in alloc; "{VIEWS} {MORE} {NESTED}")?;
    let plan = push(alloc, lower(alloc, typed(alloc, program.as_str())?)?)?;
    let got = plan_text(alloc, &plan)?;
    let want = format!(in alloc;
        "{NODES}{MORE_NODES}8 Project 7
9 Cross 8 6
10 SpanJoin 2 6
11 Cross 4 10
12 Project 11
13 Project 11
14 Project 11
out T 14
"
    )?;
    assert_eq!(rt; got.as_str(), want.as_str());
    Ok(())
}
