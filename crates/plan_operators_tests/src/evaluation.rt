//! Whole plans on the document, with the rows that are left of their nodes.

use crate::setup::{
    ANY_CASE, EXACT, GREAT, NONE, SMALL, TWO_WORDS, alone, begins_behind, columns, document,
    numbers, of_columns, tables_of, text_of,
};
use crate::standing::{put, showing};
use algebra::{JoinKind, Local, Node, Nodes, Plan};
use plan_operators::{EvaluationRoom, Schedule, evaluate};
use row_values::Rows;
use scalar_ops::{Op, Tools};
use span_token::{Document, OutOfMemory};
use std::alloc::Global;
use std::process::Abort;
use std::test::Fail;

/// The rows of some nodes after the plan is evaluated, a line each; `-` where none are left.
pub(crate) fn evaluated(alloc: Global, plan: &Plan, seen: &[u32]) -> Result<String, Fail> {
    let doc = document(alloc)?;
    evaluated_on(alloc, plan, &doc, seen)
}

/// The same on a document.
pub(crate) fn evaluated_on<'d>(
    alloc: Global,
    plan: &'d Plan,
    doc: &Document<'d>,
    seen: &[u32],
) -> Result<String, Fail> {
    let mut tools = Tools::new(alloc, plan.tables())?;
    let schedule = Schedule::new(alloc, plan)?;
    let mut room = EvaluationRoom::new(alloc);
    let board = evaluate(alloc, &mut tools, &mut room, doc, &schedule)?;
    let mut text = String::new(alloc);
    for n in seen {
        push_line(alloc, *n, board.as_slice(), &mut text)?;
    }
    Ok(text)
}

fn push_line(
    alloc: Global,
    n: u32,
    board: &[Option<Rows<'_>>],
    text: &mut String,
) -> Result<(), OutOfMemory> {
    let line = match board.get(n as usize) {
        Some(Some(rows)) => {
            let rows = text_of(alloc, rows)?;
            format!(in alloc; "{n} {rows}\n")?
        }
        _ => format!(in alloc; "{n} -\n")?,
    };
    text.push_str(line.as_str())?;
    Ok(())
}

/// Checks the rows of some nodes after the plan is evaluated, a line each; `case` are numbers that set the plan apart from
/// others of the same test.
pub(crate) fn expect_rows<R: Abort>(
    rt: &R,
    alloc: Global,
    plan: &Plan,
    seen: &[u32],
    wanted: &str,
    case: &[u32],
) -> Result<(), Fail> {
    let got = evaluated(alloc, plan, seen)?;
    assert_eq!(rt; got.as_str(), wanted, "nodes {seen:?} of {case:?}");
    Ok(())
}

/// Puts the matches of a pattern in the document, which is node 0, with the spans of some groups.
pub(crate) fn put_matches(
    alloc: Global,
    nodes: &mut Nodes,
    pattern: u32,
    groups: &[u32],
) -> Result<u32, Fail> {
    let groups = numbers(alloc, groups)?;
    put(
        nodes,
        Node::Regex {
            input: 0,
            column: 0,
            pattern,
            groups,
        },
    )
}

/// Puts one column of a node.
pub(crate) fn put_column(
    alloc: Global,
    nodes: &mut Nodes,
    input: u32,
    column: u32,
) -> Result<u32, Fail> {
    let items = columns(alloc, &[column])?;
    put(nodes, Node::Project { input, items })
}

/// Puts the document, the matches of a pattern, and these alone, which are node 2.
pub(crate) fn put_words(alloc: Global, nodes: &mut Nodes, pattern: u32) -> Result<(), Fail> {
    put(nodes, Node::Doc)?;
    put_matches(alloc, nodes, pattern, &[0])?;
    put_column(alloc, nodes, 1, 1)?;
    Ok(())
}

/// Puts the rows of node 2 whose span begins behind character 9, which are node 3.
fn put_late(alloc: Global, nodes: &mut Nodes) -> Result<(), Fail> {
    let conds = alone(alloc, begins_behind(alloc, 9)?)?;
    put(nodes, Node::Select { input: 2, conds })?;
    Ok(())
}

/// Puts all pairs of rows, conditional or not.
pub(crate) fn put_cross(
    nodes: &mut Nodes,
    left: u32,
    right: u32,
    conditional: bool,
) -> Result<u32, Fail> {
    put(
        nodes,
        Node::Cross {
            left,
            right,
            conditional,
        },
    )
}

/// The predicates of the joins, and whether a join is conditional.
static KINDS: [(JoinKind, bool); 7] = [
    (JoinKind::Follows { min: 0, max: 5 }, false),
    (JoinKind::FollowsTok { min: 1, max: 3 }, true),
    (JoinKind::Overlaps, false),
    (JoinKind::Contains, true),
    (JoinKind::FollowsBack { min: 0, max: 2 }, false),
    (JoinKind::FollowsTokBack { min: 0, max: 2 }, true),
    (JoinKind::ContainsBack, false),
];

/// A word of small letters, of whole tokens.
const ONE: Local = Local::TokenRegex {
    low: 1,
    high: 1,
    pattern: SMALL,
};

/// One word or two, of whole tokens.
const TWO: Local = Local::TokenRegex {
    low: 1,
    high: 2,
    pattern: TWO_WORDS,
};

const ENTRY: Local = Local::Dict { dict: ANY_CASE };

const NOWHERE: Local = Local::Dict { dict: NONE };

/// The predicates of the restricted joins, and what they look for.
pub(crate) static NEAR: [(JoinKind, Local); 10] = [
    (JoinKind::Follows { min: 1, max: 5 }, ONE),
    (JoinKind::FollowsTok { min: 0, max: 1 }, TWO),
    (JoinKind::FollowsTok { min: 2, max: 3 }, ONE),
    (JoinKind::Overlaps, TWO),
    (JoinKind::Contains, ONE),
    (JoinKind::FollowsBack { min: 1, max: 1 }, ONE),
    (JoinKind::FollowsTokBack { min: 0, max: 1 }, ENTRY),
    (JoinKind::ContainsBack, TWO),
    (JoinKind::ContainsBack, ENTRY),
    (JoinKind::Overlaps, NOWHERE),
];

/// Puts the great words, which are node 2, and the sides of the joins: one or two small words, node 4, and the
/// second of two, node 5, both of which are the right side, node 6; and the second ones with the great words
/// twice, the left side, node 8. Null stands on both sides.
fn put_sides(alloc: Global, nodes: &mut Nodes) -> Result<(), Fail> {
    put_words(alloc, nodes, GREAT)?;
    put_matches(alloc, nodes, TWO_WORDS, &[0, 1])?;
    for column in 1..3 {
        put_column(alloc, nodes, 3, column)?;
    }
    for (left, right) in [(4, 5), (5, 2), (7, 2)] {
        put(nodes, Node::Union { left, right })?;
    }
    Ok(())
}

/// The joins of both sides, nodes 9 to 15, and the restricted ones of the left side, nodes 16 to 25.
fn joins(alloc: Global, shown: &[u32]) -> Result<Plan, Fail> {
    let mut nodes = Nodes::new(alloc);
    put_sides(alloc, &mut nodes)?;
    for (kind, conditional) in &KINDS {
        let node = Node::SpanJoin {
            left: 8,
            right: 6,
            kind: *kind,
            lc: 0,
            rc: 0,
            conditional: *conditional,
        };
        put(&mut nodes, node)?;
    }
    for (kind, local) in &NEAR {
        let node = Node::Restricted {
            outer: 8,
            source: 0,
            kind: *kind,
            lc: 0,
            local: *local,
        };
        put(&mut nodes, node)?;
    }
    showing(alloc, nodes, tables_of(alloc)?, shown)
}

#[test]
fn joins_give_the_pairs_on_which_their_predicate_holds(rt: HostRuntime) -> Result<(), Fail> {
    let alloc = rt.alloc();
    let shown = [6, 8, 9, 10, 11, 12, 13, 14, 15];
    let plan = joins(alloc, &shown)?;
    expect_rows(
        &rt,
        alloc,
        &plan,
        &shown,
        "6 1:[Null][1-7][3-7][9-10][15-23][19-23]
8 1:[Null][0-3][0-3][3-7][8-10][8-10][19-23]
9 2:[0-3 3-7][0-3 3-7][3-7 9-10][8-10 15-23][8-10 15-23]
10 2:[0-3 9-10][0-3 9-10][3-7 15-23][8-10 15-23][8-10 15-23][8-10 19-23][8-10 19-23]
11 2:[0-3 1-7][0-3 1-7][3-7 1-7][3-7 3-7][8-10 9-10][8-10 9-10][19-23 15-23][19-23 19-23]
12 2:[3-7 3-7][8-10 9-10][8-10 9-10][19-23 19-23]
13 2:[8-10 1-7][8-10 1-7][8-10 3-7][8-10 3-7]
14 2:[8-10 1-7][8-10 1-7][8-10 3-7][8-10 3-7]
15 2:[3-7 1-7][3-7 3-7][19-23 15-23][19-23 19-23]
",
        &[],
    )
}

#[test]
fn restricted_joins_find_what_is_near(rt: HostRuntime) -> Result<(), Fail> {
    let alloc = rt.alloc();
    let shown = [16, 17, 18, 19, 20, 21, 22, 23, 24, 25];
    let plan = joins(alloc, &shown)?;
    expect_rows(
        &rt,
        alloc,
        &plan,
        &shown,
        "16 3:[0-3 0-24 4-7][0-3 0-24 4-7][8-10 0-24 15-19][8-10 0-24 15-19]
17 3:[0-3 0-24 4-7][0-3 0-24 4-7]
18 3:[3-7 0-24 15-19][8-10 0-24 15-19][8-10 0-24 15-19][8-10 0-24 20-23][8-10 0-24 20-23]
19 3:[3-7 0-24 4-7][19-23 0-24 15-23][19-23 0-24 20-23]
20 3:[3-7 0-24 4-7][19-23 0-24 20-23]
21 3:[8-10 0-24 4-7][8-10 0-24 4-7]
22 3:[3-7 0-24 0-3][8-10 0-24 0-3][8-10 0-24 0-3]
23 3:[19-23 0-24 15-23]
24 3:[0-3 0-24 0-3][0-3 0-24 0-3][8-10 0-24 8-10][8-10 0-24 8-10][19-23 0-24 15-23]
25 3:
",
        &[],
    )
}

/// Four dictionaries in one walk, one of them twice, one that isn't there, and the rows of each.
fn dictionaries(alloc: Global) -> Result<Plan, Fail> {
    let mut nodes = Nodes::new(alloc);
    put(&mut nodes, Node::Doc)?;
    let dicts = numbers(alloc, &[ANY_CASE, EXACT, ANY_CASE, NONE])?;
    put(
        &mut nodes,
        Node::Dict {
            input: 0,
            column: 0,
            dicts,
        },
    )?;
    for number in 0..4 {
        put(&mut nodes, Node::DictPart { input: 1, number })?;
    }
    showing(alloc, nodes, tables_of(alloc)?, &[2, 3, 4, 5])
}

#[test]
fn one_walk_serves_several_dictionaries(rt: HostRuntime) -> Result<(), Fail> {
    let alloc = rt.alloc();
    let plan = dictionaries(alloc)?;
    expect_rows(
        &rt,
        alloc,
        &plan,
        &[0, 1, 2, 3, 4, 5],
        "0 -
1 -
2 2:[0-24 0-3][0-24 8-10][0-24 15-23]
3 2:[0-24 4-10][0-24 8-10][0-24 15-19]
4 2:[0-24 0-3][0-24 8-10][0-24 15-23]
5 2:
",
        &[],
    )
}

/// Words of small letters, of which the late ones are an output and are read by three nodes, by one of them
/// twice; all words are read by three.
pub(crate) fn read_often(alloc: Global) -> Result<Plan, Fail> {
    let mut nodes = Nodes::new(alloc);
    put_words(alloc, &mut nodes, SMALL)?;
    put_late(alloc, &mut nodes)?;
    put(&mut nodes, Node::Union { left: 2, right: 3 })?;
    put(&mut nodes, Node::Minus { left: 2, right: 3 })?;
    put_cross(&mut nodes, 3, 3, false)?;
    put(&mut nodes, Node::Union { left: 5, right: 5 })?;
    showing(alloc, nodes, tables_of(alloc)?, &[3, 4, 6, 7])
}

/// What the nodes of `read_often` have that outputs show.
pub(crate) const READ_OFTEN: &str = "3 1:[15-19][20-23]
4 1:[1-3][4-7][9-10][15-19][15-19][20-23][20-23]
6 2:[15-19 15-19][15-19 20-23][20-23 15-19][20-23 20-23]
7 1:[1-3][1-3][4-7][4-7][9-10][9-10]
";

#[test]
fn rows_are_there_for_all_who_read_them(rt: HostRuntime) -> Result<(), Fail> {
    let alloc = rt.alloc();
    let plan = read_often(alloc)?;
    expect_rows(&rt, alloc, &plan, &[3, 4, 6, 7], READ_OFTEN, &[])?;
    // rows are passed on, and given up
    expect_rows(&rt, alloc, &plan, &[0, 1, 2], "0 -\n1 -\n2 -\n", &[])
}

/// The union of words with the late ones of them.
fn words_and_late(alloc: Global, shown: &[u32]) -> Result<Plan, Fail> {
    let mut nodes = Nodes::new(alloc);
    put_words(alloc, &mut nodes, SMALL)?;
    put_late(alloc, &mut nodes)?;
    put(&mut nodes, Node::Union { left: 2, right: 3 })?;
    showing(alloc, nodes, tables_of(alloc)?, shown)
}

#[test]
fn both_sides_are_given_up_to_their_last_reader(rt: HostRuntime) -> Result<(), Fail> {
    let alloc = rt.alloc();
    let table: [(&[u32], &str); 2] = [
        (
            &[4],
            "2 -\n3 -\n4 1:[1-3][4-7][9-10][15-19][15-19][20-23][20-23]\n",
        ),
        (
            &[3, 4],
            "2 -\n3 1:[15-19][20-23]\n4 1:[1-3][4-7][9-10][15-19][15-19][20-23][20-23]\n",
        ),
    ];
    for (shown, want) in table {
        let plan = words_and_late(alloc, shown)?;
        expect_rows(&rt, alloc, &plan, &[2, 3, 4], want, shown)?;
    }
    Ok(())
}

/// The pairs of great words of which the second follows the first, and what `others` gives of all pairs.
fn pairs(alloc: Global, shown: &[u32]) -> Result<Plan, Fail> {
    let mut nodes = Nodes::new(alloc);
    put_words(alloc, &mut nodes, GREAT)?;
    put_cross(&mut nodes, 2, 2, false)?;
    let follows = of_columns(alloc, Op::Follows { min: 0, max: 9 }, 0, 1)?;
    let conds = alone(alloc, follows)?;
    put(&mut nodes, Node::Select { input: 3, conds })?;
    put(&mut nodes, Node::Minus { left: 3, right: 4 })?;
    showing(alloc, nodes, tables_of(alloc)?, shown)
}

#[test]
fn pairs_are_kept_where_another_node_reads_them(rt: HostRuntime) -> Result<(), Fail> {
    let alloc = rt.alloc();
    let table: [(&[u32], &str); 3] = [
        (&[4], "3 -\n4 2:[0-3 8-10]\n5 -\n"),
        (
            &[3, 4],
            "3 2:[0-3 0-3][0-3 8-10][8-10 0-3][8-10 8-10]\n4 2:[0-3 8-10]\n5 -\n",
        ),
        (
            &[4, 5],
            "3 -\n4 2:[0-3 8-10]\n5 2:[0-3 0-3][8-10 0-3][8-10 8-10]\n",
        ),
    ];
    for (shown, want) in table {
        let plan = pairs(alloc, shown)?;
        expect_rows(&rt, alloc, &plan, &[3, 4, 5], want, shown)?;
    }
    Ok(())
}

/// Joins whose left side has no row, of matches of a pattern that isn't there; the right side of two of them,
/// node 3, has some.
fn empty_left(alloc: Global) -> Result<Plan, Fail> {
    let mut nodes = Nodes::new(alloc);
    put_words(alloc, &mut nodes, NONE)?;
    put_matches(alloc, &mut nodes, SMALL, &[0])?;
    put_cross(&mut nodes, 2, 3, true)?;
    put(
        &mut nodes,
        Node::SpanJoin {
            left: 2,
            right: 3,
            kind: JoinKind::Overlaps,
            lc: 0,
            rc: 1,
            conditional: true,
        },
    )?;
    put(
        &mut nodes,
        Node::Restricted {
            outer: 2,
            source: 0,
            kind: JoinKind::Overlaps,
            lc: 0,
            local: Local::Dict { dict: ANY_CASE },
        },
    )?;
    showing(alloc, nodes, tables_of(alloc)?, &[4, 5, 6])
}

#[test]
fn joins_without_a_left_row_have_none_and_leave_their_right_side(
    rt: HostRuntime,
) -> Result<(), Fail> {
    let alloc = rt.alloc();
    let plan = empty_left(alloc)?;
    expect_rows(
        &rt,
        alloc,
        &plan,
        &[2, 3, 4, 5, 6],
        "2 -\n3 -\n4 3:\n5 3:\n6 3:\n",
        &[],
    )
}

/// A join whose left side, node 2, has no row; its right side is a join too, node 5, of node 3 with node 4.
fn empty_far_left(alloc: Global, shown: &[u32]) -> Result<Plan, Fail> {
    let mut nodes = Nodes::new(alloc);
    put_words(alloc, &mut nodes, NONE)?;
    for pattern in [SMALL, GREAT] {
        put_matches(alloc, &mut nodes, pattern, &[0])?;
    }
    for (left, right) in [(3, 4), (2, 5)] {
        put_cross(&mut nodes, left, right, true)?;
    }
    showing(alloc, nodes, tables_of(alloc)?, shown)
}

#[test]
fn what_waits_for_a_node_that_is_left_out_is_left_out_too(rt: HostRuntime) -> Result<(), Fail> {
    let alloc = rt.alloc();
    let table: [(&[u32], &str); 2] = [
        (&[6], "2 -\n3 -\n4 -\n5 -\n6 5:\n"),
        (&[4, 6], "2 -\n3 -\n4 2:[0-24 0-3][0-24 8-10]\n5 -\n6 5:\n"),
    ];
    for (shown, want) in table {
        let plan = empty_far_left(alloc, shown)?;
        expect_rows(&rt, alloc, &plan, &[2, 3, 4, 5, 6], want, shown)?;
    }
    Ok(())
}
