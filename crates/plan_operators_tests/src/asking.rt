//! Plans whose nodes are asked for by outputs, by other nodes, and by conditional joins of which some have no left row.

use crate::evaluation::{expect_rows, put_column, put_cross, put_matches, put_words};
use crate::setup::{GREAT, NONE, SMALL, TWO_WORDS, tables_of};
use crate::standing::showing;
use algebra::{Nodes, Plan};
use span_token::OutOfMemory;
use std::alloc::Global;
use std::test::Fail;

/// Puts all pairs of the words before them, which stay on the board where the pairs are made: nobody is given rows
/// that he reads on both sides.
fn put_pairs(nodes: &mut Nodes, words: u32) -> Result<u32, Fail> {
    put_cross(nodes, words, words, false)
}

/// A join that asks for its right side only where its left one has a row.
fn put_join(nodes: &mut Nodes, left: u32, right: u32) -> Result<u32, Fail> {
    put_cross(nodes, left, right, true)
}

/// The pairs of small words, node 3, as the right side of two joins, nodes 8 and 9: those of the matches of two
/// other patterns, nodes 5 and 7.
fn two_left_sides(alloc: Global, patterns: [u32; 2]) -> Result<Plan, Fail> {
    let mut nodes = Nodes::new(alloc);
    put_words(alloc, &mut nodes, SMALL)?;
    put_pairs(&mut nodes, 2)?;
    for pattern in patterns {
        let input = put_matches(alloc, &mut nodes, pattern, &[0])?;
        put_column(alloc, &mut nodes, input, 1)?;
    }
    put_join(&mut nodes, 5, 3)?;
    put_join(&mut nodes, 7, 3)?;
    showing(alloc, nodes, tables_of(alloc)?, &[8, 9])
}

/// The small words.
static SMALL_WORDS: [&str; 5] = ["1-3", "4-7", "9-10", "15-19", "20-23"];

/// The great words.
static GREAT_WORDS: [&str; 2] = ["0-3", "8-10"];

/// One word of small letters or two.
static ONE_OR_TWO: [&str; 3] = ["1-7", "9-10", "15-23"];

/// Puts the line of node `n` whose rows are spans, each with all pairs of small words.
fn push_joined(n: &str, lefts: &[&str], text: &mut String) -> Result<(), OutOfMemory> {
    text.push_str(n)?;
    text.push_str(" 3:")?;
    for left in lefts {
        for first in &SMALL_WORDS {
            for second in &SMALL_WORDS {
                for part in ["[", left, " ", first, " ", second, "]"] {
                    text.push_str(part)?;
                }
            }
        }
    }
    text.push_str("\n")?;
    Ok(())
}

/// What nodes 2, 3, 5, 7, 8 and 9 of `two_left_sides` have, given the small words where they are left, and the left
/// spans of both joins.
fn joined_text(
    alloc: Global,
    right: &str,
    first: &[&str],
    second: &[&str],
) -> Result<String, OutOfMemory> {
    let mut text = String::from_str(alloc, "2 ")?;
    text.push_str(right)?;
    text.push_str("\n3 -\n5 -\n7 -\n")?;
    push_joined("8", first, &mut text)?;
    push_joined("9", second, &mut text)?;
    Ok(text)
}

#[test]
fn right_sides_wait_for_each_left_side_whatever_its_number(rt: HostRuntime) -> Result<(), Fail> {
    let alloc = rt.alloc();
    let words = "1:[1-3][4-7][9-10][15-19][20-23]";
    let none: &[&str] = &[];
    let great = GREAT_WORDS.as_slice();
    let table: [([u32; 2], &str, &[&str], &[&str]); 4] = [
        ([NONE, NONE], "-", none, none),
        ([NONE, GREAT], words, none, great),
        ([GREAT, NONE], words, great, none),
        ([GREAT, TWO_WORDS], words, great, ONE_OR_TWO.as_slice()),
    ];
    for (patterns, right, first, second) in table {
        let want = joined_text(alloc, right, first, second)?;
        let plan = two_left_sides(alloc, patterns)?;
        expect_rows(
            &rt,
            alloc,
            &plan,
            &[2, 3, 5, 7, 8, 9],
            want.as_str(),
            &patterns,
        )?;
    }
    Ok(())
}

#[test]
fn a_right_side_that_one_of_two_joins_asks_for_is_there(rt: HostRuntime) -> Result<(), Fail> {
    let alloc = rt.alloc();
    let plan = far_words(alloc)?;
    expect_rows(
        &rt,
        alloc,
        &plan,
        &[3, 4, 6, 7, 8],
        "3 -
4 1:[0-3][8-10]
6 -
7 2:
8 2:[0-3 1-3][0-3 4-7][0-3 9-10][0-3 15-19][0-3 20-23][8-10 1-3][8-10 4-7][8-10 9-10][8-10 15-19][8-10 20-23]
",
        &[],
    )
}

/// Small words, node 2, as the right side of two joins, nodes 7 and 8: those of the matches of no pattern, node 6,
/// and of the great words, node 4, which an output shows too.
fn far_words(alloc: Global) -> Result<Plan, Fail> {
    let mut nodes = Nodes::new(alloc);
    put_words(alloc, &mut nodes, SMALL)?;
    for pattern in [GREAT, NONE] {
        let input = put_matches(alloc, &mut nodes, pattern, &[0])?;
        put_column(alloc, &mut nodes, input, 1)?;
    }
    put_join(&mut nodes, 6, 2)?;
    put_join(&mut nodes, 4, 2)?;
    showing(alloc, nodes, tables_of(alloc)?, &[4, 7, 8])
}

/// The great words, behind which so many nodes stand in a row, each of which reads the one before it.
fn ladder(alloc: Global, steps: u32) -> Result<Plan, Fail> {
    let mut nodes = Nodes::new(alloc);
    put_words(alloc, &mut nodes, GREAT)?;
    let mut last = 2;
    for _step in 0..steps {
        last = put_column(alloc, &mut nodes, last, 0)?;
    }
    showing(alloc, nodes, tables_of(alloc)?, &[last])
}

#[test]
fn plans_may_be_long(rt: HostRuntime) -> Result<(), Fail> {
    let alloc = rt.alloc();
    let plan = ladder(alloc, 2000)?;
    let want = "2 -\n1000 -\n2002 1:[0-3][8-10]\n";
    expect_rows(&rt, alloc, &plan, &[2, 1000, 2002], want, &[])
}
