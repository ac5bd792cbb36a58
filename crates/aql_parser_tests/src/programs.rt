//! A smallest program for each line of the grammar, near misses, and sizes.

ghost use Rattle.std.specs.Prelude.{◌<◌, ◌^◌, All, length};
ghost use Rattle.aql_syntax.specs.Printing.{CanBePrinted};
ghost use Rattle.aql_syntax.specs.Views.{statement_of};

use crate::reading::{is_text, lexed, parsed, shown};
use aql_lexer::{Tok, TokKind};
use aql_parser::{MAX_NESTING, NoTree, Sizes, first_run, measure, parse_statement};
use aql_syntax::{Statement, print};
use span_token::Failure;
use std::alloc::Global;
use std::process::Abort;
use std::test::Fail;

/// A smallest program for each line of the grammar.
static PROGRAMS: [&str; 33] = [
    "",
    "module m;",
    "require document with columns text Text;",
    "export view V;",
    "create dictionary D as ('a');",
    "create dictionary \"select\" as ('a', 'b');",
    "output view V; output view V as 'x';",
    "module m; output view V;",
    "CREATE View V AS Select A.b FROM A;",
    "create view V as select A.b as c, f(A.b) as \"d e\" from A;",
    "create view V as select 1 as a, 's' as b, /p/ as c, n as d, f() as e from W A;",
    "create view V as select Count(*) as a, f(-1, g(A.b, x)) as b, dictionary(A.b) as c from A;",
    "create view V as select A.b from A, W w, (select A.b from A) q;",
    "create view V as select A.b from A where f(A.b) and g(A.b);",
    "create view V as select A.b from A consolidate on A.b;",
    "create view V as select A.b from A consolidate on A.b using 'ExactMatch';",
    "create view V as select A.b from A group by A.b, A.c order by A.b, f(A.c) limit 2;",
    "create view V as (select A.b from A) minus (select A.b from A);",
    "create view V as (select A.b from A) union all (select A.b from A);",
    "create view V as (select A.b from A) union all (select A.b from A) union all (select A.b from A);",
    "create view V as extract regex /p/ on A.text as c from Document A;",
    "create view V as extract regex /p/ on A.text return group 0 as c from Document A;",
    "create view V as extract regex /p/ on A.b return group 1 as c and group 2 as d from W A;",
    "create view V as extract regex /p/ on 1 token in A.b as c from W A;",
    "create view V as extract regex /p/ on between 1 and 2 tokens in A.b as c from W A;",
    "create view V as extract A.x, f(A.x) as y, regex /p/ on A.b as c from W A;",
    "create view V as extract dictionary D on A.b as c from W A;",
    "create view V as extract dictionary 'm.D' with flags 'Exact' on A.b as c from W A;",
    "create view V as extract dictionary D with flags 'IgnoreCase' on A.b as c from W A;",
    "create view V as extract dictionary(A.x) as y, dictionary D on A.b as c from W A;",
    "create view V as extract blocks with count 2 and separation 3 tokens on A.b as c from W A;",
    "create view V as extract blocks with count between 2 and 4 and separation between 0 and 3 characters on A.b as c from W A;",
    "create view V as extract regex /p/ on A.b as c from (select A.b from A) q having f(c) and g(c) consolidate on c limit 1;",
];

/// Programs of which one statement has no tree, with the statement and its line.
static NEAR_MISSES: [(&str, &str); 28] = [
    (";", "fault 1:1"),
    ("select A.b from A;", "fault 1:1"),
    ("output view V", "fault 1:1"),
    ("output view V; x", "fault 2:1"),
    ("output view V as 'a' 'b';", "fault 1:1"),
    ("output view V as x;", "fault 1:1"),
    ("output view from;", "fault 1:1"),
    ("module m; module n;", "fault 2:1"),
    ("output view V;\nmodule m;", "fault 2:2"),
    ("output view V;\n\noutput views W;\noutput X;", "fault 2:3"),
    (
        "output view V;\noutput view W;\noutput view X as;",
        "fault 3:3",
    ),
    ("require document with columns Text text;", "fault 1:1"),
    ("create dictionary D as ();", "fault 1:1"),
    ("create dictionary D as ('a';", "fault 1:1"),
    ("create view V as select f(A.b) from A;", "fault 1:1"),
    ("create view V as select f(A.b,) as c from A;", "fault 1:1"),
    ("create view V as select f(A.b as c from A;", "fault 1:1"),
    ("create view V as select A.b from A where;", "fault 1:1"),
    ("create view V as select A.b from A limit x;", "fault 1:1"),
    (
        "create view V as select A.b from A limit 1 order by A.b;",
        "fault 1:1",
    ),
    (
        "create view V as select A.b from (select A.b from A);",
        "fault 1:1",
    ),
    ("create view V as (select A.b from A);", "fault 1:1"),
    (
        "create view V as (select A.b from A) union (select A.b from A);",
        "fault 1:1",
    ),
    (
        "create view V as (select A.b from A) minus (select A.b from A) minus (select A.b from A);",
        "fault 1:1",
    ),
    (
        "create view V as extract regex /p/ on between 1 tokens in A.b as c from W A;",
        "fault 1:1",
    ),
    (
        "create view V as extract regex /p/ on A.b from W A;",
        "fault 1:1",
    ),
    (
        "create view V as extract dictionary D with flags 'exact' on A.b as c from W A;",
        "fault 1:1",
    ),
    (
        "create view V as extract A.x, blocks with count 2 and separation 3 tokens on A.b as c from W A;",
        "fault 1:1",
    ),
];

/// Texts with the number of their statements and how deep they nest.
static SIZES: [(&str, u32, u32); 11] = [
    ("", 0, 0),
    ("a", 1, 0),
    (";", 1, 0),
    ("a; b;", 2, 0),
    ("a;; b", 3, 0),
    ("()()", 1, 1),
    ("f(g(x), (y)) ; z", 2, 2),
    ("(((", 1, 3),
    ("((a; (b", 2, 2),
    (") ((", 1, 1),
    ("((a)) ) ; ((b", 2, 2),
];

/// Programs of two statements, with the program that has the tree of the second one at the same token, or
/// `none` where it has no tree there.
static SECONDS: [(&str, &str); 5] = [
    (
        "output view W; output view V as 'x';",
        "output view W; output view V as 'x';",
    ),
    (
        "create view P as extract pattern W.a; output view V",
        "none",
    ),
    (
        "pattern p W; output view V;",
        "output view W; output view V;",
    ),
    ("output view W; module m;", "none"),
    (
        "output view W; output view V; output view U;",
        "output view W; output view V;",
    ),
];

/// Puts tokens of `kinds` after the others.
fn add(toks: &mut Vec<Tok>, kinds: Vec<TokKind>) -> Result<(), Fail> {
    for kind in kinds {
        toks.push(Tok {
            kind,
            begin: 0,
            line: 1,
        })?;
    }
    Ok(())
}

/// The tokens that the statements are printed as.
fn printed(alloc: Global, trees: &[Statement]) -> Result<Vec<Tok>, Fail>
    requires { All (λ tree. CanBePrinted (statement_of tree)) trees.now }
{
    let mut out = Vec::new(alloc);
    for tree in trees {
        let kinds = print(alloc, tree)?;
        add(&mut out, kinds)?;
    }
    Ok(out)
}

fn shown_again(alloc: Global, text: &str) -> Result<String, Fail> {
    let trees = parsed(alloc, text)?;
    let out = printed(alloc, &trees)?;
    if out.len() > 100_000 {
        return Err(Fail::from("a program of the table has few tokens"));
    }
    shown(alloc, &out)
}

/// The statements of a text as they look, or the statement and the line of the fault.
fn read(alloc: Global, text: &str) -> Result<String, Fail> {
    let toks = lexed(alloc, text)?;
    shown(alloc, &toks)
}

#[test]
fn what_is_read_is_printed_and_read_again(rt: HostRuntime) -> Result<(), Fail> {
    for text in PROGRAMS {
        let again = shown_again(rt.alloc(), text)?;
        let read = read(rt.alloc(), text)?;
        is_text(&rt, again.as_str(), read.as_str(), text);
    }
    Ok(())
}

#[test]
fn near_misses_are_refused_at_their_statement_and_line(rt: HostRuntime) -> Result<(), Fail> {
    for (text, want) in NEAR_MISSES {
        let got = read(rt.alloc(), text)?;
        is_text(&rt, got.as_str(), want, text);
    }
    Ok(())
}

#[test]
fn sizes_count_statements_and_open_parentheses(rt: HostRuntime) -> Result<(), Fail> {
    for (text, statements, nesting) in SIZES {
        let toks = lexed(rt.alloc(), text)?;
        assert_eq!(rt;
            measure(&toks),
            Sizes {
                statements,
                nesting
            },
            "{text}"
        );
    }
    Ok(())
}

/// The second statement of a text as it looks where it is read alone, or `none`.
fn second_alone(alloc: Global, text: &str) -> Result<String, Fail> {
    let toks = lexed(alloc, text)?;
    if toks.is_empty() {
        return Err(Fail::from("a text of the table has tokens"));
    }
    let rest = &toks[first_run(&toks).len..];
    if rest.is_empty() {
        return Err(Fail::from("a text of the table has two statements"));
    }
    let run = first_run(rest);
    if run.nesting > MAX_NESTING {
        return Err(Fail::from("a statement of the table nests within the limit"));
    }
    let at = toks.len() - rest.len();
    match parse_statement(alloc, &rest[..run.len], at as u32, 1) {
        Ok(tree) => Ok(format!(in alloc; "{:?}", tree)?),
        Err(Failure::Fault(NoTree)) => Ok(format!(in alloc; "none")?),
        Err(Failure::OutOfMemory) => Err(Fail::from("out of memory")),
    }
}

/// The second statement of a program as it looks, or `none` for that word.
fn second_of(alloc: Global, program: &str) -> Result<String, Fail> {
    if program == "none" {
        return Ok(format!(in alloc; "none")?);
    }
    match parsed(alloc, program)?.get(1) {
        Some(tree) => Ok(format!(in alloc; "{:?}", tree)?),
        None => Err(Fail::from("a program of the table has two statements")),
    }
}

#[test]
fn a_statement_is_read_alone_behind_one_of_another_kind(rt: HostRuntime) -> Result<(), Fail> {
    for (text, program) in SECONDS {
        let got = second_alone(rt.alloc(), text)?;
        let want = second_of(rt.alloc(), program)?;
        is_text(&rt, got.as_str(), want.as_str(), text);
    }
    Ok(())
}
