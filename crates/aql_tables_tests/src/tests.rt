ghost use Rattle.std.specs.Prelude.{◌<◌, ◌^◌, IfOk, length};

use aql_lexer::{Tok, lex};
use aql_parser::{MAX_NESTING, measure, parse};
use aql_regex_extract::PatternFault;
use aql_tables::{ProgramTables, collect, is_dictionary};
use std::alloc::Global;
use std::test::Fail;
use view_graph::{Graph, resolve};

/// A program that mentions three patterns, a text that is none, and two dictionaries either way.
const PROGRAM: &str = "
    create dictionary D as ('ann', 'bo');
    create dictionary E as ('x');
    create view V as
        select d.text as t, 'E' as e, ContainsRegex(/x/, d.text) as c from Document d
        where ContainsDict('D', 'Exact', d.text) and MatchesRegex(/(a)(b)/, d.text) and ContainsRegex(/(/, d.text);
    create view W as
        extract regex /y|z/ on n.text as m from (select d.text from Document d where ContainsRegex(/x/, d.text)) n;
    create view X as extract dictionary D on d.text as m from Document d;
    output view V;
";

/// Texts with the numbers that they have as patterns, and their groups.
const PATTERNS: [(&str, u32, u32); 6] = [
    ("x", 0, 0),
    ("(a)(b)", 1, 2),
    ("y|z", 2, 0),
    ("(", 3, 0),
    ("w", 3, 0),
    ("(w)", 3, 1),
];

/// Names, whether case counts, and the numbers that they have as dictionaries.
const DICTIONARIES: [(&str, bool, u32); 6] = [
    ("E", false, 0),
    ("E", true, 1),
    ("D", true, 2),
    ("D", false, 3),
    ("F", true, 4),
    ("d", false, 4),
];

fn lexed(alloc: Global) -> Result<Vec<Tok>, Fail>
    ensures few { IfOk result (λ toks. length toks.items < 2 ^ 32) }
{
    match lex(alloc, PROGRAM) {
        Ok(toks) if toks.len() < 10_000 => Ok(toks),
        _ => Err(Fail::from("the program has tokens")),
    }
}

fn graph_of(alloc: Global) -> Result<Graph, Fail> {
    let toks = lexed(alloc)?;
    if measure(&toks).nesting > MAX_NESTING {
        return Err(Fail::from("the program nests within the limit"));
    }
    let Ok(statements) = parse(alloc, &toks) else {
        return Err(Fail::from("the program is read"));
    };
    match resolve(alloc, statements) {
        Ok(graph) => Ok(graph),
        Err(_) => Err(Fail::from("the program's names are known")),
    }
}

fn tables_of(alloc: Global) -> Result<ProgramTables, Fail> {
    let graph = graph_of(alloc)?;
    let tables = collect(alloc, &graph)?;
    Ok(tables)
}

#[test]
fn a_pattern_has_the_number_of_its_first_mention_and_its_groups(
    rt: HostRuntime,
) -> Result<(), Fail> {
    let alloc = rt.alloc();
    let tables = tables_of(alloc)?;
    for (text, number, groups) in PATTERNS {
        assert_eq!(rt; tables.pattern_number(text), number, "{text}");
        assert_eq!(rt; tables.group_count(alloc, text)?, groups, "{text}");
    }
    Ok(())
}

#[test]
fn a_text_that_is_no_pattern_has_its_fault(rt: HostRuntime) -> Result<(), Fail> {
    let alloc = rt.alloc();
    let tables = tables_of(alloc)?;
    for (text, want) in [
        ("x", None),
        ("w", None),
        ("(", Some(PatternFault::Bad)),
        ("[", Some(PatternFault::Bad)),
    ] {
        assert_eq!(rt; tables.pattern_fault(alloc, text)?, want, "{text}");
    }
    Ok(())
}

#[test]
fn a_dictionary_has_a_number_for_each_way_it_is_compared(rt: HostRuntime) -> Result<(), Fail> {
    let tables = tables_of(rt.alloc())?;
    for (name, exact, number) in DICTIONARIES {
        assert_eq!(rt; tables.dict_number(name, exact), number, "{name} {exact}");
    }
    Ok(())
}

#[test]
fn names_of_dictionaries_are_known(rt: HostRuntime) -> Result<(), Fail> {
    let graph = graph_of(rt.alloc())?;
    for (name, want) in [("D", true), ("E", true), ("V", false), ("d", false)] {
        assert_eq!(rt; is_dictionary(&graph, name), want, "{name}");
    }
    Ok(())
}

#[test]
fn tables_are_made_of_what_was_collected(rt: HostRuntime) -> Result<(), Fail> {
    let alloc = rt.alloc();
    let tables = tables_of(alloc)?;
    tables.into_tables(alloc)?;
    Ok(())
}
