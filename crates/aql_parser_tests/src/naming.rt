//! The names of a program's parts, and expressions that are equal but for places.

use crate::reading::{is_text, parsed};
use aql_syntax::{Ast, Query, Select, Statement, is_dictionary_predicate, same_term};
use std::alloc::Global;
use std::process::Abort;
use std::test::Fail;

/// Two conditions, and whether they are equal but for places.
static PAIRS: [(&str, bool); 8] = [
    ("f(A.b, 1, 'x', /p/) and f(\"A\".b, 1, 'x', /p/)", true),
    ("f(A.b) and f(A.b, A.b)", false),
    ("f(A.b) and f(A.c)", false),
    ("f(g(1)) and f(g(2))", false),
    ("f('p') and f(/p/)", false),
    ("f(*) and f()", false),
    ("f(*) and f(*)", true),
    ("n and \"n\"", true),
];

/// The selection that a statement's view is.
fn selection(statement: &Statement) -> Option<&Select> {
    match statement {
        Statement::View {
            query: Query::Select(select),
            ..
        } => Some(select),
        _ => None,
    }
}

/// The first two conditions of a selection.
fn two_conditions(select: &Select) -> Option<(&Ast, &Ast)> {
    match select.conds.as_slice() {
        [first, second, ..] => Some((first, second)),
        _ => None,
    }
}

/// Asks of a selection for the names of its sources and of its items.
fn has_names(rt: &impl Abort, select: &Select) -> Result<(), Fail> {
    for (source, want) in select.sources.iter().zip(["A", "b", "q"]) {
        is_text(rt, source.alias().text.as_str(), want, "a source");
    }
    for (item, want) in select.items.iter().zip(["b", "c"]) {
        match item.column_name() {
            Some(name) => is_text(rt, name.text.as_str(), want, "an item"),
            None => return Err(Fail::from("a name")),
        }
    }
    Ok(())
}

#[test]
fn a_source_has_its_alias_or_the_name_of_its_view(rt: HostRuntime) -> Result<(), Fail> {
    let trees = parsed(
        rt.alloc(),
        "create view V as select A.b, f(A.b) as c from A, B b, (select A.b from A) q;",
    )?;
    for tree in &trees {
        match selection(tree) {
            Some(select) => has_names(&rt, select)?,
            None => return Err(Fail::from("a selection")),
        }
    }
    Ok(())
}

#[test]
fn an_output_has_the_text_after_as_or_the_name_of_its_view(rt: HostRuntime) -> Result<(), Fail> {
    let alloc = rt.alloc();
    let trees = parsed(alloc, "output view V; output view V as 'x'; export view V;")?;
    for (tree, want) in trees.iter().zip([Some("V"), Some("x"), None]) {
        assert!(rt; tree.output_name() == want);
    }
    Ok(())
}

/// The statements of a view with these conditions.
fn conditioned(alloc: Global, conditions: &str) -> Result<Vec<Statement>, Fail> {
    let text = format!(in alloc; "create view V as select A.b from A where {conditions};")?;
    parsed(alloc, text.as_str())
}

/// Whether the first two conditions of a statement's selection are equal but for places; None where there
/// aren't two.
fn has_same_conditions(statement: &Statement) -> Option<bool> {
    let (first, second) = selection(statement).and_then(two_conditions)?;
    Some(same_term(first, second))
}

/// Asks whether something is so.
fn is_so(rt: &impl Abort, got: Option<bool>, want: bool, case: &str) {
    assert_eq!(rt; got, Some(want), "{case}");
}

#[test]
fn expressions_are_equal_whatever_their_places_are(rt: HostRuntime) -> Result<(), Fail> {
    for (conditions, want) in PAIRS {
        let trees = conditioned(rt.alloc(), conditions)?;
        for tree in &trees {
            is_so(&rt, has_same_conditions(tree), want, conditions);
        }
    }
    Ok(())
}

#[test]
fn two_functions_take_a_dictionary(rt: HostRuntime) -> Result<(), Fail> {
    for (name, want) in [
        ("ContainsDict", true),
        ("MatchesDict", true),
        ("ContainsRegex", false),
        ("containsdict", false),
    ] {
        is_so(&rt, Some(is_dictionary_predicate(name)), want, name);
    }
    Ok(())
}
