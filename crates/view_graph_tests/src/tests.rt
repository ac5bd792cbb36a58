use crate::programs::{dictionary_shown, fault_shown, order_shown, resolved, view_shown};
use std::alloc::Global;
use std::process::Abort;
use std::test::Fail;

/// Programs without a fault, with the order of their views.
static ORDERS: [(&str, &str); 7] = [
    ("", "order"),
    (
        "output view P; create view P as select 1 as a from Document;",
        "order 2",
    ),
    (
        "create view P as select 1 as a from Document; create view Q as select 1 as a from P; create view R as select 1 as a from P; create view S as select 1 as a from Q, R;",
        "order 1 2 3 4",
    ),
    (
        "create view S as select 1 as a from Q, (select 1 as a from R) n; create view R as select 1 as a from P; create dictionary D as ('a'); create view Q as select 1 as a from P; create view P as select 1 as a from Document;",
        "order 5 2 4 1",
    ),
    (
        "create view C as select 1 as a from B, A; create view B as select 1 as a from A; create view A as select 1 as a from Document; create view O as select 1 as a from Document;",
        "order 3 4 2 1",
    ),
    (
        "create view A as select 1 as a from Document; create dictionary A as ('a'); create view E as extract dictionary A on D.text as m from Document D; create view W as select 1 as a from Document where MatchesDict('A', x); export view Nobody;",
        "order 1 3 4",
    ),
    (
        "output view Document; output view Document as 'A'; output view Document as 'B';",
        "order",
    ),
];

/// Programs whose views use each other in a circle.
static CYCLES: [(&str, &str); 3] = [
    (
        "create view A as select 1 as a from B; create view B as select 1 as a from A; output view A;",
        "cycle A B",
    ),
    ("create view A as select 1 as a from A;", "cycle A"),
    (
        "create view X as select 1 as a from C; create view B as select 1 as a from (select 1 as a from C) n; create view A as select 1 as a from B; create view C as select 1 as a from Document, A;",
        "cycle B C A",
    ),
];

/// Programs with faults of names, and the first by the rounds.
static FAULTS: [(&str, &str); 15] = [
    ("output view P;", "1: no view P"),
    (
        "create view A as select 1 as a from Document; create dictionary A as ('a'); create view A as select 1 as a from Document; create view A as select 1 as a from Document;",
        "3: A again",
    ),
    (
        "create view Document as select 1 as a from Document;",
        "1: Document again",
    ),
    (
        "create dictionary Document as ('a'); create dictionary Document as ('a');",
        "2: Document again",
    ),
    ("create view A as select 1 as a from B, C;", "1: no view B"),
    (
        "create view A as select 1 as a from Document, (select 1 as a from N) n;",
        "1: no view N",
    ),
    (
        "create view A as extract dictionary D on A.text as m from Document A;",
        "1: no dictionary D",
    ),
    (
        "create view A as select 1 as a from Document where MatchesDict('D', x);",
        "1: no dictionary D",
    ),
    (
        "create view D as select 1 as a from Document; create view A as extract dictionary D on A.text as m from Document A;",
        "2: no dictionary D",
    ),
    (
        "output view Document; output view Document as 'Document';",
        "2: output Document again",
    ),
    (
        "create view P as select 1 as a from Document; output view P as 'O'; output view P; output view Document as 'O';",
        "4: output O again",
    ),
    (
        "create view A as select 1 as a from B; create view A as select 1 as a from Document;",
        "2: A again",
    ),
    (
        "output view Document; output view Document; create view A as select 1 as a from B;",
        "3: no view B",
    ),
    (
        "create view A as select 1 as a from A; output view A; output view A;",
        "3: output A again",
    ),
    (
        "create view A as select 1 as a from A; create view B as select 1 as a from N;",
        "2: no view N",
    ),
];

fn check(rt: &impl Abort, alloc: Global, table: &[(&str, &str)]) -> Result<(), Fail> {
    for (text, want) in table {
        let got = match resolved(alloc, text)? {
            Ok(graph) => order_shown(alloc, &graph)?,
            Err(fault) => fault_shown(alloc, &fault)?,
        };
        assert_eq!(rt; got.as_str(), *want);
    }
    Ok(())
}

#[test]
fn views_come_by_rank_and_then_by_number(rt: HostRuntime) -> Result<(), Fail> {
    check(&rt, rt.alloc(), &ORDERS)
}

#[test]
fn a_cycle_begins_at_its_earliest_view(rt: HostRuntime) -> Result<(), Fail> {
    check(&rt, rt.alloc(), &CYCLES)
}

#[test]
fn the_first_fault_of_the_rounds_is_named(rt: HostRuntime) -> Result<(), Fail> {
    check(&rt, rt.alloc(), &FAULTS)
}

#[test]
fn a_name_is_found_among_views_or_dictionaries(rt: HostRuntime) -> Result<(), Fail> {
    let alloc = rt.alloc();
    let text =
        "create view Q as select 1 as a from P; create dictionary D as ('a'); create view P as select 1 as a from Document; create dictionary P as ('b');";
    let graph = match resolved(alloc, text)? {
        Ok(graph) => graph,
        Err(_) => return Err(Fail::from("no fault")),
    };
    assert_eq!(rt; graph.statements().len(), 4);
    for (name, view, dictionary) in [
        ("Q", "statement 1, at 1", "nothing"),
        ("P", "statement 3, at 0", "statement 4"),
        ("D", "nothing", "statement 2"),
        ("Document", "the document", "nothing"),
        ("q", "nothing", "nothing"),
        ("", "nothing", "nothing"),
    ] {
        let found = view_shown(alloc, graph.view(name))?;
        assert_eq!(rt; found.as_str(), view);
        let found = dictionary_shown(alloc, graph.dictionary(name))?;
        assert_eq!(rt; found.as_str(), dictionary);
    }
    Ok(())
}

/// The order of `count` views and one more, each over the one after it, or all over the last.
fn long(alloc: Global, count: u32, chained: bool) -> Result<Vec<u32>, Fail> {
    let mut text = String::new(alloc);
    for i in 0..count {
        let below = if chained { i + 1 } else { count };
        let line = format!(in alloc; "create view V{i} as select 1 as a from V{below}; ")?;
        text.push_str(line.as_str())?;
    }
    let line = format!(in alloc; "create view V{count} as select 1 as a from Document;")?;
    text.push_str(line.as_str())?;
    match resolved(alloc, text.as_str())? {
        Ok(graph) => Ok(graph.order().to_vec(alloc)?),
        Err(_) => Err(Fail::from("no fault")),
    }
}

#[test]
fn a_long_chain_and_many_views_over_one_are_ordered(rt: HostRuntime) -> Result<(), Fail> {
    let chain = long(rt.alloc(), 2_000, true)?;
    assert_eq!(rt; chain.len(), 2_001);
    assert_eq!(rt; chain.first(), Some(&2_001));
    assert_eq!(rt; chain.last(), Some(&1));
    let star = long(rt.alloc(), 2_000, false)?;
    assert_eq!(rt; star.len(), 2_001);
    assert_eq!(rt; star.first(), Some(&2_001));
    assert_eq!(rt; star.get(1), Some(&1));
    assert_eq!(rt; star.last(), Some(&2_000));
    Ok(())
}
