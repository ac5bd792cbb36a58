//! Plans of texts, and the first faults of texts that have none.

use crate::faults::told;
use aqlx_top::{ProgramFault, plan_program};
use plan_maker::plan_text;
use span_token::Failure;
use std::alloc::Global;
use std::test::Fail;

/// Each row: a text, and what it comes to. Of several faults the first is told: tokens come before the number
/// of statements and how deep they nest, these before statements that have no tree, those before unknown names,
/// names before cycles, and cycles before types. A plan without an output has no node.
static TOLD: [(&str, &str); 9] = [
    (
        "create view P as extract regex /[0-9]+/ on D.text as num from Document D; output view P;",
        "0 Doc\n1 Regex 0\n2 Project 1\nout P 2\n",
    ),
    (
        "create view A as extract regex /a/ on D.text as x from Document D;
         create view B as extract regex /b/ on D.text as y from Document D;
         create view C as select A.x, B.y from A A, B B where FollowsTok(A.x, B.y, 0, 2);
         output view C;",
        "0 Doc\n1 Regex 0\n2 Project 1\n3 Regex 0\n4 Project 3\n5 SpanJoin 2 4\n6 Project 5\nout C 6\n",
    ),
    ("", ""),
    (
        "create view A as select D.txt from Document D; output view B; view ?",
        "token 67",
    ),
    (
        "create view A as select D.txt from Document D; output view B; view",
        "syntax 0",
    ),
    (
        "create view A as select D.txt from Document D; output view B;",
        "unknown view 0",
    ),
    (
        "create view A as select X.y from B X; create view B as select X.y from A X; output view C;",
        "unknown view 0",
    ),
    (
        "create view A as select X.y from B X; create view B as select X.y from A X; create view C as select D.txt from Document D;",
        "cycle 0",
    ),
    (
        "create view A as select D.txt from Document D; output view A;",
        "type 24",
    ),
];

/// The text of the plan of a text, or its failure.
fn planned(alloc: Global, text: &str) -> Result<String, Failure<ProgramFault>> {
    let plan = plan_program(alloc, text)?;
    let text = plan_text(alloc, &plan)?;
    Ok(text)
}

/// What a text comes to: the text of its plan, or its fault.
fn came_to(alloc: Global, text: &str) -> Result<String, Fail> {
    match planned(alloc, text) {
        Ok(plan) => Ok(plan),
        Err(failure) => {
            let fault = told(alloc, &failure)?;
            Ok(fault)
        }
    }
}

/// So many of a text, one behind another.
fn repeated(alloc: Global, part: &str, count: usize) -> Result<String, Fail> {
    let mut text = String::new(alloc);
    for _ in 0..count {
        text.push_str(part)?;
    }
    Ok(text)
}

#[test]
fn a_text_has_its_plan_or_its_first_fault(rt: HostRuntime) -> Result<(), Fail> {
    let alloc = rt.alloc();
    for (text, want) in &TOLD {
        let got = came_to(alloc, text)?;
        assert_eq!(rt; got.as_str(), *want, "of {text}");
    }
    Ok(())
}

/// Each row: a text, how often it stands, and what it comes to that often.
static SIZES: [(&str, usize, &str); 6] = [
    (" ", 1_048_576, ""),
    (" ", 1_048_577, "bytes 1048577"),
    (";", 2_000, "syntax 0"),
    (";", 2_001, "statements 2001"),
    ("(", 64, "syntax 0"),
    ("(", 65, "nesting 65"),
];

#[test]
fn a_text_past_a_limit_is_refused_for_it(rt: HostRuntime) -> Result<(), Fail> {
    let alloc = rt.alloc();
    for (part, count, want) in &SIZES {
        let text = repeated(alloc, part, *count)?;
        let got = came_to(alloc, text.as_str())?;
        assert_eq!(rt; got.as_str(), *want, "of {count} times {part}");
    }
    Ok(())
}
