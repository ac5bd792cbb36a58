//! The plan of a program's text, evaluated by two workers: just what is published is evaluated.

ghost use Rattle.std.specs.Prelude.{◌<◌, ◌^◌};
ghost use Rattle.algebra.specs.Items.{item_count};
ghost use Rattle.worker_pool.specs.Evaluations.{IsEvaluation};

use crate::gates::Counted;
use crate::tests::{documents, evaluated, is_published};
use algebra::Plan;
use aqlx_top::plan_program;
use span_token::Document;
use std::alloc::Global;
use std::test::Fail;
use worker_pool::Finished;

/// Numbers are asked for only where there is a letter z.
const LETTERS_FIRST: &str =
    "create view P as extract regex /[0-9]+/ on D.text as num from Document D;
    create view E as extract regex /z/ on D.text as z from Document D;
    create view J as select P.num from E, P where Follows(E.z, P.num, 0, 9);
    output view J;";

/// How many items are published, where just these passed the gate.
fn passed_as_published<'d>(
    gate: &Counted,
    finished: &Finished<'d>,
    plan: &Plan,
    docs: &[Document<'d>],
    items: u32,
) -> Option<u32>
    requires done { IsEvaluation plan.now docs.now finished.now }
    requires few { item_count plan.now docs.now < 2 ^ 32 }
{
    let mut count = 0u32;
    for item in 0..items {
        let published = is_published(finished, plan, docs, item);
        if gate.has(item) != published {
            return None;
        }
        if published {
            count = count.wrapping_add(1);
        }
    }
    Some(count)
}

#[test]
fn of_a_program_just_what_is_published_is_evaluated(rt: HostRuntime) -> Result<(), Fail> {
    let alloc = rt.alloc();
    let Ok(plan) = plan_program(alloc, LETTERS_FIRST) else {
        assert!(rt; false, "the program has a plan");
        return Ok(());
    };
    let docs = documents(alloc, &["x 12"])?;
    let nodes = plan.nodes().len();
    let gate = Counted::new(alloc, nodes)?;
    let finished = evaluated(&rt, alloc, &plan, docs.as_slice(), 2, &gate)?;
    let some = match passed_as_published(&gate, &finished, &plan, docs.as_slice(), nodes) {
        Some(count) => 0 < count && count < nodes,
        None => false,
    };
    assert!(rt;
        some,
        "what is published is evaluated, and the numbers are not"
    );
    Ok(())
}
