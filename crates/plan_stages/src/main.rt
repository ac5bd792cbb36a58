//! Plans of programs at the stages of their making, run and timed.
//!
//! With the words `STAGE PROGRAM` the program's plan at that stage is run over the corpus on standard input,
//! and for each document exactly the line is written that `aqlx run` writes, so that a lowered plan and a
//! rewritten one can be compared byte for byte and timed on one machine; `bench/stages.py` does both. With a
//! third word `plan` the plan's text is written, and nothing is run. With the words `nodes NUMBER` a program
//! is made whose lowered plan has about that many nodes, of which half are equal to others; the numbers of
//! nodes before and after `share` are written, and to standard error how long `share` took. With no words a
//! small program is run at each stage on two documents, and it is told whether all wrote the same bytes.
//! Stands on the crates that make and run plans.
#![tactic(auto)]

mod chains;
mod outputs;
mod programs;
mod running;
mod small;
mod stage;

use algebra::Plan;
use anyhow::{Context, Result, bail};
use aql_io::RealSource;
use chains::chained;
use plan_maker::plan_text;
use programs::typed_program;
use running::run;
use share_plan::share;
use small::run_small;
use stage::Stage;
use std::io::Eprint;
use std::rt::{Clock, Files};
use std::time::Instant;
use std::{env, fs, io};

/// The plan at a stage, by its name, of the program in a file.
fn plan_of<R: Files + AllocGlobal>(rt: &R, stage: &str, program: &str) -> Result<Plan> {
    let Some(stage) = Stage::named(stage) else {
        bail!("no stage has the name {stage}");
    };
    let text = fs::read_to_string(rt, program).context("the program")?;
    let typed = typed_program(rt.alloc(), text.as_str())?;
    let plan = stage.plan(rt.alloc(), typed)?;
    Ok(plan)
}

/// How many nodes a made program's lowered plan has, about `number`, and how many are left by `share`; to
/// standard error how long `share` took.
fn time_share<R: Eprint + Print + Clock + AllocGlobal>(rt: &R, number: &str) -> Result<()> {
    let number = number.parse::<u32>().context("the number of nodes")?;
    let text = chained(rt.alloc(), number)?;
    let typed = typed_program(rt.alloc(), text.as_str())?;
    let lowered = Stage::Lowered.plan(rt.alloc(), typed)?;
    let before = lowered.nodes().len();
    let start = Instant::now(rt)?;
    let shared = share(rt.alloc(), lowered)?;
    let took = start.elapsed(rt)?;
    let after = shared.nodes().len();
    println!(rt; "share: {before} nodes, {after} left")?;
    eprintln!(rt; "share: {} us", took.as_micros())?;
    Ok(())
}

fn main(rt: HostRuntime) -> Result<()> {
    let alloc = rt.alloc();
    let words = env::args(&rt)?.skip(1).collect::<Vec<String>>(alloc)?;
    match words.as_slice() {
        [] => run_small(&rt),
        [word, number] if word.as_str() == "nodes" => time_share(&rt, number.as_str()),
        [stage, program] => {
            let plan = plan_of(&rt, stage.as_str(), program.as_str())?;
            let mut corpus = RealSource::new(rt.stdin());
            run(alloc, &plan, &mut corpus, &mut io::writer(&rt))
        }
        [stage, program, word] if word.as_str() == "plan" => {
            let plan = plan_of(&rt, stage.as_str(), program.as_str())?;
            let text = plan_text(alloc, &plan)?;
            print!(&rt; "{text}")?;
            Ok(())
        }
        _ => bail!("usage: plan_stages [STAGE PROGRAM [plan] | nodes NUMBER]"),
    }
}
