ghost use Rattle.std.specs.Prelude.{◌≡◌, All, IfErr, IfOk, map};
ghost use Rattle.aql_lexer.specs.Kinds.{token_of};
ghost use Rattle.aql_syntax.specs.Shapes.{IsFormed};
ghost use Rattle.aql_syntax.specs.Views.{statement_of};
ghost use Rattle.aqlx_top.specs.Plans.{IsPlanOf};
ghost use Rattle.aqlx_top.specs.ProgramFaults.{HasCause, begin_of};
ghost use Rattle.aqlx_top.specs.Programs.{IsBuiltFrom, IsCompiledFrom, IsRefusedFor};
ghost use Rattle.view_graph.specs.Answers.{IsNameDecided, IsResolved};

use crate::ProgramFault;
use crate::outputs::outputs_of;
use crate::program_text::{check_length, check_sizes, text_of, tokens_of};
use algebra::Plan;
use aql_lexer::Tok;
use aql_parser::parse;
use aql_syntax::Statement;
use aql_types::{TypeFault, check};
use plan_maker::make_plan;
use row_values::Output;
use span_token::Failure;
use std::alloc::Global;
use view_graph::{Graph, resolve};

/// The plan of a program's text.
///
/// The program has no fault, and the plan is made of its typed form: each of its outputs shows on each
/// document what the view of that output means, as a bag. It is a normal plan, as `make_plan` makes it. A text with a
/// fault is refused for its first one, in the order that `ProgramFault` tells; `Text` is never answered, since the text is UTF-8.
///
/// Meaning: `IsPlanOf`, `specs/Plans.antt`, and `IsNormal` of `plan_maker`; of a fault: `HasCause`, `specs/ProgramFaults.antt`.
pub fn plan_program(alloc: Global, text: &str) -> Result<Plan, Failure<ProgramFault>>
    ensures planned { IfOk result (λ plan. IsPlanOf text.now plan) }
    ensures fault { IfErr result (HasCause text.now) }
{
    check_length(text.as_bytes())?;
    let toks = tokens_of(alloc, text)?;
    check_sizes(&toks)?;
    match parse(alloc, &toks) {
        Ok(statements) => build(alloc, &toks, statements),
        Err(Failure::Fault(fault)) => Err(Failure::Fault(ProgramFault::Syntax(fault))),
        Err(Failure::OutOfMemory) => Err(Failure::OutOfMemory),
    }
}

/// A program, ready to run: its plan, with its outputs as they are written.
#[derive(Drop)]
pub(crate) struct Compiled {
    pub plan: Plan,
    pub outputs: Vec<Output>,
}

/// The plan of the program that a file's bytes hold, or their fault.
pub(crate) fn plan_of(alloc: Global, bytes: &[u8]) -> Result<Plan, Failure<ProgramFault>>
    ensures planned { IfOk result (IsPlanOf bytes.now) }
    ensures fault { IfErr result (HasCause bytes.now) }
{
    let text = text_of(bytes)?;
    plan_program(alloc, text)
}

/// The program that a file's bytes hold, or their fault.
pub(crate) fn compile(alloc: Global, bytes: &[u8]) -> Result<Compiled, Failure<ProgramFault>>
    ensures compiled { IfOk result (IsCompiledFrom bytes.now) }
    ensures fault { IfErr result (HasCause bytes.now) }
{
    let plan = plan_of(alloc, bytes)?;
    let outputs = outputs_of(alloc, &plan)?;
    Ok(Compiled { plan, outputs })
}

/// The plan of these statements, or the fault of their names or types.
fn build(
    alloc: Global,
    toks: &[Tok],
    statements: Vec<Statement>,
) -> Result<Plan, Failure<ProgramFault>>
    requires formed { All IsFormed (map statement_of statements.items) }
    ensures built { IfOk result (λ plan. IsBuiltFrom (map statement_of statements.items) plan) }
    ensures fault { IfErr result (IsRefusedFor (map token_of toks.now) (map statement_of statements.items)) }
    ensures decided { IsNameDecided (map statement_of statements.items) }
{
    match resolve(alloc, statements) {
        Ok(graph) => typed(alloc, toks, &graph),
        Err(Failure::Fault(fault)) => Err(Failure::Fault(ProgramFault::Name(fault))),
        Err(Failure::OutOfMemory) => Err(Failure::OutOfMemory),
    }
}

/// The plan of a graph, or the fault of its types.
fn typed(alloc: Global, toks: &[Tok], graph: &Graph) -> Result<Plan, Failure<ProgramFault>>
    requires resolved { IsResolved (map statement_of graph.now.0) graph.now.1 }
    ensures built { IfOk result (λ plan. IsBuiltFrom (map statement_of graph.now.0) plan) }
    ensures fault { IfErr result (IsRefusedFor (map token_of toks.now) (map statement_of graph.now.0)) }
{
    match check(alloc, graph) {
        Ok(typed) => {
            let plan = make_plan(alloc, typed)?;
            Ok(plan)
        }
        Err(Failure::Fault(fault)) => Err(Failure::Fault(placed(toks, fault))),
        Err(Failure::OutOfMemory) => Err(Failure::OutOfMemory),
    }
}

/// The fault with the byte at which its part begins.
fn placed(toks: &[Tok], fault: TypeFault) -> ProgramFault
    ensures { result ≡ ProgramFault.Mistyped fault.statement (begin_of (map token_of toks.now) fault.at) fault.rule }
{
    let TypeFault {
        statement,
        at,
        rule,
    } = fault;
    ProgramFault::Mistyped {
        statement,
        place: begin_at(toks, at),
        rule,
    }
}

/// The byte at which a token begins, by its number from 0; 0 where there is none.
fn begin_at(toks: &[Tok], number: u32) -> u32
    ensures { result ≡ begin_of (map token_of toks.now) number }
{
    let number = number as usize;
    if number < toks.len() {
        toks[number].begin
    } else {
        0
    }
}
