//! The demonstration: a program on generated documents, and how many rows a pool answers.

ghost use Rattle.std.specs.Prelude.{◌≡◌, ◌<◌, ◌≤◌, ◌-◌, ◌^◌, ◌∷◌, ◌⊎◌, [], All, None, IfOk, MatchResult, OnErr, OnOk, length, map, slice_index_or, string_bytes};
ghost use Rattle.corpus_json.specs.Inputs.{doc_of_ref};
ghost use Rattle.demo_corpus.specs.Generator.{first_documents, generated};
ghost use Rattle.plan_operators.specs.Boards.{Holds};
ghost use Rattle.run_pool.specs.Answers.{IsAnswer};
ghost use Rattle.run_pool.specs.Entries.{entry_of, AreHanded};
ghost use Rattle.run_pool.specs.Lines.{names_in, rows_by};
ghost use Rattle.span_token.specs.Limits.{text_limit};
ghost use Rattle.aqlx_top.specs.Devices.{sink_between, IsUntouched};
ghost use Rattle.aqlx_top.specs.Handing.{pool_between, IsHandedAll, IsHandedFront, IsUnasked};
ghost use Rattle.aqlx_top.specs.PoolRuns.{summary_from, IsCountedInPart};
ghost use Rattle.aqlx_top.specs.Showings.{IsCounted, IsSummarySent};

use crate::Status;
use crate::asks::asks_for_tokens;
use crate::modes::{send, told_of};
use crate::outputs::outputs_of;
use crate::program::plan_program;
use algebra::Plan;
use aql_io::Sink;
use corpus_json::{InputRef, Layout};
use demo_corpus::{DEMO, Totals, gen_document};
use plan_operators::{EvaluationRoom, Schedule, evaluate};
use row_values::Rows;
use run_pool::{Answered, Pool};
use scalar_ops::Tools;
use span_token::{Document, OutOfMemory};
use std::alloc::Global;
use window_lines::{all_lent, all_shown, document_of, lent};

/// Evaluates the demonstration's program on the first `count` generated documents, hands them to a pool, and writes
/// and flushes the summary: how many they are, and how many rows it answered for each output over all of them.
///
/// That the program has no fault isn't proved, so a fault of it would be told as want of memory.
pub(crate) fn demonstrate<O: Sink, P: Pool>(
    alloc: Global,
    count: u32,
    pool: &mut P,
    out: &mut O,
) -> Result<Status, OutOfMemory>
    ensures sent { IfOk result (IsSummarySent (pool_between P.means P.told pool.old pool.new) count (sink_between O.held O.flushed O.faults out.old out.new)) }
    ensures untouched { OnErr result (IsUntouched (sink_between O.held O.flushed O.faults out.old out.new)) }
    ensures handed { OnErr result (IsUnasked (pool_between P.means P.told pool.old pool.new) ⊎ IsCountedInPart (pool_between P.means P.told pool.old pool.new) count) }
    ensures means { P.means pool.new ≡ P.means pool.old }
{
    match plan_program(alloc, DEMO) {
        Ok(plan) => {
            told_of(&plan);
            let text = summary(alloc, &plan, count, pool)?;
            Ok(send(out, text.as_bytes()))
        }
        Err(_) => Err(OutOfMemory),
    }
}

/// The summary of a plan on the first `count` generated documents, which are handed to a pool.
fn summary<P: Pool>(
    alloc: Global,
    plan: &Plan,
    count: u32,
    pool: &mut P,
) -> Result<String, OutOfMemory>
    ensures text { IfOk result (λ text. string_bytes text ≡ summary_from (P.means pool.old) plan.now (first_documents count)) }
    ensures handed { MatchResult result
        (λ _. IsHandedAll (pool_between P.means P.told pool.old pool.new) plan.now (first_documents count))
        (λ _. IsHandedFront (pool_between P.means P.told pool.old pool.new) plan.now (first_documents count)) }
    ensures means { P.means pool.new ≡ P.means pool.old }
{
    let schedule = Schedule::new(alloc, plan)?;
    let with_tokens = asks_for_tokens(&schedule);
    let mut tools = Tools::new(alloc, plan.tables())?;
    let outputs = outputs_of(alloc, plan)?;
    let layout = Layout::new(alloc, &outputs)?;
    let mut room = EvaluationRoom::new(alloc);
    let mut totals = Totals::new(alloc, outputs.len())?;
    'documents: for i in 0..count {
        count_document(
            alloc,
            &schedule,
            with_tokens,
            &mut tools,
            &mut room,
            &layout,
            i,
            pool,
            &mut totals,
        )?;
    }
    totals.summary(alloc, &outputs)
}

/// Hands the generated document `i` to a pool, and counts the rows of the outputs that it answers.
fn count_document<P: Pool>(
    alloc: Global,
    schedule: &Schedule<'_>,
    with_tokens: bool,
    tools: &mut Tools<'_>,
    room: &mut EvaluationRoom,
    layout: &Layout<'_>,
    i: u32,
    pool: &mut P,
    totals: &mut Totals,
) -> Result<(), OutOfMemory>
    requires layout { layout.now ≡ names_in schedule.now }
    requires tables { tools.old ≡ schedule.now.lists }
    requires one_of_each { length totals.old.totals ≡ length schedule.now.outputs }
    requires countable { totals.old.documents < 2 ^ 32 - 1 }
    ensures counted { OnOk result (IsCounted (length schedule.now.outputs) (P.means pool.old schedule.now (generated i)) totals.old totals.new) }
    ensures handed { AreHanded (P.told pool.old) (P.told pool.new) (entry_of (P.means pool.old) schedule.now (generated i) ∷ []) result }
    ensures means { P.means pool.new ≡ P.means pool.old }
    ensures same { tools.new ≡ tools.old }
{
    let input = gen_document(alloc, i)?;
    count_rows(
        alloc,
        schedule,
        with_tokens,
        tools,
        room,
        layout,
        lent(&input),
        pool,
        totals,
    )
}

/// Hands a document to a pool, and counts the rows of the outputs that it answers.
fn count_rows<P: Pool>(
    alloc: Global,
    schedule: &Schedule<'_>,
    with_tokens: bool,
    tools: &mut Tools<'_>,
    room: &mut EvaluationRoom,
    layout: &Layout<'_>,
    input: InputRef<'_>,
    pool: &mut P,
    totals: &mut Totals,
) -> Result<(), OutOfMemory>
    requires layout { layout.now ≡ names_in schedule.now }
    requires tables { tools.old ≡ schedule.now.lists }
    requires short { length input.text.now ≤ text_limit }
    requires one_of_each { length totals.old.totals ≡ length schedule.now.outputs }
    requires countable { totals.old.documents < 2 ^ 32 - 1 }
    ensures counted { OnOk result (IsCounted (length schedule.now.outputs) (P.means pool.old schedule.now (doc_of_ref input.entry)) totals.old totals.new) }
    ensures handed { AreHanded (P.told pool.old) (P.told pool.new) (entry_of (P.means pool.old) schedule.now (doc_of_ref input.entry) ∷ []) result }
    ensures means { P.means pool.new ≡ P.means pool.old }
    ensures same { tools.new ≡ tools.old }
{
    let document = document_of(alloc, with_tokens, input)?;
    let board = evaluate(alloc, tools, room, &document, schedule)?;
    count_shown(
        alloc,
        schedule.plan(),
        layout,
        &document,
        board.as_slice(),
        pool,
        totals,
    )
}

/// Hands a document to a pool, and counts the rows of the outputs that it answers; `board` has those of each
/// output's node.
fn count_shown<'d, P: Pool>(
    alloc: Global,
    plan: &Plan,
    layout: &Layout<'_>,
    document: &Document<'d>,
    board: &[Option<Rows<'d>>],
    pool: &mut P,
    totals: &mut Totals,
) -> Result<(), OutOfMemory>
    requires layout { layout.now ≡ names_in plan.now }
    requires long { length board.now ≡ length plan.now.nodes }
    requires shown { All (λ out. Holds plan.now.lists document.now plan.now.nodes out.node (slice_index_or board.now out.node None)) plan.now.outputs }
    requires one_of_each { length totals.old.totals ≡ length plan.now.outputs }
    requires countable { totals.old.documents < 2 ^ 32 - 1 }
    ensures counted { OnOk result (IsCounted (length plan.now.outputs) (P.means pool.old plan.now document.now) totals.old totals.new) }
    ensures handed { AreHanded (P.told pool.old) (P.told pool.new) (entry_of (P.means pool.old) plan.now document.now ∷ []) result }
    ensures means { P.means pool.new ≡ P.means pool.old }
{
    let shown = all_shown(alloc, plan.outputs(), board)?;
    count_answered(
        alloc,
        plan,
        layout,
        document,
        shown.as_slice(),
        pool,
        totals,
    )
}

/// Hands a document to a pool with the rows that were found, and counts those that it answers.
fn count_answered<'d, P: Pool>(
    alloc: Global,
    plan: &Plan,
    layout: &Layout<'_>,
    document: &Document<'d>,
    found: &[&Rows<'d>],
    pool: &mut P,
    totals: &mut Totals,
) -> Result<(), OutOfMemory>
    requires layout { layout.now ≡ names_in plan.now }
    requires found { IsAnswer rows_by plan.now document.now (map (λ list. list.now) found.now) }
    requires one_of_each { length totals.old.totals ≡ length plan.now.outputs }
    requires countable { totals.old.documents < 2 ^ 32 - 1 }
    ensures counted { OnOk result (IsCounted (length plan.now.outputs) (P.means pool.old plan.now document.now) totals.old totals.new) }
    ensures handed { AreHanded (P.told pool.old) (P.told pool.new) (entry_of (P.means pool.old) plan.now document.now ∷ []) result }
    ensures means { P.means pool.new ≡ P.means pool.old }
{
    match pool.answer(alloc, plan, layout, document, found)? {
        Answered::AsFound => {
            count(plan, document, found, pool, totals);
            Ok(())
        }
        Answered::Instead(rows) => {
            let lent = all_lent(alloc, rows.as_slice())?;
            count(plan, document, lent.as_slice(), pool, totals);
            Ok(())
        }
    }
}

/// Counts the rows that a pool answered for a document.
fn count<'d, P: Pool>(
    plan: &Plan,
    document: &Document<'d>,
    rows: &[&Rows<'d>],
    pool: &P,
    totals: &mut Totals,
)
    requires rows { IsAnswer (P.means pool.now) plan.now document.now (map (λ list. list.now) rows.now) }
    requires one_of_each { length totals.old.totals ≡ length plan.now.outputs }
    requires countable { totals.old.documents < 2 ^ 32 - 1 }
    ensures { IsCounted (length plan.now.outputs) (P.means pool.now plan.now document.now) totals.old totals.new }
{
    let _ = plan;
    let _ = document;
    let _ = pool;
    totals.add(rows);
}
