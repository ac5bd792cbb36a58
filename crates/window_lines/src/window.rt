ghost use Rattle.std.specs.Prelude.{◌≡◌, ◌<◌, ◌*◌, ◌^◌, ◌++◌, OnOk, length, map};
ghost use Rattle.std.specs.List.{flat_map};
ghost use Rattle.corpus_json.specs.Inputs.{doc_of};
ghost use Rattle.run_pool.specs.Entries.{entry_of, AreHanded};
ghost use Rattle.run_pool.specs.Lines.{line_from, names_in};
ghost use Rattle.window_lines.specs.Lines.{AreShort};

use crate::answers::answers_of;
use crate::documents::documents_of;
use crate::lines::append_lines;
use algebra::Plan;
use corpus_json::{Input, Layout};
use line_parts::Pending;
use row_values::Rows;
use run_pool::Pool;
use span_token::{Document, OutOfMemory};
use std::alloc::Global;
use std::sync::Arc;
use std::thread::Threads;
use worker_pool::{Crew, Open, evaluate};

/// How many bytes of text pay for the threads that look for their tokens.
const MANY_BYTES: usize = 131_072;

/// How many rows pay for the threads that write them.
const MANY_ROWS: usize = 2_048;

/// Hands a window's documents to a pool, and puts the lines that it answers behind what is pending, in their
/// order.
///
/// The plan is evaluated by the workers of `crew`, and where the window is large enough its documents are
/// made, and its lines written, in `threads` threads at most; the bytes are the same for every number.
/// `with_tokens` says whether documents keep their tokens, and changes no byte. `layout` has the plan's
/// outputs, and no text is longer than a document's may be.
///
/// Meaning: `line_from`, `specs/Lines.antt` of `run_pool`: for each output the rows that the pool answers.
pub fn append_window<R: Threads + Sync, P: Pool>(
    rt: &R,
    alloc: Global,
    plan: &Plan,
    with_tokens: bool,
    layout: &Layout<'_>,
    crew: &mut Crew<'_>,
    threads: usize,
    pool: &mut P,
    inputs: &[Input],
    pending: &mut Pending,
) -> Result<(), OutOfMemory>
    requires some { 0 < threads }
    requires layout { layout.now ≡ names_in plan.now }
    requires of_plan { crew.old ≡ plan.now.lists }
    requires few { length inputs.now * length plan.now.nodes < 2 ^ 32 }
    requires short { AreShort inputs.now }
    ensures bytes { OnOk result (pending.new ≡ pending.old ++ flat_map (line_from (P.means pool.old) plan.now) (map doc_of inputs.now)) }
    ensures handed { AreHanded (P.told pool.old) (P.told pool.new) (map (entry_of (P.means pool.old) plan.now) (map doc_of inputs.now)) result }
    ensures means { P.means pool.new ≡ P.means pool.old }
    ensures same { crew.new ≡ crew.old }
{
    if inputs.is_empty() {
        return Ok(());
    }
    let readers = if with_tokens && byte_count(inputs) >= MANY_BYTES {
        threads
    } else {
        1
    };
    let docs = documents_of(rt, alloc, with_tokens, readers, inputs)?;
    append_documents(
        rt,
        alloc,
        plan,
        layout,
        crew,
        threads,
        pool,
        docs.as_slice(),
        pending,
    )
}

/// Hands documents to a pool, and puts the lines that it answers behind what is pending.
fn append_documents<'d, R: Threads + Sync, P: Pool>(
    rt: &R,
    alloc: Global,
    plan: &'d Plan,
    layout: &Layout<'_>,
    crew: &mut Crew<'_>,
    threads: usize,
    pool: &mut P,
    docs: &'d [Document<'d>],
    pending: &mut Pending,
) -> Result<(), OutOfMemory>
    requires some { 0 < threads }
    requires layout { layout.now ≡ names_in plan.now }
    requires of_plan { crew.old ≡ plan.now.lists }
    requires few { length docs.now * length plan.now.nodes < 2 ^ 32 }
    ensures bytes { OnOk result (pending.new ≡ pending.old ++ flat_map (line_from (P.means pool.old) plan.now) docs.now) }
    ensures handed { AreHanded (P.told pool.old) (P.told pool.new) (map (entry_of (P.means pool.old) plan.now) docs.now) result }
    ensures means { P.means pool.new ≡ P.means pool.old }
    ensures same { crew.new ≡ crew.old }
{
    // the outputs have the columns of their nodes
    let _outputs = plan.outputs();
    let found = evaluate(rt, alloc, plan, docs, crew, &Open)?.into_rows();
    let answers = answers_of(alloc, plan, layout, pool, docs, found.docs.as_slice())?;
    let answers = answers.as_slice();
    let writers = if row_count(answers) >= MANY_ROWS {
        threads
    } else {
        1
    };
    append_lines(
        rt, alloc, writers, pool, plan, layout, docs, answers, pending,
    )
}

/// How many bytes of text there are.
fn byte_count(inputs: &[Input]) -> usize {
    let mut bytes: usize = 0;
    for input in inputs {
        bytes = bytes.saturating_add(input.text.as_str().len());
    }
    bytes
}

/// How many rows there are, of all outputs.
fn row_count(answers: &[Vec<Arc<Rows<'_>, Global>>]) -> usize {
    let mut rows: usize = 0;
    for answer in answers {
        rows = rows.saturating_add(rows_of(answer.as_slice()));
    }
    rows
}

/// How many rows one document has.
fn rows_of(lists: &[Arc<Rows<'_>, Global>]) -> usize {
    let mut rows: usize = 0;
    for list in lists {
        rows = rows.saturating_add(list.len() as usize);
    }
    rows
}
