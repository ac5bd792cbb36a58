//! The lines of a window, written in stretches.

ghost use Rattle.std.specs.Prelude.{◌≡◌, ◌<◌, ◌≤◌, ◌*◌, ◌++◌, ℕ, IfOk, OnOk, length, map, vec_len, slice_index_or};
ghost use Rattle.std.specs.Arc.{arc_value};
ghost use Rattle.std.specs.Fork.{slice_chunk};
ghost use Rattle.std.specs.List.{flat_map};
ghost use Rattle.std.specs.Thread.{IsSync};
ghost use Rattle.run_pool.specs.Answers.{AreAllAnswers, IsAnswer};
ghost use Rattle.run_pool.specs.Lines.{line_from, names_in};

use crate::answer::append_line;
use crate::stretch::{stretch, stretch_count, stretch_size};
use algebra::Plan;
use corpus_json::Layout;
use line_parts::Pending;
use row_values::Rows;
use run_pool::Pool;
use span_token::{Document, OutOfMemory};
use std::alloc::Global;
use std::ops::Deref;
use std::sync::Arc;
use std::thread::{self, Threads};

/// What the threads that write lines share; `answers` has for each document the rows of each output, as the pool
/// answered them.
#[derive(Drop)]
struct Writing<'a, 'l, 'd, P: Pool> {
    alloc: Global,
    pool: &'a P,
    plan: &'a Plan,
    layout: &'a Layout<'l>,
    size: usize,
    docs: &'a [Document<'d>],
    answers: &'a [Vec<Arc<Rows<'d>, Global>>],
    ghost some: { 0 < size },
    ghost of_plan: { layout.now ≡ names_in plan.now },
}

impl<'a, 'l, 'd, P: Pool> Writing<'a, 'l, 'd, P> {
    /// The lines of the stretch of number `n`.
    fn part(&self, n: usize) -> Result<Vec<u8>, OutOfMemory>
        requires begun { n * self.now.size < length self.now.docs.now }
        requires shown { AreAllAnswers (P.means self.now.pool.now) self.now.plan.now self.now.docs.now (map (λ rows. map arc_value rows.items) self.now.answers.now) }
        ensures { IfOk result (λ lines. lines.items ≡ flat_map (line_from (P.means self.now.pool.now) self.now.plan.now) (slice_chunk self.now.docs.now self.now.size n)) }
    {
        let mut lines = Vec::new(self.alloc);
        append_answers(
            self.alloc,
            self.pool,
            self.plan,
            self.layout,
            stretch(self.docs, self.size, n),
            stretch(self.answers, self.size, n),
            &mut lines,
        )?;
        Ok(lines)
    }
}

/// Puts the lines of documents behind what is pending, in their order, made in so many threads at most;
/// `answers` has for each document the rows of each output, as the pool answered them.
pub(crate) fn append_lines<'d, R: Threads + Sync, P: Pool>(
    rt: &R,
    alloc: Global,
    threads: usize,
    pool: &P,
    plan: &Plan,
    layout: &Layout<'_>,
    docs: &[Document<'d>],
    answers: &[Vec<Arc<Rows<'d>, Global>>],
    pending: &mut Pending,
) -> Result<(), OutOfMemory>
    requires some { 0 < threads }
    requires layout { layout.now ≡ names_in plan.now }
    requires answers { AreAllAnswers (P.means pool.now) plan.now docs.now (map (λ rows. map arc_value rows.items) answers.now) }
    ensures bytes { OnOk result (pending.new ≡ pending.old ++ flat_map (line_from (P.means pool.now) plan.now) docs.now) }
{
    if threads == 1 {
        let mut lines = Vec::new(alloc);
        append_answers(alloc, pool, plan, layout, docs, answers, &mut lines)?;
        return pending.take_text(&mut lines);
    }
    let size = stretch_size(docs.len(), threads);
    let writing = Writing {
        alloc,
        pool,
        plan,
        layout,
        size,
        docs,
        answers,
    };
    let parts = parts_of(rt, &writing)?;
    append_parts(pool, plan, docs, size, parts, pending)
}

/// The lines of each stretch.
fn parts_of<R: Threads + Sync, P: Pool>(
    rt: &R,
    writing: &Writing<'_, '_, '_, P>,
) -> Result<Vec<Result<Vec<u8>, OutOfMemory>>, OutOfMemory>
    requires shown { AreAllAnswers (P.means writing.now.pool.now) writing.now.plan.now writing.now.docs.now (map (λ rows. map arc_value rows.items) writing.now.answers.now) }
    ensures all { IfOk result (λ parts. length writing.now.docs.now ≤ vec_len parts * writing.now.size) }
    ensures each { IfOk result (λ parts. (n : ℕ) (d : _) → n < vec_len parts →
        IfOk (slice_index_or parts.items n d) (λ lines. lines.items ≡ flat_map (line_from (P.means writing.now.pool.now) writing.now.plan.now) (slice_chunk writing.now.docs.now writing.now.size n))) }
{
    let count = stretch_count(writing.docs.len(), writing.size);
    let job = |n: usize| -> Result<Vec<u8>, OutOfMemory>
        requires { IsSync P.row × (n * writing.now.size < length writing.now.docs.now) × AreAllAnswers (P.means writing.now.pool.now) writing.now.plan.now writing.now.docs.now (map (λ rows. map arc_value rows.items) writing.now.answers.now) }
        ensures { IfOk result (λ lines. lines.items ≡ flat_map (line_from (P.means writing.entry.now.pool.now) writing.entry.now.plan.now) (slice_chunk writing.entry.now.docs.now writing.entry.now.size n)) }
    { writing.part(n) };
    let parts = thread::map_indices(rt, writing.alloc, count, &job)?;
    Ok(parts)
}

/// Puts the lines of all stretches behind what is pending.
fn append_parts<P: Pool>(
    pool: &P,
    plan: &Plan,
    docs: &[Document<'_>],
    size: usize,
    parts: Vec<Result<Vec<u8>, OutOfMemory>>,
    pending: &mut Pending,
) -> Result<(), OutOfMemory>
    requires all { length docs.now ≤ vec_len parts * size }
    requires each { (n : ℕ) (d : _) → n < vec_len parts →
        IfOk (slice_index_or parts.items n d) (λ lines. lines.items ≡ flat_map (line_from (P.means pool.now) plan.now) (slice_chunk docs.now size n)) }
    ensures bytes { OnOk result (pending.new ≡ pending.old ++ flat_map (line_from (P.means pool.now) plan.now) docs.now) }
{
    let _ = pool;
    let _ = plan;
    let _ = docs;
    let _ = size;
    for part in parts {
        let mut lines = part?;
        pending.take_text(&mut lines)?;
    }
    Ok(())
}

/// Puts the lines of documents behind what is pending, one after another.
fn append_answers<'d, P: Pool>(
    alloc: Global,
    pool: &P,
    plan: &Plan,
    layout: &Layout<'_>,
    docs: &[Document<'d>],
    answers: &[Vec<Arc<Rows<'d>, Global>>],
    pending: &mut Vec<u8>,
) -> Result<(), OutOfMemory>
    requires layout { layout.now ≡ names_in plan.now }
    requires answers { AreAllAnswers (P.means pool.now) plan.now docs.now (map (λ rows. map arc_value rows.items) answers.now) }
    ensures bytes { OnOk result (pending.new.items ≡ pending.old.items ++ flat_map (line_from (P.means pool.now) plan.now) docs.now) }
{
    for d in 0..docs.len() {
        append_shared(
            alloc,
            pool,
            plan,
            layout,
            &docs[d],
            answers[d].as_slice(),
            pending,
        )?;
    }
    Ok(())
}

/// Puts the line of a document behind what is pending; `rows` are those of each output.
fn append_shared<'d, P: Pool>(
    alloc: Global,
    pool: &P,
    plan: &Plan,
    layout: &Layout<'_>,
    document: &Document<'d>,
    rows: &[Arc<Rows<'d>, Global>],
    pending: &mut Vec<u8>,
) -> Result<(), OutOfMemory>
    requires layout { layout.now ≡ names_in plan.now }
    requires rows { IsAnswer (P.means pool.now) plan.now document.now (map arc_value rows.now) }
    ensures bytes { OnOk result (pending.new.items ≡ pending.old.items ++ line_from (P.means pool.now) plan.now document.now) }
{
    let _ = pool;
    let _ = plan;
    let shown = all_lent(alloc, rows)?;
    append_line(alloc, layout, document, shown.as_slice(), pending)
}

/// Shared rows, borrowed.
pub(crate) fn all_lent<'r, 'd>(
    alloc: Global,
    rows: &'r [Arc<Rows<'d>, Global>],
) -> Result<Vec<&'r Rows<'d>>, OutOfMemory>
    ensures { IfOk result (λ shown. map (λ list. list.now) shown.items ≡ map arc_value rows.now) }
{
    let mut shown = Vec::with_capacity(alloc, rows.len())?;
    for list in rows {
        shown.push(list.deref())?;
    }
    Ok(shown)
}
