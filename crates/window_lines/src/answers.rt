//! What a pool answers for documents that were evaluated together.

ghost use Rattle.std.specs.Prelude.{◌≡◌, ◌++◌, ◌∷◌, [], IfOk, OnOk, map};
ghost use Rattle.std.specs.Arc.{arc_value};
ghost use Rattle.run_pool.specs.Answers.{AreAllAnswers, IsAnswer};
ghost use Rattle.run_pool.specs.Entries.{entry_of, AreHanded};
ghost use Rattle.run_pool.specs.Lines.{names_in, rows_by};

use crate::lines::all_lent;
use algebra::Plan;
use corpus_json::Layout;
use row_values::Rows;
use run_pool::{Answered, Pool};
use span_token::{Document, OutOfMemory};
use std::alloc::Global;
use std::sync::Arc;

/// Hands documents to a pool, in their order: for each of them the rows of each output that it answers. `found`
/// has for each document the rows that were found.
pub(crate) fn answers_of<'d, P: Pool>(
    alloc: Global,
    plan: &Plan,
    layout: &Layout<'_>,
    pool: &mut P,
    docs: &[Document<'d>],
    found: &[Vec<Arc<Rows<'d>, Global>>],
) -> Result<Vec<Vec<Arc<Rows<'d>, Global>>>, OutOfMemory>
    requires layout { layout.now ≡ names_in plan.now }
    requires found { AreAllAnswers rows_by plan.now docs.now (map (λ rows. map arc_value rows.items) found.now) }
    ensures answers { IfOk result (λ answers. AreAllAnswers (P.means pool.old) plan.now docs.now (map (λ rows. map arc_value rows.items) answers.items)) }
    ensures handed { AreHanded (P.told pool.old) (P.told pool.new) (map (entry_of (P.means pool.old) plan.now) docs.now) result }
    ensures means { P.means pool.new ≡ P.means pool.old }
{
    let mut answers = Vec::new(alloc);
    for d in 0..docs.len() {
        push_answer(
            alloc,
            plan,
            layout,
            pool,
            &docs[d],
            found[d].as_slice(),
            &mut answers,
        )?;
    }
    Ok(answers)
}

/// Hands a document to a pool, and puts the rows that it answers behind those of others.
fn push_answer<'d, P: Pool>(
    alloc: Global,
    plan: &Plan,
    layout: &Layout<'_>,
    pool: &mut P,
    document: &Document<'d>,
    found: &[Arc<Rows<'d>, Global>],
    answers: &mut Vec<Vec<Arc<Rows<'d>, Global>>>,
) -> Result<(), OutOfMemory>
    requires layout { layout.now ≡ names_in plan.now }
    requires found { IsAnswer rows_by plan.now document.now (map arc_value found.now) }
    ensures pushed { OnOk result ((rows : _) × (answers.new.items ≡ answers.old.items ++ rows ∷ []) × IsAnswer (P.means pool.old) plan.now document.now (map arc_value rows.items)) }
    ensures handed { AreHanded (P.told pool.old) (P.told pool.new) (entry_of (P.means pool.old) plan.now document.now ∷ []) result }
    ensures means { P.means pool.new ≡ P.means pool.old }
{
    let rows = answer_for(alloc, plan, layout, pool, document, found)?;
    answers.push(rows)?;
    Ok(())
}

/// Hands a document to a pool: the rows that it answers.
fn answer_for<'d, P: Pool>(
    alloc: Global,
    plan: &Plan,
    layout: &Layout<'_>,
    pool: &mut P,
    document: &Document<'d>,
    found: &[Arc<Rows<'d>, Global>],
) -> Result<Vec<Arc<Rows<'d>, Global>>, OutOfMemory>
    requires layout { layout.now ≡ names_in plan.now }
    requires found { IsAnswer rows_by plan.now document.now (map arc_value found.now) }
    ensures rows { IfOk result (λ rows. IsAnswer (P.means pool.old) plan.now document.now (map arc_value rows.items)) }
    ensures handed { AreHanded (P.told pool.old) (P.told pool.new) (entry_of (P.means pool.old) plan.now document.now ∷ []) result }
    ensures means { P.means pool.new ≡ P.means pool.old }
{
    let lent = all_lent(alloc, found)?;
    match pool.answer(alloc, plan, layout, document, lent.as_slice())? {
        Answered::AsFound => kept(alloc, found),
        Answered::Instead(rows) => shared(alloc, rows),
    }
}

/// The same rows, shared with whoever keeps them.
fn kept<'d>(
    alloc: Global,
    rows: &[Arc<Rows<'d>, Global>],
) -> Result<Vec<Arc<Rows<'d>, Global>>, OutOfMemory>
    ensures { IfOk result (λ kept. map arc_value kept.items ≡ map arc_value rows.now) }
{
    let mut kept = Vec::with_capacity(alloc, rows.len())?;
    for list in rows {
        kept.push(Arc::try_clone(list)?)?;
    }
    Ok(kept)
}

/// Rows that can be shared.
fn shared<'d>(alloc: Global, rows: Vec<Rows<'d>>) -> Result<Vec<Arc<Rows<'d>, Global>>, OutOfMemory>
    ensures { IfOk result (λ shared. map arc_value shared.items ≡ rows.entry.items) }
{
    let mut shared = Vec::with_capacity(alloc, rows.len())?;
    for list in rows {
        shared.push(Arc::new(alloc, list)?)?;
    }
    Ok(shared)
}
