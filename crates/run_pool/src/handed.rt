ghost use Rattle.std.specs.Prelude.{◌≡◌, IfOk, length, map};
ghost use Rattle.corpus_json.specs.Outputs.{rows_of};
ghost use Rattle.run_pool.specs.Answers.{IsAnswer};
ghost use Rattle.run_pool.specs.Entries.{entry_of, entry_told};
ghost use Rattle.run_pool.specs.Lines.{names_in, rows_by};

use algebra::Plan;
use corpus_json::{Layout, append_document};
use plan_maker::plan_text;
use row_values::Rows;
use span_token::{Document, OutOfMemory};
use std::alloc::Global;

/// What was handed to a pool for one document, and what it answered: the text of the plan, the document's text,
/// its output line, and the number of rows of each output, in order.
///
/// Meaning: `entry_of`, `specs/Entries.antt`.
#[derive(Drop)]
pub struct Handed {
    pub plan: String,
    pub text: String,
    pub line: Vec<u8>,
    pub sizes: Vec<u64>,
}

/// What is kept of a document that is answered with the rows that were found.
pub(crate) fn handed_of(
    alloc: Global,
    plan: &Plan,
    layout: &Layout<'_>,
    document: &Document<'_>,
    found: &[&Rows<'_>],
) -> Result<Handed, OutOfMemory>
    requires layout { layout.now ≡ names_in plan.now }
    requires found { IsAnswer rows_by plan.now document.now (map (λ list. list.now) found.now) }
    ensures { IfOk result (λ handed. entry_told handed ≡ entry_of rows_by plan.now document.now) }
{
    let line = append_document(alloc, Vec::new(alloc), document, layout, found)?;
    let sizes = sizes_of(alloc, found)?;
    let text = String::from_str(alloc, document.text())?;
    Ok(Handed {
        plan: plan_text(alloc, plan)?,
        text,
        line,
        sizes,
    })
}

/// How many rows each list has.
fn sizes_of(alloc: Global, lists: &[&Rows<'_>]) -> Result<Vec<u64>, OutOfMemory>
    ensures { IfOk result (λ sizes. sizes.items ≡ map (λ list. length (rows_of list)) lists.now) }
{
    let mut sizes = Vec::with_capacity(alloc, lists.len())?;
    for list in lists {
        sizes.push(u64::from(list.len()))?;
    }
    Ok(sizes)
}

/// The same, once more.
pub(crate) fn all_copied(alloc: Global, list: &[Handed]) -> Result<Vec<Handed>, OutOfMemory>
    ensures { IfOk result (λ copies. map entry_told copies.items ≡ map entry_told list.now) }
{
    let mut copies = Vec::with_capacity(alloc, list.len())?;
    for handed in list {
        copies.push(copied(alloc, handed)?)?;
    }
    Ok(copies)
}

fn copied(alloc: Global, handed: &Handed) -> Result<Handed, OutOfMemory>
    ensures { IfOk result (λ copy. entry_told copy ≡ entry_told handed.now) }
{
    let mut line = Vec::with_capacity(alloc, handed.line.len())?;
    line.extend_from_slice(handed.line.as_slice())?;
    let mut sizes = Vec::with_capacity(alloc, handed.sizes.len())?;
    sizes.extend_from_slice(handed.sizes.as_slice())?;
    Ok(Handed {
        plan: String::from_str(alloc, handed.plan.as_str())?,
        text: String::from_str(alloc, handed.text.as_str())?,
        line,
        sizes,
    })
}
