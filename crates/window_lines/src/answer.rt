//! The line of one document, by one thread.

ghost use Rattle.std.specs.Prelude.{◌≡◌, ◌≤◌, ◌++◌, ◌∷◌, [], not, All, IfOk, OnOk, IsSome, None, ◌<◌, length, map, slice_index_or};
ghost use Rattle.corpus_json.specs.Documents.{documents, is_bad_line};
ghost use Rattle.corpus_json.specs.Inputs.{doc_of, doc_of_ref};
ghost use Rattle.corpus_json.specs.Limits.{line_limit};
ghost use Rattle.corpus_json.specs.Outputs.{output_line, rows_of, width_of};
ghost use Rattle.plan_operators.specs.Boards.{Holds, rows_there};
ghost use Rattle.row_values.specs.Rows.{RowsLieIn};
ghost use Rattle.run_pool.specs.Answers.{IsAnswer};
ghost use Rattle.run_pool.specs.Entries.{entry_of, AreHanded};
ghost use Rattle.run_pool.specs.Lines.{line_from, names_in, rows_by};
ghost use Rattle.span_token.specs.Limits.{text_limit};
ghost use Rattle.line_parts.specs.Answered.{answer_to};

use algebra::{Plan, PlanOut};
use corpus_json::{DocumentReader, Input, InputRef, Layout, NotDocument, append_document};
use plan_operators::{EvaluationRoom, Schedule, evaluate, rows_shown};
use row_values::Rows;
use run_pool::{Answered, Pool};
use scalar_ops::Tools;
use span_token::{Document, Failure, OutOfMemory};
use std::alloc::Global;
use std::mem;

/// Memory that is used again for each line of the corpus.
#[derive(Drop)]
pub struct Room {
    reader: DocumentReader,
    evaluation: EvaluationRoom,
}

impl Room {
    /// No room yet: it grows with what it is used for.
    pub fn new(alloc: Global) -> Room {
        Room {
            reader: DocumentReader::new(alloc),
            evaluation: EvaluationRoom::new(alloc),
        }
    }
}

/// Hands the document of a line of the corpus, without its LF, to a pool, and puts what is written for the line
/// behind what is pending: the line that the pool answers, and nothing for a blank line. False where the line is
/// neither, and nothing is put or handed over.
///
/// `schedule` is the plan's, `layout` has its outputs, and `tools` are made of its tables. `with_tokens` says
/// whether the document keeps its tokens, and changes no byte.
pub fn answer_line<P: Pool>(
    alloc: Global,
    schedule: &Schedule<'_>,
    with_tokens: bool,
    layout: &Layout<'_>,
    tools: &mut Tools<'_>,
    room: &mut Room,
    pool: &mut P,
    line: &[u8],
    pending: &mut Vec<u8>,
) -> Result<bool, OutOfMemory>
    requires layout { layout.now ≡ names_in schedule.now }
    requires tables { tools.old ≡ schedule.now.lists }
    requires short { length line.now ≤ line_limit }
    ensures good { IfOk result (λ good. is_bad_line line.now ≡ not good) }
    ensures bytes { IfOk result (λ good. pending.new.items ≡ pending.old.items ++ answer_to (line_from (P.means pool.old) schedule.now) (line.now ∷ [])) }
    ensures handed { AreHanded (P.told pool.old) (P.told pool.new) (map (entry_of (P.means pool.old) schedule.now) (documents (line.now ∷ []))) result }
    ensures means { P.means pool.new ≡ P.means pool.old }
    ensures same { tools.new ≡ tools.old }
{
    match room.reader.read(line) {
        Ok(Some(input)) => {
            append_answer(
                alloc,
                schedule,
                with_tokens,
                layout,
                tools,
                pool,
                input,
                &mut room.evaluation,
                pending,
            )?;
            Ok(true)
        }
        Ok(None) => Ok(true),
        Err(Failure::Fault(NotDocument)) => Ok(false),
        Err(Failure::OutOfMemory) => Err(OutOfMemory),
    }
}

/// Hands a document to a pool, with the rows that are found, and puts the line that the pool answers behind what
/// is pending.
///
/// `schedule` is the plan's, `layout` has its outputs, and `tools` are made of its tables. `with_tokens` says
/// whether the document keeps its tokens, and changes no byte. The text is no longer than a document's may be.
/// `room` is memory that is used again for each document.
///
/// Meaning: `line_from`, `specs/Lines.antt` of `run_pool`.
pub fn append_answer<P: Pool>(
    alloc: Global,
    schedule: &Schedule<'_>,
    with_tokens: bool,
    layout: &Layout<'_>,
    tools: &mut Tools<'_>,
    pool: &mut P,
    input: InputRef<'_>,
    room: &mut EvaluationRoom,
    pending: &mut Vec<u8>,
) -> Result<(), OutOfMemory>
    requires layout { layout.now ≡ names_in schedule.now }
    requires tables { tools.old ≡ schedule.now.lists }
    requires short { length input.text.now ≤ text_limit }
    ensures bytes { OnOk result (pending.new.items ≡ pending.old.items ++ line_from (P.means pool.old) schedule.now (doc_of_ref input.entry)) }
    ensures handed { AreHanded (P.told pool.old) (P.told pool.new) (entry_of (P.means pool.old) schedule.now (doc_of_ref input.entry) ∷ []) result }
    ensures means { P.means pool.new ≡ P.means pool.old }
    ensures same { tools.new ≡ tools.old }
{
    let document = document_of(alloc, with_tokens, input)?;
    let board = evaluate(alloc, tools, room, &document, schedule)?;
    append_rows(
        alloc,
        schedule.plan(),
        layout,
        pool,
        &document,
        board.as_slice(),
        pending,
    )
}

/// The document that was read, with its tokens kept or not.
pub fn document_of<'d>(
    alloc: Global,
    with_tokens: bool,
    input: InputRef<'d>,
) -> Result<Document<'d>, OutOfMemory>
    requires short { length input.text.now ≤ text_limit }
    ensures { IfOk result (λ document. document ≡ doc_of_ref input.entry) }
{
    if with_tokens {
        Document::new(alloc, input.text, input.label)
    } else {
        Document::plain(alloc, input.text, input.label)
    }
}

/// Hands a document to a pool, and puts the line that it answers behind what is pending; `board` has the rows of
/// each output's node.
fn append_rows<'d, P: Pool>(
    alloc: Global,
    plan: &Plan,
    layout: &Layout<'_>,
    pool: &mut P,
    document: &Document<'d>,
    board: &[Option<Rows<'d>>],
    pending: &mut Vec<u8>,
) -> Result<(), OutOfMemory>
    requires layout { layout.now ≡ names_in plan.now }
    requires long { length board.now ≡ length plan.now.nodes }
    requires shown { All (λ out. Holds plan.now.lists document.now plan.now.nodes out.node (slice_index_or board.now out.node None)) plan.now.outputs }
    ensures bytes { OnOk result (pending.new.items ≡ pending.old.items ++ line_from (P.means pool.old) plan.now document.now) }
    ensures handed { AreHanded (P.told pool.old) (P.told pool.new) (entry_of (P.means pool.old) plan.now document.now ∷ []) result }
    ensures means { P.means pool.new ≡ P.means pool.old }
{
    let outputs = plan.outputs();
    if outputs.len() == 1 {
        let shown = [rows_shown(board, &outputs[0])];
        return append_answered(alloc, plan, layout, pool, document, &shown, pending);
    }
    let shown = all_shown(alloc, outputs, board)?;
    append_answered(
        alloc,
        plan,
        layout,
        pool,
        document,
        shown.as_slice(),
        pending,
    )
}

/// Hands a document to a pool with the rows that were found, and puts the line that it answers behind what is
/// pending.
fn append_answered<'d, P: Pool>(
    alloc: Global,
    plan: &Plan,
    layout: &Layout<'_>,
    pool: &mut P,
    document: &Document<'d>,
    found: &[&Rows<'d>],
    pending: &mut Vec<u8>,
) -> Result<(), OutOfMemory>
    requires layout { layout.now ≡ names_in plan.now }
    requires found { IsAnswer rows_by plan.now document.now (map (λ list. list.now) found.now) }
    ensures bytes { OnOk result (pending.new.items ≡ pending.old.items ++ line_from (P.means pool.old) plan.now document.now) }
    ensures handed { AreHanded (P.told pool.old) (P.told pool.new) (entry_of (P.means pool.old) plan.now document.now ∷ []) result }
    ensures means { P.means pool.new ≡ P.means pool.old }
{
    match pool.answer(alloc, plan, layout, document, found)? {
        Answered::AsFound => append_line(alloc, layout, document, found, pending),
        Answered::Instead(rows) => {
            let lent = all_lent(alloc, rows.as_slice())?;
            append_line(alloc, layout, document, lent.as_slice(), pending)
        }
    }
}

/// Puts the line of a document with these rows behind what is pending, of which nothing is left where memory is
/// wanting.
pub(crate) fn append_line(
    alloc: Global,
    layout: &Layout<'_>,
    document: &Document<'_>,
    rows: &[&Rows<'_>],
    pending: &mut Vec<u8>,
) -> Result<(), OutOfMemory>
    requires columns { map width_of rows.now ≡ map (λ output. length output.columns) layout.now }
    requires in_document { All (RowsLieIn document.now) (map rows_of rows.now) }
    ensures bytes { OnOk result (pending.new.items ≡ pending.old.items ++ output_line document.now layout.now (map rows_of rows.now)) }
{
    let before = mem::replace(pending, Vec::new(alloc));
    *pending = append_document(alloc, before, document, layout, rows)?;
    Ok(())
}

/// Lists of rows, borrowed.
pub fn all_lent<'r, 'd>(
    alloc: Global,
    rows: &'r [Rows<'d>],
) -> Result<Vec<&'r Rows<'d>>, OutOfMemory>
    ensures { IfOk result (λ lent. map (λ list. list.now) lent.items ≡ rows.now) }
{
    let mut lent = Vec::with_capacity(alloc, rows.len())?;
    for list in rows {
        lent.push(list)?;
    }
    Ok(lent)
}

/// The rows that each output shows.
pub fn all_shown<'r, 'd>(
    alloc: Global,
    outputs: &[PlanOut],
    board: &'r [Option<Rows<'d>>],
) -> Result<Vec<&'r Rows<'d>>, OutOfMemory>
    requires there { All (λ out. out.node < length board.now) outputs.now }
    requires shown { All (λ out. IsSome (slice_index_or board.now out.node None)) outputs.now }
    ensures { IfOk result (λ shown. map (λ list. list.now) shown.items ≡ map (λ out. rows_there (slice_index_or board.now out.node None)) outputs.now) }
{
    let mut shown = Vec::new(alloc);
    for out in outputs {
        shown.push(rows_shown(board, out))?;
    }
    Ok(shown)
}

/// A document with its texts borrowed.
pub fn lent(input: &Input) -> InputRef<'_>
    ensures { doc_of_ref result ≡ doc_of input.now }
{
    let label = match &input.label {
        Some(label) => Some(label.as_str()),
        None => None,
    };
    InputRef {
        label,
        text: input.text.as_str(),
    }
}
