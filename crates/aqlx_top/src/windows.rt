//! A run by workers: each answers lines that are ready, or left of the corpus, by itself, and a few large documents are
//! evaluated in windows, by all workers together.

ghost use Rattle.std.specs.Prelude.{◌≡◌, ◌≢◌, ◌<◌, ◌≤◌, ◌+◌, ◌-◌, ◌*◌, ◌^◌, ◌++◌, ℕ, [], ◌∷◌, false, true, not, IfOk, IfSome, OnOk, OnErr, Option, List, MatchResult, None, length, map};
ghost use Rattle.algebra.specs.Plans.{Parts};
ghost use Rattle.aql_io.specs.Causes.{Rose};
ghost use Rattle.corpus_json.specs.Documents.{documents, is_bad_line};
ghost use Rattle.corpus_json.specs.Inputs.{doc_of};
ghost use Rattle.corpus_json.specs.Limits.{corpus_limit, line_limit};
ghost use Rattle.run_pool.specs.Lines.{rows_by};
ghost use Rattle.span_token.specs.Documents.{Doc};
ghost use Rattle.aqlx_top.specs.Devices.{SourceEnds, source_ends, sink_ends, source_between, sink_between};
ghost use Rattle.aqlx_top.specs.Endings.{InPart};
ghost use Rattle.aqlx_top.specs.Progress.{Finished, Stands, IsGoing, IsRunTo};
ghost use Rattle.aqlx_top.specs.Planned.{line_by, names_in};
ghost use Rattle.line_parts.specs.Answered.{outgoing};
ghost use Rattle.aqlx_top.specs.Windows.{meant_by, sink_turn, Fits, HasAnswered, HasTaken, IsAsBefore, IsGiven, TurnedOut};
ghost use Rattle.window_lines.specs.Lines.{AreShort};

use crate::asks::asks_for_tokens;
use crate::put::put_all_and_flush;
use crate::run::PIECE;
use crate::{CorpusFault, Status};
use algebra::Plan;
use aql_io::{Failed, Sink, Source};
use corpus_json::{DocumentReader, Input, Layout, LineBuffer, NotDocument, Step};
use line_parts::{Pending, put_all};
use memchr::memchr;
use plan_operators::Schedule;
use row_values::Output;
use run_pool::Pool;
use span_token::{Failure, OutOfMemory};
use std::alloc::Global;
use std::thread::Threads;
use window_lines::{Hands, answer_ready, append_window};
use worker_pool::Crew;

/// The most documents of a window.
const MOST_DOCUMENTS: u32 = 64;

/// How many bytes of lines make a window full.
const MOST_BYTES: usize = 4_194_304;

/// Lines of so many bytes are large: they go into a window, where few are left behind them.
const LARGE: usize = 65_536;

/// Lines of so many bytes go into a window, however many stand behind them: all workers evaluate such a document together.
const LONG: usize = 4_194_304;

/// How many bytes a read of the corpus may bring: more than a pipe holds, so that a read that brings as many comes from a
/// file, which is never waited for.
const ROOM: usize = 2_097_152;

/// The same where the corpus shows what is left: but for the line with which a turn begins, lines are looked at.
const ROOM_SHOWN: usize = 65_536;

/// Bytes behind those that are ready are looked at where more are shown, or were as the run began, and else read: few of them
/// pay for no threads.
const WORTH: usize = 1_048_576;

/// Where so many bytes for each worker are left, most large lines are short enough that there is one for each of them.
const EACH: usize = 1_048_576;

/// Up to how many bytes behind those that are ready are answered in one turn: so many that workers seldom wait for each other
/// at its end.
const AHEAD: usize = 1_073_741_824;

/// What a run keeps from line to line: lines that are pending, and behind them a window of documents whose
/// lines aren't made yet, which has at most `most` documents and so many bytes of lines.
#[derive(Drop)]
pub(crate) struct Windowed<'p> {
    pub plan: &'p Plan,
    pub schedule: Schedule<'p>,
    pub hands: Hands<'p>,
    pub crew: Crew<'p>,
    pub with_tokens: bool,
    pub layout: Layout<'p>,
    pub workers: usize,
    /// Whether much of the corpus was shown as the run began: then lines are looked at, however little is left.
    pub shows: bool,
    pub reader: LineBuffer,
    pub line: Vec<u8>,
    /// In a box, since it has thousands of bytes, which no call is to move over the stack.
    pub documents: Box<DocumentReader>,
    pub number: u64,
    pub most: usize,
    pub window: Vec<Input>,
    pub bytes: usize,
    pub pending: Pending,
}

/// What came of a turn.
#[derive(Drop)]
pub(crate) enum Turnout {
    /// There may be more lines.
    Next,
    /// The run came to this status, but for what is pending.
    Ended(Status),
    /// A write failed.
    Unwritten,
}

/// Runs a plan over a corpus as `run` does, with the documents evaluated by so many workers, each alone or in
/// windows. The pool answers what is found and keeps no list, so documents may be handed to parts of it.
pub(crate) fn run_in_windows<R: Threads + Sync, S: Source + Sync, O: Sink, P: Pool>(
    rt: &R,
    alloc: Global,
    workers: u32,
    plan: &Plan,
    outputs: &[Output],
    pool: &mut P,
    corpus: &mut S,
    out: &mut O,
) -> Result<Status, OutOfMemory>
    requires some { 1 ≤ workers }
    requires outputs { outputs.now ≡ names_in plan.now }
    requires as_found { P.means pool.old ≡ rows_by }
    requires untold { P.told pool.old ≡ None }
    ensures ran { IfOk result (IsRunTo (line_by plan.now)
        (source_between S.left S.faults corpus.old corpus.new)
        (sink_between O.held O.flushed O.faults out.old out.new)) }
    ensures part { OnErr result (InPart (line_by plan.now)
        (source_between S.left S.faults corpus.old corpus.new)
        (O.held out.old) (O.held out.new)) }
    ensures means { P.means pool.new ≡ P.means pool.old }
    ensures told { P.told pool.new ≡ P.told pool.old }
{
    let shows = shows_byte(corpus, WORTH);
    let mut work = begin_windows(alloc, workers, plan, outputs, shows)?;
    'lines: loop {
        match send_between(out, &mut work) {
            Ok(()) => {}
            Err(Failed) => return Ok(Status::WriteFault),
        }
        match turn_in_window(rt, alloc, &mut work, pool, corpus, out)? {
            Turnout::Next => {}
            Turnout::Ended(status) => return Ok(finish_all(out, &work.pending, status)),
            Turnout::Unwritten => return Ok(Status::WriteFault),
        }
    }
}

fn begin_windows<'p>(
    alloc: Global,
    workers: u32,
    plan: &'p Plan,
    outputs: &'p [Output],
    shows: bool,
) -> Result<Windowed<'p>, OutOfMemory>
    requires some { 1 ≤ workers }
    requires outputs { outputs.now ≡ names_in plan.now }
    ensures fits { IfOk result (Fits plan.now) }
    ensures reader { IfOk result (λ work. work.reader ≡ record { ready = []; taken = 0; last = None }) }
    ensures nothing { IfOk result (λ work. (work.pending ≡ []) × (work.window.items ≡ []) × (work.number ≡ 0)) }
{
    let room = if shows { ROOM_SHOWN } else { ROOM };
    let documents = Box::new(alloc, DocumentReader::new(alloc))?;
    let schedule = Schedule::new(alloc, plan)?;
    let with_tokens = asks_for_tokens(&schedule);
    Ok(Windowed {
        plan,
        schedule,
        hands: Hands::new(alloc, plan, workers)?,
        crew: Crew::new(alloc, plan, workers)?,
        with_tokens,
        layout: Layout::new(alloc, outputs)?,
        workers: workers as usize,
        shows,
        reader: LineBuffer::with_room(alloc, room)?,
        line: Vec::new(alloc),
        documents,
        number: 0,
        most: most_documents(plan) as usize,
        window: Vec::new(alloc),
        bytes: 0,
        pending: Pending::new(alloc),
    })
}

/// How many bytes behind those that are ready may be answered: none where the corpus shows nothing, or little and little when
/// the run began.
fn room_ahead<S: Source>(work: &Windowed<'_>, corpus: &S) -> usize
    ensures within { result ≤ corpus_limit - work.now.reader.taken }
    ensures going { 0 < result → work.now.reader.last ≡ None }
{
    let worth = if work.shows { 0 } else { WORTH };
    if !shows_byte(corpus, worth) {
        return 0;
    }
    AHEAD.min(work.reader.may_take())
}

/// Whether the corpus shows the byte that stands so many behind the next one.
fn shows_byte<S: Source>(corpus: &S, at: usize) -> bool {
    let mut byte = [0u8];
    corpus.look(at, &mut byte) > 0
}

/// How many documents a window may have, so that the nodes of the plan on them are fewer than 2^32.
fn most_documents(plan: &Plan) -> u32
    ensures some { 0 < result }
    ensures few { result * length plan.now.nodes < 2 ^ 32 }
{
    let nodes = plan.nodes().len();
    if nodes == 0 {
        MOST_DOCUMENTS
    } else {
        MOST_DOCUMENTS.min(u32::MAX / nodes)
    }
}

/// Writes what is pending where no document is behind it, once it is a piece or the next line isn't whole
/// yet, so that what is there stands on the output before the corpus is waited for.
fn send_between<O: Sink>(out: &mut O, work: &mut Windowed<'_>) -> Result<(), Failed>
    ensures sent { (piece : Doc → List ℕ) (left_before left_now : Option (List ℕ)) (faults_before faults_now : ℕ) (before : Option (List ℕ)) →
        Stands piece (source_ends left_before left_now faults_before faults_now) before (O.held out.old) work.old.reader (meant_by piece work.old.pending work.old.window.items) work.old.number →
        MatchResult result
        (λ _. Stands piece (source_ends left_before left_now faults_before faults_now) before (O.held out.new) work.new.reader (meant_by piece work.new.pending work.new.window.items) work.new.number)
        (λ _. InPart piece (source_ends left_before left_now faults_before faults_now) before (O.held out.new)) }
    ensures fits { OnOk result ((plan : Parts) → Fits plan work.old → Fits plan work.new) }
    ensures same { OnOk result ((work.new.reader ≡ work.old.reader) × (work.new.number ≡ work.old.number) × (work.new.most ≡ work.old.most) × (work.new.window.items ≡ work.old.window.items)) }
    ensures stands { OnOk result (O.faults out.new ≡ O.faults out.old) }
    ensures cause { OnErr result (Rose (O.faults out.old) (O.faults out.new)) }
{
    if is_to_send(work) {
        put_all(out, &work.pending)?;
        work.pending.clear();
    }
    Ok(())
}

/// Whether what is pending is to be written: no document is behind it, and it is a piece or the next line isn't
/// whole yet.
fn is_to_send(work: &Windowed<'_>) -> bool
    ensures { result ≡ true → work.now.window.items ≡ [] }
{
    work.window.is_empty() && (work.pending.has_many(PIECE) || !work.reader.has_line())
}

/// Looks at the next line and at those behind it, and evaluates the window where it is due: so it is
/// empty at the end of the run.
fn turn_in_window<R: Threads + Sync, S: Source + Sync, P: Pool, O: Sink>(
    rt: &R,
    alloc: Global,
    work: &mut Windowed<'_>,
    pool: &mut P,
    corpus: &mut S,
    out: &mut O,
) -> Result<Turnout, OutOfMemory>
    requires fits { Fits work.old.plan.now work.old }
    requires as_found { P.means pool.old ≡ rows_by }
    requires untold { P.told pool.old ≡ None }
    requires below { length work.old.window.items < work.old.most }
    requires room { work.old.number < 2 ^ 63 }
    requires going { IsGoing work.old.reader }
    ensures turned { (plan : Parts) (left : Option (List ℕ)) (faults : ℕ) (before : Option (List ℕ)) → work.old.plan.now ≡ plan →
        Stands (line_by plan) (source_ends left (S.left corpus.old) faults (S.faults corpus.old)) before (O.held out.old) work.old.reader (meant_by (line_by plan) work.old.pending work.old.window.items) work.old.number →
        TurnedOut (line_by plan) (source_ends left (S.left corpus.new) faults (S.faults corpus.new)) before (sink_turn (O.held out.new) (O.faults out.old) (O.faults out.new)) work.new.reader (meant_by (line_by plan) work.new.pending work.new.window.items) work.new.number result }
    ensures counts { IfOk result (λ came. came ≡ Turnout.Next → work.old.number < work.new.number) }
    ensures going { IfOk result (λ came. came ≡ Turnout.Next → IsGoing work.new.reader) }
    ensures fits { IfOk result (λ _. (plan : Parts) → Fits plan work.old → Fits plan work.new) }
    ensures below { IfOk result (λ came. came ≡ Turnout.Next → length work.new.window.items < work.new.most) }
    ensures ended { IfOk result (λ came. came ≢ Turnout.Next → work.new.window.items ≡ []) }
    ensures means { P.means pool.new ≡ P.means pool.old }
    ensures told { P.told pool.new ≡ P.told pool.old }
{
    let turn = take_line(rt, alloc, work, pool, corpus, out)?;
    if is_due(work, &turn) {
        evaluate_window(rt, alloc, work, pool)?;
        Ok(turn)
    } else {
        Ok(turn)
    }
}

/// Looks at the next line, and puts its document into the window, or answers it and those behind it.
fn take_line<R: Threads + Sync, S: Source + Sync, P: Pool, O: Sink>(
    rt: &R,
    alloc: Global,
    work: &mut Windowed<'_>,
    pool: &P,
    corpus: &mut S,
    out: &mut O,
) -> Result<Turnout, OutOfMemory>
    requires fits { Fits work.old.plan.now work.old }
    requires as_found { P.means pool.now ≡ rows_by }
    requires untold { P.told pool.now ≡ None }
    requires below { length work.old.window.items < work.old.most }
    requires room { work.old.number < 2 ^ 63 }
    requires going { IsGoing work.old.reader }
    ensures turned { (plan : Parts) (left : Option (List ℕ)) (faults : ℕ) (before : Option (List ℕ)) → work.old.plan.now ≡ plan →
        Stands (line_by plan) (source_ends left (S.left corpus.old) faults (S.faults corpus.old)) before (O.held out.old) work.old.reader (meant_by (line_by plan) work.old.pending work.old.window.items) work.old.number →
        TurnedOut (line_by plan) (source_ends left (S.left corpus.new) faults (S.faults corpus.new)) before (sink_turn (O.held out.new) (O.faults out.old) (O.faults out.new)) work.new.reader (meant_by (line_by plan) work.new.pending work.new.window.items) work.new.number result }
    ensures counts { IfOk result (λ came. came ≡ Turnout.Next → work.old.number < work.new.number) }
    ensures going { IfOk result (λ came. came ≡ Turnout.Next → IsGoing work.new.reader) }
    ensures fits { IfOk result (λ _. (plan : Parts) → Fits plan work.old → Fits plan work.new) }
{
    match work.reader.next_line(corpus, &mut work.line)? {
        Step::Line => {
            work.number += 1;
            // no more bytes were taken than a corpus has, which bounds the number of lines
            let _taken = work.reader.taken();
            take_given(rt, alloc, work, pool, corpus, out)
        }
        Step::End => Ok(Turnout::Ended(Status::Done)),
        Step::Long => Ok(Turnout::Ended(Status::Corpus(CorpusFault::LineLong(work.number + 1)))),
        Step::Failed => Ok(Turnout::Ended(Status::ReadFault)),
        Step::Limit => Ok(Turnout::Ended(Status::Corpus(CorpusFault::CorpusLarge))),
    }
}

/// Puts the document of the line that was given into the window, or answers that line and those behind it.
fn take_given<R: Threads + Sync, S: Source + Sync, P: Pool, O: Sink>(
    rt: &R,
    alloc: Global,
    work: &mut Windowed<'_>,
    pool: &P,
    corpus: &mut S,
    out: &mut O,
) -> Result<Turnout, OutOfMemory>
    requires fits { Fits work.old.plan.now work.old }
    requires as_found { P.means pool.now ≡ rows_by }
    requires untold { P.told pool.now ≡ None }
    requires below { length work.old.window.items < work.old.most }
    requires line { length work.old.line.items ≤ line_limit }
    ensures given { IfOk result (IsGiven (line_by work.old.plan.now) (S.looks corpus.old) (S.left corpus.old) (S.left corpus.new)
        (outgoing work.old.pending (O.held out.old) (O.faults out.old)) (outgoing work.new.pending (O.held out.new) (O.faults out.new)) work.old work.new) }
    ensures fits { IfOk result (λ _. (plan : Parts) → Fits plan work.old → Fits plan work.new) }
    ensures err { OnErr result ((S.left corpus.new ≡ S.left corpus.old) × (O.held out.new ≡ O.held out.old) × (O.faults out.new ≡ O.faults out.old)) }
    ensures faults { S.faults corpus.new ≡ S.faults corpus.old }
{
    if is_for_window(work, corpus) {
        take_document(alloc, work)
    } else {
        answer_or_take(rt, alloc, work, pool, corpus, out)
    }
}

/// Answers the line that was given and those behind it, or puts the document of that one into the window
/// where it can't.
fn answer_or_take<R: Threads + Sync, S: Source + Sync, P: Pool, O: Sink>(
    rt: &R,
    alloc: Global,
    work: &mut Windowed<'_>,
    pool: &P,
    corpus: &mut S,
    out: &mut O,
) -> Result<Turnout, OutOfMemory>
    requires fits { Fits work.old.plan.now work.old }
    requires as_found { P.means pool.now ≡ rows_by }
    requires untold { P.told pool.now ≡ None }
    requires below { length work.old.window.items < work.old.most }
    requires line { length work.old.line.items ≤ line_limit }
    requires empty { work.old.window.items ≡ [] }
    ensures given { IfOk result (IsGiven (line_by work.old.plan.now) (S.looks corpus.old) (S.left corpus.old) (S.left corpus.new)
        (outgoing work.old.pending (O.held out.old) (O.faults out.old)) (outgoing work.new.pending (O.held out.new) (O.faults out.new)) work.old work.new) }
    ensures fits { IfOk result (λ _. (plan : Parts) → Fits plan work.old → Fits plan work.new) }
    ensures err { OnErr result ((S.left corpus.new ≡ S.left corpus.old) × (O.held out.new ≡ O.held out.old) × (O.faults out.new ≡ O.faults out.old)) }
    ensures faults { S.faults corpus.new ≡ S.faults corpus.old }
{
    match answer_given(rt, alloc, work, pool, corpus, out)? {
        Some(turnout) => Ok(turnout),
        None => take_document(alloc, work),
    }
}

/// Whether the line that was given belongs into the window: where one is begun, or the line is large, and there isn't work for
/// all workers behind it.
fn is_for_window<S: Source>(work: &Windowed<'_>, corpus: &S) -> bool
    ensures { result ≡ false → work.now.window.items ≡ [] }
{
    !work.window.is_empty() || work.line.len() >= LARGE && !has_many(work, corpus)
}

/// Whether there is work for all workers behind a large line: as many lines are ready as there are workers, or many bytes are
/// left.
fn has_many<S: Source>(work: &Windowed<'_>, corpus: &S) -> bool {
    work.line.len() < LONG
        && (has_lines(work.reader.ready(), work.workers)
            || shows_byte(corpus, EACH.saturating_mul(work.workers)))
}

/// Whether so many lines are there with their LF.
fn has_lines(bytes: &[u8], number: usize) -> bool {
    let mut at = 0;
    for _ in 0..number {
        match memchr(b'\n', &bytes[at..]) {
            Some(n) => at += n + 1,
            None => return false,
        }
    }
    true
}

/// Answers the line that was given and those behind it, as far as none is bad. `None` where that one is
/// bad: then nothing is answered.
fn answer_given<R: Threads + Sync, S: Source + Sync, P: Pool, O: Sink>(
    rt: &R,
    alloc: Global,
    work: &mut Windowed<'_>,
    pool: &P,
    corpus: &mut S,
    out: &mut O,
) -> Result<Option<Turnout>, OutOfMemory>
    requires fits { Fits work.old.plan.now work.old }
    requires as_found { P.means pool.now ≡ rows_by }
    requires untold { P.told pool.now ≡ None }
    requires empty { work.old.window.items ≡ [] }
    ensures answered { IfOk result (λ came. IfSome came (HasAnswered (line_by work.old.plan.now) (S.looks corpus.old) (S.left corpus.old) (S.left corpus.new)
        (outgoing work.old.pending (O.held out.old) (O.faults out.old)) (outgoing work.new.pending (O.held out.new) (O.faults out.new)) work.old work.new)) }
    ensures none { IfOk result (λ came. came ≡ None → IsAsBefore work.old work.new × (S.left corpus.new ≡ S.left corpus.old)
        × (O.held out.new ≡ O.held out.old) × (O.faults out.new ≡ O.faults out.old)) }
    ensures fits { IfOk result (λ _. (plan : Parts) → Fits plan work.old → Fits plan work.new) }
    ensures err { OnErr result ((S.left corpus.new ≡ S.left corpus.old) × (O.held out.new ≡ O.held out.old) × (O.faults out.new ≡ O.faults out.old)) }
    ensures faults { S.faults corpus.new ≡ S.faults corpus.old }
{
    let ahead = room_ahead(work, corpus);
    let told = answer_ready(
        rt,
        alloc,
        &work.schedule,
        work.with_tokens,
        &work.layout,
        &mut work.hands,
        pool,
        corpus,
        ahead,
        &work.line,
        work.reader.ready(),
        &mut work.pending,
        out,
    )?;
    let Some(taken) = told else {
        return Ok(None);
    };
    work.reader.pass(corpus, taken.bytes);
    work.number = work.number.saturating_add(taken.lines);
    if taken.failed {
        Ok(Some(Turnout::Unwritten))
    } else {
        Ok(Some(Turnout::Next))
    }
}

/// Puts the document of the line that was given behind those of the window; a blank line has none.
fn take_document(alloc: Global, work: &mut Windowed<'_>) -> Result<Turnout, OutOfMemory>
    requires line { length work.old.line.items ≤ line_limit }
    requires short { AreShort work.old.window.items }
    requires below { length work.old.window.items < work.old.most }
    ensures taken { IfOk result (HasTaken work.old work.new) }
    ensures fits { IfOk result (λ _. (plan : Parts) → Fits plan work.old → Fits plan work.new) }
{
    let good = put_document(alloc, &mut *work.documents, &work.line, &mut work.window)?;
    if good {
        work.bytes = work.bytes.saturating_add(work.line.len());
        Ok(Turnout::Next)
    } else {
        Ok(Turnout::Ended(Status::Corpus(CorpusFault::BadLine(work.number))))
    }
}

/// Puts the document of a line behind the others; a blank line has none. False where the line is neither.
fn put_document(
    alloc: Global,
    reader: &mut DocumentReader,
    line: &[u8],
    window: &mut Vec<Input>,
) -> Result<bool, OutOfMemory>
    requires line { length line.now ≤ line_limit }
    requires short { AreShort window.old.items }
    ensures good { IfOk result (λ good. is_bad_line line.now ≡ not good) }
    ensures documents { IfOk result (λ good. map doc_of window.new.items ≡ map doc_of window.old.items ++ documents (line.now ∷ [])) }
    ensures more { IfOk result (λ good. length window.new.items ≤ length window.old.items + 1) }
    ensures short { IfOk result (λ good. AreShort window.new.items) }
{
    match reader.read(line) {
        Ok(Some(input)) => {
            window.push(Input::copied(alloc, input)?)?;
            Ok(true)
        }
        Ok(None) => Ok(true),
        Err(Failure::Fault(NotDocument)) => Ok(false),
        Err(Failure::OutOfMemory) => Err(OutOfMemory),
    }
}

/// Whether the window is to be evaluated: where the run ends, where it is full, or where the next line isn't
/// whole yet and no more input may be there already.
fn is_due(work: &Windowed<'_>, turn: &Turnout) -> bool
    ensures goes_on { result ≡ false → turn.now ≡ Turnout.Next }
    ensures below { result ≡ false → length work.now.window.items < work.now.most }
{
    match turn {
        Turnout::Next => {
            work.window.len() >= work.most
                || work.bytes >= MOST_BYTES
                || !(work.reader.has_line() || work.reader.was_filled())
        }
        Turnout::Ended(_) | Turnout::Unwritten => true,
    }
}

/// Evaluates the window, hands its documents to the pool, and puts their lines behind what is pending.
fn evaluate_window<R: Threads + Sync, P: Pool>(
    rt: &R,
    alloc: Global,
    work: &mut Windowed<'_>,
    pool: &mut P,
) -> Result<(), OutOfMemory>
    requires fits { Fits work.old.plan.now work.old }
    requires as_found { P.means pool.old ≡ rows_by }
    requires untold { P.told pool.old ≡ None }
    ensures meant { OnOk result (work.new.pending ≡ meant_by (line_by work.old.plan.now) work.old.pending work.old.window.items) }
    ensures empty { OnOk result (work.new.window.items ≡ []) }
    ensures fits { OnOk result ((plan : Parts) → Fits plan work.old → Fits plan work.new) }
    ensures same { OnOk result ((work.new.reader ≡ work.old.reader) × (work.new.number ≡ work.old.number) × (work.new.most ≡ work.old.most)) }
    ensures means { P.means pool.new ≡ P.means pool.old }
    ensures told { P.told pool.new ≡ P.told pool.old }
{
    append_window(
        rt,
        alloc,
        work.plan,
        work.with_tokens,
        &work.layout,
        &mut work.crew,
        work.workers,
        pool,
        &work.window,
        &mut work.pending,
    )?;
    work.window.clear();
    work.bytes = 0;
    Ok(())
}

/// Writes what is pending and flushes it.
fn finish_all<O: Sink>(out: &mut O, pending: &Pending, status: Status) -> Status
    ensures { (piece : Doc → List ℕ) (corpus : SourceEnds) (before : Option (List ℕ)) (flushed faults : ℕ) →
        O.faults out.old ≡ faults →
        Finished piece corpus before (O.held out.old) pending.now status →
        IsRunTo piece corpus (sink_ends before (O.held out.new) flushed (O.flushed out.new) faults (O.faults out.new)) result }
{
    match put_all_and_flush(out, pending) {
        Ok(()) => status,
        Err(Failed) => Status::WriteFault,
    }
}
