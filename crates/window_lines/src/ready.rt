//! Lines that are ready: each of several threads reads, evaluates and answers pieces of them by itself.

ghost use Rattle.std.specs.Prelude.{◌≡◌, ◌<◌, ◌≤◌, ◌+◌, ℕ, List, true, None, IfOk, OnErr, Option, MatchOption, MatchResult, is_some, vec_len};
ghost use Rattle.std.specs.Thread.{IsSend, IsSync};
ghost use Rattle.corpus_json.specs.Documents.{is_bad_line};
ghost use Rattle.scalar_ops.specs.Tables.{Lists};
ghost use Rattle.line_sight.specs.Seen.{shown_by};
ghost use Rattle.line_parts.specs.declared.desk.First.TheVariants as declared_first;
ghost use Rattle.line_parts.specs.Answered.{CameTo, Outgoing, outgoing};
ghost use Rattle.window_lines.specs.Lines.{line_by, names_in, rows_by};
ghost use Rattle.line_parts.specs.Turns.{HasStood, none_taken};
ghost use Rattle.window_lines.specs.Hands.{HaveTools};

use crate::hands::{Hand, Hands};
use crate::pieces::Ready;
use crate::stretch::stretch_count;
use aql_io::{Sink, Source};
use corpus_json::Layout;
use line_parts::{Answered, Desk, Done, First, Pending, Turn};
use line_sight::Seen;
use plan_operators::Schedule;
use run_pool::Pool;
use shared_queue::SharedQueue;
use span_token::OutOfMemory;
use std::alloc::Global;
use std::marker::Brand;
use std::sync::atomic::AtomicUsize;
use std::thread::{Threads, join_mut};

/// How many bytes of lines pay for the threads that answer them.
const MANY: usize = 16_384;

/// How many bytes a piece of the lines has at least, but for the last one.
const PIECE: usize = 16_384;

/// How many pieces of what is ready each thread has to answer, on average, where there are many bytes: so many that none
/// waits long for the last ones.
const PIECES: usize = 32;

/// How many bytes a piece has, where what is left of the corpus can be seen: so many that few bytes are looked at twice,
/// behind a piece and in the next one, and so few that none waits long for the last ones.
const PIECE_AHEAD: usize = 65_536;

/// How many bytes of output lines are enough that can't be written yet: the pieces that are begun are answered, and no more.
const ENOUGH: usize = 20_971_520;

/// The same for each thread, where they are many.
const ENOUGH_EACH: usize = 5_242_880;

/// How many parts each thread may have done, on average, while the caller's thread answers one piece.
const PARTS_EACH: usize = 256;

/// Puts what is written for a line, and for lines behind it, behind what is pending, and writes it: an output line for each
/// document, and nothing for a blank line, in their order. What is pending is written once it has 65,536 bytes, or holds a text
/// that is handed on without a copy; the rest is left pending, and nothing is flushed.
///
/// `first` is the line, without its LF, and `bytes` are those that are ready behind it. Behind these, up to `ahead` bytes
/// of what is left of the corpus are looked at, where it shows them: none is read by that. What is answered of all is told
/// in bytes and in lines: where there are many, each thread of `hands` answers pieces of them by itself, which pays where
/// there are more lines than threads, and otherwise one does, without a thread. The caller's own thread writes what the others
/// have done between its pieces. What is answered ends before a bad line, before one of 4,194,304 bytes and more, and where so
/// much is answered that can't be written yet (20,971,520 bytes, or 5,242,880 for each thread where they are more than
/// four), or 256 parts for each thread wait that are done; also before a piece for which memory was wanting, or room in the
/// queue. `None` where the first line is bad: nothing is written then, and what is pending is as it was. The error is that
/// memory was wanting for the first line, or for what the threads share, and no write is tried then.
///
/// Each document is handed to a part of the pool by the thread that evaluates it, and what the part answers is
/// written. The pool answers what is found and keeps no list, so nothing is gathered of its parts.
///
/// `schedule` is the plan's, `layout` has its outputs, and `hands` are made for the plan; the bytes are the
/// same for every number of them. `with_tokens` says whether documents keep their tokens, and changes no
/// byte.
///
/// Meaning: `CameTo`, `specs/Answered.antt` of `line_parts`, of what is seen by `specs/Seen.antt` of `line_sight`;
/// `line_by`, `specs/Lines.antt`: for each output the value of its node on the document. Where it ends, and what stays
/// pending, are no clauses.
pub fn answer_ready<R: Threads + Sync, P: Pool, S: Source + Sync, O: Sink>(
    rt: &R,
    alloc: Global,
    schedule: &Schedule<'_>,
    with_tokens: bool,
    layout: &Layout<'_>,
    hands: &mut Hands<'_>,
    pool: &P,
    corpus: &S,
    ahead: usize,
    first: &[u8],
    bytes: &[u8],
    pending: &mut Pending,
    out: &mut O,
) -> Result<Option<Answered>, OutOfMemory>
    requires layout { layout.now ≡ names_in schedule.now }
    requires of_plan { hands.old ≡ schedule.now.lists }
    requires as_found { P.means pool.now ≡ rows_by }
    requires untold { P.told pool.now ≡ None }
    ensures taken { IfOk result (λ told. MatchOption told
        ((is_bad_line first.now ≡ true) × (outgoing pending.new (O.held out.new) (O.faults out.new) ≡ outgoing pending.old (O.held out.old) (O.faults out.old)))
        (λ taken. CameTo (line_by schedule.now) first.now (shown_by (S.looks corpus.now) bytes.now (S.left corpus.now) ahead) taken
        (outgoing pending.old (O.held out.old) (O.faults out.old)) (outgoing pending.new (O.held out.new) (O.faults out.new)))) }
    ensures none { OnErr result ((O.held out.new ≡ O.held out.old) × (O.faults out.new ≡ O.faults out.old)) }
    ensures told { is_some (O.held out.new) ≡ is_some (O.held out.old) }
    ensures flushed { O.flushed out.new ≡ O.flushed out.old }
    ensures same { hands.new ≡ hands.old }
{
    answer_turn::<Brand, R, P, S, O>(
        rt,
        alloc,
        schedule,
        with_tokens,
        layout,
        hands,
        pool,
        Seen {
            ready: bytes,
            corpus,
            most: bytes.len().saturating_add(ahead),
        },
        ahead,
        first,
        pending,
        out,
    )
}

/// The same, for the turn of this name.
fn answer_turn<W: Turn + Send + Sync, R: Threads + Sync, P: Pool, S: Source + Sync, O: Sink>(
    rt: &R,
    alloc: Global,
    schedule: &Schedule<'_>,
    with_tokens: bool,
    layout: &Layout<'_>,
    hands: &mut Hands<'_>,
    pool: &P,
    seen: Seen<'_, S>,
    ahead: usize,
    first: &[u8],
    pending: &mut Pending,
    out: &mut O,
) -> Result<Option<Answered>, OutOfMemory>
    requires piece { W.piece ≡ line_by schedule.now }
    requires shown { W.shown ≡ seen }
    requires layout { layout.now ≡ names_in schedule.now }
    requires of_plan { hands.old ≡ schedule.now.lists }
    requires as_found { P.means pool.now ≡ rows_by }
    ensures taken { IfOk result (λ told. MatchOption told
        ((is_bad_line first.now ≡ true) × (outgoing pending.new (O.held out.new) (O.faults out.new) ≡ outgoing pending.old (O.held out.old) (O.faults out.old)))
        (λ taken. CameTo W.piece first.now W.shown taken
        (outgoing pending.old (O.held out.old) (O.faults out.old)) (outgoing pending.new (O.held out.new) (O.faults out.new)))) }
    ensures none { OnErr result ((O.held out.new ≡ O.held out.old) × (O.faults out.new ≡ O.faults out.old)) }
    ensures told { is_some (O.held out.new) ≡ is_some (O.held out.old) }
    ensures flushed { O.flushed out.new ≡ O.flushed out.old }
    ensures same { hands.new ≡ hands.old }
{
    let next = AtomicUsize::new(0);
    let unsent = AtomicUsize::new(0);
    let size = piece_size(seen.ready.len(), ahead, hands.hands.len());
    let count = stretch_count(seen.most, size);
    let threads = if seen.most < MANY {
        1
    } else {
        hands.hands.len().min(count)
    };
    let done: SharedQueue<Done<W>> = SharedQueue::new(
        alloc,
        count.min(threads.saturating_mul(PARTS_EACH)).max(1),
    )?;
    let ready = Ready {
        alloc,
        pool,
        schedule,
        with_tokens,
        layout,
        first,
        seen,
        size,
        count,
        next: &next,
        done: &done,
        unsent: &unsent,
        enough: ENOUGH.max(hands.hands.len().saturating_mul(ENOUGH_EACH)),
    };
    let mut desk = Desk::new(alloc);
    answer_by(
        rt,
        &ready,
        threads,
        &mut hands.hands,
        &mut desk,
        pending,
        out,
    );
    finish(&ready, &mut desk, pending)
}

/// The size of a piece, where so many bytes are ready and so many may be seen behind them, for so many threads.
fn piece_size(length: usize, ahead: usize, threads: usize) -> usize
    requires some { 0 < threads }
    ensures some { 0 < result }
{
    if ahead > 0 {
        PIECE_AHEAD
    } else {
        (length / threads / PIECES).max(PIECE)
    }
}

/// Lets the hands answer in so many threads, of which this one starts all others: a system may put a thread that a new
/// thread starts onto the same processor, where the two wait for each other. This one leads.
#[cycle(threads)]
fn answer_by<W: Turn + Send + Sync, R: Threads + Sync, P: Pool, S: Source + Sync, O: Sink>(
    rt: &R,
    ready: &Ready<'_, '_, '_, W, P, S>,
    threads: usize,
    hands: &mut Vec<Box<Hand<'_>>>,
    desk: &mut Desk<W>,
    pending: &mut Pending,
    out: &mut O,
)
    requires shared { IsSync R.row × IsSync P.row × IsSync S.row × IsSend W.row × IsSync W.row }
    requires some { 0 < vec_len hands.old }
    requires as_found { P.means ready.now.pool.now ≡ rows_by }
    requires tools { HaveTools ready.now.schedule.now.lists hands.old.items }
    requires first { desk.old.first ≡ declared_first.Unknown }
    requires taken { desk.old.taken ≡ none_taken }
    ensures some { 0 < vec_len hands.new }
    ensures few { vec_len hands.new ≤ vec_len hands.old }
    ensures tools { HaveTools ready.now.schedule.now.lists hands.new.items }
    ensures few_lines { desk.new.taken.lines ≤ desk.new.taken.bytes }
    ensures told { is_some (O.held out.new) ≡ is_some (O.held out.old) }
    ensures flushed { O.flushed out.new ≡ O.flushed out.old }
    ensures stood { HasStood W.piece ready.now.first.now W.shown desk.new.first desk.new.taken
        (outgoing pending.old (O.held out.old) (O.faults out.old)) (outgoing pending.new (O.held out.new) (O.faults out.new)) }
{
    if threads < 2 || hands.len() < 2 {
        ready.lead(&mut *hands[0], desk, pending, out);
        return;
    }
    let Some(mut last) = hands.pop() else {
        ready.lead(&mut *hands[0], desk, pending, out);
        return;
    };
    answer_beside(
        rt,
        ready,
        threads - 1,
        hands,
        &mut *last,
        desk,
        pending,
        out,
    );
    put_back(hands, last);
}

/// Lets the hands answer in so many threads, and another one in one more.
#[cycle(threads)]
fn answer_beside<W: Turn + Send + Sync, R: Threads + Sync, P: Pool, S: Source + Sync, O: Sink>(
    rt: &R,
    ready: &Ready<'_, '_, '_, W, P, S>,
    threads: usize,
    hands: &mut Vec<Box<Hand<'_>>>,
    last: &mut Hand<'_>,
    desk: &mut Desk<W>,
    pending: &mut Pending,
    out: &mut O,
)
    requires shared { IsSync R.row × IsSync P.row × IsSync S.row × IsSend W.row × IsSync W.row }
    requires some { 0 < vec_len hands.old }
    requires as_found { P.means ready.now.pool.now ≡ rows_by }
    requires tools { HaveTools ready.now.schedule.now.lists hands.old.items }
    requires last { last.old.tools ≡ ready.now.schedule.now.lists }
    requires first { desk.old.first ≡ declared_first.Unknown }
    requires taken { desk.old.taken ≡ none_taken }
    ensures some { 0 < vec_len hands.new }
    ensures few { vec_len hands.new ≤ vec_len hands.old }
    ensures tools { HaveTools ready.now.schedule.now.lists hands.new.items × (last.new.tools ≡ ready.now.schedule.now.lists) }
    ensures few_lines { desk.new.taken.lines ≤ desk.new.taken.bytes }
    ensures told { is_some (O.held out.new) ≡ is_some (O.held out.old) }
    ensures flushed { O.flushed out.new ≡ O.flushed out.old }
    ensures stood { HasStood W.piece ready.now.first.now W.shown desk.new.first desk.new.taken
        (outgoing pending.old (O.held out.old) (O.faults out.old)) (outgoing pending.new (O.held out.new) (O.faults out.new)) }
{
    let mut one = ||
        requires { (P.means ready.now.pool.now ≡ rows_by) × (last.now.tools ≡ ready.now.schedule.now.lists) }
        ensures { last.exit.now.tools ≡ ready.entry.now.schedule.now.lists }
    { ready.answer(last) };
    let mut others = ||
        requires { IsSync R.row × IsSync P.row × IsSync S.row × IsSend W.row × IsSync W.row × (0 < vec_len hands.now) × (P.means ready.now.pool.now ≡ rows_by)
            × HaveTools ready.now.schedule.now.lists hands.now.items × (desk.now.first ≡ declared_first.Unknown) × (desk.now.taken ≡ none_taken) }
        ensures { (0 < vec_len hands.exit.now) × (vec_len hands.exit.now ≤ vec_len hands.entry.now) × HaveTools ready.entry.now.schedule.now.lists hands.exit.now.items
            × (desk.exit.now.taken.lines ≤ desk.exit.now.taken.bytes)
            × (is_some (O.held out.exit.now) ≡ is_some (O.held out.entry.now)) × (O.flushed out.exit.now ≡ O.flushed out.entry.now)
            × HasStood W.piece ready.entry.now.first.now W.shown desk.exit.now.first desk.exit.now.taken
            (outgoing pending.entry.now (O.held out.entry.now) (O.faults out.entry.now)) (outgoing pending.exit.now (O.held out.exit.now) (O.faults out.exit.now)) }
    { answer_by(rt, ready, threads, hands, desk, pending, out) };
    join_mut(rt, &mut one, &mut others);
}

/// Puts a hand behind the others again, where it came from.
#[inline(never)]
fn put_back<'p>(hands: &mut Vec<Box<Hand<'p>>>, hand: Box<Hand<'p>>)
    ensures some { vec_len hands.old ≤ vec_len hands.new }
    ensures few { vec_len hands.new ≤ vec_len hands.old + 1 }
    ensures tools { (lists : Lists) → HaveTools lists hands.old.items → hand.entry.value.tools ≡ lists → HaveTools lists hands.new.items }
{
    // its room is there, since it was just taken out
    let _ = hands.push(hand);
}

/// Puts what is done, once no thread is left, behind what is pending, as far as each part begins where the one before it
/// ends.
fn finish<W: Turn, P: Pool, S: Source>(
    ready: &Ready<'_, '_, '_, W, P, S>,
    desk: &mut Desk<W>,
    pending: &mut Pending,
) -> Result<Option<Answered>, OutOfMemory>
    requires few { desk.old.taken.lines ≤ desk.old.taken.bytes }
    ensures { (first : List ℕ) (begin : Outgoing) (held : Option (List ℕ)) (faults : ℕ) →
        HasStood W.piece first W.shown desk.old.first desk.old.taken begin (outgoing pending.old held faults) →
        MatchResult result
        (λ told. MatchOption told
        ((is_bad_line first ≡ true) × (outgoing pending.new held faults ≡ begin))
        (λ taken. CameTo W.piece first W.shown taken begin (outgoing pending.new held faults)))
        (λ _. (held ≡ begin.held) × (faults ≡ begin.faults)) }
{
    match desk.first {
        First::Unknown => Err(OutOfMemory),
        First::Bad => Ok(None),
        First::Good => {
            if !desk.taken.failed {
                ready.collect(desk);
                // where memory is wanting, the next turn begins with the lines of the part that isn't put
                let _ = desk.append_parts(pending);
            }
            Ok(Some(desk.taken))
        }
    }
}
