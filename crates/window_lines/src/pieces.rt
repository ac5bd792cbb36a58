//! One thread that answers lines, piece by piece.

ghost use Rattle.std.specs.Prelude.{◌≡◌, ◌<◌, ◌*◌, ◌++◌, ◌∷◌, [], ℕ, true, false, IfOk, IfSome, OnOk};
ghost use Rattle.corpus_json.specs.Documents.{is_bad_line};
ghost use Rattle.corpus_json.specs.Lines.{FirstLfAt};
ghost use Rattle.line_sight.specs.Seen.{Sees};
ghost use Rattle.line_parts.specs.Answered.{answer_to};
ghost use Rattle.window_lines.specs.Lines.{line_by, names_in, rows_by};
ghost use Rattle.line_parts.specs.Turns.{IsPart};

use crate::answer::answer_line;
use crate::hands::Hand;
use aql_io::Source;
use corpus_json::{LINE_LIMIT, Layout};
use line_parts::{Done, Part, Turn};
use line_sight::{Seen, Sight};
use plan_operators::Schedule;
use run_pool::Pool;
use shared_queue::SharedQueue;
use span_token::OutOfMemory;
use std::alloc::Global;
use std::mem;
use std::sync::atomic::{AtomicUsize, Ordering};

/// Lines of so many bytes and more are left to the caller, since they may be evaluated by all threads together.
const LONG: usize = 4_194_304;

/// What the threads share that answer lines.
#[derive(Drop)]
pub(crate) struct Ready<'a, 'l, 'p, W: Turn, P: Pool, S: Source> {
    pub alloc: Global,
    /// The pool of which each thread makes a part for itself.
    pub pool: &'a P,
    pub schedule: &'a Schedule<'p>,
    pub with_tokens: bool,
    pub layout: &'a Layout<'l>,
    pub first: &'a [u8],
    pub seen: Seen<'a, S>,
    /// The size of a piece: to it belong the lines that begin in so many bytes.
    pub size: usize,
    /// How many pieces there are.
    pub count: usize,
    /// The number of the piece that is taken up next; `count` and more where nobody is to take another one.
    pub next: &'a AtomicUsize,
    /// The parts that other threads than the caller's have done.
    pub done: &'a SharedQueue<Done<W>>,
    /// How many bytes the parts have that are done and aren't written yet, and how many are enough.
    pub unsent: &'a AtomicUsize,
    pub enough: usize,
    ghost of_plan: { layout.now ≡ names_in schedule.now },
    ghost some: { 0 < size },
    ghost begun: { (n : ℕ) → n < count → n * size < seen.most },
    ghost piece: { W.piece ≡ line_by schedule.now },
    ghost shown: { W.shown ≡ seen },
}

impl<'a, 'l, 'p, W: Turn, P: Pool, S: Source> Ready<'a, 'l, 'p, W, P, S> {
    /// Answers pieces until none is left, by a part of the pool, and hands each part over that is done.
    #[inline(never)]
    pub fn answer(&self, hand: &mut Hand<'_>)
        requires as_found { P.means self.now.pool.now ≡ rows_by }
        requires tools { hand.old.tools ≡ self.now.schedule.now.lists }
        ensures tools { hand.new.tools ≡ self.now.schedule.now.lists }
    {
        let mut pool = self.pool.part(self.alloc);
        'pieces: for _ in 0..self.count {
            let Some(n) = self.take_up() else {
                return;
            };
            // where memory is wanting, nothing behind this piece can be put, and the next turn begins with it
            let answered = self.answer_piece(n, hand, &mut pool);
            if !self.hand_over(answered) {
                self.stop();
                return;
            }
        }
    }

    /// Hands a part over to the caller's thread. False where there was no memory for it, or the queue doesn't take it, since it
    /// is full, or others came first each time: then the part is lost.
    fn hand_over(&self, answered: Result<Option<Done<W>>, OutOfMemory>) -> bool {
        match answered {
            Ok(Some(done)) => self.done.put(done).is_ok(),
            Ok(None) => true,
            Err(OutOfMemory) => false,
        }
    }

    /// The number of a piece that nobody answers yet. `None` where nobody is to take another one.
    pub fn take_up(&self) -> Option<usize>
        ensures { IfSome result (λ n. n < self.now.count) }
    {
        let n = self.next.fetch_add(1, Ordering::Relaxed);
        if n < self.count { Some(n) } else { None }
    }

    /// Answers the lines that begin in the piece of number `n`. `None` where it has no part: it lies in the middle of a line, or
    /// none of its lines is answered.
    pub fn answer_piece(
        &self,
        n: usize,
        hand: &mut Hand<'_>,
        pool: &mut P,
    ) -> Result<Option<Done<W>>, OutOfMemory>
        requires there { n < self.now.count }
        requires tools { hand.old.tools ≡ self.now.schedule.now.lists }
        requires as_found { P.means pool.old ≡ rows_by }
        ensures tools { hand.new.tools ≡ hand.old.tools }
        ensures as_found { P.means pool.new ≡ P.means pool.old }
    {
        let begin = n.saturating_mul(self.size);
        // what was looked at lies beside the hand meanwhile, and comes back with its room
        let mut sight = mem::replace(&mut hand.sight, Sight::new(self.alloc));
        let answered = self.answer_from(begin, &mut sight, hand, pool);
        hand.sight = sight;
        answered
    }

    /// Answers the lines that begin in the piece that begins at this place.
    fn answer_from(
        &self,
        begin: usize,
        sight: &mut Sight,
        hand: &mut Hand<'_>,
        pool: &mut P,
    ) -> Result<Option<Done<W>>, OutOfMemory>
        requires there { begin < self.now.seen.most }
        requires tools { hand.old.tools ≡ self.now.schedule.now.lists }
        requires as_found { P.means pool.old ≡ rows_by }
        ensures tools { hand.new.tools ≡ hand.old.tools }
        ensures as_found { P.means pool.new ≡ P.means pool.old }
    {
        let until = begin + self.size.min(self.seen.most - begin);
        if !self.go_to_line(begin, until, sight)? {
            return Ok(None);
        }
        let from = sight.at();
        let mut part = Part {
            from,
            to: from,
            count: 0,
            text: Vec::new(self.alloc),
        };
        self.answer_lines(until, sight, hand, pool, &mut part)?;
        if part.to > from {
            self.note_done(part.text.len());
            Ok(Some(Done::new(part)))
        } else {
            Ok(None)
        }
    }

    /// Goes to the first place from `begin` on at which a line begins: the first byte's, or one behind an LF. False where
    /// none begins in the piece.
    fn go_to_line(&self, begin: usize, until: usize, sight: &mut Sight) -> Result<bool, OutOfMemory>
        requires there { begin < self.now.seen.most }
        ensures sees { IfOk result (λ there. there ≡ true → Sees self.now.seen sight.new) }
    {
        if begin == 0 {
            sight.go_to(0);
            return Ok(true);
        }
        sight.go_to(begin - 1);
        match sight.find_line(&self.seen, self.size, until)? {
            Some(n) => {
                sight.pass_line(n);
                Ok(true)
            }
            None => Ok(false),
        }
    }

    /// Answers the lines behind the part that begin before the place `until`, up to a bad one.
    fn answer_lines(
        &self,
        until: usize,
        sight: &mut Sight,
        hand: &mut Hand<'_>,
        pool: &mut P,
        part: &mut Part,
    ) -> Result<(), OutOfMemory>
        requires tools { hand.old.tools ≡ self.now.schedule.now.lists }
        requires as_found { P.means pool.old ≡ rows_by }
        requires sees { Sees self.now.seen sight.old }
        requires at { sight.old.at ≡ part.old.to }
        requires part { IsPart W.piece W.shown part.old }
        ensures tools { hand.new.tools ≡ hand.old.tools }
        ensures as_found { P.means pool.new ≡ P.means pool.old }
        ensures part { OnOk result (IsPart W.piece W.shown part.new) }
    {
        'lines: while part.to < until {
            if !self.answer_next(until, sight, hand, pool, part)? {
                return Ok(());
            }
        }
        Ok(())
    }

    /// Answers the line behind the part, where it isn't bad or left to a later turn. Where it isn't answered, no piece behind
    /// it is to be.
    fn answer_next(
        &self,
        until: usize,
        sight: &mut Sight,
        hand: &mut Hand<'_>,
        pool: &mut P,
        part: &mut Part,
    ) -> Result<bool, OutOfMemory>
        requires tools { hand.old.tools ≡ self.now.schedule.now.lists }
        requires as_found { P.means pool.old ≡ rows_by }
        requires sees { Sees self.now.seen sight.old }
        requires at { sight.old.at ≡ part.old.to }
        requires part { IsPart W.piece W.shown part.old }
        ensures tools { hand.new.tools ≡ hand.old.tools }
        ensures as_found { P.means pool.new ≡ P.means pool.old }
        ensures part { OnOk result (IsPart W.piece W.shown part.new) }
        ensures more { IfOk result (λ more. more ≡ true → (part.old.to < part.new.to) × Sees self.now.seen sight.new × (sight.new.at ≡ part.new.to)) }
    {
        let Some(n) = self.find_next(until, sight)? else {
            self.stop();
            return Ok(false);
        };
        if self.answer_one(sight.front(n), hand, pool, &mut part.text)? {
            sight.pass_line(n);
            part.to = sight.at();
            part.count += 1;
            Ok(true)
        } else {
            Ok(false)
        }
    }

    /// Finds where the line ends that begins at the place, and answers how many bytes it has before its LF. `None` where it is
    /// left to a later turn: it is too long, or its LF can't be seen.
    fn find_next(&self, until: usize, sight: &mut Sight) -> Result<Option<usize>, OutOfMemory>
        requires sees { Sees self.now.seen sight.old }
        ensures at { OnOk result (sight.new.at ≡ sight.old.at) }
        ensures sees { OnOk result (Sees self.now.seen sight.new) }
        ensures found { IfOk result (λ found. IfSome found (FirstLfAt sight.new.bytes)) }
    {
        let found = sight.find_line(&self.seen, LONG, until)?;
        if let Some(n) = found {
            self.skip_line(sight.at(), n);
        }
        Ok(found)
    }

    /// Lets nobody take up a piece in the middle of a line of `n` bytes that begins at the place, since no line begins there.
    /// Who took one up already finds that out by itself.
    fn skip_line(&self, at: usize, n: usize) {
        if n >= self.size {
            let behind = at.saturating_add(n) / self.size;
            let _ = self.next.fetch_max(behind, Ordering::Relaxed);
        }
    }

    /// Counts the bytes of a part that is done, of any thread, and lets nobody take another piece where enough are unsent: the caller's thread
    /// is behind.
    fn note_done(&self, bytes: usize) {
        let before = self.unsent.fetch_add(bytes, Ordering::Relaxed);
        if before >= self.enough || bytes >= self.enough - before {
            self.stop();
        }
    }

    /// Takes bytes off again that are on their way out.
    pub fn note_sent(&self, bytes: usize) {
        let _ = self.unsent.fetch_sub(bytes, Ordering::Relaxed);
    }

    /// Hands the document of a line to the part of the pool, and puts what is written for the line behind the
    /// text. False, and nothing is put, where it is bad.
    pub fn answer_one(
        &self,
        line: &[u8],
        hand: &mut Hand<'_>,
        pool: &mut P,
        text: &mut Vec<u8>,
    ) -> Result<bool, OutOfMemory>
        requires tools { hand.old.tools ≡ self.now.schedule.now.lists }
        requires as_found { P.means pool.old ≡ rows_by }
        ensures good { IfOk result (λ good. good ≡ true → is_bad_line line.now ≡ false) }
        ensures bad { IfOk result (λ good. good ≡ false → is_bad_line line.now ≡ true) }
        ensures put { IfOk result (λ good. good ≡ true → text.new.items ≡ text.old.items ++ answer_to W.piece (line.now ∷ [])) }
        ensures none { IfOk result (λ good. good ≡ false → text.new.items ≡ text.old.items) }
        ensures tools { hand.new.tools ≡ hand.old.tools }
        ensures as_found { P.means pool.new ≡ P.means pool.old }
    {
        if line.len() > LINE_LIMIT {
            self.stop();
            return Ok(false);
        }
        let good = answer_line(
            self.alloc,
            self.schedule,
            self.with_tokens,
            self.layout,
            &mut hand.tools,
            &mut hand.room,
            pool,
            line,
            text,
        )?;
        if !good {
            self.stop();
        }
        Ok(good)
    }

    /// Lets nobody take another piece, since nothing behind it would be put, or enough is unsent.
    pub fn stop(&self) {
        self.next.store(self.count, Ordering::Relaxed);
    }
}
