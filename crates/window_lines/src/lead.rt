//! The caller's thread, which owns the output: between its own pieces it writes what others have done.

ghost use Rattle.std.specs.Prelude.{◌≡◌, ◌≤◌, ◌++◌, ◌∷◌, [], ℕ, List, Option, true, false, is_some};
ghost use Rattle.corpus_json.specs.Documents.{is_bad_line};
ghost use Rattle.line_parts.specs.declared.desk.First.TheVariants as declared_first;
ghost use Rattle.line_parts.specs.Answered.{answer_to, outgoing};
ghost use Rattle.window_lines.specs.Lines.{rows_by};
ghost use Rattle.line_parts.specs.Turns.{GoesOn, HasStood, none_taken};

use crate::hands::Hand;
use crate::pieces::Ready;
use aql_io::{Sink, Source};
use line_parts::{Desk, First, Pending, Turn};
use run_pool::Pool;
use span_token::OutOfMemory;

impl<'a, 'l, 'p, W: Turn, P: Pool, S: Source> Ready<'a, 'l, 'p, W, P, S> {
    /// Answers the first line, and where it is good pieces until none is left; what comes of all lines goes over the desk behind
    /// what is pending, and on to the output.
    #[inline(never)]
    pub fn lead<O: Sink>(
        &self,
        hand: &mut Hand<'_>,
        desk: &mut Desk<W>,
        pending: &mut Pending,
        out: &mut O,
    )
        requires as_found { P.means self.now.pool.now ≡ rows_by }
        requires tools { hand.old.tools ≡ self.now.schedule.now.lists }
        requires first { desk.old.first ≡ declared_first.Unknown }
        requires taken { desk.old.taken ≡ none_taken }
        ensures tools { hand.new.tools ≡ self.now.schedule.now.lists }
        ensures few { desk.new.taken.lines ≤ desk.new.taken.bytes }
        ensures told { is_some (O.held out.new) ≡ is_some (O.held out.old) }
        ensures flushed { O.flushed out.new ≡ O.flushed out.old }
        ensures stood { HasStood W.piece self.now.first.now W.shown desk.new.first desk.new.taken
            (outgoing pending.old (O.held out.old) (O.faults out.old)) (outgoing pending.new (O.held out.new) (O.faults out.new)) }
    {
        let mut pool = self.pool.part(self.alloc);
        self.lead_first(hand, &mut pool, desk, pending);
        match desk.first {
            First::Good => self.lead_pieces(hand, &mut pool, desk, pending, out),
            First::Bad | First::Unknown => self.stop(),
        }
    }

    /// Answers the first line, and puts what is written for it behind what is pending.
    fn lead_first(
        &self,
        hand: &mut Hand<'_>,
        pool: &mut P,
        desk: &mut Desk<W>,
        pending: &mut Pending,
    )
        requires tools { hand.old.tools ≡ self.now.schedule.now.lists }
        requires as_found { P.means pool.old ≡ rows_by }
        requires first { desk.old.first ≡ declared_first.Unknown }
        ensures tools { hand.new.tools ≡ hand.old.tools }
        ensures as_found { P.means pool.new ≡ P.means pool.old }
        ensures taken { desk.new.taken ≡ desk.old.taken }
        ensures good { desk.new.first ≡ declared_first.Good
            → (is_bad_line self.now.first.now ≡ false) × (pending.new ≡ pending.old ++ answer_to W.piece (self.now.first.now ∷ [])) }
        ensures bad { desk.new.first ≡ declared_first.Bad → (is_bad_line self.now.first.now ≡ true) × (pending.new ≡ pending.old) }
    {
        let mut text = Vec::new(self.alloc);
        match self.answer_one(self.first, hand, pool, &mut text) {
            Ok(true) => {
                if pending.take_text(&mut text).is_ok() {
                    desk.first = First::Good;
                }
            }
            Ok(false) => desk.first = First::Bad,
            Err(OutOfMemory) => {}
        }
    }

    /// Answers one piece after another that nobody answers yet; after each of them, and once none is left, what is done is put and
    /// written.
    fn lead_pieces<O: Sink>(
        &self,
        hand: &mut Hand<'_>,
        pool: &mut P,
        desk: &mut Desk<W>,
        pending: &mut Pending,
        out: &mut O,
    )
        requires tools { hand.old.tools ≡ self.now.schedule.now.lists }
        requires as_found { P.means pool.old ≡ rows_by }
        requires unfailed { desk.old.taken.failed ≡ false }
        requires few { desk.old.taken.lines ≤ desk.old.taken.bytes }
        ensures tools { hand.new.tools ≡ hand.old.tools }
        ensures first { desk.new.first ≡ desk.old.first }
        ensures few { desk.new.taken.lines ≤ desk.new.taken.bytes }
        ensures told { is_some (O.held out.new) ≡ is_some (O.held out.old) }
        ensures flushed { O.flushed out.new ≡ O.flushed out.old }
        ensures goes_on { GoesOn W.piece self.now.first.now W.shown desk.old.taken (outgoing pending.old (O.held out.old) (O.faults out.old))
            desk.new.taken (outgoing pending.new (O.held out.new) (O.faults out.new)) }
    {
        'pieces: for _ in 0..self.count {
            let Some(n) = self.take_up() else {
                self.hand_out(desk, pending, out);
                return;
            };
            let kept = match self.answer_piece(n, hand, pool) {
                Ok(Some(done)) => desk.keep(done),
                Ok(None) => true,
                Err(OutOfMemory) => false,
            };
            if !kept {
                self.stop();
                return;
            }
            self.hand_out(desk, pending, out);
            if desk.taken.failed {
                return;
            }
        }
    }

    /// Takes over what others have done, puts what is next behind what is pending, and writes that once it is much. Lets nobody
    /// take another piece where a write failed, or memory was wanting.
    fn hand_out<O: Sink>(&self, desk: &mut Desk<W>, pending: &mut Pending, out: &mut O)
        requires unfailed { desk.old.taken.failed ≡ false }
        requires few { desk.old.taken.lines ≤ desk.old.taken.bytes }
        ensures first { desk.new.first ≡ desk.old.first }
        ensures few { desk.new.taken.lines ≤ desk.new.taken.bytes }
        ensures told { is_some (O.held out.new) ≡ is_some (O.held out.old) }
        ensures flushed { O.flushed out.new ≡ O.flushed out.old }
        ensures goes_on { (first : List ℕ) → GoesOn W.piece first W.shown desk.old.taken (outgoing pending.old (O.held out.old) (O.faults out.old)) desk.new.taken (outgoing pending.new (O.held out.new) (O.faults out.new)) }
    {
        self.collect(desk);
        let put = desk.append_parts(pending);
        desk.send(pending, out);
        if desk.taken.failed {
            self.stop();
            return;
        }
        match put {
            Ok(bytes) => self.note_sent(bytes),
            Err(OutOfMemory) => self.stop(),
        }
    }

    /// Takes the parts over that others have done.
    pub fn collect(&self, desk: &mut Desk<W>)
        ensures first { desk.new.first ≡ desk.old.first }
        ensures taken { desk.new.taken ≡ desk.old.taken }
    {
        for _ in 0..self.count {
            let Some(done) = self.done.take() else {
                return;
            };
            if !desk.keep(done) {
                self.stop();
                return;
            }
        }
    }
}
