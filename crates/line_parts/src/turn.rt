ghost use Rattle.std.specs.Prelude.{◌≡◌};
ghost use Rattle.line_parts.specs.Turns.{IsPart};

use std::marker::{Brand, Model, PhantomData};

/// The name of one turn: what is written for a document, and what is seen of the corpus, which contracts alone see.
///
/// A part that came from another thread belongs, by its type, to the turn of its name.
pub trait Turn {
    ghost use Rattle.std.specs.Prelude.{ℕ, List};
    ghost use Rattle.span_token.specs.Documents.{Doc};
    ghost use Rattle.line_sight.specs.Seen.{Shown};

    ghost piece: { Doc → List ℕ };

    ghost shown: { Shown };
}

impl Turn for Brand {
    ghost use Rattle.std.specs.Prelude.{[], None};

    ghost piece = { λ _. [] };

    ghost shown = { record { ready = []; all = None; most = 0 } };
}

/// What is written for the lines that stand from one place to another, and their number.
#[derive(Drop)]
pub struct Part {
    pub from: usize,
    pub to: usize,
    pub count: u64,
    pub text: Vec<u8>,
}

/// A part that is done: no more lines are put to it.
#[derive(Drop)]
pub struct Done<W: Turn> {
    part: Part,
    of: PhantomData<W>,
}

impl<W: Turn> Model for Done<W> {
    ghost use Rattle.line_parts.specs.declared.turn.Part.{Part};
    ghost use Rattle.line_parts.specs.Turns.{IsPart};

    ghost Value = { Part };

    ghost view = { λ done. done.part };

    ghost invariant = { λ done. IsPart W.piece W.shown done.part };
}

impl<W: Turn> Done<W> {
    /// A part to which no more lines are put.
    pub fn new(part: Part) -> Done<W>
        requires part { IsPart W.piece W.shown part }
        ensures same { result ≡ part }
    {
        Done {
            part,
            of: PhantomData,
        }
    }

    /// The place at which its first line begins.
    pub fn from(&self) -> usize
        ensures { result ≡ self.now.from }
    {
        self.part.from
    }

    /// The part itself.
    pub fn into_part(self) -> Part
        ensures same { result ≡ self }
        ensures part { IsPart W.piece W.shown result }
    {
        let Self { part, .. } = self;
        part
    }
}
