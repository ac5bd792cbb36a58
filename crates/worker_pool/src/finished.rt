ghost use Rattle.std.specs.Prelude.{◌≡◌, ◌<◌, [], length, map, slice_index_or};
ghost use Rattle.std.specs.Arc.{arc_value};

use row_values::Rows;
use run_core::Board;
use std::alloc::Global;
use std::marker::Model;
use std::sync::Arc;

/// What the evaluation of a plan on documents came to: for each document the rows of the plan's outputs, and
/// the board, with all that was claimed and published.
///
/// Rows are shared, and never copied. Contracts see the board and the rows.
///
/// Meaning: `IsEvaluation`, `specs/Evaluations.antt`.
#[derive(Drop)]
pub struct Finished<'d> {
    pub(crate) board: Board<'d>,
    pub(crate) docs: Vec<Vec<Arc<Rows<'d>, Global>>>,
}

impl<'d> Model for Finished<'d> {
    ghost use Rattle.std.specs.Prelude.{map};
    ghost use Rattle.std.specs.Arc.{arc_value};
    ghost use Rattle.std.specs.Coded.{codes};
    ghost use Rattle.scalar_ops.specs.Codes.{term_code};
    ghost use Rattle.worker_pool.specs.Evaluations.{Evaluated};

    ghost Value = { Evaluated };

    ghost coded = { Prim.hlevel (codes, term_code) };

    ghost view = { λ done. record { board = done.board; answers = map (λ rows. map arc_value rows.items) done.docs.items } };
}

impl<'d> Finished<'d> {
    /// For each output of the plan, in order, its rows on a document. It takes no memory.
    pub fn rows(&self, doc: u32) -> &[Arc<Rows<'d>, Global>]
        requires in_range { doc < length self.now.answers }
        ensures rows { map arc_value result.now ≡ slice_index_or self.now.answers doc [] }
    {
        self.docs[doc as usize].as_slice()
    }

    /// The board. It takes no memory.
    pub fn board(&self) -> &Board<'d>
        ensures board { result.now ≡ self.now.board }
    {
        &self.board
    }

    /// The rows of all documents, handed over. It takes no memory.
    pub fn into_rows(self) -> Answer<'d>
        ensures rows { map (λ rows. map arc_value rows.items) result.docs.items ≡ self.entry.answers }
    {
        Answer { docs: self.docs }
    }
}

/// For each document the rows of a plan's outputs, in order. They are shared with whoever else keeps them.
#[derive(Drop)]
pub struct Answer<'d> {
    pub docs: Vec<Vec<Arc<Rows<'d>, Global>>>,
}
