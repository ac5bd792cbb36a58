ghost use Rattle.std.specs.Prelude.{◌≡◌, IfOk};
ghost use Rattle.plan_operators.specs.Given.{input_rows};

use row_values::Rows;
use span_token::OutOfMemory;
use std::alloc::Global;

/// The rows of an input of an operator: given up by the caller, or lent.
///
/// Rows that are given up and only pass through are moved, and none of them is copied.
#[derive(Drop)]
pub enum Input<'r, 'd> {
    Given(Rows<'d>),
    Lent(&'r Rows<'d>),
}

impl<'r, 'd> Input<'r, 'd> {
    /// The rows, borrowed.
    pub(crate) fn rows(&self) -> &Rows<'d>
        ensures { result.now ≡ input_rows self.now }
    {
        match self {
            Input::Given(rows) => rows,
            Input::Lent(rows) => rows,
        }
    }

    /// The rows themselves, copied where they are lent.
    pub(crate) fn into_rows(self, alloc: Global) -> Result<Rows<'d>, OutOfMemory>
        ensures { IfOk result (λ rows. rows ≡ input_rows self.entry) }
    {
        match self {
            Input::Given(rows) => Ok(rows),
            Input::Lent(rows) => rows.copy(alloc),
        }
    }
}
