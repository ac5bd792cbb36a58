ghost use Rattle.std.specs.Prelude.{◌≡◌, ◌↔◌, ◌<◌, length, Contains, IfOk, IsTrue};
ghost use Rattle.row_values.specs.Outputs.{HasDistinctNames, name_of};

use span_token::{OutOfMemory, OwnedList, OwnedText};
use std::marker::Model;

/// An output: its name, and the names of its columns, no two of which are equal.
#[derive(Debug, Drop)]
pub struct Output {
    name: OwnedText,
    columns: OwnedList<OwnedText>,
}

impl Model for Output {
    ghost use Rattle.std.specs.Prelude.{◌<◌, ◌^◌, length};
    ghost use Rattle.row_values.specs.Outputs.{HasDistinctNames, OutputNames};

    ghost Value = { OutputNames };

    ghost view = { λ output. record { name = output.name; columns = output.columns } };

    ghost invariant = { λ output. (length output.columns < 2 ^ 32) × HasDistinctNames output.columns };
}

impl Output {
    /// The output `name` with the given columns, in their order. It takes no memory.
    ///
    /// Names may be empty; columns that are as many as `u32` can't count are want of memory.
    pub fn new(name: OwnedText, columns: OwnedList<OwnedText>) -> Result<Output, OutOfMemory>
        requires distinct { HasDistinctNames columns }
        ensures names { IfOk result (λ output. output ≡ record { name = name; columns = columns }) }
    {
        if columns.len() > u32::MAX as usize {
            return Err(OutOfMemory);
        }
        Ok(Output { name, columns })
    }

    /// The output's name.
    pub fn name(&self) -> &str
        ensures { result.now ≡ self.now.name }
    {
        self.name.as_str()
    }

    /// The number of columns.
    pub fn width(&self) -> u32
        ensures width { result ≡ length self.now.columns }
        ensures distinct { HasDistinctNames self.now.columns }
    {
        self.columns.len() as u32
    }

    /// The name of column `i`, from 0.
    pub fn column(&self, i: u32) -> &str
        requires in_range { i < length self.now.columns }
        ensures name { result.now ≡ name_of self.now.columns i }
    {
        self.columns.as_slice()[i as usize].as_str()
    }
}

/// Whether no two of the names are equal. It takes no memory, and time that grows as the square of
/// their number.
pub fn has_distinct_names(columns: &[OwnedText]) -> bool
    ensures { IsTrue result ↔ HasDistinctNames columns.now }
{
    let mut rest = columns;
    while let Some((first, later)) = rest.split_first() {
        if is_among(first.as_str(), later) {
            return false;
        }
        rest = later;
    }
    true
}

/// Whether one of the names is `name`.
fn is_among(name: &str, columns: &[OwnedText]) -> bool
    ensures { IsTrue result ↔ Contains columns.now name.now }
{
    columns.iter().any(|column| column.as_str() == name)
}
