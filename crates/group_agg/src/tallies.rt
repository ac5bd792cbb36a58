ghost use Rattle.std.specs.Prelude.{ℕ, List, ◌≡◌, ◌<◌, ◌+◌, ◌^◌, ◌++◌, ◌∷◌, [], OnOk, length, set, slice_index_or, All};
ghost use Rattle.row_values.specs.Datums.{datum_of, null};
ghost use Rattle.group_agg.specs.Groups.{key_of, HasKey, HasColumn};
ghost use Rattle.group_agg.specs.Tallies.{best, start, added, finished, IsBounded};

use crate::Agg;
use crate::tally::{Tally, started};
use row_values::{Row, Value};
use span_token::OutOfMemory;
use std::alloc::Global;
use std::marker::Model;

/// The tallies of all groups for one aggregate, by the group's number.
#[derive(Drop)]
pub(crate) struct Tallies<'d> {
    tallies: Vec<Tally<'d>>,
}

impl<'d> Model for Tallies<'d> {
    ghost use Rattle.std.specs.Prelude.{List, map};
    ghost use Rattle.group_agg.specs.Tallies.{Sofar, sofar_of};

    ghost Value = { List Sofar };

    ghost view = { λ t. map sofar_of t.tallies.items };
}

impl<'d> Tallies<'d> {
    /// The tallies of no group.
    pub(crate) fn new(alloc: Global) -> Tallies<'d>
        ensures { result ≡ [] }
    {
        Tallies {
            tallies: Vec::new(alloc),
        }
    }

    /// One more group, before its first row, where this is the row.
    pub(crate) fn start(&mut self, agg: Agg, keys: &[u32], row: &Row<'d>) -> Result<(), OutOfMemory>
        requires key { HasKey (length keys.now) agg }
        requires columns { All (λ column. column < length row.now) keys.now }
        ensures { OnOk result (self.new ≡ self.old ++ start agg (key_of keys.now row.now) ∷ []) }
    {
        self.tallies.push(started(agg, keys, row))?;
        Ok(())
    }

    /// One more row of the group with this number.
    pub(crate) fn add(&mut self, number: usize, agg: Agg, row: &Row<'d>)
        requires there { number < length self.old }
        requires column { HasColumn (length row.now) agg }
        requires room { All (IsBounded (2 ^ 32)) self.old }
        ensures value { self.new ≡ set self.old number (added agg (slice_index_or self.old number (best null)) row.now) }
        ensures bounded { (n : ℕ) → All (IsBounded n) self.old → All (IsBounded (n + 1)) self.new }
    {
        self.tallies[number] = self.tallies[number].with_row(agg, row);
    }

    /// The value of the group with this number, after its last row.
    pub(crate) fn value(&self, number: usize) -> Value<'d>
        requires { number < length self.now }
        ensures { datum_of result ≡ finished (slice_index_or self.now number (best null)) }
    {
        self.tallies[number].finished()
    }
}
