ghost use Rattle.std.specs.Prelude.{◌≡◌, ◌<◌, ◌^◌, ◌++◌, ◌∷◌, [], length, map, slice_index_or, IfOk, OnOk, OnErr};
ghost use Rattle.std.specs.Vec.{vec_len};
ghost use Rattle.row_values.specs.Datums.{datum_of};

use crate::Value;
use smallvec::SmallVec;
use span_token::OutOfMemory;
use std::alloc::Global;
use std::cmp::Ordering;
use std::hash::{Hash, Hasher};
use std::marker::Model;

/// A row: a list of values, fewer than 2^32. Up to two values take no memory of their own.
#[derive(Debug, Drop)]
pub struct Row<'d> {
    values: SmallVec<Value<'d>, 2>,
}

impl<'d> Model for Row<'d> {
    ghost use Rattle.std.specs.Prelude.{◌<◌, ◌^◌, List, map};
    ghost use Rattle.row_values.specs.Datums.{Datum, datum_of};
    ghost use Rattle.smallvec.specs.SmallVec.{small_vec_len};

    ghost Value = { List Datum };

    ghost view = { λ row. map datum_of row.values.items };

    ghost invariant = { λ row. small_vec_len row.values < 2 ^ 32 };
}

impl<'d> Row<'d> {
    /// The row of `values`, in their order. It takes no memory.
    pub fn new(values: Vec<Value<'d>>) -> Row<'d>
        requires few { vec_len values < 2 ^ 32 }
        ensures values { result ≡ map datum_of values.entry.items }
    {
        Row {
            values: SmallVec::from_vec(values),
        }
    }

    /// The row of no value, to be filled. It takes no memory.
    pub fn empty(alloc: Global) -> Row<'d>
        ensures { result ≡ [] }
    {
        Row {
            values: SmallVec::new(alloc),
        }
    }

    /// The row of one value. It takes no memory.
    pub fn single(alloc: Global, value: Value<'d>) -> Row<'d>
        ensures { result ≡ datum_of value.entry ∷ [] }
    {
        let mut values = SmallVec::new(alloc);
        values.push_reserved(value);
        Row { values }
    }

    /// The row of the given values, in their order.
    pub fn copied(alloc: Global, values: &[Value<'d>]) -> Result<Row<'d>, OutOfMemory>
        ensures { IfOk result (λ row. row ≡ map datum_of values.now) }
    {
        let mut row = Row::empty(alloc);
        row.extend(values)?;
        Ok(row)
    }

    /// A copy of the row.
    pub fn copy(&self, alloc: Global) -> Result<Row<'d>, OutOfMemory>
        ensures { IfOk result (λ row. row ≡ self.now) }
    {
        Row::copied(alloc, self.values())
    }

    /// The row, followed by `values`.
    pub fn followed_by(&self, alloc: Global, values: &[Value<'d>]) -> Result<Row<'d>, OutOfMemory>
        ensures { IfOk result (λ row. row ≡ self.now ++ map datum_of values.now) }
    {
        let mut row = Row::empty(alloc);
        row.extend(self.values())?;
        row.extend(values)?;
        Ok(row)
    }

    /// Puts `value` after the others. After want of memory the row is as it was.
    pub fn push(&mut self, value: Value<'d>) -> Result<(), OutOfMemory>
        ensures ok { OnOk result (self.new ≡ self.old ++ datum_of value.entry ∷ []) }
        ensures err { OnErr result (self.new ≡ self.old) }
    {
        if self.values.len() >= u32::MAX as usize {
            return Err(OutOfMemory);
        }
        self.values.push(value)?;
        Ok(())
    }

    /// Puts `values` after the others, in their order. After want of memory the row is as it was.
    pub fn extend(&mut self, values: &[Value<'d>]) -> Result<(), OutOfMemory>
        ensures ok { OnOk result (self.new ≡ self.old ++ map datum_of values.now) }
        ensures err { OnErr result (self.new ≡ self.old) }
    {
        if values.len() > u32::MAX as usize - self.values.len() {
            return Err(OutOfMemory);
        }
        self.values.extend_from_slice(values)?;
        Ok(())
    }

    /// The number of values.
    pub fn len(&self) -> u32
        ensures { result ≡ length self.now }
    {
        self.values.len() as u32
    }

    /// The value in column `i`, from 0.
    pub fn get(&self, i: u32) -> Value<'d>
        requires in_range { i < length self.now }
        ensures value { datum_of result ≡ slice_index_or self.now i (datum_of result) }
    {
        self.values()[i as usize]
    }

    /// The values, borrowed, in their order.
    pub fn values(&self) -> &[Value<'d>]
        ensures { map datum_of result.now ≡ self.now }
    {
        self.values.as_slice()
    }
}

impl<'d> PartialEq for Row<'d> {
    ghost use Rattle.row_values.specs.Rows.{row_cmp};
    ghost use Rattle.std.specs.Ordering.{eq_by_cmp};
    ghost use Rattle.std.specs.Cmp.{partial_equiv_from_equiv};
    ghost use Rattle.std.proofs.lemmas.Cmp.{eq_by_cmp_equiv};
    ghost use Rattle.row_values.specs.RowOrder.{row_cmp_total};

    ghost eq = { eq_by_cmp row_cmp };

    ghost laws = { partial_equiv_from_equiv (eq_by_cmp_equiv row_cmp_total) };

    fn eq(&self, other: &Self) -> bool {
        self.cmp(other).is_eq()
    }
}

impl<'d> Eq for Row<'d> {
    ghost use Rattle.std.proofs.lemmas.Cmp.{eq_by_cmp_equiv};
    ghost use Rattle.row_values.specs.RowOrder.{row_cmp_total};

    ghost laws = { eq_by_cmp_equiv row_cmp_total };
}

impl<'d> PartialOrd for Row<'d> {
    ghost use Rattle.std.specs.Prelude.{refl};
    ghost use Rattle.row_values.specs.Rows.{row_cmp};
    ghost use Rattle.std.specs.Ordering.{as_partial_cmp};
    ghost use Rattle.std.specs.Cmp.{po};
    ghost use Rattle.row_values.specs.RowOrder.{row_cmp_total};

    ghost partial_cmp = { as_partial_cmp row_cmp };

    ghost laws = { po row_cmp_total (λ x y. refl) };

    fn partial_cmp(&self, other: &Self) -> Option<Ordering> {
        Some(self.cmp(other))
    }
}

impl<'d> Ord for Row<'d> {
    ghost use Rattle.std.specs.Prelude.{refl};
    ghost use Rattle.row_values.specs.Rows.{row_cmp};
    ghost use Rattle.row_values.specs.RowOrder.{row_cmp_total};

    ghost cmp = { row_cmp };

    ghost total = { row_cmp_total };

    ghost matches_partial_cmp = { λ x y. refl };

    ghost matches_eq = { λ x y. refl };

    fn cmp(&self, other: &Self) -> Ordering {
        self.values.as_slice().cmp(&other.values.as_slice())
    }
}

impl<'d> Hash for Row<'d> {
    ghost use Rattle.row_values.specs.Hashing.{row_input, row_input-same};

    ghost hash_input = { row_input };

    ghost respects_eq = { row_input-same };

    fn hash<H: Hasher>(&self, state: &mut H) {
        self.values.as_slice().hash(state);
    }
}
