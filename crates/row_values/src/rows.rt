ghost use Rattle.std.specs.Prelude.{◌≡◌, ◌<◌, ◌≤◌, ◌^◌, ◌+◌, ◌++◌, ◌∷◌, [], length, map, slice_index_or, IfOk, OnOk, OnErr};
ghost use Rattle.std.specs.Vec.{vec_len};
ghost use Rattle.std.specs.List.{All};
ghost use Rattle.aql_base.specs.Bags.{SameBag};
ghost use Rattle.row_values.specs.Rows.{IsInOrder, RowList, sorted};

use crate::Row;
use span_token::OutOfMemory;
use std::alloc::Global;
use std::marker::Model;

/// A list of rows of one width, fewer than 2^32 of them.
#[derive(Debug, Drop)]
pub struct Rows<'d> {
    width: u32,
    rows: Vec<Row<'d>>,
}

impl<'d> Model for Rows<'d> {
    ghost use Rattle.std.specs.Prelude.{◌≡◌, ◌<◌, ◌^◌, length};
    ghost use Rattle.std.specs.Vec.{vec_len};
    ghost use Rattle.std.specs.List.{All};
    ghost use Rattle.row_values.specs.Rows.{RowList};

    ghost Value = { RowList };

    ghost view = { λ list. record { width = list.width; rows = list.rows.items } };

    ghost invariant = { λ list. (vec_len list.rows < 2 ^ 32) × All (λ row. length row ≡ list.width) list.rows.items };
}

impl<'d> Rows<'d> {
    /// No row, of `width` columns. It takes no memory.
    pub fn new(alloc: Global, width: u32) -> Rows<'d>
        ensures { result ≡ record { width = width; rows = [] } }
    {
        Rows {
            width,
            rows: Vec::new(alloc),
        }
    }

    /// The list of `rows`, each of `width` columns. It takes no memory.
    pub fn from_vec(width: u32, rows: Vec<Row<'d>>) -> Rows<'d>
        requires few { vec_len rows < 2 ^ 32 }
        requires width { All (λ row. length row ≡ width) rows.items }
        ensures { result ≡ record { width = width; rows = rows.entry.items } }
    {
        Rows { width, rows }
    }

    /// The rows themselves, in their order. It takes no memory.
    pub fn into_vec(self) -> Vec<Row<'d>>
        ensures rows { result.items ≡ self.entry.rows }
        ensures few { vec_len result < 2 ^ 32 }
        ensures each_row { All (λ row. length row ≡ self.entry.width) result.items }
    {
        self.rows
    }

    /// The number of columns of each row.
    pub fn width(&self) -> u32
        ensures width { result ≡ self.now.width }
        ensures each_row { All (λ row. length row ≡ self.now.width) self.now.rows }
    {
        self.width
    }

    /// The number of rows.
    pub fn len(&self) -> u32
        ensures { result ≡ length self.now.rows }
    {
        self.rows.len() as u32
    }

    /// Row `i`, from 0. It has `width` columns.
    pub fn get(&self, i: u32) -> &Row<'d>
        requires in_range { i < length self.now.rows }
        ensures row { result.now ≡ slice_index_or self.now.rows i result.now }
        ensures width { length result.now ≡ self.now.width }
    {
        &self.rows[i as usize]
    }

    /// Makes room for so many rows more, so that it isn't made row by row.
    pub fn reserve(&mut self, more: usize) -> Result<(), OutOfMemory>
        ensures { self.new ≡ self.old }
    {
        self.rows.reserve(more)?;
        Ok(())
    }

    /// Puts `row` after the others. After want of memory the list is as it was.
    pub fn push(&mut self, row: Row<'d>) -> Result<(), OutOfMemory>
        requires width { length row ≡ self.old.width }
        ensures ok { OnOk result (self.new ≡ record { width = self.old.width; rows = self.old.rows ++ row.entry ∷ [] }) }
        ensures err { OnErr result (self.new ≡ self.old) }
    {
        if self.rows.len() >= u32::MAX as usize {
            return Err(OutOfMemory);
        }
        self.rows.push(row)?;
        Ok(())
    }

    /// Puts the row of the values of `left`, followed by those of `right`, after the others. After want of
    /// memory the list is as it was.
    pub fn push_joined(
        &mut self,
        alloc: Global,
        left: &Row<'d>,
        right: &Row<'d>,
    ) -> Result<(), OutOfMemory>
        requires width { length left.now + length right.now ≡ self.old.width }
        ensures ok { OnOk result (self.new ≡ record { width = self.old.width; rows = self.old.rows ++ (left.now ++ right.now) ∷ [] }) }
        ensures err { OnErr result (self.new ≡ self.old) }
    {
        if self.rows.len() >= u32::MAX as usize {
            return Err(OutOfMemory);
        }
        push_pair(alloc, left, right, &mut self.rows)
    }

    /// Takes all rows away, and keeps the memory for the next ones.
    pub fn clear(&mut self)
        ensures { self.new ≡ record { width = self.old.width; rows = [] } }
    {
        self.rows.clear();
    }

    /// The rows, borrowed, in their order.
    pub fn as_slice(&self) -> &[Row<'d>]
        ensures { result.now ≡ self.now.rows }
    {
        self.rows.as_slice()
    }

    /// A copy of the list.
    pub fn copy(&self, alloc: Global) -> Result<Rows<'d>, OutOfMemory>
        ensures { IfOk result (λ copy. copy ≡ self.now) }
    {
        let rows = copy_rows(alloc, self.rows.as_slice())?;
        Ok(Rows {
            width: self.width,
            rows,
        })
    }

    /// The rows, borrowed, in row order. Rows that are in order take one pass.
    pub fn sorted(&self, alloc: Global) -> Result<Vec<&Row<'d>>, OutOfMemory>
        ensures rows { IfOk result (λ out. map (λ row. row.now) out.items ≡ sorted self.now.rows) }
        ensures bag { IfOk result (λ out. SameBag self.now.rows (map (λ row. row.now) out.items)) }
        ensures in_order { IfOk result (λ out. IsInOrder (map (λ row. row.now) out.items)) }
    {
        let mut out = self.borrowed(alloc)?;
        if !self.rows.as_slice().is_sorted() {
            out.sort_unstable();
        }
        Ok(out)
    }

    /// The rows, borrowed, in their order.
    fn borrowed(&self, alloc: Global) -> Result<Vec<&Row<'d>>, OutOfMemory>
        ensures { IfOk result (λ out. map (λ row. row.now) out.items ≡ self.now.rows) }
    {
        Ok(self.rows.as_slice().iter().collect(alloc)?)
    }

    /// Puts the rows in row order.
    pub(crate) fn sort(&mut self)
        ensures { self.new ≡ record { width = self.old.width; rows = sorted self.old.rows } }
    {
        if !self.rows.as_slice().is_sorted() {
            self.rows.sort_unstable();
        }
    }
}

/// Copies of the rows.
fn copy_rows<'d>(alloc: Global, rows: &[Row<'d>]) -> Result<Vec<Row<'d>>, OutOfMemory>
    ensures { IfOk result (λ copies. copies.items ≡ rows.now) }
{
    let mut copies = Vec::with_capacity(alloc, rows.len())?;
    for row in rows {
        copies.push(row.copy(alloc)?)?;
    }
    Ok(copies)
}

/// Puts the row of the values of `left`, followed by those of `right`, after the others. It is made where it stays.
fn push_pair<'d>(
    alloc: Global,
    left: &Row<'d>,
    right: &Row<'d>,
    rows: &mut Vec<Row<'d>>,
) -> Result<(), OutOfMemory>
    ensures ok { OnOk result (rows.new.items ≡ rows.old.items ++ (left.now ++ right.now) ∷ []) }
    ensures err { OnErr result (rows.new.items ≡ rows.old.items) }
{
    let at = rows.len();
    rows.push(Row::empty(alloc))?;
    if extend_by_both(&mut rows[at], left, right).is_err() {
        rows.pop();
        return Err(OutOfMemory);
    }
    Ok(())
}

/// Puts the values of `left` and `right` after those of `row`.
fn extend_by_both<'d>(row: &mut Row<'d>, left: &Row<'d>, right: &Row<'d>) -> Result<(), OutOfMemory>
    ensures { OnOk result (row.new ≡ row.old ++ (left.now ++ right.now)) }
{
    row.extend(left.values())?;
    row.extend(right.values())
}
