ghost use Rattle.std.specs.Prelude.{ℕ, List, Bool, true, false, ◌≡◌, ◌<◌, ◌+◌, ◌^◌, ◌++◌, ◌∷◌, IfOk, OnOk, length, map, set, slice_index_or, All, vec_len, []};
ghost use Rattle.std.specs.List.{AllZip};
ghost use Rattle.row_values.specs.Rows.{RowList};
ghost use Rattle.row_values.specs.Datums.{Datum, null};
ghost use Rattle.group_agg.specs.Groups.{key_of, HasKey, HasColumn, IsGrouped, IsFromRows, grouped};
ghost use Rattle.group_agg.specs.Tallies.{best, start, added, finished_at, IsBounded, AreKeys, AreTallied};
ghost use Rattle.aql_base.specs.Bags.{SameBag};
ghost use Rattle.group_agg.specs.declared.agg.Agg.TheVariants.{Count};

use crate::Agg;
use crate::tallies::Tallies;
use indexmap::IndexSet;
use row_values::{Row, Rows};
use span_token::OutOfMemory;
use std::alloc::Global;

/// One row for each set of rows with equal values in the columns `keys`, where Null equals Null: the
/// value of each of `aggs`, in their order. The rows of the answer have no order that is promised.
///
/// Columns count from 0. With no keys all rows are one set; no rows make no set, so the answer to none is
/// none. `Sum` is exact where the total fits an `i64`, whatever its parts do, and else the nearer end of
/// the range.
///
/// Takes one pass over the rows, with one look-up for each. `OutOfMemory` comes for want of memory alone,
/// for 2^32 aggregates or more, and where there are rows and 2^32 keys or more.
///
/// Meaning: `IsGrouped`, and as a list `grouped`, `specs/Groups.antt`; docs/LANGUAGE.md, "Groups".
pub fn group<'d>(
    alloc: Global,
    rows: &Rows<'d>,
    keys: &[u32],
    aggs: &[Agg],
) -> Result<Rows<'d>, OutOfMemory>
    requires keys_there { All (λ column. column < rows.now.width) keys.now }
    requires aggs_there { All (HasKey (length keys.now)) aggs.now }
    requires columns_there { All (HasColumn rows.now.width) aggs.now }
    ensures rows { IfOk result (λ out. IsGrouped keys.now aggs.now rows.now.rows out.rows) }
    ensures width { IfOk result (λ out. out.width ≡ length aggs.now) }
    ensures bag { IfOk result (λ out. SameBag (grouped keys.now aggs.now rows.now.rows) out.rows) }
    ensures only { IfOk result (λ out. (same other : List (List Datum)) → SameBag same rows.now.rows → IsGrouped keys.now aggs.now same other → SameBag other out.rows) }
    ensures among { IfOk result (λ out. All (λ row. AllZip (IsFromRows rows.now.rows) aggs.now row) out.rows) }
{
    let Ok(width) = u32::try_from(aggs.len()) else {
        return Err(OutOfMemory);
    };
    // Each row has the width of the list, and they are fewer than 2^32.
    let (_width, _number) = (rows.width(), rows.len());
    let (group_keys, columns) = tally_rows(alloc, rows.as_slice(), keys, aggs)?;
    let out = group_rows(alloc, group_keys.len(), columns.as_slice())?;
    Ok(Rows::from_vec(width, out))
}

/// The keys of the rows, each once, in the order in which they come first, and for each aggregate the
/// tallies of their groups.
fn tally_rows<'d>(
    alloc: Global,
    rows: &[Row<'d>],
    keys: &[u32],
    aggs: &[Agg],
) -> Result<(IndexSet<Row<'d>>, Vec<Tallies<'d>>), OutOfMemory>
    requires few { length rows.now < 2 ^ 32 }
    requires keys_there { All (λ row. All (λ column. column < length row) keys.now) rows.now }
    requires aggs_there { All (HasKey (length keys.now)) aggs.now }
    requires columns_there { All (λ row. All (HasColumn (length row)) aggs.now) rows.now }
    ensures keys { IfOk result (λ found. AreKeys keys.now rows.now found.0.keys) }
    ensures tallies { IfOk result (λ found. AreTallied keys.now aggs.now rows.now found.0.keys found.1.items) }
{
    let mut group_keys = IndexSet::new(alloc);
    let mut columns = no_tallies(alloc, aggs.len())?;
    for row in rows {
        let key = key_of(alloc, row, keys)?;
        let (number, is_new) = group_keys.insert_full(key)?;
        start_if_new(&mut columns, is_new, row, keys, aggs)?;
        add_row(&mut columns, number, row, aggs);
    }
    Ok((group_keys, columns))
}

/// The tallies of no group for so many aggregates.
fn no_tallies<'d>(alloc: Global, number: usize) -> Result<Vec<Tallies<'d>>, OutOfMemory>
    ensures len { IfOk result (λ columns. vec_len columns ≡ number) }
    ensures empty { IfOk result (λ columns. All (λ column. column ≡ []) columns.items) }
{
    let mut columns = Vec::with_capacity(alloc, number)?;
    for _ in 0..number {
        columns.push(Tallies::new(alloc))?;
    }
    Ok(columns)
}

/// The values of a row in the key columns.
pub(crate) fn key_of<'d>(alloc: Global, row: &Row<'d>, keys: &[u32]) -> Result<Row<'d>, OutOfMemory>
    requires { All (λ column. column < length row.now) keys.now }
    ensures { IfOk result (λ key. key ≡ key_of keys.now row.now) }
{
    if keys.len() == 1 {
        return Ok(Row::single(alloc, row.get(keys[0])));
    }
    let mut key = Row::empty(alloc);
    for column in keys {
        key.push(row.get(*column))?;
    }
    Ok(key)
}

/// Where the row's key is new, a tally of its group for each aggregate.
fn start_if_new<'d>(
    columns: &mut Vec<Tallies<'d>>,
    is_new: bool,
    row: &Row<'d>,
    keys: &[u32],
    aggs: &[Agg],
) -> Result<(), OutOfMemory>
    requires one_each { vec_len columns.old ≡ length aggs.now }
    requires keys_there { All (λ column. column < length row.now) keys.now }
    requires aggs_there { All (HasKey (length keys.now)) aggs.now }
    ensures len { vec_len columns.new ≡ vec_len columns.old }
    ensures same { is_new ≡ false → columns.new.items ≡ columns.old.items }
    ensures started { is_new ≡ true → OnOk result ((j : ℕ) → j < length aggs.now → slice_index_or columns.new.items j []
        ≡ slice_index_or columns.old.items j [] ++ start (slice_index_or aggs.now j Count) (key_of keys.now row.now) ∷ []) }
{
    if !is_new {
        return Ok(());
    }
    for j in 0..aggs.len() {
        columns[j].start(aggs[j], keys, row)?;
    }
    Ok(())
}

/// One more row of the group with this number, for each aggregate.
fn add_row<'d>(columns: &mut Vec<Tallies<'d>>, number: usize, row: &Row<'d>, aggs: &[Agg])
    requires one_each { vec_len columns.old ≡ length aggs.now }
    requires there { All (λ column. number < length column) columns.old.items }
    requires columns_there { All (HasColumn (length row.now)) aggs.now }
    requires room { All (λ column. All (IsBounded (2 ^ 32)) column) columns.old.items }
    ensures len { vec_len columns.new ≡ vec_len columns.old }
    ensures added { (j : ℕ) → j < length aggs.now → slice_index_or columns.new.items j []
        ≡ set (slice_index_or columns.old.items j []) number (added (slice_index_or aggs.now j Count) (slice_index_or (slice_index_or columns.old.items j []) number (best null)) row.now) }
    ensures bounded { (n : ℕ) → All (λ column. All (IsBounded n) column) columns.old.items → All (λ column. All (IsBounded (n + 1)) column) columns.new.items }
{
    for j in 0..aggs.len() {
        columns[j].add(number, aggs[j], row);
    }
}

/// The rows of so many groups, in the order of their numbers.
fn group_rows<'d>(
    alloc: Global,
    number: usize,
    columns: &[Tallies<'d>],
) -> Result<Vec<Row<'d>>, OutOfMemory>
    requires { All (λ column. number ≡ length column) columns.now }
    ensures len { IfOk result (λ out. vec_len out ≡ number) }
    ensures rows { IfOk result (λ out. (g : ℕ) → g < number → slice_index_or out.items g [] ≡ map (finished_at g) columns.now) }
{
    let mut out = Vec::with_capacity(alloc, number)?;
    for g in 0..number {
        out.push(group_row(alloc, g, columns)?)?;
    }
    Ok(out)
}

/// The row of the group with this number.
fn group_row<'d>(
    alloc: Global,
    number: usize,
    columns: &[Tallies<'d>],
) -> Result<Row<'d>, OutOfMemory>
    requires { All (λ column. number < length column) columns.now }
    ensures { IfOk result (λ row. row ≡ map (finished_at number) columns.now) }
{
    let mut row = Row::empty(alloc);
    for column in columns {
        row.push(column.value(number))?;
    }
    Ok(row)
}
