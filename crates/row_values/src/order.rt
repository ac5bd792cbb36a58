ghost use Rattle.std.specs.Prelude.{◌≡◌, ◌↔◌, IsTrue, OnOk, OnErr};
ghost use Rattle.aql_base.specs.Bags.{SameBag};
ghost use Rattle.row_values.specs.Datums.{datum_of, datum_cmp};
ghost use Rattle.row_values.specs.Rows.{row_cmp, IsInOrder, sorted};

use crate::{Row, Rows, Value};
use span_token::OutOfMemory;
use std::cmp::Ordering;

/// How two values stand in the order of values: Null first, then integers by size, false, true, texts
/// by bytes, and spans by begin and then by end.
pub fn compare_values(a: Value<'_>, b: Value<'_>) -> Ordering
    ensures { result ≡ datum_cmp (datum_of a.entry) (datum_of b.entry) }
{
    a.cmp(&b)
}

/// Whether two values show the same: of one kind, and equal; texts by their bytes.
pub fn same_value(a: Value<'_>, b: Value<'_>) -> bool
    ensures { IsTrue result ↔ (datum_of a.entry ≡ datum_of b.entry) }
{
    compare_values(a, b).is_eq()
}

/// How two rows stand in the row order: by their columns from the left; a proper prefix comes first.
pub fn compare_rows(a: &Row<'_>, b: &Row<'_>) -> Ordering
    ensures { result ≡ row_cmp a.now b.now }
{
    a.cmp(b)
}

/// Whether no row comes before the one in front of it. It takes one pass.
pub fn is_in_order(rows: &Rows<'_>) -> bool
    ensures order { IsTrue result ↔ IsInOrder rows.now.rows }
    ensures sorted { IsTrue result ↔ (sorted rows.now.rows ≡ rows.now.rows) }
{
    rows.as_slice().is_sorted()
}

/// Puts the rows in row order; equal rows all stay. Rows that are in order take one pass.
///
/// After want of memory the list is as it was.
pub fn sort_rows(rows: &mut Rows<'_>) -> Result<(), OutOfMemory>
    ensures ok { OnOk result (rows.new ≡ record { width = rows.old.width; rows = sorted rows.old.rows }) }
    ensures bag { OnOk result (SameBag rows.old.rows rows.new.rows) }
    ensures in_order { OnOk result (IsInOrder rows.new.rows) }
    ensures err { OnErr result (rows.new ≡ rows.old) }
{
    rows.sort();
    Ok(())
}
