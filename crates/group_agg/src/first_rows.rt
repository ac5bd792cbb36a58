ghost use Rattle.std.specs.Prelude.{ℕ, List, ◌≡◌, ◌<◌, ◌≤◌, ◌^◌, ◌++◌, ◌∷◌, ◌↔◌, IsTrue, IfOk, OnOk, length, map, All, vec_len, []};
ghost use Rattle.std.specs.Ordering.{is_lt};
ghost use Rattle.aql_base.specs.Bags.{SameBag};
ghost use Rattle.row_values.specs.Rows.{RowList, row_cmp};
ghost use Rattle.row_values.specs.Datums.{Datum};
ghost use Rattle.group_agg.specs.Groups.{key_of};
ghost use Rattle.group_agg.specs.Limits.{IsLimited, limited, number_kept};
ghost use Rattle.group_agg.specs.Candidates.{keyed, pair_cmp, first_of, AreLong, IsHeld};

use crate::groups::key_of;
use row_values::{Row, Rows, compare_values};
use span_token::OutOfMemory;
use std::alloc::Global;

/// The first `limit` rows by the values in the columns `keys` from the left, and then in row order, or
/// all rows where they are fewer or there is no limit. Null comes first in both. The rows of the answer
/// have no order that is promised.
///
/// As `limited`, but all rows, where they stay, are handed back as they are.
///
/// Meaning: `IsLimited`, and as a list `limited`, `specs/Limits.antt`; docs/LANGUAGE.md, "Order and limit".
pub fn order_limit<'d>(
    alloc: Global,
    rows: Rows<'d>,
    keys: &[u32],
    limit: Option<u64>,
) -> Result<Rows<'d>, OutOfMemory>
    requires keys_there { All (λ column. column < rows.width) keys.now }
    ensures rows { IfOk result (λ out. IsLimited keys.now limit rows.entry out) }
    ensures bag { IfOk result (λ out. SameBag (limited keys.now limit rows.entry.rows) out.rows) }
    ensures only { IfOk result (λ out. (same other : RowList) → SameBag same.rows rows.entry.rows → IsLimited keys.now limit same other → SameBag other.rows out.rows) }
{
    if number_kept(&rows, limit) == rows.len() {
        return Ok(rows);
    }
    limited(alloc, &rows, keys, limit)
}

/// Copies of the first `limit` rows by the values in the columns `keys` from the left, and then in row
/// order, or of all rows where they are fewer or there is no limit. Null comes first in both. The rows of
/// the answer have no order that is promised.
///
/// Columns count from 0. Takes one pass, and sorts at a time at most twice as many rows as are asked for,
/// or 64 more than are asked for where these are more. A row that comes after so many others is compared
/// once, and costs no more; only rows that are held are copied. `OutOfMemory` comes for want of memory
/// alone, and where rows have to be left out by 2^32 keys or more.
///
/// Meaning: `IsLimited`, and as a list `limited`, `specs/Limits.antt`; docs/LANGUAGE.md, "Order and limit".
pub fn limited<'d>(
    alloc: Global,
    rows: &Rows<'d>,
    keys: &[u32],
    limit: Option<u64>,
) -> Result<Rows<'d>, OutOfMemory>
    requires keys_there { All (λ column. column < rows.now.width) keys.now }
    ensures rows { IfOk result (λ out. IsLimited keys.now limit rows.now out) }
    ensures bag { IfOk result (λ out. SameBag (limited keys.now limit rows.now.rows) out.rows) }
    ensures only { IfOk result (λ out. (same other : RowList) → SameBag same.rows rows.now.rows → IsLimited keys.now limit same other → SameBag other.rows out.rows) }
{
    let n = number_kept(rows, limit);
    if n == rows.len() {
        return rows.copy(alloc);
    }
    first_rows(alloc, rows, keys, n as usize)
}

/// How many of the rows stay.
fn number_kept(rows: &Rows<'_>, limit: Option<u64>) -> u32
    ensures number { result ≡ number_kept limit (length rows.now.rows) }
    ensures not_more { result ≤ length rows.now.rows }
{
    match limit {
        Some(limit) => limit.min(u64::from(rows.len())) as u32,
        None => rows.len(),
    }
}

/// The first `n` rows, of which there are more.
fn first_rows<'d>(
    alloc: Global,
    rows: &Rows<'d>,
    keys: &[u32],
    n: usize,
) -> Result<Rows<'d>, OutOfMemory>
    requires fewer { n < length rows.now.rows }
    requires keys_there { All (λ column. column < rows.now.width) keys.now }
    ensures { IfOk result (λ out. out ≡ record { width = rows.now.width; rows = map (λ p. p.1) (first_of n (map (keyed keys.now) rows.now.rows)) }) }
{
    let width = rows.width();
    if n == 0 {
        return Ok(Rows::new(alloc, width));
    }
    let held = first_held(alloc, rows.as_slice(), keys, n)?;
    rows_alone(alloc, width, held)
}

/// The rows of the pairs, in their order.
fn rows_alone<'d>(
    alloc: Global,
    width: u32,
    held: Vec<(Row<'d>, Row<'d>)>,
) -> Result<Rows<'d>, OutOfMemory>
    requires { All (λ p. length p.1 ≡ width) held.items }
    ensures { IfOk result (λ out. out ≡ record { width = width; rows = map (λ p. p.1) held.entry.items }) }
{
    let mut out = Rows::new(alloc, width);
    for (_key, row) in held {
        out.push(row)?;
    }
    Ok(out)
}

/// The first `n` rows with their key values, in order.
fn first_held<'d>(
    alloc: Global,
    rows: &[Row<'d>],
    keys: &[u32],
    n: usize,
) -> Result<Vec<(Row<'d>, Row<'d>)>, OutOfMemory>
    requires some { 0 < n }
    requires columns { All (λ row. All (λ column. column < length row) keys.now) rows.now }
    ensures { IfOk result (λ held. held.items ≡ first_of n (map (keyed keys.now) rows.now)) }
{
    let mut held = Vec::new(alloc);
    let mut settled = false;
    for row in rows {
        settled = consider(alloc, &mut held, settled, row, keys, n)?;
    }
    settle(&mut held, n);
    Ok(held)
}

/// Holds one more row where it may be among the first `n`, and says whether what is held is settled.
fn consider<'d>(
    alloc: Global,
    held: &mut Vec<(Row<'d>, Row<'d>)>,
    settled: bool,
    row: &Row<'d>,
    keys: &[u32],
    n: usize,
) -> Result<bool, OutOfMemory>
    requires some { 0 < n }
    requires columns { All (λ column. column < length row.now) keys.now }
    requires long { AreLong keys.now held.old.items }
    requires enough { IsTrue settled → n ≤ vec_len held.old }
    ensures { IfOk result (λ now. (seen : List (List Datum × List Datum)) → IsHeld keys.now n seen held.old.items settled
        → IsHeld keys.now n (seen ++ keyed keys.now row.now ∷ []) held.new.items now) }
{
    if settled && !comes_before(row, &held[n - 1], keys) {
        return Ok(true);
    }
    hold(alloc, held, row, keys)?;
    Ok(settle_if_many(held, settled, n))
}

/// Holds one more row.
fn hold<'d>(
    alloc: Global,
    held: &mut Vec<(Row<'d>, Row<'d>)>,
    row: &Row<'d>,
    keys: &[u32],
) -> Result<(), OutOfMemory>
    requires { All (λ column. column < length row.now) keys.now }
    ensures { OnOk result (held.new.items ≡ held.old.items ++ keyed keys.now row.now ∷ []) }
{
    held.push((key_of(alloc, row, keys)?, row.copy(alloc)?))?;
    Ok(())
}

/// Settles what is held where it is many, and says whether it is settled.
fn settle_if_many(held: &mut Vec<(Row<'_>, Row<'_>)>, settled: bool, n: usize) -> bool
    requires { 0 < n }
    ensures { (keys : List ℕ) (seen : List (List Datum × List Datum)) → IsHeld keys n seen held.old.items settled
        → IsHeld keys n seen held.new.items result }
{
    if held.len() < n.saturating_add(n.max(64)) {
        return settled;
    }
    settle(held, n);
    true
}

/// Keeps the first `n` alone, in order.
fn settle(held: &mut Vec<(Row<'_>, Row<'_>)>, n: usize)
    ensures { held.new.items ≡ first_of n held.old.items }
{
    held.sort_unstable();
    held.truncate(n);
}

/// Whether the row comes before the one that is held with its key values.
fn comes_before<'d>(row: &Row<'d>, held: &(Row<'d>, Row<'d>), keys: &[u32]) -> bool
    requires columns { All (λ column. column < length row.now) keys.now }
    requires same { length held.now.0 ≡ length keys.now }
    ensures { result ≡ is_lt (pair_cmp (keyed keys.now row.now) held.now) }
{
    for i in 0..held.0.len() {
        let order = compare_values(row.get(keys[i as usize]), held.0.get(i));
        if order.is_ne() {
            return order.is_lt();
        }
    }
    row.cmp(&held.1).is_lt()
}
