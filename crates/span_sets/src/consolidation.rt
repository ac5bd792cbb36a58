ghost use Rattle.std.specs.Prelude.{ℕ, List, ◌≡◌, ◌+◌, ◌<◌, ◌≤◌, ◌^◌, ◌++◌, ◌∷◌, if◌then◌else◌, IfOk, OnOk, length, map, slice_index_or, vec_len, All, Option, []};
ghost use Rattle.aql_base.specs.Bags.{SameBag};
ghost use Rattle.row_values.specs.Datums.{Datum};
ghost use Rattle.row_values.specs.Rows.{RowList, IsInOrder};
ghost use Rattle.span_token.specs.Extents.{Extent};
ghost use Rattle.span_sets.specs.Consolidation.{target_of, targets_in_order, IsKept, IsConsolidated};
ghost use Rattle.span_sets.specs.KeptRows.{consolidated};
ghost use Rattle.span_sets.specs.Candidates.{marked_numbers};

use crate::Policy;
use crate::numbered::{NumberedRow, row_order, targets_of};
use crate::stays::stays;
use row_values::{Row, Rows};
use span_token::{OutOfMemory, Span};
use std::alloc::Global;

/// The rows that `policy` keeps, in row order; `targets` has the span of each row, in the order of
/// `rows`, None for Null: such a row stays, and counts for no other row.
///
/// `rows` may stand in any order. Their numbers are those in row order, where equal rows keep their
/// order. Of rows with equal targets at most the first in row order stays, but `ContainsButNotEqual` keeps all
/// of them or none. `LeftToRight` goes by lesser begin, then greater end, then row order, and compares
/// with rows that stay, so a row that overlaps only dropped rows stays. Spans that touch don't overlap,
/// and each span contains itself.
///
/// Takes one sort of the rows, one of their targets, and one pass. Rows are moved, never copied.
///
/// Meaning: `IsConsolidated`, `specs/Consolidation.antt`, and as a list, where the target is told by the
/// row, `consolidated`, `specs/KeptRows.antt`; docs/LANGUAGE.md, "Consolidation".
pub fn consolidate<'d>(
    alloc: Global,
    rows: Rows<'d>,
    targets: Vec<Option<Span>>,
    policy: Policy,
) -> Result<Rows<'d>, OutOfMemory>
    requires one_target_each { vec_len targets ≡ length rows.rows }
    ensures kept { IfOk result (λ out. IsConsolidated policy rows.entry (map target_of targets.items) out) }
    ensures list { IfOk result (λ out. (target : List Datum → Option Extent) → map target_of targets.items ≡ map target rows.entry.rows → out.rows ≡ consolidated policy target rows.entry.rows) }
    ensures only { IfOk result (λ out. (other : RowList) → IsConsolidated policy rows.entry (map target_of targets.items) other → other ≡ out) }
    ensures any_order { IfOk result (λ out. (target : List Datum → Option Extent) (same other : RowList) → map target_of targets.items ≡ map target rows.entry.rows → SameBag same.rows rows.entry.rows
        → IsConsolidated policy same (map target same.rows) other → other.rows ≡ out.rows) }
    ensures among { IfOk result (λ out. (gone : List (List Datum)) × SameBag (out.rows ++ gone) rows.entry.rows) }
    ensures one_set { IfOk result (λ _. (a b : List ℕ) → IsKept policy (targets_in_order rows.entry.rows (map target_of targets.items)) a
        → IsKept policy (targets_in_order rows.entry.rows (map target_of targets.items)) b → a ≡ b) }
    ensures in_order { IfOk result (λ out. IsInOrder out.rows) }
{
    let width = rows.width();
    let order = row_order(alloc, rows.into_vec(), targets.as_slice())?;
    let targets = targets_of(alloc, order.as_slice())?;
    let marks = stays(alloc, targets.as_slice(), policy)?;
    let out = marked(alloc, width, order, marks.as_slice())?;
    Ok(out)
}

/// The rows whose marks are true.
fn marked<'d>(
    alloc: Global,
    width: u32,
    order: Vec<NumberedRow<'d>>,
    marks: &[bool],
) -> Result<Rows<'d>, OutOfMemory>
    requires few { vec_len order < 2 ^ 32 }
    requires one_each { length marks.now ≡ vec_len order }
    requires width { All (λ p. length p.row ≡ width) order.items }
    ensures { IfOk result (λ out. out ≡ record { width = width; rows = map (λ i. slice_index_or (map (λ p. p.row) order.entry.items) i []) (marked_numbers marks.now) }) }
{
    let mut out = Vec::with_capacity(alloc, number_of_true(marks))?;
    let mut i = 0;
    for numbered in order {
        push_marked(&mut out, numbered.row, marks[i])?;
        i += 1;
    }
    Ok(Rows::from_vec(width, out))
}

/// Puts `row` after the others where `mark` is true.
fn push_marked<'d>(out: &mut Vec<Row<'d>>, row: Row<'d>, mark: bool) -> Result<(), OutOfMemory>
    ensures rows { OnOk result (out.new.items ≡ (if mark then out.old.items ++ row.entry ∷ [] else out.old.items)) }
    ensures len { OnOk result (vec_len out.new ≤ vec_len out.old + 1) }
{
    if mark {
        out.push(row)?;
    }
    Ok(())
}

/// How many marks are true.
fn number_of_true(marks: &[bool]) -> usize {
    marks.iter().filter(|mark| **mark).count()
}
