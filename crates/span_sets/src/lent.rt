ghost use Rattle.std.specs.Prelude.{ℕ, List, ◌≡◌, ◌<◌, ◌++◌, ◌∷◌, if◌then◌else◌, IfOk, OnOk, length, map, slice_index_or, All, Option, []};
ghost use Rattle.row_values.specs.Datums.{Datum};
ghost use Rattle.row_values.specs.Rows.{RowList, sorted};
ghost use Rattle.span_token.specs.Extents.{Extent};
ghost use Rattle.span_sets.specs.Candidates.{marked_numbers};
ghost use Rattle.span_sets.specs.Consolidation.{target_of, IsConsolidated};
ghost use Rattle.span_sets.specs.KeptRows.{consolidated};

use crate::Policy;
use crate::stays::stays;
use row_values::{Row, Rows};
use span_token::{OutOfMemory, Span};
use std::alloc::Global;

/// Copies of the rows that `policy` keeps, in row order; `order` lends the rows in row order, as
/// `Rows::sorted` gives them, and `targets` has the span of each, in that order, None for Null.
///
/// As `consolidate`, for a caller who keeps the rows and sees them in row order to tell their targets.
/// Takes one sort of the targets and one pass. Only rows that stay are copied.
///
/// Meaning: `IsConsolidated`, `specs/Consolidation.antt`, and as a list, where the target is told by the
/// row, `consolidated`, `specs/KeptRows.antt`; docs/LANGUAGE.md, "Consolidation".
pub fn consolidated<'d>(
    alloc: Global,
    rows: &Rows<'d>,
    order: &[&Row<'d>],
    targets: &[Option<Span>],
    policy: Policy,
) -> Result<Rows<'d>, OutOfMemory>
    requires order { map (λ row. row.now) order.now ≡ sorted rows.now.rows }
    requires one_target_each { length targets.now ≡ length rows.now.rows }
    ensures kept { IfOk result (λ out. IsConsolidated policy (record { width = rows.now.width; rows = sorted rows.now.rows }) (map target_of targets.now) out) }
    ensures list { IfOk result (λ out. (target : List Datum → Option Extent) → map target_of targets.now ≡ map target (sorted rows.now.rows) → out.rows ≡ consolidated policy target rows.now.rows) }
{
    let (width, _number) = (rows.width(), rows.len());
    let marks = stays(alloc, targets, policy)?;
    let out = copies(alloc, width, order, marks.as_slice())?;
    Ok(out)
}

/// Copies of the rows whose marks are true.
fn copies<'d>(
    alloc: Global,
    width: u32,
    rows: &[&Row<'d>],
    marks: &[bool],
) -> Result<Rows<'d>, OutOfMemory>
    requires one_each { length marks.now ≡ length rows.now }
    requires width { All (λ row. length row.now ≡ width) rows.now }
    ensures { IfOk result (λ out. out ≡ record { width = width; rows = map (λ i. slice_index_or (map (λ row. row.now) rows.now) i []) (marked_numbers marks.now) }) }
{
    let mut out = Rows::new(alloc, width);
    for i in 0..rows.len() {
        push_copy(alloc, &mut out, rows[i], marks[i])?;
    }
    Ok(out)
}

/// Puts a copy of `row` after the others where `mark` is true.
fn push_copy<'d>(
    alloc: Global,
    out: &mut Rows<'d>,
    row: &Row<'d>,
    mark: bool,
) -> Result<(), OutOfMemory>
    requires width { length row.now ≡ out.old.width }
    ensures { OnOk result (out.new ≡ record { width = out.old.width; rows = if mark then out.old.rows ++ row.now ∷ [] else out.old.rows }) }
{
    if mark {
        out.push(row.copy(alloc)?)?;
    }
    Ok(())
}
