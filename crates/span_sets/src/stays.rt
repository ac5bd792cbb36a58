ghost use Rattle.std.specs.Prelude.{ℕ, List, ◌≡◌, ◌≢◌, ◌<◌, ◌≤◌, ◌^◌, ◌↔◌, IfOk, length, map, false, true, slice_index_or, is_none};
ghost use Rattle.span_token.specs.Extents.{Extent};
ghost use Rattle.span_sets.specs.Consolidation.{target_of, HasTarget, IsKept};
ghost use Rattle.span_sets.specs.Candidates.{AreSorted, Passes, near_of, far_of, row_number_of, is_mirrored, marked_numbers};

use crate::Policy;
use crate::candidate::{Candidate, sorted_candidates};
use crate::containment::by_containment;
use crate::left_to_right::left_to_right;
use span_token::{OutOfMemory, Span};
use std::alloc::Global;

/// Which rows stay, a mark for each.
pub(crate) fn stays(
    alloc: Global,
    targets: &[Option<Span>],
    policy: Policy,
) -> Result<Vec<bool>, OutOfMemory>
    requires { length targets.now < 2 ^ 32 }
    ensures number { IfOk result (λ marks. length marks.items ≡ length targets.now) }
    ensures kept { IfOk result (λ marks. IsKept policy (map target_of targets.now) (marked_numbers marks.items)) }
    ensures only { IfOk result (λ marks. (other : List ℕ) → IsKept policy (map target_of targets.now) other → other ≡ marked_numbers marks.items) }
{
    let sorted = sorted_candidates(alloc, targets, goes_by_end(policy))?;
    let answers = answers(alloc, sorted.as_slice(), policy)?;
    let marks = marks(alloc, targets, sorted.as_slice(), answers.as_slice())?;
    Ok(marks)
}

/// Whether the end is the nearer of a target's two ends, so that a span comes after those in it.
fn goes_by_end(policy: Policy) -> bool
    ensures { result ≡ is_mirrored policy }
{
    matches!(policy, Policy::NotContainedWithin)
}

/// For each candidate, whether it stays.
fn answers(alloc: Global, sorted: &[Candidate], policy: Policy) -> Result<Vec<bool>, OutOfMemory>
    requires sorted { AreSorted sorted.now }
    requires ordered { policy ≡ Policy.LeftToRight → (k : ℕ) → k < length sorted.now → near_of sorted.now k ≤ far_of sorted.now k }
    ensures one_each { IfOk result (λ answers. length answers.items ≡ length sorted.now) }
    ensures answers { IfOk result (λ answers. (k : ℕ) → k < length sorted.now → (slice_index_or answers.items k false ≡ true) ↔ Passes policy sorted.now answers.items k) }
{
    match policy {
        Policy::ContainedWithin => by_containment(alloc, sorted, true, true),
        Policy::NotContainedWithin => by_containment(alloc, sorted, true, true),
        Policy::ContainsButNotEqual => by_containment(alloc, sorted, false, true),
        Policy::ExactMatch => by_containment(alloc, sorted, true, false),
        Policy::LeftToRight => left_to_right(alloc, sorted),
    }
}

/// A mark for each target: true for Null, and else the answer of its candidate.
fn marks(
    alloc: Global,
    targets: &[Option<Span>],
    sorted: &[Candidate],
    answers: &[bool],
) -> Result<Vec<bool>, OutOfMemory>
    requires one_each { length answers.now ≡ length sorted.now }
    requires known { (k : ℕ) → k < length sorted.now → (t : Extent) × HasTarget (map target_of targets.now) (row_number_of sorted.now k) t }
    requires apart { (j k : ℕ) → j < k → k < length sorted.now → row_number_of sorted.now j ≢ row_number_of sorted.now k }
    ensures number { IfOk result (λ marks. length marks.items ≡ length targets.now) }
    ensures null { IfOk result (λ marks. (i : ℕ) → i < length targets.now → slice_index_or (map target_of targets.now) i None ≡ None → slice_index_or marks.items i false ≡ true) }
    ensures answered { IfOk result (λ marks. (k : ℕ) → k < length sorted.now → slice_index_or marks.items (row_number_of sorted.now k) false ≡ slice_index_or answers.now k false) }
{
    let mut marks = nulls(alloc, targets)?;
    for i in 0..sorted.len() {
        marks[sorted[i].row_number as usize] = answers[i];
    }
    Ok(marks)
}

/// For each target, whether it is Null.
fn nulls(alloc: Global, targets: &[Option<Span>]) -> Result<Vec<bool>, OutOfMemory>
    ensures { IfOk result (λ marks. marks.items ≡ map is_none targets.now) }
{
    Ok(
        targets
            .iter()
            .map(|target| target.is_none())
            .collect(alloc)?,
    )
}
