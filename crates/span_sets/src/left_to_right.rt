ghost use Rattle.std.specs.Prelude.{ℕ, ◌≡◌, ◌<◌, ◌≤◌, ◌↔◌, ◌⊎◌, IsTrue, IfOk, length, false, true, slice_index_or};
ghost use Rattle.span_token.specs.Relations.{Overlaps};
ghost use Rattle.span_sets.specs.Candidates.{AreSorted, IsClear, near_of, far_of, extent_at};

use crate::candidate::Candidate;
use span_token::OutOfMemory;
use std::alloc::Global;

/// For each candidate, whether no candidate before it that stays overlaps it.
///
/// It is compared with two of those that stay: the one that reaches farthest, and the last one. One
/// that begins before the end of another overlaps the farthest, since those that stay don't overlap;
/// the last one is looked at for an empty span that equals it.
pub(crate) fn left_to_right(alloc: Global, sorted: &[Candidate]) -> Result<Vec<bool>, OutOfMemory>
    requires sorted { AreSorted sorted.now }
    requires ordered { (k : ℕ) → k < length sorted.now → near_of sorted.now k ≤ far_of sorted.now k }
    ensures one_each { IfOk result (λ answers. length answers.items ≡ length sorted.now) }
    ensures answers { IfOk result (λ answers. (k : ℕ) → k < length sorted.now →
        (slice_index_or answers.items k false ≡ true) ↔ IsClear sorted.now answers.items k) }
{
    let mut answers = Vec::with_capacity(alloc, sorted.len())?;
    let mut farthest = 0;
    let mut last = 0;
    for i in 0..sorted.len() {
        let stays = is_clear_of(sorted, farthest, i) && is_clear_of(sorted, last, i);
        if stays {
            last = i;
            farthest = farther(sorted, farthest, i);
        }
        answers.push(stays)?;
    }
    Ok(answers)
}

/// Whether `i` is the first candidate, or doesn't overlap `other`.
fn is_clear_of(sorted: &[Candidate], other: usize, i: usize) -> bool
    requires other { other < length sorted.now }
    requires there { i < length sorted.now }
    ensures { IsTrue result ↔ (0 < i → ¬ (Overlaps (extent_at sorted.now other) (extent_at sorted.now i))) }
{
    i == 0 || !overlap(&sorted[other], &sorted[i])
}

/// The one of two candidates that reaches farther.
fn farther(sorted: &[Candidate], a: usize, b: usize) -> usize
    requires a { a < length sorted.now }
    requires b { b < length sorted.now }
    ensures either { (result ≡ a) ⊎ (result ≡ b) }
    ensures beyond_a { far_of sorted.now a ≤ far_of sorted.now result }
    ensures beyond_b { far_of sorted.now b ≤ far_of sorted.now result }
{
    if sorted[a].far.0 < sorted[b].far.0 {
        b
    } else {
        a
    }
}

/// Whether the spans of two candidates share a character or are equal.
fn overlap(a: &Candidate, b: &Candidate) -> bool
    ensures { IsTrue result ↔ Overlaps (record { begin = a.now.near; end = a.now.far.0 }) (record { begin = b.now.near; end = b.now.far.0 }) }
{
    (a.near < b.far.0 && b.near < a.far.0) || a.is_like(b)
}
