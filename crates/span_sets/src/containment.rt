ghost use Rattle.std.specs.Prelude.{ℕ, ◌≡◌, ◌+◌, ◌<◌, ◌↔◌, IsTrue, IfOk, length, false, true, slice_index_or};
ghost use Rattle.std.specs.Bool.{OnTrue, OnFalse};
ghost use Rattle.span_sets.specs.Candidates.{AreSorted, AreAlike, IsNew, IsUncovered};

use crate::candidate::Candidate;
use span_token::OutOfMemory;
use std::alloc::Global;

/// For each candidate, whether it passes the conditions that are asked: that no candidate before it has
/// its span, and that each candidate before it that reaches as far has its span.
pub(crate) fn by_containment(
    alloc: Global,
    sorted: &[Candidate],
    new: bool,
    uncovered: bool,
) -> Result<Vec<bool>, OutOfMemory>
    requires { AreSorted sorted.now }
    ensures one_each { IfOk result (λ answers. length answers.items ≡ length sorted.now) }
    ensures answers { IfOk result (λ answers. (k : ℕ) → k < length sorted.now →
        (slice_index_or answers.items k false ≡ true) ↔ ((IsTrue new → IsNew sorted.now k) × (IsTrue uncovered → IsUncovered sorted.now k))) }
{
    let mut answers = Vec::with_capacity(alloc, sorted.len())?;
    let mut is_uncovered = true;
    let mut past: u64 = 0;
    for i in 0..sorted.len() {
        let far = u64::from(sorted[i].far.0);
        let is_new = is_new(sorted, i);
        if is_new {
            is_uncovered = past <= far;
        }
        past = past.max(far + 1);
        answers.push(passes(new, is_new) && passes(uncovered, is_uncovered))?;
    }
    Ok(answers)
}

/// Whether no candidate before `i` has its span: it is enough to look at the one before.
fn is_new(sorted: &[Candidate], i: usize) -> bool
    requires sorted { AreSorted sorted.now }
    requires there { i < length sorted.now }
    ensures new { OnTrue result (IsNew sorted.now i) }
    ensures alike { OnFalse result ((k : ℕ) × (k + 1 ≡ i) × AreAlike sorted.now k i) }
{
    i == 0 || !sorted[i - 1].is_like(&sorted[i])
}

/// Whether a condition holds that is asked.
fn passes(asked: bool, holds: bool) -> bool
    ensures { IsTrue result ↔ (IsTrue asked → IsTrue holds) }
{
    holds || !asked
}
