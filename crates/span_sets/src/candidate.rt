ghost use Rattle.std.specs.Prelude.{ℕ, ◌≡◌, ◌<◌, ◌≤◌, ◌^◌, ◌↔◌, IsTrue, IfOk, length, map, false, true};
ghost use Rattle.span_sets.specs.Consolidation.{target_of};
ghost use Rattle.span_token.specs.Extents.{extent_of};
ghost use Rattle.span_sets.specs.Candidates.{candidates_from, candidate_of, facing, AreSorted, AreCandidatesOf};

use span_token::{OutOfMemory, Span};
use std::alloc::Global;
use std::cmp::Reverse;

/// A target with the number of its row, as a sweep meets it.
///
/// Ordered by `near`, then by `far` downwards, then by row number. Where `near` is the begin and `far` the
/// end, a span that contains another comes before it; where `near` is the end and `far` the begin, one
/// that lies in another does.
#[derive(Clone, Copy, Debug, PartialEq, Eq, PartialOrd, Ord)]
pub(crate) struct Candidate {
    pub(crate) near: u32,
    pub(crate) far: Reverse<u32>,
    pub(crate) row_number: u32,
}

/// The candidates of all targets that aren't Null, by their order; `mirror` makes the end the nearer.
pub(crate) fn sorted_candidates(
    alloc: Global,
    targets: &[Option<Span>],
    mirror: bool,
) -> Result<Vec<Candidate>, OutOfMemory>
    requires { length targets.now < 2 ^ 32 }
    ensures sorted { IfOk result (λ sorted. AreSorted sorted.items) }
    ensures known { IfOk result (λ sorted. AreCandidatesOf mirror (map target_of targets.now) sorted.items) }
{
    let mut candidates = candidates(alloc, targets, mirror)?;
    candidates.sort_unstable();
    Ok(candidates)
}

/// The candidates of all targets that aren't Null, by their row numbers.
fn candidates(
    alloc: Global,
    targets: &[Option<Span>],
    mirror: bool,
) -> Result<Vec<Candidate>, OutOfMemory>
    requires { length targets.now < 2 ^ 32 }
    ensures { IfOk result (λ found. found.items ≡ candidates_from mirror 0 (map target_of targets.now)) }
{
    let mut found = Vec::with_capacity(alloc, targets.len())?;
    for (i, target) in targets.iter().enumerate() {
        if let Some(span) = *target {
            found.push(candidate_for(span, i as u32, mirror))?;
        }
    }
    Ok(found)
}

/// The candidate of the span of a row.
fn candidate_for(span: Span, row_number: u32, mirror: bool) -> Candidate
    ensures { result ≡ candidate_of (facing mirror (extent_of span)) row_number }
{
    if mirror {
        Candidate {
            near: span.end,
            far: Reverse(span.begin),
            row_number,
        }
    } else {
        Candidate {
            near: span.begin,
            far: Reverse(span.end),
            row_number,
        }
    }
}

impl Candidate {
    /// Whether the two have one span.
    pub(crate) fn is_like(&self, other: &Candidate) -> bool
        ensures { IsTrue result ↔ ((self.now.near ≡ other.now.near) × (self.now.far.0 ≡ other.now.far.0)) }
    {
        self.near == other.near && self.far.0 == other.far.0
    }
}
