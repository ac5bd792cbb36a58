ghost use Rattle.std.specs.Prelude.{◌≡◌, ◌∷◌, [], true, List, Option, None, IfOk, MatchResult, map};
ghost use Rattle.run_pool.specs.Answers.{stands_for, IsAnswer};
ghost use Rattle.run_pool.specs.Entries.{Entry, entry_of, entries_in, fresh, with_entries};
ghost use Rattle.run_pool.specs.Lines.{Meaning, names_in, rows_by};

use crate::Answered;
use algebra::Plan;
use corpus_json::Layout;
use row_values::Rows;
use span_token::{Document, OutOfMemory};
use std::alloc::Global;

/// What each document of a run is handed to, with the rows that were found for it, and what says which rows
/// are written.
///
/// `means` is what it answers: for each output of a plan its rows on a document, in any order. They are the same
/// in every call. `told` is the list of what was handed to it, where it keeps one: whether it does never
/// changes. A pool is sound where it answers what the plan's outputs are worth (`IsSound`,
/// `specs/Answers.antt`).
///
/// Where it is plain (`is_plain`), several threads hand the documents of lines that are ready to parts of it, one for
/// each thread, and nothing is gathered of these. Documents of a window, and all documents of other pools, are handed
/// to the pool itself. `gather` is for callers that share a pool with a list out; a run doesn't call it.
pub trait Pool: Sized + Send + Sync + Drop {
    ghost means: { Self → Meaning };

    ghost told: { Self → Option (List Entry) };

    /// What it answers for a document: `found` are the rows of each output of the plan that were found on it,
    /// and `layout` has the outputs.
    ///
    /// Where the list is told, it grows by one entry; for want of memory it stays as it is.
    fn answer<'d>(
        &mut self,
        alloc: Global,
        plan: &Plan,
        layout: &Layout<'_>,
        document: &Document<'d>,
        found: &[&Rows<'d>],
    ) -> Result<Answered<'d>, OutOfMemory>
        requires layout { layout.now ≡ names_in plan.now }
        requires found { IsAnswer rows_by plan.now document.now (map (λ list. list.now) found.now) }
        ensures rows { IfOk result (λ answered. IsAnswer (means self.old) plan.now document.now (stands_for (map (λ list. list.now) found.now) answered)) }
        ensures told { MatchResult result
            (λ _. told self.new ≡ with_entries (told self.old) (entry_of (means self.old) plan.now document.now ∷ []))
            (λ _. told self.new ≡ told self.old) }
        ensures means { means self.new ≡ means self.old };

    /// Whether it answers the rows that were found and keeps no list, so that handing over a document tells it
    /// nothing and changes no byte.
    fn is_plain(&self) -> bool
        ensures means { result ≡ true → means self.now ≡ rows_by }
        ensures told { result ≡ true → told self.now ≡ None };

    /// A pool for another thread, which answers the same, and to which nothing was handed yet.
    fn part(&self, alloc: Global) -> Self
        ensures means { means result ≡ means self.now }
        ensures told { told result ≡ fresh (told self.now) };

    /// Takes over what was handed to a part of it: behind what was handed to it before. For want of memory its
    /// list stays as it is.
    fn gather(&mut self, alloc: Global, part: &Self) -> Result<(), OutOfMemory>
        requires means { means part.now ≡ means self.old }
        ensures told { MatchResult result
            (λ _. told self.new ≡ with_entries (told self.old) (entries_in (told part.now)))
            (λ _. told self.new ≡ told self.old) }
        ensures means { means self.new ≡ means self.old };
}
