//! What is wrong with a program's names.

use span_token::{OwnedList, OwnedText};

/// Why a program's names can't be resolved: its first fault. Statements count from 1.
///
/// Names are looked at in three rounds, each through the statements in order: what they define, what
/// they look up, and how outputs are called. A cycle is a fault where none of these stands.
///
/// Meaning: `IsNameFault`, `specs/Answers.antt`.
#[derive(Debug, Drop)]
pub enum NameFault {
    /// The statement defines a view or a dictionary whose name an earlier statement of its kind
    /// defined, or a view `Document`.
    DuplicateName { statement: u32, name: OwnedText },
    /// A query or an `output` names a view that no statement defines.
    UnknownView { statement: u32, name: OwnedText },
    /// An extraction, or a `ContainsDict` or `MatchesDict` whose first argument is a string, names a
    /// dictionary that no statement defines.
    UnknownDictionary { statement: u32, name: OwnedText },
    /// An `output` has the name of an earlier one: its alias, or else its view's name.
    DuplicateOutput { statement: u32, name: OwnedText },
    /// Distinct views, each using the next and the last the first. The first is the one whose
    /// statement stands earliest among them.
    Cycle { views: OwnedList<OwnedText> },
}
