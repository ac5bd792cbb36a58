//! Faults of types in a program.

use clause_types::TypeRule;

/// The first fault of types in a program.
///
/// `statement` counts from 1; `at` is the number, from 0, of the first token of the part that breaks the
/// rule.
///
/// Meaning: `faults_of_program`, `specs/Programs.antt`.
#[derive(Debug, Drop)]
pub struct TypeFault {
    pub statement: u32,
    pub at: u32,
    pub rule: TypeRule,
}
