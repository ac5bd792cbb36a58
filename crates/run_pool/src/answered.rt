use row_values::Rows;

/// What a pool answers for a document.
///
/// Meaning: `stands_for`, `specs/Answers.antt`.
#[derive(Drop)]
pub enum Answered<'d> {
    /// The rows that were found.
    AsFound,
    /// In their place these, for each output of the plan, in order.
    Instead(Vec<Rows<'d>>),
}
