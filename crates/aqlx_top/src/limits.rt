//! How large a program may be.

/// The most bytes that a program has.
pub const PROGRAM_LIMIT: usize = 1_048_576;

/// The most statements that a program has.
pub const STATEMENT_LIMIT: u32 = 2_000;

/// How many bytes of a program file are read: one more than a program has.
pub(crate) const MOST_READ: usize = PROGRAM_LIMIT + 1;
