/// The most bytes that a line of the corpus may have, without its LF.
pub const LINE_LIMIT: usize = 16_777_216;

/// The most bytes that a corpus may have, 2^40.
pub const CORPUS_LIMIT: u64 = 1_099_511_627_776;
