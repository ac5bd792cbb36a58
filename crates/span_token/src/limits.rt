/// The most bytes of a text: of a document, of a program, of a line of a corpus.
pub const TEXT_LIMIT: usize = 16_777_216;
