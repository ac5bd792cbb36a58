//! The corpus and the output as JSON lines.
//!
//! `LineReader` gives the lines of a source one by one, a `DocumentReader` tells what a line is and
//! gives its text and label, and `write_document` gives the output line of a document. Their contracts give
//! the crates above exact lines, exact documents by serde_json's own reading, and exact bytes by its
//! compact text. Stands on `aql_io` for sources, on `span_token` for documents, on `row_values` for
//! outputs and rows, and on `serde_json`, `json` and `itoa`.
#![tactic(auto)]

mod input;
mod limits;
mod line_buffer;
mod line_reader;
mod read;
mod step;
mod write;

pub use input::{Input, InputRef, NotDocument};
pub use limits::{CORPUS_LIMIT, LINE_LIMIT};
pub use line_buffer::LineBuffer;
pub use line_reader::{LineReader, Next};
pub use read::{DocumentReader, read_document};
pub use step::Step;
pub use write::{Layout, append_document, write_document};
