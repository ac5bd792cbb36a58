//! Files, sources and sinks: the edge between the engine and the outside world.
//!
//! A `Source` gives bytes in order, a `Sink` takes them, and `Files` gives bytes of named files at a
//! place. Contracts see the bytes of each where it tells them, and the number of its faults: it rises
//! by one in a call that answers `Failed`, and in no other. The objects in memory tell their bytes
//! and fail exactly where they are told to; the real ones tell their faults alone, and a file that is
//! read at places its place. Stands on std, and on `span_token` for the answer to want of memory.
#![tactic(auto)]

mod calls;
mod count_sink;
mod failed;
mod faults;
mod file_source;
mod files;
mod mem_files;
mod mem_sink;
mod mem_source;
mod pieces;
mod real_files;
mod real_sink;
mod real_source;
mod sink;
mod source;
mod sure_source;

pub use count_sink::CountSink;
pub use failed::Failed;
pub use file_source::FileSource;
pub use files::Files;
pub use mem_files::MemFiles;
pub use mem_sink::MemSink;
pub use mem_source::MemSource;
pub use real_files::RealFiles;
pub use real_sink::RealSink;
pub use real_source::RealSource;
pub use sink::Sink;
pub use source::Source;
pub use sure_source::SureSource;

#[cfg(test)]
mod tests;
