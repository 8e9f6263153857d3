//! Sources of bytes and sinks for bytes that count their faults, so that a caller can tell an answer from a failure.
//!
//! Reading takes as much memory as it reads, and writing takes none. Nothing here buffers, retries or waits, and the
//! adapters for files and standard streams tell nothing of what is read or held. `say` and its like write lines for a
//! person, piece by piece until a write fails: a number is spelled in a buffer of its own, a sink that fails gets no
//! further piece, and what it got is a front of the line.
#![tactic(auto)]

mod err_sink;
mod faults;
mod file_sink;
mod file_source;
mod mem_sink;
mod mem_source;
mod reading;
mod saying;
mod writing;

pub use err_sink::ErrSink;
pub use faults::{Failed, ReadAllFault, WriteFault};
pub use file_sink::FileSink;
pub use file_source::FileSource;
pub use mem_sink::MemSink;
pub use mem_source::MemSource;
pub use reading::{Source, read_all};
pub use saying::{say, say_number, say_numbers};
pub use writing::{Sink, write_all_of};
