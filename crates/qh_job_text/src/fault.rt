//! Why bytes give no job.

/// Why bytes give no job.
#[derive(Clone, Copy, PartialEq, Eq, Debug)]
pub enum JobTextFault {
    /// They are the text of no job.
    NotOne,
    /// Want of memory.
    Memory,
}
