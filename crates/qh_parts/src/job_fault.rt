//! Why a file names no job.

/// Why a file names no job. Of the refusals the first that applies is answered, in this order.
#[derive(Clone, Copy, PartialEq, Eq, Debug)]
pub enum JobFault {
    /// A call of the disk failed.
    DiskFault,
    /// The file has no byte.
    Empty,
    /// Its first byte is not the mark of an open gate.
    Unbegun,
    /// It is a journal of the first format.
    OldJournal,
    /// It has no name of a journal, or not so many bytes as the head before the job text has.
    NotAJournal,
    /// Its job text is said to have more than `MAX_JOB_BYTES` bytes, or ends behind the file, or is that of no job, or the numbers of ranges and
    /// bitstrings before it are not that job's.
    NoJob,
    /// Want of memory.
    Memory,
}
