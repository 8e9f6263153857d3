//! How a run ends.
use qh_migrate::OldRefusal;
use qh_ring::Omega;
use qh_slots::AttachFault;

/// A disk that a run hands back, and how the run ended.
#[derive(Drop)]
pub struct Ran<D> {
    pub disk: D,
    pub end: RunEnd,
}

/// How a run ended.
#[derive(Drop)]
pub enum RunEnd {
    /// It is whole, and no path is over: for each asked bitstring the sum over all paths.
    Sums(Vec<Omega>),
    /// It is whole, and this is the least path that is over.
    Over { path: u64 },
    /// A call of the journal's disk failed.
    Disk,
    /// A call of the old journal's disk failed.
    OldDisk,
    /// The journal is refused.
    Refused(AttachFault),
    /// The old journal, which was to be taken over, is refused.
    OldRefused(OldRefusal),
    /// Want of memory. What is recorded stays.
    Memory,
}
