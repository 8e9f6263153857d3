//! What one run meets.
use qh_disk::Pick;

/// What one run over a disk in memory meets, and what a crash after it leaves.
#[derive(Clone, Copy, Debug)]
pub struct Round {
    /// The one of the disk's calls that fails, counted from 1 in this run.
    pub fail: Option<u64>,
    /// The last of the disk's calls that may succeed, counted from 1 in this run.
    pub stop: Option<u64>,
    /// The image that a crash after the run leaves, where another run follows.
    pub pick: Pick,
}
