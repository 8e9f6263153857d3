//! How a call of a disk fails.

/// A call failed.
#[derive(Clone, Copy, Debug, PartialEq, Eq)]
pub struct Failed {
    /// The disk's count of faults after the call.
    pub faults: u64,
}
