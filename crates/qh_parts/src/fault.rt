//! A disk that failed.
use qh_disk::Failed;

/// A call of the disk failed.
#[derive(Clone, Copy, PartialEq, Eq, Debug)]
pub struct DiskFault {
    /// The disk's count of faults after the call.
    pub faults: u64,
}

impl From<Failed> for DiskFault {
    ghost use Rattle.std.specs.Prelude.{◌≡◌};

    ghost from_gives = { λ e f. f ≡ record { faults = e.faults } };

    fn from(e: Failed) -> Self {
        DiskFault { faults: e.faults }
    }
}
