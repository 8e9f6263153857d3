//! Why a journal is not made, and why a file names no job.
use std::alloc::AllocError;

/// Why a journal is not made.
#[derive(Clone, Copy, PartialEq, Eq, Debug)]
pub enum CreateFault {
    /// A call of the disk failed.
    DiskFault,
    /// Want of memory. No call was made on the disk.
    Memory,
}

impl From<AllocError> for CreateFault {
    ghost use Rattle.std.specs.Prelude.{◌≡◌};
    ghost use Rattle.qh_journal.specs.declared.fault.CreateFault.TheVariants as Faults;

    ghost from_gives = { λ e f. f ≡ Faults.Memory };

    fn from(_e: AllocError) -> Self {
        CreateFault::Memory
    }
}
