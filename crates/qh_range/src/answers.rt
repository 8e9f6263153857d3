//! What a board of ranges answers to the workers that compute them.
use crate::ticket::Ticket;

/// The answer to a claim.
#[derive(Clone, Copy, PartialEq, Eq, Debug)]
pub enum Claim {
    /// The range of this ticket is to be computed.
    Granted(Ticket),
    /// No range may be granted now.
    Drained,
    /// The board stopped at a disk fault, when the disk had counted so many.
    Halted {
        /// The disk's count of faults.
        faults: u64,
    },
}

/// The answer to a worker that drew a range by itself.
#[derive(Clone, Copy, PartialEq, Eq, Debug)]
pub enum Admit {
    /// The range of this ticket is to be computed.
    Granted(Ticket),
    /// The range was granted or recorded before.
    Taken,
    /// The board stopped at a disk fault, when the disk had counted so many.
    Halted {
        /// The disk's count of faults.
        faults: u64,
    },
}

/// The answer to a result that is delivered.
#[derive(Clone, Copy, PartialEq, Eq, Debug)]
pub enum Delivery {
    /// The result is recorded.
    Acked,
    /// The range was recorded before; the result is dropped.
    Repeat,
    /// The result is of another job; it is dropped.
    Stranger,
    /// The board stopped earlier at a disk fault, when the disk had counted so many; the result is dropped.
    Halted {
        /// The disk's count of faults.
        faults: u64,
    },
    /// The disk failed in this call. The board takes nothing more.
    DiskFault,
}

/// The answer to the question what is left to compute once no worker runs.
#[derive(Clone, Copy, PartialEq, Eq, Debug)]
pub enum Sweep {
    /// The range of this ticket is not recorded yet.
    Granted(Ticket),
    /// Every range that was asked for is recorded.
    Done,
    /// The board stopped at a disk fault, when the disk had counted so many.
    Halted {
        /// The disk's count of faults.
        faults: u64,
    },
}
