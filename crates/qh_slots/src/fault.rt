//! Why a file is not attached.
use qh_disk::Failed;
use std::alloc::AllocError;

/// Why a file is not attached to a job. Of the refusals the first that applies is answered, in this order.
#[derive(Clone, Copy, PartialEq, Eq, Debug)]
pub enum AttachFault {
    /// A call of the disk failed.
    DiskFault,
    /// The file has no byte.
    Empty,
    /// Its first byte is not the mark of an open gate.
    Unbegun,
    /// It is a journal of the first format.
    OldJournal,
    /// It has no name of a journal, or not so many bytes as the head before the job text has.
    NotAJournal,
    /// From this offset on the head is not that of the job, or the file ends here.
    OtherJob { place: u64 },
    /// It has this many bytes.
    BadLength { found: u64 },
    /// The slot of this range is open and holds no verdict that fits.
    BadSlot { range: u32 },
    /// Want of memory.
    Memory,
}

impl From<Failed> for AttachFault {
    ghost use Rattle.std.specs.Prelude.{◌≡◌};
    ghost use Rattle.qh_slots.specs.declared.fault.AttachFault.TheVariants as Faults;

    ghost from_gives = { λ e f. f ≡ Faults.DiskFault };

    fn from(_e: Failed) -> Self {
        AttachFault::DiskFault
    }
}

impl From<AllocError> for AttachFault {
    ghost use Rattle.std.specs.Prelude.{◌≡◌};
    ghost use Rattle.qh_slots.specs.declared.fault.AttachFault.TheVariants as Faults;

    ghost from_gives = { λ e f. f ≡ Faults.Memory };

    fn from(_e: AllocError) -> Self {
        AttachFault::Memory
    }
}
