//! Why a journal of the first format is not taken over.
ghost use Rattle.std.specs.Prelude.{◌≡◌};
ghost use Rattle.qh_migrate.specs.Faults.{migrate_of};

use qh_slots::AttachFault;

/// Why a file is no journal of the first format of a job. Of the refusals the first that applies is answered, in this order.
#[derive(Clone, Copy, PartialEq, Eq, Debug)]
pub enum OldRefusal {
    /// The file has no byte.
    Empty,
    /// Its first byte is not the mark of an open gate.
    Unbegun,
    /// It has fewer than 16 bytes, or no name of the first format.
    NotAJournal,
    /// From this offset on the head is not that of the job, or the file ends here.
    OtherJob { place: u64 },
    /// It has this many bytes.
    BadLength { found: u64 },
    /// The slot of this range is open and holds no verdict that fits.
    BadSlot { range: u32 },
}

/// Why a migration stops.
#[derive(Clone, Copy, PartialEq, Eq, Debug)]
pub enum MigrateFault {
    /// A call of the old disk failed.
    OldDisk,
    /// A call of the new disk failed.
    NewDisk,
    /// The old file is no journal of the first format of this job.
    Refused { why: OldRefusal },
    /// Want of memory.
    Memory,
}

/// The refusal of a migration that an attach of the old file means. An old journal is what is wanted, so it is no cause of its own.
pub(crate) fn migrate_fault(fault: AttachFault) -> MigrateFault
    ensures { result ≡ migrate_of fault }
{
    let why = match fault {
        AttachFault::DiskFault => return MigrateFault::OldDisk,
        AttachFault::Memory => return MigrateFault::Memory,
        AttachFault::Empty => OldRefusal::Empty,
        AttachFault::Unbegun => OldRefusal::Unbegun,
        AttachFault::OldJournal | AttachFault::NotAJournal => OldRefusal::NotAJournal,
        AttachFault::OtherJob { place } => OldRefusal::OtherJob { place },
        AttachFault::BadLength { found } => OldRefusal::BadLength { found },
        AttachFault::BadSlot { range } => OldRefusal::BadSlot { range },
    };
    MigrateFault::Refused { why }
}
