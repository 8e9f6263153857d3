//! Why a run's journal is not opened.
ghost use Rattle.std.specs.Prelude.{◌≡◌};
ghost use Rattle.qh_migrate.specs.Stops.{attach_stop, create_stop, migrate_stop};

use crate::{MigrateFault, OldRefusal};
use qh_journal::CreateFault;
use qh_slots::AttachFault;

/// Why a run's journal is not opened.
#[derive(Clone, Copy, PartialEq, Eq, Debug)]
pub enum OpenFault {
    /// A call of the journal's disk failed.
    Disk,
    /// A call of the old disk failed.
    OldDisk,
    /// What the disk holds is no journal of the job. The cause is a refusal of an attach, neither a fault of the disk nor want of memory.
    Refused { why: AttachFault },
    /// The old journal that is to be taken over is none of the job.
    OldRefused { why: OldRefusal },
    /// Want of memory.
    Memory,
}

/// Why an attach stops a run; a file that is found empty is refused.
pub(crate) fn attach_fault(fault: AttachFault) -> OpenFault
    ensures { result ≡ attach_stop fault }
{
    match fault {
        AttachFault::DiskFault => OpenFault::Disk,
        AttachFault::Memory => OpenFault::Memory,
        why => OpenFault::Refused { why },
    }
}

/// Why a create stops a run.
pub(crate) fn create_fault(fault: CreateFault) -> OpenFault
    ensures { result ≡ create_stop fault }
{
    match fault {
        CreateFault::DiskFault => OpenFault::Disk,
        CreateFault::Memory => OpenFault::Memory,
    }
}

/// Why a migration stops a run.
pub(crate) fn migrate_fault(fault: MigrateFault) -> OpenFault
    ensures { result ≡ migrate_stop fault }
{
    match fault {
        MigrateFault::OldDisk => OpenFault::OldDisk,
        MigrateFault::NewDisk => OpenFault::Disk,
        MigrateFault::Refused { why } => OpenFault::OldRefused { why },
        MigrateFault::Memory => OpenFault::Memory,
    }
}
