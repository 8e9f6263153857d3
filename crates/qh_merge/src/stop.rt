//! Why a merge ends otherwise than with status 0.
ghost use Rattle.std.specs.Prelude.{◌≡◌};
ghost use Rattle.qh_merge.specs.Ends.{status_of_fault};

use crate::MergeFault;

/// Why a merge ends otherwise than with status 0. A write fault has the number of bytes that went out.
#[derive(Drop)]
pub(crate) enum Stop {
    Fault(MergeFault),
    /// The least path that is over.
    Overflow(u64),
    WriteFault(usize),
}

/// The exit status of a fault.
fn status_of_fault(fault: &MergeFault) -> u8
    ensures { result ≡ status_of_fault fault.now }
{
    match fault {
        MergeFault::NoInput => 1,
        MergeFault::DiskFault { .. } => 5,
        MergeFault::Memory => 7,
        MergeFault::Unread { .. } => 2,
        MergeFault::WholeJob { .. } => 2,
        MergeFault::OtherFamily { .. } => 2,
        MergeFault::Unfinished { .. } => 2,
        MergeFault::Unequal { .. } => 2,
        MergeFault::Missing { .. } => 2,
    }
}

impl Stop {
    ghost use Rattle.qh_merge.specs.Ends.{status_of};

    /// The exit status.
    pub(crate) fn status(&self) -> u8
        ensures { result ≡ status_of self.now }
    {
        match self {
            Stop::Fault(fault) => status_of_fault(fault),
            Stop::Overflow(_) => 3,
            Stop::WriteFault(_) => 6,
        }
    }
}
