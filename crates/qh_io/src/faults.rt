//! What a refused call answers.
ghost use Rattle.std.specs.Prelude.{◌≡◌, ◌≤◌, ◌↔◌, IsTrue};
ghost use Rattle.std.specs.List.{Contains};
ghost use Rattle.qh_limits.specs.Counts.{raised};

use qh_limits::raise;

/// A call on a source or a sink failed, and its count of faults rose.
#[derive(Clone, Copy, PartialEq, Eq, Debug)]
pub struct Failed;

/// Why a source was not read to its end.
#[derive(Clone, Copy, PartialEq, Eq, Debug)]
pub enum ReadAllFault {
    /// A read failed.
    Fault,
    /// More bytes than the limit were taken.
    TooLong,
    /// Want of memory.
    Memory,
}

/// A write failed after this many bytes had gone.
#[derive(Clone, Copy, PartialEq, Eq, Debug)]
pub struct WriteFault {
    pub written: usize,
}

// Counts a fault.
pub(crate) fn failure(faults: &mut u64) -> Failed
    ensures count { faults.new ≡ raised faults.old }
    ensures later { faults.old ≤ faults.new }
{
    raise(faults);
    Failed
}

// Counts a call, and tells whether it is one of those that are to fail.
pub(crate) fn is_to_fail(calls: &mut u64, fails: &[u64]) -> bool
    ensures count { calls.new ≡ raised calls.old }
    ensures named { IsTrue result ↔ Contains fails.now calls.new }
{
    raise(calls);
    fails.contains(calls)
}
