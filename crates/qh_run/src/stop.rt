//! Why a run stops.
use std::alloc::AllocError;

/// Why a run stops before it is whole.
#[derive(Clone, Copy, PartialEq, Eq, Debug)]
pub(crate) enum Stop {
    /// A call of the journal's disk failed.
    Disk,
    /// Want of memory.
    Memory,
}

impl From<AllocError> for Stop {
    ghost use Rattle.std.specs.Prelude.{◌≡◌};
    ghost use Rattle.qh_run.specs.declared.stop.Stop.TheVariants as Stops;

    ghost from_gives = { λ e s. s ≡ Stops.Memory };

    fn from(_e: AllocError) -> Self {
        Stop::Memory
    }
}
