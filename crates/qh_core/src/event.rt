//! What may happen to a run.
use crate::kept::Kept;

/// What may happen to the ranges of a run and to their slots in the journal.
///
/// The machine runs while it is up and not halted. An event of a range at or above the number of ranges is
/// illegal in every state.
#[derive(Debug, Drop)]
pub enum Event {
    /// A range is granted to a caller: legal while the machine runs, where the range is fresh, or out or
    /// returned after fewer than `MAX_GRANTS` grants. It is then out by the next attempt, the first being 1.
    Grant { range: u32 },
    /// A caller gives a range back: legal while the machine runs, where the range is out by this very
    /// attempt. It is then returned.
    GiveBack { range: u32, attempt: u32 },
    /// The body of a range's slot is written: legal while the machine runs, where the slot is closed. Where
    /// the range is acknowledged the answer is Repeat, and nothing changes.
    Body { range: u32 },
    /// The gate of a range's slot is written open: legal while the machine runs, where the body is safe.
    OpenGate { range: u32 },
    /// What was written is made safe: legal while the machine runs. Each written body is then safe, and
    /// each slot whose gate was written is stored.
    Sync,
    /// A range's result is acknowledged: legal while the machine runs, where the slot is stored and the
    /// range is not acknowledged.
    Ack { range: u32 },
    /// A worker stops: always legal, and nothing changes.
    Stop,
    /// The run meets a disk fault: legal while the machine runs. It is then halted.
    Halt,
    /// The machine stops, and of the gates that were written and not yet safe these stay open: legal while
    /// it is up, where each kept slot has such a gate. Each kept slot is then stored, every other slot but
    /// a stored one is closed, and all ranges are fresh.
    Crash { kept: Kept },
    /// A run starts, and of the gates that were written and not yet safe it finds these open: legal where
    /// each kept slot has such a gate. The slots are as after a crash, the machine is up and not halted,
    /// the ranges of stored slots are acknowledged, and the others are fresh. While the machine is up, it
    /// stands for a run that ended without a crash.
    Reopen { kept: Kept },
}
