//! What a board did.
/// One thing that a board did. An attempt is the number of a grant, 1 to `MAX_GRANTS`.
#[derive(Clone, Copy, Debug, PartialEq, Eq)]
pub enum Noted {
    /// It granted a range, by this attempt.
    Granted { range: u32, attempt: u32 },
    /// It took a range back from the caller that held it by this attempt.
    Back { range: u32, attempt: u32 },
    /// It stored and acknowledged a range, whose result names this attempt: 0 where it was never granted.
    Acked { range: u32, attempt: u32 },
    /// It halted, after the disk had counted so many faults.
    Halted { faults: u64 },
}
