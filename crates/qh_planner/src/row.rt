//! A row of the table of cuts.
use qh_plan::PlanFault;

/// What a plan says of a cut.
#[derive(Clone, Copy, PartialEq, Eq, Debug)]
pub enum CutAnswer {
    /// It makes a job of 2^log2 paths. The cost is the number of paths times that of the numbers of both halves.
    Allowed { log2: u32, cost: u64 },
    /// Its first refusal, which is never want of memory.
    Refused(PlanFault),
}

/// The cut whose part 1 is the qubits below `size`.
#[derive(Clone, Copy, PartialEq, Eq, Debug)]
pub struct CutRow {
    pub size: u32,
    pub answer: CutAnswer,
}
