//! Why inputs are not merged.
use qh_plan::Verdict;

/// Why inputs are not merged. Inputs count from 0 and are taken in order; the first cause that applies is answered, for
/// each input in this order.
#[derive(Drop)]
pub enum MergeFault {
    /// There is no input.
    NoInput,
    /// A call of this input's disk failed.
    DiskFault {
        input: u32,
    },
    /// The bytes of this input are no journal of the job that they name, or name none.
    Unread {
        input: u32,
    },
    /// The job of this input sums the paths of all prefix values.
    WholeJob {
        input: u32,
    },
    /// The job of this input differs from that of input 0 in more than its prefix value.
    OtherFamily {
        input: u32,
    },
    /// The slot of this range of the input is closed; it is the first such range.
    Unfinished {
        input: u32,
        range: u32,
    },
    /// Two inputs of this prefix value have other verdicts for this range, the first such range: `one` is that of the
    /// first input with that prefix value, and `two` that of the first input that differs from it.
    Unequal {
        prefix: u64,
        range: u32,
        one: Verdict,
        two: Verdict,
    },
    /// No input has this prefix value, and each smaller one has an input.
    Missing {
        prefix: u64,
    },
    /// Want of memory.
    Memory,
}
