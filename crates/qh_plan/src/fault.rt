//! Why there is no job.

/// Why a text of part 1 or a plan is refused. Of the faults of a plan the first that applies is answered, in this order.
#[derive(Clone, Copy, PartialEq, Eq, Debug)]
pub enum PlanFault {
    /// The item of this index, from 0, is no decimal number of at most 4,294,967,295.
    PartText { item: u32 },
    /// This item of part 1 is no qubit of the circuit.
    NoSuchQubit { qubit: u32 },
    /// This item of part 1 occurred before.
    QubitTwice { qubit: u32 },
    /// A part has no qubit.
    EmptyPart,
    /// A part has this many qubits, and may have 20.
    PartTooWide { qubits: u32 },
    /// This many gates cross the cut, and 32 may.
    TooManyCrossing { count: u32 },
    /// There are 2^log2 paths, and there may be 2^32.
    TooManyPaths { log2: u32 },
    /// Prefix and root have more gates than the `crossing` that there are.
    PrefixRoot { crossing: u32 },
    /// The prefix value is not below the number of prefix values.
    PrefixValue { prefixes: u64 },
    /// The run has this many ranges, and may have 16,384.
    TooManyRanges { ranges: u64 },
    /// A journal of the run has this many bytes, and may have 1,073,741,824.
    JournalTooLong { bytes: u64 },
    /// Without a cut there may be 16 qubits.
    UncutTooWide { qubits: u32 },
    /// Want of memory.
    Memory,
}
