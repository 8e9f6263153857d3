//! Why a text is no circuit's.

use thiserror::Error;

/// Why a line is faulty. Of the faults that apply to a line the first in this order is its fault.
#[derive(Clone, Copy, PartialEq, Eq, Debug, Error)]
pub enum Why {
    /// There is no count line. The line's number is then 0.
    #[error("NoCount")]
    NoCount,
    /// The count is no decimal number, or not 1 to 40.
    #[error("BadCount")]
    BadCount,
    /// The first word of a gate line is no decimal number.
    #[error("BadTime")]
    BadTime,
    /// The second word is absent or no name of a gate.
    #[error("UnknownGate")]
    UnknownGate,
    /// A qubit is absent, no decimal number, or at or above the count.
    #[error("BadQubit")]
    BadQubit,
    /// The two qubits of a two-qubit gate are equal.
    #[error("SameQubit")]
    SameQubit,
    /// There is a word behind the last one that belongs there.
    #[error("Extra")]
    Extra,
    /// The time is below that of the gate line before.
    #[error("TimeBack")]
    TimeBack,
    /// A gate line before has the same time and one of the qubits.
    #[error("Overlap")]
    Overlap,
    /// 4,096 gates are kept already, and the time is at most the greatest time.
    #[error("TooManyGates")]
    TooManyGates,
}

/// Why no circuit was read.
#[derive(Clone, Copy, PartialEq, Eq, Debug, Error)]
pub enum CircuitFault {
    /// The first faulty line, numbered from 1, and its first fault.
    #[error("line {line}: {why}")]
    Line { line: u64, why: Why },
    /// There is not enough memory.
    #[error("out of memory")]
    Memory,
}
