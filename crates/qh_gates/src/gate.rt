//! A gate, and why one may not stand in a circuit.
use crate::kind::Kind;

/// A gate of a circuit: its time, its kind and its qubits. A gate on one qubit has `q1` equal to `q0`.
#[derive(Clone, Copy, PartialEq, Eq, Debug)]
pub struct Gate {
    pub time: u32,
    pub kind: Kind,
    pub q0: u32,
    pub q1: u32,
}

/// Why a gate may not be pushed. The first that applies is answered.
#[derive(Clone, Copy, PartialEq, Eq, Debug)]
pub enum GateFault {
    /// A qubit is at or above the circuit's number of qubits.
    BadQubit,
    /// The two qubits of a two-qubit gate are equal.
    SameQubit,
    /// The time is below that of the last gate.
    TimeBack,
    /// A gate of that time uses one of the qubits.
    Overlap,
    /// There are 4,096 gates already.
    Full,
}
