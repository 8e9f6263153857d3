//! The whole state of a circuit that is not cut: after every gate, 2^n exact numbers, or the first gate that no longer fits.
//!
//! It keeps the state as a half of a cut circuit is kept, in 120 bytes a number, and goes over the numbers once a gate,
//! less where a gate leaves some as they are; then it writes the numbers out, in 64 bytes each. Several threads come in
//! where 16 qubits have numbers too wide for lanes: from there on it takes 64 bytes a number twice, and each gate makes all
//! numbers anew. It scales nothing by 1/√2, reads no text and knows nothing of cuts and paths.
#![tactic(auto)]

mod chunks;
mod entries;
mod evolution;
mod fault;
mod laws;
mod narrow;

pub use chunks::evolve_chunks;
pub use evolution::evolve;
pub use fault::UncutFault;
pub use laws::each_gate_at_most_doubles;
