//! Test circuits from one number: the generated circuit of a grid, gate for gate the one of its definition.
//!
//! A circuit has `h` on each qubit, then layers of `cz` on neighbours and drawn gates on the other qubits, then `h` on
//! each qubit. Making one costs a few steps for each gate and takes the memory of the circuit. The numbers come from
//! a linear congruential generator: they make test circuits, and are random in no stronger sense.
#![tactic(auto)]

mod draw;
mod grid;
mod layer;
mod making;

pub use making::generate;
