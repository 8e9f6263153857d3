//! Reads circuit texts, and prints a circuit in its one spelling.
//!
//! A circuit text has the number of qubits on its first line and a gate on each further one: its time, its name and its
//! qubits. Blank lines and lines that begin with `#` are passed over. A reader goes once over the text, a few times over
//! each line, and takes the memory of the gates that it keeps. The first faulty line is named with its first fault. How
//! long a text may be is the caller's to say.
#![tactic(auto)]

mod fault;
mod gate_line;
mod latest;
mod print;
mod read;

pub use fault::{CircuitFault, Why};
pub use print::print_circuit;
pub use read::read_circuit;
