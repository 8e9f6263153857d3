//! The cheapest consecutive cut: a table of all cuts into the qubits below m and the others, and the row to take.
//!
//! A cut's cost is its number of paths times the numbers of both halves. `cut_table` goes once over the gates for each
//! of at most 39 cuts, makes no job, and takes the memory of the circuit's text and of the rows. `cheapest` takes no
//! memory. Nothing here runs a cut, or tries one that is not consecutive.
#![tactic(auto)]

mod choice;
mod crossing;
mod fault;
mod laws;
mod print;
mod refusal;
mod row;
mod table;
mod text;

pub use choice::cheapest;
pub use fault::{fault_name, fault_number};
pub use laws::chosen_cut_is_best;
pub use print::print_table;
pub use row::{CutAnswer, CutRow};
pub use table::cut_table;
