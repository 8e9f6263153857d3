//! Output lines: the one spelling of a bitstring with its amplitude, written and read back exactly.
//!
//! A line is `bits a b c d k` with its line feed: a digit for each qubit, the first for qubit 0, and the amplitude
//! (a + bω + cω² + dω³)/√2^k in least form. Writing a line takes the memory of that line and makes its target grow
//! once. Reading takes no memory. Nothing here knows of circuits, and nothing rounds.
#![tactic(auto)]

mod laws;
mod lines;
mod print;
mod read;
mod word;

pub use laws::one_text;
pub use lines::{Lines, lines_of};
pub use print::print_line;
pub use read::read_line;
