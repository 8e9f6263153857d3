//! Reads a text of bitstrings as the basis indices that they name, or names the first faulty line with its first fault.
//!
//! A text has one string a line: the characters `0` and `1`, the first for qubit 0, which is bit 0 of the index. Spaces
//! and tabs at both ends of a line are taken off. Blank lines and lines that begin with `#` are passed over. Reading is
//! one pass over the text, in memory for the indices alone.
#![tactic(auto)]

mod faults;
mod reading;
mod string;

pub use faults::{BitsFault, BitsWhy};
pub use reading::read_bits;
