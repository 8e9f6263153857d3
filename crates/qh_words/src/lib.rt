//! Reads the words of a command line as the options of the simulator.
//!
//! One pass over the words and a copy of each text that they give. No file is opened here, no
//! message is printed, and no text of a circuit, of bitstrings or of a part is read.
#![tactic(auto)]

mod command;
mod fault;
mod numbers;
mod options;
mod read;
mod size;
mod text;

pub use fault::WordsFault;
pub use options::Options;
pub use read::read_words;
pub use size::GenSize;
pub use text::Text;
