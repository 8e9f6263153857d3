//! What the words, the circuit and the bitstrings of a call ask for, and how it ends.
//!
//! Its definitions say which text a request has, when it is refused, and how else a call may end. `take_input` takes the
//! circuit and the basis indices: from both sources, each read once to its end, or generated. A stop has one exit status
//! and one line, which takes no memory: fixed texts and the digits of a number are written one after the other until a
//! write fails. Where the cheapest cut is asked for, `tell_table` tells the table of all cuts, at the cost of `cut_table`,
//! and `cheapest_part` gives its part 1. No disk is called here, and no file opened: the sinks are handed to it.
#![tactic(auto)]

mod input;
mod laws;
mod message;
mod stop;
mod table;

pub use input::take_input;
pub use laws::{bad_part_is_refused, one_answer};
pub use message::{say, tell};
pub use stop::{Input, JournalRefusal, Refusal, Stop};
pub use table::{cheapest_part, is_auto, tell_on, tell_table};
