//! The top call: takes the options of a command line, a circuit and bitstrings, and writes exactly the amplitudes or probabilities asked for.
//!
//! It costs what the evolution costs: uncut one pass over 2^n numbers of 64 bytes for each gate, cut one pass over a half for
//! each path and gate. It makes the whole output before it writes any. It opens no file itself: sources and sinks are handed
//! to it. The contract of `qsimh_alone` is the theorem of this repository.
#![tactic(auto)]

mod alone;
mod answer;
mod call;
mod cut;
mod names;
mod shared;
mod shared_answer;
mod shared_call;

pub use alone::qsimh_alone;
pub use names::{Names, file_names};
pub use qh_request::{bad_part_is_refused, one_answer};
pub use qh_words::{Text, WordsFault};
pub use shared::{Ran, qsimh};
