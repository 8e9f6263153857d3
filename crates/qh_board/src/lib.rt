//! The board of a run: grants its ranges, records each result in the journal before it acknowledges it, and keeps what was done.
//!
//! A claim searches a few hundred marks, and asks the timer of each range that is out at most once. A delivery writes and syncs the
//! journal twice, and adds a number for each asked bitstring. Only `attach` takes memory: 64 entries a range for the history, and the
//! sums. After it no call does.
//!
//! It evaluates no range, starts no thread and has no lock. Once a store has failed it takes nothing more: the journal is to be
//! attached again.
#![tactic(auto)]

mod board;
mod choice;
mod claiming;
mod delivering;
mod group;
mod picking;
mod start;

pub use board::Board;
pub use group::{GROUP_RESULTS, Group};
