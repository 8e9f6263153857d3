//! Runs a job over its journal: each range that is not recorded is evaluated and recorded, and the answer is the total of the record.
//!
//! It is one thread's work: a range at a time, in one room and from one of two checkpoints that are kept. Each range that is recorded takes two writes and two
//! syncs of the disk. A run that stops, for a fault, want of memory or a crash, leaves a journal from which the next run goes on. There is no lock: one run at a
//! time may use a journal.
#![tactic(auto)]

mod ended;
mod over;
mod ranges;
mod rest;
mod run;
mod stop;
mod sweep;
mod worker;

pub use ended::{Ran, RunEnd};
pub use rest::run_rest;
pub use run::{end_of, run_kept, run_unkept};
