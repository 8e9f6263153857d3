//! Runs a job over its journal by several workers, who share one board under one lock.
//!
//! It starts at most as many threads as there are workers, and takes the memory of one worker for each, and of one for what
//! they leave. A result is recorded under the board's lock, with two writes and two syncs of the disk; nothing is evaluated
//! under it. What is known of the board when it goes under the lock is known of it when it comes out.
//!
//! It promises of a call that returns: that a lock is got, who comes first, that a worker ends and that two run at once is
//! not said.
#![tactic(auto)]

mod hired;
mod locked;
mod named;
mod over;
mod run;
mod shared;
mod together;
mod working;

pub use named::Named;
pub use run::{run_kept_shared, run_unkept_shared};
pub use shared::SharedBoard;

#[cfg(test)]
mod tests;
