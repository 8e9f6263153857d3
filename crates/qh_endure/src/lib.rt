//! Runs over one journal in memory, each of which may meet a fault, a stop or a crash.
//!
//! It costs what its runs cost. Each run has sources, a sink for its message, a timer and an old disk of its own, none of which fails; so only the disk of the
//! journal and the output can fail.
#![tactic(auto)]

mod enduring;
mod round;
#[cfg(test)]
mod tests;
mod text_source;

pub use enduring::endure;
pub use round::Round;
