//! Worked rows of parts, checkpoints, ranges and whole runs.
//!
//! Tests alone. They stand above qh_range, so that a gate need not prove those crates a second time with them.
#![tactic(auto)]

#[cfg(test)]
mod tests;
