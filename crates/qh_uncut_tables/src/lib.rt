//! Worked rows of uncut states and of their probabilities, by one worker and by several.
//!
//! Tests alone. They stand above qh_prob, so that a gate need not prove those crates a second time with them.
#![tactic(auto)]

#[cfg(test)]
mod tests;
