//! Worked rows of the two top calls: words, texts and calls that fail, and the status, output and message that follow.
//!
//! Tests alone. They stand above qh_top, so that a gate need not prove that crate a second time with them.
#![tactic(auto)]

#[cfg(test)]
mod tests;
