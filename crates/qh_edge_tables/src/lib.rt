//! Worked rows of files, streams and the words of a command line.
//!
//! Tests alone. They stand above the crates that they try, so that a gate need not prove each of those a second time.
#![tactic(auto)]

#[cfg(test)]
mod tests;
