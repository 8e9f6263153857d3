//! Worked rows of numbers, gates, circuits, plans, job texts, tables of cuts and printed lines.
//!
//! Tests alone. They stand above the crates that they try, so that a gate need not prove each of those a second time.
#![tactic(auto)]

#[cfg(test)]
mod tests;
