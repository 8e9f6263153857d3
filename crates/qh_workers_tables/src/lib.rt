//! Worked rows of a worker over a desk that answers by a script: what it claims, computes, gives back and tells.
//!
//! Tests alone. They stand above qh_workers, so that a gate need not prove that crate a second time with them.
#![tactic(auto)]

#[cfg(test)]
mod tests;
