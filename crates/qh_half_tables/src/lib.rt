//! Worked rows of the wide kernels, of a half and its limits, and drawn gates through each width of lanes.
//!
//! Tests alone. They stand above qh_half, so that a gate need not prove that crate a second time with them.
#![tactic(auto)]

#[cfg(test)]
mod tests;
