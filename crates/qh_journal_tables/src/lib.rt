//! Worked rows of disks, leases, the machine of events, journals that are read, opened, moved over and merged.
//!
//! Tests alone. They stand above the crates that they try, so that a gate need not prove each of those a second time.
#![tactic(auto)]

#[cfg(test)]
mod tests;
