//! One file for each crate below.

mod probabilities;
mod states;
