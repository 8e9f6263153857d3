//! One file for each crate below.

mod checkpoints;
mod parts;
mod ranges;
mod runs;
