//! One file for each crate below.

mod columns;
mod drawn;
mod kernel;
mod limits;
mod runs;
mod steps;
mod turns;
