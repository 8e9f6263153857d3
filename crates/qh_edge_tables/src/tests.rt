//! One file for each crate below.

mod io;
mod saying;
mod words;
