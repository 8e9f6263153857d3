//! One file for each crate below.

mod bits;
mod circuit;
mod decimal;
mod gates;
mod generated;
mod job_text;
mod lines;
mod plan;
mod planner;
mod print;
mod ring;
mod text;
