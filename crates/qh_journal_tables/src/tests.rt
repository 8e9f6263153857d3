//! One file for each crate below.

mod disk;
mod lease;
mod machine;
mod merge;
mod migrate;
mod opening;
mod read_job;
mod replay;
mod totals;
mod unions;
