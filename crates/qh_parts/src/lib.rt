//! The parts of which the functions of a journal are made: each a few calls of a disk, and what holds at every moment of
//! them; and the job that a journal names.
//!
//! Each part says what stays stable, what stays made by runs of the job, and what is read after it, over any disk and also
//! where it fails. Reading the slots takes memory for their verdicts and for one slot; no part that writes takes any.
//! `wipe` is whole. `read_job` makes one sync and reads the head twice, 32 bytes that say how long the job text is and then
//! all of it, in memory for the head and the job. Whether the file is as long as that job's journal, and what its slots
//! hold, it does not look at, and it writes nothing.
#![tactic(auto)]

mod fault;
mod group;
mod job;
mod job_fault;
mod laying;
mod member;
mod reading;
mod storing;
mod wiping;

pub use fault::DiskFault;
pub use group::store_group;
pub use job::read_job;
pub use job_fault::JobFault;
pub use laying::{begin, lay, lay_all, write_slot};
pub use member::Member;
pub use reading::{add, barrier, count, read_front, read_one, read_slots, settle};
pub use storing::store;
pub use wiping::wipe;
