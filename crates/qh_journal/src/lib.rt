//! The journal of a run: verdicts that survive a crash at any moment.
//!
//! A store writes and syncs twice; a group of stores shares both syncs. Attaching reads the file once, slot by slot, in memory for the table and for
//! one slot, which has at most 262,154 bytes. Stores take no memory. There is no lock: one run at a time may use a file.
#![tactic(auto)]

mod fault;
mod journal;
mod kept;
mod writing;

pub use fault::CreateFault;
pub use journal::{Journal, Unmade};
pub use qh_parts::{DiskFault, Member, wipe};
pub use qh_slots::{AttachFault, put_slot, read_slot, slot_size};
