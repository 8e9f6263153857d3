//! A disk whose every moment is known: what it reads as, and each list of bytes that a crash may
//! leave of it.
//!
//! `Disk` states the rules once, and `MemDisk` keeps them over memory. A call of `MemDisk` costs
//! what its bytes cost: a write what it writes, a sync what was written since the last one, a
//! change of the length what it adds. A crash costs the length. `MemDisk` keeps all that was ever
//! done to it, and memory for it, until it is dropped.
//!
//! It does not say what a real file does: `FileDisk` hands each call to the system and tells
//! nothing of content. It caches nothing, retries nothing, and gives no lock between the users of
//! one disk.
#![tactic(auto)]

mod bytes;
mod change;
mod disk;
mod failed;
mod file;
mod memory;
mod pick;
mod plan;

pub use disk::Disk;
pub use failed::Failed;
pub use file::FileDisk;
pub use memory::MemDisk;
pub use pick::Pick;
