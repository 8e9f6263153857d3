//! Merges journals of all prefix values of one job, and writes the amplitudes of its whole circuit.
//!
//! It reads one input after the other and adds each slot, as it is read, to one number for each asked bitstring. Memory:
//! those numbers twice, for an input counts as a whole or not at all, the job of the first input and that of another, and
//! one slot. The first input of a prefix value is read again for each repeat of it. The whole output is made before any of
//! it is written. It opens no file, writes to no disk, and does not run what is missing: disks and sinks are handed to
//! it.
#![tactic(auto)]

mod adding;
mod compare;
mod family;
mod fault;
mod gather;
mod input;
mod laws;
mod merging;
mod run;
mod say;
mod slots;
mod stop;

pub use fault::MergeFault;
pub use laws::{made_journals_are_true, merged_journals_give_the_uncut_answer};
pub use merging::{Merged, merge};
pub use run::merge_run;
