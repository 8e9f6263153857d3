//! The bytes of a journal, in both formats: where its parts stand, how a verdict is spelled in a slot, why a file is no
//! journal of a job, and what a run makes of it.
//!
//! Filling a slot takes no memory; reading one takes that of its verdict. The crate makes no call on a disk. What a file
//! stands for, and which refusal applies to it first, is said in `specs/`; `one_map`, `attaches` and `closed_has_none` are
//! the laws between the two. What slots a run begins and ends with, and what its disks hold at each moment, is defined in
//! `specs/Record.antt` and beside it.
//!
//! A `RunningTotal` is the total of the slots whose verdicts were added to it. `new` takes memory for a number an asked
//! bitstring; `add` takes none and adds once a bitstring, so the end of a run needs no pass over the slots. It cannot tell
//! whether a verdict was added before: `add` requires that there be slots of which this is the total and to which the
//! verdict may be added (`CanAdd`), and what it ensures holds of any such slots. A ghost value would not do: a caller picks
//! one from the arguments of the call, and its table is none of them.
#![tactic(auto)]

mod fault;
mod heads;
mod laws;
mod numbers;
mod total;
mod total_laws;
mod verdicts;

pub use fault::AttachFault;
pub use heads::{MARK, head, head_refusal, name_refusal, old_head, old_head_refusal};
pub use laws::{attaches, closed_has_none, one_map};
pub use total::RunningTotal;
pub use total_laws::running_total_is_the_total;
pub use verdicts::{body_size, put_slot, read_slot, slot_size};
