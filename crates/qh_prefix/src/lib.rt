//! The halves that all ranges of one prefix value begin with, made once and found again; and one part of a cut: its qubits
//! and indices, and a circuit's gates as they act in it.
//!
//! A part's gates are placed once: each is then known by its place (inside the part, or across the cut) and by its qubits'
//! numbers within the part, and applied to a half without another look at the cut. Placing goes once over the qubits and
//! once over the gates; applying goes over the half once for each placed gate, or once for several where a run of them acts
//! on low qubits.
//!
//! Making a checkpoint takes two halves and goes once over them for each gate before crossing gate p. A cache holds at most
//! two checkpoints, shares them, and looks one up or keeps one without copying a half. No path is chosen or summed here,
//! and nothing is shared between threads but what the caller puts under a lock.
#![tactic(auto)]

mod cache;
mod checkpoint;
mod index;
mod part;
mod place;
mod run;
mod stage;

pub use cache::PrefixCache;
pub use checkpoint::{Checkpoint, make_checkpoint};
pub use index::local_indices;
pub use part::{Part, part_width};
pub use place::{Placed, place_gates, place_stage};
pub use run::run_placed;
pub use stage::{Stage, stage_digits};
