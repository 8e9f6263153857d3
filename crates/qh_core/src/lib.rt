//! One machine of ten events says what may happen to the ranges of a run and to their journal slots, so that an
//! acknowledged range has a stored slot and keeps it over every list of events; and the course of a run, which keeps in
//! step with it.
//!
//! A step takes no memory and a fixed time, but for a sync, a crash and a start, which go over all ranges once. A machine
//! takes memory for its ranges when it is made. It reads and writes no file and starts nothing: a program that claims to
//! follow it has to show that what it does are events of the machine. It says nothing of which event comes next.
//!
//! A `Course` is the leases of a run and its history, whose replay gives the leases. A change takes at most a few hundred
//! steps at any number of ranges. Only `Course::new` takes memory: it reserves an entry for all that can happen to the
//! ranges. It adds no sums, and decides nothing: that a range was stored before it is acknowledged, and which range is
//! granted when, is up to its caller.
#![tactic(auto)]

mod course;
mod event;
mod kept;
mod laws;
mod leases;
mod machine;
mod moved;
mod noted;
mod run;
mod slot_state;
mod slots;

pub use course::Course;
pub use event::Event;
pub use kept::Kept;
pub use laws::{
    counts_are_small, each_range_is_acknowledged_once, every_course_is_a_run_of_the_machine,
};
pub use machine::Machine;
pub use moved::Moved;
pub use noted::Noted;
pub use run::run_events;
pub use slot_state::SlotState;
