//! A worker: it draws or claims one range of a job after the other, evaluates it and delivers the result, until its desk
//! has no more for it.
//!
//! A worker takes the memory of four halves and of the gates placed in them once, and for each prefix value whose
//! checkpoint the cache does not hold that of two more; per range a number a bitstring. It holds no lock while it makes a
//! checkpoint or evaluates.
//!
//! It knows no board, no journal and no thread: what a desk grants, and who else is at work, is its callers' affair. That a
//! lock is ever got, and that a worker ends, is not said.
#![tactic(auto)]

mod bench;
mod desk;
mod ended;
mod gate;
mod points;
mod serve;
mod worker;

pub use desk::Desk;
pub use ended::Ended;
pub use gate::{FreeGate, Pass, Point, WorkerGate};
pub use worker::work;
