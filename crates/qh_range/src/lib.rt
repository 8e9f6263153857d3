//! The value of a range of paths: for each asked bitstring the sum of what its paths contribute, or the least path whose numbers leave their limits.
//!
//! An evaluation takes its memory first: two halves a part, the gates of the root and the suffix placed in each part, one
//! number a bitstring and two indices a bitstring, and where it is given no checkpoint one more half a part. It goes once
//! from the checkpoint to the root of the range. Then each path copies the root's half in each part, goes once over it for
//! each gate of the suffix that acts in that part, and multiplies two numbers a bitstring. A part in which no such gate acts
//! is read where it stands at the root: it costs no copy. Where part 1 is over, the path costs nothing in part 2. A room keeps
//! this memory from one range to the next.
//! It knows nothing of journals, leases or workers.
//!
//! `solve` answers a whole run in one thread: it evaluates the ranges one after the other, in one room and from one
//! checkpoint a prefix value, and adds their sums in place. So it holds two numbers a bitstring beside six halves. It stops
//! at the first range with a path that is over, and keeps no record: an interrupted run begins anew.
#![tactic(auto)]

mod answers;
mod evaluation;
mod path;
mod result;
mod room;
mod side;
mod solving;
mod ticket;
mod total;

pub use answers::{Admit, Claim, Delivery, Sweep};
pub use evaluation::evaluate;
pub use result::RangeResult;
pub use room::Room;
pub use solving::{Solved, solve};
pub use ticket::Ticket;
