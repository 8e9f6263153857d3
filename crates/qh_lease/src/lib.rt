//! Who holds which range of a run, by which grant, and how often each caller was granted, gave back and
//! was acknowledged.
//!
//! A change of one lease takes at most a few hundred steps, a search of the lowest range of a kind at most
//! three times 128, at any number of ranges up to `MAX_RANGES`; a call on a tally takes a fixed number.
//! Only the constructors of [`Leases`], [`ScriptTimer`] and [`ClockTimer`] take memory.
//!
//! It decides nothing: which range is granted when, and what a result is worth, are its callers' affair. It
//! knows no threads and no files. What the machine's clock says is not vouched for.
#![tactic(auto)]

mod clock_timer;
mod lease;
mod leases;
mod ledgers;
mod marks;
mod register;
mod script_timer;
mod share;
mod slip;
mod tally;
mod timer;
mod timer_counts;
mod totals;

pub use clock_timer::ClockTimer;
pub use lease::Lease;
pub use leases::Leases;
pub use ledgers::{Counted, LEDGER_PARTS, Ledgers, Three};
pub use script_timer::ScriptTimer;
pub use share::Share;
pub use tally::Tally;
pub use timer::Timer;
pub use totals::Totals;
