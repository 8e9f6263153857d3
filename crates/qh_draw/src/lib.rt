//! Numbers drawn from one word by several threads: each number is drawn by one seat, and none below the word is left out.
//!
//! A draw is one atomic addition and a look is one load. They wait for nobody and take no memory; only `Draw::new` does.
//! A seat may be used in any thread, and by one at a time.
//!
//! It gives numbers and no more: what a number stands for, and whether its drawer ever uses it, is the caller's affair.
#![tactic(auto)]

mod draw;
mod rule;
mod seat;
#[cfg(test)]
mod tests;

pub use draw::{Draw, MAX_EACH, MAX_SEATS};
pub use seat::Seat;
