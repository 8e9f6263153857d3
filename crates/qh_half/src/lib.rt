//! One part's state as a path runs: 2^n exact numbers, or the fact that one of them no longer fits; and the counter of
//! what that costs.
//!
//! `Half::ground` takes 120 bytes a number, and no other call takes memory. A matrix goes once over the numbers and
//! counts one step; a run of matrices on low qubits goes over them together, tile by tile, and counts as many. The
//! numbers stand in lanes of 16 bits, 8 bytes each. Where a matrix leaves no room there, a factor √2^s that all numbers
//! have in common is taken out, and s is kept beside them; where there is no room then, the numbers go on in lanes of
//! 32 bits, then of 64, and at last in a list of 64 bytes each with the factor put back, until the half is copied onto.
//! Memory of a width is written from the first time that numbers come there. It knows nothing of circuits, cuts, paths
//! or what the other part does.
//!
//! A `Steps` counts and costs nothing: it takes no bytes, and only `tick` changes it. What a step is, the call that ticks
//! says. A counter belongs to a ledger `L` of the standard library's tokens. It measures no time and can't be read by the
//! program. A clause on a counter speaks of the calls that were handed it: they ticked so often. It says no more. A
//! function can do the same work without a tick, or make a ledger of its own and tick there, so a count bounds what a body
//! costs only as far as the calls in it hand the counter on to whatever does the work.
#![tactic(auto)]

mod form;
mod half;
mod numbers;
mod places;
mod runs;
mod scaled;
mod steps;
mod turns;
mod wide;

pub use half::Half;
pub use qh_kernel::Over;
pub use steps::Steps;
