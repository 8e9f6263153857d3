//! A matrix applied in place: a vector of 2^n numbers becomes the very vector that the matrix makes of it; and vectors of
//! lanes, of which faster kernels are made.
//!
//! One call goes once over the pairs or quads of numbers that the matrix mixes and takes no memory. A row that is the
//! identity's is neither read nor written where each row has at most one entry, and nothing is added or compared there. It
//! knows nothing of gates, circuits, cuts or what a vector stands for.
//!
//! A `Vector` has lanes of 16, 32 or 64 bits, and the trait tells them apart by the room of a lane alone. Each call is one
//! to three machine instructions where a vector fits a register. No sum wraps: the caller tells a bound of the
//! magnitudes.
#![tactic(auto)]

mod dense;
mod groups;
mod kernels;
mod lanes;
mod lanes16;
mod lanes32;
mod lanes64;
mod over;
mod sources;
mod vector;

pub use kernels::{apply1, apply2};
pub use lanes::Vector;
pub use over::Over;
pub use vector::ground_vector;
