//! Exact arithmetic in the ring of the eighth roots of unity: each call answers the very number of its definition.
//!
//! A number a + bω + cω² + dω³ has four `i128` coefficients, where ω is the primitive eighth root of
//! unity with ω² = i and ω⁴ = -1. A call costs a few machine operations a coefficient, `reduce` as many
//! for each factor that it takes out. No call takes memory, rounds, or knows of qubits.
//! The definitions of numbers, matrices and of what a matrix makes of a state stand in `specs/`.
#![tactic(auto)]

mod canon;
mod laws;
mod matrix;
mod number;
mod product;

pub use canon::{Canon, reduce};
pub use laws::apply_is_the_sum_over_agreeing_indices;
pub use matrix::{Entry, Mat2, Mat4};
pub use number::{Omega, add_bounded, times_unit, within};
pub use product::{TooWide, mul_checked};
