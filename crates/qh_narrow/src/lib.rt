//! A state of exact numbers in lanes of 16, 32 or 64 bits, which a matrix changes only where each new number fits.
//!
//! Coefficients have magnitudes below 2^14, 2^30 and 2^62, and a number takes 8, 16 and 32 bytes. A matrix goes once
//! over the blocks, without a multiplication: it moves 16, 32 or 64 bytes for a number, and makes at most four
//! additions. It tests nothing per number while the tracked bound has room; else a pass before it finds the true bound,
//! and where that has no room either, another tells whether all fit. `take_factor` takes a factor √2^n that all numbers
//! have in common out of them. Wider columns become the narrower ones by `widen_from`, in one pass. No call but `ground`
//! and `zeros` takes memory. It knows nothing of wider numbers, of gates or of circuits.
#![tactic(auto)]

mod blocks;
mod columns;
mod columns16;
mod columns32;
mod number;
mod stored;
mod tiles;
mod wide;
mod widen;

pub use columns::Columns;
pub use columns16::Columns16;
pub use columns32::Columns32;
pub use wide::Wide;
