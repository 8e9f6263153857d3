//! Blocks of vectors, and what a matrix makes of them, by one source for each width of the lanes.
//!
//! A block has the numbers a + bω + cω² + dω³ of as many indices as a vector has lanes, in four vectors. The lowest qubits
//! act within a block, the others exchange and add whole blocks: there is one call for each such case. A call goes once over
//! the blocks, takes no memory, and tests nothing per number: it is told a bound of the coefficients. `take_roots` alone goes
//! over them again, for each factor 2 or √2 that all numbers have in common. It keeps no state.
#![tactic(auto)]

mod block;
mod factor;
mod fit;
mod groups;
mod lanes;
mod pairs;
mod quads;
mod rows;
mod scan;

pub use block::{Block, ground_blocks};
pub use factor::take_roots;
pub use fit::{fits_after, width_of};
pub use pairs::{lane_blocks, pair_blocks};
pub use quads::{high_low_blocks, low_high_blocks, low_low_blocks, quad_blocks};
pub use scan::bits_of;
