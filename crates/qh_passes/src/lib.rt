//! Passes of matrices over blocks of vectors, with code of its own for each usual gate and for each place in the lanes, and
//! runs of them, tile by tile.
//!
//! The lowest qubits act within a block, the others exchange and add whole blocks. One pass goes once over the blocks,
//! takes no memory, and tests nothing per number: it is told a bound of the coefficients. A tile is 2^tile neighbouring
//! blocks: all matrices of a run are applied to one tile, and then to the next, so that a tile that fits a cache comes from
//! memory once a run, and not once a matrix. It makes no addition more than the matrices one by one would. It chooses
//! neither runs nor tiles, and keeps no state.
#![tactic(auto)]

mod one_qubit;
mod tiles;
mod turn;
mod two_qubits;
mod usual;

pub use one_qubit::apply1;
pub use tiles::apply_run;
pub use turn::Turn;
pub use two_qubits::apply2;
