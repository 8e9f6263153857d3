//! Runs on tiles.
ghost use Rattle.std.specs.Prelude.{◌≡◌, ◌^◌, ◌+◌, ◌-◌, ◌*◌, ◌<◌, ◌≤◌, length, All};
ghost use Rattle.qh_limits.specs.Limits.{max_part_qubits};
ghost use Rattle.qh_blocks.specs.Blocks.{IsBlock};
ghost use Rattle.qh_blocks.specs.Numbers.{numbers};
ghost use Rattle.qh_passes.specs.Turns.{turned, after_turns, IsTurnIn, width_turned, width_after_turns};

use crate::turn::Turn;
use crate::{apply1, apply2};
use qh_blocks::{Block, width_of};
use qh_kernel::Vector;

/// 2^qubits.
fn blocks_of(qubits: u32) -> usize
    requires { qubits ≤ max_part_qubits }
    ensures { result ≡ 2 ^ qubits }
{
    1usize << qubits
}

/// Where a tile of 2^tile blocks begins among 2^qubits blocks, and where it ends.
fn tile_at(qubits: u32, tile: u32, number: usize) -> (usize, usize)
    requires few { qubits ≤ max_part_qubits }
    requires tile { tile ≤ qubits }
    requires number { number < 2 ^ (qubits - tile) }
    ensures begin { result.0 ≡ number * 2 ^ tile }
    ensures end { result.1 ≡ number * 2 ^ tile + 2 ^ tile }
    ensures within { result.1 ≤ 2 ^ qubits }
{
    let size = blocks_of(tile);
    let begin = number * size;
    (begin, begin + size)
}

/// Applies one turn to 2^qubits blocks, and tells the new bound of the coefficients.
fn apply_turn<V: Vector>(v: &mut [Block<V>], qubits: u32, bits: u32, turn: &Turn) -> u32
    requires few { qubits ≤ max_part_qubits }
    requires blocks { length v.old ≡ 2 ^ qubits }
    requires turn { IsTurnIn (qubits + V.PLACES) turn.now }
    requires room { bits < V.ROOM }
    requires bounded { All (IsBlock V.lanes (2 ^ V.PLACES) bits) v.old }
    ensures width { result ≡ width_turned turn.now bits }
    ensures exact { numbers V.lanes V.PLACES v.new ≡ turned turn.now (numbers V.lanes V.PLACES v.old) }
    ensures bounded { All (IsBlock V.lanes (2 ^ V.PLACES) result) v.new }
    ensures len { length v.new ≡ length v.old }
{
    match turn {
        Turn::One { matrix, qubit } => {
            apply1(v, qubits, *qubit, bits, matrix);
            width_of(matrix, bits)
        }
        Turn::Two {
            matrix,
            first,
            second,
        } => {
            apply2(v, qubits, *first, *second, bits, matrix);
            bits
        }
    }
}

/// Applies the run, first turn first, to 2^qubits blocks.
fn apply_turns<V: Vector>(v: &mut [Block<V>], qubits: u32, bits: u32, run: &[Turn])
    requires few { qubits ≤ max_part_qubits }
    requires blocks { length v.old ≡ 2 ^ qubits }
    requires turns { All (IsTurnIn (qubits + V.PLACES)) run.now }
    requires room { width_after_turns run.now bits < V.ROOM }
    requires bounded { All (IsBlock V.lanes (2 ^ V.PLACES) bits) v.old }
    ensures exact { numbers V.lanes V.PLACES v.new ≡ after_turns run.now (numbers V.lanes V.PLACES v.old) }
    ensures bounded { All (IsBlock V.lanes (2 ^ V.PLACES) (width_after_turns run.now bits)) v.new }
    ensures len { length v.new ≡ length v.old }
{
    let mut width = bits;
    for turn in run {
        width = apply_turn(v, qubits, width, turn);
    }
}

/// Applies the run, first turn first, to 2^qubits blocks, tile by tile: each tile of 2^tile blocks goes through the whole
/// run before the next one. The qubits of the run are those within a tile, the qubits of the lanes first. Each row of two
/// entries may widen the coefficients by one bit.
pub fn apply_run<V: Vector>(v: &mut [Block<V>], qubits: u32, tile: u32, bits: u32, run: &[Turn])
    requires few { qubits ≤ max_part_qubits }
    requires blocks { length v.old ≡ 2 ^ qubits }
    requires tile { tile ≤ qubits }
    requires turns { All (IsTurnIn (tile + V.PLACES)) run.now }
    requires room { width_after_turns run.now bits < V.ROOM }
    requires bounded { All (IsBlock V.lanes (2 ^ V.PLACES) bits) v.old }
    ensures exact { numbers V.lanes V.PLACES v.new ≡ after_turns run.now (numbers V.lanes V.PLACES v.old) }
    ensures bounded { All (IsBlock V.lanes (2 ^ V.PLACES) (width_after_turns run.now bits)) v.new }
    ensures len { length v.new ≡ length v.old }
{
    for number in 0..blocks_of(qubits - tile) {
        let (begin, end) = tile_at(qubits, tile, number);
        apply_turns(&mut v[begin..end], tile, bits, run);
    }
}
