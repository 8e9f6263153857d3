//! Runs of turns on the blocks of a state, tile by tile.
ghost use Rattle.std.specs.Prelude.{◌≡◌, ◌≤◌, ◌<◌, ◌-◌, length, take, All};
ghost use Rattle.qh_ring.specs.Laws.{AllLess};
ghost use Rattle.qh_passes.specs.Turns.{qubits_in, after_turns, IsTurnIn, width_after_turns, StayWithin};
ghost use Rattle.qh_narrow.specs.Columns.{first_numbers, AreKept};

use crate::blocks::high_qubits;
use qh_blocks::Block;
use qh_kernel::Vector;
use qh_passes::{Turn, apply_run};

/// The bytes of a tile: a quarter of the level-2 cache of a core of today's servers, so that a tile stays there while a run
/// goes over it.
const TILE_BYTES: u32 = 1 << 18;

/// A tile has 2^result blocks, each of four vectors of 2^PLACES lanes.
fn tile_qubits<V: Vector>() -> u32 {
    let lane_bytes = (V::ROOM + 1) / 8;
    let block_bytes = (4u32 << V::PLACES) * lane_bytes;
    (TILE_BYTES / block_bytes).ilog2()
}

/// How many of the first turns have their qubits below the limit and leave the bound below the room, and the bound after
/// them.
fn first_turns(run: &[Turn], limit: u32, bits: u32, room: u32) -> (usize, u32)
    requires bits { bits < room }
    requires room { room ≤ 63 }
    ensures few { result.0 ≤ length run.now }
    ensures below { All (λ t. AllLess limit (qubits_in t)) (take result.0 run.now) }
    ensures bound { result.1 ≡ width_after_turns (take result.0 run.now) bits }
    ensures room { result.1 < room }
{
    let mut bound = bits;
    for (count, turn) in run.iter().enumerate() {
        let next = turn.width_after(bound);
        if next >= room {
            return (count, bound);
        }
        if !turn.is_below(limit) {
            return (count, bound);
        }
        bound = next;
    }
    (run.len(), bound)
}

/// Applies the first turns of the run that lie within a tile and for which the tracked bound has room. Tells how many, and
/// the new bound: none where there is one tile or less, or where fewer than two turns qualify.
pub(crate) fn turn_tiles<V: Vector>(
    v: &mut [Block<V>],
    qubits: u32,
    bits: u32,
    run: &[Turn],
) -> (usize, u32)
    requires kept { AreKept V.lanes V.PLACES V.ROOM qubits bits v.old }
    requires turns { All (IsTurnIn qubits) run.now }
    ensures few { result.0 ≤ length run.now }
    ensures kept { AreKept V.lanes V.PLACES V.ROOM qubits result.1 v.new }
    ensures exact { first_numbers V.lanes V.PLACES qubits v.new ≡ after_turns (take result.0 run.now) (first_numbers V.lanes V.PLACES qubits v.old) }
    ensures within { StayWithin (V.ROOM - 1) (take result.0 run.now) (first_numbers V.lanes V.PLACES qubits v.old) }
{
    let high = high_qubits(qubits, V::PLACES);
    let tile = tile_qubits::<V>();
    if high <= tile {
        return (0, bits);
    }
    let (count, bound) = first_turns(run, tile + V::PLACES, bits, V::ROOM);
    if count < 2 {
        return (0, bits);
    }
    apply_run(v, high, tile, bits, &run[..count]);
    (count, bound)
}
