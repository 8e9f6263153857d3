//! Blocks with the memory that was taken for them beforehand: those of a state, or none where each of its numbers is 0.
ghost use Rattle.std.specs.Prelude.{◌≡◌, ◌≢◌, ◌≤◌, ◌<◌, ◌-◌, ◌^◌, [], ◌∷◌, length, take, All, IsTrue, IfOk, OnOk, OnErr};
ghost use Rattle.std.specs.Vec.{vec_capacity};
ghost use Rattle.qh_limits.specs.Limits.{max_part_qubits};
ghost use Rattle.qh_ring.specs.Numbers.{IsWithin};
ghost use Rattle.qh_ring.specs.Matrices.{number_in};
ghost use Rattle.qh_ring.specs.States.{applied_list, ground, listed};
ghost use Rattle.qh_kernel.specs.Rows.{are_single};
ghost use Rattle.qh_passes.specs.Turns.{after_turns, IsTurnIn, StayWithin};
ghost use Rattle.qh_narrow.specs.Columns.{first_numbers, zeros, AreHeld};
ghost use Rattle.qh_narrow.specs.Factor.{with_factor};

use crate::blocks::{ground_state, high_qubits, reduce, turn1, turn2};
use crate::tiles::turn_tiles;
use crate::wide::Wide;
use qh_blocks::Block;
use qh_kernel::Vector;
use qh_passes::Turn;
use qh_ring::{Mat2, Mat4};
use std::alloc::{AllocError, Global};

/// How many blocks the numbers of so many qubits take.
pub(crate) fn block_count(qubits: u32, places: u32) -> usize
    requires { qubits ≤ max_part_qubits }
    ensures { result ≡ 2 ^ (qubits - places) }
{
    1usize << high_qubits(qubits, places)
}

/// The state with 1 at index 0 and 0 elsewhere.
pub(crate) fn stored_ground<V: Vector>(
    alloc: Global,
    qubits: u32,
) -> Result<Vec<Block<V>>, AllocError>
    requires { qubits ≤ max_part_qubits }
    ensures held { IfOk result (λ v. AreHeld V.lanes V.PLACES V.ROOM qubits 1 v.items) }
    ensures space { IfOk result (λ v. 2 ^ (qubits - V.PLACES) ≤ vec_capacity v) }
    ensures numbers { IfOk result (λ v. first_numbers V.lanes V.PLACES qubits v.items ≡ listed qubits ground) }
{
    let blocks = ground_state(alloc, qubits)?;
    Ok(blocks)
}

/// The numbers 0, which take memory and write none of it.
pub(crate) fn stored_zeros<V: Vector>(
    alloc: Global,
    qubits: u32,
) -> Result<Vec<Block<V>>, AllocError>
    requires { qubits ≤ max_part_qubits }
    ensures held { IfOk result (λ v. AreHeld V.lanes V.PLACES V.ROOM qubits 1 v.items) }
    ensures space { IfOk result (λ v. 2 ^ (qubits - V.PLACES) ≤ vec_capacity v) }
    ensures numbers { IfOk result (λ v. first_numbers V.lanes V.PLACES qubits v.items ≡ listed qubits zeros) }
{
    let blocks = Vec::with_capacity(alloc, block_count(qubits, V::PLACES))?;
    Ok(blocks)
}

/// Applies the matrix to qubit `q`, and tells the new bound.
pub(crate) fn change1<V: Vector>(
    v: &mut [Block<V>],
    qubits: u32,
    q: u32,
    bits: u32,
    m: &Mat2,
) -> Result<u32, Wide>
    requires held { AreHeld V.lanes V.PLACES V.ROOM qubits bits v.old }
    requires qubit { q < qubits }
    ensures held { IfOk result (λ n. AreHeld V.lanes V.PLACES V.ROOM qubits n v.new) }
    ensures exact { OnOk result (first_numbers V.lanes V.PLACES qubits v.new ≡ applied_list (number_in m.now.rows) (q ∷ []) (first_numbers V.lanes V.PLACES qubits v.old)) }
    ensures within { OnOk result (All (IsWithin (V.ROOM - 1)) (first_numbers V.lanes V.PLACES qubits v.new)) }
    ensures wide { OnErr result (¬ All (IsWithin (V.ROOM - 1)) (applied_list (number_in m.now.rows) (q ∷ []) (first_numbers V.lanes V.PLACES qubits v.old))) }
    ensures same { OnErr result (v.new ≡ v.old) }
{
    if v.is_empty() {
        return Ok(bits);
    }
    let Ok(new) = turn1(v, qubits, q, bits, m) else {
        return Err(Wide);
    };
    Ok(new)
}

/// Applies the matrix, each of whose rows has at most one entry, to the distinct qubits `q0` and `q1`. The bound stays.
pub(crate) fn change2<V: Vector>(
    v: &mut [Block<V>],
    qubits: u32,
    q0: u32,
    q1: u32,
    bits: u32,
    m: &Mat4,
)
    requires held { AreHeld V.lanes V.PLACES V.ROOM qubits bits v.old }
    requires first { q0 < qubits }
    requires second { q1 < qubits }
    requires apart { q0 ≢ q1 }
    requires single { IsTrue (are_single m.now.rows) }
    ensures held { AreHeld V.lanes V.PLACES V.ROOM qubits bits v.new }
    ensures exact { first_numbers V.lanes V.PLACES qubits v.new ≡ applied_list (number_in m.now.rows) (q0 ∷ q1 ∷ []) (first_numbers V.lanes V.PLACES qubits v.old) }
    ensures within { All (IsWithin (V.ROOM - 1)) (first_numbers V.lanes V.PLACES qubits v.new) }
{
    if v.is_empty() {
        return;
    }
    turn2(v, qubits, q0, q1, bits, m);
}

/// Applies first turns of the run tile by tile. Tells how many, and the new bound.
pub(crate) fn change_run<V: Vector>(
    v: &mut [Block<V>],
    qubits: u32,
    bits: u32,
    run: &[Turn],
) -> (usize, u32)
    requires held { AreHeld V.lanes V.PLACES V.ROOM qubits bits v.old }
    requires turns { All (IsTurnIn qubits) run.now }
    ensures few { result.0 ≤ length run.now }
    ensures held { AreHeld V.lanes V.PLACES V.ROOM qubits result.1 v.new }
    ensures exact { first_numbers V.lanes V.PLACES qubits v.new ≡ after_turns (take result.0 run.now) (first_numbers V.lanes V.PLACES qubits v.old) }
    ensures within { StayWithin (V.ROOM - 1) (take result.0 run.now) (first_numbers V.lanes V.PLACES qubits v.old) }
{
    if v.is_empty() {
        return (0, bits);
    }
    turn_tiles(v, qubits, bits, run)
}

/// Where the lanes have no room for what the matrix adds, takes a common factor √2^n out of the numbers, n at most `most`.
/// Tells n and the new bound.
pub(crate) fn take_common<V: Vector>(
    v: &mut [Block<V>],
    qubits: u32,
    bits: u32,
    m: &Mat2,
    most: u32,
) -> (u32, u32)
    requires { AreHeld V.lanes V.PLACES V.ROOM qubits bits v.old }
    ensures few { result.0 ≤ most }
    ensures held { AreHeld V.lanes V.PLACES V.ROOM qubits result.1 v.new }
    ensures numbers { with_factor result.0 (first_numbers V.lanes V.PLACES qubits v.new) ≡ first_numbers V.lanes V.PLACES qubits v.old }
{
    if v.is_empty() {
        return (0, bits);
    }
    reduce(v, qubits, bits, m, most)
}

/// A bound of the numbers, in bits: the tracked one, and 0 where there are no blocks.
pub(crate) fn bound_of<V: Vector>(v: &[Block<V>], qubits: u32, bits: u32) -> u32
    requires { AreHeld V.lanes V.PLACES V.ROOM qubits bits v.now }
    ensures bound { All (IsWithin result) (first_numbers V.lanes V.PLACES qubits v.now) }
    ensures few { result ≤ V.ROOM - 1 }
{
    if v.is_empty() {
        return 0;
    }
    bits
}

/// Becomes the other list, for which there is memory.
pub(crate) fn copy_onto<V: Vector>(v: &mut Vec<Block<V>>, other: &[Block<V>])
    requires { length other.now ≤ vec_capacity v.old }
    ensures items { v.new.items ≡ other.now }
    ensures space { vec_capacity v.old ≤ vec_capacity v.new }
{
    if v.len() == other.len() {
        v.copy_from_slice(other);
        return;
    }
    v.clear();
    let _ = v.extend_from_slice(other);
}
