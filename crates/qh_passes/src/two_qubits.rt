//! A matrix on two qubits, each of whose rows has at most one entry, with code of its own for each usual gate and for each
//! place in the lanes.
ghost use Rattle.std.specs.Prelude.{◌≡◌, ◌≢◌, ◌^◌, ◌+◌, ◌<◌, ◌≤◌, [], ◌∷◌, length, All, IsTrue};
ghost use Rattle.qh_limits.specs.Limits.{max_part_qubits};
ghost use Rattle.qh_ring.specs.Matrices.{number_in};
ghost use Rattle.qh_ring.specs.States.{applied_list};
ghost use Rattle.qh_kernel.specs.Rows.{are_single};
ghost use Rattle.qh_blocks.specs.Blocks.{IsBlock};
ghost use Rattle.qh_blocks.specs.Numbers.{numbers};
ghost use Rattle.qh_passes.specs.Passes.{AreBlocks, IsPassed};

use crate::usual::{CNOT, CZ, ID, IS, SW, is_matrix};
use qh_blocks::{Block, high_low_blocks, low_high_blocks, low_low_blocks, quad_blocks};
use qh_kernel::Vector;
use qh_ring::Mat4;

/// `quad_blocks`, with all that it promises in one fact.
#[inline(always)]
fn quad_passed<V: Vector>(v: &mut [Block<V>], qubits: u32, q0: u32, q1: u32, bits: u32, m: &Mat4)
    requires blocks { AreBlocks V.lanes V.PLACES V.ROOM qubits bits v.old }
    requires first { q0 < qubits }
    requires second { q1 < qubits }
    requires apart { q0 ≢ q1 }
    requires single { IsTrue (are_single m.now.rows) }
    ensures { IsPassed V.lanes V.PLACES m.now.rows ((q0 + V.PLACES) ∷ (q1 + V.PLACES) ∷ []) bits v.old v.new }
{
    quad_blocks(v, qubits, q0, q1, bits, m);
}

/// `quad_blocks`, with code of its own for each usual gate.
fn quads_moved<V: Vector>(v: &mut [Block<V>], qubits: u32, q0: u32, q1: u32, bits: u32, m: &Mat4)
    requires blocks { AreBlocks V.lanes V.PLACES V.ROOM qubits bits v.old }
    requires first { q0 < qubits }
    requires second { q1 < qubits }
    requires apart { q0 ≢ q1 }
    requires single { IsTrue (are_single m.now.rows) }
    ensures { IsPassed V.lanes V.PLACES m.now.rows ((q0 + V.PLACES) ∷ (q1 + V.PLACES) ∷ []) bits v.old v.new }
{
    if is_matrix(m, &CZ) {
        return quad_passed(v, qubits, q0, q1, bits, &CZ);
    }
    if is_matrix(m, &CNOT) {
        return quad_passed(v, qubits, q0, q1, bits, &CNOT);
    }
    if is_matrix(m, &IS) {
        return quad_passed(v, qubits, q0, q1, bits, &IS);
    }
    if is_matrix(m, &SW) {
        return quad_passed(v, qubits, q0, q1, bits, &SW);
    }
    if is_matrix(m, &ID) {
        return quad_passed(v, qubits, q0, q1, bits, &ID);
    }
    quad_passed(v, qubits, q0, q1, bits, m)
}

/// `high_low_blocks`, with all that it promises in one fact.
#[inline(always)]
fn high_low_passed<V: Vector>(
    v: &mut [Block<V>],
    qubits: u32,
    q0: u32,
    q1: u32,
    bits: u32,
    m: &Mat4,
)
    requires blocks { AreBlocks V.lanes V.PLACES V.ROOM qubits bits v.old }
    requires first { q0 < qubits }
    requires second { q1 < V.PLACES }
    requires single { IsTrue (are_single m.now.rows) }
    ensures { IsPassed V.lanes V.PLACES m.now.rows ((q0 + V.PLACES) ∷ q1 ∷ []) bits v.old v.new }
{
    high_low_blocks(v, qubits, q0, q1, bits, m)
}

/// `high_low_blocks`, for any matrix.
fn high_low_any<V: Vector>(v: &mut [Block<V>], qubits: u32, q0: u32, q1: u32, bits: u32, m: &Mat4)
    requires blocks { AreBlocks V.lanes V.PLACES V.ROOM qubits bits v.old }
    requires first { q0 < qubits }
    requires second { q1 < V.PLACES }
    requires single { IsTrue (are_single m.now.rows) }
    ensures { IsPassed V.lanes V.PLACES m.now.rows ((q0 + V.PLACES) ∷ q1 ∷ []) bits v.old v.new }
{
    high_low_passed(v, qubits, q0, q1, bits, m)
}

/// `high_low_blocks`, with code of its own for each usual gate.
fn high_low_moved<V: Vector, const Q: u32>(
    v: &mut [Block<V>],
    qubits: u32,
    q0: u32,
    bits: u32,
    m: &Mat4,
)
    requires blocks { AreBlocks V.lanes V.PLACES V.ROOM qubits bits v.old }
    requires first { q0 < qubits }
    requires second { Q < V.PLACES }
    requires single { IsTrue (are_single m.now.rows) }
    ensures { IsPassed V.lanes V.PLACES m.now.rows ((q0 + V.PLACES) ∷ Q ∷ []) bits v.old v.new }
{
    if is_matrix(m, &CZ) {
        return high_low_passed(v, qubits, q0, Q, bits, &CZ);
    }
    if is_matrix(m, &CNOT) {
        return high_low_passed(v, qubits, q0, Q, bits, &CNOT);
    }
    if is_matrix(m, &IS) {
        return high_low_passed(v, qubits, q0, Q, bits, &IS);
    }
    if is_matrix(m, &SW) {
        return high_low_passed(v, qubits, q0, Q, bits, &SW);
    }
    if is_matrix(m, &ID) {
        return high_low_passed(v, qubits, q0, Q, bits, &ID);
    }
    high_low_any(v, qubits, q0, Q, bits, m)
}

/// `high_low_blocks`, with code of its own for each place in the lanes.
fn high_low_placed<V: Vector>(
    v: &mut [Block<V>],
    qubits: u32,
    q0: u32,
    q1: u32,
    bits: u32,
    m: &Mat4,
)
    requires blocks { AreBlocks V.lanes V.PLACES V.ROOM qubits bits v.old }
    requires first { q0 < qubits }
    requires second { q1 < V.PLACES }
    requires single { IsTrue (are_single m.now.rows) }
    ensures { IsPassed V.lanes V.PLACES m.now.rows ((q0 + V.PLACES) ∷ q1 ∷ []) bits v.old v.new }
{
    match q1 {
        0 => high_low_moved::<V, 0>(v, qubits, q0, bits, m),
        1 => high_low_moved::<V, 1>(v, qubits, q0, bits, m),
        2 => high_low_moved::<V, 2>(v, qubits, q0, bits, m),
        _ => high_low_moved::<V, 3>(v, qubits, q0, bits, m),
    }
}

/// `low_high_blocks`, with all that it promises in one fact.
#[inline(always)]
fn low_high_passed<V: Vector>(
    v: &mut [Block<V>],
    qubits: u32,
    q0: u32,
    q1: u32,
    bits: u32,
    m: &Mat4,
)
    requires blocks { AreBlocks V.lanes V.PLACES V.ROOM qubits bits v.old }
    requires first { q0 < V.PLACES }
    requires second { q1 < qubits }
    requires single { IsTrue (are_single m.now.rows) }
    ensures { IsPassed V.lanes V.PLACES m.now.rows (q0 ∷ (q1 + V.PLACES) ∷ []) bits v.old v.new }
{
    low_high_blocks(v, qubits, q0, q1, bits, m)
}

/// `low_high_blocks`, for any matrix.
fn low_high_any<V: Vector>(v: &mut [Block<V>], qubits: u32, q0: u32, q1: u32, bits: u32, m: &Mat4)
    requires blocks { AreBlocks V.lanes V.PLACES V.ROOM qubits bits v.old }
    requires first { q0 < V.PLACES }
    requires second { q1 < qubits }
    requires single { IsTrue (are_single m.now.rows) }
    ensures { IsPassed V.lanes V.PLACES m.now.rows (q0 ∷ (q1 + V.PLACES) ∷ []) bits v.old v.new }
{
    low_high_passed(v, qubits, q0, q1, bits, m)
}

/// `low_high_blocks`, with code of its own for each usual gate.
fn low_high_moved<V: Vector, const Q: u32>(
    v: &mut [Block<V>],
    qubits: u32,
    q1: u32,
    bits: u32,
    m: &Mat4,
)
    requires blocks { AreBlocks V.lanes V.PLACES V.ROOM qubits bits v.old }
    requires first { Q < V.PLACES }
    requires second { q1 < qubits }
    requires single { IsTrue (are_single m.now.rows) }
    ensures { IsPassed V.lanes V.PLACES m.now.rows (Q ∷ (q1 + V.PLACES) ∷ []) bits v.old v.new }
{
    if is_matrix(m, &CZ) {
        return low_high_passed(v, qubits, Q, q1, bits, &CZ);
    }
    if is_matrix(m, &CNOT) {
        return low_high_passed(v, qubits, Q, q1, bits, &CNOT);
    }
    if is_matrix(m, &IS) {
        return low_high_passed(v, qubits, Q, q1, bits, &IS);
    }
    if is_matrix(m, &SW) {
        return low_high_passed(v, qubits, Q, q1, bits, &SW);
    }
    if is_matrix(m, &ID) {
        return low_high_passed(v, qubits, Q, q1, bits, &ID);
    }
    low_high_any(v, qubits, Q, q1, bits, m)
}

/// `low_high_blocks`, with code of its own for each place in the lanes.
fn low_high_placed<V: Vector>(
    v: &mut [Block<V>],
    qubits: u32,
    q0: u32,
    q1: u32,
    bits: u32,
    m: &Mat4,
)
    requires blocks { AreBlocks V.lanes V.PLACES V.ROOM qubits bits v.old }
    requires first { q0 < V.PLACES }
    requires second { q1 < qubits }
    requires single { IsTrue (are_single m.now.rows) }
    ensures { IsPassed V.lanes V.PLACES m.now.rows (q0 ∷ (q1 + V.PLACES) ∷ []) bits v.old v.new }
{
    match q0 {
        0 => low_high_moved::<V, 0>(v, qubits, q1, bits, m),
        1 => low_high_moved::<V, 1>(v, qubits, q1, bits, m),
        2 => low_high_moved::<V, 2>(v, qubits, q1, bits, m),
        _ => low_high_moved::<V, 3>(v, qubits, q1, bits, m),
    }
}

/// `low_low_blocks`, with all that it promises in one fact.
#[inline(always)]
fn low_low_passed<V: Vector>(v: &mut [Block<V>], q0: u32, q1: u32, bits: u32, m: &Mat4)
    requires first { q0 < V.PLACES }
    requires second { q1 < V.PLACES }
    requires apart { q0 ≢ q1 }
    requires single { IsTrue (are_single m.now.rows) }
    requires room { bits < V.ROOM }
    requires bounded { All (IsBlock V.lanes (2 ^ V.PLACES) bits) v.old }
    ensures { IsPassed V.lanes V.PLACES m.now.rows (q0 ∷ q1 ∷ []) bits v.old v.new }
{
    low_low_blocks(v, q0, q1, bits, m)
}

/// `low_low_blocks`, for any matrix.
fn low_low_any<V: Vector>(v: &mut [Block<V>], q0: u32, q1: u32, bits: u32, m: &Mat4)
    requires first { q0 < V.PLACES }
    requires second { q1 < V.PLACES }
    requires apart { q0 ≢ q1 }
    requires single { IsTrue (are_single m.now.rows) }
    requires room { bits < V.ROOM }
    requires bounded { All (IsBlock V.lanes (2 ^ V.PLACES) bits) v.old }
    ensures { IsPassed V.lanes V.PLACES m.now.rows (q0 ∷ q1 ∷ []) bits v.old v.new }
{
    low_low_passed(v, q0, q1, bits, m)
}

/// `low_low_blocks`, with code of its own for each usual gate.
fn low_low_moved<V: Vector, const P: u32, const Q: u32>(v: &mut [Block<V>], bits: u32, m: &Mat4)
    requires first { P < V.PLACES }
    requires second { Q < V.PLACES }
    requires apart { P ≢ Q }
    requires single { IsTrue (are_single m.now.rows) }
    requires room { bits < V.ROOM }
    requires bounded { All (IsBlock V.lanes (2 ^ V.PLACES) bits) v.old }
    ensures { IsPassed V.lanes V.PLACES m.now.rows (P ∷ Q ∷ []) bits v.old v.new }
{
    if is_matrix(m, &CZ) {
        return low_low_passed(v, P, Q, bits, &CZ);
    }
    if is_matrix(m, &CNOT) {
        return low_low_passed(v, P, Q, bits, &CNOT);
    }
    if is_matrix(m, &IS) {
        return low_low_passed(v, P, Q, bits, &IS);
    }
    if is_matrix(m, &SW) {
        return low_low_passed(v, P, Q, bits, &SW);
    }
    if is_matrix(m, &ID) {
        return low_low_passed(v, P, Q, bits, &ID);
    }
    low_low_any(v, P, Q, bits, m)
}

/// `low_low_blocks`, with code of its own for each second place in the lanes.
fn low_low_second<V: Vector, const P: u32>(v: &mut [Block<V>], q1: u32, bits: u32, m: &Mat4)
    requires first { P < V.PLACES }
    requires second { q1 < V.PLACES }
    requires apart { P ≢ q1 }
    requires single { IsTrue (are_single m.now.rows) }
    requires room { bits < V.ROOM }
    requires bounded { All (IsBlock V.lanes (2 ^ V.PLACES) bits) v.old }
    ensures { IsPassed V.lanes V.PLACES m.now.rows (P ∷ q1 ∷ []) bits v.old v.new }
{
    match q1 {
        0 => low_low_moved::<V, P, 0>(v, bits, m),
        1 => low_low_moved::<V, P, 1>(v, bits, m),
        2 => low_low_moved::<V, P, 2>(v, bits, m),
        _ => low_low_moved::<V, P, 3>(v, bits, m),
    }
}

/// `low_low_blocks`, with code of its own for each two places in the lanes.
fn low_low_placed<V: Vector>(v: &mut [Block<V>], q0: u32, q1: u32, bits: u32, m: &Mat4)
    requires first { q0 < V.PLACES }
    requires second { q1 < V.PLACES }
    requires apart { q0 ≢ q1 }
    requires single { IsTrue (are_single m.now.rows) }
    requires room { bits < V.ROOM }
    requires bounded { All (IsBlock V.lanes (2 ^ V.PLACES) bits) v.old }
    ensures { IsPassed V.lanes V.PLACES m.now.rows (q0 ∷ q1 ∷ []) bits v.old v.new }
{
    match q0 {
        0 => low_low_second::<V, 0>(v, q1, bits, m),
        1 => low_low_second::<V, 1>(v, q1, bits, m),
        2 => low_low_second::<V, 2>(v, q1, bits, m),
        _ => low_low_second::<V, 3>(v, q1, bits, m),
    }
}

/// The matrix on the distinct qubits `q0` and `q1` of 2^qubits blocks, where the qubits of the lanes come first. Each row of
/// the matrix has at most one entry other than Zero, so that the bound of the coefficients stays.
pub fn apply2<V: Vector>(v: &mut [Block<V>], qubits: u32, q0: u32, q1: u32, bits: u32, m: &Mat4)
    requires few { qubits ≤ max_part_qubits }
    requires blocks { length v.old ≡ 2 ^ qubits }
    requires first { q0 < qubits + V.PLACES }
    requires second { q1 < qubits + V.PLACES }
    requires apart { q0 ≢ q1 }
    requires single { IsTrue (are_single m.now.rows) }
    requires room { bits < V.ROOM }
    requires bounded { All (IsBlock V.lanes (2 ^ V.PLACES) bits) v.old }
    ensures exact { numbers V.lanes V.PLACES v.new ≡ applied_list (number_in m.now.rows) (q0 ∷ q1 ∷ []) (numbers V.lanes V.PLACES v.old) }
    ensures bounded { All (IsBlock V.lanes (2 ^ V.PLACES) bits) v.new }
    ensures len { length v.new ≡ length v.old }
{
    let places = V::PLACES;
    if q0 < places && q1 < places {
        return low_low_placed(v, q0, q1, bits, m);
    }
    if q0 < places {
        return low_high_placed(v, qubits, q0, q1 - places, bits, m);
    }
    if q1 < places {
        return high_low_placed(v, qubits, q0 - places, q1, bits, m);
    }
    quads_moved(v, qubits, q0 - places, q1 - places, bits, m)
}
