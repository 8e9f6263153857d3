//! Matrices on the blocks of a state of any number of qubits, with their bound.
ghost use Rattle.std.specs.Prelude.{◌≡◌, ◌≢◌, ◌≤◌, ◌<◌, ◌↔◌, ◌+◌, ◌-◌, ◌^◌, [], ◌∷◌, length, All, IsTrue, IfOk, OnOk, OnErr};
ghost use Rattle.qh_limits.specs.Limits.{max_part_qubits};
ghost use Rattle.qh_ring.specs.Numbers.{IsWithin};
ghost use Rattle.qh_ring.specs.Matrices.{number_in};
ghost use Rattle.qh_ring.specs.States.{applied_list, ground, listed};
ghost use Rattle.qh_kernel.specs.Rows.{are_single};
ghost use Rattle.qh_blocks.specs.Blocks.{IsBlock};
ghost use Rattle.qh_blocks.specs.Widths.{width_after};
ghost use Rattle.qh_narrow.specs.Columns.{first_numbers, AreBlocksOf, AreKept};
ghost use Rattle.qh_narrow.specs.Factor.{with_factor};

use crate::wide::Wide;
use qh_blocks::{Block, bits_of, fits_after, ground_blocks, take_roots, width_of};
use qh_kernel::Vector;
use qh_passes::{apply1, apply2};
use qh_ring::{Mat2, Mat4};
use std::alloc::{AllocError, Global};

/// The number of qubits above the lanes.
pub(crate) fn high_qubits(qubits: u32, places: u32) -> u32
    ensures { result ≡ qubits - places }
{
    qubits.saturating_sub(places)
}

/// The blocks of the state with 1 at index 0 and 0 elsewhere, whose bound is 1 bit.
pub(crate) fn ground_state<V: Vector>(
    alloc: Global,
    qubits: u32,
) -> Result<Vec<Block<V>>, AllocError>
    requires { qubits ≤ max_part_qubits }
    ensures kept { IfOk result (λ v. AreKept V.lanes V.PLACES V.ROOM qubits 1 v.items) }
    ensures numbers { IfOk result (λ v. first_numbers V.lanes V.PLACES qubits v.items ≡ listed qubits ground) }
{
    let blocks = ground_blocks(alloc, high_qubits(qubits, V::PLACES))?;
    Ok(blocks)
}

/// One pass of the matrix on qubit `q`, whose new bound `width_of` tells.
fn pass1<V: Vector>(v: &mut [Block<V>], qubits: u32, q: u32, bits: u32, m: &Mat2)
    requires kept { AreKept V.lanes V.PLACES V.ROOM qubits bits v.old }
    requires qubit { q < qubits }
    ensures exact { first_numbers V.lanes V.PLACES qubits v.new ≡ applied_list (number_in m.now.rows) (q ∷ []) (first_numbers V.lanes V.PLACES qubits v.old) }
    ensures blocks { AreBlocksOf V.lanes V.PLACES qubits v.new }
    ensures bounded { All (IsBlock V.lanes (2 ^ V.PLACES) (width_after m.now.rows bits)) v.new }
{
    apply1(v, high_qubits(qubits, V::PLACES), q, bits, m);
}

/// Whether the numbers that the matrix makes stay within 2^(ROOM - 1).
fn fits1<V: Vector>(v: &[Block<V>], qubits: u32, q: u32, bits: u32, m: &Mat2) -> bool
    requires kept { AreKept V.lanes V.PLACES V.ROOM qubits bits v.now }
    requires qubit { q < qubits }
    ensures { IsTrue result ↔ All (IsWithin (V.ROOM - 1)) (applied_list (number_in m.now.rows) (q ∷ []) (first_numbers V.lanes V.PLACES qubits v.now)) }
{
    let high = high_qubits(qubits, V::PLACES);
    fits_after(v, high, q, bits, V::ROOM - 1, m)
}

/// A bound of the blocks: the tracked one where it has room for the matrix, else the least.
fn known_bits<V: Vector>(v: &[Block<V>], qubits: u32, bits: u32, m: &Mat2) -> u32
    requires kept { AreKept V.lanes V.PLACES V.ROOM qubits bits v.now }
    ensures { AreKept V.lanes V.PLACES V.ROOM qubits result v.now }
{
    if width_of(m, bits) < V::ROOM {
        return bits;
    }
    bits_of(v)
}

/// Applies the matrix to qubit `q`, and tells the new bound.
pub(crate) fn turn1<V: Vector>(
    v: &mut [Block<V>],
    qubits: u32,
    q: u32,
    bits: u32,
    m: &Mat2,
) -> Result<u32, Wide>
    requires kept { AreKept V.lanes V.PLACES V.ROOM qubits bits v.old }
    requires qubit { q < qubits }
    ensures kept { IfOk result (λ n. AreKept V.lanes V.PLACES V.ROOM qubits n v.new) }
    ensures exact { OnOk result (first_numbers V.lanes V.PLACES qubits v.new ≡ applied_list (number_in m.now.rows) (q ∷ []) (first_numbers V.lanes V.PLACES qubits v.old)) }
    ensures within { OnOk result (All (IsWithin (V.ROOM - 1)) (first_numbers V.lanes V.PLACES qubits v.new)) }
    ensures wide { OnErr result (¬ All (IsWithin (V.ROOM - 1)) (applied_list (number_in m.now.rows) (q ∷ []) (first_numbers V.lanes V.PLACES qubits v.old))) }
    ensures same { OnErr result (v.new ≡ v.old) }
{
    let room = V::ROOM;
    let known = known_bits(v, qubits, bits, m);
    let new = width_of(m, known);
    if new < room {
        pass1(v, qubits, q, known, m);
        return Ok(new);
    }
    if !fits1(v, qubits, q, known, m) {
        return Err(Wide);
    }
    pass1(v, qubits, q, known, m);
    Ok(room - 1)
}

/// Applies the matrix, each of whose rows has at most one entry, to the distinct qubits `q0` and `q1`. The bound stays.
pub(crate) fn turn2<V: Vector>(
    v: &mut [Block<V>],
    qubits: u32,
    q0: u32,
    q1: u32,
    bits: u32,
    m: &Mat4,
)
    requires kept { AreKept V.lanes V.PLACES V.ROOM qubits bits v.old }
    requires first { q0 < qubits }
    requires second { q1 < qubits }
    requires apart { q0 ≢ q1 }
    requires single { IsTrue (are_single m.now.rows) }
    ensures kept { AreKept V.lanes V.PLACES V.ROOM qubits bits v.new }
    ensures exact { first_numbers V.lanes V.PLACES qubits v.new ≡ applied_list (number_in m.now.rows) (q0 ∷ q1 ∷ []) (first_numbers V.lanes V.PLACES qubits v.old) }
    ensures within { All (IsWithin (V.ROOM - 1)) (first_numbers V.lanes V.PLACES qubits v.new) }
{
    apply2(v, high_qubits(qubits, V::PLACES), q0, q1, bits, m);
}

/// Where the true bound leaves fewer bits than this of the lanes' room, a common factor is looked for.
const SPARE_BITS: u32 = 6;

/// Where the lanes have no room for what the matrix adds, takes a common factor √2^n out of the numbers, n at most `most`.
/// Tells n and the new bound.
pub(crate) fn reduce<V: Vector>(
    v: &mut [Block<V>],
    qubits: u32,
    bits: u32,
    m: &Mat2,
    most: u32,
) -> (u32, u32)
    requires kept { AreKept V.lanes V.PLACES V.ROOM qubits bits v.old }
    ensures few { result.0 ≤ most }
    ensures kept { AreKept V.lanes V.PLACES V.ROOM qubits result.1 v.new }
    ensures numbers { with_factor result.0 (first_numbers V.lanes V.PLACES qubits v.new) ≡ first_numbers V.lanes V.PLACES qubits v.old }
{
    if width_of(m, bits) < V::ROOM {
        return (0, bits);
    }
    let known = bits_of(v);
    if known <= V::ROOM - SPARE_BITS {
        return (0, known);
    }
    let taken = take_roots(v, known, most);
    (taken, bits_of(v))
}
