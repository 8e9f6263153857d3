//! Whether the numbers that a matrix makes stay within a bound, told before they are made.
ghost use Rattle.std.specs.Prelude.{◌≡◌, ◌↔◌, ◌^◌, ◌+◌, ◌<◌, ◌≤◌, ℕ, [], ◌∷◌, length, All, IsTrue};
ghost use Rattle.qh_limits.specs.Limits.{max_part_qubits};
ghost use Rattle.qh_ring.specs.Numbers.{IsWithin};
ghost use Rattle.qh_ring.specs.Matrices.{number_in};
ghost use Rattle.qh_ring.specs.States.{applied_list};
ghost use Rattle.qh_ring.specs.Units.{are_units};
ghost use Rattle.qh_blocks.specs.Blocks.{IsBlock};
ghost use Rattle.qh_blocks.specs.Numbers.{numbers};
ghost use Rattle.qh_blocks.specs.Widths.{row_width, two_rows, width_after};

use crate::block::Block;
use crate::groups::{block_at, index_with_gap, stride_of};
use crate::pairs::{new_lanes, new_pair};
use crate::scan::block_most;
use qh_kernel::Vector;
use qh_ring::{Entry, Mat2};

/// Whether each coefficient's magnitude is below 2^limit.
fn is_within<V: Vector>(x: &Block<V>, limit: u32) -> bool
    requires limit { limit < 64 }
    requires block { IsBlock V.lanes (2 ^ V.PLACES) V.ROOM x.now }
    ensures { IsTrue result ↔ IsBlock V.lanes (2 ^ V.PLACES) limit x.now }
{
    block_most(x) < 1u64 << limit
}

/// Whether the new numbers stay within 2^limit, where qubit `q` lies above the lanes.
fn pairs_fit<V: Vector>(
    v: &[Block<V>],
    qubits: u32,
    q: u32,
    bits: u32,
    limit: u32,
    first: Entry,
    second: Entry,
    third: Entry,
    fourth: Entry,
) -> bool
    requires few { qubits ≤ max_part_qubits }
    requires blocks { length v.now ≡ 2 ^ qubits }
    requires qubit { q < qubits }
    requires units { IsTrue (are_units (two_rows first second third fourth)) }
    requires room { bits < V.ROOM }
    requires limit { limit < 64 }
    requires bounded { All (IsBlock V.lanes (2 ^ V.PLACES) bits) v.now }
    ensures { IsTrue result ↔ All (IsWithin limit) (applied_list (number_in (two_rows first second third fourth)) ((q + V.PLACES) ∷ []) (numbers V.lanes V.PLACES v.now)) }
{
    let stride = stride_of(q);
    for p in 0..v.len() / 2 {
        let low = index_with_gap(p, q);
        let x = block_at(v, low);
        let y = block_at(v, low + stride);
        let pair = new_pair(&x, &y, bits, first, second, third, fourth);
        if !is_within(&pair.0, limit) {
            return false;
        }
        if !is_within(&pair.1, limit) {
            return false;
        }
    }
    true
}

/// Whether the new numbers stay within 2^limit, where qubit `q` is one of the lanes.
fn lanes_fit<V: Vector>(
    v: &[Block<V>],
    q: u32,
    bits: u32,
    limit: u32,
    first: Entry,
    second: Entry,
    third: Entry,
    fourth: Entry,
) -> bool
    requires place { q < V.PLACES }
    requires units { IsTrue (are_units (two_rows first second third fourth)) }
    requires room { bits < V.ROOM }
    requires limit { limit < 64 }
    requires bounded { All (IsBlock V.lanes (2 ^ V.PLACES) bits) v.now }
    ensures { IsTrue result ↔ All (IsWithin limit) (applied_list (number_in (two_rows first second third fourth)) (q ∷ []) (numbers V.lanes V.PLACES v.now)) }
{
    for n in 0..v.len() {
        let x = block_at(v, n);
        let new = new_lanes(&x, q, bits, first, second, third, fourth);
        if !is_within(&new, limit) {
            return false;
        }
    }
    true
}

/// Whether the new numbers of the matrix of these entries stay within 2^limit.
fn entries_fit<V: Vector>(
    v: &[Block<V>],
    qubits: u32,
    q: u32,
    bits: u32,
    limit: u32,
    first: Entry,
    second: Entry,
    third: Entry,
    fourth: Entry,
) -> bool
    requires few { qubits ≤ max_part_qubits }
    requires blocks { length v.now ≡ 2 ^ qubits }
    requires qubit { q < qubits + V.PLACES }
    requires units { IsTrue (are_units (two_rows first second third fourth)) }
    requires room { bits < V.ROOM }
    requires limit { limit < 64 }
    requires bounded { All (IsBlock V.lanes (2 ^ V.PLACES) bits) v.now }
    ensures { IsTrue result ↔ All (IsWithin limit) (applied_list (number_in (two_rows first second third fourth)) (q ∷ []) (numbers V.lanes V.PLACES v.now)) }
{
    if q >= V::PLACES {
        return pairs_fit(
            v,
            qubits,
            q - V::PLACES,
            bits,
            limit,
            first,
            second,
            third,
            fourth,
        );
    }
    lanes_fit(v, q, bits, limit, first, second, third, fourth)
}

/// Whether each coefficient that the matrix on qubit `q` makes has a magnitude below 2^limit. It goes once over the blocks
/// and changes nothing.
pub fn fits_after<V: Vector>(
    v: &[Block<V>],
    qubits: u32,
    q: u32,
    bits: u32,
    limit: u32,
    m: &Mat2,
) -> bool
    requires few { qubits ≤ max_part_qubits }
    requires blocks { length v.now ≡ 2 ^ qubits }
    requires qubit { q < qubits + V.PLACES }
    requires room { bits < V.ROOM }
    requires limit { limit < 64 }
    requires bounded { All (IsBlock V.lanes (2 ^ V.PLACES) bits) v.now }
    ensures { IsTrue result ↔ All (IsWithin limit) (applied_list (number_in m.now.rows) (q ∷ []) (numbers V.lanes V.PLACES v.now)) }
{
    let [low, high] = m.rows;
    entries_fit(v, qubits, q, bits, limit, low[0], low[1], high[0], high[1])
}

/// The bound, in bits, of the coefficients that the matrix makes of coefficients within 2^bits.
pub fn width_of(m: &Mat2, bits: u32) -> u32
    requires { bits < 64 }
    ensures { result ≡ width_after m.now.rows bits }
{
    let [low, high] = m.rows;
    row_bits(low[0], low[1], bits).max(row_bits(high[0], high[1], bits))
}

/// The same of one row.
fn row_bits(first: Entry, second: Entry, bits: u32) -> u32
    requires { bits < 64 }
    ensures { result ≡ row_width first second bits }
{
    match (first, second) {
        (Entry::Unit(_), Entry::Unit(_)) => bits + 1,
        _ => bits,
    }
}
