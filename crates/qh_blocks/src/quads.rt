//! A matrix on two qubits, each of whose rows has at most one entry. No coefficient's magnitude grows.
ghost use Rattle.std.specs.Prelude.{◌≡◌, ◌≢◌, ◌^◌, ◌+◌, ◌<◌, ◌≤◌, ℕ, [], ◌∷◌, length, All, IsTrue};
ghost use Rattle.qh_limits.specs.Limits.{max_part_qubits};
ghost use Rattle.qh_ring.specs.Matrices.{number_in};
ghost use Rattle.qh_ring.specs.States.{applied, applied_list};
ghost use Rattle.qh_kernel.specs.Rows.{are_single};
ghost use Rattle.qh_kernel.specs.Lanes.{flipped, chosen};
ghost use Rattle.qh_blocks.specs.Blocks.{lane, block_of, IsBlock, AreFour};
ghost use Rattle.qh_blocks.specs.Numbers.{numbers, row_of_four};

use crate::block::Block;
use crate::groups::{Quad, block_at, index_with_gap, put_pair, put_quad, quad_at, stride_of};
use crate::lanes::{blended, partners};
use crate::rows::quad_row;
use qh_kernel::Vector;
use qh_ring::Mat4;

/// The new blocks of a quad.
#[inline(always)]
pub(crate) fn new_quad<V: Vector>(quad: &Quad<V>, bits: u32, m: &Mat4) -> Quad<V>
    requires single { IsTrue (are_single m.now.rows) }
    requires room { bits < V.ROOM }
    requires blocks { AreFour V.lanes (2 ^ V.PLACES) bits quad.now }
    ensures lanes { (j r : ℕ) → j < 4 → r < 2 ^ V.PLACES → lane V.lanes r (block_of result j) ≡ row_of_four m.now.rows j (lane V.lanes r quad.now.0) (lane V.lanes r quad.now.1) (lane V.lanes r quad.now.2) (lane V.lanes r quad.now.3) }
    ensures blocks { AreFour V.lanes (2 ^ V.PLACES) bits result }
{
    let (x, y, z, t) = quad;
    let first = quad_row(&m.rows[0], x, y, z, t, bits);
    let second = quad_row(&m.rows[1], x, y, z, t, bits);
    let third = quad_row(&m.rows[2], x, y, z, t, bits);
    let fourth = quad_row(&m.rows[3], x, y, z, t, bits);
    (first, second, third, fourth)
}

/// The matrix on the qubits `q0` and `q1`, both above the lanes, of 2^qubits blocks.
#[inline(always)]
pub fn quad_blocks<V: Vector>(
    v: &mut [Block<V>],
    qubits: u32,
    q0: u32,
    q1: u32,
    bits: u32,
    m: &Mat4,
)
    requires few { qubits ≤ max_part_qubits }
    requires blocks { length v.old ≡ 2 ^ qubits }
    requires first { q0 < qubits }
    requires second { q1 < qubits }
    requires apart { q0 ≢ q1 }
    requires single { IsTrue (are_single m.now.rows) }
    requires room { bits < V.ROOM }
    requires bounded { All (IsBlock V.lanes (2 ^ V.PLACES) bits) v.old }
    ensures exact { numbers V.lanes V.PLACES v.new ≡ applied_list (number_in m.now.rows) ((q0 + V.PLACES) ∷ (q1 + V.PLACES) ∷ []) (numbers V.lanes V.PLACES v.old) }
    ensures bounded { All (IsBlock V.lanes (2 ^ V.PLACES) bits) v.new }
    ensures len { length v.new ≡ length v.old }
{
    let high = stride_of(q0);
    let low = stride_of(q1);
    let near = q0.min(q1);
    let far = q0.max(q1);
    for p in 0..v.len() / 4 {
        let x = index_with_gap(index_with_gap(p, near), far);
        let places = [x, x + low, x + high, x + high + low];
        let quad = quad_at(v, places);
        put_quad(v, places, new_quad(&quad, bits, m));
    }
}

/// The new blocks of a pair, where the matrix's first qubit is the pair's and its second is qubit `q` of the lanes.
#[inline(always)]
pub(crate) fn new_high_low<V: Vector>(
    x: &Block<V>,
    y: &Block<V>,
    q: u32,
    bits: u32,
    m: &Mat4,
) -> (Block<V>, Block<V>)
    requires single { IsTrue (are_single m.now.rows) }
    requires place { q < V.PLACES }
    requires room { bits < V.ROOM }
    requires x_block { IsBlock V.lanes (2 ^ V.PLACES) bits x.now }
    requires y_block { IsBlock V.lanes (2 ^ V.PLACES) bits y.now }
    ensures low { (r : ℕ) → r < 2 ^ V.PLACES → lane V.lanes r result.0 ≡ chosen q r (row_of_four m.now.rows 0 (lane V.lanes r x.now) (lane V.lanes (flipped q r) x.now) (lane V.lanes r y.now) (lane V.lanes (flipped q r) y.now)) (row_of_four m.now.rows 1 (lane V.lanes (flipped q r) x.now) (lane V.lanes r x.now) (lane V.lanes (flipped q r) y.now) (lane V.lanes r y.now)) }
    ensures high { (r : ℕ) → r < 2 ^ V.PLACES → lane V.lanes r result.1 ≡ chosen q r (row_of_four m.now.rows 2 (lane V.lanes r x.now) (lane V.lanes (flipped q r) x.now) (lane V.lanes r y.now) (lane V.lanes (flipped q r) y.now)) (row_of_four m.now.rows 3 (lane V.lanes (flipped q r) x.now) (lane V.lanes r x.now) (lane V.lanes (flipped q r) y.now) (lane V.lanes r y.now)) }
    ensures low_block { IsBlock V.lanes (2 ^ V.PLACES) bits result.0 }
    ensures high_block { IsBlock V.lanes (2 ^ V.PLACES) bits result.1 }
{
    let x_partner = partners(x, q, bits);
    let y_partner = partners(y, q, bits);
    let first = quad_row(&m.rows[0], x, &x_partner, y, &y_partner, bits);
    let second = quad_row(&m.rows[1], &x_partner, x, &y_partner, y, bits);
    let third = quad_row(&m.rows[2], x, &x_partner, y, &y_partner, bits);
    let fourth = quad_row(&m.rows[3], &x_partner, x, &y_partner, y, bits);
    let low = blended(&first, &second, q, bits);
    let high = blended(&third, &fourth, q, bits);
    (low, high)
}

/// The matrix on qubit `q0` above the lanes and qubit `q1` of the lanes, of 2^qubits blocks.
#[inline(always)]
pub fn high_low_blocks<V: Vector>(
    v: &mut [Block<V>],
    qubits: u32,
    q0: u32,
    q1: u32,
    bits: u32,
    m: &Mat4,
)
    requires few { qubits ≤ max_part_qubits }
    requires blocks { length v.old ≡ 2 ^ qubits }
    requires first { q0 < qubits }
    requires second { q1 < V.PLACES }
    requires single { IsTrue (are_single m.now.rows) }
    requires room { bits < V.ROOM }
    requires bounded { All (IsBlock V.lanes (2 ^ V.PLACES) bits) v.old }
    ensures exact { numbers V.lanes V.PLACES v.new ≡ applied_list (number_in m.now.rows) ((q0 + V.PLACES) ∷ q1 ∷ []) (numbers V.lanes V.PLACES v.old) }
    ensures bounded { All (IsBlock V.lanes (2 ^ V.PLACES) bits) v.new }
    ensures len { length v.new ≡ length v.old }
{
    let stride = stride_of(q0);
    for p in 0..v.len() / 2 {
        let low = index_with_gap(p, q0);
        let high = low + stride;
        let x = block_at(v, low);
        let y = block_at(v, high);
        let pair = new_high_low(&x, &y, q1, bits, m);
        put_pair(v, low, high, pair.0, pair.1);
    }
}

/// The new blocks of a pair, where the matrix's first qubit is qubit `q` of the lanes and its second is the pair's.
#[inline(always)]
pub(crate) fn new_low_high<V: Vector>(
    x: &Block<V>,
    y: &Block<V>,
    q: u32,
    bits: u32,
    m: &Mat4,
) -> (Block<V>, Block<V>)
    requires single { IsTrue (are_single m.now.rows) }
    requires place { q < V.PLACES }
    requires room { bits < V.ROOM }
    requires x_block { IsBlock V.lanes (2 ^ V.PLACES) bits x.now }
    requires y_block { IsBlock V.lanes (2 ^ V.PLACES) bits y.now }
    ensures low { (r : ℕ) → r < 2 ^ V.PLACES → lane V.lanes r result.0 ≡ chosen q r (row_of_four m.now.rows 0 (lane V.lanes r x.now) (lane V.lanes r y.now) (lane V.lanes (flipped q r) x.now) (lane V.lanes (flipped q r) y.now)) (row_of_four m.now.rows 2 (lane V.lanes (flipped q r) x.now) (lane V.lanes (flipped q r) y.now) (lane V.lanes r x.now) (lane V.lanes r y.now)) }
    ensures high { (r : ℕ) → r < 2 ^ V.PLACES → lane V.lanes r result.1 ≡ chosen q r (row_of_four m.now.rows 1 (lane V.lanes r x.now) (lane V.lanes r y.now) (lane V.lanes (flipped q r) x.now) (lane V.lanes (flipped q r) y.now)) (row_of_four m.now.rows 3 (lane V.lanes (flipped q r) x.now) (lane V.lanes (flipped q r) y.now) (lane V.lanes r x.now) (lane V.lanes r y.now)) }
    ensures low_block { IsBlock V.lanes (2 ^ V.PLACES) bits result.0 }
    ensures high_block { IsBlock V.lanes (2 ^ V.PLACES) bits result.1 }
{
    let x_partner = partners(x, q, bits);
    let y_partner = partners(y, q, bits);
    let first = quad_row(&m.rows[0], x, y, &x_partner, &y_partner, bits);
    let second = quad_row(&m.rows[1], x, y, &x_partner, &y_partner, bits);
    let third = quad_row(&m.rows[2], &x_partner, &y_partner, x, y, bits);
    let fourth = quad_row(&m.rows[3], &x_partner, &y_partner, x, y, bits);
    let low = blended(&first, &third, q, bits);
    let high = blended(&second, &fourth, q, bits);
    (low, high)
}

/// The matrix on qubit `q0` of the lanes and qubit `q1` above them, of 2^qubits blocks.
#[inline(always)]
pub fn low_high_blocks<V: Vector>(
    v: &mut [Block<V>],
    qubits: u32,
    q0: u32,
    q1: u32,
    bits: u32,
    m: &Mat4,
)
    requires few { qubits ≤ max_part_qubits }
    requires blocks { length v.old ≡ 2 ^ qubits }
    requires first { q0 < V.PLACES }
    requires second { q1 < qubits }
    requires single { IsTrue (are_single m.now.rows) }
    requires room { bits < V.ROOM }
    requires bounded { All (IsBlock V.lanes (2 ^ V.PLACES) bits) v.old }
    ensures exact { numbers V.lanes V.PLACES v.new ≡ applied_list (number_in m.now.rows) (q0 ∷ (q1 + V.PLACES) ∷ []) (numbers V.lanes V.PLACES v.old) }
    ensures bounded { All (IsBlock V.lanes (2 ^ V.PLACES) bits) v.new }
    ensures len { length v.new ≡ length v.old }
{
    let stride = stride_of(q1);
    for p in 0..v.len() / 2 {
        let low = index_with_gap(p, q1);
        let high = low + stride;
        let x = block_at(v, low);
        let y = block_at(v, high);
        let pair = new_low_high(&x, &y, q0, bits, m);
        put_pair(v, low, high, pair.0, pair.1);
    }
}

/// What the matrix on the qubits `q0` and `q1` of the lanes makes of a block.
#[inline(always)]
pub(crate) fn new_low_low<V: Vector>(
    x: &Block<V>,
    q0: u32,
    q1: u32,
    bits: u32,
    m: &Mat4,
) -> Block<V>
    requires single { IsTrue (are_single m.now.rows) }
    requires first { q0 < V.PLACES }
    requires second { q1 < V.PLACES }
    requires apart { q0 ≢ q1 }
    requires room { bits < V.ROOM }
    requires block { IsBlock V.lanes (2 ^ V.PLACES) bits x.now }
    ensures lanes { (r : ℕ) → r < 2 ^ V.PLACES → lane V.lanes r result ≡ applied (number_in m.now.rows) (q0 ∷ q1 ∷ []) (λ s. lane V.lanes s x.now) r }
    ensures block { IsBlock V.lanes (2 ^ V.PLACES) bits result }
{
    let first = partners(x, q0, bits);
    let second = partners(x, q1, bits);
    let both = partners(&first, q1, bits);
    let neither_set = quad_row(&m.rows[0], x, &second, &first, &both, bits);
    let second_set = quad_row(&m.rows[1], &second, x, &both, &first, bits);
    let first_set = quad_row(&m.rows[2], &first, &both, x, &second, bits);
    let both_set = quad_row(&m.rows[3], &both, &first, &second, x, bits);
    let low = blended(&neither_set, &second_set, q1, bits);
    let high = blended(&first_set, &both_set, q1, bits);
    blended(&low, &high, q0, bits)
}

/// The matrix on the qubits `q0` and `q1` of the lanes.
#[inline(always)]
pub fn low_low_blocks<V: Vector>(v: &mut [Block<V>], q0: u32, q1: u32, bits: u32, m: &Mat4)
    requires first { q0 < V.PLACES }
    requires second { q1 < V.PLACES }
    requires apart { q0 ≢ q1 }
    requires single { IsTrue (are_single m.now.rows) }
    requires room { bits < V.ROOM }
    requires bounded { All (IsBlock V.lanes (2 ^ V.PLACES) bits) v.old }
    ensures exact { numbers V.lanes V.PLACES v.new ≡ applied_list (number_in m.now.rows) (q0 ∷ q1 ∷ []) (numbers V.lanes V.PLACES v.old) }
    ensures bounded { All (IsBlock V.lanes (2 ^ V.PLACES) bits) v.new }
    ensures len { length v.new ≡ length v.old }
{
    for n in 0..v.len() {
        let x = v[n];
        v[n] = new_low_low(&x, q0, q1, bits, m);
    }
}
