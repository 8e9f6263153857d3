//! A matrix on one qubit.
ghost use Rattle.std.specs.Prelude.{◌≡◌, ◌^◌, ◌+◌, ◌<◌, ◌≤◌, ℕ, [], ◌∷◌, length, All, IsTrue};
ghost use Rattle.qh_limits.specs.Limits.{max_part_qubits};
ghost use Rattle.qh_ring.specs.Matrices.{number_in};
ghost use Rattle.qh_ring.specs.States.{applied, applied_list};
ghost use Rattle.qh_ring.specs.Units.{are_units};
ghost use Rattle.qh_kernel.specs.Rows.{row_sum2};
ghost use Rattle.qh_blocks.specs.Blocks.{lane, IsBlock};
ghost use Rattle.qh_blocks.specs.Numbers.{numbers};
ghost use Rattle.qh_blocks.specs.Widths.{two_rows, width_after};

use crate::block::Block;
use crate::groups::{block_at, index_with_gap, put_pair, stride_of};
use crate::lanes::{blended, partners};
use crate::rows::pair_row;
use qh_kernel::Vector;
use qh_ring::Entry;

/// The new blocks of a pair.
#[inline(always)]
pub(crate) fn new_pair<V: Vector>(
    x: &Block<V>,
    y: &Block<V>,
    bits: u32,
    first: Entry,
    second: Entry,
    third: Entry,
    fourth: Entry,
) -> (Block<V>, Block<V>)
    requires units { IsTrue (are_units (two_rows first second third fourth)) }
    requires room { bits < V.ROOM }
    requires x_block { IsBlock V.lanes (2 ^ V.PLACES) bits x.now }
    requires y_block { IsBlock V.lanes (2 ^ V.PLACES) bits y.now }
    ensures low { (r : ℕ) → r < 2 ^ V.PLACES → lane V.lanes r result.0 ≡ row_sum2 (number_in (two_rows first second third fourth) 0 0) (number_in (two_rows first second third fourth) 0 1) (lane V.lanes r x.now) (lane V.lanes r y.now) }
    ensures high { (r : ℕ) → r < 2 ^ V.PLACES → lane V.lanes r result.1 ≡ row_sum2 (number_in (two_rows first second third fourth) 1 0) (number_in (two_rows first second third fourth) 1 1) (lane V.lanes r x.now) (lane V.lanes r y.now) }
    ensures low_block { IsBlock V.lanes (2 ^ V.PLACES) (width_after (two_rows first second third fourth) bits) result.0 }
    ensures high_block { IsBlock V.lanes (2 ^ V.PLACES) (width_after (two_rows first second third fourth) bits) result.1 }
{
    let low = pair_row(x, y, bits, first, second);
    let high = pair_row(x, y, bits, third, fourth);
    (low, high)
}

/// The matrix on qubit `q` above the lanes, of 2^qubits blocks.
#[inline(always)]
pub fn pair_blocks<V: Vector>(
    v: &mut [Block<V>],
    qubits: u32,
    q: u32,
    bits: u32,
    first: Entry,
    second: Entry,
    third: Entry,
    fourth: Entry,
)
    requires few { qubits ≤ max_part_qubits }
    requires blocks { length v.old ≡ 2 ^ qubits }
    requires qubit { q < qubits }
    requires units { IsTrue (are_units (two_rows first second third fourth)) }
    requires room { bits < V.ROOM }
    requires bounded { All (IsBlock V.lanes (2 ^ V.PLACES) bits) v.old }
    ensures exact { numbers V.lanes V.PLACES v.new ≡ applied_list (number_in (two_rows first second third fourth)) ((q + V.PLACES) ∷ []) (numbers V.lanes V.PLACES v.old) }
    ensures bounded { All (IsBlock V.lanes (2 ^ V.PLACES) (width_after (two_rows first second third fourth) bits)) v.new }
    ensures len { length v.new ≡ length v.old }
{
    let stride = stride_of(q);
    for p in 0..v.len() / 2 {
        let low = index_with_gap(p, q);
        let high = low + stride;
        let x = block_at(v, low);
        let y = block_at(v, high);
        let pair = new_pair(&x, &y, bits, first, second, third, fourth);
        put_pair(v, low, high, pair.0, pair.1);
    }
}

/// What the matrix on qubit `q` of the lanes makes of a block.
#[inline(always)]
pub(crate) fn new_lanes<V: Vector>(
    x: &Block<V>,
    q: u32,
    bits: u32,
    first: Entry,
    second: Entry,
    third: Entry,
    fourth: Entry,
) -> Block<V>
    requires place { q < V.PLACES }
    requires units { IsTrue (are_units (two_rows first second third fourth)) }
    requires room { bits < V.ROOM }
    requires block { IsBlock V.lanes (2 ^ V.PLACES) bits x.now }
    ensures lanes { (r : ℕ) → r < 2 ^ V.PLACES → lane V.lanes r result ≡ applied (number_in (two_rows first second third fourth)) (q ∷ []) (λ s. lane V.lanes s x.now) r }
    ensures block { IsBlock V.lanes (2 ^ V.PLACES) (width_after (two_rows first second third fourth) bits) result }
{
    let y = partners(x, q, bits);
    let low = pair_row(x, &y, bits, first, second);
    let high = pair_row(&y, x, bits, third, fourth);
    blended(&low, &high, q, bits + 1)
}

/// The matrix on qubit `q` of the lanes.
#[inline(always)]
pub fn lane_blocks<V: Vector>(
    v: &mut [Block<V>],
    q: u32,
    bits: u32,
    first: Entry,
    second: Entry,
    third: Entry,
    fourth: Entry,
)
    requires place { q < V.PLACES }
    requires units { IsTrue (are_units (two_rows first second third fourth)) }
    requires room { bits < V.ROOM }
    requires bounded { All (IsBlock V.lanes (2 ^ V.PLACES) bits) v.old }
    ensures exact { numbers V.lanes V.PLACES v.new ≡ applied_list (number_in (two_rows first second third fourth)) (q ∷ []) (numbers V.lanes V.PLACES v.old) }
    ensures bounded { All (IsBlock V.lanes (2 ^ V.PLACES) (width_after (two_rows first second third fourth) bits)) v.new }
    ensures len { length v.new ≡ length v.old }
{
    for n in 0..v.len() {
        let x = v[n];
        v[n] = new_lanes(&x, q, bits, first, second, third, fourth);
    }
}
