//! One number of the blocks.
ghost use Rattle.std.specs.Prelude.{◌≡◌, ◌-◌, ◌^◌, ◌/◌, ◌%◌, ◌<◌, ◌≤◌, All};
ghost use Rattle.qh_ring.specs.Numbers.{IsWithin};
ghost use Rattle.qh_ring.specs.States.{at_index};
ghost use Rattle.qh_kernel.specs.Lanes.{at_lane, AreBelow};
ghost use Rattle.qh_blocks.specs.Blocks.{lane, IsBlock};
ghost use Rattle.qh_narrow.specs.Columns.{first_numbers};

use qh_blocks::Block;
use qh_kernel::Vector;
use qh_ring::Omega;

/// The index of the block that has number `index`.
fn block_index(index: u32, places: u32) -> usize
    requires { places ≤ 4 }
    ensures { result ≡ index / 2 ^ places }
{
    (index >> places) as usize
}

/// The lane of number `index` in its block.
fn lane_index(index: u32, places: u32) -> usize
    requires { places ≤ 4 }
    ensures { result ≡ index % 2 ^ places }
{
    (index % (1 << places)) as usize
}

/// The coefficient in a lane.
fn coefficient<V: Vector>(x: V, r: usize) -> i128
    requires place { r < 2 ^ V.PLACES }
    requires below { AreBelow (2 ^ V.PLACES) V.ROOM (V.lanes x) }
    ensures { result ≡ at_lane (V.lanes x) r }
{
    i128::from(x.get(r))
}

/// The number in a lane.
fn lane_number<V: Vector>(x: &Block<V>, r: usize) -> Omega
    requires place { r < 2 ^ V.PLACES }
    requires block { IsBlock V.lanes (2 ^ V.PLACES) V.ROOM x.now }
    ensures { result ≡ lane V.lanes r x.now }
{
    Omega {
        a: coefficient(x.a, r),
        b: coefficient(x.b, r),
        c: coefficient(x.c, r),
        d: coefficient(x.d, r),
    }
}

/// The number at an index of a state of so many qubits. Where its block is not there, it is 0.
pub(crate) fn number_of<V: Vector>(v: &[Block<V>], qubits: u32, index: u32) -> Omega
    requires index { index < 2 ^ qubits }
    requires bounded { All (IsBlock V.lanes (2 ^ V.PLACES) (V.ROOM - 1)) v.now }
    ensures value { result ≡ at_index (first_numbers V.lanes V.PLACES qubits v.now) index }
    ensures within { IsWithin (V.ROOM - 1) result }
{
    let places = V::PLACES;
    let k = block_index(index, places);
    let count = v.len();
    if k >= count {
        return Omega::ZERO;
    }
    let r = lane_index(index, places);
    lane_number(&v[k], r)
}
