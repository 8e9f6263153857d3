//! The step to wider lanes: the same numbers.
ghost use Rattle.std.specs.Prelude.{◌≡◌, ◌≤◌, ◌<◌, ◌+◌, ◌-◌, ◌*◌, ◌/◌, ◌%◌, ◌^◌, ℕ, length, All};
ghost use Rattle.std.specs.Vec.{vec_capacity};
ghost use Rattle.qh_kernel.specs.Lanes.{at_lane, AreBelow};
ghost use Rattle.qh_blocks.specs.Blocks.{lane, IsBlock};
ghost use Rattle.qh_narrow.specs.Columns.{first_numbers, AreBlocksOf, AreHeld};

use crate::stored::block_count;
use qh_blocks::Block;
use qh_kernel::Vector;

/// The lanes of a vector from lane `from` on, as many as a vector of wider lanes has.
#[inline(always)]
fn wider_lanes<N: Vector, W: Vector>(x: N, from: usize) -> W
    requires from { from + 2 ^ W.PLACES ≤ 2 ^ N.PLACES }
    requires room { N.ROOM ≤ W.ROOM }
    requires below { AreBelow (2 ^ N.PLACES) N.ROOM (N.lanes x) }
    ensures lanes { (r : ℕ) → r < 2 ^ W.PLACES → at_lane (W.lanes result) r ≡ at_lane (N.lanes x) (from + r) }
    ensures below { (bits : ℕ) → AreBelow (2 ^ N.PLACES) bits (N.lanes x) → AreBelow (2 ^ W.PLACES) bits (W.lanes result) }
{
    let count = lane_count(W::PLACES);
    let mut wide = W::zero();
    for r in 0..count {
        let lane = from + r;
        let number = x.get(lane);
        wide = wide.with(r, number);
    }
    wide
}

/// How many lanes a vector has.
#[inline(always)]
fn lane_count(places: u32) -> usize
    requires { places ≤ 4 }
    ensures { result ≡ 2 ^ places }
{
    1usize << places
}

/// A block's numbers from lane `from` on, as many as a block of wider lanes has.
#[inline(always)]
fn wider_block<N: Vector, W: Vector>(x: &Block<N>, from: usize) -> Block<W>
    requires from { from + 2 ^ W.PLACES ≤ 2 ^ N.PLACES }
    requires room { N.ROOM ≤ W.ROOM }
    requires block { IsBlock N.lanes (2 ^ N.PLACES) N.ROOM x.now }
    ensures lanes { (r : ℕ) → r < 2 ^ W.PLACES → lane W.lanes r result ≡ lane N.lanes (from + r) x.now }
    ensures block { (bits : ℕ) → IsBlock N.lanes (2 ^ N.PLACES) bits x.now → IsBlock W.lanes (2 ^ W.PLACES) bits result }
{
    Block {
        a: wider_lanes(x.a, from),
        b: wider_lanes(x.b, from),
        c: wider_lanes(x.c, from),
        d: wider_lanes(x.d, from),
    }
}

/// The narrower block that has the numbers of wider block `k`, where a narrower block has those of 2^split wider ones.
#[inline(always)]
fn narrower_index(k: usize, split: u32) -> usize
    requires { split ≤ 4 }
    ensures { result ≡ k / 2 ^ split }
{
    k >> split
}

/// The lane of it that has the first of them.
#[inline(always)]
fn first_lane(k: usize, split: u32, places: u32) -> usize
    requires split { split ≤ 4 }
    requires places { places ≤ 4 }
    ensures { result ≡ k % 2 ^ split * 2 ^ places }
{
    k % lane_count(split) * lane_count(places)
}

/// Writes the numbers of the blocks into the blocks of wider lanes.
pub(crate) fn widen<N: Vector, W: Vector>(narrow: &[Block<N>], wide: &mut [Block<W>], qubits: u32)
    requires places { W.PLACES ≤ N.PLACES }
    requires room { N.ROOM ≤ W.ROOM }
    requires blocks { AreBlocksOf N.lanes N.PLACES qubits narrow.now }
    requires bounded { All (IsBlock N.lanes (2 ^ N.PLACES) N.ROOM) narrow.now }
    requires wide { length wide.old ≡ 2 ^ (qubits - W.PLACES) }
    ensures blocks { AreBlocksOf W.lanes W.PLACES qubits wide.new }
    ensures bounded { (bits : ℕ) → All (IsBlock N.lanes (2 ^ N.PLACES) bits) narrow.now → All (IsBlock W.lanes (2 ^ W.PLACES) bits) wide.new }
    ensures numbers { first_numbers W.lanes W.PLACES qubits wide.new ≡ first_numbers N.lanes N.PLACES qubits narrow.now }
{
    let places = W::PLACES;
    let narrow_places = N::PLACES;
    let split = narrow_places - places;
    for k in 0..wide.len() {
        let at = narrower_index(k, split);
        let from = first_lane(k, split, places);
        wide[k] = wider_block(&narrow[at], from);
    }
}

/// Becomes the numbers of the narrower blocks, for which there is memory.
pub(crate) fn widen_onto<N: Vector, W: Vector>(
    v: &mut Vec<Block<W>>,
    narrow: &[Block<N>],
    qubits: u32,
    _bits: u32,
)
    requires places { W.PLACES ≤ N.PLACES }
    requires room { N.ROOM ≤ W.ROOM }
    requires held { AreHeld N.lanes N.PLACES N.ROOM qubits _bits narrow.now }
    requires space { 2 ^ (qubits - W.PLACES) ≤ vec_capacity v.old }
    ensures held { AreHeld W.lanes W.PLACES W.ROOM qubits _bits v.new.items }
    ensures space { vec_capacity v.old ≤ vec_capacity v.new }
    ensures numbers { first_numbers W.lanes W.PLACES qubits v.new.items ≡ first_numbers N.lanes N.PLACES qubits narrow.now }
{
    if narrow.is_empty() {
        v.clear();
        return;
    }
    let zero = W::zero();
    let zeros = Block {
        a: zero,
        b: zero,
        c: zero,
        d: zero,
    };
    let _ = v.resize(block_count(qubits, W::PLACES), zeros);
    widen(narrow, v, qubits);
}
