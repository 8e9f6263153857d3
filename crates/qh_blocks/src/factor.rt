//! A factor √2^n that all numbers of the blocks have in common.
ghost use Rattle.std.specs.Prelude.{◌≡◌, ◌<◌, ◌≤◌, ◌+◌, ◌-◌, ◌^◌, ℕ, All, IsTrue, IsFalse};
ghost use Rattle.qh_ring.specs.Numbers.{times_root};
ghost use Rattle.qh_blocks.specs.Blocks.{lane, IsBlock};
ghost use Rattle.qh_blocks.specs.Factors.{AreEven, HasFactor};

use crate::block::Block;
use crate::groups::block_at;
use crate::rows::negated;
use qh_kernel::Vector;

/// Each number, or √2 times it where `roots` is 1.
#[inline(always)]
fn grown<V: Vector>(x: &Block<V>, bits: u32, roots: u32) -> Block<V>
    requires roots { roots ≤ 1 }
    requires room { bits < V.ROOM }
    requires block { IsBlock V.lanes (2 ^ V.PLACES) bits x.now }
    ensures lanes { (r : ℕ) → r < 2 ^ V.PLACES → lane V.lanes r result ≡ times_root roots (lane V.lanes r x.now) }
    ensures block { IsBlock V.lanes (2 ^ V.PLACES) (bits + 1) result }
{
    if roots == 0 {
        return *x;
    }
    let n = negated(x, bits);
    Block {
        a: x.b.plus(n.d, bits),
        b: x.a.plus(x.c, bits),
        c: x.b.plus(x.d, bits),
        d: x.c.plus(n.a, bits),
    }
}

/// Whether each coefficient is even.
#[inline(always)]
fn is_even<V: Vector>(x: &Block<V>) -> bool
    requires { IsBlock V.lanes (2 ^ V.PLACES) V.ROOM x.now }
    ensures { IsTrue result → AreEven V.lanes (2 ^ V.PLACES) 0 x.now }
{
    if !x.a.is_even() {
        return false;
    }
    if !x.b.is_even() {
        return false;
    }
    if !x.c.is_even() {
        return false;
    }
    x.d.is_even()
}

/// Half of each number, all of whose coefficients are even.
#[inline(always)]
fn half_of<V: Vector>(x: &Block<V>, bits: u32) -> Block<V>
    requires room { bits < V.ROOM }
    requires block { IsBlock V.lanes (2 ^ V.PLACES) (bits + 1) x.now }
    requires even { AreEven V.lanes (2 ^ V.PLACES) 0 x.now }
    ensures lanes { (r : ℕ) → r < 2 ^ V.PLACES → times_root 2 (lane V.lanes r result) ≡ lane V.lanes r x.now }
    ensures block { IsBlock V.lanes (2 ^ V.PLACES) bits result }
{
    let wide = bits + 1;
    Block {
        a: x.a.halved(wide),
        b: x.b.halved(wide),
        c: x.c.halved(wide),
        d: x.d.halved(wide),
    }
}

/// Whether all numbers can be divided by √2^(2 - roots).
#[inline(always)]
fn are_divisible<V: Vector>(v: &[Block<V>], bits: u32, roots: u32) -> bool
    requires roots { roots ≤ 1 }
    requires room { bits < V.ROOM }
    requires bounded { All (IsBlock V.lanes (2 ^ V.PLACES) bits) v.now }
    ensures { IsTrue result → All (AreEven V.lanes (2 ^ V.PLACES) roots) v.now }
{
    for k in 0..v.len() {
        let x = block_at(v, k);
        if !is_even(&grown(&x, bits, roots)) {
            return false;
        }
    }
    true
}

/// Divides all numbers by √2^(2 - roots).
#[inline(always)]
fn divide<V: Vector>(v: &mut [Block<V>], bits: u32, roots: u32)
    requires roots { roots ≤ 1 }
    requires room { bits < V.ROOM }
    requires bounded { All (IsBlock V.lanes (2 ^ V.PLACES) bits) v.old }
    requires even { All (AreEven V.lanes (2 ^ V.PLACES) roots) v.old }
    ensures factor { HasFactor V.lanes V.PLACES (2 - roots) v.old v.new }
    ensures bounded { All (IsBlock V.lanes (2 ^ V.PLACES) bits) v.new }
{
    for k in 0..v.len() {
        let x = block_at(v, k);
        v[k] = half_of(&grown(&x, bits, roots), bits);
    }
}

/// Divides all numbers by 2 where each can be, and tells whether.
fn take_two<V: Vector>(v: &mut [Block<V>], bits: u32) -> bool
    requires room { bits < V.ROOM }
    requires bounded { All (IsBlock V.lanes (2 ^ V.PLACES) bits) v.old }
    ensures factor { IsTrue result → HasFactor V.lanes V.PLACES 2 v.old v.new }
    ensures same { IsFalse result → v.new ≡ v.old }
    ensures bounded { All (IsBlock V.lanes (2 ^ V.PLACES) bits) v.new }
{
    if !are_divisible(v, bits, 0) {
        return false;
    }
    divide(v, bits, 0);
    true
}

/// Divides all numbers by √2 where each can be, and tells whether.
fn take_root<V: Vector>(v: &mut [Block<V>], bits: u32) -> bool
    requires room { bits < V.ROOM }
    requires bounded { All (IsBlock V.lanes (2 ^ V.PLACES) bits) v.old }
    ensures factor { IsTrue result → HasFactor V.lanes V.PLACES 1 v.old v.new }
    ensures same { IsFalse result → v.new ≡ v.old }
    ensures bounded { All (IsBlock V.lanes (2 ^ V.PLACES) bits) v.new }
{
    if !are_divisible(v, bits, 1) {
        return false;
    }
    divide(v, bits, 1);
    true
}

/// Divides all numbers by 2 as often as each can be, at most `most` times, and tells how often.
fn take_twos<V: Vector>(v: &mut [Block<V>], bits: u32, most: u32) -> u32
    requires room { bits < V.ROOM }
    requires bounded { All (IsBlock V.lanes (2 ^ V.PLACES) bits) v.old }
    ensures few { result ≤ most }
    ensures factor { HasFactor V.lanes V.PLACES (result + result) v.old v.new }
    ensures bounded { All (IsBlock V.lanes (2 ^ V.PLACES) bits) v.new }
{
    for count in 0..most {
        if !take_two(v, bits) {
            return count;
        }
    }
    most
}

/// Takes a common factor √2^n out of all numbers, n at most `most`, and tells n. It goes over the blocks twice for each
/// factor 2 that it takes, and as often for the last √2; where it takes none it ends at the first block that tells so.
pub fn take_roots<V: Vector>(v: &mut [Block<V>], bits: u32, most: u32) -> u32
    requires room { bits < V.ROOM }
    requires bounded { All (IsBlock V.lanes (2 ^ V.PLACES) bits) v.old }
    ensures few { result ≤ most }
    ensures factor { HasFactor V.lanes V.PLACES result v.old v.new }
    ensures bounded { All (IsBlock V.lanes (2 ^ V.PLACES) bits) v.new }
{
    let count = take_twos(v, bits, most / 2);
    let taken = count * 2;
    if taken == most {
        return taken;
    }
    if take_root(v, bits) {
        return taken + 1;
    }
    taken
}
