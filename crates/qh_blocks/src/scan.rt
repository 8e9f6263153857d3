//! The true bound of a state.
ghost use Rattle.std.specs.Prelude.{◌≡◌, ◌<◌, ◌≤◌, ◌^◌, ℕ, length, All};
ghost use Rattle.qh_kernel.specs.Lanes.{AreBelow};
ghost use Rattle.qh_blocks.specs.Blocks.{IsBlock};

use crate::block::Block;
use qh_kernel::Vector;

/// The greatest magnitude of a coefficient, in each lane.
#[inline(always)]
fn block_larger<V: Vector>(x: &Block<V>) -> V
    requires { IsBlock V.lanes (2 ^ V.PLACES) V.ROOM x.now }
    ensures above { (b : ℕ) → IsBlock V.lanes (2 ^ V.PLACES) b x.now → AreBelow (2 ^ V.PLACES) b (V.lanes result) }
    ensures below { (b : ℕ) → AreBelow (2 ^ V.PLACES) b (V.lanes result) → IsBlock V.lanes (2 ^ V.PLACES) b x.now }
{
    let first = x.a.larger(x.b);
    let second = x.c.larger(x.d);
    first.larger(second)
}

/// The greatest magnitude of a coefficient.
#[inline(always)]
pub(crate) fn block_most<V: Vector>(x: &Block<V>) -> u64
    requires { IsBlock V.lanes (2 ^ V.PLACES) V.ROOM x.now }
    ensures most { (b : ℕ) → result < 2 ^ b → IsBlock V.lanes (2 ^ V.PLACES) b x.now }
    ensures least { (b : ℕ) → IsBlock V.lanes (2 ^ V.PLACES) b x.now → result < 2 ^ b }
{
    block_larger(x).most()
}

/// The least number of bits for a magnitude.
fn bits_for(most: u64) -> u32
    requires { most < 2 ^ 63 }
    ensures enough { most < 2 ^ result }
    ensures least { (b : ℕ) → most < 2 ^ b → result ≤ b }
{
    for bits in 0..63u32 {
        if most < 1u64 << bits {
            return bits;
        }
    }
    63
}

/// The least bound of all coefficients, in bits.
pub fn bits_of<V: Vector>(v: &[Block<V>]) -> u32
    requires { All (IsBlock V.lanes (2 ^ V.PLACES) V.ROOM) v.now }
    ensures bounded { All (IsBlock V.lanes (2 ^ V.PLACES) result) v.now }
    ensures least { (b : ℕ) → All (IsBlock V.lanes (2 ^ V.PLACES) b) v.now → result ≤ b }
{
    let mut most = V::zero();
    for k in 0..v.len() {
        most = most.larger(block_larger(&v[k]));
    }
    bits_for(most.most())
}
