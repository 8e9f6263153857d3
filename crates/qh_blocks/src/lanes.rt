//! Exchange and choice among the lanes of a block.
ghost use Rattle.std.specs.Prelude.{◌≡◌, ◌<◌, ◌≤◌, ◌+◌, ◌^◌, ℕ, [], ◌∷◌, length, All};
ghost use Rattle.qh_kernel.specs.Lanes.{flipped, chosen};
ghost use Rattle.qh_blocks.specs.Blocks.{lane, IsBlock};
ghost use Rattle.qh_blocks.specs.Numbers.{numbers};

use crate::block::Block;
use qh_kernel::Vector;

/// Each number's partner.
#[inline(always)]
pub(crate) fn partners<V: Vector>(x: &Block<V>, q: u32, bits: u32) -> Block<V>
    requires place { q < V.PLACES }
    requires room { bits ≤ V.ROOM }
    requires block { IsBlock V.lanes (2 ^ V.PLACES) bits x.now }
    ensures lanes { (r : ℕ) → r < 2 ^ V.PLACES → lane V.lanes r result ≡ lane V.lanes (flipped q r) x.now }
    ensures block { IsBlock V.lanes (2 ^ V.PLACES) bits result }
{
    Block {
        a: x.a.partner(q, bits),
        b: x.b.partner(q, bits),
        c: x.c.partner(q, bits),
        d: x.d.partner(q, bits),
    }
}

/// The numbers whose bit `q` is 0 of `low`, and the others of `high`.
#[inline(always)]
pub(crate) fn blended<V: Vector>(low: &Block<V>, high: &Block<V>, q: u32, bits: u32) -> Block<V>
    requires place { q < V.PLACES }
    requires room { bits ≤ V.ROOM }
    requires low_block { IsBlock V.lanes (2 ^ V.PLACES) bits low.now }
    requires high_block { IsBlock V.lanes (2 ^ V.PLACES) bits high.now }
    ensures lanes { (r : ℕ) → r < 2 ^ V.PLACES → lane V.lanes r result ≡ chosen q r (lane V.lanes r low.now) (lane V.lanes r high.now) }
    ensures block { (b : ℕ) → IsBlock V.lanes (2 ^ V.PLACES) b low.now → IsBlock V.lanes (2 ^ V.PLACES) b high.now → IsBlock V.lanes (2 ^ V.PLACES) b result }
{
    Block {
        a: low.a.blended(high.a, q, bits),
        b: low.b.blended(high.b, q, bits),
        c: low.c.blended(high.c, q, bits),
        d: low.d.blended(high.d, q, bits),
    }
}
