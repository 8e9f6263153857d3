//! A block of numbers, one in each lane.
ghost use Rattle.std.specs.Prelude.{◌≡◌, ◌<◌, ◌≤◌, ◌+◌, ◌^◌, ℕ, IfOk, All, length};
ghost use Rattle.qh_limits.specs.Limits.{max_part_qubits};
ghost use Rattle.qh_ring.specs.Numbers.{nothing};
ghost use Rattle.qh_ring.specs.States.{ground, listed};
ghost use Rattle.qh_blocks.specs.Blocks.{lane, IsBlock};
ghost use Rattle.qh_blocks.specs.Numbers.{numbers};

use crate::groups::stride_of;
use qh_kernel::Vector;
use std::alloc::{AllocError, Global};

/// Numbers a + bω + cω² + dω³.
#[derive(Copy)]
pub struct Block<V> {
    pub a: V,
    pub b: V,
    pub c: V,
    pub d: V,
}

impl<V: Copy> Clone for Block<V> {
    ghost is_clone = { λ x y. y ≡ x };

    fn clone(&self) -> Result<Block<V>, AllocError> {
        Ok(*self)
    }
}

/// 0 in each lane.
#[inline(always)]
pub(crate) fn nothing_block<V: Vector>() -> Block<V>
    ensures lanes { (r : ℕ) → r < 2 ^ V.PLACES → lane V.lanes r result ≡ nothing }
    ensures block { (bits : ℕ) → IsBlock V.lanes (2 ^ V.PLACES) bits result }
{
    let zero = V::zero();
    Block {
        a: zero,
        b: zero,
        c: zero,
        d: zero,
    }
}

/// 1 in lane 0, and 0 in the others.
pub(crate) fn ground_block<V: Vector>() -> Block<V>
    ensures lanes { (r : ℕ) → r < 2 ^ V.PLACES → lane V.lanes r result ≡ ground r }
    ensures block { IsBlock V.lanes (2 ^ V.PLACES) 1 result }
{
    let zero = V::zero();
    Block {
        a: zero.with(0, 1),
        b: zero,
        c: zero,
        d: zero,
    }
}

/// The 2^qubits blocks of the state with all qubits 0: 1 in lane 0 of block 0, and 0 elsewhere.
pub fn ground_blocks<V: Vector>(alloc: Global, qubits: u32) -> Result<Vec<Block<V>>, AllocError>
    requires { qubits ≤ max_part_qubits }
    ensures numbers { IfOk result (λ v. numbers V.lanes V.PLACES v.items ≡ listed (qubits + V.PLACES) ground) }
    ensures bounded { IfOk result (λ v. All (IsBlock V.lanes (2 ^ V.PLACES) 1) v.items) }
    ensures len { IfOk result (λ v. length v.items ≡ 2 ^ qubits) }
{
    let mut blocks = vec![in alloc; nothing_block(); stride_of(qubits)]?;
    blocks[0] = ground_block();
    Ok(blocks)
}
