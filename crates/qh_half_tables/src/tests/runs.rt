//! Runs tile by tile beside the same turns one by one over all blocks.
ghost use Rattle.std.specs.Prelude.{◌≡◌, ◌≤◌, ◌<◌, ◌+◌, ◌^◌, All, length, IsTrue, IfSome};
ghost use Rattle.qh_limits.specs.Limits.{max_part_qubits};
ghost use Rattle.qh_blocks.specs.Blocks.{IsBlock};
ghost use Rattle.qh_passes.specs.Turns.{IsTurnIn, width_turned, width_after_turns};

use super::turns::is_turn_in;
use qh_blocks::{Block, ground_blocks};
use qh_kernel::Vector;
use qh_passes::{Turn, apply_run, apply1, apply2};
use qh_ring::{Entry, Mat2, Mat4};
use std::alloc::{AllocError, Global};
use std::simd::i16x16;
use std::test::Fail;

const O: Entry = Entry::Zero;

const P0: Entry = Entry::Unit(0);

const P1: Entry = Entry::Unit(1);

const P2: Entry = Entry::Unit(2);

const P4: Entry = Entry::Unit(4);

const P7: Entry = Entry::Unit(7);

/// The matrix of h.
const H: Mat2 = Mat2 {
    rows: [[P0, P0], [P0, P4]],
};

/// The matrix of x_1_2.
const X: Mat2 = Mat2 {
    rows: [[P1, P7], [P7, P1]],
};

/// The matrix of t.
const T: Mat2 = Mat2 {
    rows: [[P0, O], [O, P1]],
};

/// The matrix of cnot.
const CNOT: Mat4 = Mat4 {
    rows: [[P0, O, O, O], [O, P0, O, O], [O, O, O, P0], [O, O, P0, O]],
};

/// The matrix of is.
const IS: Mat4 = Mat4 {
    rows: [[P0, O, O, O], [O, O, P2, O], [O, P2, O, O], [O, O, O, P0]],
};

fn one(matrix: Mat2, qubit: u32) -> Turn {
    Turn::One { matrix, qubit }
}

fn two(matrix: Mat4, first: u32, second: u32) -> Turn {
    Turn::Two {
        matrix,
        first,
        second,
    }
}

/// A turn over all blocks by its own kernel.
fn step<V: Vector>(v: &mut [Block<V>], qubits: u32, bits: u32, turn: &Turn)
    requires few { qubits ≤ max_part_qubits }
    requires blocks { length v.old ≡ 2 ^ qubits }
    requires turn { IsTurnIn (qubits + V.PLACES) turn.now }
    requires room { bits < V.ROOM }
    requires bounded { All (IsBlock V.lanes (2 ^ V.PLACES) bits) v.old }
    ensures bounded { All (IsBlock V.lanes (2 ^ V.PLACES) (width_turned turn.now bits)) v.new }
    ensures len { length v.new ≡ length v.old }
{
    match *turn {
        Turn::One { matrix, qubit } => apply1(v, qubits, qubit, bits, &matrix),
        Turn::Two {
            matrix,
            first,
            second,
        } => apply2(v, qubits, first, second, bits, &matrix),
    }
}

/// The turns one after another, each over all blocks, and the bound after them. None where one of them is not for these
/// blocks.
fn one_by_one<V: Vector>(v: &mut [Block<V>], qubits: u32, bits: u32, run: &[Turn]) -> Option<u32>
    requires few { qubits ≤ max_part_qubits }
    requires blocks { length v.old ≡ 2 ^ qubits }
    requires room { bits < V.ROOM }
    requires bounded { All (IsBlock V.lanes (2 ^ V.PLACES) bits) v.old }
    ensures len { length v.new ≡ length v.old }
    ensures bounded { IfSome result (λ n. All (IsBlock V.lanes (2 ^ V.PLACES) n) v.new) }
    ensures room { IfSome result (λ n. n < V.ROOM) }
{
    let mut bound = bits;
    for turn in run {
        if !is_turn_in(turn, qubits + V::PLACES) {
            return None;
        }
        let next = turn.width_after(bound);
        if next >= V::ROOM {
            return None;
        }
        step(v, qubits, bound, turn);
        bound = next;
    }
    Some(bound)
}

/// Whether each turn is within a tile and leaves room.
fn fits<V: Vector>(tile: u32, bits: u32, run: &[Turn]) -> bool
    requires tile { tile ≤ max_part_qubits }
    requires room { bits < V.ROOM }
    ensures turns { IsTrue result → All (IsTurnIn (tile + V.PLACES)) run.now }
    ensures room { IsTrue result → width_after_turns run.now bits < V.ROOM }
{
    let mut bound = bits;
    for turn in run {
        if !is_turn_in(turn, tile + V::PLACES) {
            return false;
        }
        bound = turn.width_after(bound);
        if bound >= V::ROOM {
            return false;
        }
    }
    true
}

/// The run tile by tile, where it fits.
fn tile_by_tile<V: Vector>(
    v: &mut [Block<V>],
    qubits: u32,
    tile: u32,
    bits: u32,
    run: &[Turn],
) -> bool
    requires few { qubits ≤ max_part_qubits }
    requires blocks { length v.old ≡ 2 ^ qubits }
    requires tile { tile ≤ qubits }
    requires room { bits < V.ROOM }
    requires bounded { All (IsBlock V.lanes (2 ^ V.PLACES) bits) v.old }
{
    if !fits::<V>(tile, bits, run) {
        return false;
    }
    apply_run(v, qubits, tile, bits, run);
    true
}

/// The blocks of 7 qubits that a first run makes of the ground state, and then another, tile by tile where a tile is told.
/// None where a turn does not fit.
fn after_both<V: Vector>(
    alloc: Global,
    first: &[Turn],
    second: &[Turn],
    tile: Option<u32>,
) -> Result<Option<Vec<Block<V>>>, AllocError>
    requires { IfSome tile (λ t. t ≤ 3) }
{
    let mut blocks = ground_blocks(alloc, 3)?;
    let Some(bits) = one_by_one(&mut blocks, 3, 1, first) else {
        return Ok(None);
    };
    let Some(tile) = tile else {
        let Some(_) = one_by_one(&mut blocks, 3, bits, second) else {
            return Ok(None);
        };
        return Ok(Some(blocks));
    };
    if !tile_by_tile(&mut blocks, 3, tile, bits, second) {
        return Ok(None);
    }
    Ok(Some(blocks))
}

fn is_same(x: &Block<i16x16>, y: &Block<i16x16>) -> bool {
    x.a == y.a && x.b == y.b && x.c == y.c && x.d == y.d
}

fn are_same(v: &[Block<i16x16>], w: &[Block<i16x16>]) -> bool {
    if v.len() != w.len() {
        return false;
    }
    for k in 0..v.len() {
        if !is_same(&v[k], &w[k]) {
            return false;
        }
    }
    true
}

/// Each tile of 2, 4 and all 8 blocks, with turns in and above the lanes.
#[test]
fn tile_by_tile_as_one_by_one(rt: HostRuntime) -> Result<(), Fail> {
    let first = [
        one(H, 0),
        one(H, 1),
        one(H, 2),
        one(H, 3),
        one(H, 4),
        one(H, 5),
        one(H, 6),
        one(T, 0),
        one(T, 3),
        one(T, 6),
        two(CNOT, 6, 1),
        one(X, 3),
        one(X, 5),
        one(T, 5),
        two(IS, 2, 6),
    ];
    let second = [
        one(H, 4),
        one(T, 4),
        two(CNOT, 4, 0),
        one(X, 1),
        two(IS, 3, 4),
        two(CNOT, 2, 3),
        one(H, 3),
    ];
    let Some(want) = after_both::<i16x16>(rt.alloc(), &first, &second, None)? else {
        panic!(rt; "a turn does not fit");
    };
    for tile in 1..4 {
        let Some(got) = after_both::<i16x16>(rt.alloc(), &first, &second, Some(tile))? else {
            panic!(rt; "a turn does not fit a tile of 2^{tile} blocks");
        };
        assert!(rt; are_same(&want, &got), "tiles of 2^{tile} blocks");
    }
    Ok(())
}
