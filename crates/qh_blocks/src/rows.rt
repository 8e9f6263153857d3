//! What a row of a matrix makes of blocks.
ghost use Rattle.std.specs.Prelude.{◌≡◌, ◌<◌, ◌≤◌, ◌+◌, ◌^◌, ℕ, IsTrue, slice_index_or};
ghost use Rattle.std.specs.List.{list_all};
ghost use Rattle.qh_ring.specs.Numbers.{product, sum, unit_power};
ghost use Rattle.qh_ring.specs.Matrices.{number_of};
ghost use Rattle.qh_ring.specs.States.{sum_below};
ghost use Rattle.qh_ring.specs.Units.{is_unit};
ghost use Rattle.qh_kernel.specs.Rows.{row_sum2, is_single};
ghost use Rattle.qh_blocks.specs.Blocks.{lane, negative, IsBlock};
ghost use Rattle.qh_blocks.specs.Numbers.{one_of_four};
ghost use Rattle.qh_blocks.specs.Widths.{row_width};

use crate::block::{Block, nothing_block};
use qh_kernel::Vector;
use qh_ring::Entry;

/// Each number negated.
#[inline(always)]
pub(crate) fn negated<V: Vector>(x: &Block<V>, bits: u32) -> Block<V>
    requires room { bits < V.ROOM }
    requires block { IsBlock V.lanes (2 ^ V.PLACES) bits x.now }
    ensures lanes { (r : ℕ) → r < 2 ^ V.PLACES → lane V.lanes r result ≡ negative (lane V.lanes r x.now) }
    ensures block { IsBlock V.lanes (2 ^ V.PLACES) bits result }
{
    Block {
        a: x.a.negated(bits),
        b: x.b.negated(bits),
        c: x.c.negated(bits),
        d: x.d.negated(bits),
    }
}

/// Each number times ω^j.
#[inline(always)]
pub(crate) fn turned<V: Vector>(x: &Block<V>, bits: u32, j: u8) -> Block<V>
    requires room { bits < V.ROOM }
    requires block { IsBlock V.lanes (2 ^ V.PLACES) bits x.now }
    requires unit { j < 8 }
    ensures lanes { (r : ℕ) → r < 2 ^ V.PLACES → lane V.lanes r result ≡ product (unit_power j) (lane V.lanes r x.now) }
    ensures block { IsBlock V.lanes (2 ^ V.PLACES) bits result }
{
    let n = negated(x, bits);
    match j {
        0 => Block {
            a: x.a,
            b: x.b,
            c: x.c,
            d: x.d,
        },
        1 => Block {
            a: n.d,
            b: x.a,
            c: x.b,
            d: x.c,
        },
        2 => Block {
            a: n.c,
            b: n.d,
            c: x.a,
            d: x.b,
        },
        3 => Block {
            a: n.b,
            b: n.c,
            c: n.d,
            d: x.a,
        },
        4 => n,
        5 => Block {
            a: x.d,
            b: n.a,
            c: n.b,
            d: n.c,
        },
        6 => Block {
            a: x.c,
            b: x.d,
            c: n.a,
            d: n.b,
        },
        _ => Block {
            a: x.b,
            b: x.c,
            c: x.d,
            d: n.a,
        },
    }
}

/// The sums of the numbers of two blocks.
#[inline(always)]
pub(crate) fn sum_of<V: Vector>(x: &Block<V>, y: &Block<V>, bits: u32) -> Block<V>
    requires room { bits < V.ROOM }
    requires x_block { IsBlock V.lanes (2 ^ V.PLACES) bits x.now }
    requires y_block { IsBlock V.lanes (2 ^ V.PLACES) bits y.now }
    ensures lanes { (r : ℕ) → r < 2 ^ V.PLACES → lane V.lanes r result ≡ sum (lane V.lanes r x.now) (lane V.lanes r y.now) }
    ensures block { IsBlock V.lanes (2 ^ V.PLACES) (bits + 1) result }
{
    Block {
        a: x.a.plus(y.a, bits),
        b: x.b.plus(y.b, bits),
        c: x.c.plus(y.c, bits),
        d: x.d.plus(y.d, bits),
    }
}

/// Each number times an entry of a matrix.
#[inline(always)]
pub(crate) fn entry_times<V: Vector>(x: &Block<V>, bits: u32, entry: Entry) -> Block<V>
    requires room { bits < V.ROOM }
    requires block { IsBlock V.lanes (2 ^ V.PLACES) bits x.now }
    requires unit { IsTrue (is_unit entry) }
    ensures lanes { (r : ℕ) → r < 2 ^ V.PLACES → lane V.lanes r result ≡ product (number_of entry) (lane V.lanes r x.now) }
    ensures block { IsBlock V.lanes (2 ^ V.PLACES) bits result }
{
    match entry {
        Entry::Zero => nothing_block(),
        Entry::Unit(power) => turned(x, bits, power),
    }
}

/// What a row of two entries makes of a pair.
#[inline(always)]
pub(crate) fn pair_row<V: Vector>(
    x: &Block<V>,
    y: &Block<V>,
    bits: u32,
    first: Entry,
    second: Entry,
) -> Block<V>
    requires room { bits < V.ROOM }
    requires x_block { IsBlock V.lanes (2 ^ V.PLACES) bits x.now }
    requires y_block { IsBlock V.lanes (2 ^ V.PLACES) bits y.now }
    requires first_unit { IsTrue (is_unit first) }
    requires second_unit { IsTrue (is_unit second) }
    ensures lanes { (r : ℕ) → r < 2 ^ V.PLACES → lane V.lanes r result ≡ row_sum2 (number_of first) (number_of second) (lane V.lanes r x.now) (lane V.lanes r y.now) }
    ensures block { IsBlock V.lanes (2 ^ V.PLACES) (row_width first second bits) result }
{
    let Entry::Unit(i) = first else {
        return entry_times(y, bits, second);
    };
    let Entry::Unit(j) = second else {
        return turned(x, bits, i);
    };
    sum_of(&turned(x, bits, i), &turned(y, bits, j), bits)
}

/// Of four blocks the one at the row's only entry, and the entry's power.
#[inline(always)]
fn only_of<V: Vector>(
    row: &[Entry; 4],
    x: &Block<V>,
    y: &Block<V>,
    z: &Block<V>,
    t: &Block<V>,
    bits: u32,
) -> (Block<V>, u8)
    requires units { IsTrue (list_all is_unit row.now) }
    requires single { IsTrue (is_single row.now) }
    requires x_block { IsBlock V.lanes (2 ^ V.PLACES) bits x.now }
    requires y_block { IsBlock V.lanes (2 ^ V.PLACES) bits y.now }
    requires z_block { IsBlock V.lanes (2 ^ V.PLACES) bits z.now }
    requires t_block { IsBlock V.lanes (2 ^ V.PLACES) bits t.now }
    ensures lanes { (r : ℕ) → r < 2 ^ V.PLACES → product (unit_power result.1) (lane V.lanes r result.0) ≡ sum_below 4 (λ c. product (number_of (slice_index_or row.now c Entry.Zero)) (one_of_four (lane V.lanes r x.now) (lane V.lanes r y.now) (lane V.lanes r z.now) (lane V.lanes r t.now) c)) }
    ensures unit { result.1 < 8 }
    ensures block { IsBlock V.lanes (2 ^ V.PLACES) bits result.0 }
{
    if let Entry::Unit(power) = row[0] {
        return (*x, power);
    }
    if let Entry::Unit(power) = row[1] {
        return (*y, power);
    }
    if let Entry::Unit(power) = row[2] {
        return (*z, power);
    }
    if let Entry::Unit(power) = row[3] {
        return (*t, power);
    }
    (nothing_block(), 0)
}

/// What a row with at most one entry makes of four blocks.
#[inline(always)]
pub(crate) fn quad_row<V: Vector>(
    row: &[Entry; 4],
    x: &Block<V>,
    y: &Block<V>,
    z: &Block<V>,
    t: &Block<V>,
    bits: u32,
) -> Block<V>
    requires units { IsTrue (list_all is_unit row.now) }
    requires single { IsTrue (is_single row.now) }
    requires room { bits < V.ROOM }
    requires x_block { IsBlock V.lanes (2 ^ V.PLACES) bits x.now }
    requires y_block { IsBlock V.lanes (2 ^ V.PLACES) bits y.now }
    requires z_block { IsBlock V.lanes (2 ^ V.PLACES) bits z.now }
    requires t_block { IsBlock V.lanes (2 ^ V.PLACES) bits t.now }
    ensures lanes { (r : ℕ) → r < 2 ^ V.PLACES → lane V.lanes r result ≡ sum_below 4 (λ c. product (number_of (slice_index_or row.now c Entry.Zero)) (one_of_four (lane V.lanes r x.now) (lane V.lanes r y.now) (lane V.lanes r z.now) (lane V.lanes r t.now) c)) }
    ensures block { IsBlock V.lanes (2 ^ V.PLACES) bits result }
{
    let (source, power) = only_of(row, x, y, z, t, bits);
    turned(&source, bits, power)
}
