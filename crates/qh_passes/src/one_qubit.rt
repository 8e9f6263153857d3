//! A matrix on one qubit, with code of its own for each usual gate and for each place in the lanes.
ghost use Rattle.std.specs.Prelude.{◌≡◌, ◌^◌, ◌+◌, ◌<◌, ◌≤◌, [], ◌∷◌, length, All, IsTrue};
ghost use Rattle.qh_limits.specs.Limits.{max_part_qubits};
ghost use Rattle.qh_ring.specs.Matrices.{number_in};
ghost use Rattle.qh_ring.specs.States.{applied_list};
ghost use Rattle.qh_ring.specs.Units.{are_units};
ghost use Rattle.qh_blocks.specs.Blocks.{IsBlock};
ghost use Rattle.qh_blocks.specs.Numbers.{numbers};
ghost use Rattle.qh_blocks.specs.Widths.{two_rows, width_after};
ghost use Rattle.qh_passes.specs.Passes.{AreBlocks, IsPassed};

use qh_blocks::{Block, lane_blocks, pair_blocks};
use qh_kernel::Vector;
use qh_ring::{Entry, Mat2};

/// `pair_blocks`, with all that it promises in one fact.
#[inline(always)]
fn pair_passed<V: Vector>(
    v: &mut [Block<V>],
    qubits: u32,
    q: u32,
    bits: u32,
    first: Entry,
    second: Entry,
    third: Entry,
    fourth: Entry,
)
    requires blocks { AreBlocks V.lanes V.PLACES V.ROOM qubits bits v.old }
    requires qubit { q < qubits }
    requires units { IsTrue (are_units (two_rows first second third fourth)) }
    ensures { IsPassed V.lanes V.PLACES (two_rows first second third fourth) ((q + V.PLACES) ∷ []) (width_after (two_rows first second third fourth) bits) v.old v.new }
{
    pair_blocks(v, qubits, q, bits, first, second, third, fourth);
}

/// `pair_blocks`, with code of its own for each usual gate whose rows have two entries.
fn pairs_added<V: Vector>(
    v: &mut [Block<V>],
    qubits: u32,
    q: u32,
    bits: u32,
    first: Entry,
    second: Entry,
    third: Entry,
    fourth: Entry,
)
    requires blocks { AreBlocks V.lanes V.PLACES V.ROOM qubits bits v.old }
    requires qubit { q < qubits }
    requires units { IsTrue (are_units (two_rows first second third fourth)) }
    ensures { IsPassed V.lanes V.PLACES (two_rows first second third fourth) ((q + V.PLACES) ∷ []) (width_after (two_rows first second third fourth) bits) v.old v.new }
{
    match (first, second, third, fourth) {
        (Entry::Unit(0), Entry::Unit(0), Entry::Unit(0), Entry::Unit(4)) => pair_passed(
            v,
            qubits,
            q,
            bits,
            Entry::Unit(0),
            Entry::Unit(0),
            Entry::Unit(0),
            Entry::Unit(4),
        ),
        (Entry::Unit(1), Entry::Unit(7), Entry::Unit(7), Entry::Unit(1)) => pair_passed(
            v,
            qubits,
            q,
            bits,
            Entry::Unit(1),
            Entry::Unit(7),
            Entry::Unit(7),
            Entry::Unit(1),
        ),
        (Entry::Unit(1), Entry::Unit(5), Entry::Unit(1), Entry::Unit(1)) => pair_passed(
            v,
            qubits,
            q,
            bits,
            Entry::Unit(1),
            Entry::Unit(5),
            Entry::Unit(1),
            Entry::Unit(1),
        ),
        (Entry::Unit(1), Entry::Unit(6), Entry::Unit(0), Entry::Unit(1)) => pair_passed(
            v,
            qubits,
            q,
            bits,
            Entry::Unit(1),
            Entry::Unit(6),
            Entry::Unit(0),
            Entry::Unit(1),
        ),
        _ => pairs_moved(v, qubits, q, bits, first, second, third, fourth),
    }
}

/// `pair_blocks`, with code of its own for each usual gate whose rows have at most one entry.
fn pairs_moved<V: Vector>(
    v: &mut [Block<V>],
    qubits: u32,
    q: u32,
    bits: u32,
    first: Entry,
    second: Entry,
    third: Entry,
    fourth: Entry,
)
    requires blocks { AreBlocks V.lanes V.PLACES V.ROOM qubits bits v.old }
    requires qubit { q < qubits }
    requires units { IsTrue (are_units (two_rows first second third fourth)) }
    ensures { IsPassed V.lanes V.PLACES (two_rows first second third fourth) ((q + V.PLACES) ∷ []) (width_after (two_rows first second third fourth) bits) v.old v.new }
{
    match (first, second, third, fourth) {
        (Entry::Unit(0), Entry::Zero, Entry::Zero, Entry::Unit(0)) => pair_passed(
            v,
            qubits,
            q,
            bits,
            Entry::Unit(0),
            Entry::Zero,
            Entry::Zero,
            Entry::Unit(0),
        ),
        (Entry::Unit(0), Entry::Zero, Entry::Zero, Entry::Unit(1)) => pair_passed(
            v,
            qubits,
            q,
            bits,
            Entry::Unit(0),
            Entry::Zero,
            Entry::Zero,
            Entry::Unit(1),
        ),
        (Entry::Unit(0), Entry::Zero, Entry::Zero, Entry::Unit(2)) => pair_passed(
            v,
            qubits,
            q,
            bits,
            Entry::Unit(0),
            Entry::Zero,
            Entry::Zero,
            Entry::Unit(2),
        ),
        (Entry::Unit(0), Entry::Zero, Entry::Zero, Entry::Unit(4)) => pair_passed(
            v,
            qubits,
            q,
            bits,
            Entry::Unit(0),
            Entry::Zero,
            Entry::Zero,
            Entry::Unit(4),
        ),
        (Entry::Zero, Entry::Unit(0), Entry::Unit(0), Entry::Zero) => pair_passed(
            v,
            qubits,
            q,
            bits,
            Entry::Zero,
            Entry::Unit(0),
            Entry::Unit(0),
            Entry::Zero,
        ),
        (Entry::Zero, Entry::Unit(6), Entry::Unit(2), Entry::Zero) => pair_passed(
            v,
            qubits,
            q,
            bits,
            Entry::Zero,
            Entry::Unit(6),
            Entry::Unit(2),
            Entry::Zero,
        ),
        (Entry::Unit(0), Entry::Zero, Entry::Zero, Entry::Zero) => pair_passed(
            v,
            qubits,
            q,
            bits,
            Entry::Unit(0),
            Entry::Zero,
            Entry::Zero,
            Entry::Zero,
        ),
        (Entry::Zero, Entry::Zero, Entry::Zero, Entry::Unit(0)) => pair_passed(
            v,
            qubits,
            q,
            bits,
            Entry::Zero,
            Entry::Zero,
            Entry::Zero,
            Entry::Unit(0),
        ),
        _ => pair_passed(v, qubits, q, bits, first, second, third, fourth),
    }
}

/// `lane_blocks`, with all that it promises in one fact.
#[inline(always)]
fn lane_passed<V: Vector>(
    v: &mut [Block<V>],
    q: u32,
    bits: u32,
    first: Entry,
    second: Entry,
    third: Entry,
    fourth: Entry,
)
    requires place { q < V.PLACES }
    requires units { IsTrue (are_units (two_rows first second third fourth)) }
    requires room { bits < V.ROOM }
    requires bounded { All (IsBlock V.lanes (2 ^ V.PLACES) bits) v.old }
    ensures { IsPassed V.lanes V.PLACES (two_rows first second third fourth) (q ∷ []) (width_after (two_rows first second third fourth) bits) v.old v.new }
{
    lane_blocks(v, q, bits, first, second, third, fourth);
}

/// `lane_blocks`, with code of its own for each usual gate whose rows have two entries.
fn lanes_added<V: Vector, const Q: u32>(
    v: &mut [Block<V>],
    bits: u32,
    first: Entry,
    second: Entry,
    third: Entry,
    fourth: Entry,
)
    requires place { Q < V.PLACES }
    requires units { IsTrue (are_units (two_rows first second third fourth)) }
    requires room { bits < V.ROOM }
    requires bounded { All (IsBlock V.lanes (2 ^ V.PLACES) bits) v.old }
    ensures { IsPassed V.lanes V.PLACES (two_rows first second third fourth) (Q ∷ []) (width_after (two_rows first second third fourth) bits) v.old v.new }
{
    match (first, second, third, fourth) {
        (Entry::Unit(0), Entry::Unit(0), Entry::Unit(0), Entry::Unit(4)) => lane_passed(
            v,
            Q,
            bits,
            Entry::Unit(0),
            Entry::Unit(0),
            Entry::Unit(0),
            Entry::Unit(4),
        ),
        (Entry::Unit(1), Entry::Unit(7), Entry::Unit(7), Entry::Unit(1)) => lane_passed(
            v,
            Q,
            bits,
            Entry::Unit(1),
            Entry::Unit(7),
            Entry::Unit(7),
            Entry::Unit(1),
        ),
        (Entry::Unit(1), Entry::Unit(5), Entry::Unit(1), Entry::Unit(1)) => lane_passed(
            v,
            Q,
            bits,
            Entry::Unit(1),
            Entry::Unit(5),
            Entry::Unit(1),
            Entry::Unit(1),
        ),
        (Entry::Unit(1), Entry::Unit(6), Entry::Unit(0), Entry::Unit(1)) => lane_passed(
            v,
            Q,
            bits,
            Entry::Unit(1),
            Entry::Unit(6),
            Entry::Unit(0),
            Entry::Unit(1),
        ),
        _ => lanes_moved::<V, Q>(v, bits, first, second, third, fourth),
    }
}

/// `lane_blocks`, with code of its own for each usual gate whose rows have at most one entry.
fn lanes_moved<V: Vector, const Q: u32>(
    v: &mut [Block<V>],
    bits: u32,
    first: Entry,
    second: Entry,
    third: Entry,
    fourth: Entry,
)
    requires place { Q < V.PLACES }
    requires units { IsTrue (are_units (two_rows first second third fourth)) }
    requires room { bits < V.ROOM }
    requires bounded { All (IsBlock V.lanes (2 ^ V.PLACES) bits) v.old }
    ensures { IsPassed V.lanes V.PLACES (two_rows first second third fourth) (Q ∷ []) (width_after (two_rows first second third fourth) bits) v.old v.new }
{
    match (first, second, third, fourth) {
        (Entry::Unit(0), Entry::Zero, Entry::Zero, Entry::Unit(0)) => lane_passed(
            v,
            Q,
            bits,
            Entry::Unit(0),
            Entry::Zero,
            Entry::Zero,
            Entry::Unit(0),
        ),
        (Entry::Unit(0), Entry::Zero, Entry::Zero, Entry::Unit(1)) => lane_passed(
            v,
            Q,
            bits,
            Entry::Unit(0),
            Entry::Zero,
            Entry::Zero,
            Entry::Unit(1),
        ),
        (Entry::Unit(0), Entry::Zero, Entry::Zero, Entry::Unit(2)) => lane_passed(
            v,
            Q,
            bits,
            Entry::Unit(0),
            Entry::Zero,
            Entry::Zero,
            Entry::Unit(2),
        ),
        (Entry::Unit(0), Entry::Zero, Entry::Zero, Entry::Unit(4)) => lane_passed(
            v,
            Q,
            bits,
            Entry::Unit(0),
            Entry::Zero,
            Entry::Zero,
            Entry::Unit(4),
        ),
        (Entry::Zero, Entry::Unit(0), Entry::Unit(0), Entry::Zero) => lane_passed(
            v,
            Q,
            bits,
            Entry::Zero,
            Entry::Unit(0),
            Entry::Unit(0),
            Entry::Zero,
        ),
        (Entry::Zero, Entry::Unit(6), Entry::Unit(2), Entry::Zero) => lane_passed(
            v,
            Q,
            bits,
            Entry::Zero,
            Entry::Unit(6),
            Entry::Unit(2),
            Entry::Zero,
        ),
        (Entry::Unit(0), Entry::Zero, Entry::Zero, Entry::Zero) => lane_passed(
            v,
            Q,
            bits,
            Entry::Unit(0),
            Entry::Zero,
            Entry::Zero,
            Entry::Zero,
        ),
        (Entry::Zero, Entry::Zero, Entry::Zero, Entry::Unit(0)) => lane_passed(
            v,
            Q,
            bits,
            Entry::Zero,
            Entry::Zero,
            Entry::Zero,
            Entry::Unit(0),
        ),
        _ => lane_passed(v, Q, bits, first, second, third, fourth),
    }
}

/// The matrix of these entries on any qubit.
fn entries_on<V: Vector>(
    v: &mut [Block<V>],
    qubits: u32,
    q: u32,
    bits: u32,
    first: Entry,
    second: Entry,
    third: Entry,
    fourth: Entry,
)
    requires blocks { AreBlocks V.lanes V.PLACES V.ROOM qubits bits v.old }
    requires qubit { q < qubits + V.PLACES }
    requires units { IsTrue (are_units (two_rows first second third fourth)) }
    ensures { IsPassed V.lanes V.PLACES (two_rows first second third fourth) (q ∷ []) (width_after (two_rows first second third fourth) bits) v.old v.new }
{
    if q >= V::PLACES {
        return pairs_added(v, qubits, q - V::PLACES, bits, first, second, third, fourth);
    }
    match q {
        0 => lanes_added::<V, 0>(v, bits, first, second, third, fourth),
        1 => lanes_added::<V, 1>(v, bits, first, second, third, fourth),
        2 => lanes_added::<V, 2>(v, bits, first, second, third, fourth),
        _ => lanes_added::<V, 3>(v, bits, first, second, third, fourth),
    }
}

/// The matrix on qubit `q` of 2^qubits blocks, where the qubits of the lanes come first. A row of two entries adds two numbers,
/// so that the bound of the coefficients may grow by one bit; any other row keeps it.
pub fn apply1<V: Vector>(v: &mut [Block<V>], qubits: u32, q: u32, bits: u32, m: &Mat2)
    requires few { qubits ≤ max_part_qubits }
    requires blocks { length v.old ≡ 2 ^ qubits }
    requires qubit { q < qubits + V.PLACES }
    requires room { bits < V.ROOM }
    requires bounded { All (IsBlock V.lanes (2 ^ V.PLACES) bits) v.old }
    ensures exact { numbers V.lanes V.PLACES v.new ≡ applied_list (number_in m.now.rows) (q ∷ []) (numbers V.lanes V.PLACES v.old) }
    ensures bounded { All (IsBlock V.lanes (2 ^ V.PLACES) (width_after m.now.rows bits)) v.new }
    ensures len { length v.new ≡ length v.old }
{
    let [low, high] = m.rows;
    entries_on(v, qubits, q, bits, low[0], low[1], high[0], high[1]);
}
