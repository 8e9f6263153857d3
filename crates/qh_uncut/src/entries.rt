//! The new number at one index of a vector.
ghost use Rattle.std.specs.Prelude.{◌≡◌, ◌^◌, ◌<◌, ◌≤◌, [], ◌∷◌, length, All, IsTrue};
ghost use Rattle.std.specs.Int.{bit_at};
ghost use Rattle.std.specs.List.{list_all};
ghost use Rattle.qh_limits.specs.Limits.{coefficient_bits, max_part_qubits};
ghost use Rattle.qh_ring.specs.Numbers.{IsWithin, product};
ghost use Rattle.qh_ring.specs.Matrices.{number_of, number_in};
ghost use Rattle.qh_ring.specs.States.{applied, at_index, with_bit, with_bits};
ghost use Rattle.qh_ring.specs.Units.{is_unit};
ghost use Rattle.qh_kernel.specs.Rows.{are_single, is_single, row_sum2};
ghost use Rattle.qh_uncut.specs.Rows.{IsOnly, AreOnly};

use qh_ring::{Entry, Mat2, Mat4, Omega, add_bounded, times_unit};

/// The bit of qubit `q` in an index.
fn bit_of(x: usize, q: u32) -> usize
    requires { q < max_part_qubits }
    ensures value { result ≡ bit_at x q }
    ensures bit { result < 2 }
{
    (x >> q) & 1
}

/// The weight of qubit `q` in an index.
fn weight_of(q: u32) -> usize
    requires { q < max_part_qubits }
    ensures { result ≡ 2 ^ q }
{
    1usize << q
}

/// The index with this bit at qubit `q`.
fn with_bit(qubits: u32, x: usize, q: u32, bit: usize) -> usize
    requires few { qubits ≤ max_part_qubits }
    requires qubit { q < qubits }
    requires index { x < 2 ^ qubits }
    requires bit { bit < 2 }
    ensures value { result ≡ with_bit q bit x }
    ensures index { result < 2 ^ qubits }
{
    let weight = weight_of(q);
    x - bit_of(x, q) * weight + bit * weight
}

/// The index with the bits of a column at two qubits, the first the more significant.
fn with_column(qubits: u32, x: usize, q0: u32, q1: u32, column: usize) -> usize
    requires few { qubits ≤ max_part_qubits }
    requires first { q0 < qubits }
    requires second { q1 < qubits }
    requires index { x < 2 ^ qubits }
    ensures value { result ≡ with_bits (q0 ∷ q1 ∷ []) column x }
    ensures index { result < 2 ^ qubits }
{
    let inner = with_bit(qubits, x, q1, bit_of(column, 0));
    with_bit(qubits, inner, q0, bit_of(column, 1))
}

/// z times an entry of a matrix.
fn entry_times(entry: Entry, z: &Omega) -> Omega
    requires unit { IsTrue (is_unit entry) }
    requires bounded { IsWithin coefficient_bits z.now }
    ensures value { result ≡ product (number_of entry) z.now }
    ensures bounded { IsWithin coefficient_bits result }
{
    match entry {
        Entry::Zero => Omega::ZERO,
        Entry::Unit(power) => times_unit(z, power),
    }
}

/// The number that a row of two entries makes of a pair.
fn row_times(first: Entry, second: Entry, x: &Omega, y: &Omega) -> Omega
    requires first_unit { IsTrue (is_unit first) }
    requires second_unit { IsTrue (is_unit second) }
    requires x_bounded { IsWithin coefficient_bits x.now }
    requires y_bounded { IsWithin coefficient_bits y.now }
    ensures { result ≡ row_sum2 (number_of first) (number_of second) x.now y.now }
{
    add_bounded(&entry_times(first, x), &entry_times(second, y))
}

/// The number that row number `row` of a matrix makes of a pair.
fn row_number(m: &Mat2, row: usize, x: &Omega, y: &Omega) -> Omega
    requires row { row < 2 }
    requires x_bounded { IsWithin coefficient_bits x.now }
    requires y_bounded { IsWithin coefficient_bits y.now }
    ensures { result ≡ row_sum2 (number_in m.now.rows row 0) (number_in m.now.rows row 1) x.now y.now }
{
    if row == 0 {
        return row_times(m.rows[0][0], m.rows[0][1], x, y);
    }
    row_times(m.rows[1][0], m.rows[1][1], x, y)
}

/// The number at index `x` that a matrix on qubit `q` makes of a vector.
pub(crate) fn pair_number(m: &Mat2, qubits: u32, q: u32, v: &[Omega], x: usize) -> Omega
    requires few { qubits ≤ max_part_qubits }
    requires numbers { length v.now ≡ 2 ^ qubits }
    requires qubit { q < qubits }
    requires index { x < 2 ^ qubits }
    requires bounded { All (IsWithin coefficient_bits) v.now }
    ensures { result ≡ applied (number_in m.now.rows) (q ∷ []) (at_index v.now) x }
{
    let low = with_bit(qubits, x, q, 0);
    let high = with_bit(qubits, x, q, 1);
    row_number(m, bit_of(x, q), &v[low], &v[high])
}

/// The only entry of a row that is not 0: its column and its power of ω.
#[derive(Clone, Copy)]
pub(crate) struct Turn {
    pub(crate) column: usize,
    pub(crate) power: u8,
}

/// The only entry of a row, and none where all are 0.
fn only_entry(row: &[Entry]) -> Option<Turn>
    requires units { IsTrue (list_all is_unit row.now) }
    requires single { IsTrue (is_single row.now) }
    ensures { IsOnly (length row.now) row.now result }
{
    for column in 0..row.len() {
        if let Entry::Unit(power) = row[column] {
            return Some(Turn { column, power });
        }
    }
    None
}

/// The only entry of each row.
pub(crate) fn only_entries(m: &Mat4) -> [Option<Turn>; 4]
    requires { IsTrue (are_single m.now.rows) }
    ensures { AreOnly m.now.rows result }
{
    [
        only_entry(&m.rows[0]),
        only_entry(&m.rows[1]),
        only_entry(&m.rows[2]),
        only_entry(&m.rows[3]),
    ]
}

/// The number at index `x` that a matrix on two qubits makes of a vector, by the only entry of each of its rows.
pub(crate) fn quad_number(
    m: &Mat4,
    onlys: &[Option<Turn>; 4],
    qubits: u32,
    q0: u32,
    q1: u32,
    v: &[Omega],
    x: usize,
) -> Omega
    requires few { qubits ≤ max_part_qubits }
    requires numbers { length v.now ≡ 2 ^ qubits }
    requires first { q0 < qubits }
    requires second { q1 < qubits }
    requires index { x < 2 ^ qubits }
    requires bounded { All (IsWithin coefficient_bits) v.now }
    requires only { AreOnly m.now.rows onlys.now }
    ensures { result ≡ applied (number_in m.now.rows) (q0 ∷ q1 ∷ []) (at_index v.now) x }
{
    let row = 2 * bit_of(x, q0) + bit_of(x, q1);
    let Some(turn) = onlys[row] else {
        return Omega::ZERO;
    };
    let source = with_column(qubits, x, q0, q1, turn.column);
    times_unit(&v[source], turn.power)
}
