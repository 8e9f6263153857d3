//! The new numbers of a pair where a row may have two entries.
ghost use Rattle.std.specs.Prelude.{◌≡◌, length, IsTrue, slice_index_or};
ghost use Rattle.std.specs.Option.{SomeIff};
ghost use Rattle.qh_limits.specs.Limits.{coefficient_bits};
ghost use Rattle.qh_ring.specs.Numbers.{IsWithin, product};
ghost use Rattle.qh_ring.specs.Matrices.{number_of, number_in};
ghost use Rattle.qh_ring.specs.Units.{is_unit};
ghost use Rattle.qh_kernel.specs.Rows.{row_sum2};

use qh_limits::COEFFICIENT_BITS;
use qh_ring::{Entry, Mat2, Omega, add_bounded, times_unit, within};

/// z times an entry of a matrix.
fn entry_times(entry: Entry, z: &Omega) -> Omega
    requires unit { IsTrue (is_unit entry) }
    requires bounded { IsWithin coefficient_bits z.now }
    ensures value { result ≡ product (number_of entry) z.now }
    ensures bounded { IsWithin coefficient_bits result }
{
    match entry {
        Entry::Zero => Omega::ZERO,
        Entry::Unit(power) => times_unit(z, power),
    }
}

/// The number that a row of two entries makes of a pair, where it is within the bound.
fn row_times(first: Entry, second: Entry, x: &Omega, y: &Omega) -> Option<Omega>
    requires first_unit { IsTrue (is_unit first) }
    requires second_unit { IsTrue (is_unit second) }
    requires x_bounded { IsWithin coefficient_bits x.now }
    requires y_bounded { IsWithin coefficient_bits y.now }
    ensures { let z = row_sum2 (number_of first) (number_of second) x.now y.now in SomeIff result (IsWithin coefficient_bits z) z }
{
    let z = add_bounded(&entry_times(first, x), &entry_times(second, y));
    if within(&z, COEFFICIENT_BITS) {
        Some(z)
    } else {
        None
    }
}

/// The new numbers of a pair, where both are within the bound.
pub(crate) fn new_pair(m: &Mat2, x: &Omega, y: &Omega) -> Option<(Omega, Omega)>
    requires x_bounded { IsWithin coefficient_bits x.now }
    requires y_bounded { IsWithin coefficient_bits y.now }
    ensures { let low = row_sum2 (number_in m.now.rows 0 0) (number_in m.now.rows 0 1) x.now y.now in
        let high = row_sum2 (number_in m.now.rows 1 0) (number_in m.now.rows 1 1) x.now y.now in
        SomeIff result (IsWithin coefficient_bits low × IsWithin coefficient_bits high) (low, high) }
{
    let low = row_times(m.rows[0][0], m.rows[0][1], x, y)?;
    let high = row_times(m.rows[1][0], m.rows[1][1], x, y)?;
    Some((low, high))
}
