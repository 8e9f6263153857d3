//! Where the new numbers come from, for a matrix each of whose rows has at most one entry.
ghost use Rattle.std.specs.Prelude.{◌≡◌, ◌↔◌, ◌<◌, ◌≤◌, length, IsTrue, All, IfSome, slice_index_or};
ghost use Rattle.std.specs.List.{list_all};
ghost use Rattle.qh_limits.specs.Limits.{coefficient_bits};
ghost use Rattle.qh_ring.specs.Numbers.{IsWithin};
ghost use Rattle.qh_ring.specs.States.{at_index};
ghost use Rattle.qh_ring.specs.Units.{is_unit};
ghost use Rattle.qh_kernel.specs.Rows.{is_single, are_single};
ghost use Rattle.qh_kernel.specs.Sources.{IsSource, AreSources, HasPlace, value_of, put_at};

use qh_ring::{Entry, Mat2, Mat4, Omega, times_unit};

/// Where the new number of a row with at most one entry comes from.
#[derive(Clone, Copy)]
pub(crate) enum Source {
    /// The row is the identity's: the number stays.
    Same,
    /// The row has no entry: the number is 0.
    Nothing,
    /// The row has one entry ω^power: the number is that of its column, turned.
    Turned { column: usize, power: u8 },
}

/// Whether the row has at most one entry other than Zero.
pub(crate) fn is_single_row(row: &[Entry]) -> bool
    requires { length row.now ≤ 4 }
    ensures { IsTrue result ↔ IsTrue (is_single row.now) }
{
    row.iter().filter(|entry| **entry != Entry::Zero).count() <= 1
}

/// Whether each row of the matrix has at most one entry other than Zero.
pub(crate) fn has_single_rows(m: &Mat2) -> bool
    ensures { IsTrue result ↔ IsTrue (are_single m.now.rows) }
{
    is_single_row(&m.rows[0]) && is_single_row(&m.rows[1])
}

/// The source of row number `r`.
fn row_source(row: &[Entry], r: usize) -> Source
    requires own { r < length row.now }
    requires units { IsTrue (list_all is_unit row.now) }
    requires single { IsTrue (is_single row.now) }
    ensures { IsSource (length row.now) row.now r result }
{
    for column in 0..row.len() {
        if let Entry::Unit(power) = row[column] {
            if column == r && power == 0 {
                return Source::Same;
            }
            return Source::Turned { column, power };
        }
    }
    Source::Nothing
}

/// The sources of both rows.
pub(crate) fn sources1(m: &Mat2) -> [Source; 2]
    requires { IsTrue (are_single m.now.rows) }
    ensures { AreSources 2 m.now.rows result }
{
    [row_source(&m.rows[0], 0), row_source(&m.rows[1], 1)]
}

/// The sources of all four rows.
pub(crate) fn sources2(m: &Mat4) -> [Source; 4]
    requires { IsTrue (are_single m.now.rows) }
    ensures { AreSources 4 m.now.rows result }
{
    [
        row_source(&m.rows[0], 0),
        row_source(&m.rows[1], 1),
        row_source(&m.rows[2], 2),
        row_source(&m.rows[3], 3),
    ]
}

/// The number that a source gives, of the numbers at these places. None where the number stays.
pub(crate) fn new_number(v: &[Omega], source: Source, places: &[usize]) -> Option<Omega>
    requires places { All (λ k. k < length v.now) places.now }
    requires column { HasPlace (length places.now) source }
    requires bounded { All (IsWithin coefficient_bits) v.now }
    ensures value { result ≡ value_of source (λ c. at_index v.now (slice_index_or places.now c 0)) }
    ensures bounded { IfSome result (IsWithin coefficient_bits) }
{
    match source {
        Source::Same => None,
        Source::Nothing => Some(Omega::ZERO),
        Source::Turned { column, power } => Some(times_unit(&v[places[column]], power)),
    }
}

/// Writes the number where there is one.
pub(crate) fn put(v: &mut [Omega], place: usize, number: Option<Omega>)
    requires place { place < length v.old }
    requires number { IfSome number (IsWithin coefficient_bits) }
    requires bounded { All (IsWithin coefficient_bits) v.old }
    ensures value { v.new ≡ put_at v.old place number }
    ensures bounded { All (IsWithin coefficient_bits) v.new }
{
    if let Some(z) = number {
        v[place] = z;
    }
}
