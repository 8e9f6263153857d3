//! The matrices of the usual gates on two qubits.
ghost use Rattle.std.specs.Prelude.{◌≡◌, IsTrue};

use qh_ring::{Entry, Mat4};

const O: Entry = Entry::Zero;

const P0: Entry = Entry::Unit(0);

const P2: Entry = Entry::Unit(2);

const P4: Entry = Entry::Unit(4);

pub(crate) const ID: Mat4 = Mat4 {
    rows: [[P0, O, O, O], [O, P0, O, O], [O, O, P0, O], [O, O, O, P0]],
};

pub(crate) const CZ: Mat4 = Mat4 {
    rows: [[P0, O, O, O], [O, P0, O, O], [O, O, P0, O], [O, O, O, P4]],
};

pub(crate) const CNOT: Mat4 = Mat4 {
    rows: [[P0, O, O, O], [O, P0, O, O], [O, O, O, P0], [O, O, P0, O]],
};

pub(crate) const IS: Mat4 = Mat4 {
    rows: [[P0, O, O, O], [O, O, P2, O], [O, P2, O, O], [O, O, O, P0]],
};

pub(crate) const SW: Mat4 = Mat4 {
    rows: [[P0, O, O, O], [O, O, P0, O], [O, P0, O, O], [O, O, O, P0]],
};

/// Whether the entries are the same.
#[inline(always)]
fn is_entry(entry: Entry, other: Entry) -> bool
    ensures { IsTrue result → entry ≡ other }
{
    entry == other
}

/// Whether the rows are the same.
#[inline(always)]
fn is_row(row: &[Entry; 4], other: &[Entry; 4]) -> bool
    ensures { IsTrue result → row.now ≡ other.now }
{
    let [a, b, c, d] = *row;
    let [x, y, z, t] = *other;
    if !is_entry(a, x) {
        return false;
    }
    if !is_entry(b, y) {
        return false;
    }
    if !is_entry(c, z) {
        return false;
    }
    is_entry(d, t)
}

/// Whether the matrices are the same.
#[inline(always)]
pub(crate) fn is_matrix(m: &Mat4, other: &Mat4) -> bool
    ensures { IsTrue result → m.now.rows ≡ other.now.rows }
{
    let [a, b, c, d] = m.rows;
    let [x, y, z, t] = other.rows;
    if !is_row(&a, &x) {
        return false;
    }
    if !is_row(&b, &y) {
        return false;
    }
    if !is_row(&c, &z) {
        return false;
    }
    is_row(&d, &t)
}
