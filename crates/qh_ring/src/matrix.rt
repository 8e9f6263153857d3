//! Matrices whose entries are 0 or a power of ω.
ghost use Rattle.std.specs.Prelude.{◌≡◌, IsTrue};
ghost use Rattle.qh_ring.specs.Units.{is_unit, are_units};

/// An entry of a matrix: 0, or ω^j with j below 8, which the matrices keep in their types.
#[derive(Clone, Copy, PartialEq, Eq, Debug)]
pub enum Entry {
    Zero,
    Unit(u8),
}

/// A matrix on one qubit, row by row.
#[derive(Clone, Copy, PartialEq, Eq, Debug)]
pub struct Mat2 {
    pub rows: [[Entry; 2]; 2],
    ghost units: { IsTrue (are_units rows) },
}

/// A matrix on two qubits, row by row. The gate's first qubit is the high place of a row's or a column's index.
#[derive(Clone, Copy, PartialEq, Eq, Debug)]
pub struct Mat4 {
    pub rows: [[Entry; 4]; 4],
    ghost units: { IsTrue (are_units rows) },
}

/// The matrix of zeros.
impl Default for Mat2 {
    ghost use Rattle.qh_ring.specs.Matrices.{zero_rows};

    ghost is_default = { λ m. m.rows ≡ zero_rows };

    fn default() -> Self {
        Mat2 {
            rows: [[Entry::Zero, Entry::Zero], [Entry::Zero, Entry::Zero]],
        }
    }
}
