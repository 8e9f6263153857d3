//! A matrix with the qubits that it acts on.
ghost use Rattle.std.specs.Prelude.{◌≡◌, ◌<◌, ◌↔◌, IsTrue};
ghost use Rattle.qh_ring.specs.Laws.{AllLess};

use qh_blocks::width_of;
use qh_ring::{Mat2, Mat4};

/// A matrix with its qubits. Qubit q is bit q of an index.
#[derive(Clone, Copy, PartialEq, Eq, Debug)]
pub enum Turn {
    /// On one qubit.
    One {
        matrix: Mat2,
        qubit: u32,
    },
    /// On two qubits, of which the first is the high place of a row's index.
    Two {
        matrix: Mat4,
        first: u32,
        second: u32,
    },
}

/// The matrix of zeros on qubit 0.
impl Default for Turn {
    ghost use Rattle.std.specs.Prelude.{◌≡◌, [], ◌∷◌};
    ghost use Rattle.qh_ring.specs.Matrices.{number_in, zero_rows};
    ghost use Rattle.qh_passes.specs.Turns.{matrix_in, qubits_in};

    ghost is_default = { λ t. (matrix_in t ≡ number_in zero_rows) × (qubits_in t ≡ 0 ∷ []) };

    fn default() -> Self {
        Turn::One {
            matrix: Mat2::default(),
            qubit: 0,
        }
    }
}

impl Turn {
    ghost use Rattle.qh_passes.specs.Turns.{qubits_in, width_turned};

    /// Whether each of its qubits is below the limit.
    pub fn is_below(&self, limit: u32) -> bool
        ensures { IsTrue result ↔ AllLess limit (qubits_in self.now) }
    {
        match *self {
            Turn::One { qubit, .. } => qubit < limit,
            Turn::Two { first, second, .. } => first < limit && second < limit,
        }
    }

    /// The bound, in bits, of the coefficients that it makes of coefficients within 2^bits.
    pub fn width_after(&self, bits: u32) -> u32
        requires { bits < 64 }
        ensures { result ≡ width_turned self.now bits }
    {
        match self {
            Turn::One { matrix, .. } => width_of(matrix, bits),
            Turn::Two { .. } => bits,
        }
    }
}
