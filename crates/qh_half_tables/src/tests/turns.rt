//! What the kernels ask of a matrix and of a turn, as tests of their own.
ghost use Rattle.std.specs.Prelude.{◌≤◌, ◌↔◌, length, IsTrue};
ghost use Rattle.qh_kernel.specs.Rows.{is_single, are_single};
ghost use Rattle.qh_passes.specs.Turns.{IsTurnIn};

use qh_passes::Turn;
use qh_ring::{Entry, Mat4};

fn is_single_row(row: &[Entry]) -> bool
    requires { length row.now ≤ 4 }
    ensures { IsTrue result ↔ IsTrue (is_single row.now) }
{
    row.iter().filter(|entry| **entry != Entry::Zero).count() <= 1
}

/// Whether each row has one entry at most.
pub(super) fn are_single_rows(m: &Mat4) -> bool
    ensures { IsTrue result ↔ IsTrue (are_single m.now.rows) }
{
    is_single_row(&m.rows[0])
        && is_single_row(&m.rows[1])
        && is_single_row(&m.rows[2])
        && is_single_row(&m.rows[3])
}

/// Whether a turn names qubits below a limit, two distinct ones for a matrix on two, whose rows are single.
pub(super) fn is_turn_in(turn: &Turn, limit: u32) -> bool
    ensures { IsTrue result → IsTurnIn limit turn.now }
{
    match turn {
        Turn::One { qubit, .. } => *qubit < limit,
        Turn::Two {
            matrix,
            first,
            second,
        } => *first < limit && *second < limit && *first != *second && are_single_rows(matrix),
    }
}
