//! A matrix on one qubit, and one on two.
ghost use Rattle.std.specs.Prelude.{◌≡◌, ◌≢◌, ◌^◌, ◌<◌, ◌≤◌, [], ◌∷◌, length, All, IsTrue, OnOk, OnErr};
ghost use Rattle.qh_limits.specs.Limits.{coefficient_bits, max_part_qubits};
ghost use Rattle.qh_ring.specs.Numbers.{IsWithin};
ghost use Rattle.qh_ring.specs.Matrices.{number_in};
ghost use Rattle.qh_ring.specs.States.{applied_list};
ghost use Rattle.qh_kernel.specs.Rows.{are_single};

use crate::dense::new_pair;
use crate::groups::{index_with_gap, move_pair, move_quad, stride_of};
use crate::over::Over;
use crate::sources::{has_single_rows, sources1, sources2};
use qh_ring::{Mat2, Mat4, Omega};

/// Applies the matrix to qubit `q` of a vector of at most 20 qubits, whose bit q of an index is qubit q. It is
/// Over exactly where a new coefficient's magnitude is 2^126 or more, and what the vector then holds is left open.
pub fn apply1(v: &mut [Omega], qubits: u32, m: &Mat2, q: u32) -> Result<(), Over>
    requires few { qubits ≤ max_part_qubits }
    requires numbers { length v.old ≡ 2 ^ qubits }
    requires qubit { q < qubits }
    requires bounded { All (IsWithin coefficient_bits) v.old }
    ensures exact { OnOk result (v.new ≡ applied_list (number_in m.now.rows) (q ∷ []) v.old) }
    ensures bounded { OnOk result (All (IsWithin coefficient_bits) v.new) }
    ensures over { OnErr result (¬ All (IsWithin coefficient_bits) (applied_list (number_in m.now.rows) (q ∷ []) v.old)) }
{
    if has_single_rows(m) {
        move_pairs(v, qubits, m, q);
        return Ok(());
    }
    add_pairs(v, qubits, m, q)
}

/// Applies the matrix to the distinct qubits `q0` and `q1` of a vector of at most 20 qubits. Each row of the
/// matrix has at most one entry other than Zero, so no coefficient's magnitude grows.
pub fn apply2(v: &mut [Omega], qubits: u32, m: &Mat4, q0: u32, q1: u32)
    requires few { qubits ≤ max_part_qubits }
    requires numbers { length v.old ≡ 2 ^ qubits }
    requires first { q0 < qubits }
    requires second { q1 < qubits }
    requires apart { q0 ≢ q1 }
    requires single { IsTrue (are_single m.now.rows) }
    requires bounded { All (IsWithin coefficient_bits) v.old }
    ensures exact { v.new ≡ applied_list (number_in m.now.rows) (q0 ∷ q1 ∷ []) v.old }
    ensures bounded { All (IsWithin coefficient_bits) v.new }
{
    let sources = sources2(m);
    let high = stride_of(q0);
    let low = stride_of(q1);
    let near = q0.min(q1);
    let far = q0.max(q1);
    for p in 0..v.len() / 4 {
        let x = index_with_gap(index_with_gap(p, near), far);
        move_quad(v, &sources, &[x, x + low, x + high, x + high + low]);
    }
}

/// `apply1` where each row has at most one entry.
fn move_pairs(v: &mut [Omega], qubits: u32, m: &Mat2, q: u32)
    requires few { qubits ≤ max_part_qubits }
    requires numbers { length v.old ≡ 2 ^ qubits }
    requires qubit { q < qubits }
    requires single { IsTrue (are_single m.now.rows) }
    requires bounded { All (IsWithin coefficient_bits) v.old }
    ensures exact { v.new ≡ applied_list (number_in m.now.rows) (q ∷ []) v.old }
    ensures bounded { All (IsWithin coefficient_bits) v.new }
{
    let sources = sources1(m);
    let stride = stride_of(q);
    for p in 0..v.len() / 2 {
        let low = index_with_gap(p, q);
        move_pair(v, &sources, &[low, low + stride]);
    }
}

/// `apply1` where a row may have two entries.
fn add_pairs(v: &mut [Omega], qubits: u32, m: &Mat2, q: u32) -> Result<(), Over>
    requires few { qubits ≤ max_part_qubits }
    requires numbers { length v.old ≡ 2 ^ qubits }
    requires qubit { q < qubits }
    requires bounded { All (IsWithin coefficient_bits) v.old }
    ensures exact { OnOk result (v.new ≡ applied_list (number_in m.now.rows) (q ∷ []) v.old) }
    ensures bounded { OnOk result (All (IsWithin coefficient_bits) v.new) }
    ensures over { OnErr result (¬ All (IsWithin coefficient_bits) (applied_list (number_in m.now.rows) (q ∷ []) v.old)) }
{
    let stride = stride_of(q);
    for p in 0..v.len() / 2 {
        let low = index_with_gap(p, q);
        let high = low + stride;
        let Some(numbers) = new_pair(m, &v[low], &v[high]) else {
            return Err(Over);
        };
        v[low] = numbers.0;
        v[high] = numbers.1;
    }
    Ok(())
}
