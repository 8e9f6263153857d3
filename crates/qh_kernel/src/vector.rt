//! The vector that every evolution starts from.
ghost use Rattle.std.specs.Prelude.{◌≡◌, ◌≤◌, IfOk, All};
ghost use Rattle.qh_limits.specs.Limits.{coefficient_bits, max_part_qubits};
ghost use Rattle.qh_ring.specs.Numbers.{IsWithin};
ghost use Rattle.qh_ring.specs.States.{listed, ground};

use qh_ring::Omega;
use std::alloc::{AllocError, Global};

/// The vector of 2^qubits numbers with all qubits 0: 1 at index 0, and 0 elsewhere. It has at most 20 qubits
/// and takes 64 bytes a number.
pub fn ground_vector(alloc: Global, qubits: u32) -> Result<Vec<Omega>, AllocError>
    requires { qubits ≤ max_part_qubits }
    ensures value { IfOk result (λ v. v.items ≡ listed qubits ground) }
    ensures within { IfOk result (λ v. All (IsWithin coefficient_bits) v.items) }
{
    let mut v = vec![in alloc; Omega::ZERO; 1usize << qubits]?;
    v[0] = Omega::ONE;
    Ok(v)
}
