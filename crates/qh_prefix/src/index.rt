//! Basis indices within one part.
ghost use Rattle.std.specs.Prelude.{◌≡◌, ◌≤◌, ◌<◌, ◌^◌, All, IfOk, length, map};
ghost use Rattle.qh_limits.specs.Limits.{max_qubits, max_part_qubits};
ghost use Rattle.qh_plan.specs.Parts.{local_index};
ghost use Rattle.qh_prefix.specs.Parts.{in_part, index_on};

use crate::part::{Part, part_qubits};
use qh_plan::Job;
use std::alloc::{AllocError, Global};

/// The bits of a basis index at these qubits, put together in order.
fn index_on(qubits: &[u32], x: u64) -> u32
    requires below { All (λ q. q < max_qubits) qubits.now }
    requires few { length qubits.now ≤ max_part_qubits }
    ensures value { result ≡ index_on qubits.now x }
    ensures within { result < 2 ^ length qubits.now }
{
    let mut index = 0u32;
    for (number, qubit) in qubits.iter().enumerate() {
        index += ((x >> *qubit & 1) as u32) << number;
    }
    index
}

/// The bits of each asked basis index at the part's qubits, put together in order: the index within the part.
pub fn local_indices(alloc: Global, job: &Job, part: Part) -> Result<Vec<u32>, AllocError>
    ensures { IfOk result (λ v. v.items ≡ map (local_index (in_part part job.now) job.now.circuit.qubits) job.now.bits) }
{
    let qubits = part_qubits(alloc, job, part)?;
    let mut indices = Vec::new(alloc);
    for x in job.bits() {
        indices.push(index_on(&qubits, *x))?;
    }
    Ok(indices)
}
