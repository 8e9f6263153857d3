//! From a circuit and a cut to a job.
ghost use Rattle.std.specs.Prelude.{◌≡◌, ◌≢◌, ◌↔◌, ◌^◌, ◌≤◌, Some, None, IfOk, IfErr, OnOk, IsTrue};
ghost use Rattle.qh_limits.specs.Limits.{max_qubits};
ghost use Rattle.qh_plan.specs.Plans.{AreBits, IsPlanned, first_fault, job_of};

use crate::cut::{item_fault, rising, width_fault};
use crate::fault::PlanFault;
use crate::job::Job;
use crate::paths::{path_fault, radices, split_fault};
use qh_gates::Circuit;
use qh_limits::MAX_BITSTRINGS;
use std::alloc::Global;

/// The job that runs the circuit over the cut into the qubits of `part` and the others.
///
/// The first `p` crossing gates are the prefix, the next `r` the root. With a prefix value `w` the run sums the paths of
/// that prefix alone. There are 1 to 4,096 bitstrings, each a basis index of the circuit. A fault is the first that
/// applies, in the order of `PlanFault`. It goes a few times over the gates and the bitstrings.
pub fn plan(
    alloc: Global,
    circuit: Circuit,
    part: &[u32],
    p: u32,
    r: u32,
    w: Option<u32>,
    bits: Vec<u64>,
) -> Result<Job, PlanFault>
    requires { AreBits circuit.qubits bits.items }
    ensures job { IfOk result (λ j. j ≡ job_of circuit part.now p r w bits.items) }
    ensures planned { IfOk result (λ j. IsPlanned j) }
    ensures accepted { OnOk result (first_fault circuit part.now p r w bits.items ≡ None) }
    ensures refused { IfErr result (λ f. f ≢ PlanFault.Memory → first_fault circuit part.now p r w bits.items ≡ Some f) }
{
    let qubits = circuit.qubits();
    if let Some(fault) = item_fault(qubits, part) {
        return Err(fault);
    }
    let Ok(one) = rising(alloc, qubits, part) else {
        return Err(PlanFault::Memory);
    };
    if let Some(fault) = width_fault(qubits, one.len() as u32) {
        return Err(fault);
    }
    let Ok(radices) = radices(alloc, &one, circuit.gates()) else {
        return Err(PlanFault::Memory);
    };
    if let Some(fault) = path_fault(&radices) {
        return Err(fault);
    }
    if let Some(fault) = split_fault(&radices, p, r, w) {
        return Err(fault);
    }
    Job::of_parts(alloc, circuit, one, (p, r), w, bits, radices)
}

/// Whether these bitstrings may be asked of a circuit with so many qubits: 1 to 4,096, each a basis index.
pub fn are_bits(qubits: u32, bits: &[u64]) -> bool
    requires { qubits ≤ max_qubits }
    ensures { IsTrue result ↔ AreBits qubits bits.now }
{
    let count = index_count(qubits);
    !bits.is_empty() && bits.len() <= MAX_BITSTRINGS && bits.iter().all(|b| *b < count)
}

/// 2^qubits.
fn index_count(qubits: u32) -> u64
    requires { qubits ≤ max_qubits }
    ensures { result ≡ 2 ^ qubits }
{
    1 << qubits
}
