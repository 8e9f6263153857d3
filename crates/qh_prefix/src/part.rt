//! The two parts of a cut and their qubits.
ghost use Rattle.std.specs.Prelude.{◌≡◌, ◌≤◌, IfOk};
ghost use Rattle.qh_limits.specs.Limits.{max_part_qubits};
ghost use Rattle.qh_prefix.specs.Parts.{in_part, width, qubits_below, numbers_below};

use qh_plan::Job;
use std::alloc::{AllocError, Global};

/// A part of a cut.
#[derive(Clone, Copy, PartialEq, Eq, Debug)]
pub enum Part {
    One,
    Two,
}

/// Whether the qubit lies in the part.
fn has_qubit(job: &Job, part: Part, qubit: u32) -> bool
    ensures { result ≡ in_part part job.now qubit }
{
    match part {
        Part::One => job.in_one(qubit),
        Part::Two => !job.in_one(qubit),
    }
}

/// How many qubits the part has, 1 to 20.
pub fn part_width(job: &Job, part: Part) -> u32
    ensures value { result ≡ width part job.now }
    ensures some { 1 ≤ result }
    ensures few { result ≤ max_part_qubits }
{
    let mut count = 0;
    for qubit in 0..job.circuit().qubits() {
        if has_qubit(job, part, qubit) {
            count += 1;
        }
    }
    count
}

/// The part's qubits in rising order.
pub(crate) fn part_qubits(alloc: Global, job: &Job, part: Part) -> Result<Vec<u32>, AllocError>
    ensures { IfOk result (λ v. v.items ≡ qubits_below (in_part part job.now) job.now.circuit.qubits) }
{
    let mut qubits = Vec::new(alloc);
    for qubit in 0..job.circuit().qubits() {
        if has_qubit(job, part, qubit) {
            qubits.push(qubit)?;
        }
    }
    Ok(qubits)
}

/// For each qubit of the circuit its number within the part: how many of the part's qubits stand below it. None for a
/// qubit of the other part.
pub(crate) fn local_numbers(
    alloc: Global,
    job: &Job,
    part: Part,
) -> Result<Vec<Option<u32>>, AllocError>
    ensures { IfOk result (λ v. v.items ≡ numbers_below (in_part part job.now) job.now.circuit.qubits) }
{
    let mut numbers = Vec::new(alloc);
    let mut count = 0;
    for qubit in 0..job.circuit().qubits() {
        if has_qubit(job, part, qubit) {
            numbers.push(Some(count))?;
            count += 1;
        } else {
            numbers.push(None)?;
        }
    }
    Ok(numbers)
}
