//! A circuit's gates as they act in one part.
ghost use Rattle.std.specs.Prelude.{◌≡◌, All, IfOk};
ghost use Rattle.qh_gates.specs.Circuits.{Fits};
ghost use Rattle.qh_prefix.specs.Parts.{in_part, width};
ghost use Rattle.qh_prefix.specs.Places.{IsPlacedIn, place_at, placed};
ghost use Rattle.qh_prefix.specs.Stages.{stage_gates};

use crate::part::{Part, local_numbers};
use crate::stage::{Stage, stage_gates};
use qh_gates::{Gate, Kind, arity};
use qh_plan::Job;
use std::alloc::{AllocError, Global};

/// A gate as it acts in one part, by the numbers of its qubits within the part.
#[derive(Clone, Copy, PartialEq, Eq, Debug)]
pub enum Placed {
    /// Inside the part, on one qubit.
    OnOne { kind: Kind, qubit: u32 },
    /// Inside the part, on two qubits.
    OnTwo { kind: Kind, first: u32, second: u32 },
    /// Across the cut: its first qubit lies in the part.
    FirstHere { kind: Kind, qubit: u32 },
    /// Across the cut: its second qubit lies in the part.
    SecondHere { kind: Kind, qubit: u32 },
}

/// The gate in the part where its qubits have these numbers, none being in the other part. None where it does nothing here.
fn place(gate: &Gate, first: Option<u32>, second: Option<u32>) -> Option<Placed>
    ensures { result ≡ place_at gate.now first second }
{
    let kind = gate.kind;
    let Some(first) = first else {
        let qubit = second?;
        return Some(Placed::SecondHere { kind, qubit });
    };
    let Some(second) = second else {
        return Some(Placed::FirstHere { kind, qubit: first });
    };
    if arity(kind) == 2 {
        return Some(Placed::OnTwo {
            kind,
            first,
            second,
        });
    }
    Some(Placed::OnOne { kind, qubit: first })
}

/// Of the gates, those that act in the part, in their order.
fn place_list(
    alloc: Global,
    job: &Job,
    part: Part,
    gates: &[Gate],
) -> Result<Vec<Placed>, AllocError>
    requires { All (Fits job.now.circuit.qubits) gates.now }
    ensures placed { IfOk result (λ v. v.items ≡ placed (in_part part job.now) gates.now) }
    ensures fit { IfOk result (λ v. All (IsPlacedIn (width part job.now)) v.items) }
{
    let numbers = local_numbers(alloc, job, part)?;
    let mut list = Vec::new(alloc);
    for gate in gates {
        let first = numbers[gate.q0 as usize];
        let second = numbers[gate.q1 as usize];
        if let Some(here) = place(gate, first, second) {
            list.push(here)?;
        }
    }
    Ok(list)
}

/// The gates that act in the part, in the order of the circuit.
pub fn place_gates(alloc: Global, job: &Job, part: Part) -> Result<Vec<Placed>, AllocError>
    ensures placed { IfOk result (λ v. v.items ≡ placed (in_part part job.now) job.now.circuit.gates) }
    ensures fit { IfOk result (λ v. All (IsPlacedIn (width part job.now)) v.items) }
{
    place_list(alloc, job, part, job.circuit().gates())
}

/// The gates of the stage that act in the part, in the order of the circuit.
pub fn place_stage(
    alloc: Global,
    job: &Job,
    part: Part,
    stage: Stage,
) -> Result<Vec<Placed>, AllocError>
    ensures placed { IfOk result (λ v. v.items ≡ placed (in_part part job.now) (stage_gates stage job.now)) }
    ensures fit { IfOk result (λ v. All (IsPlacedIn (width part job.now)) v.items) }
{
    place_list(alloc, job, part, stage_gates(job, stage))
}
