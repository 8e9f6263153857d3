//! The evolution, gate by gate.
ghost use Rattle.std.specs.Prelude.{◌≡◌, ◌^◌, ◌<◌, ◌≤◌, [], ◌∷◌, Some, length, take, All, IfOk, IfErr, IfSome, IsNone, IsSome, OnOk, OnErr};
ghost use Rattle.qh_limits.specs.Limits.{coefficient_bits, max_part_qubits, max_uncut_qubits};
ghost use Rattle.qh_ring.specs.Numbers.{IsWithin};
ghost use Rattle.qh_ring.specs.Matrices.{number_in};
ghost use Rattle.qh_ring.specs.States.{listed};
ghost use Rattle.qh_gates.specs.Tables.{matrix_of};
ghost use Rattle.qh_gates.specs.Circuits.{Fits};
ghost use Rattle.qh_gates.specs.Evolution.{wires, uncut, NeverOver};
ghost use Rattle.qh_half.specs.Halves.{AfterMatrix};
ghost use Rattle.qh_uncut.specs.Faults.{IsCause};

use crate::fault::UncutFault;
use qh_gates::{Circuit, Gate, arity, matrix1, matrix2};
use qh_half::{Half, Steps};
use qh_kernel::Over;
use qh_ring::Omega;
use std::alloc::{AllocError, Global};
use std::marker::Brand;
use std::sync::ledger::{Blank, Ledger};

/// The 2^qubits whole numbers after all gates, from 1 at index 0 and 0 elsewhere, without the factors 1/√2.
/// Qubit q is bit q of an index. The circuit has at most 16 qubits. Over names the first gate after which a
/// coefficient's magnitude is 2^126 or more; a circuit of at most 125 gates has none.
///
/// It keeps the state as halves of cut circuits are kept: narrow as long as the numbers are, in 120 bytes a number, and
/// then writes the numbers out, 64 bytes each.
pub fn evolve(alloc: Global, circuit: &Circuit) -> Result<Vec<Omega>, UncutFault>
    requires { circuit.now.qubits ≤ max_uncut_qubits }
    ensures exact { IfOk result (λ v. v.items ≡ listed circuit.now.qubits (uncut circuit.now.gates)) }
    ensures within { IfOk result (λ v. All (IsWithin coefficient_bits) v.items) }
    ensures never { OnOk result (NeverOver circuit.now) }
    ensures cause { IfErr result (IsCause circuit.now) }
    ensures short { length circuit.now.gates < coefficient_bits → IfErr result (λ fault. fault ≡ UncutFault.Memory) }
{
    evolve_counted::<Brand>(alloc, circuit, Blank::new(1))
}

/// As [`evolve`], with a counter for the steps of the matrices, which nobody reads.
fn evolve_counted<L: Ledger>(
    alloc: Global,
    circuit: &Circuit,
    blank: Blank,
) -> Result<Vec<Omega>, UncutFault>
    requires name { blank.name ≡ L.name }
    requires parts { blank.parts ≡ L.parts }
    requires some { 0 < blank.parts }
    requires few { circuit.now.qubits ≤ max_uncut_qubits }
    ensures exact { IfOk result (λ v. v.items ≡ listed circuit.now.qubits (uncut circuit.now.gates)) }
    ensures within { IfOk result (λ v. All (IsWithin coefficient_bits) v.items) }
    ensures never { OnOk result (NeverOver circuit.now) }
    ensures cause { IfErr result (IsCause circuit.now) }
    ensures short { length circuit.now.gates < coefficient_bits → IfErr result (λ fault. fault ≡ UncutFault.Memory) }
{
    let mut steps = Steps::<L>::new(blank);
    let Ok(mut state) = Half::ground(alloc, circuit.qubits()) else {
        return Err(UncutFault::Memory);
    };
    for (i, gate) in circuit.gates().iter().enumerate() {
        let Ok(()) = apply_gate(&mut state, gate, &mut steps) else {
            return Err(UncutFault::Over { gate: i as u32 });
        };
    }
    match numbers_of(alloc, &state) {
        Ok(numbers) => Ok(numbers),
        Err(_) => Err(UncutFault::Memory),
    }
}

/// Applies a gate's matrix on its qubits. It is Over exactly where a new coefficient's magnitude is 2^126 or more.
pub(crate) fn apply_gate<L: Ledger>(
    state: &mut Half,
    gate: &Gate,
    steps: &mut Steps<L>,
) -> Result<(), Over>
    requires { Fits state.old.qubits gate.now }
    ensures qubits { state.new.qubits ≡ state.old.qubits }
    ensures numbers { AfterMatrix (number_in (matrix_of gate.now.kind)) (wires gate.now) state.old.numbers state.new.numbers }
    ensures ok { OnOk result (IsSome state.new.numbers) }
    ensures over { OnErr result (IsNone state.new.numbers) }
{
    if arity(gate.kind) == 2 {
        return state.apply2(&matrix2(gate.kind), gate.q0, gate.q1, steps);
    }
    state.apply1(&matrix1(gate.kind), gate.q0, steps)
}

/// The numbers of a state that is not over.
pub(crate) fn numbers_of(alloc: Global, state: &Half) -> Result<Vec<Omega>, AllocError>
    requires { IsSome state.now.numbers }
    ensures { IfOk result (λ v. state.now.numbers ≡ Some v.items) }
{
    let count = 1u32 << state.qubits();
    let mut numbers = Vec::with_capacity(alloc, count as usize)?;
    for index in 0..count {
        numbers.push(state.at(index))?;
    }
    Ok(numbers)
}
