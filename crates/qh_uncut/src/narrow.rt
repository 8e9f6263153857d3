//! The evolution as long as the numbers are narrow.
ghost use Rattle.std.specs.Prelude.{◌≡◌, ◌<◌, ◌≤◌, Some, length, IfOk, IfErr, OnOk};
ghost use Rattle.qh_limits.specs.Limits.{max_uncut_qubits};
ghost use Rattle.qh_ring.specs.States.{ground, listed};
ghost use Rattle.qh_uncut.specs.Faults.{IsCause};
ghost use Rattle.qh_uncut.specs.Progress.{FitsUpTo, numbers_after};

use crate::evolution::{apply_gate, numbers_of};
use crate::fault::UncutFault;
use qh_gates::Circuit;
use qh_half::{Half, Steps};
use qh_ring::Omega;
use std::alloc::Global;
use std::marker::Brand;
use std::sync::ledger::{Blank, Ledger};

/// The state after the first gates of a circuit.
pub(crate) struct Front {
    /// How many gates are done.
    pub(crate) gates: usize,
    pub(crate) numbers: Vec<Omega>,
}

/// The state at the first gate from which on the numbers are wide, and after all gates where they never are. It takes
/// the 120 bytes a number of a half, which it gives back, and 64 bytes a number for what it returns.
pub(crate) fn narrow_front(alloc: Global, circuit: &Circuit) -> Result<Front, UncutFault>
    requires { circuit.now.qubits ≤ max_uncut_qubits }
    ensures some { IfOk result (λ front. front.gates ≤ length circuit.now.gates) }
    ensures exact { IfOk result (λ front. front.numbers.items ≡ numbers_after circuit.now front.gates) }
    ensures never { IfOk result (λ front. FitsUpTo circuit.now front.gates) }
    ensures cause { IfErr result (IsCause circuit.now) }
{
    narrow_front_counted::<Brand>(alloc, circuit, Blank::new(1))
}

/// As [`narrow_front`], with a counter for the steps of the matrices, which nobody reads.
fn narrow_front_counted<L: Ledger>(
    alloc: Global,
    circuit: &Circuit,
    blank: Blank,
) -> Result<Front, UncutFault>
    requires name { blank.name ≡ L.name }
    requires parts { blank.parts ≡ L.parts }
    requires one { 0 < blank.parts }
    requires few { circuit.now.qubits ≤ max_uncut_qubits }
    ensures some { IfOk result (λ front. front.gates ≤ length circuit.now.gates) }
    ensures exact { IfOk result (λ front. front.numbers.items ≡ numbers_after circuit.now front.gates) }
    ensures never { IfOk result (λ front. FitsUpTo circuit.now front.gates) }
    ensures cause { IfErr result (IsCause circuit.now) }
{
    let mut steps = Steps::<L>::new(blank);
    let Ok(mut state) = Half::ground(alloc, circuit.qubits()) else {
        return Err(UncutFault::Memory);
    };
    let gates = evolve_narrow(circuit, &mut state, &mut steps)?;
    let Ok(numbers) = numbers_of(alloc, &state) else {
        return Err(UncutFault::Memory);
    };
    Ok(Front { gates, numbers })
}

/// Applies the gates in order until the state is wide or none is left, and tells how many it applied.
fn evolve_narrow<L: Ledger>(
    circuit: &Circuit,
    state: &mut Half,
    steps: &mut Steps<L>,
) -> Result<usize, UncutFault>
    requires { state.old ≡ record { qubits = circuit.now.qubits; numbers = Some (listed circuit.now.qubits ground) } }
    ensures some { IfOk result (λ n. n ≤ length circuit.now.gates) }
    ensures qubits { OnOk result (state.new.qubits ≡ circuit.now.qubits) }
    ensures exact { IfOk result (λ n. state.new.numbers ≡ Some (numbers_after circuit.now n)) }
    ensures never { IfOk result (λ n. FitsUpTo circuit.now n) }
    ensures cause { IfErr result (IsCause circuit.now) }
{
    let gates = circuit.gates();
    for (i, gate) in gates.iter().enumerate() {
        if state.is_wide() {
            return Ok(i);
        }
        let Ok(()) = apply_gate(state, gate, steps) else {
            return Err(UncutFault::Over { gate: i as u32 });
        };
    }
    Ok(gates.len())
}
