//! The two parts of a cut.
ghost use Rattle.std.specs.Prelude.{◌≡◌, ◌==◌, ◌≤◌, [], IfOk, IfErr, OnOk, ◌<◌};
ghost use Rattle.qh_limits.specs.Limits.{max_uncut_qubits};
ghost use Rattle.qh_plan.specs.declared.fault.PlanFault.TheVariants as PlanFault;
ghost use Rattle.std.specs.List.{list_any};
ghost use Rattle.qh_plan.specs.Paths.{crosses};
ghost use Rattle.qh_plan.specs.Plans.{item_fault, rising, width_fault};

use crate::fault::PlanFault;
use qh_gates::{Circuit, Gate};
use qh_limits::{MAX_PART_QUBITS, MAX_UNCUT_QUBITS};
use std::alloc::{AllocError, Global};

/// Whether a circuit may run without a cut: UncutTooWide exactly where it has more than 16 qubits. It takes no memory.
pub fn check_uncut(circuit: &Circuit) -> Result<(), PlanFault>
    ensures narrow { OnOk result (circuit.now.qubits ≤ max_uncut_qubits) }
    ensures wide { IfErr result (λ f. (max_uncut_qubits < circuit.now.qubits) × (f ≡ PlanFault.UncutTooWide circuit.now.qubits)) }
{
    let qubits = circuit.qubits();
    if qubits > MAX_UNCUT_QUBITS {
        return Err(PlanFault::UncutTooWide { qubits });
    }
    Ok(())
}

/// The first item that is no qubit or occurred before.
pub(crate) fn item_fault(qubits: u32, items: &[u32]) -> Option<PlanFault>
    ensures { result ≡ item_fault qubits [] items.now }
{
    for (i, item) in items.iter().enumerate() {
        if *item >= qubits {
            return Some(PlanFault::NoSuchQubit { qubit: *item });
        }
        if items[..i].contains(item) {
            return Some(PlanFault::QubitTwice { qubit: *item });
        }
    }
    None
}

/// The qubits that the items name, in rising order.
pub(crate) fn rising(alloc: Global, qubits: u32, items: &[u32]) -> Result<Vec<u32>, AllocError>
    ensures { IfOk result (λ v. v.items ≡ rising qubits items.now) }
{
    let mut part = Vec::new(alloc);
    for qubit in 0..qubits {
        if items.contains(&qubit) {
            part.push(qubit)?;
        }
    }
    Ok(part)
}

/// A part without qubits or with too many, where `one` of the qubits lie in part 1.
pub(crate) fn width_fault(qubits: u32, one: u32) -> Option<PlanFault>
    requires { one ≤ qubits }
    ensures { result ≡ width_fault qubits one }
{
    if one == 0 || one == qubits {
        return Some(PlanFault::EmptyPart);
    }
    if one > MAX_PART_QUBITS {
        return Some(PlanFault::PartTooWide { qubits: one });
    }
    if qubits - one > MAX_PART_QUBITS {
        return Some(PlanFault::PartTooWide {
            qubits: qubits - one,
        });
    }
    None
}

/// Whether the gate's qubits lie in different parts.
pub(crate) fn crosses(part: &[u32], gate: &Gate) -> bool
    ensures { result ≡ crosses (λ q. list_any (λ k. k == q) part.now) gate.now }
{
    part.contains(&gate.q0) != part.contains(&gate.q1)
}
