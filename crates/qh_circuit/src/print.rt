//! From a circuit to its one spelling.

ghost use Rattle.std.specs.Prelude.{◌≡◌, ◌-◌, ◌^◌, ◌<◌, ◌≤◌, ◌++◌, ℕ, All, IfOk, OnOk, Ok};
ghost use Rattle.qh_circuit.specs.Spelling.{circuit_text, gate_line, second_text};
ghost use Rattle.qh_circuit.specs.Texts.{circuit_of};

use qh_gates::{Circuit, Gate, arity, name_of};
use qh_text::{push_number, push_word};
use std::alloc::{AllocError, Global};

/// The text of a circuit: the number of qubits on a line, then a line for each gate. Each circuit has one text, and
/// it is read back as the same circuit, where the greatest time leaves out none of its gates. An Err is want of memory.
pub fn print_circuit(alloc: Global, circuit: &Circuit) -> Result<Vec<u8>, AllocError>
    ensures text { IfOk result (λ text. text.items ≡ circuit_text circuit.now) }
    ensures read_back { IfOk result (λ text. (max_time : ℕ) → max_time < 2 ^ 32 → All (λ gate. gate.time ≤ max_time) circuit.now.gates
        → circuit_of max_time text.items ≡ Ok circuit.now) }
    ensures whole { IfOk result (λ text. circuit_of (2 ^ 32 - 1) text.items ≡ Ok circuit.now) }
{
    let mut text = Vec::new(alloc);
    push_number(&mut text, circuit.qubits())?;
    text.push(b'\n')?;
    for gate in circuit.gates() {
        push_gate(&mut text, gate)?;
    }
    Ok(text)
}

/// Appends the second qubit of a gate that has two.
fn push_second(text: &mut Vec<u8>, gate: &Gate) -> Result<(), AllocError>
    ensures { OnOk result (text.new.items ≡ text.old.items ++ second_text gate.now) }
{
    if arity(gate.kind) == 2 {
        return push_word(text, gate.q1);
    }
    Ok(())
}

/// Appends the line of a gate.
fn push_gate(text: &mut Vec<u8>, gate: &Gate) -> Result<(), AllocError>
    ensures { OnOk result (text.new.items ≡ text.old.items ++ gate_line gate.now) }
{
    push_number(text, gate.time)?;
    text.push(b' ')?;
    text.extend_from_slice(name_of(gate.kind).as_bytes())?;
    push_word(text, gate.q0)?;
    push_second(text, gate)?;
    text.push(b'\n')?;
    Ok(())
}
