//! From a text to its circuit.

ghost use Rattle.std.specs.Prelude.{◌≡◌, ◌^◌, ◌<◌, ◌≤◌, ◌&&◌, not, ◌++◌, ◌∷◌, [], List, length, map, nat_le, IfOk, IfErr, OnOk, OnErr, MatchResult, Ok, Some, None};
ghost use Rattle.qh_limits.specs.Limits.{max_qubits};
ghost use Rattle.qh_text.specs.Decimal.{value_of};
ghost use Rattle.qh_text.specs.LineWords.{words_of};
ghost use Rattle.qh_gates.specs.declared.gate.Gate.{Gate as GateValue};
ghost use Rattle.qh_gates.specs.Circuits.{Fits, IsGate};
ghost use Rattle.qh_gates.specs.Faults.{IsAccepted};
ghost use Rattle.qh_circuit.specs.GateLines.{kept, word};
ghost use Rattle.qh_circuit.specs.Faults.{count_faults, first_fault, order_faults};
ghost use Rattle.qh_circuit.specs.Order.{IsLatest};
ghost use Rattle.qh_circuit.specs.Texts.{circuit_of, gates_in};
ghost use Rattle.qh_circuit.specs.Answers.{Tells};

use crate::fault::{CircuitFault, Why};
use crate::gate_line::{gate_in, next_number};
use crate::latest::Latest;
use qh_gates::{Circuit, Gate};
use qh_limits::{MAX_GATES, MAX_QUBITS};
use qh_text::{ContentLines, next_word};
use std::alloc::{AllocError, Global};

/// The circuit that a text spells, with its gates up to the greatest time. Gates of a later time are checked as the
/// others are, and left out. An Err is the first faulty line with its first fault, or want of memory.
pub fn read_circuit(alloc: Global, bytes: &[u8], max_time: u32) -> Result<Circuit, CircuitFault>
    ensures ok { IfOk result (λ circuit. circuit_of max_time bytes.now ≡ Ok circuit) }
    ensures fault { IfErr result (Tells (circuit_of max_time bytes.now)) }
{
    let mut lines = ContentLines::new(bytes);
    let Some(count) = lines.next() else {
        return Err(CircuitFault::Line {
            line: 0,
            why: Why::NoCount,
        });
    };
    let qubits = match count_in(count.bytes) {
        Ok(qubits) => qubits,
        Err(why) => {
            return Err(CircuitFault::Line {
                line: count.number,
                why,
            });
        }
    };
    read_gates(Circuit::start(alloc, qubits), lines, max_time)
}

/// The number of qubits that a count line spells, or the line's first fault.
fn count_in(line: &[u8]) -> Result<u32, Why>
    ensures fault { MatchResult result (λ _. first_fault (count_faults (words_of line.now)) ≡ None)
        (λ why. first_fault (count_faults (words_of line.now)) ≡ Some why) }
    ensures value { IfOk result (λ qubits. value_of (word 0 (words_of line.now)) ≡ qubits) }
    ensures some { IfOk result (λ qubits. 1 ≤ qubits) }
    ensures few { IfOk result (λ qubits. qubits ≤ max_qubits) }
{
    let Some((qubits, rest)) = next_number(line) else {
        return Err(Why::BadCount);
    };
    if qubits == 0 {
        return Err(Why::BadCount);
    }
    if qubits > MAX_QUBITS {
        return Err(Why::BadCount);
    }
    match next_word(rest) {
        Some(_) => Err(Why::Extra),
        None => Ok(qubits),
    }
}

/// The circuit with the gates of these lines.
fn read_gates(
    start: Circuit,
    lines: ContentLines<'_>,
    max_time: u32,
) -> Result<Circuit, CircuitFault>
    requires { start.gates ≡ [] }
    ensures ok { IfOk result (λ circuit. gates_in start.qubits max_time lines.entry ≡ Ok circuit) }
    ensures fault { IfErr result (Tells (gates_in start.qubits max_time lines.entry)) }
{
    let mut circuit = start;
    let mut latest = Latest::start();
    for line in lines {
        let gate = match gate_in(line.bytes, circuit.qubits()) {
            Ok(gate) => gate,
            Err(why) => {
                return Err(CircuitFault::Line {
                    line: line.number,
                    why,
                });
            }
        };
        if let Some(why) = order_fault(latest, &gate, circuit.gates().len(), max_time) {
            return Err(CircuitFault::Line {
                line: line.number,
                why,
            });
        }
        let Ok(()) = keep(&mut circuit, gate, max_time) else {
            return Err(CircuitFault::Memory);
        };
        latest = latest.after(&gate);
    }
    Ok(circuit)
}

/// The first of the faults that a gate line has by the gate lines before it.
fn order_fault(latest: Latest, gate: &Gate, count: usize, max_time: u32) -> Option<Why>
    requires first { gate.now.q0 < 64 }
    requires second { gate.now.q1 < 64 }
    ensures { (before : List GateValue) → IsLatest latest before → count ≡ length (kept max_time before)
        → result ≡ first_fault (order_faults max_time before gate.now) }
{
    if gate.time < latest.time {
        return Some(Why::TimeBack);
    }
    if latest.overlaps(gate) {
        return Some(Why::Overlap);
    }
    if gate.time > max_time {
        return None;
    }
    if count < MAX_GATES {
        return None;
    }
    Some(Why::TooManyGates)
}

/// Appends the gate, where its time is at most the greatest.
fn keep(circuit: &mut Circuit, gate: Gate, max_time: u32) -> Result<(), AllocError>
    requires one { IsGate gate }
    requires accepted { gate.time ≤ max_time → IsAccepted circuit.old gate }
    ensures ok { OnOk result (circuit.new ≡ record circuit.old { gates = circuit.old.gates ++ kept max_time (gate ∷ []) }) }
{
    if gate.time > max_time {
        return Ok(());
    }
    circuit.push(gate)?;
    Ok(())
}
