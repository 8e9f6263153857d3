//! The words of a line, read one after the other.

ghost use Rattle.std.specs.Prelude.{◌≡◌, ◌==◌, ◌&&◌, ◌^◌, ◌≤◌, false, length, IfOk, MatchOption, MatchResult, None, Some};
ghost use Rattle.qh_text.specs.LineWords.{words_of};
ghost use Rattle.qh_gates.specs.Tables.{qubits_of};
ghost use Rattle.qh_gates.specs.Circuits.{Fits};
ghost use Rattle.qh_gates.specs.Names.{kind_named};
ghost use Rattle.qh_circuit.specs.GateLines.{gate_of, is_number_below, word};
ghost use Rattle.qh_circuit.specs.Faults.{first_fault, gate_faults};
ghost use Rattle.qh_circuit.specs.Reads.{BeginsWithKind, BeginsWithNumber, BeginsWithQubits, have_qubits};

use crate::fault::Why;
use qh_gates::{Gate, Kind, arity, kind_of};
use qh_text::{next_word, number_of};

/// The number that the next word spells, and what stands behind it.
pub fn next_number(line: &[u8]) -> Option<(u32, &[u8])>
    ensures { MatchOption result (is_number_below (2 ^ 32) (word 0 (words_of line.now)) ≡ false)
        (λ x. BeginsWithNumber (2 ^ 32) (words_of line.now) x.0 (words_of x.1.now)) }
{
    let (word, rest) = next_word(line)?;
    let number = number_of(word)?;
    Some((number, rest))
}

/// The kind that the next word names, and what stands behind it.
fn next_kind(line: &[u8]) -> Option<(Kind, &[u8])>
    ensures { MatchOption result (kind_named (word 0 (words_of line.now)) ≡ None)
        (λ x. BeginsWithKind (words_of line.now) x.0 (words_of x.1.now)) }
{
    let Some((word, rest)) = next_word(line) else {
        return None;
    };
    let Some(kind) = kind_of(word) else {
        return None;
    };
    Some((kind, rest))
}

/// The qubit that the next word spells, in a circuit of so many qubits, and what stands behind it.
fn next_qubit(line: &[u8], qubits: u32) -> Option<(u32, &[u8])>
    ensures { MatchOption result (is_number_below qubits (word 0 (words_of line.now)) ≡ false)
        (λ x. BeginsWithNumber qubits (words_of line.now) x.0 (words_of x.1.now)) }
{
    let (number, rest) = next_number(line)?;
    if number < qubits {
        Some((number, rest))
    } else {
        None
    }
}

/// The qubits of a gate of this kind, where one qubit counts twice, and what stands behind them.
fn next_qubits(kind: Kind, line: &[u8], qubits: u32) -> Option<(u32, u32, &[u8])>
    ensures { MatchOption result (have_qubits qubits (qubits_of kind) (words_of line.now) ≡ false)
        (λ x. BeginsWithQubits qubits (qubits_of kind) (words_of line.now) x.0 x.1 (words_of x.2.now)) }
{
    let (q0, rest) = next_qubit(line, qubits)?;
    if arity(kind) == 1 {
        return Some((q0, q0, rest));
    }
    let (q1, rest) = next_qubit(rest, qubits)?;
    Some((q0, q1, rest))
}

/// Whether a gate on two qubits has the same qubit twice.
fn are_one_qubit(kind: Kind, q0: u32, q1: u32) -> bool
    ensures { result ≡ (qubits_of kind == 2 && q0 == q1) }
{
    arity(kind) == 2 && q0 == q1
}

/// The gate that a line spells in a circuit of so many qubits, or the first of the faults that the line has by itself.
pub fn gate_in(line: &[u8], qubits: u32) -> Result<Gate, Why>
    ensures fault { MatchResult result (λ _. first_fault (gate_faults qubits (words_of line.now)) ≡ None)
        (λ why. first_fault (gate_faults qubits (words_of line.now)) ≡ Some why) }
    ensures gate { IfOk result (λ gate. gate ≡ gate_of (words_of line.now)) }
    ensures fits { IfOk result (Fits qubits) }
{
    let Some((time, rest)) = next_number(line) else {
        return Err(Why::BadTime);
    };
    let Some((kind, rest)) = next_kind(rest) else {
        return Err(Why::UnknownGate);
    };
    let Some((q0, q1, rest)) = next_qubits(kind, rest, qubits) else {
        return Err(Why::BadQubit);
    };
    if are_one_qubit(kind, q0, q1) {
        return Err(Why::SameQubit);
    }
    match next_word(rest) {
        Some(_) => Err(Why::Extra),
        None => Ok(Gate { time, kind, q0, q1 }),
    }
}
