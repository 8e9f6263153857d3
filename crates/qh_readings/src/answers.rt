//! What the readers of texts say.
ghost use Rattle.std.specs.Prelude.{◌≡◌, ◌++◌, IfOk, codes, string_bytes};
ghost use Rattle.hex.specs.Hex.{encode_lower};
ghost use Rattle.qh_circuit.specs.Spelling.{circuit_text};
ghost use Rattle.qh_circuit.specs.Texts.{circuit_of};

use qh_bits::{BitsFault, read_bits};
use qh_circuit::{CircuitFault, print_circuit, read_circuit};
use qh_limits::MAX_QUBITS;
use std::alloc::{AllocError, Global};

/// `ok` and the circuit as it is printed, in hex, or the first faulty line with its fault.
pub fn of_circuit(alloc: Global, text: &[u8], max_time: u32) -> Result<String, AllocError>
    ensures accepted { IfOk result (λ t. IfOk (circuit_of max_time text.now) (λ c. string_bytes t ≡ codes "ok " ++ encode_lower (circuit_text c))) }
{
    match read_circuit(alloc, text, max_time) {
        Ok(circuit) => {
            let printed = print_circuit(alloc, &circuit)?;
            let printed = hex::encode(alloc, printed)?;
            format!(in alloc; "ok {printed}")
        }
        Err(CircuitFault::Line { line, why }) => format!(in alloc; "line {line}: {why}"),
        Err(CircuitFault::Memory) => Err(AllocError),
    }
}

/// `ok` and the basis indices, or the first faulty line with its fault.
pub fn of_bits(alloc: Global, text: &[u8], qubits: u32) -> Result<String, AllocError> {
    if qubits == 0 || qubits > MAX_QUBITS {
        return String::from_str(alloc, "no such number of qubits");
    }
    match read_bits(alloc, text, qubits) {
        Ok(indices) => of_indices(alloc, &indices),
        Err(BitsFault::Line { line, why }) => format!(in alloc; "line {line}: {why:?}"),
        Err(BitsFault::Memory) => Err(AllocError),
    }
}

/// `ok` and the numbers.
fn of_indices(alloc: Global, indices: &[u64]) -> Result<String, AllocError> {
    let mut answer = String::from_str(alloc, "ok")?;
    for index in indices {
        let item = format!(in alloc; " {index}")?;
        answer.push_str(item.as_str())?;
    }
    Ok(answer)
}
