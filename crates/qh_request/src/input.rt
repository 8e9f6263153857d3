//! Takes the circuit and the basis indices of a request.
ghost use Rattle.std.specs.Prelude.{◌≡◌, ◌≤◌, ◌<◌, ◌^◌, ℕ, List, Some, IfOk, IfErr, IfSome, length, All, min};
ghost use Rattle.qh_limits.specs.Limits.{max_qubits, max_bitstrings};
ghost use Rattle.qh_limits.specs.Counts.{Rose};
ghost use Rattle.qh_io.specs.Reading.{IsReadWhole};
ghost use Rattle.qh_plan.specs.Plans.{AreBits};
ghost use Rattle.qh_words.specs.Size.{IsGenSize};
ghost use Rattle.qh_words.specs.declared.size.GenSize.{GenSize as Size};
ghost use Rattle.qh_request.specs.Seen.{seen};
ghost use Rattle.qh_request.specs.Inputs.{IsCircuitFile, IsBitsFile, IsRead, IsGenerated, IsInput, first_indices};
ghost use Rattle.qh_request.specs.Parts.{CircuitMayStop, BitsMayStop, FilesMayStop, InputMayStop};

use crate::{Input, Refusal, Stop};
use qh_bits::{BitsFault, read_bits};
use qh_circuit::{CircuitFault, read_circuit};
use qh_gates::Circuit;
use qh_gen::generate;
use qh_io::{ReadAllFault, Source, read_all};
use qh_limits::{MAX_BITS_BYTES, MAX_CIRCUIT_BYTES};
use qh_words::{GenSize, Options};
use std::alloc::{AllocError, Global};

/// Reads the circuit: its gates up to this time.
fn take_circuit<C: Source>(alloc: Global, time: u32, circuit: &mut C) -> Result<Circuit, Stop>
    ensures later { C.faults circuit.old ≤ C.faults circuit.new }
    ensures ok { IfOk result (λ c. (bytes : List ℕ) × IsReadWhole (C.left circuit.old) (C.left circuit.new) bytes × IsCircuitFile time c bytes) }
    ensures err { IfErr result (CircuitMayStop time (C.left circuit.old) (Rose (C.faults circuit.old) (C.faults circuit.new))) }
{
    let bytes = match read_all(alloc, circuit, MAX_CIRCUIT_BYTES) {
        Ok(bytes) => bytes,
        Err(ReadAllFault::Fault) => return Err(Stop::ReadFault(Input::OfCircuit)),
        Err(ReadAllFault::TooLong) => return Err(Stop::Refused(Refusal::CircuitTooLong)),
        Err(ReadAllFault::Memory) => return Err(Stop::Memory),
    };
    match read_circuit(alloc, &bytes, time) {
        Ok(value) => Ok(value),
        Err(CircuitFault::Line { line, why }) => {
            Err(Stop::Refused(Refusal::CircuitLine { line, why }))
        }
        Err(CircuitFault::Memory) => Err(Stop::Memory),
    }
}

/// Reads the bitstrings.
fn take_bits<B: Source>(alloc: Global, bits: &mut B, circuit: &Circuit) -> Result<Vec<u64>, Stop>
    ensures later { B.faults bits.old ≤ B.faults bits.new }
    ensures ok { IfOk result (λ v. (bytes : List ℕ) × IsReadWhole (B.left bits.old) (B.left bits.new) bytes × IsBitsFile circuit.now v.items bytes) }
    ensures below { IfOk result (λ v. All (λ x. x < 2 ^ circuit.now.qubits) v.items) }
    ensures count { IfOk result (λ v. (1 ≤ length v.items) × (length v.items ≤ max_bitstrings)) }
    ensures err { IfErr result (BitsMayStop circuit.now (B.left bits.old) (Rose (B.faults bits.old) (B.faults bits.new))) }
{
    let bytes = match read_all(alloc, bits, MAX_BITS_BYTES) {
        Ok(bytes) => bytes,
        Err(ReadAllFault::Fault) => return Err(Stop::ReadFault(Input::OfBits)),
        Err(ReadAllFault::TooLong) => return Err(Stop::Refused(Refusal::BitsTooLong)),
        Err(ReadAllFault::Memory) => return Err(Stop::Memory),
    };
    match read_bits(alloc, &bytes, circuit.qubits()) {
        Ok(indices) => Ok(indices),
        Err(BitsFault::Line { line, why }) => Err(Stop::Refused(Refusal::BitsLine { line, why })),
        Err(BitsFault::Memory) => Err(Stop::Memory),
    }
}

/// Reads both files.
fn take_files<C: Source, B: Source>(
    alloc: Global,
    time: u32,
    circuit: &mut C,
    bits: &mut B,
) -> Result<(Circuit, Vec<u64>), Stop>
    ensures later_circuit { C.faults circuit.old ≤ C.faults circuit.new }
    ensures later_bits { B.faults bits.old ≤ B.faults bits.new }
    ensures read { IfOk result (λ x. IsRead time (seen C.left C.faults circuit.old circuit.new) (seen B.left B.faults bits.old bits.new) x.0 x.1.items) }
    ensures indices { IfOk result (λ x. AreBits x.0.qubits x.1.items) }
    ensures cause { IfErr result (FilesMayStop time (seen C.left C.faults circuit.old circuit.new) (seen B.left B.faults bits.old bits.new)) }
{
    let value = match take_circuit(alloc, time, circuit) {
        Ok(value) => value,
        Err(stop) => return Err(stop),
    };
    match take_bits(alloc, bits, &value) {
        Ok(indices) => Ok((value, indices)),
        Err(stop) => Err(stop),
    }
}

/// The first indices of so many qubits, at most eight.
fn first_indices(alloc: Global, qubits: u32) -> Result<Vec<u64>, AllocError>
    requires { qubits ≤ max_qubits }
    ensures { IfOk result (λ v. v.items ≡ first_indices qubits) }
{
    let count = (1u64 << qubits).min(8);
    let mut indices = Vec::new(alloc);
    for index in 0..count {
        indices.push(index)?;
    }
    Ok(indices)
}

/// The circuit of a size, and its first indices.
fn generated(alloc: Global, size: GenSize) -> Result<(Circuit, Vec<u64>), AllocError>
    requires { IsGenSize size }
    ensures input { IfOk result (λ x. IsGenerated size x.0 x.1.items) }
    ensures indices { IfOk result (λ x. AreBits x.0.qubits x.1.items) }
{
    let circuit = generate(alloc, size.start, size.rows, size.cols, size.depth)?;
    let indices = first_indices(alloc, circuit.qubits())?;
    Ok((circuit, indices))
}

/// Takes the circuit and the basis indices of a request: from both files, or generated, where nothing is read.
pub fn take_input<C: Source, B: Source>(
    alloc: Global,
    options: &Options,
    circuit: &mut C,
    bits: &mut B,
) -> Result<(Circuit, Vec<u64>), Stop>
    requires { IfSome options.now.generated IsGenSize }
    ensures later_circuit { C.faults circuit.old ≤ C.faults circuit.new }
    ensures later_bits { B.faults bits.old ≤ B.faults bits.new }
    ensures input { IfOk result (λ x. IsInput options.now.generated options.now.max_time (seen C.left C.faults circuit.old circuit.new) (seen B.left B.faults bits.old bits.new) x.0 x.1.items) }
    ensures indices { IfOk result (λ x. AreBits x.0.qubits x.1.items) }
    ensures cause { IfErr result (InputMayStop options.now.generated options.now.max_time (seen C.left C.faults circuit.old circuit.new) (seen B.left B.faults bits.old bits.new)) }
    ensures unread { (size : Size) → options.now.generated ≡ Some size → (circuit.new ≡ circuit.old) × (bits.new ≡ bits.old) }
{
    let Some(size) = options.generated else {
        return take_files(alloc, options.max_time, circuit, bits);
    };
    match generated(alloc, size) {
        Ok(input) => Ok(input),
        Err(_) => Err(Stop::Memory),
    }
}
