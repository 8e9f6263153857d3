//! The text of a job.
ghost use Rattle.std.specs.Prelude.{◌≡◌, ◌++◌, IfOk, OnOk};
ghost use Rattle.std.specs.List.{flat_map};
ghost use Rattle.qh_plan.specs.Jobs.{Job};
ghost use Rattle.qh_plan.specs.Texts.{asked_text, bits_line, gates_text, job_text, prefix_text, word};

use qh_circuit::print_circuit;
use qh_gates::Circuit;
use qh_text::{push_bits, push_word};
use std::alloc::{AllocError, Global};

/// Appends a space and the number, for each of the numbers.
fn push_words(text: &mut Vec<u8>, numbers: &[u32]) -> Result<(), AllocError>
    ensures { OnOk result (text.new.items ≡ text.old.items ++ flat_map word numbers.now) }
{
    for number in numbers {
        push_word(text, *number)?;
    }
    Ok(())
}

/// Appends a line for each bitstring.
fn push_bits_lines(text: &mut Vec<u8>, qubits: u32, bits: &[u64]) -> Result<(), AllocError>
    ensures { OnOk result (text.new.items ≡ text.old.items ++ flat_map (bits_line qubits) bits.now) }
{
    for index in bits {
        push_bits(text, qubits, *index)?;
        text.push(b'\n')?;
    }
    Ok(())
}

/// Appends the line of the number of gates, and the printed circuit.
fn push_circuit(alloc: Global, text: &mut Vec<u8>, circuit: &Circuit) -> Result<(), AllocError>
    ensures { OnOk result (text.new.items ≡ text.old.items ++ gates_text circuit.now) }
{
    text.extend_from_slice(b"gates")?;
    push_word(text, circuit.gates().len())?;
    text.push(b'\n')?;
    let printed = print_circuit(alloc, circuit)?;
    text.extend_from_slice(printed.as_slice())
}

/// Appends the lines from the number of bitstrings on.
fn push_asked(
    alloc: Global,
    text: &mut Vec<u8>,
    circuit: &Circuit,
    bits: &[u64],
) -> Result<(), AllocError>
    ensures { OnOk result (text.new.items ≡ text.old.items ++ asked_text circuit.now bits.now) }
{
    text.extend_from_slice(b"bits")?;
    push_word(text, bits.len())?;
    text.push(b'\n')?;
    push_bits_lines(text, circuit.qubits(), bits)?;
    push_circuit(alloc, text, circuit)
}

/// Appends which prefix values the run sums.
fn push_prefix(text: &mut Vec<u8>, prefix: Option<u32>) -> Result<(), AllocError>
    ensures { OnOk result (text.new.items ≡ text.old.items ++ prefix_text prefix) }
{
    let Some(value) = prefix else {
        return text.extend_from_slice(b"prefix all");
    };
    text.extend_from_slice(b"prefix")?;
    push_word(text, value)
}

/// The text of the job with these parts.
pub(crate) fn job_text(
    alloc: Global,
    circuit: &Circuit,
    part: &[u32],
    p: u32,
    r: u32,
    prefix: Option<u32>,
    bits: &[u64],
) -> Result<Vec<u8>, AllocError>
    ensures { IfOk result (λ t. t.items ≡ job_text (record { circuit = circuit.now; part = part.now; p = p; r = r; prefix = prefix; bits = bits.now })) }
{
    let mut text = Vec::from_slice(alloc, b"job 1\npart")?;
    push_words(&mut text, part)?;
    text.extend_from_slice(b"\nsplit")?;
    push_word(&mut text, p)?;
    push_word(&mut text, r)?;
    text.push(b'\n')?;
    push_prefix(&mut text, prefix)?;
    text.push(b'\n')?;
    push_asked(alloc, &mut text, circuit, bits)?;
    Ok(text)
}
