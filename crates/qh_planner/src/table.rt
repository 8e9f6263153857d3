//! The table of all consecutive cuts.
ghost use Rattle.std.specs.Prelude.{◌≡◌, ◌≢◌, ◌≤◌, ◌<◌, ◌^◌, All, IfOk};
ghost use Rattle.qh_limits.specs.Limits.{max_bitstrings, max_qubits};
ghost use Rattle.qh_plan.specs.declared.fault.PlanFault.TheVariants as Faults;
ghost use Rattle.qh_plan.specs.Plans.{AreBits};
ghost use Rattle.qh_planner.specs.declared.row.CutAnswer.TheVariants as Answers;
ghost use Rattle.qh_planner.specs.Counts.{fixed_length};
ghost use Rattle.qh_planner.specs.Cuts.{IsTable};

use crate::crossing::crossing_at;
use crate::refusal::{Split, answer_by_counts};
use crate::row::CutRow;
use crate::text::loose_text;
use qh_gates::Circuit;
use qh_text::push_word;
use std::alloc::{AllocError, Global};

/// A row for each m from 1 to the number of qubits less 1, in order: what `plan` answers where part 1 is the qubits
/// below m, of the same circuit, split, prefix value and bitstrings.
///
/// There are 1 to 4,096 bitstrings, each a basis index of the circuit. An Err is want of memory. It goes once over the
/// gates a row, and makes no job.
pub fn cut_table(
    alloc: Global,
    circuit: &Circuit,
    p: u32,
    r: u32,
    w: Option<u32>,
    bits: &[u64],
) -> Result<Vec<CutRow>, AllocError>
    requires { AreBits circuit.now.qubits bits.now }
    ensures table { IfOk result (λ v. IsTable (record { circuit = circuit.now; p = p; r = r; prefix = w; bits = bits.now }) v.items) }
    ensures told { IfOk result (λ v. All (λ row. row.answer ≢ Answers.Refused Faults.Memory) v.items) }
{
    let qubits = circuit.qubits();
    let split = Split { p, r, prefix: w };
    let fixed = fixed_length(qubits, bits.len() as u64);
    let mut text = loose_text(alloc, circuit, p, r, w, bits)?;
    let mut table = Vec::new(alloc);
    for size in 1..qubits {
        push_word(&mut text, size - 1)?;
        let crossing = crossing_at(circuit.gates(), size, p, r);
        let bytes = fixed + text.len() as u64;
        let answer = answer_by_counts(qubits, size, &crossing, &split, bytes, bits.len() as u64);
        table.push(CutRow { size, answer })?;
    }
    Ok(table)
}

/// The bytes of a job's text that are the names and ends of lines, and the lines of the bitstrings.
fn fixed_length(qubits: u32, bits: u64) -> u64
    requires few { qubits ≤ max_qubits }
    requires bits { bits ≤ max_bitstrings }
    ensures value { result ≡ fixed_length qubits bits }
    ensures small { result < 2 ^ 20 }
{
    35 + bits * (u64::from(qubits) + 1)
}
