//! Writes a line.
ghost use Rattle.std.specs.Prelude.{◌≡◌, ◌≤◌, ◌<◌, ◌^◌, ◌++◌, OnOk, OnErr};
ghost use Rattle.qh_limits.specs.Limits.{max_qubits};
ghost use Rattle.qh_prob.specs.Forms.{IsLeast, prob_line};

use crate::prob::Prob;
use qh_text::{push_bits, push_word};
use std::alloc::{AllocError, Global};

/// The most bytes of a line: 40 digits, two numbers of 39 digits with their signs, a power of ten digits, the three
/// spaces between these and the line feed.
const LONGEST_LINE: usize = 134;

/// Appends the line `bits P Q k` of a basis index and its probability (P + Q√2)/2^k, of 1 to 40 qubits.
///
/// The first character is bit 0 of `bits`, for qubit 0. The probability is in least form. `out` grows at most once. An
/// Err is want of memory, and `out` then holds what it held.
pub fn print_prob(
    alloc: Global,
    out: &mut Vec<u8>,
    bits: u64,
    qubits: u32,
    prob: &Prob,
    k: u32,
) -> Result<(), AllocError>
    requires some { 1 ≤ qubits }
    requires few { qubits ≤ max_qubits }
    requires below { bits < 2 ^ qubits }
    requires least { IsLeast prob.now k prob.now k }
    ensures ok { OnOk result (out.new.items ≡ out.old.items ++ prob_line qubits bits prob.now k) }
    ensures err { OnErr result (out.new.items ≡ out.old.items) }
{
    let mut line = Vec::with_capacity(alloc, LONGEST_LINE)?;
    push_line(&mut line, qubits, bits, prob, k)?;
    out.extend_from_slice(line.as_slice())
}

/// Appends the line of a probability.
#[tactic(auto, unfolding(crate::specs::Forms::prob_line))]
fn push_line(
    line: &mut Vec<u8>,
    qubits: u32,
    index: u64,
    prob: &Prob,
    k: u32,
) -> Result<(), AllocError>
    ensures { OnOk result (line.new.items ≡ line.old.items ++ prob_line qubits index prob.now k) }
{
    push_bits(line, qubits, index)?;
    push_word(line, prob.p)?;
    push_word(line, prob.q)?;
    push_word(line, k)?;
    line.push(b'\n')?;
    Ok(())
}
