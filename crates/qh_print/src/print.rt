//! Writes a line.
ghost use Rattle.std.specs.Prelude.{◌≡◌, ◌≤◌, ◌<◌, ◌^◌, ◌++◌, OnOk, OnErr};
ghost use Rattle.qh_limits.specs.Limits.{max_qubits};
ghost use Rattle.qh_print.specs.Output.{IsShowable, value_line};

use qh_ring::Canon;
use qh_text::{push_bits, push_word};
use std::alloc::{AllocError, Global};

/// The most bytes of a line: 40 digits, four numbers of 38 digits with their signs, a power of four digits, the
/// five spaces between these and the line feed.
const LONGEST_LINE: usize = 206;

/// Appends the line `bits a b c d k` of a basis index and its amplitude, of 1 to 40 qubits.
///
/// The first character is bit 0 of `bits`, for qubit 0. The value is its own canonical form, within 126 bits, with k at
/// most 4,096. `out` grows at most once. An Err is want of memory, and `out` then holds what it held.
pub fn print_line(
    alloc: Global,
    out: &mut Vec<u8>,
    bits: u64,
    qubits: u32,
    value: &Canon,
) -> Result<(), AllocError>
    requires some { 1 ≤ qubits }
    requires few { qubits ≤ max_qubits }
    requires below { bits < 2 ^ qubits }
    requires showable { IsShowable value.now }
    ensures ok { OnOk result (out.new.items ≡ out.old.items ++ value_line qubits bits value.now) }
    ensures err { OnErr result (out.new.items ≡ out.old.items) }
{
    let mut line = Vec::with_capacity(alloc, LONGEST_LINE)?;
    push_line(&mut line, qubits, bits, value)?;
    out.extend_from_slice(line.as_slice())
}

/// Appends the line of an amplitude.
#[tactic(auto, unfolding(crate::specs::Output::value_line))]
fn push_line(line: &mut Vec<u8>, qubits: u32, index: u64, value: &Canon) -> Result<(), AllocError>
    ensures { OnOk result (line.new.items ≡ line.old.items ++ value_line qubits index value.now) }
{
    push_bits(line, qubits, index)?;
    push_word(line, value.z.a)?;
    push_word(line, value.z.b)?;
    push_word(line, value.z.c)?;
    push_word(line, value.z.d)?;
    push_word(line, value.k)?;
    line.push(b'\n')?;
    Ok(())
}
