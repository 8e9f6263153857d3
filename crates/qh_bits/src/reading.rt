//! A text of bitstrings.
ghost use Rattle.std.specs.Prelude.{◌≡◌, ◌≤◌, ◌<◌, ◌^◌, ◌⊎◌, Ok, Err, IfOk, IfErr, All, length, map};
ghost use Rattle.qh_limits.specs.Limits.{max_bitstrings, max_qubits};
ghost use Rattle.qh_text.specs.Bitstrings.{bits_text};
ghost use Rattle.qh_bits.specs.Texts.{bits_of, strings_of};

use crate::faults::{BitsFault, BitsWhy};
use crate::string::read_string;
use qh_text::{ContentLines, trimmed};
use std::alloc::Global;

/// The basis indices of the strings of a text, in the order of the lines, repeats included.
///
/// A string has a character for each qubit, of which there are 1 to 40, the first for qubit 0. A text has 1 to 4,096
/// strings. The first faulty line is answered with its first fault, in the order of `BitsWhy`. `Memory` comes for want
/// of memory alone. Each byte is looked at a few times, and memory is taken for the indices alone.
pub fn read_bits(alloc: Global, bytes: &[u8], qubits: u32) -> Result<Vec<u64>, BitsFault>
    requires some { 1 ≤ qubits }
    requires few { qubits ≤ max_qubits }

    // The answer is what the text says, or want of memory.
    ensures indices { IfOk result (λ v. bits_of qubits bytes.now ≡ Ok v.items) }
    ensures fault { IfErr result (λ fault. (fault ≡ BitsFault.Memory) ⊎ (bits_of qubits bytes.now ≡ Err fault)) }

    // Each index is spelled as its string.
    ensures strings { IfOk result (λ v. map (bits_text qubits) v.items ≡ strings_of bytes.now) }
    ensures below { IfOk result (λ v. All (λ index. index < 2 ^ qubits) v.items) }
    ensures count { IfOk result (λ v. (1 ≤ length v.items) × (length v.items ≤ max_bitstrings)) }
{
    let mut indices = Vec::new(alloc);
    for line in ContentLines::new(bytes) {
        match read_string(trimmed(line.bytes), qubits, indices.len()) {
            Ok(index) => {
                let Ok(()) = indices.push(index) else {
                    return Err(BitsFault::Memory);
                };
            }
            Err(why) => {
                return Err(BitsFault::Line {
                    line: line.number,
                    why,
                });
            }
        }
    }
    if indices.is_empty() {
        return Err(BitsFault::Line {
            line: 0,
            why: BitsWhy::NoStrings,
        });
    }
    Ok(indices)
}
