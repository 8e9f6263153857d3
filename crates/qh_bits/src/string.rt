//! One bitstring.
ghost use Rattle.std.specs.Prelude.{◌≡◌, ◌≤◌, ◌<◌, ◌^◌, Some, None, IfOk, IfErr, if◌then◌else◌};
ghost use Rattle.qh_limits.specs.Limits.{max_bitstrings, max_qubits};
ghost use Rattle.qh_text.specs.Bitstrings.{index_of, is_bitstring};
ghost use Rattle.qh_bits.specs.Strings.{fault_of};

use crate::faults::BitsWhy;
use qh_limits::MAX_BITSTRINGS;
use qh_text::{index_of, is_bitstring};

/// The fault of a string that has not a character for each qubit.
fn length_fault(string: &[u8]) -> BitsWhy
    ensures { result ≡ (if is_bitstring string.now then BitsWhy.Length else BitsWhy.Letter) }
{
    if is_bitstring(string) {
        BitsWhy::Length
    } else {
        BitsWhy::Letter
    }
}

/// The basis index of a string that so many strings stand before, or its first fault. Bit q of the index is character q.
#[tactic(auto, using(crate::proofs::StringLemmas::faults))]
pub(crate) fn read_string(string: &[u8], qubits: u32, before: usize) -> Result<u64, BitsWhy>
    requires { qubits ≤ max_qubits }
    ensures few { IfOk result (λ _. before < max_bitstrings) }
    ensures sound { IfOk result (λ _. fault_of qubits before string.now ≡ None) }
    ensures index { IfOk result (λ index. index ≡ index_of string.now) }
    ensures below { IfOk result (λ index. index < 2 ^ qubits) }
    ensures fault { IfErr result (λ why. fault_of qubits before string.now ≡ Some why) }
{
    if before >= MAX_BITSTRINGS {
        return Err(BitsWhy::TooMany);
    }
    if string.len() != qubits as usize {
        return Err(length_fault(string));
    }
    let Some(index) = index_of(string) else {
        return Err(BitsWhy::Letter);
    };
    Ok(index)
}
