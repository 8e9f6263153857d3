//! Reads a line.
ghost use Rattle.std.specs.Prelude.{◌≡◌, ◌≤◌, ◌<◌, ◌↔◌, ℕ, Some, IfSome, IsTrue};
ghost use Rattle.qh_limits.specs.Limits.{max_qubits};
ghost use Rattle.qh_ring.specs.declared.canon.Canon.{Canon};
ghost use Rattle.qh_print.specs.Output.{IsLine, IsShowable};

use crate::word::{read_omega, read_power};
use qh_limits::{COEFFICIENT_BITS, MAX_GATES};
use qh_ring::{Canon, reduce, within};
use qh_text::{cut_at, index_of};

/// The largest power of √2 below a value that is shown: each gate of a circuit has at most one factor 1/√2.
const LARGEST_POWER: u32 = MAX_GATES as u32;

/// Whether a line can show the value: within 126 bits, k at most 4,096, and its own canonical form.
fn is_showable(value: &Canon) -> bool
    ensures { IsTrue result ↔ IsShowable value.now }
{
    if value.k > LARGEST_POWER {
        return false;
    }
    if !within(&value.z, COEFFICIENT_BITS) {
        return false;
    }
    reduce(&value.z, value.k).k == value.k
}

/// The basis index and the amplitude of a line `bits a b c d k` with its line feed, of 1 to 40 qubits.
///
/// Some exactly where the bytes are what `print_line` appends for these: one space between words, no leading zero, no
/// `-0`, no `+`, and a value in canonical form. It takes no memory, and time in proportion to the length.
pub fn read_line(bytes: &[u8], qubits: u32) -> Option<(u64, Canon)>
    requires some { 1 ≤ qubits }
    requires few { qubits ≤ max_qubits }
    ensures found { IfSome result (λ x. IsLine qubits x.0 x.1 bytes.now) }
    ensures only { (x : ℕ) (v : Canon) → IsLine qubits x v bytes.now → result ≡ Some (x, v) }
{
    let Some((digits, rest)) = cut_at(bytes, b' ') else {
        return None;
    };
    if digits.len() != qubits as usize {
        return None;
    }
    let Some(index) = index_of(digits) else {
        return None;
    };
    let Some((z, rest)) = read_omega(rest) else {
        return None;
    };
    let Some(k) = read_power(rest) else {
        return None;
    };
    let value = Canon { z, k };
    if is_showable(&value) {
        Some((index, value))
    } else {
        None
    }
}
