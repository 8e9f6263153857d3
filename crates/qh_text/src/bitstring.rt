//! The spelling of a basis index as a bitstring.
ghost use Rattle.std.specs.Prelude.{◌≡◌, ◌≤◌, ◌<◌, ◌^◌, ◌++◌, ℕ, Some, IfSome, OnOk, OnErr, IsTrue, length, true};
ghost use Rattle.std.specs.Option.{SomeIff};
ghost use Rattle.qh_text.specs.Bitstrings.{bits_text, index_of, is_bit, is_bitstring};
ghost use Rattle.qh_text.specs.Words.{Extends};

use std::alloc::AllocError;

fn is_bit(character: u8) -> bool
    ensures { result ≡ is_bit character }
{
    character == b'0' || character == b'1'
}

/// Whether each character is `0` or `1`.
pub fn is_bitstring(string: &[u8]) -> bool
    ensures { result ≡ is_bitstring string.now }
{
    string.iter().all(|character| is_bit(*character))
}

/// The basis index that a bitstring of at most 64 characters names, its first character for bit 0. None exactly where
/// a character is neither `0` nor `1`. At most 64 calls deep.
pub fn index_of(string: &[u8]) -> Option<u64>
    requires { length string.now ≤ 64 }
    ensures value { SomeIff result (IsTrue (is_bitstring string.now)) (index_of string.now) }
    ensures below { IfSome result (λ x. x < 2 ^ length string.now) }
    ensures found { IfSome result (λ x. string.now ≡ bits_text (length string.now) x) }
    ensures only { (x : ℕ) → x < 2 ^ length string.now → string.now ≡ bits_text (length string.now) x → result ≡ Some x }
{
    match string {
        [] => Some(0),
        [first, rest @ ..] => {
            let high = index_of(rest)?;
            match *first {
                b'0' => Some(2 * high),
                b'1' => Some(2 * high + 1),
                _ => None,
            }
        }
    }
}

/// Appends a character for each qubit, bit 0 of the index first. An Err is want of memory, and `text` then begins with
/// what it held.
pub fn push_bits(text: &mut Vec<u8>, qubits: u32, index: u64) -> Result<(), AllocError>
    ensures ok { OnOk result (text.new.items ≡ text.old.items ++ bits_text qubits index) }
    ensures err { OnErr result (Extends text.old.items text.new.items) }
{
    let mut rest = index;
    for q in 0..qubits {
        text.push(b'0' + (rest % 2) as u8)?;
        rest /= 2;
    }
    Ok(())
}
