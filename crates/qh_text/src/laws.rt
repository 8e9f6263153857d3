//! The laws of the spelling of basis indices, as the contracts of calls that do nothing.
ghost use Rattle.std.specs.Prelude.{◌≡◌, ◌-◌, ◌<◌, ◌^◌, ℕ, List, IsTrue, length, slice_index};
ghost use Rattle.std.specs.Int.{bit_at};
ghost use Rattle.qh_text.specs.Bitstrings.{bits_text, index_of, is_bitstring};

/// A bitstring is what its own index is spelled as, with as many characters; that index has no more bits, and bit q of
/// it is character q.
pub fn string_of_its_index()
    ensures spelled { (s : List ℕ) → IsTrue (is_bitstring s) → bits_text (length s) (index_of s) ≡ s }
    ensures below { (s : List ℕ) → IsTrue (is_bitstring s) → index_of s < 2 ^ length s }
    ensures bits { (s : List ℕ) (q : ℕ) → IsTrue (is_bitstring s) → q < length s → bit_at (index_of s) q ≡ slice_index s q - 48 }
{}

/// A basis index of n bits is named by what it is spelled as, which is a bitstring of n characters.
pub fn index_of_its_string()
    ensures named { (n x : ℕ) → x < 2 ^ n → index_of (bits_text n x) ≡ x }
    ensures bits { (n x : ℕ) → IsTrue (is_bitstring (bits_text n x)) }
    ensures characters { (n x : ℕ) → length (bits_text n x) ≡ n }
{}
