//! Reads the numbers of a line.
ghost use Rattle.std.specs.Prelude.{◌≡◌, ◌<◌, ◌^◌, ◌++◌, ◌∷◌, [], ℕ, ℤ, List, Some, IfSome, IsSomeAnd, decimal};
ghost use Rattle.std.specs.Fmt.{signed_decimal};
ghost use Rattle.qh_limits.specs.Limits.{coefficient_bits};
ghost use Rattle.qh_ring.specs.declared.number.Omega.{Omega};
ghost use Rattle.qh_ring.specs.Numbers.{IsBelow, IsWithin};
ghost use Rattle.qh_print.specs.Words.{numbers_text};

use itoa::Buffer;
use qh_ring::Omega;
use qh_text::cut_at;
use std::str;

/// The whole number that a word spells, without `+`, leading zeros or `-0`.
#[tactic(auto, using(crate::proofs::Words::signed_decimals))]
fn coefficient_of(word: &[u8]) -> Option<i128>
    ensures found { IfSome result (λ n. word.now ≡ signed_decimal n) }
    ensures only { (n : ℤ) → IsBelow coefficient_bits n → word.now ≡ signed_decimal n → result ≡ Some n }
{
    let Ok(text) = str::from_utf8(word) else {
        return None;
    };
    let Ok(number) = text.parse::<i128>() else {
        return None;
    };
    let mut buffer = Buffer::new();
    if buffer.format(number).as_bytes() == word {
        Some(number)
    } else {
        None
    }
}

/// The power that a word spells, without `+` or leading zeros.
#[tactic(auto, using(crate::proofs::Words::decimals))]
fn power_of(word: &[u8]) -> Option<u32>
    ensures found { IfSome result (λ n. word.now ≡ decimal n) }
    ensures only { (n : ℕ) → n < 2 ^ 32 → word.now ≡ decimal n → result ≡ Some n }
{
    let Ok(text) = str::from_utf8(word) else {
        return None;
    };
    let Ok(power) = text.parse::<u32>() else {
        return None;
    };
    let mut buffer = Buffer::new();
    if buffer.format(power).as_bytes() == word {
        Some(power)
    } else {
        None
    }
}

/// A number and the space behind it, and what stands after these.
fn read_coefficient(bytes: &[u8]) -> Option<(i128, &[u8])>
    ensures found { IfSome result (λ x. bytes.now ≡ signed_decimal x.0 ++ 32 ∷ x.1.now) }
    ensures only { (n : ℤ) (rest : List ℕ) → IsBelow coefficient_bits n → bytes.now ≡ signed_decimal n ++ 32 ∷ rest
        → IsSomeAnd result (λ x. (x.0 ≡ n) × (x.1.now ≡ rest)) }
{
    let Some((word, rest)) = cut_at(bytes, b' ') else {
        return None;
    };
    let Some(number) = coefficient_of(word) else {
        return None;
    };
    Some((number, rest))
}

/// Four numbers, each with a space behind it, and what stands after these.
pub(crate) fn read_omega(bytes: &[u8]) -> Option<(Omega, &[u8])>
    ensures found { IfSome result (λ x. bytes.now ≡ numbers_text x.0 x.1.now) }
    ensures only { (z : Omega) (rest : List ℕ) → IsWithin coefficient_bits z → bytes.now ≡ numbers_text z rest
        → IsSomeAnd result (λ x. (x.0 ≡ z) × (x.1.now ≡ rest)) }
{
    let Some((a, rest)) = read_coefficient(bytes) else {
        return None;
    };
    let Some((b, rest)) = read_coefficient(rest) else {
        return None;
    };
    let Some((c, rest)) = read_coefficient(rest) else {
        return None;
    };
    let Some((d, rest)) = read_coefficient(rest) else {
        return None;
    };
    Some((Omega { a, b, c, d }, rest))
}

/// The power that the bytes spell with a line feed behind it and nothing after that.
pub(crate) fn read_power(bytes: &[u8]) -> Option<u32>
    ensures found { IfSome result (λ n. bytes.now ≡ decimal n ++ 10 ∷ []) }
    ensures only { (n : ℕ) → n < 2 ^ 32 → bytes.now ≡ decimal n ++ 10 ∷ [] → result ≡ Some n }
{
    let Some((word, rest)) = cut_at(bytes, b'\n') else {
        return None;
    };
    if !rest.is_empty() {
        return None;
    }
    power_of(word)
}
