//! Finds a byte, and cuts bytes at it.
ghost use Rattle.std.specs.Prelude.{◌≡◌, ◌≢◌, ◌≤◌, ◌<◌, ◌++◌, ◌∷◌, ℕ, List, IfSome, IsSomeAnd, length, All, slice_index};

/// The index of the first `byte`, or the length where there is none.
pub fn find(bytes: &[u8], byte: u8) -> usize
    ensures within { result ≤ length bytes.now }
    ensures before { (k : ℕ) → k < result → slice_index bytes.now k ≢ byte }
    ensures found { result < length bytes.now → slice_index bytes.now result ≡ byte }
{
    for (i, x) in bytes.iter().enumerate() {
        if *x == byte {
            return i;
        }
    }
    bytes.len()
}

/// What stands before the first `stop`, and what stands after it. None where there is no `stop`.
pub fn cut_at(bytes: &[u8], stop: u8) -> Option<(&[u8], &[u8])>
    ensures found { IfSome result (λ x. bytes.now ≡ x.0.now ++ stop ∷ x.1.now) }
    ensures only { (front back : List ℕ) → All (λ b. b ≢ stop) front → bytes.now ≡ front ++ stop ∷ back
        → IsSomeAnd result (λ x. (x.0.now ≡ front) × (x.1.now ≡ back)) }
{
    let at = find(bytes, stop);
    if at == bytes.len() {
        return None;
    }
    Some((&bytes[..at], &bytes[at + 1..]))
}
