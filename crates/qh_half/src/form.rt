//! Where the numbers of a half stand.

/// The most roots that lanes of 16 or 32 bits may have taken out: numbers below 2^30 times √2^192 are below 2^126.
pub(crate) const MOST_ROOTS: u32 = 192;

/// The most roots that lanes of 64 bits may have taken out: numbers below 2^62 times √2^128 are below 2^126.
pub(crate) const MOST_ROOTS64: u32 = 128;

/// Which of a half's places has its numbers, and how many roots √2 were taken out of each of them.
#[derive(Clone, Copy)]
pub(crate) enum Form {
    /// The lanes of 16 bits, times √2 to this power.
    Narrow16(u32),
    /// The lanes of 32 bits, times √2 to this power.
    Narrow32(u32),
    /// The lanes of 64 bits, times √2 to this power.
    Narrow64(u32),
    /// The wide list.
    Wide,
    /// None: a coefficient's magnitude came to 2^126.
    Over,
}
