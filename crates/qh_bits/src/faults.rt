//! Why a text of bitstrings is refused.
use thiserror::Error;

/// What is wrong with a line, in the order in which it is looked for.
#[derive(Clone, Copy, PartialEq, Eq, Debug)]
pub enum BitsWhy {
    /// There is no string at all.
    NoStrings,
    /// 4,096 strings stand before this line.
    TooMany,
    /// A character is neither `0` nor `1`.
    Letter,
    /// The number of characters is not the number of qubits.
    Length,
}

/// Why a text of bitstrings is refused.
#[derive(Clone, Copy, PartialEq, Eq, Debug, Error)]
pub enum BitsFault {
    /// The first faulty line, counted from 1, or 0 where there is no string.
    #[error("bitstrings line {line}: {why:?}")]
    Line { line: u64, why: BitsWhy },
    /// Want of memory.
    #[error("out of memory")]
    Memory,
}
