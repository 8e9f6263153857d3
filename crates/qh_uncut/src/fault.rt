//! Why a circuit has no whole state here.
use thiserror::Error;

/// Why a circuit has no whole state here.
#[derive(Clone, Copy, PartialEq, Eq, Debug, Error)]
pub enum UncutFault {
    /// The first gate, counted from 0, after which a coefficient has a magnitude of 2^126 or more.
    #[error("overflow: gate {gate}")]
    Over { gate: u32 },
    /// Want of memory.
    #[error("out of memory")]
    Memory,
}
