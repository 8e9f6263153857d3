//! What a run over some paths answers.
use crate::sums::Sums;

/// What some paths give: their sums, or the least path whose numbers would leave their limits.
#[derive(Drop)]
pub enum Verdict {
    /// For each asked bitstring the sum over the paths.
    Sum(Sums),
    /// The least path that is over.
    Over { path: u64 },
}
