//! Laws between the definitions, each the contract of a call that does nothing.
ghost use Rattle.qh_ring.specs.Laws.{AppliedAgrees};

/// The short form of *apply* is the textbook's: where the qubits are distinct and below n, the new number
/// at an index x below 2^n is the sum over all indices y that agree with x outside these qubits of
/// M[x on them][y on them] times the number at y.
pub fn apply_is_the_sum_over_agreeing_indices()
    ensures { AppliedAgrees }
{}
