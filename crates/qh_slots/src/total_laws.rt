//! What a running total is for, as the contract of a call that does nothing.
ghost use Rattle.qh_slots.specs.Running.{TotalLaw};

/// Over with the path, where there is one, and else the sums, a running total is the total of its slots, and each of its sums is
/// within 126 bits.
pub fn running_total_is_the_total()
    ensures { TotalLaw }
{}
