//! Counts of 64 bits that stay at their last value.
//!
//! A raise costs one addition. Nothing else is done here: `specs/Counts.antt` says what it means
//! that a count rose, and `proofs/Chains.antt` how rises follow one another.
ghost use Rattle.std.specs.Prelude.{◌≡◌, ◌≤◌};
ghost use Rattle.qh_limits.specs.Counts.{raised, Rose};

/// Raises a count by one. At 2^64 - 1, its last value, it stays.
pub fn raise(count: &mut u64)
    ensures raised { count.new ≡ raised count.old }
    ensures rose { Rose count.old count.new }
    ensures later { count.old ≤ count.new }
{
    *count = count.saturating_add(1);
}
