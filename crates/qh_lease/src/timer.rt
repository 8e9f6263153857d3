//! What says that a lease has lasted too long.
ghost use Rattle.std.specs.Prelude.{◌≡◌, ℕ, ◌≤◌, Bool};
ghost use Rattle.std.specs.Bool.{OnTrue, OnFalse};
ghost use Rattle.qh_limits.specs.Counts.{Rose};

/// What says that a lease has lasted too long. It may answer anything.
///
/// It counts the grants that it was told and the answers of each kind that it gave. Each count is a `u64`
/// that stays at its last value, and none falls. Two relations say of which range and attempt it hears and
/// answers; a timer keeps no record for them.
pub trait Timer {
    /// How often it was told of a grant.
    ghost granted_count: { Self → ℕ };

    /// How often it answered "due".
    ghost due_count: { Self → ℕ };

    /// How often it answered "not due".
    ghost not_due_count: { Self → ℕ };

    /// What it may become, from the first to the second, by hearing that a range was granted for the n-th time.
    ghost hears: { Self → Self → ℕ → ℕ → Type 0 };

    /// What it may answer to the question for the lease of a range by an attempt.
    ghost may_say: { Self → ℕ → ℕ → Bool → Type 0 };

    /// Hears that a range was granted, for the `attempt`-th time. The counts of answers stay.
    fn granted(&mut self, range: u32, attempt: u32)
        ensures granted { Rose (granted_count self.old) (granted_count self.new) }
        ensures granted_kept { granted_count self.old ≤ granted_count self.new }
        ensures due { due_count self.new ≡ due_count self.old }
        ensures not_due { not_due_count self.new ≡ not_due_count self.old }
        ensures heard { hears self.old self.new range attempt };

    /// Whether the lease of a range by this attempt has lasted too long. The count of this answer rises,
    /// and the other two stay.
    fn due(&mut self, range: u32, attempt: u32) -> bool
        ensures granted { granted_count self.new ≡ granted_count self.old }
        ensures due { OnTrue result (Rose (due_count self.old) (due_count self.new)) }
        ensures not_due { OnFalse result (Rose (not_due_count self.old) (not_due_count self.new)) }
        ensures due_stays { OnFalse result (due_count self.new ≡ due_count self.old) }
        ensures not_due_stays { OnTrue result (not_due_count self.new ≡ not_due_count self.old) }
        ensures due_kept { due_count self.old ≤ due_count self.new }
        ensures not_due_kept { not_due_count self.old ≤ not_due_count self.new }
        ensures said { may_say self.old range attempt result };
}
