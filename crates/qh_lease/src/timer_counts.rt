//! The three counts of a timer.
ghost use Rattle.std.specs.Prelude.{◌≡◌, ◌≤◌};
ghost use Rattle.std.specs.Bool.{OnTrue, OnFalse};
ghost use Rattle.qh_limits.specs.Counts.{raised};

use qh_limits::raise;

// The three counts of a timer.
#[derive(Debug, Drop)]
pub struct TimerCounts {
    pub granted: u64,
    pub due: u64,
    pub not_due: u64,
}

impl TimerCounts {
    pub fn new() -> TimerCounts
        ensures { result ≡ record { granted = 0; due = 0; not_due = 0 } }
    {
        TimerCounts {
            granted: 0,
            due: 0,
            not_due: 0,
        }
    }

    // Counts a grant.
    pub fn count_granted(&mut self)
        ensures granted { self.new.granted ≡ raised self.old.granted }
        ensures granted_kept { self.old.granted ≤ self.new.granted }
        ensures due { self.new.due ≡ self.old.due }
        ensures not_due { self.new.not_due ≡ self.old.not_due }
    {
        raise(&mut self.granted);
    }

    // Counts an answer.
    pub fn count_answer(&mut self, due: bool)
        ensures granted { self.new.granted ≡ self.old.granted }
        ensures due { OnTrue due (self.new.due ≡ raised self.old.due) }
        ensures not_due { OnFalse due (self.new.not_due ≡ raised self.old.not_due) }
        ensures due_stays { OnFalse due (self.new.due ≡ self.old.due) }
        ensures not_due_stays { OnTrue due (self.new.not_due ≡ self.old.not_due) }
        ensures due_kept { self.old.due ≤ self.new.due }
        ensures not_due_kept { self.old.not_due ≤ self.new.not_due }
    {
        if due {
            raise(&mut self.due);
        } else {
            raise(&mut self.not_due);
        }
    }
}
