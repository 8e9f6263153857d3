//! A timer that follows a script.
ghost use Rattle.std.specs.Prelude.{◌≡◌, ◌≤◌, drop, slice_index_or, false, None, IfOk};
ghost use Rattle.std.specs.Bool.{OnTrue, OnFalse};
ghost use Rattle.qh_limits.specs.Counts.{raised, Rose};
ghost use Rattle.qh_lease.specs.TimerState.{told, next_answer};

use crate::timer::Timer;
use crate::timer_counts::TimerCounts;
use std::alloc::{AllocError, Global};
use std::marker::Model;

/// A timer that gives the answers of a list in turn, and "not due" after them. It keeps the last grant that it was told.
#[derive(Debug, Drop)]
pub struct ScriptTimer {
    answers: Vec<bool>,
    next: usize,
    counts: TimerCounts,
    last: Option<(u32, u32)>,
}

impl Model for ScriptTimer {
    ghost use Rattle.std.specs.Prelude.{◌≤◌, drop, length};
    ghost use Rattle.qh_lease.specs.TimerState.{Script};

    ghost Value = { Script };

    ghost view = { λ t. record { answers = drop t.next t.answers.items; granted = t.counts.granted; due = t.counts.due; not_due = t.counts.not_due; last = t.last } };

    ghost invariant = { λ t. t.next ≤ length t.answers.items };
}

impl ScriptTimer {
    /// A timer with these answers, whose counts are 0. It fails for want of memory alone.
    pub fn new(alloc: Global, answers: &[bool]) -> Result<ScriptTimer, AllocError>
        ensures { IfOk result (λ timer. timer ≡ record { answers = answers.now; granted = 0; due = 0; not_due = 0; last = None }) }
    {
        Ok(ScriptTimer {
            answers: Vec::from_slice(alloc, answers)?,
            next: 0,
            counts: TimerCounts::new(),
            last: None,
        })
    }

    /// The range and the attempt of the last grant that it was told, None before the first.
    pub fn last_grant(&self) -> Option<(u32, u32)>
        ensures { result ≡ self.now.last }
    {
        self.last
    }

    // The next answer of the list, "not due" after its end.
    fn take_answer(&mut self) -> bool
        ensures first { result ≡ slice_index_or self.old.answers 0 false }
        ensures rest { self.new ≡ record self.old { answers = drop 1 self.old.answers } }
    {
        if self.next < self.answers.len() {
            self.next += 1;
            self.answers[self.next - 1]
        } else {
            false
        }
    }
}

impl Timer for ScriptTimer {
    ghost granted_count = { λ t. t.granted };

    ghost due_count = { λ t. t.due };

    ghost not_due_count = { λ t. t.not_due };

    ghost hears = { λ old new range attempt. new ≡ told old range attempt };

    ghost may_say = { λ t _ _ answer. answer ≡ next_answer t };

    /// Hears of a grant, which changes no answer.
    fn granted(&mut self, range: u32, attempt: u32)
        ensures granted { Rose self.old.granted self.new.granted }
        ensures granted_kept { self.old.granted ≤ self.new.granted }
        ensures due { self.new.due ≡ self.old.due }
        ensures not_due { self.new.not_due ≡ self.old.not_due }
        ensures heard { self.new ≡ told self.old range attempt }
        ensures once { self.new.granted ≡ raised self.old.granted }
        ensures answers { self.new.answers ≡ self.old.answers }
    {
        self.last = Some((range, attempt));
        self.counts.count_granted();
    }

    /// The next answer of the list, whichever lease is asked for.
    fn due(&mut self, _range: u32, _attempt: u32) -> bool
        ensures granted { self.new.granted ≡ self.old.granted }
        ensures due { OnTrue result (Rose self.old.due self.new.due) }
        ensures not_due { OnFalse result (Rose self.old.not_due self.new.not_due) }
        ensures due_stays { OnFalse result (self.new.due ≡ self.old.due) }
        ensures not_due_stays { OnTrue result (self.new.not_due ≡ self.old.not_due) }
        ensures due_kept { self.old.due ≤ self.new.due }
        ensures not_due_kept { self.old.not_due ≤ self.new.not_due }
        ensures said { result ≡ next_answer self.old }

        // The counts that rise, exactly.
        ensures due_once { OnTrue result (self.new.due ≡ raised self.old.due) }
        ensures not_due_once { OnFalse result (self.new.not_due ≡ raised self.old.not_due) }
        ensures answer { result ≡ slice_index_or self.old.answers 0 false }
        ensures answers { self.new.answers ≡ drop 1 self.old.answers }
        ensures last { self.new.last ≡ self.old.last }
    {
        let due = self.take_answer();
        self.counts.count_answer(due);
        due
    }
}
