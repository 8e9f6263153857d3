//! A timer that reads the clock.
ghost use Rattle.std.specs.Prelude.{◌≡◌, ◌≤◌, ◌⊎◌, Some, None, Bool, true, false, slice_index_or, IsTrue, map, is_some, set};
ghost use Rattle.std.specs.Bool.{OnTrue, OnFalse};
ghost use Rattle.qh_limits.specs.Counts.{raised, Rose};
ghost use Rattle.qh_lease.specs.TimerState.{Notes, MayAnswer};

use crate::timer::Timer;
use crate::timer_counts::TimerCounts;
use qh_limits::MAX_RANGES;
use std::alloc::Global;
use std::marker::Model;
use std::rt::Clock;
use std::time::Instant;

/// A timer that reads the clock: a lease is due once it has lasted a number of whole seconds.
///
/// Without a number of seconds no lease is ever due. With 0 seconds each is due at once, and the clock is
/// not asked. From 1 second on, a lease whose grant or age the clock could not tell is not due. No clause
/// speaks of what the clock says: contracts see the number of seconds, the three counts, and of which ranges
/// it knows when they were granted last.
pub struct ClockTimer<'r, R: Clock> {
    rt: &'r R,
    seconds: Option<u64>,
    since: Vec<Option<Instant>>,
    counts: TimerCounts,
}

impl<'r, R: Clock> Model for ClockTimer<'r, R> {
    ghost use Rattle.std.specs.Prelude.{map, is_some};
    ghost use Rattle.qh_lease.specs.TimerState.{Watch};

    ghost Value = { Watch };

    ghost view = { λ t. record { seconds = t.seconds; granted = t.counts.granted; due = t.counts.due; not_due = t.counts.not_due; timed = map is_some t.since.items } };
}

impl<'r, R: Clock> Drop for ClockTimer<'r, R> {
    fn drop(self) {
        let ClockTimer {
            rt: _,
            seconds: _,
            since: _,
            counts: _,
        } = self;
    }
}

impl<'r, R: Clock + Sync> ClockTimer<'r, R> {
    /// A timer whose counts are 0. It takes room for the times of `MAX_RANGES` ranges. Where it finds no memory, it is a
    /// timer without a number of seconds.
    pub fn new(rt: &'r R, alloc: Global, seconds: Option<u64>) -> ClockTimer<'r, R>
        ensures seconds { (result.seconds ≡ seconds) ⊎ (result.seconds ≡ None) }
        ensures granted { result.granted ≡ 0 }
        ensures due { result.due ≡ 0 }
        ensures not_due { result.not_due ≡ 0 }
    {
        let count = if seconds.is_some() {
            MAX_RANGES as usize
        } else {
            0
        };
        match vec![in alloc; None; count] {
            Ok(since) => ClockTimer {
                rt,
                seconds,
                since,
                counts: TimerCounts::new(),
            },
            Err(_) => ClockTimer {
                rt,
                seconds: None,
                since: Vec::new(alloc),
                counts: TimerCounts::new(),
            },
        }
    }
}

impl<'r, R: Clock> ClockTimer<'r, R> {
    // Whether the lease of a range has lasted so many seconds, as far as the clock can tell.
    fn has_lasted(&self, range: u32, seconds: u64) -> bool
        ensures { IsTrue result → slice_index_or self.now.timed range false ≡ true }
    {
        match self.since.get(range as usize) {
            Some(Some(since)) => match since.elapsed(self.rt) {
                Ok(passed) => passed.as_secs() >= seconds,
                Err(_) => false,
            },
            _ => false,
        }
    }
}

// Notes when a range was granted, as far as the clock can tell.
fn note_time<R: Clock>(rt: &R, since: &mut Vec<Option<Instant>>, range: u32)
    ensures { (known : Bool) × (map is_some since.new.items ≡ set (map is_some since.old.items) range known) }
{
    let place = range as usize;
    if place >= since.len() {
        return;
    }
    since[place] = Instant::now(rt).ok();
}

impl<'r, R: Clock> Timer for ClockTimer<'r, R> {
    ghost granted_count = { λ t. t.granted };

    ghost due_count = { λ t. t.due };

    ghost not_due_count = { λ t. t.not_due };

    ghost hears = { λ old new range _. Notes old new range };

    ghost may_say = { λ t range _ answer. MayAnswer t range answer };

    /// Notes when a range was granted.
    fn granted(&mut self, range: u32, _attempt: u32)
        ensures granted { Rose self.old.granted self.new.granted }
        ensures granted_kept { self.old.granted ≤ self.new.granted }
        ensures due { self.new.due ≡ self.old.due }
        ensures not_due { self.new.not_due ≡ self.old.not_due }
        ensures heard { Notes self.old self.new range }
        ensures once { self.new.granted ≡ raised self.old.granted }
        ensures seconds { self.new.seconds ≡ self.old.seconds }
    {
        note_time(self.rt, &mut self.since, range);
        self.counts.count_granted();
    }

    /// Whether the lease of a range has lasted the number of seconds.
    fn due(&mut self, range: u32, _attempt: u32) -> bool
        ensures granted { self.new.granted ≡ self.old.granted }
        ensures due { OnTrue result (Rose self.old.due self.new.due) }
        ensures not_due { OnFalse result (Rose self.old.not_due self.new.not_due) }
        ensures due_stays { OnFalse result (self.new.due ≡ self.old.due) }
        ensures not_due_stays { OnTrue result (self.new.not_due ≡ self.old.not_due) }
        ensures due_kept { self.old.due ≤ self.new.due }
        ensures not_due_kept { self.old.not_due ≤ self.new.not_due }
        ensures said { MayAnswer self.old range result }

        // The counts that rise, exactly.
        ensures due_once { OnTrue result (self.new.due ≡ raised self.old.due) }
        ensures not_due_once { OnFalse result (self.new.not_due ≡ raised self.old.not_due) }
        ensures seconds { self.new.seconds ≡ self.old.seconds }
        ensures timed { self.new.timed ≡ self.old.timed }
        ensures never { self.old.seconds ≡ None → result ≡ false }
        ensures at_once { self.old.seconds ≡ Some 0 → result ≡ true }
    {
        let due = match self.seconds {
            None => false,
            Some(0) => true,
            Some(seconds) => self.has_lasted(range, seconds),
        };
        self.counts.count_answer(due);
        due
    }
}
