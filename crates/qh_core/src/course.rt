//! The leases of a run with their history.
ghost use Rattle.std.specs.Prelude.{◌≡◌, ◌≢◌, ◌↔◌, ◌<◌, ◌≤◌, ◌+◌, ◌++◌, ◌∷◌, [], ◌||◌, ℕ, false, length, nat_eq, replicate, slice_set, IfOk, IfSome};
ghost use Rattle.std.specs.Prelude.{IfNone, IsTrue};
ghost use Rattle.std.specs.Bool.{OnTrue, OnFalse};
ghost use Rattle.qh_lease.specs.Lease.{lease_at, grants_of, is_fresh, may_grant, may_grant_out, may_grant_returned, NonePasses, IsLowest};
ghost use Rattle.qh_core.specs.Replay.{noted, is_begun, is_open};
ghost use Rattle.qh_core.specs.Course.{IsCourse};

use crate::noted::Noted;
use qh_lease::{Lease, Leases};
use qh_limits::{MAX_GRANTS, MAX_RANGES};
use std::alloc::{AllocError, Global};
use std::marker::Model;

// How many entries are reserved for each range: more than it can have.
const ENTRIES_PER_RANGE: usize = 64;

/// The course of a run: the lease of each range, all that was done since the run began, and the faults of
/// the disk that halted it. Contracts see these three.
///
/// The ranges that were stored before the run are acknowledged with no entry: they are said by `begin`
/// before the first entry. Every other change adds one entry to the history, and the replay of the history
/// from there is the machine's, with every answer Done. No change takes memory.
#[derive(Drop)]
pub struct Course {
    leases: Leases,
    ranges: u32,
    remaining: u32,
    history: Vec<Noted>,
    fault: Option<u64>,
}

impl Model for Course {
    ghost use Rattle.std.specs.Vec.{vec_capacity};
    ghost use Rattle.qh_core.specs.Replay.{CourseView};
    ghost use Rattle.qh_core.specs.Course.{IsHeld};
    ghost use Rattle.qh_core.specs.declared.course.TheConstants.{ENTRIES_PER_RANGE};

    ghost Value = { CourseView };

    ghost view = { λ c. record { leases = c.leases; history = c.history.items; fault = c.fault } };

    ghost invariant = { λ c.
        let seen : CourseView = record { leases = c.leases; history = c.history.items; fault = c.fault } in
        IsHeld seen c.ranges c.remaining ENTRIES_PER_RANGE (vec_capacity c.history) };
}

impl Course {
    /// The course of a run that has not begun, with as many fresh ranges as this. It reserves the memory
    /// for all entries, and fails for want of memory alone.
    pub fn new(alloc: Global, ranges: u32) -> Result<Course, AllocError>
        requires some { 0 < ranges }
        requires few { ranges ≤ MAX_RANGES }
        ensures fresh { IfOk result (λ course. course ≡ record { leases = replicate ranges Lease.Fresh; history = []; fault = None }) }
        ensures begun { IfOk result (λ course. (r : ℕ) → is_begun course r ≡ false) }
    {
        Ok(Course {
            leases: Leases::new(alloc, ranges)?,
            ranges,
            remaining: ranges,
            history: Vec::with_capacity(alloc, ranges as usize * ENTRIES_PER_RANGE)?,
            fault: None,
        })
    }

    /// Says that a range was stored before the run began.
    pub fn begin(&mut self, range: u32)
        requires early { self.old.history ≡ [] }
        requires running { self.old.fault ≡ None }
        requires known { range < length self.old.leases }
        requires fresh { lease_at self.old.leases range ≡ Lease.Fresh }
        ensures acked { self.new ≡ record self.old { leases = slice_set self.old.leases range Lease.Acked } }
        ensures begun { (r : ℕ) → is_begun self.new r ≡ (nat_eq r range || is_begun self.old r) }
    {
        self.leases.acknowledge(range);
        self.remaining -= 1;
    }

    /// How many ranges the run has.
    pub fn ranges(&self) -> u32
        ensures { result ≡ length self.now.leases }
    {
        self.ranges
    }

    /// The lease of a range.
    pub fn lease(&self, range: u32) -> Lease
        requires { range < length self.now.leases }
        ensures { result ≡ lease_at self.now.leases range }
    {
        self.leases.state_of(range)
    }

    /// The lowest fresh range, None where there is none.
    pub fn next_fresh(&self) -> Option<u32>
        ensures found { IfSome result (λ range. IsLowest is_fresh 0 self.now.leases range) }
        ensures none { IfNone result (NonePasses is_fresh 0 self.now.leases) }
    {
        self.leases.next_fresh()
    }

    /// The lowest range that was given back after fewer than `MAX_GRANTS` grants, None where there is none.
    pub fn next_returned(&self) -> Option<u32>
        ensures found { IfSome result (λ range. IsLowest may_grant_returned 0 self.now.leases range) }
        ensures none { IfNone result (NonePasses may_grant_returned 0 self.now.leases) }
    {
        self.leases.next_returned()
    }

    /// The lowest range at or above `from` that is out after fewer than `MAX_GRANTS` grants, None where
    /// there is none.
    pub fn next_out(&self, from: u32) -> Option<u32>
        ensures found { IfSome result (λ range. IsLowest may_grant_out from self.now.leases range) }
        ensures none { IfNone result (NonePasses may_grant_out from self.now.leases) }
    {
        self.leases.next_out(from)
    }

    /// The lowest range at or above `from` that is not acknowledged, None where there is none. It looks at
    /// the ranges from there up to the answer.
    pub fn next_open(&self, from: u32) -> Option<u32>
        ensures found { IfSome result (λ range. IsLowest is_open from self.now.leases range) }
        ensures none { IfNone result (NonePasses is_open from self.now.leases) }
    {
        for range in from..self.ranges() {
            if self.lease(range) != Lease::Acked {
                return Some(range);
            }
        }
        None
    }

    /// Whether every range is acknowledged. It takes one step.
    pub fn is_finished(&self) -> bool
        ensures { IsTrue result ↔ NonePasses is_open 0 self.now.leases }
    {
        self.remaining == 0
    }

    /// How many faults the disk had counted when the run was halted, None where it was not.
    pub fn fault(&self) -> Option<u64>
        ensures { result ≡ self.now.fault }
    {
        self.fault
    }

    /// All that was done since the run began, the first first.
    pub fn history(&self) -> &[Noted]
        ensures entries { result.now ≡ self.now.history }
        ensures valid { IsCourse self.now }
    {
        self.history.as_slice()
    }

    /// Grants a range, and answers the attempt: 1 for a fresh range, else one more than before.
    pub fn grant(&mut self, range: u32) -> u32
        requires running { self.old.fault ≡ None }
        requires known { range < length self.old.leases }
        requires grantable { IsTrue (may_grant (lease_at self.old.leases range)) }
        ensures attempt { result ≡ grants_of (lease_at self.old.leases range) + 1 }
        ensures granted { self.new ≡ noted self.old range (Lease.Out result) (Noted.Granted range result) }
        ensures begun { (r : ℕ) → is_begun self.new r ≡ is_begun self.old r }
    {
        let attempt = self.leases.grant(range);
        self.history
            .push_reserved(Noted::Granted { range, attempt });
        attempt
    }

    /// Takes a range back, true where the run is not halted and the range is out by this very attempt.
    /// Else nothing changes.
    pub fn give_back(&mut self, range: u32, attempt: u32) -> bool
        ensures held { IsTrue result ↔ ((self.old.fault ≡ None) × (range < length self.old.leases) × (lease_at self.old.leases range ≡ Lease.Out attempt)) }
        ensures returned { OnTrue result (self.new ≡ noted self.old range (Lease.Returned attempt) (Noted.Back range attempt)) }
        ensures same { OnFalse result (self.new ≡ self.old) }
        ensures begun { (r : ℕ) → is_begun self.new r ≡ is_begun self.old r }
    {
        if self.fault.is_some() || range >= self.ranges {
            return false;
        }
        if !self.leases.give_back(range, attempt) {
            return false;
        }
        self.history.push_reserved(Noted::Back { range, attempt });
        true
    }

    /// Says that a range is stored, by a result that names this attempt. It is never granted again.
    pub fn acknowledge(&mut self, range: u32, attempt: u32)
        requires running { self.old.fault ≡ None }
        requires known { range < length self.old.leases }
        requires waiting { lease_at self.old.leases range ≢ Lease.Acked }
        requires attempt { attempt ≤ MAX_GRANTS }
        ensures acked { self.new ≡ noted self.old range Lease.Acked (Noted.Acked range attempt) }
        ensures begun { (r : ℕ) → is_begun self.new r ≡ is_begun self.old r }
    {
        self.leases.acknowledge(range);
        self.remaining -= 1;
        self.history.push_reserved(Noted::Acked { range, attempt });
    }

    /// Halts the run, after the disk has counted so many faults. Nothing changes from then on.
    pub fn halt(&mut self, faults: u64)
        requires running { self.old.fault ≡ None }
        ensures halted { self.new ≡ record self.old { fault = Some faults; history = self.old.history ++ Noted.Halted faults ∷ [] } }
        ensures begun { (r : ℕ) → is_begun self.new r ≡ is_begun self.old r }
    {
        self.fault = Some(faults);
        self.history.push_reserved(Noted::Halted { faults });
    }
}
