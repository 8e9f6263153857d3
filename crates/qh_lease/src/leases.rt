//! The leases of all ranges of a run.
ghost use Rattle.std.specs.Prelude.{◌≡◌, ◌≢◌, ◌↔◌, ◌<◌, ◌≤◌, ◌+◌, length, replicate, slice_set, IfOk, IfSome, IfNone, IsTrue};
ghost use Rattle.std.specs.Bool.{OnTrue, OnFalse};
ghost use Rattle.qh_lease.specs.Lease.{lease_at, grants_of, is_fresh, may_grant, may_grant_out, may_grant_returned, NonePasses, IsLowest};
ghost use Rattle.qh_lease.specs.Marks.{NoneMarked, IsLowestMarked};

use crate::lease::Lease;
use crate::marks::Marks;
use qh_limits::{MAX_GRANTS, MAX_RANGES};
use std::alloc::{AllocError, Global};
use std::marker::Model;

/// The lease of each range of a run, ranges counted from 0. Contracts see the list of leases.
///
/// A change of one lease reads at most 3 · 128 marks. A `next` call reads at most 128 flags and two blocks
/// of 128 marks, at any number of ranges: it does not go over all leases.
#[derive(Drop)]
pub struct Leases {
    leases: Vec<Lease>,
    fresh: Marks,
    returned: Marks,
    out: Marks,
}

impl Model for Leases {
    ghost use Rattle.std.specs.Prelude.{List};
    ghost use Rattle.qh_lease.specs.declared.lease.Lease.{Lease};
    ghost use Rattle.qh_lease.specs.Lease.{AreSorted};

    ghost Value = { List Lease };

    ghost view = { λ l. l.leases.items };

    ghost invariant = { λ l. AreSorted l.leases.items l.fresh l.returned l.out };
}

fn is_fresh(lease: Lease) -> bool
    ensures { result ≡ is_fresh lease }
{
    lease == Lease::Fresh
}

fn may_grant_out(lease: Lease) -> bool
    ensures { result ≡ may_grant_out lease }
{
    match lease {
        Lease::Out { attempt } => attempt < MAX_GRANTS,
        _ => false,
    }
}

fn may_grant_returned(lease: Lease) -> bool
    ensures { result ≡ may_grant_returned lease }
{
    match lease {
        Lease::Returned { attempt } => attempt < MAX_GRANTS,
        _ => false,
    }
}

// The lowest marked range at or above a range.
fn lowest_from(marks: &Marks, from: u32) -> Option<u32>
    requires { length marks.now ≤ MAX_RANGES }
    ensures found { IfSome result (λ range. (range < length marks.now) × IsLowestMarked marks.now from range) }
    ensures none { IfNone result (NoneMarked marks.now from (length marks.now)) }
{
    let place = marks.lowest_from(from as usize)?;
    Some(place as u32)
}

impl Leases {
    /// As many fresh leases as there are ranges. It fails for want of memory alone.
    pub fn new(alloc: Global, ranges: u32) -> Result<Leases, AllocError>
        requires some { 0 < ranges }
        requires few { ranges ≤ MAX_RANGES }
        ensures { IfOk result (λ leases. leases ≡ replicate ranges Lease.Fresh) }
    {
        let count = ranges as usize;
        Ok(Leases {
            leases: vec![in alloc; Lease::Fresh; count]?,
            fresh: Marks::new(alloc, count, true)?,
            returned: Marks::new(alloc, count, false)?,
            out: Marks::new(alloc, count, false)?,
        })
    }

    /// The lease of a range.
    pub fn state_of(&self, range: u32) -> Lease
        requires { range < length self.now }
        ensures { result ≡ lease_at self.now range }
    {
        self.leases[range as usize]
    }

    /// The lowest fresh range, None where there is none.
    #[tactic(auto, using(crate::proofs::Lowest::none_passes))]
    pub fn next_fresh(&self) -> Option<u32>
        ensures found { IfSome result (λ range. IsLowest is_fresh 0 self.now range) }
        ensures none { IfNone result (NonePasses is_fresh 0 self.now) }
    {
        let Some(range) = lowest_from(&self.fresh, 0) else {
            return None;
        };
        Some(range)
    }

    /// The lowest range that was given back after fewer than `MAX_GRANTS` grants, None where there is none.
    #[tactic(auto, using(crate::proofs::Lowest::none_passes))]
    pub fn next_returned(&self) -> Option<u32>
        ensures found { IfSome result (λ range. IsLowest may_grant_returned 0 self.now range) }
        ensures none { IfNone result (NonePasses may_grant_returned 0 self.now) }
    {
        let Some(range) = lowest_from(&self.returned, 0) else {
            return None;
        };
        Some(range)
    }

    /// The lowest range at or above `from` that is out after fewer than `MAX_GRANTS` grants, None where
    /// there is none.
    #[tactic(auto, using(crate::proofs::Lowest::none_passes))]
    pub fn next_out(&self, from: u32) -> Option<u32>
        ensures found { IfSome result (λ range. IsLowest may_grant_out from self.now range) }
        ensures none { IfNone result (NonePasses may_grant_out from self.now) }
    {
        let Some(range) = lowest_from(&self.out, from) else {
            return None;
        };
        Some(range)
    }

    /// Grants a range, and answers the attempt: 1 for a fresh range, else one more than before.
    pub fn grant(&mut self, range: u32) -> u32
        requires known { range < length self.old }
        requires grantable { IsTrue (may_grant (lease_at self.old range)) }
        ensures attempt { result ≡ grants_of (lease_at self.old range) + 1 }
        ensures out { self.new ≡ slice_set self.old range (Lease.Out result) }
    {
        let attempt = self.state_of(range).next_attempt();
        self.set(range, Lease::Out { attempt });
        attempt
    }

    /// Takes a range back, true where it is out by this very attempt. Else nothing changes.
    pub fn give_back(&mut self, range: u32, attempt: u32) -> bool
        requires { range < length self.old }
        ensures held { IsTrue result ↔ (lease_at self.old range ≡ Lease.Out attempt) }
        ensures returned { OnTrue result (self.new ≡ slice_set self.old range (Lease.Returned attempt)) }
        ensures same { OnFalse result (self.new ≡ self.old) }
    {
        if self.state_of(range) != (Lease::Out { attempt }) {
            return false;
        }
        self.set(range, Lease::Returned { attempt });
        true
    }

    /// Marks a range as recorded. It is never granted again.
    pub fn acknowledge(&mut self, range: u32)
        requires known { range < length self.old }
        requires open { lease_at self.old range ≢ Lease.Acked }
        ensures { self.new ≡ slice_set self.old range Lease.Acked }
    {
        self.set(range, Lease::Acked);
    }

    // Replaces one lease.
    fn set(&mut self, range: u32, lease: Lease)
        requires { range < length self.old }
        ensures { self.new ≡ slice_set self.old range lease }
    {
        let place = range as usize;
        self.leases[place] = lease;
        self.fresh.set(place, is_fresh(lease));
        self.returned.set(place, may_grant_returned(lease));
        self.out.set(place, may_grant_out(lease));
    }
}
