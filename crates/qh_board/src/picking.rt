//! The results of a group that are recorded.
ghost use Rattle.std.specs.Prelude.{◌≡◌, ◌↔◌, ◌<◌, ◌≤◌, ◌++◌, ◌∷◌, [], ℕ, false, IsTrue, All, map, length, nat_eq};
ghost use Rattle.qh_lease.specs.Lease.{lease_at, is_acked};
ghost use Rattle.qh_range.specs.Results.{IsResult};
ghost use Rattle.std.specs.List.{list_any};
ghost use Rattle.qh_plan.specs.Jobs.{ranges};
ghost use Rattle.qh_board.specs.Groups.{kept};
ghost use Rattle.qh_board.specs.Picking.{member_for, entry_for, TakeTurns};

use crate::group::{GROUP_RESULTS, Group};
use arrayvec::ArrayVec;
use qh_core::Course;
use qh_lease::Lease;
use qh_parts::Member;
use qh_plan::Job;
use qh_range::RangeResult;

/// The range and the attempt of a result. The default stands in the unused places of a list.
#[derive(Clone, Copy, Default)]
pub(crate) struct Entry {
    pub range: u32,
    pub attempt: u32,
}

/// What is stored of some results, and what is noted of them.
#[derive(Drop)]
pub(crate) struct Picked {
    pub members: ArrayVec<Member, 8>,
    pub entries: ArrayVec<Entry, 8>,
}

/// Whether one of the entries is of this range.
fn is_among(entries: &[Entry], range: u32) -> bool
    ensures { result ≡ list_any (λ e. nat_eq e.range range) entries.now }
{
    entries.iter().any(|entry| entry.range == range)
}

/// The results of a group whose range is not acknowledged and is that of no earlier one.
pub(crate) fn pick(course: &Course, job: &Job, mut group: Group) -> Picked
    requires job { All (λ r. r.job ≡ job.now) group }
    requires count { length course.now.leases ≡ ranges job.now }
    ensures members { result.members.items ≡ map member_for (kept course.now.leases group) }
    ensures entries { result.entries.items ≡ map entry_for (kept course.now.leases group) }
    ensures turns { TakeTurns job.now course.now.leases (kept course.now.leases group) }
    ensures few { length (kept course.now.leases group) ≤ GROUP_RESULTS }
{
    prove!(group.len() <= GROUP_RESULTS);
    let mut picked = Picked {
        members: ArrayVec::new(),
        entries: ArrayVec::new(),
    };
    while let Some(outcome) = group.take_first() {
        if is_picked(course, picked.entries.as_slice(), &outcome) {
            add(&mut picked, outcome);
        }
    }
    picked
}

/// Whether a result is to be recorded beside these.
fn is_picked(course: &Course, entries: &[Entry], outcome: &RangeResult) -> bool
    requires { (outcome.now).range < length course.now.leases }
    ensures { IsTrue result ↔ ((is_acked (lease_at course.now.leases (outcome.now).range) ≡ false)
        × (list_any (λ e. nat_eq e.range (outcome.now).range) entries.now ≡ false)) }
{
    let range = outcome.range();
    if course.lease(range) == Lease::Acked {
        return false;
    }
    !is_among(entries, range)
}

/// Adds a result at the end.
fn add(picked: &mut Picked, outcome: RangeResult)
    requires members { length picked.old.members.items < GROUP_RESULTS }
    requires entries { length picked.old.entries.items < GROUP_RESULTS }
    ensures members { picked.new.members.items ≡ picked.old.members.items ++ member_for outcome ∷ [] }
    ensures entries { picked.new.entries.items ≡ picked.old.entries.items ++ entry_for outcome ∷ [] }
    ensures valid { IsResult outcome }
{
    let range = outcome.range();
    let attempt = outcome.attempt();
    picked.entries.push(Entry { range, attempt });
    picked.members.push(Member {
        range,
        verdict: outcome.into_verdict(),
    });
}
