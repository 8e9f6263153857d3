//! The range that is granted next.
ghost use Rattle.std.specs.Prelude.{◌≡◌, ◌<◌, length, true, IfSome, IfNone};
ghost use Rattle.qh_lease.specs.Lease.{lease_at, grants_of, may_grant_out, may_grant_returned, is_fresh, NonePasses};
ghost use Rattle.qh_board.specs.Claims.{IsNext, IsLate, IsDrained};

use qh_core::Course;
use qh_lease::{Lease, Timer};

/// The number of the last grant of a lease, 0 where it has none.
fn attempt_of(lease: Lease) -> u32
    ensures { result ≡ grants_of lease }
{
    match lease {
        Lease::Out { attempt } => attempt,
        Lease::Returned { attempt } => attempt,
        Lease::Fresh | Lease::Acked => 0,
    }
}

/// The lowest range that is out, may be granted again and is due.
fn next_late<T: Timer>(course: &Course, timer: &mut T) -> Option<u32>
    requires fresh { NonePasses is_fresh 0 course.now.leases }
    requires returned { NonePasses may_grant_returned 0 course.now.leases }
    ensures late { IfSome result (IsLate T.due_count T.not_due_count T.may_say course.now.leases timer.old timer.new) }
    ensures none { IfNone result (IsDrained T.not_due_count T.may_say course.now.leases timer.old timer.new) }
    ensures told { T.granted_count timer.new ≡ T.granted_count timer.old }
{
    let mut from = 0;
    while let Some(range) = course.next_out(from) {
        if timer.due(range, attempt_of(course.lease(range))) {
            return Some(range);
        }
        prove!(range < course.ranges());
        from = range + 1;
    }
    None
}

/// The range that is granted next, None where there is none.
pub(crate) fn next<T: Timer>(course: &Course, timer: &mut T) -> Option<u32>
    ensures found { IfSome result (IsNext T.due_count T.not_due_count T.may_say course.now.leases timer.old timer.new) }
    ensures none { IfNone result (IsDrained T.not_due_count T.may_say course.now.leases timer.old timer.new) }
    ensures told { T.granted_count timer.new ≡ T.granted_count timer.old }
{
    if let Some(range) = course.next_fresh() {
        return Some(range);
    }
    if let Some(range) = course.next_returned() {
        return Some(range);
    }
    next_late(course, timer)
}
