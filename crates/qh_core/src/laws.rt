//! What holds of every course.
ghost use Rattle.std.specs.Prelude.{◌<◌, ◌≤◌, ◌^◌, ℕ, count_by};
ghost use Rattle.qh_core.specs.Law.{AckedAreStored};
ghost use Rattle.qh_core.specs.Noted.{acks_range, counted};
ghost use Rattle.qh_core.specs.Replay.{CourseView, machine_of, IsReplay};
ghost use Rattle.qh_core.specs.Course.{IsCourse};

/// A course is a run of the machine of qh_core: its history replays to its leases, with every answer Done.
/// So each acknowledged range has a stored slot there.
pub fn every_course_is_a_run_of_the_machine()
    ensures replays { (c : CourseView) → IsCourse c → IsReplay c }
    ensures stored { (c : CourseView) → IsCourse c → AckedAreStored (machine_of c) }
{}

/// The history of a course acknowledges each range at most once.
pub fn each_range_is_acknowledged_once()
    ensures { (c : CourseView) (range : ℕ) → IsCourse c → count_by (acks_range range) c.history ≤ 1 }
{}

/// The counts of a course's history are small.
pub fn counts_are_small()
    ensures grants { (c : CourseView) → IsCourse c → (counted c.history).grants < 2 ^ 63 }
    ensures backs { (c : CourseView) → IsCourse c → (counted c.history).backs < 2 ^ 63 }
    ensures acks { (c : CourseView) → IsCourse c → (counted c.history).acks < 2 ^ 63 }
{}
