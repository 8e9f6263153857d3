//! A run of events from the start.
ghost use Rattle.std.specs.Prelude.{◌≡◌, ℕ, ◌<◌, ◌≤◌, IfOk, IfSome, length, slice_get, take};
ghost use Rattle.qh_core.specs.Machine.{start, after};
ghost use Rattle.qh_core.specs.Law.{AckedAreStored, StoredStay, KeepsExactly, acknowledgements};

use crate::event::Event;
use crate::machine::Machine;
use qh_limits::MAX_RANGES;
use std::alloc::{AllocError, Global};

/// The machine after a list of events from the start. It fails for want of memory alone.
///
/// The clauses from `acked` on are the law of leases, over every list of events.
pub fn run_events(alloc: Global, ranges: u32, events: &[Event]) -> Result<Machine, AllocError>
    requires some { 0 < ranges }
    requires few { ranges ≤ MAX_RANGES }
    ensures after { IfOk result (λ machine. machine ≡ after ranges events.now) }
    ensures ranges { IfOk result (λ machine. length machine.leases ≡ ranges) }

    // An acknowledged lease has a stored slot.
    ensures acked { AckedAreStored (after ranges events.now) }

    // A slot that is stored after some of the events stays stored.
    ensures stored { (k : ℕ) → StoredStay (after ranges (take k events.now)) (after ranges events.now) }

    // The acknowledgement of a range is answered Done at most once.
    ensures once { (range : ℕ) → acknowledgements range (start ranges) events.now ≤ 1 }

    // A crash or a start that is answered Done stores the kept slots, and no other.
    ensures kept { (k : ℕ) → IfSome (slice_get events.now k) (KeepsExactly (after ranges (take k events.now))) }
{
    let mut machine = Machine::new(alloc, ranges)?;
    for event in events {
        machine.step(event);
    }
    Ok(machine)
}
