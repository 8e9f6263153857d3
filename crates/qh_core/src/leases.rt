//! What an event does to the leases.
ghost use Rattle.std.specs.Prelude.{◌≡◌, length, map};
ghost use Rattle.qh_core.specs.Machine.{found_lease};
ghost use Rattle.qh_lease.specs.declared.lease.Lease.TheVariants.{Fresh};

use crate::slot_state::SlotState;
use qh_lease::Lease;

// No lease outlives a stop of the machine.
pub fn forget(leases: &mut [Lease])
    ensures { leases.new ≡ map (λ _. Fresh) leases.old }
{
    for lease in leases.iter_mut() {
        *lease = Lease::Fresh;
    }
}

// The lease with which a run finds a slot.
fn found_lease(slot: SlotState) -> Lease
    ensures { result ≡ found_lease slot }
{
    match slot {
        SlotState::Stored => Lease::Acked,
        _ => Lease::Fresh,
    }
}

// The leases with which a run finds its slots.
pub fn find(leases: &mut [Lease], slots: &[SlotState])
    requires { length leases.old ≡ length slots.now }
    ensures { leases.new ≡ map found_lease slots.now }
{
    for range in 0..slots.len() {
        leases[range] = found_lease(slots[range]);
    }
}
