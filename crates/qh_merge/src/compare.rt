//! Two inputs of one prefix value.
ghost use Rattle.std.specs.Prelude.{◌≡◌, ◌<◌, ◌≤◌, ℕ, Some, IsSome, OnOk, IfErr, length};
ghost use Rattle.qh_plan.specs.Jobs.{ranges};
ghost use Rattle.qh_slots.specs.Stands.{slot_at};
ghost use Rattle.qh_limits.specs.Limits.{max_inputs};
ghost use Rattle.qh_merge.specs.Inputs.{AllLook, Input};
ghost use Rattle.qh_merge.specs.Parts.{Goes, IsDifference, RereadMayFail, Repeated, fault_at, input_of};

use crate::family::check;
use crate::fault::MergeFault;
use crate::input::{ReadFault, Taken, read_at};
use crate::slots::first_difference;
use qh_disk::Disk;
use qh_plan::{Job, Verdict};
use std::alloc::Global;

/// What a fault of an input's reading means.
pub(crate) fn fault_at(input: u32, fault: ReadFault) -> MergeFault
    ensures { result ≡ fault_at input fault }
{
    match fault {
        ReadFault::DiskFault => MergeFault::DiskFault { input },
        ReadFault::Unread => MergeFault::Unread { input },
        ReadFault::Memory => MergeFault::Memory,
    }
}

/// The verdict of a range.
fn take_slot(mut table: Vec<Option<Verdict>>, range: usize) -> Verdict
    requires inside { range < length table.items }
    requires open { IsSome (slot_at table.items range) }
    ensures { slot_at table.items range ≡ Some result }
{
    table.swap_remove(range).unwrap()
}

/// Whether two finished tables say the same, and else the first range for which they do not.
fn unequal(
    prefix: u32,
    one: Vec<Option<Verdict>>,
    two: Vec<Option<Verdict>>,
) -> Result<(), MergeFault>
    requires even { length one.items ≡ length two.items }
    requires few { length one.items ≤ 16384 }
    requires one { (r : ℕ) → r < length one.items → IsSome (slot_at one.items r) }
    requires two { (r : ℕ) → r < length two.items → IsSome (slot_at two.items r) }
    ensures equal { OnOk result (one.items ≡ two.items) }
    ensures unequal { IfErr result (λ u. IsDifference prefix one.items two.items u) }
{
    let Some(range) = first_difference(one.as_slice(), two.as_slice()) else {
        return Ok(());
    };
    Err(MergeFault::Unequal {
        prefix: u64::from(prefix),
        range: range as u32,
        one: take_slot(one, range),
        two: take_slot(two, range),
    })
}

/// Reads the input of a place again, and compares what it says with the slots of another input of its prefix value.
#[tactic(none)]
pub(crate) fn compare<D: Disk>(
    alloc: Global,
    disks: &mut [D],
    place: usize,
    family: &Job,
    prefix: u32,
    input: Taken,
) -> Result<(), MergeFault>
    requires place { place < length disks.old }
    requires few { length disks.old ≤ max_inputs }
    requires goes { Goes family.now (input_of input) prefix }
    requires count { length input.table.items ≡ ranges input.job }
    ensures same { OnOk result (Repeated D.face disks.new place family.now prefix (input_of input)) }
    ensures fault { IfErr result (λ u. RereadMayFail D.face family.now place prefix (input_of input) u disks.old disks.new) }
    ensures looks { AllLook D.face D.loans disks.old disks.new }
{
    let other = match read_at(alloc, disks, place) {
        Ok(other) => other,
        Err(fault) => return Err(fault_at(place as u32, fault)),
    };
    let again = match check(family, place as u32, &other) {
        Ok(again) => again,
        Err(_) => {
            return Err(MergeFault::Unread {
                input: place as u32,
            });
        }
    };
    if again != prefix {
        return Err(MergeFault::Unread {
            input: place as u32,
        });
    }
    unequal(prefix, other.table, input.table)
}
