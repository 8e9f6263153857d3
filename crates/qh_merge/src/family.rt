//! Whether an input goes with the others.
ghost use Rattle.std.specs.Prelude.{◌≡◌, ◌≤◌, IfOk, IfErr, length};
ghost use Rattle.qh_limits.specs.Limits.{max_ranges};
ghost use Rattle.qh_plan.specs.Jobs.{ranges};
ghost use Rattle.qh_merge.specs.Parts.{Goes, Misses, input_of};

use crate::fault::MergeFault;
use crate::input::Taken;
use crate::slots::first_closed;
use qh_plan::Job;

/// The prefix value of the input of this place, where it is of the family of this job, and finished.
pub(crate) fn check(family: &Job, place: u32, input: &Taken) -> Result<u32, MergeFault>
    requires count { length input.now.table.items ≡ ranges input.now.job }
    requires few { ranges input.now.job ≤ max_ranges }
    ensures goes { IfOk result (λ w. Goes family.now (input_of input.now) w) }
    ensures fault { IfErr result (λ u. Misses family.now (input_of input.now) place u) }
{
    let Some(prefix) = input.job.prefix_value() else {
        return Err(MergeFault::WholeJob { input: place });
    };
    if !family.same_but_prefix(&input.job) {
        return Err(MergeFault::OtherFamily { input: place });
    }
    match first_closed(input.table.as_slice()) {
        Some(range) => Err(MergeFault::Unfinished {
            input: place,
            range: range as u32,
        }),
        None => Ok(prefix),
    }
}
