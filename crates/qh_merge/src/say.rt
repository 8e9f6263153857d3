//! What a merge says on the error sink. It takes no memory.
ghost use Rattle.qh_io.specs.Saying.{Says, seen};
ghost use Rattle.qh_merge.specs.Ends.{fault_line, line_of};

use crate::MergeFault;
use crate::stop::Stop;
use qh_io::{Sink, say, say_number, say_numbers};

/// Says why inputs are not merged.
fn tell_fault<E: Sink>(err: &mut E, fault: &MergeFault)
    ensures { Says (seen E.held E.faults err.old err.new) (fault_line fault.now) }
{
    match fault {
        MergeFault::NoInput => {
            say(err, "merge: NoInput\n".as_bytes());
        }
        MergeFault::DiskFault { input } => {
            say_number(err, "merge: DiskFault ", u64::from(*input), "\n");
        }
        MergeFault::Unread { input } => {
            say_number(err, "merge: Unread ", u64::from(*input), "\n");
        }
        MergeFault::WholeJob { input } => {
            say_number(err, "merge: WholeJob ", u64::from(*input), "\n");
        }
        MergeFault::OtherFamily { input } => {
            say_number(err, "merge: OtherFamily ", u64::from(*input), "\n");
        }
        MergeFault::Unfinished { input, range } => {
            say_numbers(
                err,
                "merge: Unfinished ",
                u64::from(*input),
                u64::from(*range),
            );
        }
        MergeFault::Unequal { prefix, range, .. } => {
            say_numbers(err, "merge: Unequal ", *prefix, u64::from(*range));
        }
        MergeFault::Missing { prefix } => {
            say_number(err, "merge: Missing ", *prefix, "\n");
        }
        MergeFault::Memory => {
            say(err, "merge: Memory\n".as_bytes());
        }
    }
}

/// Says why a merge stops.
pub(crate) fn tell<E: Sink>(err: &mut E, stop: &Stop)
    ensures { Says (seen E.held E.faults err.old err.new) (line_of stop.now) }
{
    match stop {
        Stop::Fault(fault) => {
            tell_fault(err, fault);
        }
        Stop::Overflow(path) => {
            say_number(err, "overflow: path ", *path, "\n");
        }
        Stop::WriteFault(count) => {
            say_number(err, "write fault after ", *count as u64, " bytes\n");
        }
    }
}
