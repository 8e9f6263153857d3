//! The call that the program makes.
ghost use Rattle.std.specs.Prelude.{◌≡◌, ◌≢◌, ◌≤◌, OnOk, IfErr, length};
ghost use Rattle.std.specs.Io.KnownBytes.{Appends};
ghost use Rattle.qh_io.specs.Saying.{Says, seen};
ghost use Rattle.qh_limits.specs.Limits.{max_inputs};
ghost use Rattle.qh_merge.specs.Inputs.{AllLook};
ghost use Rattle.qh_merge.specs.Laws.{AllMade};
ghost use Rattle.qh_merge.specs.Ends.{IsOver, IsPrinted, MayStop, Prints, Stops, status_of};

use crate::say::tell;
use crate::stop::Stop;
use crate::{Merged, merge};
use qh_disk::Disk;
use qh_io::{Sink, write_all_of};
use std::alloc::Global;

/// Merges, and writes the lines.
fn run<D: Disk, O: Sink>(alloc: Global, disks: &mut [D], out: &mut O) -> Result<(), Stop>
    requires { length disks.old ≤ max_inputs }
    ensures printed { OnOk result (Prints D.face disks.new (Appends (O.held out.old) (O.held out.new))) }
    ensures cause { IfErr result (MayStop D.face disks.old disks.new (seen O.held O.faults out.old out.new)) }
    ensures untouched { IfErr result (λ stop. status_of stop ≢ 6 → out.new ≡ out.old) }
    ensures later { O.faults out.old ≤ O.faults out.new }
    ensures looks { AllLook D.face D.loans disks.old disks.new }
{
    let lines = match merge(alloc, disks) {
        Ok(Merged::Lines(lines)) => lines,
        Ok(Merged::Overflow { path }) => return Err(Stop::Overflow(path)),
        Err(fault) => return Err(Stop::Fault(fault)),
    };
    match write_all_of(out, lines.as_bytes()) {
        Ok(()) => Ok(()),
        Err(fault) => Err(Stop::WriteFault(fault.written)),
    }
}

/// Merges the finished journals of all prefix values of one job, and writes the amplitudes of its whole circuit. There
/// are at most 1,024 disks, which count from 0. The answer is the exit status.
pub fn merge_run<D: Disk, O: Sink, E: Sink>(
    alloc: Global,
    disks: &mut [D],
    out: &mut O,
    err: &mut E,
) -> u8
    requires { length disks.old ≤ max_inputs }
    // With status 0 the output got exactly the lines of the merged journals, and the error sink nothing.
    ensures printed { result ≡ 0 → Prints D.face disks.new (Appends (O.held out.old) (O.held out.new)) }
    ensures quiet { result ≡ 0 → err.new ≡ err.old }

    // Where each disk tells what it reads as, and runs of the job that it names made this, these lines are those of the
    // whole circuit, and with status 3 the least path of it that is over was told.
    ensures exact { AllMade D.face disks.new → result ≡ 0 → IsPrinted D.face disks.new (seen O.held O.faults out.old out.new) }
    ensures over { AllMade D.face disks.new → result ≡ 3 → IsOver D.face disks.new (Says (seen E.held E.faults err.old err.new)) }

    // With each other status its cause holds, and its line was told. But for status 6 the output is untouched.
    ensures stopped { result ≢ 0 → Stops result (MayStop D.face disks.old disks.new (seen O.held O.faults out.old out.new)) (Says (seen E.held E.faults err.old err.new)) }
    ensures untouched { result ≢ 0 → result ≢ 6 → out.new ≡ out.old }

    ensures counts { (O.faults out.old ≤ O.faults out.new) × (E.faults err.old ≤ E.faults err.new) }
    ensures looks { AllLook D.face D.loans disks.old disks.new }
{
    match run(alloc, disks, out) {
        Ok(()) => 0,
        Err(stop) => {
            tell(err, &stop);
            stop.status()
        }
    }
}
