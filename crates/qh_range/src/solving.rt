//! The answer of a run.
ghost use Rattle.std.specs.Prelude.{IfOk};
ghost use Rattle.std.specs.Arc.{arc_value};
ghost use Rattle.qh_range.specs.Solved.{IsSolved};

use crate::total::{Total, run_total};
use qh_half::Steps;
use qh_plan::Job;
use qh_print::{Lines, lines_of};
use std::alloc::{AllocError, Global};
use std::sync::Arc;
use std::sync::ledger::Ledger;

/// What a run answers: the lines of the asked amplitudes, or the least path that is over.
#[derive(Drop)]
pub enum Solved {
    Lines(Lines),
    Overflow { path: u64 },
}

/// Computes a job in one thread, without a journal: all ranges in order.
///
/// The lines have for each asked bitstring the asked amplitude: that of the uncut evolution, or, with a prefix value,
/// the sum over that prefix's paths. Overflow comes exactly where the run's value is over, with its path. An Err is want of
/// memory. It counts the kernel calls that it makes.
pub fn solve<L: Ledger>(
    alloc: Global,
    job: &Arc<Job>,
    steps: &mut Steps<L>,
) -> Result<Solved, AllocError>
    ensures { IfOk result (IsSolved (arc_value job.now)) }
{
    match run_total(alloc, job, steps)? {
        Total::Over(path) => Ok(Solved::Overflow { path }),
        Total::Sums(sums) => {
            let circuit = job.circuit();
            let lines = lines_of(alloc, circuit.qubits(), circuit.weight(), job.bits(), &sums)?;
            Ok(Solved::Lines(lines))
        }
    }
}
