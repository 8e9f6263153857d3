//! Runs by several workers: over disks in memory, and without a journal.
use crate::tests::counted::count;
use crate::tests::meeting::Meeting;
use crate::{run_kept_shared, run_unkept_shared};
use qh_disk::MemDisk;
use qh_job_text::read_job_text;
use qh_lease::ScriptTimer;
use qh_plan::Job;
use qh_ring::Omega;
use qh_run::{Ran, RunEnd};
use qh_workers::{FreeGate, WorkerGate};
use std::alloc::Global;
use std::process::Abort;
use std::sync::{Arc, Wait};
use std::test::Fail;
use std::thread::Threads;

mod alone;
mod counted;
mod meeting;

/// One gate across the cut is a prefix gate and one a root gate, so that there are four ranges.
const TWO: &[u8] =
    b"job 1\npart 0\nsplit 1 1\nprefix all\nbits 4\n00\n10\n01\n11\ngates 5\n2\n0 h 0\n0 h 1\n1 cz 0 1\n2 h 0\n3 cz 0 1\n";

/// Two ranges.
const BELL: &[u8] =
    b"job 1\npart 0\nsplit 1 0\nprefix all\nbits 4\n00\n10\n01\n11\ngates 2\n2\n0 h 0\n1 cnot 0 1\n";

/// By hand: CZ (H ⊗ 1) CZ (H ⊗ H) makes (|00⟩ - |11⟩)/√2 of |00⟩, with three factors 1/√2 left out.
const TWO_SUMS: [i128; 4] = [2, 0, 0, -2];

/// By hand: (|00⟩ + |11⟩)/√2, with one factor 1/√2 left out.
const BELL_SUMS: [i128; 4] = [1, 0, 0, 1];

/// No file of these tests is longer.
const ROOM: u64 = 2_000;

/// Whether a run ended with these whole numbers.
fn has_sums(end: &RunEnd, wanted: &[i128; 4]) -> bool {
    match end {
        RunEnd::Sums(sums) => {
            let whole = |a: i128| Omega { a, ..Omega::ZERO };
            sums.as_slice()
                == [
                    whole(wanted[0]),
                    whole(wanted[1]),
                    whole(wanted[2]),
                    whole(wanted[3]),
                ]
                .as_slice()
        }
        _ => false,
    }
}

/// Runs a job over an empty disk that stops after so many calls, with leases that the timer finds due so often.
fn run<R: Threads + Wait + Sync + Abort, W: WorkerGate + Sync>(
    rt: &R,
    alloc: Global,
    text: &[u8],
    workers: u32,
    due: &[bool],
    stop: Option<u64>,
    gate: &W,
) -> Result<Ran<MemDisk>, Fail> {
    assert!(rt; 1 <= workers && workers <= 16);
    let job = Arc::new(alloc, read_job_text(alloc, text)?)?;
    let disk = MemDisk::new(alloc, &[], ROOM, &[], stop)?;
    let mut old = MemDisk::new(alloc, &[], 0, &[], None)?;
    let mut timer = ScriptTimer::new(alloc, due)?;
    Ok(run_kept_shared(
        rt, alloc, disk, &mut old, job, false, false, workers, &mut timer, gate,
    ))
}

/// So many workers answer these sums, whether leases last or are due at once.
fn check<R: Threads + Wait + Sync + Abort>(
    rt: &R,
    alloc: Global,
    text: &[u8],
    workers: u32,
    wanted: &[i128; 4],
) -> Result<(), Fail> {
    let lasting = run(rt, alloc, text, workers, &[], None, &FreeGate)?;
    assert!(rt; has_sums(&lasting.end, wanted), "{workers} workers");
    let due = run(rt, alloc, text, workers, &[true; 64], None, &FreeGate)?;
    assert!(rt; has_sums(&due.end, wanted), "{workers} workers, due");
    assert_eq!(rt; lasting.disk.bytes(), due.disk.bytes());
    Ok(())
}

#[test]
fn one_worker_answers(rt: HostRuntime) -> Result<(), Fail> {
    check(&rt, rt.alloc(), TWO, 1, &TWO_SUMS)?;
    check(&rt, rt.alloc(), BELL, 1, &BELL_SUMS)
}

#[test]
fn two_workers_answer(rt: HostRuntime) -> Result<(), Fail> {
    check(&rt, rt.alloc(), TWO, 2, &TWO_SUMS)?;
    check(&rt, rt.alloc(), BELL, 2, &BELL_SUMS)
}

#[test]
fn eight_workers_answer(rt: HostRuntime) -> Result<(), Fail> {
    check(&rt, rt.alloc(), TWO, 8, &TWO_SUMS)?;
    check(&rt, rt.alloc(), BELL, 8, &BELL_SUMS)
}

#[test]
fn workers_answer_without_a_journal(rt: HostRuntime) -> Result<(), Fail> {
    let alloc = rt.alloc();
    let job = Arc::new(alloc, read_job_text(alloc, TWO)?)?;
    let unused = MemDisk::new(alloc, &[], 0, &[], None)?;
    let mut timer = ScriptTimer::new(alloc, &[])?;
    let ran = run_unkept_shared(&rt, alloc, unused, job, 8, &mut timer, &FreeGate);
    assert!(rt; has_sums(&ran.end, &TWO_SUMS));
    Ok(())
}

#[test]
fn a_disk_that_fails_ends_all(rt: HostRuntime) -> Result<(), Fail> {
    let stopped = run(&rt, rt.alloc(), TWO, 2, &[], Some(8), &FreeGate)?;
    assert!(rt; matches!(stopped.end, RunEnd::Disk));
    Ok(())
}

/// Two workers compute at once: the first that has a ticket is held until the other has one too.
#[test]
fn two_workers_compute_at_once(rt: HostRuntime) -> Result<(), Fail> {
    let gate = Meeting::new();
    let ran = run(&rt, rt.alloc(), BELL, 2, &[], None, &gate)?;
    assert!(rt; gate.has_met());
    assert!(rt; has_sums(&ran.end, &BELL_SUMS));
    Ok(())
}

/// No result is lost or invented under the lock, and the workers take all ranges: those that they draw, and one that was given
/// back and has to be claimed.
#[test]
fn two_workers_take_both_ranges(rt: HostRuntime) -> Result<(), Fail> {
    let alloc = rt.alloc();
    let job = Arc::new(alloc, read_job_text(alloc, BELL)?)?;
    for (returned, wanted) in [(false, (2, 0, 2)), (true, (3, 1, 2))] {
        let counts = count(&rt, alloc, &job, returned)?;
        assert_eq!(rt; (counts.grants, counts.backs, counts.acks), wanted);
    }
    Ok(())
}
