//! Runs of a job of two ranges by one caller: over disks in memory, and without a journal.
use qh_disk::MemDisk;
use qh_job_text::read_job_text;
use qh_lease::ScriptTimer;
use qh_plan::Job;
use qh_ring::Omega;
use qh_run::{Ran, RunEnd, run_kept, run_unkept};
use qh_slots::AttachFault;
use std::alloc::Global;
use std::process::Abort;
use std::sync::Arc;
use std::test::Fail;

/// One gate across the cut is a prefix gate, so that each range begins from a checkpoint of its own.
const TWO: &[u8] =
    b"job 1\npart 0\nsplit 1 0\nprefix all\nbits 4\n00\n10\n01\n11\ngates 5\n2\n0 h 0\n0 h 1\n1 cz 0 1\n2 h 0\n3 cz 0 1\n";

/// No file of these tests is longer.
const ROOM: u64 = 1_000;

fn whole(a: i128) -> Omega {
    Omega { a, ..Omega::ZERO }
}

/// Whether these are the job's sums. By hand: CZ (H ⊗ 1) CZ (H ⊗ H) makes (|00⟩ - |11⟩)/√2 of |00⟩, with three factors 1/√2 left out here.
fn are_sums(end: &RunEnd) -> bool {
    match end {
        RunEnd::Sums(sums) => {
            sums.as_slice() == [whole(2), whole(0), whole(0), whole(-2)].as_slice()
        }
        _ => false,
    }
}

/// Runs the job over a disk that reads as these bytes and stops after so many calls.
fn run(
    rt: &impl Abort,
    alloc: Global,
    job: &Arc<Job>,
    bytes: &[u8],
    fresh: bool,
    stop: Option<u64>,
) -> Result<Ran<MemDisk>, Fail> {
    assert!(rt; bytes.len() as u64 <= ROOM);
    let disk = MemDisk::new(alloc, bytes, ROOM, &[], stop)?;
    let mut old = MemDisk::new(alloc, &[], 0, &[], None)?;
    let mut timer = ScriptTimer::new(alloc, &[])?;
    let shared = Arc::try_clone(job)?;
    Ok(run_kept(alloc, disk, &mut old, shared, fresh, false, &mut timer))
}

/// Stops a run after so many calls of its disk, and runs on over what the disk then reads as.
fn run_on(rt: &impl Abort, alloc: Global, job: &Arc<Job>, stop: u64) -> Result<(), Fail> {
    let stopped = run(rt, alloc, job, &[], false, Some(stop))?;
    assert!(rt; matches!(stopped.end, RunEnd::Disk), "stopped after {stop}");
    // What is not begun is no journal, and is emptied.
    let unbegun = stopped.disk.bytes().first() != Some(&0xa5);
    let second = run(rt, alloc, job, stopped.disk.bytes(), unbegun, None)?;
    assert!(rt; are_sums(&second.end), "after {stop}");
    Ok(())
}

#[test]
fn answers_and_goes_on(rt: HostRuntime) -> Result<(), Fail> {
    let alloc = rt.alloc();
    let job = Arc::new(alloc, read_job_text(alloc, TWO)?)?;
    let first = run(&rt, alloc, &job, &[], false, None)?;
    assert!(rt; are_sums(&first.end));
    let again = run(&rt, alloc, &job, first.disk.bytes(), false, None)?;
    assert!(rt; are_sums(&again.end));
    assert_eq!(rt; again.disk.bytes(), first.disk.bytes());

    for stop in [0, 1, 4, 8, 10] {
        run_on(&rt, alloc, &job, stop)?;
    }
    let foreign = run(&rt, alloc, &job, b"other", false, None)?;
    assert!(rt; matches!(foreign.end, RunEnd::Refused(AttachFault::Unbegun)));
    assert_eq!(rt; foreign.disk.bytes(), b"other".as_slice());
    let fresh = run(&rt, alloc, &job, b"other", true, None)?;
    assert!(rt; are_sums(&fresh.end));

    let mut timer = ScriptTimer::new(alloc, &[])?;
    let unused = MemDisk::new(alloc, &[], 0, &[], None)?;
    let unkept = run_unkept(alloc, unused, job, &mut timer);
    assert!(rt; are_sums(&unkept.end));
    Ok(())
}
