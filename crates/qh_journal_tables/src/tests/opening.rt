//! Openings of Bell's journal on disks in memory.
ghost use Rattle.std.specs.Prelude.{◌≡◌, IfOk};
ghost use Rattle.std.specs.Arc.{arc_value};
ghost use Rattle.qh_plan.specs.Jobs.{ranges};

use qh_disk::MemDisk;
use qh_job_text::read_job_text;
use qh_migrate::{OldRefusal, OpenFault, open_journal};
use qh_plan::Job;
use qh_slots::AttachFault;
use std::alloc::{AllocError, Global};
use std::process::Abort;
use std::sync::Arc;
use std::test::Fail;

/// The text of the job of all of Bell's bitstrings: 80 bytes. It has one range of two paths.
const BELL: &[u8] =
    b"job 1\npart 0\nsplit 0 0\nprefix all\nbits 4\n00\n10\n01\n11\ngates 2\n2\n0 h 0\n1 cnot 0 1\n";

/// What stands before the job text in Bell's journal, in format 2 and in format 1.
const HEAD: &[u8] = b"\xa5QSHJ002\0\0\0\0\0\0\0\x50\0\0\0\0\0\0\0\x01\0\0\0\0\0\0\0\x04";

const OLD_HEAD: &[u8] = b"\xa5QSHJ001\0\0\0\0\0\0\0\x50";

/// No file of these tests is longer.
const ROOM: u64 = 700;

/// After how many calls each disk fails.
type Stops = (Option<u64>, Option<u64>);

/// What is opened: the two files, whether the first is emptied, and whether the other is taken over.
#[derive(Drop)]
struct Case<'a> {
    disk: &'a [u8],
    old: &'a [u8],
    fresh: bool,
    taking: bool,
    stops: Stops,
}

/// Bell's finished journal, which begins with this: its sums are 1, 0, 0, 1.
fn journal(alloc: Global, head: &[u8]) -> Result<Vec<u8>, AllocError> {
    let mut body = vec![in alloc; 0; 265]?;
    body[24] = 1;
    body[216] = 1;
    let mut bytes = Vec::from_slice(alloc, head)?;
    bytes.extend_from_slice(BELL)?;
    bytes.push(0xa5)?;
    bytes.extend_from_slice(body.as_slice())?;
    Ok(bytes)
}

/// Bell's job.
fn bell(rt: &impl Abort, alloc: Global) -> Result<Arc<Job>, Fail>
    ensures { IfOk result (λ j. ranges (arc_value j) ≡ 1) }
{
    let job = read_job_text(alloc, BELL)?;
    assert!(rt; job.ranges() == 1);
    Ok(Arc::new(alloc, job)?)
}

/// A disk that reads as these bytes.
fn disk_of(
    rt: &impl Abort,
    alloc: Global,
    bytes: &[u8],
    stop: Option<u64>,
) -> Result<MemDisk, Fail> {
    assert!(rt; bytes.len() as u64 <= ROOM);
    Ok(MemDisk::new(alloc, bytes, ROOM, &[], stop)?)
}

/// Whether an opened journal has Bell's slot, or why it is not opened; and the disk after.
fn answer_to(
    rt: &impl Abort,
    alloc: Global,
    job: &Arc<Job>,
    case: &Case<'_>,
) -> Result<(Result<bool, OpenFault>, MemDisk), Fail>
    requires { ranges (arc_value job.now) ≡ 1 }
{
    let (stop, old_stop) = case.stops;
    let disk = disk_of(rt, alloc, case.disk, stop)?;
    let mut old = disk_of(rt, alloc, case.old, old_stop)?;
    let answer = match open_journal(alloc, disk, &mut old, job, case.fresh, case.taking) {
        Ok(journal) => {
            let found = journal.slot(0).is_some();
            (Ok(found), journal.into_disk().expect(rt, "it has one"))
        }
        Err(back) => (Err(back.fault), back.disk),
    };
    assert!(rt; old.bytes() == case.old);
    Ok(answer)
}

#[test]
fn opened(rt: HostRuntime) -> Result<(), Fail> {
    let job = bell(&rt, rt.alloc())?;
    let bells = journal(rt.alloc(), HEAD)?;
    let olds = journal(rt.alloc(), OLD_HEAD)?;
    let (whole, former) = (bells.as_slice(), olds.as_slice());
    let table: [(&str, &[u8], &[u8], bool, bool, bool); 6] = [
        ("no journal", b"", b"", false, false, false),
        ("a finished one", whole, b"", false, false, true),
        ("one that is emptied", whole, b"", true, false, false),
        ("one that is taken over", b"", former, false, true, true),
        ("both", whole, former, true, true, true),
        ("an old one is not asked", whole, b"", false, true, true),
    ];
    for (name, disk, old, fresh, taking, found) in table {
        let case = Case {
            disk,
            old,
            fresh,
            taking,
            stops: (None, None),
        };
        let (answer, after) = answer_to(&rt, rt.alloc(), &job, &case)?;
        assert!(rt; answer == Ok(found), "{name}");
        assert!(rt; after.bytes().len() == 378, "{name}");
        assert!(rt; after.bytes().starts_with(HEAD), "{name}");
    }
    Ok(())
}

#[test]
fn not_opened(rt: HostRuntime) -> Result<(), Fail> {
    let job = bell(&rt, rt.alloc())?;
    let olds = journal(rt.alloc(), OLD_HEAD)?;
    let former = olds.as_slice();
    let unbegun = AttachFault::Unbegun;
    let formers = AttachFault::OldJournal;
    let empty = OldRefusal::Empty;
    let table: [(&[u8], &[u8], bool, Stops, OpenFault); 7] = [
        (
            b"x",
            b"",
            false,
            (None, None),
            OpenFault::Refused { why: unbegun },
        ),
        (
            b"x",
            former,
            true,
            (None, None),
            OpenFault::Refused { why: unbegun },
        ),
        (
            former,
            b"",
            false,
            (None, None),
            OpenFault::Refused { why: formers },
        ),
        (
            b"",
            b"",
            true,
            (None, None),
            OpenFault::OldRefused { why: empty },
        ),
        (b"", b"", false, (Some(0), None), OpenFault::Disk),
        (b"", former, true, (Some(2), None), OpenFault::Disk),
        (b"", former, true, (None, Some(0)), OpenFault::OldDisk),
    ];
    for (disk, old, taking, stops, fault) in table {
        let case = Case {
            disk,
            old,
            fresh: false,
            taking,
            stops,
        };
        let (answer, after) = answer_to(&rt, rt.alloc(), &job, &case)?;
        assert!(rt; answer == Err(fault), "{fault:?}");
        assert!(rt; after.bytes() == disk, "{fault:?}");
    }
    Ok(())
}
