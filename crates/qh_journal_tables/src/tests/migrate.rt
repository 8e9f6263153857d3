//! Two small journals to the byte: made, stopped and crashed at every call of the disk, changed by hand, and taken over from the first format.
ghost use Rattle.std.specs.Prelude.{◌≡◌, ◌<◌, IfOk, false};
ghost use Rattle.std.specs.Arc.{arc_value};
ghost use Rattle.qh_plan.specs.Jobs.{ranges};
ghost use Rattle.qh_plan.specs.Ranges.{Fits};
ghost use Rattle.qh_slots.specs.Stands.{nones};

use arrayvec::ArrayVec;
use qh_disk::{MemDisk, Pick};
use qh_job_text::read_job_text;
use qh_journal::{AttachFault, Journal, Member, read_slot, wipe};
use qh_migrate::{MigrateFault, OldRefusal, migrate};
use qh_plan::{Job, Verdict};
use qh_ring::Omega;
use std::alloc::{AllocError, Global};
use std::process::Abort;
use std::sync::Arc;
use std::test::Fail;

/// The text of the job of all of Bell's bitstrings: 80 bytes. It has one range of two paths.
const BELL: &[u8] =
    b"job 1\npart 0\nsplit 0 0\nprefix all\nbits 4\n00\n10\n01\n11\ngates 2\n2\n0 h 0\n1 cnot 0 1\n";

/// A job text of 99 bytes with two ranges of two paths each.
const TWO: &[u8] =
    b"job 1\npart 0\nsplit 1 0\nprefix all\nbits 4\n00\n10\n01\n11\ngates 5\n2\n0 h 0\n0 h 1\n1 cz 0 1\n2 h 0\n3 cz 0 1\n";

/// What stands before the job text in Bell's journal, in format 2 and in format 1.
const HEAD: &[u8] = b"\xa5QSHJ002\0\0\0\0\0\0\0\x50\0\0\0\0\0\0\0\x01\0\0\0\0\0\0\0\x04";

const OLD_HEAD: &[u8] = b"\xa5QSHJ001\0\0\0\0\0\0\0\x50";

/// No file of these tests is longer.
const ROOM: u64 = 700;

/// Which of the first two ranges have an open slot.
type Open = (bool, bool);

const NONE: Open = (false, false);

const FIRST: Open = (true, false);

const BOTH: Open = (true, true);

/// Bell's sums 1, 0, 0, 1 as they stand behind the gate of a slot.
fn body(alloc: Global) -> Result<Vec<u8>, AllocError> {
    let mut bytes = vec![in alloc; 0; 265]?;
    bytes[24] = 1;
    bytes[216] = 1;
    Ok(bytes)
}

/// Bell's finished journal, which begins with this.
fn finished(alloc: Global, head: &[u8]) -> Result<Vec<u8>, AllocError> {
    let mut bytes = Vec::from_slice(alloc, head)?;
    bytes.extend_from_slice(BELL)?;
    bytes.push(0xa5)?;
    bytes.extend_from_slice(body(alloc)?.as_slice())?;
    Ok(bytes)
}

/// As many of these bytes, zeros behind them, and other bytes at some places.
fn changed(
    rt: &impl Abort,
    alloc: Global,
    bytes: &[u8],
    count: usize,
    edits: &[(usize, u8)],
) -> Result<Vec<u8>, AllocError> {
    let mut changed = Vec::from_slice(alloc, bytes)?;
    changed.resize(count, 0)?;
    for (at, byte) in edits {
        assert!(rt; *at < changed.len());
        changed[*at] = *byte;
    }
    Ok(changed)
}

/// The job with this text, which has so many ranges.
fn job_of(rt: &impl Abort, alloc: Global, text: &[u8], count: u32) -> Result<Arc<Job>, Fail>
    ensures { IfOk result (λ j. ranges (arc_value j) ≡ count) }
{
    let job = read_job_text(alloc, text)?;
    assert!(rt; job.ranges() == count);
    Ok(Arc::new(alloc, job)?)
}

/// Bell's verdict.
fn sums(rt: &impl Abort, alloc: Global, job: &Job) -> Result<Verdict, Fail>
    requires { 0 < ranges job.now }
    ensures { IfOk result (λ v. Fits job.now 0 v) }
{
    let bytes = body(alloc)?;
    let verdict = read_slot(alloc, bytes.as_slice(), job, 0)?;
    Ok(verdict.expect(rt, "it fits"))
}

/// Whether the verdict is Bell's.
fn is_bells(verdict: Option<&Verdict>) -> bool {
    let want = [Omega::ONE, Omega::ZERO, Omega::ZERO, Omega::ONE];
    match verdict {
        Some(Verdict::Sum(sums)) => sums.values() == want.as_slice(),
        _ => false,
    }
}

/// A disk that reads as these bytes, each of whose calls after the stop fails.
fn disk_of(
    rt: &impl Abort,
    alloc: Global,
    bytes: &[u8],
    stop: Option<u64>,
) -> Result<MemDisk, Fail> {
    assert!(rt; bytes.len() as u64 <= ROOM);
    Ok(MemDisk::new(alloc, bytes, ROOM, &[], stop)?)
}

/// Whether the slot of a range is open.
fn is_open(journal: &Journal<MemDisk>, job: &Job, range: u32) -> bool
    requires { journal.now.job ≡ job.now }
{
    if range < job.ranges() {
        journal.slot(range).is_some()
    } else {
        false
    }
}

/// What an attach finds.
fn found(alloc: Global, disk: MemDisk, job: &Arc<Job>) -> Result<Open, AttachFault> {
    match Journal::attach(alloc, disk, job) {
        Err(unmade) => Err(unmade.fault),
        Ok(journal) => Ok((is_open(&journal, job, 0), is_open(&journal, job, 1))),
    }
}

/// A journal that is made on an empty disk: an attach makes calls 1 and 2, and a create calls 3 to 8. Where one fails, the disk.
fn created(
    rt: &impl Abort,
    alloc: Global,
    disk: MemDisk,
    job: &Arc<Job>,
) -> Result<Journal<MemDisk>, MemDisk>
    ensures { IfOk result (λ k. (k.job ≡ arc_value job.now) × (k.failed ≡ false) × (k.table ≡ nones (arc_value job.now))) }
{
    let disk = match Journal::attach(alloc, disk, job) {
        Err(unmade) => unmade.disk,
        Ok(journal) => journal.into_disk().expect(rt, "it has one"),
    };
    assert!(rt; disk.bytes().is_empty());
    match Journal::create(alloc, disk, job) {
        Err(unmade) => Err(unmade.disk),
        Ok(journal) => Ok(journal),
    }
}

/// The disk of Bell's journal, made, and its sums stored by calls 9 to 12.
fn stored(
    rt: &impl Abort,
    alloc: Global,
    job: &Arc<Job>,
    stop: Option<u64>,
) -> Result<MemDisk, Fail>
    requires { ranges (arc_value job.now) ≡ 1 }
{
    let verdict = sums(rt, alloc, job)?;
    let disk = disk_of(rt, alloc, &[], stop)?;
    match created(rt, alloc, disk, job) {
        Err(disk) => Ok(disk),
        Ok(mut journal) => {
            assert!(rt; journal.slot(0).is_none());
            let answer = journal.store(0, verdict);
            assert!(rt; answer.is_err() == journal.failed());
            Ok(journal.into_disk().expect(rt, "it has one"))
        }
    }
}

/// The disk of the journal of two ranges, made, and both verdicts stored as one group.
fn grouped(
    rt: &impl Abort,
    alloc: Global,
    job: &Arc<Job>,
    stop: Option<u64>,
) -> Result<MemDisk, Fail>
    requires { ranges (arc_value job.now) ≡ 2 }
{
    let first = Verdict::Over { path: 1 };
    let second = Verdict::Over { path: 2 };
    assert!(rt; job.fits(0, &first));
    assert!(rt; job.fits(1, &second));
    let mut group = ArrayVec::new();
    group.push(Member {
        range: 0,
        verdict: first,
    });
    group.push(Member {
        range: 1,
        verdict: second,
    });
    let disk = disk_of(rt, alloc, &[], stop)?;
    match created(rt, alloc, disk, job) {
        Err(disk) => Ok(disk),
        Ok(mut journal) => {
            let answer = journal.store_group(group);
            assert!(rt; answer.is_err() == journal.failed());
            Ok(journal.into_disk().expect(rt, "it has one"))
        }
    }
}

/// What is found after a crash.
fn left(alloc: Global, mut disk: MemDisk, pick: Pick, job: &Arc<Job>) -> Result<Open, AttachFault> {
    disk.crash(pick);
    disk.again(None, None);
    found(alloc, disk, job)
}

/// What a migration from these bytes to an empty disk answers, which is stopped after so many calls of that disk, and the disk after a crash.
fn moved(
    rt: &impl Abort,
    alloc: Global,
    bytes: &[u8],
    job: &Arc<Job>,
    stop: Option<u64>,
    pick: Pick,
) -> Result<(Result<u32, MigrateFault>, MemDisk), Fail> {
    let mut old = disk_of(rt, alloc, bytes, None)?;
    let mut new = MemDisk::new(alloc, &[], ROOM, &[], stop)?;
    let answer = migrate(alloc, &mut old, &mut new, job);
    assert!(rt; old.bytes() == bytes);
    new.crash(pick);
    new.again(None, None);
    Ok((answer, new))
}

#[test]
fn bell_to_the_byte(rt: HostRuntime) -> Result<(), Fail> {
    let job = job_of(&rt, rt.alloc(), BELL, 1)?;
    let disk = stored(&rt, rt.alloc(), &job, None)?;
    let want = finished(rt.alloc(), HEAD)?;
    assert_eq!(rt; want.len(), 378);
    assert_eq!(rt; disk.bytes(), want.as_slice());
    match Journal::attach(rt.alloc(), disk, &job) {
        Ok(journal) => assert!(rt; is_bells(journal.slot(0)) && !journal.failed()),
        Err(_) => assert!(rt; false, "it stands"),
    }
    let verdict = sums(&rt, rt.alloc(), &job)?;
    let mut unkept = Journal::<MemDisk>::unkept(rt.alloc(), &job)?;
    assert!(rt; unkept.slot(0).is_none());
    let answer = unkept.store(0, verdict);
    assert!(rt; answer.is_ok());
    assert!(rt; is_bells(unkept.slot(0)) && !unkept.failed());
    assert!(rt; unkept.into_disk().is_none());
    Ok(())
}

/// Stops Bell's journal after so many calls, crashes it in each way, and compares what is found.
fn crash_in_each_way(
    rt: &impl Abort,
    alloc: Global,
    job: &Arc<Job>,
    stop: u64,
    answers: [Result<Open, AttachFault>; 4],
) -> Result<(), Fail>
    requires { ranges (arc_value job.now) ≡ 1 }
{
    let [old, new, mark, other] = answers;
    for (pick, answer) in [
        (Pick::Old, old),
        (Pick::New, new),
        (Pick::Byte(0xa5), mark),
        (Pick::Byte(0x37), other),
    ] {
        let disk = stored(rt, alloc, job, Some(stop))?;
        assert!(rt;
            left(alloc, disk, pick, job) == answer,
            "stop {stop}, {pick:?}"
        );
    }
    Ok(())
}

#[test]
fn stopped_and_crashed(rt: HostRuntime) -> Result<(), Fail> {
    let empty = Err(AttachFault::Empty);
    let unbegun = Err(AttachFault::Unbegun);
    let job = job_of(&rt, rt.alloc(), BELL, 1)?;
    for (stop, answers) in [
        (0, [empty, empty, empty, empty]),
        (1, [empty, empty, empty, empty]),
        (2, [empty, empty, empty, empty]),
        (3, [empty, unbegun, unbegun, unbegun]),
        (4, [unbegun, unbegun, unbegun, unbegun]),
        (5, [unbegun, unbegun, unbegun, unbegun]),
        (6, [unbegun, unbegun, unbegun, unbegun]),
        (7, [unbegun, Ok(NONE), Ok(NONE), unbegun]),
        (8, [Ok(NONE), Ok(NONE), Ok(NONE), Ok(NONE)]),
        (9, [Ok(NONE), Ok(NONE), Ok(NONE), Ok(NONE)]),
        (10, [Ok(NONE), Ok(NONE), Ok(NONE), Ok(NONE)]),
        (11, [Ok(NONE), Ok(FIRST), Ok(FIRST), Ok(NONE)]),
        (12, [Ok(FIRST), Ok(FIRST), Ok(FIRST), Ok(FIRST)]),
    ] {
        crash_in_each_way(&rt, rt.alloc(), &job, stop, answers)?;
    }
    Ok(())
}

#[test]
fn changed_by_hand(rt: HostRuntime) -> Result<(), Fail> {
    use AttachFault::{BadLength, BadSlot, Empty, NotAJournal, OldJournal, OtherJob, Unbegun};
    let job = job_of(&rt, rt.alloc(), BELL, 1)?;
    let whole = finished(rt.alloc(), HEAD)?;
    let table: [(&str, usize, &[(usize, u8)], Result<Open, AttachFault>); 14] = [
        ("nothing", 378, &[], Ok(FIRST)),
        ("no byte", 0, &[], Err(Empty)),
        ("a closed header", 378, &[(0, 0x37)], Err(Unbegun)),
        ("another name", 378, &[(7, b'0')], Err(NotAJournal)),
        ("the old name", 378, &[(7, b'1')], Err(OldJournal)),
        ("half a head", 31, &[], Err(NotAJournal)),
        ("x for h", 378, &[(97, b'x')], Err(OtherJob { place: 97 })),
        ("more", 379, &[], Err(BadLength { found: 379 })),
        ("a closed gate", 378, &[(112, 0x37), (113, 2)], Ok(NONE)),
        (
            "path 1 is over",
            378,
            &[(113, 1), (121, 1), (137, 0), (329, 0)],
            Ok(FIRST),
        ),
        (
            "path 2 is over",
            378,
            &[(113, 1), (121, 2), (137, 0), (329, 0)],
            Err(BadSlot { range: 0 }),
        ),
        ("verdict 2", 378, &[(113, 2)], Err(BadSlot { range: 0 })),
        ("below 2^95", 378, &[(126, 0x7f)], Ok(FIRST)),
        (
            "2^95",
            378,
            &[(126, 0x80), (137, 0)],
            Err(BadSlot { range: 0 }),
        ),
    ];
    for (name, count, edits, answer) in table {
        let bytes = changed(&rt, rt.alloc(), whole.as_slice(), count, edits)?;
        let disk = disk_of(&rt, rt.alloc(), bytes.as_slice(), None)?;
        assert!(rt; found(rt.alloc(), disk, &job) == answer, "{name}");
    }
    Ok(())
}

#[test]
fn stored_as_a_group(rt: HostRuntime) -> Result<(), Fail> {
    let job = job_of(&rt, rt.alloc(), TWO, 2)?;
    let disk = grouped(&rt, rt.alloc(), &job, Some(14))?;
    assert_eq!(rt; disk.bytes().len(), 663);
    assert_eq!(rt;
        &disk.bytes()[131..141],
        b"\xa5\x01\0\0\0\0\0\0\0\x01".as_slice()
    );
    assert_eq!(rt;
        &disk.bytes()[397..407],
        b"\xa5\x01\0\0\0\0\0\0\0\x02".as_slice()
    );
    for (stop, pick, answer) in [
        (10, Pick::New, NONE),
        (11, Pick::New, NONE),
        (12, Pick::New, FIRST),
        (13, Pick::New, BOTH),
        (13, Pick::Byte(0xa5), BOTH),
        (13, Pick::Byte(0x37), NONE),
        (13, Pick::Old, NONE),
        (14, Pick::Old, BOTH),
    ] {
        let disk = grouped(&rt, rt.alloc(), &job, Some(stop))?;
        assert!(rt;
            left(rt.alloc(), disk, pick, &job) == Ok(answer),
            "stop {stop}"
        );
    }
    Ok(())
}

#[test]
fn wiped(rt: HostRuntime) -> Result<(), Fail> {
    let empty = Err(AttachFault::Empty);
    let unbegun = Err(AttachFault::Unbegun);
    let job = job_of(&rt, rt.alloc(), BELL, 1)?;
    let whole = finished(rt.alloc(), HEAD)?;
    for (stop, pick, answer) in [
        (3, Pick::New, Ok(FIRST)),
        (4, Pick::Old, Ok(FIRST)),
        (4, Pick::New, unbegun),
        (4, Pick::Byte(0x37), unbegun),
        (5, Pick::Old, unbegun),
        (6, Pick::Old, unbegun),
        (6, Pick::New, empty),
        (7, Pick::Old, empty),
    ] {
        let mut disk = disk_of(&rt, rt.alloc(), whole.as_slice(), Some(stop))?;
        assert!(rt; wipe(&mut disk).is_ok() == (stop == 7), "stop {stop}");
        assert!(rt; left(rt.alloc(), disk, pick, &job) == answer, "stop {stop}");
    }
    Ok(())
}

#[test]
fn taken_over(rt: HostRuntime) -> Result<(), Fail> {
    let failed = Err(MigrateFault::NewDisk);
    let job = job_of(&rt, rt.alloc(), BELL, 1)?;
    let old = finished(rt.alloc(), OLD_HEAD)?;
    let whole = finished(rt.alloc(), HEAD)?;
    assert_eq!(rt; old.len(), 362);
    let disk = disk_of(&rt, rt.alloc(), old.as_slice(), None)?;
    assert!(rt; found(rt.alloc(), disk, &job) == Err(AttachFault::OldJournal));
    for (stop, pick, answer, after) in [
        (7, Pick::Old, Ok(1), Ok(FIRST)),
        (6, Pick::New, failed, Ok(FIRST)),
        (6, Pick::Old, failed, Err(AttachFault::Unbegun)),
        (5, Pick::New, failed, Err(AttachFault::Unbegun)),
        (1, Pick::Old, failed, Err(AttachFault::Empty)),
    ] {
        let (got, disk) = moved(&rt, rt.alloc(), old.as_slice(), &job, Some(stop), pick)?;
        assert!(rt; got == answer, "stop {stop}");
        let is_whole = disk.bytes() == whole.as_slice();
        assert!(rt; is_whole == after.is_ok(), "stop {stop}");
        assert!(rt; found(rt.alloc(), disk, &job) == after, "stop {stop}");
    }
    Ok(())
}

#[test]
fn not_taken_over(rt: HostRuntime) -> Result<(), Fail> {
    use OldRefusal::{BadLength, BadSlot, Empty, NotAJournal, OtherJob, Unbegun};
    let job = job_of(&rt, rt.alloc(), BELL, 1)?;
    let whole = finished(rt.alloc(), OLD_HEAD)?;
    let table: [(usize, &[(usize, u8)], OldRefusal); 7] = [
        (0, &[], Empty),
        (362, &[(0, 0x37)], Unbegun),
        (362, &[(7, b'2')], NotAJournal),
        (15, &[], NotAJournal),
        (362, &[(81, b'x')], OtherJob { place: 81 }),
        (363, &[], BadLength { found: 363 }),
        (362, &[(97, 2)], BadSlot { range: 0 }),
    ];
    for (count, edits, why) in table {
        let bytes = changed(&rt, rt.alloc(), whole.as_slice(), count, edits)?;
        let (got, disk) = moved(&rt, rt.alloc(), bytes.as_slice(), &job, None, Pick::New)?;
        assert!(rt; got == Err(MigrateFault::Refused { why }), "{why:?}");
        assert!(rt; disk.bytes().is_empty(), "{why:?}");
    }
    Ok(())
}
