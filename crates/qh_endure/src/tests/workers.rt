//! Two workers that quit: what they leave, the caller evaluates, and records in one group.
use crate::tests::alone::{Alone, Told, answers};
use crate::tests::{Asked, BITS, FIRST_GATE, ROOM, SECOND_GATE, TWO, TWO_TEXT, strings};
use qh_disk::{MemDisk, Pick};
use qh_io::{MemSink, MemSource};
use qh_lease::ScriptTimer;
use qh_top::{Ran, qsimh};
use qh_workers::{Pass, Point, WorkerGate};
use std::process::Abort;
use std::sync::Wait;
use std::test::Fail;
use std::thread::Threads;

/// A point of a worker's way, of whatever range.
#[derive(Clone, Copy, PartialEq, Eq, Debug)]
enum Place {
    Claim,
    Computing,
    Deliver,
}

fn place_of(point: Point) -> Place {
    match point {
        Point::BeforeClaim => Place::Claim,
        Point::Computing { range: _ } => Place::Computing,
        Point::BeforeDeliver { range: _ } => Place::Deliver,
    }
}

/// A gate at which one worker ends at one point.
#[derive(Clone, Copy)]
struct QuitGate {
    worker: u32,
    place: Place,
}

impl WorkerGate for QuitGate {
    ghost may_quit = { λ _. Unit {0} };

    ghost stops = { λ _ _ _. ⊥ };

    fn pass(&self, worker: u32, point: Point) -> Pass {
        if worker != self.worker {
            return Pass::Go;
        }
        if place_of(point) == self.place {
            return Pass::Quit;
        }
        Pass::Go
    }
}

/// A gate that lets no worker go on.
struct ShutGate;

impl WorkerGate for ShutGate {
    ghost may_quit = { λ _. Unit {0} };

    ghost stops = { λ _ _ _. Unit {0} };

    fn pass(&self, _worker: u32, _point: Point) -> Pass {
        Pass::Quit
    }
}

const SHARED: Asked = Asked {
    words: &["-c", "a", "-i", "b", "-k", "0", "-p", "1", "-t", "2"],
    circuit: b"2\n0 h 0\n0 h 1\n1 cz 0 1\n2 h 0\n3 cz 0 1\n",
};

const SHARED_KEPT: Asked = Asked {
    words: &[
        "-c", "a", "-i", "b", "-k", "0", "-p", "1", "-t", "2", "-j", "j",
    ],
    circuit: b"2\n0 h 0\n0 h 1\n1 cz 0 1\n2 h 0\n3 cz 0 1\n",
};

const TWO_TOLD: Told = Told {
    status: 0,
    out: TWO_TEXT,
    err: b"",
};

const DISK_FAULT: Told = Told {
    status: 5,
    out: b"",
    err: b"disk fault\n",
};

/// Runs by two workers over an empty journal whose disk stops after so many calls, compares what is answered, and hands the disk back.
fn run<R: Abort + AllocGlobal + Threads + Wait + Sync, W: WorkerGate + Sync>(
    rt: &R,
    asked: &Asked,
    stop: Option<u64>,
    gate: &W,
    told: &Told,
) -> Result<MemDisk, Fail> {
    let alloc = rt.alloc();
    let words = strings(alloc, asked.words)?;
    let mut circuit = MemSource::new(alloc, asked.circuit, 64, &[])?;
    let mut bits = MemSource::new(alloc, BITS, 64, &[])?;
    let mut out = MemSink::new(alloc, 400, 400, &[])?;
    let mut err = MemSink::new(alloc, 100, 100, &[])?;
    let disk = MemDisk::new(alloc, b"", ROOM, &[], stop)?;
    let mut old = MemDisk::new(alloc, b"", 0, &[], None)?;
    let mut timer = ScriptTimer::new(alloc, &[])?;
    let Ran { status, disk } = qsimh(
        rt,
        alloc,
        &words,
        &mut circuit,
        &mut bits,
        &mut out,
        &mut err,
        disk,
        &mut old,
        &mut timer,
        gate,
    );
    assert_eq!(rt; (status, err.bytes()), (told.status, told.err));
    assert_eq!(rt; out.bytes(), told.out);
    Ok(disk)
}

/// One of the two workers quits at one of the three points.
#[test]
fn one_worker_quits(rt: HostRuntime) -> Result<(), Fail> {
    for (worker, place) in [
        (0, Place::Claim),
        (0, Place::Computing),
        (0, Place::Deliver),
        (1, Place::Claim),
        (1, Place::Computing),
        (1, Place::Deliver),
    ] {
        run(&rt, &SHARED, None, &QuitGate { worker, place }, &TWO_TOLD)?;
    }
    Ok(())
}

/// The group's bodies are calls 9 and 10 and its gates 12 and 13, a sync behind each two: by the stop and the crash, what the gates of both slots read as.
const GROUPS: [(u64, Pick, u8); 3] = [
    (13, Pick::New, 0xa5),
    (13, Pick::Old, 0),
    (11, Pick::New, 0),
];

/// Both workers quit, and the caller records both ranges as one group.
#[test]
fn both_workers_quit(rt: HostRuntime) -> Result<(), Fail> {
    run(&rt, &SHARED_KEPT, Some(14), &ShutGate, &TWO_TOLD)?;
    for (stop, pick, gate) in GROUPS {
        let mut disk = run(&rt, &SHARED_KEPT, Some(stop), &ShutGate, &DISK_FAULT)?;
        disk.crash(pick);
        let gates = (disk.bytes().get(FIRST_GATE), disk.bytes().get(SECOND_GATE));
        assert_eq!(rt; gates, (Some(&gate), Some(&gate)));
        disk.again(None, None);
        answers(&rt, &Alone::of(&TWO), &mut disk, &TWO_TOLD)?;
    }
    Ok(())
}
