//! What no contract says: that calls succeed where there is memory, what a real file gives back, and
//! hand-made examples of crashes.
mod lent;
mod real;

use qh_disk::{Disk, Failed, MemDisk, Pick};
use std::test::Fail;

#[derive(Clone, Copy)]
enum Step {
    Write(u64, &'static [u8]),
    Length(u64),
    Sync,
    Crash(Pick),
}

// Takes one step. A write past the end is none.
fn take(disk: &mut MemDisk, step: Step) -> Result<(), Failed> {
    match step {
        Step::Write(at, bytes) => write(disk, at, bytes),
        Step::Length(length) => disk.set_len(length),
        Step::Sync => disk.sync(),
        Step::Crash(pick) => {
            disk.crash(pick);
            Ok(())
        }
    }
}

fn run(disk: &mut MemDisk, steps: &[Step]) -> Result<(), Failed> {
    for step in steps {
        take(disk, *step)?;
    }
    Ok(())
}

fn write(disk: &mut MemDisk, at: u64, bytes: &[u8]) -> Result<(), Failed> {
    let length = disk.bytes().len();
    if length < bytes.len() || at > (length - bytes.len()) as u64 {
        return Err(Failed { faults: 0 });
    }
    disk.write_at(at, bytes)
}

#[test]
fn a_crash_leaves_the_image_that_is_picked(rt: HostRuntime) -> Result<(), Fail> {
    use Pick::{Byte, New, Old};
    use Step::{Crash, Length, Sync, Write};
    let table: [(&[Step], &[u8]); 17] = [
        (&[Write(1, b"XY"), Crash(Old)], b"abcd"),
        (&[Write(1, b"XY"), Crash(New)], b"aXYd"),
        (&[Write(1, b"XY"), Crash(Byte(b'.'))], b"a..d"),
        (
            &[Write(1, b"XY"), Sync, Write(0, b"Z"), Crash(Old)],
            b"aXYd",
        ),
        (
            &[Write(1, b"XY"), Sync, Write(0, b"Z"), Crash(Byte(b'.'))],
            b".XYd",
        ),
        (&[Length(6), Crash(Old)], b"abcd"),
        (&[Length(6), Crash(New)], b"abcd\0\0"),
        (&[Length(6), Crash(Byte(b'.'))], b"abcd\0\0"),
        (&[Length(6), Sync, Crash(Old)], b"abcd\0\0"),
        (&[Length(2), Crash(Old)], b"abcd"),
        (&[Length(2), Crash(New)], b"ab"),
        (&[Length(2), Sync, Crash(Old)], b"ab"),
        (&[Length(6), Write(3, b"pqr"), Crash(Byte(b'.'))], b"abc..."),
        (
            &[Write(2, b"PQ"), Length(2), Length(4), Crash(Byte(b'.'))],
            b"ab\0\0",
        ),
        (
            &[Write(0, b"Z"), Crash(New), Write(1, b"Y"), Crash(Old)],
            b"Zbcd",
        ),
        (
            &[Write(0, b"Z"), Crash(Old), Write(1, b"Y"), Crash(New)],
            b"aYcd",
        ),
        (&[Write(0, b"Z"), Crash(Byte(b'.')), Crash(Old)], b".bcd"),
    ];
    for (steps, left) in table {
        let mut disk = MemDisk::new(rt.alloc(), b"abcd", 8, &[], None)?;
        let done = run(&mut disk, steps);
        assert!(rt; done.is_ok());
        assert_eq!(rt; disk.bytes(), left);
    }
    Ok(())
}

// Makes one call of each kind in turn.
fn call(disk: &mut MemDisk, turn: u64) -> Result<(), Failed> {
    match turn % 5 {
        0 => write(disk, 0, b"Z"),
        1 => disk.set_len(3),
        2 => disk.sync(),
        3 => disk.read_at(0, &mut []),
        _ => {
            disk.len()?;
            Ok(())
        }
    }
}

#[test]
fn the_planned_calls_fail_and_no_other(rt: HostRuntime) -> Result<(), Fail> {
    let mut disk = MemDisk::new(rt.alloc(), b"abcd", 8, &[2, 5, 6], Some(9))?;
    let mut failed = Vec::new(rt.alloc());
    for number in 1..13u64 {
        if let Err(why) = call(&mut disk, number) {
            failed.push((number, why.faults))?;
        }
    }
    let want = [(2, 1), (5, 2), (6, 3), (10, 4), (11, 5), (12, 6)];
    assert_eq!(rt; failed.as_slice(), want.as_slice());

    disk.again(Some(2), Some(3));
    let answers = [
        Ok(3),
        Err(Failed { faults: 7 }),
        Ok(3),
        Err(Failed { faults: 8 }),
    ];
    for want in answers {
        let answer = disk.len();
        assert_eq!(rt; answer, want);
    }
    Ok(())
}

#[test]
fn a_failed_call_changes_nothing(rt: HostRuntime) -> Result<(), Fail> {
    for turn in 0..5 {
        for pick in [Pick::Old, Pick::New, Pick::Byte(b'.')] {
            let mut disk = MemDisk::new(rt.alloc(), b"abcd", 4, &[1], None)?;
            let failed = call(&mut disk, turn);
            assert_eq!(rt; failed, Err(Failed { faults: 1 }));
            disk.crash(pick);
            assert_eq!(rt; disk.bytes(), b"abcd".as_slice());
        }
    }
    let mut disk = MemDisk::new(rt.alloc(), b"abcd", 4, &[], None)?;
    let over = disk.set_len(5);
    assert_eq!(rt; over, Err(Failed { faults: 1 }));
    assert_eq!(rt; disk.bytes(), b"abcd".as_slice());
    Ok(())
}

// Writes ten thousand times, with syncs and crashes between.
fn storm(disk: &mut MemDisk) -> Result<(), Failed> {
    for turn in 0..10_000u64 {
        write(disk, turn % 1000, b"pqrs")?;
        match turn % 8 {
            3 => disk.crash(Pick::Byte(b'.')),
            6 => disk.sync()?,
            7 => disk.crash(Pick::Old),
            _ => {}
        }
    }
    Ok(())
}

// It takes well under a second.
#[test]
fn ten_thousand_calls_with_crashes_between(rt: HostRuntime) -> Result<(), Fail> {
    let mut disk = MemDisk::new(rt.alloc(), &[0; 1024], 4096, &[], None)?;
    let done = storm(&mut disk);
    assert_eq!(rt; done, Ok(()));
    assert_eq!(rt; disk.bytes().len(), 1024);
    Ok(())
}
