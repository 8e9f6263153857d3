//! A disk over a real file.
use qh_disk::{Disk, Failed, FileDisk};
use std::fs;
use std::fs::File;
use std::process::Abort;
use std::rt::Files;
use std::test::Fail;

const PATH: &str = "qh_disk_real_file";

const OLD: &str = "qh_disk_old_file";

#[derive(Clone, Copy, Debug)]
enum Call {
    Length(u64),
    SetLength(u64),
    Write(u64, &'static [u8]),
    Read(u64, &'static [u8]),
    Sync,
}

// Makes one call, and compares the length or six bytes from an offset on.
fn is_so<R: Files<File = File> + Sync>(
    disk: &mut FileDisk<'_, R>,
    call: Call,
) -> Result<bool, Failed> {
    match call {
        Call::Length(want) => return Ok(disk.len()? == want),
        Call::SetLength(length) => disk.set_len(length)?,
        Call::Write(at, bytes) => disk.write_at(at, bytes)?,
        Call::Read(at, want) => {
            let mut bytes = [7; 6];
            disk.read_at(at, &mut bytes)?;
            return Ok(bytes.as_slice() == want);
        }
        Call::Sync => disk.sync()?,
    }
    Ok(true)
}

fn expect<R: Abort + AllocGlobal + Files<File = File> + Sync>(
    rt: &R,
    rows: &[(Call, Result<bool, Failed>)],
) -> Result<(), Fail> {
    let mut disk = FileDisk::new(rt, Some(PATH.to_string(rt.alloc())?));
    for (call, want) in rows {
        let answer = is_so(&mut disk, *call);
        assert_eq!(rt; answer, *want, "{call:?}");
    }
    let mut second = FileDisk::new(rt, Some(PATH.to_string(rt.alloc())?));
    let locked = second.len();
    assert_eq!(rt; locked, Err(Failed { faults: 1 }), "the file is locked");
    Ok(())
}

#[test]
fn a_real_file_gives_back_what_was_written(rt: HostRuntime) -> Result<(), Fail> {
    fs::write(&rt, PATH, b"".as_slice())?;
    fs::remove_file(&rt, PATH)?;
    let written = [
        (Call::SetLength(6), Ok(true)),
        (Call::Write(2, b"XYZ"), Ok(true)),
        (Call::Sync, Ok(true)),
    ];
    let read = [
        (Call::Length(6), Ok(true)),
        (Call::Read(0, b"\0\0XYZ\0"), Ok(true)),
        (Call::Read(1, b""), Err(Failed { faults: 1 })),
        (Call::SetLength(3), Ok(true)),
        (Call::Length(3), Ok(true)),
    ];
    expect(&rt, &written)?;
    expect(&rt, &read)?;
    fs::remove_file(&rt, PATH)?;
    Ok(())
}

#[test]
fn a_file_that_cannot_be_opened_fails_each_call(rt: HostRuntime) -> Result<(), Fail> {
    let nowhere = "no_such_folder/file".to_string(rt.alloc())?;
    for path in [Some(nowhere), None] {
        let mut disk = FileDisk::new(&rt, path);
        let answers = [
            (1, disk.set_len(1)),
            (2, disk.write_at(0, b"a")),
            (3, disk.read_at(0, &mut [0])),
            (4, disk.sync()),
            (5, disk.len().map(|_| ())),
        ];
        for (faults, answer) in answers {
            assert_eq!(rt; answer, Err(Failed { faults }));
        }
    }
    Ok(())
}

#[test]
fn a_disk_for_reading_changes_nothing(rt: HostRuntime) -> Result<(), Fail> {
    let mut missing = FileDisk::read_only(&rt, Some(OLD.to_string(rt.alloc())?));
    assert_eq!(rt; missing.len(), Err(Failed { faults: 1 }), "it is missing");
    assert!(rt; fs::remove_file(&rt, OLD).is_err(), "it is not made");
    fs::write(&rt, OLD, b"kept".as_slice())?;
    let rows = [
        (Call::Length(4), Ok(true)),
        (Call::SetLength(2), Err(Failed { faults: 1 })),
        (Call::Write(1, b"X"), Err(Failed { faults: 2 })),
        (Call::Length(4), Ok(true)),
    ];
    let mut old = FileDisk::read_only(&rt, Some(OLD.to_string(rt.alloc())?));
    for (call, want) in rows {
        let answer = is_so(&mut old, call);
        assert_eq!(rt; answer, want, "{call:?}");
    }
    fs::remove_file(&rt, OLD)?;
    Ok(())
}
