//! Journals of both prefix values of a small circuit, merged, and inputs that are not.
use qh_disk::MemDisk;
use qh_io::MemSink;
use qh_limits::MAX_INPUTS;
use qh_merge::merge_run;
use std::alloc::{AllocError, Global};
use std::process::Abort;
use std::test::Fail;

/// The job text, but for the prefix value and one gate's name.
const FRONT: &[u8] = b"job 1\npart 0\nsplit 1 0\nprefix ";

const MIDDLE: &[u8] = b"\nbits 4\n00\n10\n01\n11\ngates 5\n2\n0 h 0\n0 ";

const BACK: &[u8] = b" 1\n1 cz 0 1\n2 h 0\n3 cz 0 1\n";

/// How many bytes they have.
const AROUND: u8 = 95;

/// No journal of these tests is longer.
const ROOM: u64 = 800;

/// The amplitudes of the whole circuit.
const WHOLE: &[u8] = b"00 1 0 0 0 1\n10 0 0 0 0 0\n01 0 0 0 0 0\n11 -1 0 0 0 1\n";

/// A slot: closed, or with the first coefficients of its four sums, or with the path that is over.
#[derive(Clone, Copy)]
enum Slot {
    Closed,
    Sums([i8; 4]),
    Over(u8),
}

/// A journal: its prefix value, the name of that gate, its slots, and which calls of its disk fail.
#[derive(Clone, Copy)]
struct Row {
    prefix: &'static [u8],
    gate: u8,
    slots: &'static [Slot],
    fails: &'static [u64],
}

const ZERO: Row = Row {
    prefix: b"0",
    gate: b'h',
    slots: &[Slot::Sums([1, 1, 1, -1])],
    fails: &[],
};

const ONE: Row = Row {
    prefix: b"1",
    gate: b'h',
    slots: &[Slot::Sums([1, -1, -1, -1])],
    fails: &[],
};

const FIVE: Row = Row {
    prefix: b"0",
    gate: b'h',
    slots: &[Slot::Sums([5, 1, 1, -1])],
    fails: &[],
};

const OPEN: Row = Row {
    prefix: b"1",
    gate: b'h',
    slots: &[Slot::Closed],
    fails: &[],
};

const PAST: Row = Row {
    prefix: b"2",
    gate: b'h',
    slots: &[Slot::Closed],
    fails: &[],
};

const ALL: Row = Row {
    prefix: b"all",
    gate: b'h',
    slots: &[Slot::Closed, Slot::Closed],
    fails: &[],
};

const ZERO_OVER: Row = Row {
    prefix: b"0",
    gate: b'h',
    slots: &[Slot::Over(1)],
    fails: &[],
};

const ONE_OVER: Row = Row {
    prefix: b"1",
    gate: b'h',
    slots: &[Slot::Over(3)],
    fails: &[],
};

const STRANGE: Row = Row {
    prefix: b"1",
    gate: b't',
    slots: &[Slot::Closed],
    fails: &[],
};

const FAILS: Row = Row {
    prefix: b"1",
    gate: b'h',
    slots: &[Slot::Sums([1, -1, -1, -1])],
    fails: &[3],
};

/// The bytes of a slot.
fn push_slot(bytes: &mut Vec<u8>, slot: Slot) -> Result<(), AllocError> {
    let (sums, over) = match slot {
        Slot::Closed => return bytes.resize(bytes.len() + 266, 0),
        Slot::Sums(sums) => (sums, None),
        Slot::Over(path) => ([0; 4], Some(path)),
    };
    bytes.push(0xa5)?;
    bytes.push(u8::from(over.is_some()))?;
    bytes.extend_from_slice(&u64::from(over.unwrap_or(0)).to_be_bytes())?;
    for a in sums {
        bytes.extend_from_slice(&i128::from(a).to_be_bytes())?;
        bytes.extend_from_slice(&[0; 48])?;
    }
    Ok(())
}

/// The bytes of a journal.
fn journal(alloc: Global, row: &Row) -> Result<Vec<u8>, AllocError> {
    let mut bytes = Vec::from_slice(alloc, b"\xa5QSHJ002")?;
    let text = u64::from(AROUND) + 1 + row.prefix.len() as u64;
    bytes.extend_from_slice(&text.to_be_bytes())?;
    bytes.extend_from_slice(&(row.slots.len() as u64).to_be_bytes())?;
    bytes.extend_from_slice(&4u64.to_be_bytes())?;
    bytes.extend_from_slice(FRONT)?;
    bytes.extend_from_slice(row.prefix)?;
    bytes.extend_from_slice(MIDDLE)?;
    bytes.push(row.gate)?;
    bytes.extend_from_slice(BACK)?;
    for slot in row.slots {
        push_slot(&mut bytes, *slot)?;
    }
    Ok(bytes)
}

/// Merges these journals, with so much room for the output, and compares the status, the output and the line.
fn expect(
    rt: &(impl Abort + AllocGlobal),
    rows: &[Row],
    room: usize,
    status: u8,
    text: &[u8],
    line: &[u8],
) -> Result<(), Fail> {
    let mut disks = Vec::new(rt.alloc());
    for row in rows {
        let bytes = journal(rt.alloc(), row)?;
        assert!(rt; bytes.len() as u64 <= ROOM);
        disks.push(MemDisk::new(rt.alloc(), bytes.as_slice(), ROOM, row.fails, None)?)?;
    }
    assert!(rt; disks.len() <= MAX_INPUTS);
    let mut out = MemSink::new(rt.alloc(), room, 7, &[])?;
    let mut err = MemSink::new(rt.alloc(), 100, 7, &[])?;
    let ended = merge_run(rt.alloc(), disks.as_mut_slice(), &mut out, &mut err);
    assert_eq!(rt; ended, status);
    assert_eq!(rt; out.bytes(), text);
    assert_eq!(rt; err.bytes(), line);
    Ok(())
}

#[test]
fn merges(rt: HostRuntime) -> Result<(), Fail> {
    expect(&rt, &[ONE, ZERO], 100, 0, WHOLE, b"")?;
    expect(&rt, &[ZERO, ZERO, ONE], 100, 0, WHOLE, b"")?;
    expect(
        &rt,
        &[ONE_OVER, ZERO_OVER],
        100,
        3,
        b"",
        b"overflow: path 1\n",
    )?;
    expect(&rt, &[ZERO, ONE_OVER], 100, 3, b"", b"overflow: path 3\n")
}

#[test]
fn refuses(rt: HostRuntime) -> Result<(), Fail> {
    for (rows, line) in [
        ([ZERO].as_slice(), b"merge: Missing 1\n".as_slice()),
        ([ONE].as_slice(), b"merge: Missing 0\n".as_slice()),
        (
            [ZERO, FIVE, ONE].as_slice(),
            b"merge: Unequal 0 0\n".as_slice(),
        ),
        (
            [ZERO, OPEN].as_slice(),
            b"merge: Unfinished 1 0\n".as_slice(),
        ),
        ([ZERO, PAST].as_slice(), b"merge: Unread 1\n".as_slice()),
        (
            [ZERO, STRANGE].as_slice(),
            b"merge: OtherFamily 1\n".as_slice(),
        ),
        ([ALL, OPEN].as_slice(), b"merge: WholeJob 0\n".as_slice()),
    ] {
        expect(&rt, rows, 100, 2, b"", line)?;
    }
    Ok(())
}

#[test]
fn faults(rt: HostRuntime) -> Result<(), Fail> {
    expect(&rt, &[], 100, 1, b"", b"merge: NoInput\n")?;
    expect(&rt, &[ZERO, FAILS], 100, 5, b"", b"merge: DiskFault 1\n")?;
    expect(
        &rt,
        &[ZERO, ONE],
        20,
        6,
        &WHOLE[..20],
        b"write fault after 20 bytes\n",
    )
}
