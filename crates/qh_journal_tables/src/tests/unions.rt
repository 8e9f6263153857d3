//! Journals of both prefix values of a small circuit, merged, and inputs that are not.
use qh_disk::MemDisk;
use qh_limits::MAX_INPUTS;
use qh_merge::{MergeFault, Merged, merge};
use std::alloc::{AllocError, Global};
use std::process::Abort;
use std::test::Fail;

/// What stands before a job text of 97 bytes with one range and four bitstrings.
const HEAD: &[u8] = b"\xa5QSHJ002\0\0\0\0\0\0\0\x61\0\0\0\0\0\0\0\x01\0\0\0\0\0\0\0\x04";

/// The job text up to its prefix value, and behind it.
const FRONT: &[u8] = b"job 1\npart 0\nsplit 1 0\nprefix ";

const BACK: &[u8] =
    b"\nbits 4\n00\n10\n01\n11\ngates 5\n2\n0 h 0\n0 h 1\n1 cz 0 1\n2 h 0\n3 cz 0 1\n";

/// The amplitudes of the whole circuit.
const WHOLE: &[u8] = b"00 1 0 0 0 1\n10 0 0 0 0 0\n01 0 0 0 0 0\n11 -1 0 0 0 1\n";

/// A journal by its prefix value, whether its slot is open, and the first coefficients of its four sums.
type Row = (u8, bool, [i8; 4]);

const ZERO: Row = (b'0', true, [1, 1, 1, -1]);

const ONE: Row = (b'1', true, [1, -1, -1, -1]);

/// What is expected: the lines, or the name of the fault and its numbers.
type Answer = Result<&'static [u8], (&'static str, u64, u64)>;

/// The bytes of a journal.
fn journal(alloc: Global, row: &Row) -> Result<Vec<u8>, AllocError> {
    let (prefix, open, sums) = row;
    let mut bytes = Vec::from_slice(alloc, HEAD)?;
    bytes.extend_from_slice(FRONT)?;
    bytes.push(*prefix)?;
    bytes.extend_from_slice(BACK)?;
    bytes.push(if *open { 0xa5 } else { 0 })?;
    bytes.extend_from_slice(&[0; 9])?;
    for a in sums {
        bytes.extend_from_slice(&i128::from(*a).to_be_bytes())?;
        bytes.extend_from_slice(&[0; 48])?;
    }
    Ok(bytes)
}

/// A disk that holds a journal.
fn disk_of(rt: &impl Abort, alloc: Global, row: &Row) -> Result<MemDisk, Fail> {
    let bytes = journal(alloc, row)?;
    assert!(rt; bytes.len() <= 400);
    Ok(MemDisk::new(alloc, bytes.as_slice(), 400, &[], None)?)
}

/// The name of a fault and its numbers.
fn told(fault: &MergeFault) -> (&'static str, u64, u64) {
    match fault {
        MergeFault::NoInput => ("NoInput", 0, 0),
        MergeFault::DiskFault { input } => ("DiskFault", u64::from(*input), 0),
        MergeFault::Unread { input } => ("Unread", u64::from(*input), 0),
        MergeFault::WholeJob { input } => ("WholeJob", u64::from(*input), 0),
        MergeFault::OtherFamily { input } => ("OtherFamily", u64::from(*input), 0),
        MergeFault::Unfinished { input, range } => {
            ("Unfinished", u64::from(*input), u64::from(*range))
        }
        MergeFault::Unequal { prefix, range, .. } => ("Unequal", *prefix, u64::from(*range)),
        MergeFault::Missing { prefix } => ("Missing", *prefix, 0),
        MergeFault::Memory => ("Memory", 0, 0),
    }
}

/// Merges these journals, and compares the answer.
fn check(rt: &impl Abort, alloc: Global, rows: &[Row], answer: Answer) -> Result<(), Fail> {
    let mut disks = Vec::new(alloc);
    for row in rows {
        disks.push(disk_of(rt, alloc, row)?)?;
    }
    assert!(rt; disks.len() <= MAX_INPUTS);
    match (merge(alloc, disks.as_mut_slice()), answer) {
        (Ok(Merged::Lines(lines)), Ok(wanted)) => assert_eq!(rt; lines.as_bytes(), wanted),
        (Err(fault), Err(wanted)) => assert!(rt; told(&fault) == wanted),
        _ => assert!(rt; false),
    }
    Ok(())
}

#[test]
fn merges(rt: HostRuntime) -> Result<(), Fail> {
    let five = (b'0', true, [5, 1, 1, -1]);
    let closed = (b'1', false, [0, 0, 0, 0]);
    let past = (b'2', true, [0, 0, 0, 0]);
    for (rows, answer) in [
        ([ONE, ZERO, ZERO].as_slice(), Ok(WHOLE)),
        ([ONE, ZERO].as_slice(), Ok(WHOLE)),
        ([ZERO, ZERO, ONE].as_slice(), Ok(WHOLE)),
        ([ZERO].as_slice(), Err(("Missing", 1, 0))),
        ([ONE].as_slice(), Err(("Missing", 0, 0))),
        ([ZERO, five, ONE].as_slice(), Err(("Unequal", 0, 0))),
        ([ZERO, closed].as_slice(), Err(("Unfinished", 1, 0))),
        ([ZERO, past].as_slice(), Err(("Unread", 1, 0))),
        ([].as_slice(), Err(("NoInput", 0, 0))),
    ] {
        check(&rt, rt.alloc(), rows, answer)?;
    }
    Ok(())
}
