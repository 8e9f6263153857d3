//! Bell's finished journal, and files that name no job.
use qh_disk::MemDisk;
use qh_parts::{JobFault, read_job};
use std::alloc::{AllocError, Global};
use std::process::Abort;
use std::test::Fail;

/// The text of the job of all of Bell's bitstrings: 80 bytes. It has one range.
const BELL: &[u8] =
    b"job 1\npart 0\nsplit 0 0\nprefix all\nbits 4\n00\n10\n01\n11\ngates 2\n2\n0 h 0\n1 cnot 0 1\n";

/// What stands before the job text in Bell's journal, in format 2 and in format 1.
const HEAD: &[u8] = b"\xa5QSHJ002\0\0\0\0\0\0\0\x50\0\0\0\0\0\0\0\x01\0\0\0\0\0\0\0\x04";

const OLD_HEAD: &[u8] = b"\xa5QSHJ001\0\0\0\0\0\0\0\x50";

/// No file of these tests is longer.
const ROOM: u64 = 400;

/// A beginning and Bell's text, so many bytes of them with zeros behind them, and another byte at one place.
fn file_of(
    rt: &impl Abort,
    alloc: Global,
    head: &[u8],
    count: usize,
    edit: Option<(usize, u8)>,
) -> Result<Vec<u8>, AllocError> {
    let mut bytes = Vec::from_slice(alloc, head)?;
    bytes.extend_from_slice(BELL)?;
    bytes.resize(count, 0)?;
    if let Some((at, byte)) = edit {
        assert!(rt; at < bytes.len());
        bytes[at] = byte;
    }
    Ok(bytes)
}

/// Whether Bell's job is read of these bytes, or why none is.
fn found(
    rt: &impl Abort,
    alloc: Global,
    bytes: &[u8],
    stop: Option<u64>,
) -> Result<Result<bool, JobFault>, Fail> {
    assert!(rt; bytes.len() as u64 <= ROOM);
    let mut disk = MemDisk::new(alloc, bytes, ROOM, &[], stop)?;
    match read_job(alloc, &mut disk) {
        Ok(job) => Ok(Ok(job.text() == BELL)),
        Err(fault) => Ok(Err(fault)),
    }
}

#[test]
fn names_and_refusals(rt: HostRuntime) -> Result<(), Fail> {
    use JobFault::{Empty, NoJob, NotAJournal, OldJournal, Unbegun};
    for (head, count, edit, answer) in [
        (HEAD, 378, None, Ok(true)),
        (HEAD, 112, None, Ok(true)),
        (HEAD, 0, None, Err(Empty)),
        (HEAD, 378, Some((0, 0)), Err(Unbegun)),
        (OLD_HEAD, 362, None, Err(OldJournal)),
        (HEAD, 31, None, Err(NotAJournal)),
        (HEAD, 378, Some((7, b'3')), Err(NotAJournal)),
        (HEAD, 378, Some((13, 0x10)), Err(NoJob)),
        (HEAD, 378, Some((14, 0x10)), Err(NoJob)),
        (HEAD, 378, Some((15, 0x4f)), Err(NoJob)),
        (HEAD, 378, Some((23, 2)), Err(NoJob)),
        (HEAD, 378, Some((31, 5)), Err(NoJob)),
        (HEAD, 111, None, Err(NoJob)),
        (HEAD, 378, Some((36, b'2')), Err(NoJob)),
    ] {
        let bytes = file_of(&rt, rt.alloc(), head, count, edit)?;
        assert!(rt; found(&rt, rt.alloc(), bytes.as_slice(), None)? == answer);
    }
    Ok(())
}

#[test]
fn stops(rt: HostRuntime) -> Result<(), Fail> {
    let bytes = file_of(&rt, rt.alloc(), HEAD, 378, None)?;
    for (stop, answer) in [
        (0, Err(JobFault::DiskFault)),
        (1, Err(JobFault::DiskFault)),
        (2, Err(JobFault::DiskFault)),
        (3, Err(JobFault::DiskFault)),
        (4, Ok(true)),
    ] {
        assert!(rt; found(&rt, rt.alloc(), bytes.as_slice(), Some(stop))? == answer);
    }
    Ok(())
}
