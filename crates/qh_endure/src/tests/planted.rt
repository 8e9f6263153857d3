//! Journals that somebody else wrote: what is read is counted, and a file that is refused stays as it is.
use crate::tests::alone::{Alone, Told, answers};
use crate::tests::{Asked, BELL, BELL_CIRCUIT, BELL_TEXT, BELL_TOLD, ROOM};
use qh_disk::{MemDisk, Pick};
use std::alloc::{AllocError, Global};
use std::process::Abort;
use std::test::Fail;

/// The text of the job of all of Bell's bitstrings. It has one range.
const BELL_JOB: &[u8] =
    b"job 1\npart 0\nsplit 0 0\nprefix all\nbits 4\n00\n10\n01\n11\ngates 2\n2\n0 h 0\n1 cnot 0 1\n";

/// What stands before the job text in Bell's journal, in format 2 and in format 1.
const HEAD: &[u8] = b"\xa5QSHJ002\0\0\0\0\0\0\0\x50\0\0\0\0\0\0\0\x01\0\0\0\0\0\0\0\x04";

const OLD_HEAD: &[u8] = b"\xa5QSHJ001\0\0\0\0\0\0\0\x50";

/// The bytes of a slot of four bitstrings.
const SLOT: usize = 266;

/// Bell's finished journal behind this head: its sums are 1, 0, 0, 1.
fn finished(alloc: Global, head: &[u8]) -> Result<Vec<u8>, AllocError> {
    let mut slot = vec![in alloc; 0; SLOT]?;
    slot[0] = 0xa5;
    slot[25] = 1;
    slot[217] = 1;
    let mut bytes = Vec::from_slice(alloc, head)?;
    bytes.extend_from_slice(BELL_JOB)?;
    bytes.extend_from_slice(slot.as_slice())?;
    Ok(bytes)
}

/// The same with other bytes at some places, or one more behind the last.
fn planted(alloc: Global, changes: &[(usize, u8)]) -> Result<Vec<u8>, AllocError> {
    let mut bytes = finished(alloc, HEAD)?;
    for (at, byte) in changes {
        if *at < bytes.len() {
            bytes[*at] = *byte;
        } else {
            bytes.push(*byte)?;
        }
    }
    Ok(bytes)
}

/// A call over a journal of these bytes, which stay.
fn looks(
    rt: &(impl Abort + AllocGlobal),
    asked: &Asked,
    bytes: &[u8],
    told: &Told,
) -> Result<(), Fail> {
    assert!(rt; bytes.len() as u64 <= ROOM);
    let mut disk = MemDisk::new(rt.alloc(), bytes, ROOM, &[], Some(4))?;
    answers(rt, &Alone::of(asked), &mut disk, told)?;
    assert_eq!(rt; disk.bytes(), bytes);
    Ok(())
}

/// A call that writes no output.
const fn refused(status: u8, err: &'static [u8]) -> Told {
    Told {
        status,
        out: b"",
        err,
    }
}

/// The places of slot 0: its verdict byte, and of a path its last byte; the last bytes of the first and the last coefficient that are not 0.
const VERDICT: usize = 113;

const PATH: usize = 121;

const FIRST: usize = 137;

const LAST: usize = 329;

/// What stands at some places, and what the call then answers.
const CHANGES: [(&[(usize, u8)], u8, &[u8], &[u8]); 8] = [
    (&[], 0, BELL_TEXT, b""),
    (&[(0, 0x37)], 8, b"", b"journal: Unbegun\n"),
    (&[(7, b'0')], 8, b"", b"journal: NotAJournal\n"),
    (&[(378, 0)], 8, b"", b"journal: BadLength 379\n"),
    (
        &[(VERDICT, 1), (PATH, 1), (FIRST, 0), (LAST, 0)],
        3,
        b"",
        b"overflow: path 1\n",
    ),
    (
        &[(VERDICT, 1), (PATH, 2), (FIRST, 0), (LAST, 0)],
        8,
        b"",
        b"journal: BadSlot 0\n",
    ),
    (&[(VERDICT, 2)], 8, b"", b"journal: BadSlot 0\n"),
    (&[(FIRST, 5)], 0, FIVE_TEXT, b""),
];

const FIVE_TEXT: &[u8] = b"00 5 0 0 0 1\n10 0 0 0 0 0\n01 0 0 0 0 0\n11 1 0 0 0 1\n";

#[test]
fn changed_by_hand(rt: HostRuntime) -> Result<(), Fail> {
    for (changes, status, out, err) in CHANGES {
        let told = Told { status, out, err };
        looks(&rt, &BELL, &planted(rt.alloc(), changes)?, &told)?;
    }
    Ok(())
}

/// Another circuit with Bell's words.
const FLIPPED: Asked = Asked {
    words: &["-c", "a", "-i", "b", "-k", "0", "-j", "j"],
    circuit: b"2\n0 x 0\n1 cnot 0 1\n",
};

/// The journal of another job, and one of the first format.
#[test]
fn not_of_this_job(rt: HostRuntime) -> Result<(), Fail> {
    let other = refused(8, b"journal: OtherJob at 97\n");
    looks(&rt, &FLIPPED, &finished(rt.alloc(), HEAD)?, &other)?;
    let old = refused(8, b"journal: OldJournal\n");
    looks(&rt, &BELL, &finished(rt.alloc(), OLD_HEAD)?, &old)
}

const BELL_FROM: Asked = Asked {
    words: &["-c", "a", "-i", "b", "-k", "0", "-j", "j", "--from", "o"],
    circuit: BELL_CIRCUIT,
};

/// An old journal is taken over by an empty one, and an empty old one is refused.
#[test]
fn taken_over(rt: HostRuntime) -> Result<(), Fail> {
    let alloc = rt.alloc();
    let former = finished(alloc, OLD_HEAD)?;
    let mut disk = MemDisk::new(alloc, b"", ROOM, &[], None)?;
    answers(
        &rt,
        &Alone::over(&BELL_FROM, &former),
        &mut disk,
        &BELL_TOLD,
    )?;
    let whole = finished(alloc, HEAD)?;
    assert_eq!(rt; disk.bytes(), whole.as_slice());

    let mut empty = MemDisk::new(alloc, b"", ROOM, &[], None)?;
    let none = refused(8, b"old journal: Empty\n");
    answers(&rt, &Alone::of(&BELL_FROM), &mut empty, &none)?;
    assert!(rt; empty.bytes().is_empty());
    Ok(())
}

/// The takeover stops behind its eighth call on the journal and crashes. The next run goes on over a head that stands, and refuses one that does not.
#[test]
fn stopped_while_it_is_taken_over(rt: HostRuntime) -> Result<(), Fail> {
    let alloc = rt.alloc();
    let former = finished(alloc, OLD_HEAD)?;
    for (pick, told) in [
        (Pick::New, BELL_TOLD),
        (Pick::Old, refused(8, b"journal: Unbegun\n")),
    ] {
        let mut disk = MemDisk::new(alloc, b"", ROOM, &[], Some(8))?;
        let call = Alone::over(&BELL_FROM, &former);
        answers(&rt, &call, &mut disk, &refused(5, b"disk fault\n"))?;
        disk.crash(pick);
        disk.again(None, None);
        answers(&rt, &call, &mut disk, &told)?;
    }
    Ok(())
}
